//! The numbers of packages, counted from 1.

ghost use Rattle.std.specs.Prelude.{◌≡◌, ◌≤◌, ◌<◌, ◌⊎◌, IfNone, IfSome, false, length, true};
ghost use Rattle.fwupd_nodes.specs.Setups.{is_numbered};
ghost use Rattle.ua_core.specs.Lent.{package_at};

use fw_package::Package;

/// Returns whether `number`, counted from 1, is that of one of `count` packages.
pub fn is_numbered(count: usize, number: usize) -> bool
    ensures value { result ≡ is_numbered count number }
    ensures there { result ≡ true → (1 ≤ number) × (number ≤ count) }
    ensures none { result ≡ false → (number ≡ 0) ⊎ (count < number) }
{
    1 <= number && number <= count
}

/// Returns the package with this number, counted from 1, if there is one.
pub fn numbered<'a>(packages: &'a [Package<'a>], number: usize) -> Option<&'a Package<'a>>
    ensures is { IfSome result (λ p. p.now ≡ package_at packages.now number) }
    ensures there { IfSome result (λ p. (1 ≤ number) × (number ≤ length packages.now)) }
    ensures none { IfNone result ((number ≡ 0) ⊎ (length packages.now < number)) }
{
    let Some(place) = number.checked_sub(1) else {
        return None;
    };
    packages.get(place)
}
