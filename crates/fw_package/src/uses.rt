//! The components that a record uses, borrowed from its bitmap.

ghost use Rattle.std.specs.Iterator.{YieldsFirst, item_count};
ghost use Rattle.std.specs.Prelude.{◌≡◌, ◌+◌, ◌-◌, ◌<◌, ◌∷◌, ◌↔◌, [], length, IsTrue, MatchOption};
ghost use Rattle.fw_package.specs.Records.{is_named, components_named};
ghost use Rattle.fw_package.specs.Views.{named_from};

use std::marker::Model;

/// The components of one byte of a bitmap: one for each bit.
pub(crate) const BYTE_BITS: usize = 8;

/// The numbers of components, rising. It is also an iterator over them.
#[derive(Drop)]
pub struct Uses<'a> {
    bitmap: &'a [u8],
    number: u16,
    count: u16,
}

impl<'a> Model for Uses<'a> {
    ghost use Rattle.std.specs.Prelude.{ℕ, List, ◌-◌};
    ghost use Rattle.fw_package.specs.Views.{named_from};

    ghost Value = { List ℕ };

    ghost view = { λ u. named_from u.bitmap.now u.number (u.count - u.number) };
}

impl<'a> Uses<'a> {
    /// Returns the components in a bitmap, with numbers below `count`.
    #[tactic(auto, unfolding(crate::specs::Records::components_named))]
    pub(crate) fn new(bitmap: &'a [u8], count: u16) -> Self
        ensures { result ≡ components_named bitmap.now count }
    {
        Uses {
            bitmap,
            number: 0,
            count,
        }
    }

    /// Returns whether no component is left.
    pub fn is_empty(&self) -> bool
        ensures { IsTrue result ↔ (length self.now ≡ 0) }
    {
        first_named(self.bitmap, self.number, self.count).is_none()
    }

    /// Returns an iterator over the numbers.
    pub fn iter(&self) -> Uses<'a>
        ensures { result ≡ self.now }
    {
        Uses {
            bitmap: self.bitmap,
            number: self.number,
            count: self.count,
        }
    }
}

impl<'a> Iterator for Uses<'a> {
    type Item = u16;

    ghost next_gives = { YieldsFirst (λ left. left) };

    ghost remaining = { item_count (λ left. left) };

    fn next(&mut self) -> Option<u16> {
        let number = first_named(self.bitmap, self.number, self.count)?;
        self.number = number + 1;
        Some(number)
    }
}

/// Returns the first component in a bitmap, from `from` on.
#[tactic(auto, using(crate::proofs::Lists::naming))]
fn first_named(bitmap: &[u8], from: u16, count: u16) -> Option<u16>
    ensures { MatchOption result (named_from bitmap.now from (count - from) ≡ [])
        (λ n. (n < count) × (named_from bitmap.now from (count - from) ≡ n ∷ named_from bitmap.now (n + 1) (count - (n + 1)))) }
{
    for number in from..count {
        if is_named(bitmap, usize::from(number)) {
            return Some(number);
        }
    }
    None
}

/// Returns whether a bitmap names a component.
fn is_named(bitmap: &[u8], number: usize) -> bool
    ensures { result ≡ is_named bitmap.now number }
{
    match bitmap.get(number / BYTE_BITS) {
        Some(byte) => byte >> (number % BYTE_BITS) & 1 == 1,
        None => false,
    }
}
