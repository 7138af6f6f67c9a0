//! The values of the option `--package` of `run`: `N`, or `EID=N`.

ghost use Rattle.std.specs.Prelude.{◌≡◌, ◌<◌, map, option_map, ℕ};
ghost use Rattle.fwupd_base.specs.PackageChoices.{number_for};
ghost use Rattle.fwupd_words.specs.Packages.{eid_of, first_malformed, has_twice, number_given, number_of_package, package_of, value_of};

use fwupd_base::PackageChoice;

/// The endpoint identifier of a device, 8 to 254, that a text encodes.
pub(crate) fn eid_in(text: &str) -> Option<u8>
    ensures { result ≡ eid_of text.now }
{
    let Ok(eid) = text.parse::<u8>() else {
        return None;
    };
    if eid < 8 || eid > 254 {
        return None;
    }
    Some(eid)
}

/// The number of a package, from 1, that a text encodes.
fn number_in(text: &str) -> Option<u32>
    ensures { result ≡ number_of_package text.now }
{
    let Ok(number) = text.parse::<u32>() else {
        return None;
    };
    if number < 1 {
        return None;
    }
    Some(number)
}

/// The device that a value names, if it names one, and the number of the package; nothing if the
/// text is malformed.
pub(crate) fn value_in(text: &str) -> Option<(Option<u8>, u32)>
    ensures { result ≡ value_of text.now }
{
    match text.split_once('=') {
        Some((device, number)) => match (eid_in(device), number_in(number)) {
            (Some(eid), Some(number)) => Some((Some(eid), number)),
            _ => None,
        },
        None => match number_in(text) {
            Some(number) => Some((None, number)),
            None => None,
        },
    }
}

/// The first malformed text.
pub(crate) fn malformed_among<'a>(texts: &[&'a str]) -> Option<&'a str>
    ensures { option_map (λ t. t.now) result ≡ first_malformed (map (λ t. t.now) texts.now) }
{
    let mut left = texts;
    while let [text, rest @ ..] = left {
        if value_in(text).is_none() {
            return Some(text);
        }
        left = rest;
    }
    None
}

/// The number that the last value for a device gives; that of the last `N` if there is no device.
fn number_given(device: Option<u8>, texts: &[&str]) -> Option<u32>
    ensures { result ≡ number_given device (map (λ t. t.now) texts.now) }
{
    let mut left = texts;
    let mut found = None;
    while let [text, rest @ ..] = left {
        if let Some((target, number)) = value_in(text) {
            if device == target {
                found = Some(number);
            }
        }
        left = rest;
    }
    found
}

/// Whether two values are `N`, or two name the same device.
pub(crate) fn has_twice(texts: &[&str]) -> bool
    ensures { result ≡ has_twice (map (λ t. t.now) texts.now) }
{
    let mut left = texts;
    while let [text, rest @ ..] = left {
        if let Some((device, _)) = value_in(text) {
            if number_given(device, rest).is_some() {
                return true;
            }
        }
        left = rest;
    }
    false
}

/// The packages of all devices: a device's own, or else that of `N`, or else the first.
pub(crate) fn packages_among(texts: &[&str]) -> PackageChoice
    ensures { (eid : ℕ) → eid < 256
        → number_for result eid ≡ package_of (map (λ t. t.now) texts.now) eid }
{
    let common = match number_given(None, texts) {
        Some(number) => number,
        None => 1,
    };
    let mut packages = PackageChoice::new(common);
    let mut left = texts;
    while let [text, rest @ ..] = left {
        if let Some((Some(eid), number)) = value_in(text) {
            packages.set(eid, number);
        }
        left = rest;
    }
    packages
}
