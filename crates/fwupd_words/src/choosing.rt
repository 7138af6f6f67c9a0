//! The devices that the arguments of `run` name, and their packages.

ghost use Rattle.std.specs.Prelude.{[], ◌≡◌, ◌==◌, ◌||◌, None, is_some, map, ℕ};
ghost use Rattle.std.specs.List.{All, list_any};
ghost use Rattle.fwupd_base.specs.DeviceSets.{has_eid};
ghost use Rattle.fwupd_words.specs.Packages.{has_any_own, has_own};
ghost use Rattle.fwupd_words.specs.Words.{AsksDevices, AsksPackages, IsByte, given_in, is_named, number_of};

use crate::packages::{packages_among, value_in};
use clap::ArgMatches;
use fwupd_base::{DeviceSet, PackageChoice};

/// The number of 8 bits that a text encodes, or 0 if it encodes none.
fn byte_in(text: &str) -> u8
    ensures { IsByte text.now → result ≡ number_of text.now }
{
    match text.parse::<u8>() {
        Ok(number) => number,
        Err(_) => 0,
    }
}

/// The set with one more endpoint identifier, or a new one if there is no set.
fn with_device(devices: Option<DeviceSet>, eid: u8) -> DeviceSet
    ensures { (other : ℕ) → has_eid result other ≡ (is_named devices other || (other == eid)) }
{
    match devices {
        Some(set) => {
            let mut set = set;
            set.insert(eid);
            set
        }
        None => DeviceSet::new(eid),
    }
}

/// The set of the endpoint identifiers in texts; no set if there is no text.
fn devices_among(texts: &[&str]) -> Option<DeviceSet>
    ensures none { texts.now ≡ [] → result ≡ None }
    ensures named { All (λ t. IsByte t.now) texts.now
        → (eid : ℕ) → is_named result eid ≡ list_any (λ t. eid == number_of t.now) texts.now }
{
    let mut devices = None;
    for text in texts {
        devices = Some(with_device(devices, byte_in(text)));
    }
    devices
}

/// The set with the devices that have packages of their own in the values of `--package`.
fn with_own(devices: Option<DeviceSet>, texts: &[&str]) -> Option<DeviceSet>
    ensures some { is_some result
        ≡ (is_some devices || has_any_own (map (λ t. t.now) texts.now)) }
    ensures named { (eid : ℕ)
        → is_named result eid ≡ (is_named devices eid || has_own (map (λ t. t.now) texts.now) eid) }
{
    let mut all = devices;
    let mut left = texts;
    while let [text, rest @ ..] = left {
        if let Some((Some(eid), _)) = value_in(text) {
            all = Some(with_device(all, eid));
        }
        left = rest;
    }
    all
}

/// The devices that the arguments name, or no set if they name none.
pub(crate) fn devices_in(matches: &ArgMatches<'_>) -> Option<DeviceSet>
    ensures { AsksDevices (given_in matches.now) result }
{
    let devices = match matches.get_raw("device") {
        Some(texts) => devices_among(texts),
        None => None,
    };
    match matches.get_raw("package") {
        Some(values) => with_own(devices, values),
        None => devices,
    }
}

/// The packages that the arguments name for devices.
pub(crate) fn packages_in(matches: &ArgMatches<'_>) -> PackageChoice
    ensures { AsksPackages (given_in matches.now) result }
{
    match matches.get_raw("package") {
        Some(texts) => packages_among(texts),
        None => PackageChoice::new(1),
    }
}
