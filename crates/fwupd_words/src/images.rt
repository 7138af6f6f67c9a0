//! The values of the option `--image`: `EID/CLASS-IDENT=PATH`.

ghost use Rattle.std.specs.Prelude.{◌≡◌, ◌≤◌, ◌<◌, IfErr, None, OnOk, codes, length, map, option_map};
ghost use Rattle.fwupd_base.specs.ImageFiles.{files_in, image_file};
ghost use Rattle.fwupd_words.specs.Images.{first_malformed_image, has_image_twice, has_place, image_clash, images_of, is_same_place, key_number, key_of, parts_at, place_of, value_of_image};
ghost use Rattle.fwupd_words.specs.Reading.{RefusesImages};
ghost use Rattle.fwupd_words.specs.Words.{AsksConfig, given_in, texts_under};

use crate::commands::refusal;
use crate::packages::eid_in;
use crate::values::text_under;
use clap::ArgMatches;
use clap::error::ErrorKind;
use fwup_wire::Key;
use fwupd_base::{ConfigSource, ImageFile, ImageFiles, MAX_IMAGE_FILES};
use std::alloc::Global;

/// The parts of a text before and after the first `separator`, an ASCII character.
fn parts_at(text: &str, separator: char) -> Option<(&str, &str)>
    requires { separator < 128 }
    ensures { option_map (λ parts. (parts.0.now, parts.1.now)) result ≡ parts_at separator text.now }
{
    text.split_once(separator)
}

/// The classification or the identifier of a component, 0 to 65535, that a text encodes.
fn key_number_in(text: &str) -> Option<u16>
    ensures { result ≡ key_number text.now }
{
    let Ok(number) = text.parse::<u16>() else {
        return None;
    };
    Some(number)
}

/// The component that a text names: `CLASS-IDENT`.
fn key_in(text: &str) -> Option<Key>
    ensures { result ≡ key_of text.now }
{
    let (class, ident) = parts_at(text, '-')?;
    match (key_number_in(class), key_number_in(ident)) {
        (Some(classification), Some(identifier)) => Some(Key {
            classification,
            identifier,
        }),
        _ => None,
    }
}

/// The device and the component that a text names: `EID/CLASS-IDENT`.
fn place_in(text: &str) -> Option<(u8, Key)>
    ensures { result ≡ place_of text.now }
{
    let (device, component) = parts_at(text, '/')?;
    match (eid_in(device), key_in(component)) {
        (Some(eid), Some(key)) => Some((eid, key)),
        _ => None,
    }
}

/// The file of an image that a value names; nothing if the text is malformed.
fn image_in<'a>(text: &'a str) -> Option<ImageFile<'a>>
    ensures { option_map image_file result ≡ value_of_image text.now }
{
    let (place, path) = parts_at(text, '=')?;
    let (eid, key) = place_in(place)?;
    if path.is_empty() {
        return None;
    }
    Some(ImageFile { eid, key, path })
}

/// The first malformed text.
fn malformed_image<'a>(texts: &[&'a str]) -> Option<&'a str>
    ensures { option_map (λ t. t.now) result ≡ first_malformed_image (map (λ t. t.now) texts.now) }
{
    let mut left = texts;
    while let [text, rest @ ..] = left {
        if image_in(text).is_none() {
            return Some(text);
        }
        left = rest;
    }
    None
}

/// Whether two files are for the same component of the same device.
fn is_same_place(one: &ImageFile<'_>, other: &ImageFile<'_>) -> bool
    ensures { result ≡ is_same_place (image_file one.now) (image_file other.now) }
{
    one.eid == other.eid
        && one.key.classification == other.key.classification
        && one.key.identifier == other.key.identifier
}

/// Whether a value names the place of this file.
fn has_place(texts: &[&str], file: &ImageFile<'_>) -> bool
    ensures { result ≡ has_place (images_of (map (λ t. t.now) texts.now)) (image_file file.now) }
{
    let mut left = texts;
    while let [text, rest @ ..] = left {
        if let Some(other) = image_in(text) {
            if is_same_place(file, &other) {
                return true;
            }
        }
        left = rest;
    }
    false
}

/// Whether two values name the same device and component.
fn has_image_twice(texts: &[&str]) -> bool
    ensures { result ≡ has_image_twice (map (λ t. t.now) texts.now) }
{
    let mut left = texts;
    while let [text, rest @ ..] = left {
        if let Some(file) = image_in(text) {
            if has_place(rest, &file) {
                return true;
            }
        }
        left = rest;
    }
    false
}

/// The files of images that the well-formed values name, in order; at most 48.
fn images_among<'a>(texts: &[&'a str]) -> ImageFiles<'a>
    ensures { length texts.now ≤ 48 → files_in result ≡ images_of (map (λ t. t.now) texts.now) }
{
    let mut images = ImageFiles::new();
    let mut left = texts;
    while let [text, rest @ ..] = left {
        if let Some(file) = image_in(text) {
            let _ = images.push(file);
        }
        left = rest;
    }
    images
}

/// The configuration that the arguments name, with the files of its images.
pub(crate) fn config_in<'a>(matches: &ArgMatches<'a>) -> ConfigSource<'a>
    ensures { AsksConfig (given_in matches.now) result }
{
    let images = match matches.get_raw("image") {
        Some(texts) => images_among(texts),
        None => ImageFiles::new(),
    };
    ConfigSource {
        path: text_under(matches, "CONFIG"),
        images,
    }
}

/// How often values of `--image` may name a component.
const IMAGE_TWICE: &str = "'--image' can be used once for each EID/CLASS-IDENT";

/// How often `--image` may be used.
const IMAGES_FULL: &str = "'--image' can be used 48 times";

/// The values of `--image` of the subcommand `name`, tested.
///
/// # Errors
/// A value is malformed, two name the same device and component, or there are more than 48.
fn test_values(alloc: Global, name: &str, texts: &[&str]) -> Result<(), clap::Error>
    ensures fits { OnOk result (image_clash (map (λ t. t.now) texts.now) ≡ None) }
    ensures refused { IfErr result (RefusesImages (map (λ t. t.now) texts.now)) }
{
    if let Some(text) = malformed_image(texts) {
        let problem = format!(in alloc;
            "invalid value '{text}' for '--image <EID/CLASS-IDENT=PATH>': \
            EID is 8 to 254, CLASS and IDENT are 0 to 65535"
        )?;
        return Err(refusal(alloc, name, ErrorKind::ValueValidation, &problem)?);
    }
    if has_image_twice(texts) {
        return Err(refusal(alloc, name, ErrorKind::ArgumentConflict, IMAGE_TWICE)?);
    }
    if texts.len() > MAX_IMAGE_FILES {
        return Err(refusal(alloc, name, ErrorKind::TooManyValues, IMAGES_FULL)?);
    }
    Ok(())
}

/// Tests the values of `--image` of the subcommand `name`.
///
/// # Errors
/// Those of `test_values`.
pub(crate) fn test_images(
    alloc: Global,
    name: &str,
    matches: &ArgMatches<'_>,
) -> Result<(), clap::Error>
    ensures fits { OnOk result (image_clash (texts_under (given_in matches.now) (codes "image")) ≡ None) }
    ensures refused { IfErr result (RefusesImages (texts_under (given_in matches.now) (codes "image"))) }
{
    match matches.get_raw("image") {
        Some(texts) => test_values(alloc, name, texts),
        None => Ok(()),
    }
}
