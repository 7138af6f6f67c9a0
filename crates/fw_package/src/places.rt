//! Components without their images, with each image's place and size.

ghost use Rattle.std.specs.Iterator.{YieldsFirstBy, item_count};
ghost use Rattle.std.specs.Prelude.{◌≡◌, ◌+◌, ◌^◌, ◌<◌, ◌≤◌, length, drop, IsSome};
ghost use Rattle.std.specs.Result.{result_map_both};
ghost use Rattle.fw_package.specs.Components.{place_of};
ghost use Rattle.fw_package.specs.Layout.{after_component, after_components, text_size_of};
ghost use Rattle.fw_package.specs.Lent.{place_seen};
ghost use Rattle.fw_package.specs.Outlines.{place_within, places_of};
ghost use Rattle.fw_package.specs.Package.{text_of};

use crate::fault::PackageFault;
use crate::layout::{COMPONENT_SIZE, COMPONENT_TEXT_LENGTH};
use crate::numbers::{u16_at, u32_at};
use crate::texts::Text;
use std::marker::Model;

/// The place of the component classification.
const CLASSIFICATION: usize = 0;

/// The place of the component identifier.
const IDENTIFIER: usize = 2;

/// The place of the comparison stamp.
const STAMP: usize = 4;

/// The place of the component options.
const OPTIONS: usize = 8;

/// The place of the requested activation methods.
const METHOD: usize = 10;

/// The place of the image's offset.
const OFFSET: usize = 12;

/// The place of the image's size.
const IMAGE_SIZE: usize = 16;

/// The place of the version text's type.
const TEXT_TYPE: usize = 20;

/// A component, borrowed from its package's header, with its image's place in the file.
#[derive(Clone, Copy)]
pub struct Place<'a> {
    /// The classification, the first part of the key.
    pub classification: u16,
    /// The identifier, the second part of the key.
    pub identifier: u16,
    /// The comparison stamp.
    pub stamp: u32,
    /// The options: bit 0 forces the update, bit 1 uses the stamp.
    pub options: u16,
    /// The requested activation methods.
    pub method: u16,
    /// The image's offset in bytes from the file's start.
    pub offset: usize,
    /// The image's length in bytes.
    pub size: usize,
    /// The version text.
    pub text: Text<'a>,
}

impl<'a> Place<'a> {
    /// Reads the component at the beginning of these bytes of a header, in a file of this length.
    ///
    /// # Errors
    /// `ImageRange` if its image goes past the file's end.
    #[tactic(auto, unfolding(crate::specs::Outlines::place_within))]
    pub(crate) fn read(file_length: usize, bytes: &'a [u8]) -> Result<Place<'a>, PackageFault>
        requires { IsSome (after_component bytes.now) }
        ensures { result_map_both place_seen (λ e. e) result ≡ place_within file_length bytes.now }
    {
        let place = Place::first(bytes);
        if place.offset + place.size > file_length {
            return Err(PackageFault::ImageRange);
        }
        Ok(place)
    }

    /// Returns the component at the beginning of these bytes, without checking its image's end.
    fn first(bytes: &'a [u8]) -> Place<'a>
        requires { IsSome (after_component bytes.now) }
        ensures seen { place_seen result ≡ place_of bytes.now }
        ensures small { result.offset + result.size < 2 ^ 33 }
    {
        let text = version_text(bytes);
        Place {
            classification: u16_at(bytes, CLASSIFICATION),
            identifier: u16_at(bytes, IDENTIFIER),
            stamp: u32_at(bytes, STAMP),
            options: u16_at(bytes, OPTIONS),
            method: u16_at(bytes, METHOD),
            offset: u32_at(bytes, OFFSET) as usize,
            size: u32_at(bytes, IMAGE_SIZE) as usize,
            text,
        }
    }
}

/// Returns the version text of the component at the beginning of these bytes.
fn version_text(bytes: &[u8]) -> Text<'_>
    requires { IsSome (after_component bytes.now) }
    ensures text { text_of result ≡ (place_of bytes.now).text }
    ensures long { COMPONENT_SIZE ≤ length bytes.now }
{
    Text {
        kind: bytes[TEXT_TYPE],
        bytes: &bytes[COMPONENT_SIZE..component_size(bytes)],
    }
}

/// The components of a package without their images, in order. It is also an iterator over them.
#[derive(Drop)]
pub struct ComponentPlaces<'a> {
    file_length: usize,
    count: usize,
    rest: &'a [u8],
}

impl<'a> Model for ComponentPlaces<'a> {
    ghost use Rattle.std.specs.Prelude.{List};
    ghost use Rattle.fw_package.specs.Components.{PlaceOf};
    ghost use Rattle.fw_package.specs.Outlines.{places_of};
    ghost use Rattle.fw_package.specs.Views.{ArePlaces, list_or_empty};

    ghost Value = { List PlaceOf };

    ghost view = { λ p. list_or_empty (places_of p.file_length p.count p.rest.now) };

    ghost invariant = { λ p. ArePlaces p.file_length p.count p.rest.now };
}

impl<'a> ComponentPlaces<'a> {
    /// Reads `count` components, the first at the beginning of these bytes of a header, in a file
    /// of this length.
    ///
    /// # Errors
    /// `ImageRange` if an image goes past the file's end.
    #[tactic(auto, using(crate::proofs::PlaceRows::placing))]
    pub(crate) fn read(
        file_length: usize,
        bytes: &'a [u8],
        count: usize,
    ) -> Result<ComponentPlaces<'a>, PackageFault>
        requires { IsSome (after_components count bytes.now) }
        ensures { result ≡ places_of file_length count bytes.now }
    {
        let mut rest = bytes;
        for _component in 0..count {
            match Place::read(file_length, rest) {
                Ok(_) => rest = others(rest),
                Err(fault) => return Err(fault),
            }
        }
        Ok(ComponentPlaces {
            file_length,
            count,
            rest: bytes,
        })
    }

    /// Returns the number of components left.
    #[tactic(auto, using(crate::proofs::PlaceRows::places_count))]
    pub fn len(&self) -> usize
        ensures { result ≡ length self.now }
    {
        self.count
    }

    /// Returns an iterator over the components.
    pub fn iter(&self) -> ComponentPlaces<'a>
        ensures { result ≡ self.now }
    {
        ComponentPlaces {
            file_length: self.file_length,
            count: self.count,
            rest: self.rest,
        }
    }
}

impl<'a> Iterator for ComponentPlaces<'a> {
    type Item = Place<'a>;

    ghost next_gives = { YieldsFirstBy place_seen (λ left. left) };

    ghost remaining = { item_count (λ left. left) };

    #[tactic(auto, using(crate::proofs::PlaceRows::places_next))]
    fn next(&mut self) -> Option<Place<'a>> {
        if self.count == 0 {
            return None;
        }
        let Ok(place) = Place::read(self.file_length, self.rest) else {
            unreachable!()
        };
        *self = ComponentPlaces {
            file_length: self.file_length,
            count: self.count - 1,
            rest: others(self.rest),
        };
        Some(place)
    }
}

/// Returns the bytes of the component at the beginning: its fixed part and its version text.
fn component_size(bytes: &[u8]) -> usize
    requires { IsSome (after_component bytes.now) }
    ensures value { result ≡ COMPONENT_SIZE + text_size_of 21 bytes.now }
    ensures within { result ≤ length bytes.now }
{
    COMPONENT_SIZE + usize::from(bytes[COMPONENT_TEXT_LENGTH])
}

/// Returns the bytes after the component at the beginning of these bytes.
pub(crate) fn others(bytes: &[u8]) -> &[u8]
    requires { IsSome (after_component bytes.now) }
    ensures { result.now ≡ drop (COMPONENT_SIZE + text_size_of 21 bytes.now) bytes.now }
{
    let (_, others) = bytes.split_at(component_size(bytes));
    others
}
