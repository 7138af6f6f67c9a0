//! Labels of images.

ghost use Rattle.std.specs.Prelude.{◌≡◌, ◌≤◌, [], length};
ghost use Rattle.fd_core.specs.Images.{label_of, version_by};
ghost use Rattle.fwup_wire.specs.Lent.{version_of};

use arrayvec::ArrayVec;
use fwup_wire::code::text_type;
use fwup_wire::{TypedText, Version};
use std::marker::Model;

/// The most bytes of a version text that a label keeps, so that the parameters of all components
/// fit one answer.
pub const MAX_TEXT: usize = 12;

/// The version of an image, as a bank keeps it.
#[derive(PartialEq, Eq, Drop)]
pub struct Label {
    /// The comparison stamp.
    pub stamp: u32,
    /// How the text is encoded, as `fwup_wire::code::text_type`.
    pub text_type: u8,
    /// The first bytes of the version text.
    pub text: ArrayVec<u8, MAX_TEXT>,
}

impl Model for Label {
    ghost use Rattle.fd_core.specs.Images.{LabelOf};

    ghost Value = { LabelOf };

    ghost view = { λ a. record { stamp = a.stamp; text_type = a.text_type; text = a.text.items } };

    ghost inverse = { λ v. record { stamp = v.stamp; text_type = v.text_type; text = record { items = v.text } } };
}

impl Label {
    /// Returns the label of an image of this version: its text is cut to `MAX_TEXT` bytes.
    pub fn new(version: &Version<'_>) -> Label
        ensures { result ≡ label_of (version_of version.now) }
    {
        let bytes = version.text.bytes;
        let mut text = ArrayVec::new();
        let _ = text.try_extend_from_slice(&bytes[..bytes.len().min(MAX_TEXT)]);
        Label {
            stamp: version.stamp,
            text_type: version.text.text_type,
            text,
        }
    }

    /// Returns the label of no image: stamp 0, text type 0 and no text.
    pub(crate) fn empty() -> Label
        ensures { result ≡ record { stamp = 0; text_type = 0; text = [] } }
    {
        Label {
            stamp: 0,
            text_type: text_type::UNKNOWN,
            text: ArrayVec::new(),
        }
    }

    /// Returns a copy of the label.
    pub fn copied(&self) -> Label
        ensures { result ≡ self.now }
    {
        let mut text = ArrayVec::new();
        let _ = text.try_extend_from_slice(self.text.as_slice());
        Label {
            stamp: self.stamp,
            text_type: self.text_type,
            text,
        }
    }

    /// Returns the comparison stamp.
    pub fn stamp(&self) -> u32
        ensures { result ≡ self.now.stamp }
    {
        self.stamp
    }

    /// Returns the version, its text borrowed.
    pub fn version(&self) -> Version<'_>
        ensures version { version_of result ≡ version_by self.now }
        ensures short { length self.now.text ≤ 12 }
    {
        Version {
            stamp: self.stamp,
            text: TypedText {
                text_type: self.text_type,
                bytes: self.text.as_slice(),
            },
        }
    }
}
