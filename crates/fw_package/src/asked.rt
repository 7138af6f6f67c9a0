//! The content of a package that is to be written.

use crate::texts::Descriptor;
use thiserror::Error;

/// A package to write.
#[derive(Clone, Copy)]
pub struct AskedPackage<'a> {
    /// The release time of the package (timestamp104 of DSP0240, in its encoded form).
    pub release: [u8; 13],
    /// The package's version text, ASCII.
    pub version: &'a [u8],
    /// The records.
    pub records: &'a [AskedRecord<'a>],
    /// The components.
    pub components: &'a [AskedComponent<'a>],
}

/// A device identification record to write, without package data.
#[derive(Clone, Copy)]
pub struct AskedRecord<'a> {
    /// The update option flags.
    pub flags: u32,
    /// The component image set version text, ASCII.
    pub set_text: &'a [u8],
    /// The descriptors of its devices.
    pub descriptors: &'a [Descriptor<'a>],
    /// The numbers of the components that it uses, counted from 0, rising.
    pub uses: &'a [u16],
}

/// A component to write. The header holds its image's place and size only.
#[derive(Clone, Copy)]
pub struct AskedComponent<'a> {
    /// The classification, the first part of the key.
    pub classification: u16,
    /// The identifier, the second part of the key.
    pub identifier: u16,
    /// The comparison stamp.
    pub stamp: u32,
    /// The options: bit 0 forces the update, bit 1 uses the stamp.
    pub options: u16,
    /// The requested activation methods.
    pub method: u16,
    /// The version text, ASCII.
    pub text: &'a [u8],
    /// The image's size in bytes.
    pub size: usize,
}

/// Why a package can't be written: the first fault in this order.
#[derive(Clone, Copy, Debug, PartialEq, Eq, Error)]
pub enum AskedFault {
    /// A record's component numbers don't rise, or name a component that the package doesn't have.
    #[error("Uses")]
    Uses,
    /// A text has more than 255 bytes, a record more than 255 descriptors, the package more than
    /// 255 records, the header more than 65,535 bytes, or the file more than 4,294,967,295.
    #[error("Limit")]
    Limit,
}
