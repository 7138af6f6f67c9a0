//! Why bytes are no package, and why a record can't be planned.

use thiserror::Error;

/// Why bytes are no package: the first fault in this order.
#[derive(Clone, Copy, Debug, PartialEq, Eq, Error)]
pub enum PackageFault {
    /// Fewer bytes than the fixed part of a header has.
    #[error("Short")]
    Short,
    /// The package header identifier isn't that of this format.
    #[error("Identifier")]
    Identifier,
    /// The header revision isn't 1.
    #[error("Revision")]
    Revision,
    /// The header is longer than the file, or its parts have another length than the header.
    #[error("HeaderSize")]
    HeaderSize,
    /// The bitmap's bit length is 0, no multiple of 8, or less than the number of components.
    #[error("BitmapLength")]
    BitmapLength,
    /// A record's length isn't the sum of its parts.
    #[error("RecordLength")]
    RecordLength,
    /// The header's checksum isn't that of the bytes before it.
    #[error("Checksum")]
    Checksum,
    /// A component's image goes past the file's end.
    #[error("ImageRange")]
    ImageRange,
}

/// Why a record can't be planned: the first fault in this order.
#[derive(Clone, Copy, Debug, PartialEq, Eq, Error)]
pub enum PlanFault {
    /// Two components of the record have the same key.
    #[error("DuplicateComponent")]
    DuplicateComponent,
    /// The record uses more components than a plan holds.
    #[error("TooManyComponents")]
    TooManyComponents,
    /// A component's image is larger than a device accepts.
    #[error("ImageTooLarge")]
    ImageTooLarge,
    /// The set text or a component's version text is longer than a message carries.
    #[error("TextTooLong")]
    TextTooLong,
}
