//! Images that are kept in files.

use fd_core::Label;
use fwup_wire::Key;
use std::marker::Model;

/// An image that is kept in a file: the content of a line of `active`.
#[derive(Drop)]
pub struct ImageEntry {
    /// The image's component.
    pub key: Key,
    /// The image's label.
    pub label: Label,
    /// The number in its file's name.
    pub number: u32,
    /// The image's size in bytes.
    pub size: u32,
    /// The CRC-32 of the image's bytes.
    pub checksum: u32,
}

impl Model for ImageEntry {
    ghost use Rattle.fw_store.specs.Active.{ImageEntryOf};

    ghost Value = { ImageEntryOf };

    ghost view = { λ e. record { key = e.key; label = e.label; number = e.number; size = e.size; checksum = e.checksum } };
}
