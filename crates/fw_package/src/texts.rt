//! Texts and descriptors, borrowed from a package.

/// A text, borrowed from a package.
#[derive(Clone, Copy, PartialEq, Eq)]
pub struct Text<'a> {
    /// The string type (1 is ASCII, 2 is UTF-8). It isn't checked.
    pub kind: u8,
    /// The text itself, at most 255 bytes.
    pub bytes: &'a [u8],
}

/// A descriptor of a device, or of a record's devices.
#[derive(Clone, Copy, PartialEq, Eq)]
pub struct Descriptor<'a> {
    /// The descriptor type.
    pub kind: u16,
    /// The descriptor data.
    pub bytes: &'a [u8],
}
