//! The content of a package description.

use fwup_wire::Key;

/// The description of a package to build.
#[derive(PartialEq, Eq, Drop)]
pub struct PackageSpec {
    /// The release time (timestamp104 of DSP0240, as encoded); zeros if none is given.
    pub release: [u8; 13],
    /// The version text, at most 255 bytes; empty if none is given.
    pub version: Vec<u8>,
    /// The records, at most 255.
    pub records: Vec<SpecRecord>,
    /// The components.
    pub components: Vec<SpecComponent>,
    /// The number of the line after the text's last.
    pub next_line: usize,
}

/// The description of a record.
#[derive(PartialEq, Eq, Drop)]
pub struct SpecRecord {
    /// The number of the record's line, from 1.
    pub line: usize,
    /// The update option flags.
    pub flags: u32,
    /// The component image set version text, at most 255 bytes.
    pub set_text: Vec<u8>,
    /// The descriptors of the devices that it applies to, at most 255.
    pub descriptors: Vec<SpecDescriptor>,
    /// The numbers of the components that it uses, counted from 0, in ascending order. Each is the
    /// number of a component of the package.
    pub uses: Vec<u16>,
}

/// The description of a descriptor.
#[derive(PartialEq, Eq, Drop)]
pub struct SpecDescriptor {
    /// Its type.
    pub kind: u16,
    /// Its data.
    pub bytes: Vec<u8>,
}

/// The description of a component.
#[derive(PartialEq, Eq, Drop)]
pub struct SpecComponent {
    /// Its numeric fields.
    pub numbers: SpecNumbers,
    /// The version text, at most 255 bytes.
    pub text: Vec<u8>,
    /// The path of the image's file; without one the image is empty.
    pub path: Option<String>,
}

/// The numeric fields of a component's description.
#[derive(Clone, Copy, PartialEq, Eq)]
pub struct SpecNumbers {
    /// Classification and identifier.
    pub key: Key,
    /// The comparison stamp.
    pub stamp: u32,
    /// The options: bit 0 forces the update, bit 1 uses the stamp.
    pub options: u16,
    /// The requested activation methods.
    pub method: u16,
}
