//! The values of several commands and answers.

ghost use Rattle.std.specs.Prelude.{◌≡◌};
ghost use Rattle.fwup_wire.specs.Fields.{flag_byte, flag_of};

/// Names a component by its classification and its identifier.
#[derive(Clone, Copy, PartialEq, Eq)]
pub struct Key {
    /// The component's classification.
    pub classification: u16,
    /// The component's identifier.
    pub identifier: u16,
}

/// A text with its type, which isn't checked.
#[derive(Clone, Copy, PartialEq, Eq)]
pub struct TypedText<'a> {
    /// How the text is encoded, as `code::text_type`.
    pub text_type: u8,
    /// The text's bytes.
    pub bytes: &'a [u8],
}

/// One of the descriptors by which a package names the devices that it is for.
#[derive(Clone, Copy, PartialEq, Eq)]
pub struct DeviceDescriptor<'a> {
    /// The descriptor's type, for example a PCI vendor ID.
    pub kind: u16,
    /// The descriptor's data.
    pub bytes: &'a [u8],
}

/// The comparison stamp that isn't compared: an image has it if its component doesn't use one
/// (DSP0267 1.0, "ComponentComparisonStamp").
pub const NO_STAMP: u32 = 0xFFFF_FFFF;

/// The version of an image.
#[derive(Clone, Copy, PartialEq, Eq)]
pub struct Version<'a> {
    /// The comparison stamp, by which a device distinguishes older images from newer ones, or
    /// `NO_STAMP`.
    pub stamp: u32,
    /// The version text.
    pub text: TypedText<'a>,
}

/// A device's parameters of one of its components: its key, and the versions of its images.
#[derive(Clone, Copy, PartialEq, Eq)]
pub struct ComponentParameters<'a> {
    /// The component.
    pub key: Key,
    /// The index among several components of this classification in the device.
    pub index: u8,
    /// The version of the active image.
    pub active: Version<'a>,
    /// The version of the image that was applied and isn't active yet; stamp 0, type 0 and no bytes
    /// if there is none.
    pub pending: Version<'a>,
}

/// The place of an entry in the component table.
#[derive(Clone, Copy, PartialEq, Eq)]
pub enum TransferFlag {
    /// The first of several.
    Start = 1,
    /// Neither the first nor the last.
    Middle = 2,
    /// The last of several.
    End = 4,
    /// The only entry.
    StartAndEnd = 5,
}

impl TransferFlag {
    /// Returns the flag's byte in a message.
    pub fn byte(self) -> u8
        ensures { result ≡ flag_byte self }
    {
        self as u8
    }

    /// Returns the flag with this byte. The other values name none.
    pub fn from_byte(byte: u8) -> Option<Self>
        ensures { result ≡ flag_of byte }
    {
        match byte {
            1 => Some(TransferFlag::Start),
            2 => Some(TransferFlag::Middle),
            4 => Some(TransferFlag::End),
            5 => Some(TransferFlag::StartAndEnd),
            _ => None,
        }
    }
}
