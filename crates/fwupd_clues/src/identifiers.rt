//! What a file that isn't a package may be.

ghost use Rattle.std.specs.Prelude.{◌≡◌, option_map};
ghost use Rattle.fwupd_clues.specs.Identifiers.{later_version};

/// The identifier of a package header of DSP0267 1.1.
const OF_1_1: [u8; 16] = [
    0x12, 0x44, 0xD2, 0x64, 0x8D, 0x7D, 0x47, 0x18, 0xA0, 0x30, 0xFC, 0x8A, 0x56, 0x58, 0x7D, 0x5A,
];

/// That of DSP0267 1.2.
const OF_1_2: [u8; 16] = [
    0x31, 0x19, 0xCE, 0x2F, 0xE8, 0x0A, 0x4A, 0x99, 0xAF, 0x6D, 0x46, 0xF8, 0xB1, 0x21, 0xF6, 0xBF,
];

/// That of DSP0267 1.3.
const OF_1_3: [u8; 16] = [
    0x7B, 0x29, 0x1C, 0x99, 0x6D, 0xB6, 0x42, 0x08, 0x80, 0x1B, 0x02, 0x02, 0x6E, 0x46, 0x3C, 0x78,
];

/// Returns the version of DSP0267 after 1.0 whose package header begins as these bytes do, if there
/// is one.
pub(crate) fn later_version(bytes: &[u8]) -> Option<&'static str>
    ensures { option_map (λ version. version.now) result ≡ later_version bytes.now }
{
    if bytes.starts_with(&OF_1_1) {
        Some("1.1")
    } else if bytes.starts_with(&OF_1_2) {
        Some("1.2")
    } else if bytes.starts_with(&OF_1_3) {
        Some("1.3")
    } else {
        None
    }
}
