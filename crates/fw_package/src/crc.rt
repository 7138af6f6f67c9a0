//! The checksum of a package's header: the reflected CRC-32.

ghost use Rattle.std.specs.Prelude.{◌≡◌, ◌<◌};
ghost use Rattle.fw_package.specs.Crc.{after_bits, after_byte, crc_of};

use crate::crc_table::BYTE_STEPS;

/// The register before the first byte, and the value added to it after the last: all ones.
const ALL_ONES: u32 = 0xFFFF_FFFF;

/// The bits of the register that a byte of the text is added to: its lowest eight.
const LOW_BYTE: u32 = 0xFF;

/// The number of bits in a byte.
const BYTE_BITS: u32 = 8;

/// Returns the reflected CRC-32 of these bytes.
pub fn crc32(bytes: &[u8]) -> u32
    ensures { result ≡ crc_of bytes.now }
{
    let mut register = ALL_ONES;
    for byte in bytes {
        register = step(register, *byte);
    }
    register ^ ALL_ONES
}

/// Returns the register after one more byte.
#[tactic(auto, using(crate::proofs::ByteSteps::byte_step))]
fn step(register: u32, byte: u8) -> u32
    ensures { result ≡ after_byte register byte }
{
    byte_steps((register ^ u32::from(byte)) & LOW_BYTE) ^ (register >> BYTE_BITS)
}

/// Returns the register after eight bit steps from a register that holds one byte.
#[tactic(auto, using(crate::proofs::ByteSteps::byte_steps_at))]
fn byte_steps(byte: u32) -> u32
    requires { byte < 256 }
    ensures { result ≡ after_bits 8 byte }
{
    BYTE_STEPS[byte as usize]
}
