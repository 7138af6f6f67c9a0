//! The tests of a header as a whole.

ghost use Rattle.std.specs.Prelude.{◌≡◌, ◌≤◌, ◌<◌, length, IfOk};
ghost use Rattle.std.specs.Result.{result_map_both};
ghost use Rattle.fw_package.specs.Reading.{bitmap_size_of, header_before_checksum, header_of, package_identifier};

use crate::crc::crc32;
use crate::fault::PackageFault;
use crate::layout::{CHECKSUM_SIZE, FIXED_SIZE, HEADER_SIZE, REVISION};
use crate::numbers::u16_at;
use byteorder::{ByteOrder, LittleEndian};
use uuid::Uuid;

/// Returns the package header identifier of revision 1 (DSP0267, "Package header information").
pub fn package_identifier() -> Uuid
    ensures { result ≡ package_identifier }
{
    Uuid::from_u128(0xF018878C_CB7D_4943_9800_A02F059ACA02)
}

/// The header revision that this crate reads and writes.
pub const HEADER_REVISION: u8 = 1;

/// The bits of a byte of a bitmap.
const BYTE_BITS: usize = 8;

/// Returns the header of a package.
#[tactic(auto, unfolding(crate::specs::Reading::header_of))]
pub fn header(bytes: &[u8]) -> Result<&[u8], PackageFault>
    ensures value { result_map_both (λ h. h.now) (λ e. e) result ≡ header_of bytes.now }
    ensures small { IfOk result (λ h. length h.now < 65536) }
{
    if bytes.len() < FIXED_SIZE {
        return Err(PackageFault::Short);
    }
    if !bytes.starts_with(package_identifier().as_bytes()) {
        return Err(PackageFault::Identifier);
    }
    if bytes[REVISION] != HEADER_REVISION {
        return Err(PackageFault::Revision);
    }
    let size = usize::from(u16_at(bytes, HEADER_SIZE));
    if bytes.len() < size {
        return Err(PackageFault::HeaderSize);
    }
    Ok(&bytes[..size])
}

/// Returns the bytes of a bitmap of `bits` bits, for `component_count` components.
#[tactic(auto, unfolding(crate::specs::Reading::bitmap_size_of))]
pub fn bitmap_size(bits: usize, component_count: u16) -> Result<usize, PackageFault>
    ensures { result ≡ bitmap_size_of bits component_count }
{
    if bits == 0 || bits % BYTE_BITS != 0 || bits < usize::from(component_count) {
        return Err(PackageFault::BitmapLength);
    }
    Ok(bits / BYTE_BITS)
}

/// Returns the header's bytes before its checksum, if the checksum is theirs.
#[tactic(auto, unfolding(crate::specs::Reading::header_before_checksum))]
pub fn check(header: &[u8]) -> Result<&[u8], PackageFault>
    requires { FIXED_SIZE ≤ length header.now }
    ensures { result_map_both (λ h. h.now) (λ e. e) result ≡ header_before_checksum header.now }
{
    let (before, checksum) = header.split_at(header.len() - CHECKSUM_SIZE);
    if crc32(before) != LittleEndian::read_u32(checksum) {
        return Err(PackageFault::Checksum);
    }
    Ok(before)
}
