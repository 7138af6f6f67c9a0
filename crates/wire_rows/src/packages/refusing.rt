//! The results of `Package::read` for the worked package with a byte changed, a bit flipped, or its
//! end cut off.

use super::drafts::{Draft, File, file, sum_by_bits, worked};
use super::planning::NINE;
use fw_package::{Package, PackageFault};

/// The number of bytes of the worked package's header before its checksum.
const SUMMED: usize = 130;

/// The number of bits of the whole header.
const HEADER_BITS: usize = 1072;

/// The number of bytes of the whole file.
const WHOLE: usize = 439;

/// The fault of a file, if any.
fn fault_of(bytes: &[u8]) -> Option<PackageFault> {
    Package::read(bytes).err()
}

/// The fault of the first `length` bytes of a file, if any.
fn fault_of_cut(bytes: &[u8], length: usize) -> Option<PackageFault> {
    fault_of(&bytes[..length.min(bytes.len())])
}

/// Sets a byte of a file.
fn set(file: &mut File, place: usize, byte: u8) {
    if let Some(found) = file.as_mut_slice().get_mut(place) {
        *found = byte;
    }
}

/// Recomputes the header's checksum.
fn sign(file: &mut File) {
    let Some(summed) = file.as_slice().get(..SUMMED) else {
        return;
    };
    let sum = sum_by_bits(summed).to_le_bytes();
    for (place, byte) in sum.iter().enumerate() {
        set(file, SUMMED + place, *byte);
    }
}

/// A case: its name, the byte's position, the new byte, and the fault, if any.
type Change<'a> = (&'a str, usize, u8, Option<PackageFault>);

static CHANGES: [Change<'static>; 16] = [
    (
        "another identifier",
        0,
        0xF1,
        Some(PackageFault::Identifier),
    ),
    (
        "the identifier of revision 2",
        15,
        0x03,
        Some(PackageFault::Identifier),
    ),
    ("revision 0", 16, 0, Some(PackageFault::Revision)),
    ("revision 2", 16, 2, Some(PackageFault::Revision)),
    (
        "a header longer than the file",
        18,
        2,
        Some(PackageFault::HeaderSize),
    ),
    (
        "a header shorter than its parts",
        17,
        133,
        Some(PackageFault::HeaderSize),
    ),
    (
        "a header longer than its parts",
        17,
        135,
        Some(PackageFault::HeaderSize),
    ),
    (
        "a record longer than its place",
        40,
        20,
        Some(PackageFault::HeaderSize),
    ),
    (
        "bitmaps of no bits",
        32,
        0,
        Some(PackageFault::BitmapLength),
    ),
    (
        "bitmaps of 12 bits",
        32,
        12,
        Some(PackageFault::BitmapLength),
    ),
    (
        "a record shorter than its parts",
        49,
        1,
        Some(PackageFault::RecordLength),
    ),
    (
        "a record longer than its parts",
        42,
        0,
        Some(PackageFault::RecordLength),
    ),
    (
        "bitmaps of 16 bits",
        32,
        16,
        Some(PackageFault::RecordLength),
    ),
    (
        "an image that begins past its place",
        118,
        140,
        Some(PackageFault::ImageRange),
    ),
    (
        "an image that ends past the file",
        122,
        50,
        Some(PackageFault::ImageRange),
    ),
    ("an image that ends with the file", 122, 49, None),
];

/// The worked package with this byte, and its checksum recomputed.
fn changed(place: usize, byte: u8) -> File {
    let mut file = worked();
    set(&mut file, place, byte);
    sign(&mut file);
    file
}

#[test]
fn refuses_each_fault(rt: HostRuntime) {
    for (situation, place, byte, fault) in &CHANGES {
        let file = changed(*place, *byte);
        assert!(rt; fault_of(file.as_slice()) == *fault, "{situation}");
    }
}

#[test]
fn refuses_bitmaps_of_fewer_bits_than_components(rt: HostRuntime) {
    let file = file(Draft {
        bitmap_bits: 8,
        records: &[],
        components: &NINE,
        rest: &[],
    });
    assert!(rt; fault_of(file.as_slice()) == Some(PackageFault::BitmapLength));
}

/// A change for each fault but `Short`, the last fault first: the byte's position, the new byte,
/// and the fault.
static FROM_THE_LAST: [(usize, u8, PackageFault); 7] = [
    (122, 50, PackageFault::ImageRange),
    (19, 0x14, PackageFault::Checksum),
    (49, 1, PackageFault::RecordLength),
    (32, 0, PackageFault::BitmapLength),
    (17, 135, PackageFault::HeaderSize),
    (16, 2, PackageFault::Revision),
    (15, 0x03, PackageFault::Identifier),
];

/// Makes the changes one after the other, and recomputes the checksum after the first only. Returns
/// whether each file is refused with the fault of its last change, which comes before those of the
/// earlier changes.
fn are_first(file: &mut File, changes: &[(usize, u8, PackageFault)]) -> bool {
    for (count, (place, byte, fault)) in changes.iter().enumerate() {
        set(file, *place, *byte);
        if count == 0 {
            sign(file);
        }
        if fault_of(file.as_slice()) != Some(*fault) {
            return false;
        }
    }
    true
}

#[test]
fn names_the_first_fault_that_holds(rt: HostRuntime) {
    let mut file = worked();
    assert!(rt; are_first(&mut file, &FROM_THE_LAST));
    assert!(rt; fault_of_cut(file.as_slice(), 35) == Some(PackageFault::Short));
}

/// The fault of the first `length` bytes of the worked package.
fn fault_at(length: usize) -> Option<PackageFault> {
    match length {
        0..=35 => Some(PackageFault::Short),
        36..=133 => Some(PackageFault::HeaderSize),
        134..=433 => Some(PackageFault::ImageRange),
        _ => None,
    }
}

#[test]
fn refuses_each_cut_that_ends_before_the_images(rt: HostRuntime) {
    let file = worked();
    assert!(rt; file.len() == WHOLE);
    for length in 0..=WHOLE {
        let fault = fault_of_cut(file.as_slice(), length);
        assert!(rt; fault == fault_at(length), "{length} bytes");
    }
}

/// Flips a bit of a file.
fn turn(file: &mut File, bit: usize) {
    if let Some(byte) = file.as_mut_slice().get_mut(bit / 8) {
        *byte ^= 1 << (bit % 8);
    }
}

#[test]
fn refuses_each_turned_bit_of_the_header(rt: HostRuntime) {
    let mut file = worked();
    for bit in 0..HEADER_BITS {
        turn(&mut file, bit);
        assert!(rt; fault_of(file.as_slice()).is_some(), "bit {bit}");
        turn(&mut file, bit);
    }
    assert!(rt; fault_of(file.as_slice()).is_none());
}
