//! Packages that tests put together from their parts, and the worked package.

use arrayvec::ArrayVec;

/// A file that a test puts together.
pub type File = ArrayVec<u8, 2048>;

/// The parts of a file that differ from test to test.
#[derive(Clone, Copy)]
pub struct Draft<'a> {
    pub bitmap_bits: u8,
    pub records: &'a [&'a [u8]],
    pub components: &'a [&'a [u8]],
    pub rest: &'a [u8],
}

/// Identifier and revision.
static OPENING: [u8; 17] = [
    0xF0, 0x18, 0x87, 0x8C, 0xCB, 0x7D, 0x49, 0x43, 0x98, 0x00, 0xA0, 0x2F, 0x05, 0x9A, 0xCA, 0x02,
    1,
];

/// A record of 19 bytes with set text `A` and descriptor 0000, data 34 12, which uses components 1
/// and 2.
static RECORD_A: [u8; 19] = [
    19, 0, 1, 0, 0, 0, 0, 1, 1, 0, 0, 0x03, b'A', 0x00, 0x00, 2, 0, 0x34, 0x12,
];

/// A record of 21 bytes with set text `B` and descriptor 0001, data 78 56 34 12, which uses
/// component 2.
static RECORD_B: [u8; 21] = [
    21, 0, 1, 0, 0, 0, 0, 1, 1, 0, 0, 0x02, b'B', 0x01, 0x00, 4, 0, 0x78, 0x56, 0x34, 0x12,
];

/// Component (10, 1) with no stamp and an empty image at 134, text `v1`.
static COMPONENT_1: [u8; 24] = [
    10, 0, 1, 0, 0xFF, 0xFF, 0xFF, 0xFF, 0, 0, 0, 0, 134, 0, 0, 0, 0, 0, 0, 0, 1, 2, b'v', b'1',
];

/// Component (10, 2) with stamp 7, options 2 and an image of 300 bytes at 134, text `v2`.
static COMPONENT_2: [u8; 24] = [
    10, 0, 2, 0, 7, 0, 0, 0, 2, 0, 0, 0, 134, 0, 0, 0, 0x2C, 1, 0, 0, 1, 2, b'v', b'2',
];

/// Byte i of the image of component 2 of the worked package, and of five bytes after it.
pub fn worked_rest() -> [u8; 305] {
    let mut rest = [0u8; 305];
    for (place, byte) in rest.iter_mut().enumerate() {
        *byte = (place % 251) as u8;
    }
    rest
}

/// The worked package: two records, two components, 439 bytes.
pub fn worked() -> File {
    file(Draft {
        bitmap_bits: 8,
        records: &[&RECORD_A, &RECORD_B],
        components: &[&COMPONENT_1, &COMPONENT_2],
        rest: &worked_rest(),
    })
}

fn put(out: &mut File, bytes: &[u8]) {
    let _ = out.try_extend_from_slice(bytes);
}

/// Appends the number of parts in one byte, the bytes `more`, and the parts.
fn put_all(out: &mut File, parts: &[&[u8]], more: &[u8]) {
    put(out, &[u8::try_from(parts.len()).unwrap_or(0)]);
    put(out, more);
    for part in parts {
        put(out, part);
    }
}

/// The file of a draft, with its header's size and checksum.
pub fn file(draft: Draft<'_>) -> File {
    let mut lists = File::new();
    put_all(&mut lists, draft.records, &[]);
    put_all(&mut lists, draft.components, &[0]);
    let header = u16::try_from(lists.len()).unwrap_or(0).wrapping_add(43);
    let mut out = File::new();
    put(&mut out, &OPENING);
    put(&mut out, &header.to_le_bytes());
    put(&mut out, &[0x15; 13]);
    put(&mut out, &[draft.bitmap_bits, 0, 1, 3, b'p', b'k', b'g']);
    put(&mut out, lists.as_slice());
    let sum = sum_by_bits(out.as_slice());
    put(&mut out, &sum.to_le_bytes());
    put(&mut out, draft.rest);
    out
}

/// The checksum, computed bit by bit.
pub fn sum_by_bits(bytes: &[u8]) -> u32 {
    let mut register = u32::MAX;
    for byte in bytes {
        for place in 0u32..8 {
            let leaves = register & 1 != u32::from(*byte) >> place & 1;
            register >>= 1;
            if leaves {
                register ^= 0xEDB8_8320;
            }
        }
    }
    !register
}
