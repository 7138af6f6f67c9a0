//! Packages that tests put together.

use arrayvec::ArrayVec;

/// A file that a test puts together.
pub type File = ArrayVec<u8, 1024>;

/// A component of a package: key, stamp, options, version text and the size of its image, at most
/// 500. Byte i of each image is i modulo 256.
#[derive(Clone, Copy)]
pub struct Item<'a> {
    pub key: (u16, u16),
    pub stamp: u32,
    pub options: u16,
    pub text: &'a [u8],
    pub size: u32,
}

/// A package: the set text, and its components. Its one record has the descriptor 0000 with data 34
/// 12 and uses all of them.
#[derive(Clone, Copy)]
pub struct Draft<'a> {
    pub set_text: &'a [u8],
    pub items: &'a [Item<'a>],
}

/// Identifier and revision.
static OPENING: [u8; 17] = [
    0xF0, 0x18, 0x87, 0x8C, 0xCB, 0x7D, 0x49, 0x43, 0x98, 0x00, 0xA0, 0x2F, 0x05, 0x9A, 0xCA, 0x02,
    1,
];

/// A header's bytes without texts and components: the fixed part and the record count, a record
/// with a bitmap of 16 bits and one descriptor of two bytes, the component count and the checksum.
const HEADER: u16 = 62;

/// A component's bytes without its text.
const COMPONENT: u16 = 22;

fn put(out: &mut File, bytes: &[u8]) {
    let _ = out.try_extend_from_slice(bytes);
}

/// The number of bytes of a text.
fn length(text: &[u8]) -> u8 {
    u8::try_from(text.len()).unwrap_or(0)
}

/// The file of a draft: the header, and an image of 500 bytes; each component has its first bytes.
pub fn file(draft: Draft<'_>) -> File {
    let mut header = HEADER.wrapping_add(u16::from(length(draft.set_text)));
    let mut bitmap = 0u16;
    for item in draft.items {
        header = header
            .wrapping_add(COMPONENT)
            .wrapping_add(u16::from(length(item.text)));
        bitmap = bitmap << 1 | 1;
    }
    let mut out = File::new();
    put(&mut out, &OPENING);
    put(&mut out, &header.to_le_bytes());
    put(&mut out, &[0x15; 13]);
    put(&mut out, &[16, 0, 1, 0, 1]);
    let text = length(draft.set_text);
    put(
        &mut out,
        &[text.wrapping_add(19), 0, 1, 0, 0, 0, 0, 1, text, 0, 0],
    );
    put(&mut out, &bitmap.to_le_bytes());
    put(&mut out, draft.set_text);
    put(&mut out, &[0, 0, 2, 0, 0x34, 0x12]);
    put(&mut out, &[u8::try_from(draft.items.len()).unwrap_or(0), 0]);
    for item in draft.items {
        put_component(&mut out, item, header);
    }
    let sum = sum_by_bits(out.as_slice());
    put(&mut out, &sum.to_le_bytes());
    for place in 0..500usize {
        put(&mut out, &[(place % 256) as u8]);
    }
    out
}

/// A component with its image at this offset.
fn put_component(out: &mut File, item: &Item<'_>, offset: u16) {
    put(out, &item.key.0.to_le_bytes());
    put(out, &item.key.1.to_le_bytes());
    put(out, &item.stamp.to_le_bytes());
    put(out, &item.options.to_le_bytes());
    put(out, &[0, 0]);
    put(out, &u32::from(offset).to_le_bytes());
    put(out, &item.size.to_le_bytes());
    put(out, &[1, length(item.text)]);
    put(out, item.text);
}

/// The checksum, computed bit by bit.
fn sum_by_bits(bytes: &[u8]) -> u32 {
    let mut register = u32::MAX;
    for byte in bytes {
        for place in 0u32..8 {
            let leaves = register & 1 != u32::from(*byte) >> place & 1;
            register >>= 1;
            if leaves {
                register ^= 0xEDB8_8320;
            }
        }
    }
    !register
}
