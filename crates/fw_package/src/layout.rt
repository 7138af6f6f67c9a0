//! The places of a header's parts (DSP0267 1.0, package header information).

ghost use Rattle.std.specs.Prelude.{◌≡◌, ◌+◌, ◌≤◌, ◌<◌, length, IfSome, IsSome};
ghost use Rattle.std.specs.Option.{option_map};
ghost use Rattle.fw_package.specs.Layout.{bytes_after, after_component, after_components, after_record, after_records, layout_of, layout_seen, text_size_of};

use byteorder::{ByteOrder, LittleEndian};

/// The bytes before the version text: identifier, revision, header size, release time, bitmap bit
/// length, version text type and length.
pub const FIXED_SIZE: usize = 36;

/// The place of the header revision, after the identifier of 16 bytes.
pub const REVISION: usize = 16;

/// The place of the header size.
pub const HEADER_SIZE: usize = 17;

/// The place of the release time, 13 bytes.
pub const RELEASE: usize = 19;

/// The place of the bitmap's bit length, after the release time.
pub const BITMAP_BITS: usize = 32;

/// The place of the version text's type.
pub const VERSION_TYPE: usize = 34;

/// The place of the version text's length, after its type.
pub const VERSION_LENGTH: usize = 35;

/// The bytes of a record's length, at the beginning of the record.
pub const RECORD_LENGTH_SIZE: usize = 2;

/// The bytes of a component before its version text.
pub const COMPONENT_SIZE: usize = 22;

/// The place of a component's version text length, the last byte before the text.
pub const COMPONENT_TEXT_LENGTH: usize = 21;

/// The bytes of the component count.
pub const COUNT_SIZE: usize = 2;

/// The bytes of the checksum, at the end of the header.
pub const CHECKSUM_SIZE: usize = 4;

/// The places of a header's records, components and checksum.
#[derive(Clone, Copy)]
pub struct Layout<'a> {
    /// The number of records.
    pub record_count: usize,
    /// The header from its first record on.
    pub records: &'a [u8],
    /// The number of components.
    pub component_count: u16,
    /// The header from its first component on.
    pub components: &'a [u8],
}

/// Walks over a header by the lengths in it: the version text, the records, each by its record
/// length, and the components. Returns `None` if a part goes past the header's end, or if anything
/// but the checksum's four bytes is left.
#[tactic(auto, unfolding(crate::specs::Layout::layout_of))]
pub fn walk(header: &[u8]) -> Option<Layout<'_>>
    ensures parts { option_map layout_seen result ≡ layout_of header.now }
    ensures records { IfSome result (λ l. IsSome (after_records l.record_count l.records.now)) }
    ensures components { IfSome result (λ l. IsSome (after_components l.component_count l.components.now)) }
    ensures long { IfSome result (λ l. FIXED_SIZE + text_size_of VERSION_LENGTH header.now ≤ length header.now) }
    ensures inside { IfSome result (λ l. length l.components.now ≤ length header.now) }
{
    let rest = skip(header, FIXED_SIZE + text_size(header, VERSION_LENGTH))?;
    let [record_count, records @ ..] = rest else {
        return None;
    };
    let record_count = usize::from(*record_count);
    let rest = skip_records(records, record_count)?;
    let components = skip(rest, COUNT_SIZE)?;
    let component_count = LittleEndian::read_u16(rest);
    let rest = skip_components(components, usize::from(component_count))?;
    if rest.len() != CHECKSUM_SIZE {
        return None;
    }
    Some(Layout {
        record_count,
        records,
        component_count,
        components,
    })
}

/// Returns the bytes after the first `size` bytes, if there are as many.
fn skip(bytes: &[u8], size: usize) -> Option<&[u8]>
    ensures { option_map (λ rest. rest.now) result ≡ bytes_after size bytes.now }
{
    if bytes.len() < size {
        return None;
    }
    Some(&bytes[size..])
}

/// Returns the length of a text, in the byte at this place, or 0 past the end.
fn text_size(bytes: &[u8], place: usize) -> usize
    ensures value { result ≡ text_size_of place bytes.now }
    ensures small { result < 256 }
{
    match bytes.get(place) {
        Some(size) => usize::from(*size),
        None => 0,
    }
}

/// Returns the bytes after the first record.
fn skip_record(bytes: &[u8]) -> Option<&[u8]>
    ensures { option_map (λ rest. rest.now) result ≡ after_record bytes.now }
{
    if bytes.len() < RECORD_LENGTH_SIZE {
        return None;
    }
    skip(bytes, usize::from(LittleEndian::read_u16(bytes)))
}

/// Returns the bytes after `count` records.
#[tactic(auto, using(crate::proofs::Walks::record_walk))]
pub fn skip_records(bytes: &[u8], count: usize) -> Option<&[u8]>
    ensures { option_map (λ rest. rest.now) result ≡ after_records count bytes.now }
{
    let mut rest = bytes;
    for _record in 0..count {
        rest = skip_record(rest)?;
    }
    Some(rest)
}

/// Returns the bytes after the first component.
fn skip_component(bytes: &[u8]) -> Option<&[u8]>
    ensures { option_map (λ rest. rest.now) result ≡ after_component bytes.now }
{
    skip(
        bytes,
        COMPONENT_SIZE + text_size(bytes, COMPONENT_TEXT_LENGTH),
    )
}

/// Returns the bytes after `count` components.
#[tactic(auto, using(crate::proofs::Walks::component_walk))]
pub fn skip_components(bytes: &[u8], count: usize) -> Option<&[u8]>
    ensures { option_map (λ rest. rest.now) result ≡ after_components count bytes.now }
{
    let mut rest = bytes;
    for _component in 0..count {
        rest = skip_component(rest)?;
    }
    Some(rest)
}
