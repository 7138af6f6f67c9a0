//! Reading the text `active`.

ghost use Rattle.std.specs.Prelude.{◌≡◌, ◌≤◌, ◌^◌, ◌==◌, ◌&&◌, IfOk, IfSome, None, Some, if◌then◌else◌, length, nat_lt, option_map};
ghost use Rattle.std.specs.Char.{is_ascii_digit};
ghost use Rattle.std.specs.List.{list_all, position};
ghost use Rattle.std.specs.Str.Parse.{digits_value};
ghost use Rattle.fw_store.specs.Active.{checksum_at, checksum_in, data_in, entries_from, entries_of, entry_at, field_at, key_at, label_at, name_at, number_at, number_in};

use crate::entry::ImageEntry;
use crate::writing::active_text;
use arrayvec::ArrayVec;
use fd_core::{Label, MAX_TEXT};
use fwup_wire::Key;
use std::alloc::{AllocError, Global};

/// The number of bytes of the last line: eight digits and a line feed.
pub(crate) const LAST_LINE: usize = 9;

/// Returns the place of the first such byte.
fn place_of(text: &[u8], byte: u8) -> Option<usize>
    ensures { result ≡ position (λ b. b == byte) text.now }
{
    text.iter().position(|other| *other == byte)
}

/// Returns the bytes before the first `stop` byte, and those after it.
#[tactic(auto, using(crate::proofs::Fields::field_here, crate::proofs::Fields::field_nowhere))]
pub(crate) fn field(text: &[u8], stop: u8) -> Option<(&[u8], &[u8])>
    ensures { option_map (λ f. (f.0.now, f.1.now)) result ≡ field_at stop text.now }
{
    match place_of(text, stop) {
        Some(place) => Some((&text[..place], &text[place + 1..])),
        None => None,
    }
}

/// Returns the decimal number of the digits, if they are digits and it fits.
pub(crate) fn digits(word: &[u8]) -> Option<u64>
    ensures { result ≡ (if list_all is_ascii_digit word.now
        && nat_lt (digits_value 10 word.now) (2 ^ 64)
        then Some (digits_value 10 word.now)
        else None) }
{
    let mut value: u64 = 0;
    for byte in word {
        if !byte.is_ascii_digit() {
            return None;
        }
        value = value.checked_mul(10)?.checked_add(u64::from(*byte - b'0'))?;
    }
    Some(value)
}

/// Returns a decimal number of at most `most`.
#[tactic(auto, unfolding(crate::specs::Active::number_in))]
fn number_of(word: &[u8], most: u32) -> Option<u32>
    ensures value { result ≡ number_in most word.now }
    ensures within { IfSome result (λ n. n ≤ most) }
{
    match digits(word) {
        Some(number) if number <= u64::from(most) => Some(number as u32),
        _ => None,
    }
}

/// Returns a decimal number of at most `most` before the byte `stop`, and the bytes after it.
#[tactic(auto, unfolding(crate::specs::Active::number_at))]
pub(crate) fn number(text: &[u8], stop: u8, most: u32) -> Option<(u32, &[u8])>
    ensures value { option_map (λ f. (f.0, f.1.now)) result ≡ number_at stop most text.now }
    ensures within { IfSome result (λ f. f.0 ≤ most) }
{
    let (word, rest) = field(text, stop)?;
    Some((number_of(word, most)?, rest))
}

/// Returns two numbers of two bytes, each before its byte.
#[tactic(auto, unfolding(crate::specs::Active::key_at))]
fn key(text: &[u8], first: u8, second: u8) -> Option<(Key, &[u8])>
    ensures { option_map (λ f. (f.0, f.1.now)) result ≡ key_at first second text.now }
{
    let (class, rest) = number(text, first, 0xFFFF)?;
    let (ident, rest) = number(rest, second, 0xFFFF)?;
    let key = Key {
        classification: class as u16,
        identifier: ident as u16,
    };
    Some((key, rest))
}

/// Returns the component and the number of a file's name, up to the word `image`.
#[tactic(auto, unfolding(crate::specs::Active::name_at))]
pub(crate) fn name(text: &[u8]) -> Option<((Key, u32), &[u8])>
    ensures { option_map (λ f. (f.0, f.1.now)) result ≡ name_at text.now }
{
    let (key, rest) = key(text, b'-', b'.')?;
    let (number, rest) = number(rest, b'.', 0xFFFF_FFFF)?;
    Some(((key, number), rest))
}

/// Returns a label's text, of at most twelve bytes.
#[tactic(auto, unfolding(crate::specs::Active::data_in))]
fn data(word: &[u8]) -> Option<ArrayVec<u8, MAX_TEXT>>
    ensures { option_map (λ v. v.items) result ≡ data_in word.now }
{
    let mut data = ArrayVec::new();
    if word == b"-".as_slice() {
        return Some(data);
    }
    if word.len() > 2 * MAX_TEXT {
        return None;
    }
    let mut bytes = [0; MAX_TEXT];
    let place = &mut bytes[..word.len() / 2];
    match hex::decode_to_slice(word, place) {
        Ok(()) => {}
        Err(_) => return None,
    }
    let _ = data.try_extend_from_slice(place);
    Some(data)
}

/// Returns a label, and the bytes after it.
#[tactic(auto, unfolding(crate::specs::Active::label_at))]
fn label(text: &[u8]) -> Option<(Label, &[u8])>
    ensures { option_map (λ f. (f.0, f.1.now)) result ≡ label_at text.now }
{
    let (stamp, rest) = number(text, b' ', 0xFFFF_FFFF)?;
    let (kind, rest) = number(rest, b' ', 0xFF)?;
    let (word, rest) = field(rest, b' ')?;
    let label = Label {
        stamp,
        text_type: kind as u8,
        text: data(word)?,
    };
    Some((label, rest))
}

/// Returns a checksum of eight digits.
#[tactic(auto, unfolding(crate::specs::Active::checksum_in))]
fn checksum_of(word: &[u8]) -> Option<u32>
    ensures { result ≡ checksum_in word.now }
{
    let mut bytes = [0; 4];
    match hex::decode_to_slice(word, &mut bytes) {
        Ok(()) => Some(u32::from_be_bytes(bytes)),
        Err(_) => None,
    }
}

/// Returns a checksum at the end of a line, and the bytes after the line.
#[tactic(auto, unfolding(crate::specs::Active::checksum_at))]
fn checksum(text: &[u8]) -> Option<(u32, &[u8])>
    ensures { option_map (λ f. (f.0, f.1.now)) result ≡ checksum_at text.now }
{
    let (word, rest) = field(text, b'\n')?;
    Some((checksum_of(word)?, rest))
}

/// Returns the image of a line, and the bytes after the line.
#[tactic(auto, unfolding(crate::specs::Active::entry_at))]
fn entry(text: &[u8]) -> Option<(ImageEntry, &[u8])>
    ensures { option_map (λ f. (f.0, f.1.now)) result ≡ entry_at text.now }
{
    let (key, rest) = key(text, b' ', b' ')?;
    let (label, rest) = label(rest)?;
    let ((_, in_name), rest) = name(rest)?;
    let (_, rest) = field(rest, b' ')?;
    let (size, rest) = number(rest, b' ', 0xFFFF_FFFF)?;
    let (checksum, rest) = checksum(rest)?;
    let entry = ImageEntry {
        key,
        label,
        number: in_name,
        size,
        checksum,
    };
    Some((entry, rest))
}

/// Returns the images of the text's lines, if there is no more text.
#[tactic(auto, using(crate::proofs::EachLine::reading))]
fn entries(alloc: Global, text: &[u8]) -> Result<Option<Vec<ImageEntry>>, AllocError>
    ensures { IfOk result (λ r. option_map (λ v. v.items) r ≡ entries_from (length text.now) text.now) }
{
    let mut entries = Vec::new(alloc);
    let mut rest = text;
    for _ in 0..text.len() {
        if rest.is_empty() {
            return Ok(Some(entries));
        }
        let Some((entry, after)) = entry(rest) else {
            return Ok(None);
        };
        entries.push(entry)?;
        rest = after;
    }
    if rest.is_empty() {
        Ok(Some(entries))
    } else {
        Ok(None)
    }
}

/// Returns the images of a text, if it is the text of a list of images.
///
/// # Errors
/// `AllocError` if memory can't be allocated.
pub fn read_active(alloc: Global, text: &[u8]) -> Result<Option<Vec<ImageEntry>>, AllocError>
    ensures { IfOk result (λ r. option_map (λ v. v.items) r ≡ entries_of text.now) }
{
    let lines = &text[..text.len().saturating_sub(LAST_LINE)];
    let Some(entries) = entries(alloc, lines)? else {
        return Ok(None);
    };
    let written = active_text(alloc, entries.as_slice())?;
    if written.as_slice() == text {
        Ok(Some(entries))
    } else {
        Ok(None)
    }
}
