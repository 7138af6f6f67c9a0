//! Parses the values of fields.

ghost use Rattle.std.specs.Prelude.{◌≡◌, ◌≤◌, ◌<◌, ◌^◌, ◌&&◌, IfOk, Some, None, Ok, Err, if◌then◌else◌, nat_lt};
ghost use Rattle.std.specs.List.{list_all};
ghost use Rattle.std.specs.Char.{is_ascii_digit};
ghost use Rattle.std.specs.Str.Parse.{digits_value};
ghost use Rattle.fw_script.specs.Faults.{AnswersUnlessMemory, both as both_of};
ghost use Rattle.fw_script.specs.Values.{bytes_of, eid_of, is_dash as stands_for_nothing, kind_of, number_in as number_within, text_of, uuid_of};

use crate::faults::{ScriptCause, both};
use hex::FromHexError;
use std::alloc::Global;
use uuid::Uuid;

/// The number in decimal digits, if the word is digits only and the number fits 64 bits.
fn digits(word: &[u8]) -> Option<u64>
    ensures { result ≡ (if list_all is_ascii_digit word.now
        && nat_lt (digits_value 10 word.now) (2 ^ 64)
        then Some (digits_value 10 word.now)
        else None) }
{
    let mut value: u64 = 0;
    for byte in word {
        if !byte.is_ascii_digit() {
            return None;
        }
        value = value.checked_mul(10)?.checked_add(u64::from(*byte - b'0'))?;
    }
    Some(value)
}

/// Whether a word is digits only.
pub(crate) fn is_number(word: &[u8]) -> bool
    ensures { result ≡ list_all is_ascii_digit word.now }
{
    word.iter().all(|byte| byte.is_ascii_digit())
}

/// Parses a decimal number from `least` to `most`.
#[tactic(auto, unfolding(crate::specs::Values::number_in))]
pub fn number_in(word: &[u8], least: u64, most: u64) -> Result<u64, ScriptCause>
    ensures value { result ≡ number_within least most word.now }
    ensures within { IfOk result (λ n. n ≤ most) }
{
    if !is_number(word) {
        return Err(ScriptCause::Number);
    }
    match digits(word) {
        Some(number) if least <= number && number <= most => Ok(number),
        _ => Err(ScriptCause::Range),
    }
}

/// Parses an endpoint identifier.
pub fn eid(word: &[u8]) -> Result<u8, ScriptCause>
    ensures { result ≡ eid_of word.now }
{
    match number_in(word, 8, 254) {
        Ok(number) => Ok(number as u8),
        Err(cause) => Err(cause),
    }
}

/// Parses a number of one byte.
pub fn number_u8(word: &[u8]) -> Result<u8, ScriptCause>
    ensures { result ≡ number_within 0 255 word.now }
{
    match number_in(word, 0, 255) {
        Ok(number) => Ok(number as u8),
        Err(cause) => Err(cause),
    }
}

/// Parses a number of two bytes.
pub fn number_u16(word: &[u8]) -> Result<u16, ScriptCause>
    ensures { result ≡ number_within 0 65535 word.now }
{
    match number_in(word, 0, 65535) {
        Ok(number) => Ok(number as u16),
        Err(cause) => Err(cause),
    }
}

/// Parses a number of four bytes.
pub fn number_u32(word: &[u8]) -> Result<u32, ScriptCause>
    ensures { result ≡ number_within 0 4294967295 word.now }
{
    match number_in(word, 0, 4_294_967_295) {
        Ok(number) => Ok(number as u32),
        Err(cause) => Err(cause),
    }
}

/// Parses a UUID.
#[tactic(auto, unfolding(crate::specs::Values::uuid_of))]
pub fn uuid(word: &[u8]) -> Result<Uuid, ScriptCause>
    ensures { result ≡ uuid_of word.now }
{
    match Uuid::try_parse_ascii(word) {
        Ok(uuid) => Ok(uuid),
        Err(_) => Err(ScriptCause::Number),
    }
}

/// Whether a field is a dash, which is an empty value.
pub(crate) fn is_dash(word: &[u8]) -> bool
    ensures { result ≡ stands_for_nothing word.now }
{
    word == b"-".as_slice()
}

/// Returns the bytes of a text field.
#[tactic(auto, unfolding(crate::specs::Values::text_of))]
pub fn text(word: &[u8]) -> &[u8]
    ensures { result.now ≡ text_of word.now }
{
    if is_dash(word) { &[] } else { word }
}

/// Parses bytes in hexadecimal digits.
#[tactic(auto, unfolding(crate::specs::Values::bytes_of))]
pub fn bytes(alloc: Global, word: &[u8]) -> Result<Vec<u8>, ScriptCause>
    ensures { AnswersUnlessMemory (λ v. v.items) result (bytes_of word.now) }
{
    if is_dash(word) {
        return Ok(Vec::new(alloc));
    }
    match hex::decode(alloc, word) {
        Ok(bytes) => Ok(bytes),
        Err(FromHexError::OutOfMemory) => Err(ScriptCause::Memory),
        Err(_) => Err(ScriptCause::Hex),
    }
}

/// Parses a descriptor's type.
#[tactic(auto, unfolding(crate::specs::Values::kind_of))]
pub fn kind(word: &[u8]) -> Result<u16, ScriptCause>
    ensures { result ≡ kind_of word.now }
{
    let mut kind = [0; 2];
    match hex::decode_to_slice(word, &mut kind) {
        Ok(()) => Ok(u16::from_be_bytes(kind)),
        Err(_) => Err(ScriptCause::Hex),
    }
}

/// Returns a value that is parsed already, and the bytes that `word` encodes.
pub fn with_bytes<T: Drop>(
    alloc: Global,
    value: Result<T, ScriptCause>,
    word: &[u8],
) -> Result<(T, Vec<u8>), ScriptCause>
    ensures { AnswersUnlessMemory (λ r. (r.0, r.1.items)) result (both_of value (bytes_of word.now)) }
{
    match bytes(alloc, word) {
        Ok(bytes) => both(value, Ok(bytes)),
        Err(ScriptCause::Memory) => Err(ScriptCause::Memory),
        Err(cause) => both(value, Err(cause)),
    }
}
