//! Field values that only package descriptions have.

ghost use Rattle.std.specs.Prelude.{◌≡◌, ◌+◌, ◌<◌, ◌≤◌, ◌⊎◌, ◌∷◌, [], IfErr, IfOk, IfSome, MatchOption, None, Ok, Some, length, map, option_map, string_bytes};
ghost use Rattle.fw_script.specs.Faults.{AnswersUnlessMemory, both as both_of};
ghost use Rattle.fw_script.specs.Lines.{words_from};
ghost use Rattle.fw_script.specs.SpecFields.{are_numbers as are_all_numbers, byte_escaped, image_path_of, numbers_used, package_text_of, unescaped_word, upper_digit_of, uses_from, uses_of, whole_fields, with_byte};

use crate::draft::read_path;
use crate::faults::ScriptCause;
use crate::lines::first_word;
use crate::values::{is_dash, is_number, number_in};
use std::alloc::Global;

/// The most bytes of a text.
const MAX_TEXT: usize = 255;

/// The greatest number of a component, counted from 1.
const MAX_USE: u64 = 65535;

/// The fields after the first word, in any number.
pub(crate) fn all_fields<'a>(
    alloc: Global,
    rest: Option<&'a [u8]>,
) -> Result<Vec<&'a [u8]>, ScriptCause>
    ensures { AnswersUnlessMemory (λ fields. map (λ f. f.now) fields.items) result
        (whole_fields (words_from (option_map (λ r. r.now) rest.entry))) }
{
    let mut fields = Vec::new(alloc);
    let mut left = rest;
    while let Some(words) = left {
        let (word, after) = first_word(words);
        if word.is_empty() {
            return Err(ScriptCause::Fields);
        }
        let Ok(()) = fields.push(word) else {
            return Err(ScriptCause::Memory);
        };
        left = after;
    }
    Ok(fields)
}

/// The value of an upper-case hexadecimal digit.
fn upper_digit(digit: u8) -> Option<u8>
    ensures value { result ≡ upper_digit_of digit }
    ensures small { IfSome result (λ n. n < 16) }
{
    match digit {
        b'0'..=b'9' => Some(digit - b'0'),
        b'A'..=b'F' => Some(digit - b'A' + 10),
        _ => None,
    }
}

/// The byte that `\xNN` encodes, given what follows the backslash.
fn escaped_byte(x: u8, high: u8, low: u8) -> Option<u8>
    ensures { result ≡ byte_escaped x high low }
{
    if x != b'x' {
        return None;
    }
    match (upper_digit(high), upper_digit(low)) {
        (Some(high), Some(low)) => Some(high * 16 + low),
        _ => None,
    }
}

/// The first byte that a word encodes, if it isn't empty, and the rest of the word.
fn first_byte(word: &[u8]) -> Result<Option<(u8, &[u8])>, ScriptCause>
    ensures byte { IfOk result (λ first. MatchOption first (word.now ≡ [])
        (λ p. unescaped_word word.now ≡ with_byte (Some p.0) (unescaped_word p.1.now))) }
    ensures shorter { IfOk result (λ first. IfSome first (λ p. length p.1.now < length word.now)) }
    ensures bad { IfErr result (λ e. unescaped_word word.now ≡ None) }
    ensures fault { IfErr result (λ e. e ≡ ScriptCause.Hex) }
{
    match word {
        [] => Ok(None),
        [b'\\', x, high, low, rest @ ..] => match escaped_byte(*x, *high, *low) {
            Some(byte) => Ok(Some((byte, rest))),
            None => Err(ScriptCause::Hex),
        },
        [b'\\', ..] => Err(ScriptCause::Hex),
        [byte, rest @ ..] => Ok(Some((*byte, rest))),
    }
}

/// The bytes that a word encodes.
#[tactic(auto, using(crate::proofs::Specs::behind_more, crate::proofs::Specs::behind_nothing))]
fn unescape(alloc: Global, word: &[u8]) -> Result<Vec<u8>, ScriptCause>
    ensures ok { IfOk result (λ bytes. unescaped_word word.now ≡ Some bytes.items) }
    ensures fault { IfErr result (λ e. (e ≡ ScriptCause.Memory) ⊎ ((e ≡ ScriptCause.Hex) × (unescaped_word word.now ≡ None))) }
{
    let mut bytes = Vec::new(alloc);
    let mut rest = word;
    while !rest.is_empty() {
        match first_byte(rest) {
            Ok(Some((byte, after))) => {
                let Ok(()) = bytes.push(byte) else {
                    return Err(ScriptCause::Memory);
                };
                rest = after;
            }
            Ok(None) => return Ok(bytes),
            Err(cause) => return Err(cause),
        }
    }
    Ok(bytes)
}

/// A text of a package.
#[tactic(auto, unfolding(crate::specs::SpecFields::package_text_of))]
pub(crate) fn package_text(alloc: Global, word: &[u8]) -> Result<Vec<u8>, ScriptCause>
    ensures { AnswersUnlessMemory (λ v. v.items) result (package_text_of word.now) }
{
    if is_dash(word) {
        return Ok(Vec::new(alloc));
    }
    match unescape(alloc, word) {
        Ok(bytes) if bytes.len() > MAX_TEXT => Err(ScriptCause::Limit),
        Ok(bytes) => Ok(bytes),
        Err(cause) => Err(cause),
    }
}

/// Whether all words are digits only.
fn are_numbers(words: &[&[u8]]) -> bool
    ensures { result ≡ are_all_numbers (map (λ w. w.now) words.now) }
{
    for word in words {
        if !is_number(word) {
            return false;
        }
    }
    true
}

/// The components that ascending numbers name.
fn rising_uses(alloc: Global, words: &[&[u8]]) -> Result<Vec<u16>, ScriptCause>
    ensures { AnswersUnlessMemory (λ uses. uses.items) result (uses_from 1 (map (λ w. w.now) words.now)) }
{
    let mut uses = Vec::new(alloc);
    let mut least = 1;
    for word in words {
        let number = number_in(word, least, MAX_USE)?;
        let Ok(()) = uses.push(number.saturating_sub(1) as u16) else {
            return Err(ScriptCause::Memory);
        };
        least = number + 1;
    }
    Ok(uses)
}

/// The components that a record uses.
pub(crate) fn read_uses(alloc: Global, words: &[&[u8]]) -> Result<Vec<u16>, ScriptCause>
    ensures { AnswersUnlessMemory (λ uses. uses.items) result (uses_of (map (λ w. w.now) words.now)) }
{
    if let [word] = words
        && is_dash(word)
    {
        return Ok(Vec::new(alloc));
    }
    if !are_numbers(words) {
        return Err(ScriptCause::Number);
    }
    rising_uses(alloc, words)
}

/// The path of an image's file, if there is one.
fn image_path(alloc: Global, word: &[u8]) -> Result<Option<String>, ScriptCause>
    ensures { AnswersUnlessMemory (λ path. option_map (λ p. string_bytes p) path) result (image_path_of word.now) }
{
    if is_dash(word) {
        return Ok(None);
    }
    match read_path(alloc, word) {
        Ok(path) => Ok(Some(path)),
        Err(cause) => Err(cause),
    }
}

/// A text, and the components that a record uses.
pub(crate) fn text_and_uses(
    alloc: Global,
    text: &[u8],
    words: &[&[u8]],
) -> Result<(Vec<u8>, Vec<u16>), ScriptCause>
    ensures { AnswersUnlessMemory (λ r. (r.0.items, r.1.items)) result
        (both_of (package_text_of text.now) (uses_of (map (λ w. w.now) words.now))) }
{
    match (package_text(alloc, text), read_uses(alloc, words)) {
        (Ok(text), Ok(uses)) => Ok((text, uses)),
        (Ok(_), Err(cause)) => Err(cause),
        (Err(ScriptCause::Memory), _) | (_, Err(ScriptCause::Memory)) => Err(ScriptCause::Memory),
        (Err(cause), Ok(_)) => Err(cause),
        (Err(cause), Err(other)) => Err(cause.earlier(other)),
    }
}

/// A text, and the path of an image's file.
pub(crate) fn text_and_path(
    alloc: Global,
    text: &[u8],
    path: &[u8],
) -> Result<(Vec<u8>, Option<String>), ScriptCause>
    ensures { AnswersUnlessMemory (λ r. (r.0.items, option_map (λ p. string_bytes p) r.1)) result
        (both_of (package_text_of text.now) (image_path_of path.now)) }
{
    match (package_text(alloc, text), image_path(alloc, path)) {
        (Ok(text), Ok(path)) => Ok((text, path)),
        (Ok(_), Err(cause)) => Err(cause),
        (Err(ScriptCause::Memory), _) | (_, Err(ScriptCause::Memory)) => Err(ScriptCause::Memory),
        (Err(cause), Ok(_)) => Err(cause),
        (Err(cause), Err(other)) => Err(cause.earlier(other)),
    }
}
