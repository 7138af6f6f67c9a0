//! Splits a text into lines, and a line into words.

ghost use Rattle.std.specs.Prelude.{◌≡◌, ◌<◌, ◌∷◌, ◌==◌, [], IfSome, MatchOption, length, map, option_map};
ghost use Rattle.std.specs.List.{position, slice_split};
ghost use Rattle.fw_script.specs.Lines.{fields_in, is_skipped as says_nothing, lines_of, words_from, words_of};

use arrayvec::ArrayVec;

/// The most fields of a line of a configuration or schedule, except of one that lists nodes.
pub const MAX_FIELDS: usize = 6;

/// The position of the first `byte`.
fn place_of(bytes: &[u8], byte: u8) -> Option<usize>
    ensures { result ≡ position (λ b. b == byte) bytes.now }
{
    bytes.iter().position(|other| *other == byte)
}

/// Splits at the first `byte`.
fn cut(bytes: &[u8], byte: u8) -> Option<(&[u8], &[u8])>
    ensures parts { MatchOption result (slice_split (λ b. b == byte) bytes.now ≡ bytes.now ∷ [])
        (λ p. slice_split (λ b. b == byte) bytes.now ≡ p.0.now ∷ slice_split (λ b. b == byte) p.1.now) }
    ensures shorter { IfSome result (λ p. length p.1.now < length bytes.now) }
{
    match place_of(bytes, byte) {
        Some(place) => Some((&bytes[..place], &bytes[place + 1..])),
        None => None,
    }
}

/// Cuts off the first line of a text that isn't empty.
#[tactic(auto, using(crate::proofs::Cuts::more_lines))]
pub fn first_line(text: &[u8]) -> (&[u8], &[u8])
    requires { 0 < length text.now }
    ensures lines { lines_of text.now ≡ result.0.now ∷ lines_of result.1.now }
    ensures shorter { length result.1.now < length text.now }
{
    match cut(text, b'\n') {
        Some(parts) => parts,
        None => (text, &[]),
    }
}

/// Returns whether a line is skipped: it is empty or begins with `#`.
pub fn is_skipped(line: &[u8]) -> bool
    ensures { result ≡ says_nothing line.now }
{
    match line {
        [] => true,
        [first, ..] => *first == b'#',
    }
}

/// Cuts off the first word of a line.
pub fn first_word(line: &[u8]) -> (&[u8], Option<&[u8]>)
    ensures words { words_of line.now ≡ result.0.now ∷ words_from (option_map (λ r. r.now) result.1) }
    ensures shorter { IfSome result.1 (λ r. length r.now < length line.now) }
{
    match cut(line, b' ') {
        Some((word, rest)) => (word, Some(rest)),
        None => (line, None),
    }
}

/// Returns the fields after the first word, if none is empty and there are at most `N`.
#[tactic(auto, using(crate::proofs::Cuts::left_out, crate::proofs::Cuts::too_many))]
pub fn fields_after<const N: usize>(rest: Option<&[u8]>) -> Option<ArrayVec<&[u8], N>>
    ensures { option_map (λ fields. map (λ f. f.now) fields.items) result
        ≡ fields_in N (words_from (option_map (λ r. r.now) rest.entry)) }
{
    let mut fields = ArrayVec::new();
    let mut left = rest;
    while let Some(words) = left {
        let (word, after) = first_word(words);
        if word.is_empty() || fields.is_full() {
            return None;
        }
        fields.push(word);
        left = after;
    }
    Some(fields)
}
