//! The packets in lines of hexadecimal digits.

ghost use Rattle.std.specs.Prelude.{◌≡◌, ◌≤◌, ◌<◌, ◌==◌, ◌∷◌, [], IfSome, MatchOption, length, option_map};
ghost use Rattle.std.specs.List.{position, slice_split};
ghost use Rattle.std.specs.Result.{result_map_both};
ghost use Rattle.fw_trace.specs.Inputs.{cut_word, lines_of_text, number_up_to, place_after_turn, place_in_line};

/// Why an input isn't decoded as a packet.
#[derive(Clone, Copy, Debug, PartialEq, Eq)]
pub enum InputFault {
    /// The line is neither digits alone nor the turn, device, direction and digits of a trace.
    Fields,
    /// The turn isn't a number below 2^32, or the device isn't one below 256.
    Number,
    /// The packet isn't an even number of hexadecimal digits.
    Hex,
    /// The packet has fewer than 4 bytes, so its ends aren't known.
    Short,
    /// The packet is the first of a further pair, after 1,024 pairs.
    Pairs,
    /// The capture has another link type than Linux cooked mode (113).
    LinkType,
    /// The record of a capture isn't an MCTP packet.
    Protocol,
    /// The capture ends in its header or in a record, or a record hasn't captured the whole packet.
    Cut,
}

/// The digits of a packet in a line, and what a trace writes before them.
#[derive(Clone, Copy)]
pub struct PlacedDigits<'a> {
    /// The tick of sending, if it is known.
    pub turn: Option<u32>,
    /// The device of the packet's link, if it is known.
    pub device: Option<u8>,
    /// The packet in hexadecimal digits.
    pub digits: &'a [u8],
}

/// The position of the first `byte`.
fn place_of_byte(bytes: &[u8], byte: u8) -> Option<usize>
    ensures { result ≡ position (λ b. b == byte) bytes.now }
{
    bytes.iter().position(|other| *other == byte)
}

/// Splits at the first space.
fn cut(bytes: &[u8]) -> Option<(&[u8], &[u8])>
    ensures { option_map (λ p. (p.0.now, p.1.now)) result ≡ cut_word bytes.now }
{
    match place_of_byte(bytes, b' ') {
        Some(place) => Some((&bytes[..place], &bytes[place + 1..])),
        None => None,
    }
}

/// The number in decimal digits, if there are any and it is at most `most`.
fn number_up_to(most: u32, word: &[u8]) -> Option<u32>
    ensures value { result ≡ number_up_to most word.now }
    ensures within { IfSome result (λ n. n ≤ most) }
{
    if word.is_empty() {
        return None;
    }
    let mut value: u64 = 0;
    for byte in word {
        if !byte.is_ascii_digit() {
            return None;
        }
        value = value * 10 + u64::from(*byte - b'0');
        if value > u64::from(most) {
            return None;
        }
    }
    Some(value as u32)
}

/// Whether a word is a packet's direction in a trace.
fn is_way(word: &[u8]) -> bool
    ensures { result ≡ Rattle.fw_trace.specs.Inputs.is_way word.now }
{
    word == b"to-device".as_slice() || word == b"to-agent".as_slice()
}

/// The place of a packet's digits in what follows the turn of a trace's line.
fn place_after_turn<'a>(turn: &[u8], rest: &'a [u8]) -> Result<PlacedDigits<'a>, InputFault>
    ensures { result_map_both (λ p. record { turn = p.turn; device = p.device; digits = p.digits.now }) (λ e. e) result
        ≡ place_after_turn turn.now (cut_word rest.now) }
{
    let Some((device, rest)) = cut(rest) else {
        return Err(InputFault::Fields);
    };
    let Some((way, digits)) = cut(rest) else {
        return Err(InputFault::Fields);
    };
    if !is_way(way) {
        return Err(InputFault::Fields);
    }
    match (number_up_to(u32::MAX, turn), number_up_to(255, device)) {
        (Some(turn), Some(device)) => Ok(PlacedDigits {
            turn: Some(turn),
            device: Some(device as u8),
            digits,
        }),
        _ => Err(InputFault::Number),
    }
}

/// Returns the place of a packet's digits in a line.
///
/// # Errors
/// `Fields` if the line is neither digits alone nor a trace's; `Number`, for one of its numbers.
pub fn place_in_line(line: &[u8]) -> Result<PlacedDigits<'_>, InputFault>
    ensures { result_map_both
        (λ p. record { turn = p.turn; device = p.device; digits = p.digits.now }) (λ e. e) result
        ≡ place_in_line line.now }
{
    match cut(line) {
        Some((turn, rest)) => place_after_turn(turn, rest),
        None => Ok(PlacedDigits {
            turn: None,
            device: None,
            digits: line,
        }),
    }
}

/// Splits a text at its first line feed.
fn cut_line(text: &[u8]) -> Option<(&[u8], &[u8])>
    ensures parts { MatchOption result (slice_split (λ b. b == 10) text.now ≡ text.now ∷ [])
        (λ p. slice_split (λ b. b == 10) text.now ≡ p.0.now ∷ slice_split (λ b. b == 10) p.1.now) }
    ensures shorter { IfSome result (λ p. length p.1.now < length text.now) }
{
    match place_of_byte(text, b'\n') {
        Some(place) => Some((&text[..place], &text[place + 1..])),
        None => None,
    }
}

/// Cuts off the first line of a text that isn't empty.
#[tactic(auto, using(crate::proofs::Cuts::more_lines))]
pub fn first_text_line(text: &[u8]) -> (&[u8], &[u8])
    requires { 0 < length text.now }
    ensures lines { lines_of_text text.now ≡ result.0.now ∷ lines_of_text result.1.now }
    ensures shorter { length result.1.now < length text.now }
{
    match cut_line(text) {
        Some(parts) => parts,
        None => (text, &[]),
    }
}
