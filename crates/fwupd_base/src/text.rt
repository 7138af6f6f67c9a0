//! Lines of hexadecimal digits in, lines of text out.

ghost use Rattle.std.specs.Prelude.{◌≡◌, ◌+◌, ◌*◌, ◌∷◌, [], ◌++◌, ◌≤◌, length, vec_capacity};
ghost use Rattle.std.specs.Result.{result_map_both};
ghost use Rattle.hex.specs.Hex.{decode_of, encode_upper};
ghost use Rattle.fwupd_base.specs.Answers.{line_text_of, text_for_line, tid_after_line};

use crate::drops::LineDropCause;
use crate::responder::Responder;
use arrayvec::ArrayVec;
use hex::FromHexError;
use mctp_wire::{MAX_PACKET, RawPacket};

/// The most digits of a packet: two for each byte.
const MAX_DIGITS: usize = 2 * MAX_PACKET;

/// The most bytes of a line of output: a packet in digits, and a line feed.
const MAX_LINE: usize = MAX_DIGITS + 1;

/// One line of output: a packet in digits, and a line feed.
pub type LineText = ArrayVec<u8, MAX_LINE>;

/// The beginning of the output line for a line without an answer.
const DROP: &[u8] = b"drop ";

/// Decodes digits, two for each byte, into `bytes`, which is resized.
///
/// # Errors
/// The digits are malformed.
pub(crate) fn decode_digits(digits: &[u8], bytes: &mut Vec<u8>) -> Result<(), FromHexError>
    requires room { length digits.now ≤ 2 * vec_capacity bytes.old }
    ensures value { result_map_both (λ _. bytes.new.items) (λ e. e) result ≡ decode_of digits.now }
    ensures capacity { vec_capacity bytes.old ≤ vec_capacity bytes.new }
{
    bytes.resize(digits.len() / 2, 0).unwrap();
    hex::decode_to_slice(digits, bytes.as_mut_slice())
}

/// The upper-case digits, indexed by their value.
const DIGITS: &[u8; 16] = b"0123456789ABCDEF";

/// Appends a byte in two upper-case digits.
fn push_byte(byte: u8, text: &mut LineText)
    requires { length text.old.items + 2 ≤ MAX_LINE }
    ensures digits { text.new.items ≡ text.old.items ++ encode_upper (byte ∷ []) }
    ensures room { length text.new.items ≡ length text.old.items + 2 }
{
    text.push(DIGITS[usize::from(byte / 16)]);
    text.push(DIGITS[usize::from(byte % 16)]);
}

/// Appends a packet in upper-case digits.
fn push_digits(packet: &[u8], text: &mut LineText)
    requires { length text.old.items + 2 * length packet.now ≤ MAX_DIGITS }
    ensures digits { text.new.items ≡ text.old.items ++ encode_upper packet.now }
    ensures room { length text.new.items ≡ length text.old.items + 2 * length packet.now }
{
    for byte in packet {
        push_byte(*byte, text);
    }
}

/// Writes the output line of a reply: the packet in digits, or the cause why there is none.
fn write_line(reply: Result<(), LineDropCause>, packet: &RawPacket, text: &mut LineText)
    ensures text { text.new.items ≡ line_text_of (result_map_both (λ _. packet.now.items) (λ e. e) reply) }
    ensures short { length text.new.items ≤ MAX_LINE }
{
    text.clear();
    match reply {
        Ok(()) => push_digits(packet.as_slice(), text),
        Err(cause) => {
            let _ = text.try_extend_from_slice(DROP);
            let _ = text.try_extend_from_slice(cause.name().as_bytes());
        }
    }
    text.push(b'\n');
}

/// Answers one line of digits. The output line replaces the content of `text`; `bytes` is a buffer
/// that is reused for each line.
#[tactic(auto, unfolding(crate::specs::Answers::text_for_line, crate::specs::Answers::tid_after_line))]
pub fn answer_line(
    responder: &mut Responder,
    digits: &[u8],
    bytes: &mut Vec<u8>,
    text: &mut LineText,
)
    requires room { length digits.now ≤ 2 * vec_capacity bytes.old }
    ensures text { text.new.items ≡ text_for_line responder.old.endpoint responder.old.tid digits.now }
    ensures short { length text.new.items ≤ MAX_LINE }
    ensures after { responder.new ≡ record responder.old {
      tid = tid_after_line responder.old.endpoint responder.old.tid digits.now;
    } }
    ensures capacity { vec_capacity bytes.old ≤ vec_capacity bytes.new }
{
    let mut packet = RawPacket::new();
    let reply = match decode_digits(digits, bytes) {
        Ok(()) => responder.answer(bytes.as_slice(), &mut packet),
        Err(_) => Err(LineDropCause::Hex),
    };
    write_line(reply, &packet, text);
}
