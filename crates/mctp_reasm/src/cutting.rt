//! Cuts messages into packets.

ghost use Rattle.std.specs.Prelude.{◌≡◌, ◌<◌, ◌≤◌, length, map, option_map, slice_get};
ghost use Rattle.mctp_reasm.specs.Pieces.{message_route, pieces, piece, spelling_of};

use crate::messages::Message;
use arrayvec::ArrayVec;
use mctp_wire::{Head, MAX_BODY, MAX_PACKETS, RawPacket, Unit};

/// Returns the packet of one piece of a message.
fn piece_of(message: &Message, number: u8, last: bool, body: &[u8]) -> RawPacket
    requires number { number < MAX_PACKETS }
    requires body { (1 ≤ length body.now) × (length body.now ≤ MAX_BODY) }
    ensures { result.items ≡ spelling_of (piece (message_route message.now) number last body.now) }
{
    let head = Head {
        dest: message.dest,
        source: message.source,
        som: number == 0,
        eom: last,
        seq: number,
        to: message.to,
        tag: message.tag,
    };
    let mut packet = RawPacket::new();
    mctp_wire::encode(&head, body, &mut packet);
    packet
}

/// Returns the packet of piece `number` of a message, counted from 0, as `split` cuts it; `None` if
/// the message has no such piece.
#[tactic(auto, using(crate::proofs::Cuts::cuts))]
pub fn piece_at(unit: Unit, message: &Message, number: u8) -> Option<RawPacket>
    ensures { option_map (λ p. p.items) result ≡ slice_get (map spelling_of (pieces unit message.now)) number }
{
    let size = unit.bytes();
    let bytes = message.bytes();
    let start = usize::from(number) * size;
    if usize::from(number) >= MAX_PACKETS {
        return None;
    }
    if start >= bytes.len() {
        return None;
    }
    let (_, rest) = bytes.split_at(start);
    if rest.len() <= size {
        return Some(piece_of(message, number, true, rest));
    }
    let (body, _) = rest.split_at(size);
    Some(piece_of(message, number, false, body))
}

/// Cuts a message into its packets, at most four (DSP0236, section 8): its bytes cut at each
/// transmission unit, SOM on the first and EOM on the last, numbered from 0.
pub fn split(unit: Unit, message: &Message) -> ArrayVec<RawPacket, MAX_PACKETS>
    ensures { map (λ p. p.items) result.items ≡ map spelling_of (pieces unit message.now) }
{
    let size = unit.bytes();
    let mut out = ArrayVec::new();
    let mut rest = message.bytes.as_slice();
    for number in 0..MAX_PACKETS as u8 {
        if rest.len() <= size {
            out.push(piece_of(message, number, true, rest));
            return out;
        }
        let (body, more) = rest.split_at(size);
        out.push(piece_of(message, number, false, body));
        rest = more;
    }
    out
}
