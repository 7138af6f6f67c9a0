//! Messages that are split into packets.

use mctp_reasm::{Message, piece_at, split};
use mctp_wire::{RawPacket, Unit};

/// Whether these are the packets that are split off one by one, by their numbers.
fn are_pieces(unit: Unit, message: &Message, packets: &[RawPacket]) -> bool {
    for number in 0..=4 {
        match (
            piece_at(unit, message, number),
            packets.get(usize::from(number)),
        ) {
            (Some(piece), Some(packet)) if piece.as_slice() == packet.as_slice() => {}
            (None, None) => {}
            _ => return false,
        }
    }
    true
}

/// Whether a message of `size` bytes is split into packets with these fourth bytes, and `last`
/// bytes in the last.
fn is_cut(unit: Unit, size: usize, flags: &[u8], last: usize) -> bool {
    let bytes = [0xA5; 512];
    let bytes = bytes.get(..size).unwrap_or(&[]);
    let Ok(message) = Message::new(unit, 9, 8, true, 3, bytes) else {
        return false;
    };
    let packets = split(unit, &message);
    let mut end = 0;
    for (packet, flag) in packets.as_slice().iter().zip(flags) {
        let [1, 9, 8, found, body @ ..] = packet.as_slice() else {
            return false;
        };
        if *found != *flag {
            return false;
        }
        end = body.len();
    }
    packets.len() == flags.len() && end == last && are_pieces(unit, &message, packets.as_slice())
}

/// The unit, the size of a message, the fourth bytes of its packets, and the number of bytes in the
/// last one.
static ROWS: [(Unit, usize, &[u8], usize); 9] = [
    (Unit::U64, 1, &[0xCB], 1),
    (Unit::U64, 64, &[0xCB], 64),
    (Unit::U64, 65, &[0x8B, 0x5B], 1),
    (Unit::U64, 128, &[0x8B, 0x5B], 64),
    (Unit::U64, 256, &[0x8B, 0x1B, 0x2B, 0x7B], 64),
    (Unit::U128, 1, &[0xCB], 1),
    (Unit::U128, 128, &[0xCB], 128),
    (Unit::U128, 129, &[0x8B, 0x5B], 1),
    (Unit::U128, 512, &[0x8B, 0x1B, 0x2B, 0x7B], 128),
];

#[test]
fn packets_carry_a_message_in_order(rt: HostRuntime) {
    for (unit, size, flags, last) in &ROWS {
        assert!(rt; is_cut(*unit, *size, flags, *last), "{size}");
    }
}
