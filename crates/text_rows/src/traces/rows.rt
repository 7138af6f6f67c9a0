//! Packets between the agent 8 and the device 9, and their expected lines.

use super::{answers, bases, commands, packets, update};
use fw_trace::{PacketReader, Sent, push_lines, push_message};
use mctp_wire::Unit;
use std::alloc::Global;

/// The parts of a row: the tick of sending, the packet in digits, and its expected line, without
/// its line feed. A row is the digits, a bar and the line, which begins with the tick.
pub fn parts(row: &str) -> Option<(u32, &str, &str)> {
    let (digits, line) = row.split_once('|')?;
    let (turn, _) = line.split_once(' ')?;
    Some((turn.parse().ok()?, digits, line))
}

/// Whether the next packet, sent at a tick, gets its line.
fn gets_line(
    alloc: Global,
    reader: &mut PacketReader,
    number: usize,
    row: (u32, &str, &str),
) -> bool {
    let (turn, digits, wanted) = row;
    let Ok(bytes) = hex::decode(alloc, digits) else {
        return false;
    };
    let mut text = Vec::new(alloc);
    let told = reader.push_line(alloc, &mut text, turn, number, bytes.as_slice());
    match text.as_slice() {
        [line @ .., b'\n'] => told.is_ok() && line == wanted.as_bytes(),
        _ => false,
    }
}

/// The number of the first of `count` packets that doesn't get its line, or 0 if each does; their
/// number and 1 if there aren't `count`.
fn first_wrong(alloc: Global, unit: Unit, rows: &str, count: usize) -> usize {
    let mut reader = PacketReader::new(unit, 8, 9);
    let mut number = 0usize;
    for row in rows.lines() {
        number = number.saturating_add(1);
        let is_told = match parts(row) {
            Some(row) => gets_line(alloc, &mut reader, number, row),
            None => false,
        };
        if !is_told {
            return number;
        }
    }
    if number == count {
        0
    } else {
        number.saturating_add(1)
    }
}

#[test]
fn tells_requests_and_answers(rt: HostRuntime) {
    assert!(rt; first_wrong(rt.alloc(), Unit::U64, update::UPDATE, 27) == 0);
    assert!(rt; first_wrong(rt.alloc(), Unit::U64, commands::COMMANDS, 25) == 0);
    assert!(rt; first_wrong(rt.alloc(), Unit::U64, answers::ANSWERS, 23) == 0);
    assert!(rt; first_wrong(rt.alloc(), Unit::U64, answers::CODES, 18) == 0);
    assert!(rt; first_wrong(rt.alloc(), Unit::U64, answers::PARAMETERS, 2) == 0);
}

#[test]
fn tells_base_commands_control_messages_and_parts(rt: HostRuntime) {
    assert!(rt; first_wrong(rt.alloc(), Unit::U64, bases::BASE, 21) == 0);
    assert!(rt; first_wrong(rt.alloc(), Unit::U64, bases::CONTROL, 33) == 0);
    assert!(rt; first_wrong(rt.alloc(), Unit::U64, packets::PACKETS, 25) == 0);
    assert!(rt; first_wrong(rt.alloc(), Unit::U128, packets::WIDE, 3) == 0);
}

/// Two packets, one in each direction.
pub static BOTH_WAYS: [Sent<'static>; 2] = [
    Sent {
        turn: 4,
        bytes: &[1, 9, 8, 0xC8, 0x7E],
    },
    Sent {
        turn: 6,
        bytes: &[1, 8, 9, 0xC8, 0x7E, 0x01],
    },
];

/// Their lines.
pub const BOTH_LINES: &[u8] = b"4 9 1 8 > 9 tag 0 type 7E\n6 9 2 9 > 8 tag 0 type 7E 01\n";

/// Whether the list gets its lines, and leaves the reader's unit and ends.
fn tells_list(alloc: Global, reader: &mut PacketReader) -> bool {
    let mut text = Vec::new(alloc);
    let told = push_lines(alloc, &mut text, reader, &BOTH_WAYS);
    told.is_ok()
        && text.as_slice() == BOTH_LINES
        && reader.unit() == Unit::U64
        && (reader.agent(), reader.device()) == (8, 9)
}

#[test]
fn tells_a_list_of_packets(rt: HostRuntime) {
    assert!(rt; tells_list(rt.alloc(), &mut PacketReader::new(Unit::U64, 8, 9)));
}

/// Whether a message gets its text.
fn tells_message(alloc: Global) -> bool {
    let mut text = Vec::new(alloc);
    push_message(alloc, &mut text, &[0, 0x83, 2]).is_ok()
        && text.as_slice() == b"control rq 3 GetEndpointID".as_slice()
}

#[test]
fn tells_a_message(rt: HostRuntime) {
    assert!(rt; tells_message(rt.alloc()));
}
