//! Runs at each transmission unit.

use crate::tests::setup::{
    DEVICE, Small, driven_over, is_updated, runs_first, stands, start, tells,
};
use fd_core::State;
use fw_edge::{Driven, MemLink};
use fw_world::SentPackets;
use mctp_wire::Unit;
use std::alloc::Global;
use ua_core::SessionState;

/// The worked update over a perfect link: the numbers of turns and packets after which it is done,
/// and the offsets and lengths of the pieces that the device requests.
#[derive(Clone, Copy)]
pub struct Row {
    pub unit: Unit,
    turns: u32,
    sent: usize,
    pieces: &'static [(u32, u32)],
}

/// A piece of the image of 241 bytes has at most 16 bytes less than four packets carry, and at
/// least 32.
pub const AT_64: Row = Row {
    unit: Unit::U64,
    turns: 12,
    sent: 27,
    pieces: &[(0, 240), (240, 32)],
};

pub const AT_128: Row = Row {
    unit: Unit::U128,
    turns: 11,
    sent: 23,
    pieces: &[(0, 241)],
};

/// The offset and the length in a packet with RequestFirmwareData from the worked device.
fn piece_in(packet: &[u8]) -> Option<(u32, u32)> {
    let (head, fields) = packet.split_at_checked(8)?;
    match head {
        [_, 8, DEVICE, _, 1, 0x80..=0x9F, 5, 0x15] => numbers(fields),
        _ => None,
    }
}

/// Two numbers of four bytes.
fn numbers(fields: &[u8]) -> Option<(u32, u32)> {
    match fields {
        [a, b, c, d, e, f, g, h] => Some((
            u32::from_le_bytes([*a, *b, *c, *d]),
            u32::from_le_bytes([*e, *f, *g, *h]),
        )),
        _ => None,
    }
}

/// Whether the packets request these pieces, each once, and no others.
fn ask_for(packets: &SentPackets<'_>, pieces: &[(u32, u32)]) -> bool {
    let mut asked: usize = 0;
    for place in 0..packets.len() {
        let Some(packet) = packets.get(place) else {
            return false;
        };
        if let Some(piece) = piece_in(packet.bytes) {
            if pieces.get(asked) != Some(&piece) {
                return false;
            }
            asked = asked.saturating_add(1);
        }
    }
    asked == pieces.len()
}

/// Whether the worked device is updated with such packets.
fn is_updated_so(world: &Small<'_>, row: &Row) -> bool {
    let asked = match world.packets(DEVICE) {
        Some(packets) => ask_for(&packets, row.pieces),
        None => false,
    };
    asked
        && tells(world, b"ARV")
        && is_updated(world, DEVICE)
        && stands(world, DEVICE, SessionState::Done, State::Activate, row.sent)
}

/// Returns whether the worked update is as the case expects.
pub fn goes_so(alloc: Global, world: &mut Small<'_>, row: &Row) -> bool {
    let (turns, foreign) = (row.turns, 0);
    runs_first(world, DEVICE)
        && start(world, DEVICE)
        && driven_over(alloc, world, &mut [MemLink::new(alloc)], 100)
            == Some(Driven { turns, foreign })
        && is_updated_so(world, row)
}
