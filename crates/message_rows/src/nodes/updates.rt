//! Updates by an agent and a device, with a fault in one of their packets, or a restart between
//! them.

use crate::nodes::bench::{Bench, Fault};
use crate::packages::{LONG, ONE, TWICE, file, file_of, package};
use crate::worked::{AGENT, DEVICE};
use fd_core::State;
use mctp_wire::{RawPacket, Unit};
use std::alloc::{AllocError, Global};
use std::test::Fail;
use ua_core::{Cause, SessionState};

/// An update that fails: the package's header; the command, the position and the byte of the fault
/// in its packets; the cause; and the turn in which the update ends.
type Row = (&'static [u8], (u8, usize, u8), Cause, u8);

const FAILURES: [Row; 8] = [
    (TWICE, (0xFF, 0, 0), Cause::Plan, 1),
    (ONE, (0x01, 19, 0x13), Cause::NoRecord, 1),
    (ONE, (0x02, 8, 1), Cause::Answer, 2),
    (ONE, (0x13, 10, 6), Cause::NothingToUpdate, 5),
    (ONE, (0x14, 9, 1), Cause::Refused, 6),
    (ONE, (0x16, 8, 0x70), Cause::Transfer, 9),
    (ONE, (0x17, 8, 0x90), Cause::Verify, 10),
    (ONE, (0x18, 8, 0xB0), Cause::Apply, 11),
];

/// Whether an update fails as its case expects, which is noted.
fn fails(alloc: Global, row: Row) -> Result<bool, Fail> {
    let (header, (command, place, value), cause, at) = row;
    let bytes = file(alloc, header)?;
    let packages = [package(&bytes)?];
    let mut bench = Bench::new(alloc, Unit::U64, &packages)?;
    bench.fault = Some(Fault {
        command,
        place,
        value,
    });
    let started = bench.start();
    bench.turns(13)?;
    let failed = bench.session() == SessionState::Failed(cause);
    Ok(started && failed && bench.noted_failure(at, cause.number()))
}

#[test]
fn each_failure_is_noted_with_its_cause(rt: HostRuntime) -> Result<(), Fail> {
    for row in FAILURES {
        assert!(rt; fails(rt.alloc(), row)?, "turn {}", row.3);
    }
    Ok(())
}

/// GetStatus to the device.
const GET_STATUS: &[u8] = &[0x01, 9, 8, 0xC8, 0x01, 0x80, 0x05, 0x1B];

/// Its answer from an idle device that restarted.
const IDLE: &[u8] = &[
    0x01, 8, 9, 0xC0, 0x01, 0, 0x05, 0x1B, 0, 0, 0, 3, 0, 0x65, 0, 0, 0, 0, 0,
];

/// Restarts the device, and returns whether it doesn't answer GetStatus 39 ticks later, and answers
/// it one tick after that as an idle device.
fn is_deaf(bench: &mut Bench<'_>) -> Result<bool, AllocError> {
    bench.device.restart();
    bench.ticks(39)?;
    let unheard = bench.answers(GET_STATUS, &[])?;
    bench.ticks(1)?;
    let heard = bench.answers(GET_STATUS, IDLE)?;
    Ok(unheard && heard)
}

/// Whether this holds for a device that loads an image, after 7 turns, and whether its first image
/// is then active.
fn restarts(bench: &mut Bench<'_>) -> Result<bool, AllocError> {
    let started = bench.start();
    bench.turns(7)?;
    let loads = bench.state() == State::Download;
    let deaf = is_deaf(bench)?;
    Ok(started && loads && deaf && bench.runs_first())
}

#[test]
fn a_restarted_device_is_deaf_for_40_ticks(rt: HostRuntime) -> Result<(), Fail> {
    let bytes = file(rt.alloc(), ONE)?;
    let packages = [package(&bytes)?];
    let mut bench = Bench::new(rt.alloc(), Unit::U64, &packages)?;
    assert!(rt; restarts(&mut bench)?);
    Ok(())
}

/// An update with an image of 497 bytes: the transmission unit; the transfer size that the agent
/// sends; the offsets and lengths of the pieces that the device requests; the size of the longest
/// packet, and the numbers of packets and turns.
#[derive(Clone, Copy)]
struct Pieces {
    unit: Unit,
    transfer_size: u32,
    asked: &'static [(u32, u32)],
    longest: usize,
    packets: usize,
    turns: usize,
}

/// A piece has at most 16 bytes less than four packets carry, and at least 32; a packet has 4 bytes
/// before those that it carries.
const AT_64: Pieces = Pieces {
    unit: Unit::U64,
    transfer_size: 240,
    asked: &[(0, 240), (240, 240), (480, 32)],
    longest: 68,
    packets: 32,
    turns: 13,
};

const AT_128: Pieces = Pieces {
    unit: Unit::U128,
    transfer_size: 496,
    asked: &[(0, 496), (496, 32)],
    longest: 132,
    packets: 27,
    turns: 12,
};

/// The transfer size in a packet with RequestUpdate.
fn transfer_size_in(packet: &[u8]) -> Option<u32> {
    match packet {
        [_, DEVICE, _, _, 1, 0x80..=0x9F, 5, 0x10, a, b, c, d, ..] => {
            Some(u32::from_le_bytes([*a, *b, *c, *d]))
        }
        _ => None,
    }
}

/// The offset and the length in a packet with RequestFirmwareData.
fn piece_in(packet: &[u8]) -> Option<(u32, u32)> {
    match packet {
        [
            _,
            AGENT,
            _,
            _,
            1,
            0x80..=0x9F,
            5,
            0x15,
            a,
            b,
            c,
            d,
            e,
            f,
            g,
            h,
        ] => Some((
            u32::from_le_bytes([*a, *b, *c, *d]),
            u32::from_le_bytes([*e, *f, *g, *h]),
        )),
        _ => None,
    }
}

/// Whether one of the packets has that transfer size, they request those pieces, and the longest
/// has that size.
fn are_as(packets: &[RawPacket], row: &Pieces) -> bool {
    let mut named: usize = 0;
    let mut asked: usize = 0;
    let mut longest: usize = 0;
    for packet in packets {
        if let Some(size) = transfer_size_in(packet.as_slice()) {
            if size != row.transfer_size {
                return false;
            }
            named = named.saturating_add(1);
        }
        if let Some(piece) = piece_in(packet.as_slice()) {
            if row.asked.get(asked) != Some(&piece) {
                return false;
            }
            asked = asked.saturating_add(1);
        }
        longest = longest.max(packet.len());
    }
    (named, asked) == (1, row.asked.len()) && longest == row.longest && packets.len() == row.packets
}

/// Whether the update succeeds in its last turn, with those packets.
fn goes_by_pieces(alloc: Global, row: &Pieces) -> Result<bool, Fail> {
    let bytes = file_of(alloc, LONG, 497)?;
    let packages = [package(&bytes)?];
    let mut bench = Bench::new(alloc, row.unit, &packages)?;
    let started = bench.start();
    bench.turns(row.turns.saturating_sub(1))?;
    let early = bench.is_updated(497);
    bench.turns(1)?;
    Ok(started && !early && bench.is_updated(497) && are_as(&bench.packets, row))
}

#[test]
fn an_image_comes_in_pieces_of_the_unit(rt: HostRuntime) -> Result<(), Fail> {
    for row in [AT_64, AT_128] {
        assert!(rt; goes_by_pieces(rt.alloc(), &row)?, "{}", row.transfer_size);
    }
    Ok(())
}
