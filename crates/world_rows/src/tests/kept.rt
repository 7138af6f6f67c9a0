//! A late repeated request, which gets the kept answer.

use crate::tests::headers::TWO_COUNTED;
use crate::tests::packages::package;
use crate::tests::setup::{DEVICE, Small, step, world};
use fd_core::{State, Verdict};
use fw_world::{DatedPacket, Missed, Refusal, Step, StepFault};
use fwup_wire::Command;
use mctp_wire::Unit;
use std::alloc::{AllocError, Global};

/// The last bytes that the device requests: after 480 of 500, and at least 32.
const LAST: Command<'static> = Command::RequestFirmwareData {
    offset: 480,
    length: 32,
};

/// A bound above the number of packets in a turn of one device.
const MOST: usize = 64;

/// The position of a message's command in its first packet: after the packet's four bytes, the
/// message type, and two bytes of PLDM.
const COMMAND: usize = 7;

/// That request from its command on: RequestFirmwareData, the offset and the length (DSP0267).
const ASKED: &[u8] = &[0x15, 0xE0, 0x01, 0, 0, 0x20, 0, 0, 0];

/// The package of images of 32 and 500 bytes, whose byte i is i modulo 256.
fn file(alloc: Global) -> Result<Vec<u8>, AllocError> {
    let mut out = Vec::new(alloc);
    out.extend_from_slice(TWO_COUNTED)?;
    count_up(&mut out, 32)?;
    count_up(&mut out, 500)?;
    Ok(out)
}

/// Appends `size` bytes, byte i being i modulo 256.
fn count_up(out: &mut Vec<u8>, size: u32) -> Result<(), AllocError> {
    for place in 0..size {
        out.push((place % 256) as u8)?;
    }
    Ok(())
}

/// A packet of the device's pair, by its number.
fn packet_at<'a>(world: &'a Small<'_>, number: usize) -> Option<DatedPacket<'a>> {
    world.packets(DEVICE)?.get(number.checked_sub(1)?)
}

/// The destination of a packet of the device's pair, its second byte, if there is such a packet
/// (DSP0236).
fn receiver(world: &Small<'_>, number: usize) -> Option<u8> {
    packet_at(world, number)?.bytes.get(1).copied()
}

/// Passes a tick, delivers each undelivered packet, in ascending numbers, and then gives the
/// verdict that the device waits for, if any. Returns the number of packets delivered then.
fn turn(world: &mut Small<'_>, delivered: usize) -> Result<usize, StepFault> {
    let mut delivered = delivered;
    step(world, &Step::Tick(Missed::new()))?;
    for _ in 0..MOST {
        let Some(node) = receiver(world, delivered.saturating_add(1)) else {
            break;
        };
        delivered = delivered.saturating_add(1);
        step(world, &Step::Deliver(DEVICE, delivered, node))?;
    }
    for verdict in [Verdict::VerifyOk, Verdict::ApplyOk] {
        match step(world, &Step::Verdict(DEVICE, verdict)) {
            Ok(()) | Err(StepFault::Refused(Refusal::NotNow)) => {}
            Err(fault) => return Err(fault),
        }
    }
    Ok(delivered)
}

/// Whether a packet of the device's pair is its request for those bytes, sent at that tick.
fn asks_for_last(world: &Small<'_>, number: usize, date: u32) -> bool {
    let Some(packet) = packet_at(world, number) else {
        return false;
    };
    packet.date == date && packet.bytes.get(COMMAND..) == Some(ASKED)
}

/// Whether the device waits in DOWNLOAD for those bytes.
fn waits_for_last(world: &Small<'_>) -> bool {
    let Some(node) = world.device(DEVICE) else {
        return false;
    };
    node.device().state() == State::Download && node.device().wish() == Some(LAST)
}

/// Whether two packets of the device's pair are equal.
fn is_same(world: &Small<'_>, one: usize, other: usize) -> bool {
    match (packet_at(world, one), packet_at(world, other)) {
        (Some(one), Some(other)) => one.bytes == other.bytes,
        _ => false,
    }
}

/// Takes the worked turns of an update, and a tick more. Returns the number of packets delivered.
fn takes_turns(world: &mut Small<'_>) -> Result<usize, StepFault> {
    step(world, &Step::Start(DEVICE, 1))?;
    let mut delivered = 0;
    for _ in 0..14 {
        delivered = turn(world, delivered)?;
    }
    step(world, &Step::Tick(Missed::new()))?;
    Ok(delivered)
}

/// Whether the kept answer, packet 15, is sent again as packet 37 for packet 14.
fn answers_again(world: &mut Small<'_>) -> bool {
    step(world, &Step::Deliver(DEVICE, 14, DEVICE)).is_ok()
        && packet_at(world, 37).is_some()
        && packet_at(world, 38).is_none()
        && is_same(world, 37, 15)
        && waits_for_last(world)
}

/// Whether packet 14 is dead one tick later.
fn is_dead_later(world: &mut Small<'_>) -> bool {
    step(world, &Step::Tick(Missed::new())).is_ok()
        && step(world, &Step::Deliver(DEVICE, 14, DEVICE)) == Err(StepFault::Dead)
}

/// UpdateComponent of the first component, packet 14, arrives again while the second is loaded: its
/// answer, packet 15, is sent again.
fn keeps_answer(world: &mut Small<'_>) -> bool {
    takes_turns(world).is_ok()
        && world.now() == 15
        && asks_for_last(world, 36, 15)
        && waits_for_last(world)
        && answers_again(world)
        && is_dead_later(world)
}

/// Whether this holds for a world with that package.
fn is_kept(alloc: Global) -> bool {
    let Ok(bytes) = file(alloc) else {
        return false;
    };
    let Ok(package) = package(&bytes) else {
        return false;
    };
    match world(alloc, Unit::U64, std::slice::from_ref(&package), 1, 2) {
        Ok(mut world) => keeps_answer(&mut world),
        Err(_) => false,
    }
}

#[test]
fn a_late_request_meets_its_kept_answer(rt: HostRuntime) {
    assert!(rt; is_kept(rt.alloc()));
}
