//! A run between whose turns the operator acts, over a link that delivers a packet late.

use crate::tests::links::{BadLink, Trouble};
use crate::tests::setup::{DEVICE, Small, driven, runs_first, stands, start, step, tells};
use fd_core::State;
use fw_edge::Driven;
use fw_world::{Missed, Step};
use std::alloc::Global;
use ua_core::SessionState;

/// Drives the worked device's world over its link for `turns` turns. Returns whether it took them
/// all.
fn goes(alloc: Global, world: &mut Small<'_>, links: &mut [BadLink], turns: u32) -> bool {
    let mut steps = Vec::new(alloc);
    driven(world, links, turns, &mut steps) == Ok(Driven { turns, foreign: 0 })
}

/// The tick at which packet `number` was sent, and, if it is an answer, its command and code.
fn answered(world: &Small<'_>, number: usize) -> Option<(u32, u8, u8)> {
    let packet = world.packets(DEVICE)?.get(number.checked_sub(1)?)?;
    match packet.bytes {
        [_, _, _, _, _, _, _, command, code, ..] => Some((packet.date, *command, *code)),
        _ => None,
    }
}

/// The answers from the cancelled update's last one on, by number: the tick, the command and the
/// code. The stale completion isn't expected. GetFirmwareParameters waits for tag 0, RequestUpdate
/// until the device's last tag has rested, and at 47 to 51 for its own.
static ANSWERS: [(usize, u32, u8, u8); 7] = [
    (29, 13, 0x18, 0x88),
    (31, 41, 0x02, 0),
    (35, 43, 0x10, 4),
    (37, 44, 0x10, 4),
    (39, 45, 0x10, 4),
    (41, 46, 0x10, 4),
    (43, 52, 0x10, 0),
];

/// Cancels while ApplyComplete, sent at 11, is on the way. Returns whether the session has ended at
/// 12.
fn is_cancelled(alloc: Global, world: &mut Small<'_>, links: &mut [BadLink]) -> bool {
    goes(alloc, world, links, 11)
        && stands(world, DEVICE, SessionState::Apply, State::Apply, 24)
        && step(world, &Step::Cancel(DEVICE)).is_ok()
        && goes(alloc, world, links, 1)
        && stands(world, DEVICE, SessionState::Idle, State::Idle, 26)
}

/// ApplyComplete, packet 24, arrives at 13, after packet 27, when the operator has started the
/// update again. Returns whether the answers are those.
pub fn cancels(alloc: Global, world: &mut Small<'_>) -> bool {
    let mut links = [BadLink::new(alloc, Trouble::Delays(24, 27))];
    start(world, DEVICE)
        && is_cancelled(alloc, world, &mut links)
        && start(world, DEVICE)
        && goes(alloc, world, &mut links, 40)
        && is_answered(world)
}

/// Whether the device has given these answers, has applied an image, and its active image is the
/// first one.
fn is_answered(world: &Small<'_>) -> bool {
    for (number, date, command, code) in &ANSWERS {
        if answered(world, *number) != Some((*date, *command, *code)) {
            return false;
        }
    }
    stands(world, DEVICE, SessionState::Pass, State::Learn, 43)
        && tells(world, b"A")
        && runs_first(world, DEVICE)
}

/// The tick at which packet `number` was sent, and its command.
fn commanded(world: &Small<'_>, number: usize) -> Option<(u32, u8)> {
    let packet = world.packets(DEVICE)?.get(number.checked_sub(1)?)?;
    Some((packet.date, *packet.bytes.get(7)?))
}

/// The agent's requests after a cancel, if ApplyComplete is never delivered: the packet's number,
/// the tick, the command, and the completion code of the answer, which is the next packet.
/// GetFirmwareParameters waits for tag 0. RequestUpdate is refused until the tag of ApplyComplete
/// has rested, and from 47 on it waits for its own tag.
static REQUESTS: [(usize, u32, u8, u8); 6] = [
    (29, 41, 0x02, 0),
    (33, 43, 0x10, 4),
    (35, 44, 0x10, 4),
    (37, 45, 0x10, 4),
    (39, 46, 0x10, 4),
    (41, 52, 0x10, 0),
];

/// Whether the requests and their answers are these, and the device has applied an image, and its
/// active image is the first one.
fn is_requested(world: &Small<'_>) -> bool {
    for (number, date, command, code) in &REQUESTS {
        if commanded(world, *number) != Some((*date, *command))
            || answered(world, number.saturating_add(1)) != Some((*date, *command, *code))
        {
            return false;
        }
    }
    stands(world, DEVICE, SessionState::Pass, State::Learn, 42)
        && tells(world, b"A")
        && runs_first(world, DEVICE)
}

/// Cancels after a tick in which ApplyComplete, packet 24, is sent. It is never delivered: a link
/// carries only the packets that are sent after `drive` begins. Returns whether the session has
/// ended at 12.
fn is_cancelled_undelivered(alloc: Global, world: &mut Small<'_>, links: &mut [BadLink]) -> bool {
    goes(alloc, world, links, 10)
        && step(world, &Step::Tick(Missed::new())).is_ok()
        && commanded(world, 24) == Some((11, 0x18))
        && stands(world, DEVICE, SessionState::Apply, State::Apply, 24)
        && step(world, &Step::Cancel(DEVICE)).is_ok()
        && goes(alloc, world, links, 1)
        && stands(world, DEVICE, SessionState::Idle, State::Idle, 26)
}

/// Returns whether the next update makes those requests after a cancel, if ApplyComplete is never
/// delivered.
pub fn cancels_undelivered(alloc: Global, world: &mut Small<'_>) -> bool {
    let mut links = [BadLink::new(alloc, Trouble::Loses(0))];
    start(world, DEVICE)
        && is_cancelled_undelivered(alloc, world, &mut links)
        && start(world, DEVICE)
        && goes(alloc, world, &mut links, 40)
        && is_requested(world)
}
