//! Steps that are refused.

use crate::messages::seeing::look_at;
use crate::messages::setup::{NOBODY, Small, opening};
use crate::messages::steps::{
    ASK_DOWN, CANCEL, LEARN_DOWN, RESTART_AGENT, START, TAKE_DOWN, led, replay, takes,
};
use fd_core::Verdict;
use fw_message::{MessageStep, MessageStepFault, Side, Way};
use fw_package::Package;
use std::alloc::Global;

/// Whether a replay stops at step `number` for this cause.
fn stops(
    world: &mut Small<'_>,
    steps: &[MessageStep],
    number: usize,
    fault: MessageStepFault,
) -> bool {
    match replay(world, steps) {
        Err((i, cause)) => i == number && cause == fault,
        Ok(()) => false,
    }
}

/// Whether a replay stops at this step for this cause, and leaves the world unchanged.
fn is_left(world: &mut Small<'_>, step: MessageStep, fault: MessageStepFault) -> bool {
    let before = look_at(world);
    stops(world, &[step, CANCEL, START], 0, fault) && look_at(world) == before
}

/// Returns whether this holds for the world after the first worked steps, and then others.
pub fn is_refused<'a>(
    alloc: Global,
    packages: &'a [Package<'a>],
    before: (usize, &[MessageStep]),
    step: MessageStep,
    fault: MessageStepFault,
) -> bool {
    match led(alloc, packages, before.0, before.1) {
        Ok(mut world) => is_left(&mut world, step, fault),
        Err(_) => false,
    }
}

/// Steps of each kind of a device, and one of an unknown node.
fn of_device(eid: u8) -> [MessageStep; 19] {
    [
        MessageStep::Ask(eid, Way::Down),
        MessageStep::Ask(eid, Way::Up),
        MessageStep::Take(eid, Way::Down, true),
        MessageStep::Take(eid, Way::Down, false),
        MessageStep::Take(eid, Way::Up, true),
        MessageStep::Learn(eid, Way::Down),
        MessageStep::Learn(eid, Way::Up),
        MessageStep::GiveUp(eid, Way::Down),
        MessageStep::GiveUp(eid, Way::Up),
        MessageStep::Drop(eid, Way::Down),
        MessageStep::Drop(eid, Way::Up),
        MessageStep::Start(eid, 0),
        MessageStep::Start(eid, 1),
        MessageStep::Cancel(eid),
        MessageStep::Activate(eid),
        MessageStep::Verdict(eid, Verdict::ApplyOk),
        MessageStep::TimeOut(eid, Side::Agent),
        MessageStep::TimeOut(eid, Side::Device),
        MessageStep::Restart(NOBODY),
    ]
}

/// Returns whether all steps of a device with this identifier are refused after the first worked
/// steps.
pub fn is_no_device<'a>(alloc: Global, packages: &'a [Package<'a>], count: usize, eid: u8) -> bool {
    let fault = MessageStepFault::NoSuchNode;
    for step in of_device(eid) {
        if !is_refused(alloc, packages, (count, &[]), step, fault) {
            return false;
        }
    }
    true
}

/// Whether a replay stops at the first step of no node.
fn stops_at_nobody(world: &mut Small<'_>) -> bool {
    let steps = [RESTART_AGENT, START, START];
    stops(world, &steps, 1, MessageStepFault::NoSuchNode)
}

/// Whether a replay stops at the first step that is refused, and the world continues from there.
fn stops_at_start(world: &mut Small<'_>) -> bool {
    let steps = [CANCEL, START, ASK_DOWN, START, CANCEL];
    stops(world, &steps, 3, MessageStepFault::Refused) && takes(world, &[TAKE_DOWN, LEARN_DOWN])
}

/// Returns whether replays stop there.
pub fn stop_there<'a>(alloc: Global, packages: &'a [Package<'a>]) -> bool {
    match led(alloc, packages, 0, &[]) {
        Ok(mut world) => {
            stops_at_nobody(&mut opening(alloc, packages)) && stops_at_start(&mut world)
        }
        Err(_) => false,
    }
}
