//! Two worlds side by side that are the same between the agent and one device.

use crate::tests::clocks::missed_by;
use crate::tests::packages::{file, package};
use crate::tests::seeing::{is_updated, sent_alike, stands};
use crate::tests::setup::{DEVICE, Small, world};
use crate::tests::steps::perfect;
use fd_core::State;
use fw_package::Package;
use fw_world::{Step, replay_two};
use mctp_wire::Unit;
use std::alloc::{AllocError, Global};
use std::test::Fail;
use ua_core::{Cause, SessionState};

/// The device that receives no packet.
const SILENT: u8 = 10;

/// Appends a step of device 9, and the same step for the other devices; device 10 is only started.
fn put_for_all(steps: &mut Vec<Step>, step: &Step) -> Result<(), AllocError> {
    match step {
        Step::Start(_, package) => {
            steps.push(Step::Start(SILENT, *package))?;
            steps.push(Step::Start(11, *package))?;
        }
        Step::Deliver(_, number, 9) => steps.push(Step::Deliver(11, *number, 11))?,
        Step::Deliver(_, number, node) => steps.push(Step::Deliver(11, *number, *node))?,
        Step::Verdict(_, verdict) => steps.push(Step::Verdict(11, *verdict))?,
        Step::Activate(_) => steps.push(Step::Activate(11))?,
        _ => {}
    }
    Ok(())
}

/// The schedule of 19 ticks in which device 9 is updated over perfect links, and misses the 15th
/// tick. In the schedule for all devices, 11 is updated in the same way, and 10 receives nothing.
fn schedule(alloc: Global, all: bool) -> Result<Vec<Step>, AllocError> {
    let mut steps = Vec::new(alloc);
    for step in perfect(alloc)? {
        if all {
            put_for_all(&mut steps, &step)?;
        }
        steps.push(step)?;
    }
    for late in 0..7 {
        steps.push(Step::Tick(missed_by(match (late, all) {
            (2, true) => &[11, 9, 11],
            (2, false) => &[9],
            _ => &[],
        })))?;
    }
    Ok(steps)
}

/// Whether device 9 is updated after 27 packets and 19 ticks.
fn is_done(world: &Small<'_>) -> bool {
    world.now() == 19
        && is_updated(world, DEVICE)
        && stands(world, DEVICE, SessionState::Done, State::Idle, 27)
}

/// Whether device 9 is updated in both worlds in the same way, and the agent gave up the silent
/// device.
fn is_as_alone(among: &Small<'_>, alone: &Small<'_>) -> bool {
    let silent = SessionState::Failed(Cause::Silent);
    is_done(among)
        && is_done(alone)
        && sent_alike(among, alone, DEVICE)
        && stands(among, SILENT, silent, State::Idle, 3)
}

/// The schedule for all devices, and that for the device 9.
#[derive(Drop)]
struct Schedules {
    for_all: Vec<Step>,
    for_one: Vec<Step>,
}

/// Creates both schedules.
fn both_schedules(alloc: Global) -> Result<Schedules, AllocError> {
    let for_all = schedule(alloc, true)?;
    let for_one = schedule(alloc, false)?;
    Ok(Schedules { for_all, for_one })
}

/// `replay_two`, for the device 9; its contract isn't needed in the proofs of the tests. Returns
/// whether it takes all steps.
fn are_taken(among: &mut Small<'_>, alone: &mut Small<'_>, schedules: &Schedules) -> bool {
    let (first, second) = replay_two(among, &schedules.for_all, alone, &schedules.for_one, DEVICE);
    first.is_ok() && second.is_ok()
}

/// Whether both schedules are taken, and device 9 is updated among three devices as alone.
fn are_updated_alike(among: &mut Small<'_>, alone: &mut Small<'_>, schedules: &Schedules) -> bool {
    are_taken(among, alone, schedules) && is_as_alone(among, alone)
}

/// Whether this holds for new worlds.
fn is_updated_as_alone<'a>(
    alloc: Global,
    packages: &'a [Package<'a>],
    schedules: &Schedules,
) -> Result<bool, AllocError> {
    let mut among = world(alloc, Unit::U64, packages, 3, 1)?;
    let mut alone = world(alloc, Unit::U64, packages, 1, 1)?;
    Ok(are_updated_alike(&mut among, &mut alone, schedules))
}

/// Whether this holds with the worked package.
fn is_isolated(alloc: Global, schedules: &Schedules) -> bool {
    let Ok(bytes) = file(alloc) else {
        return false;
    };
    match package(&bytes) {
        Ok(package) => {
            is_updated_as_alone(alloc, std::slice::from_ref(&package), schedules) == Ok(true)
        }
        Err(_) => false,
    }
}

#[test]
fn beside_a_silent_device_another_is_updated_as_alone(rt: HostRuntime) -> Result<(), Fail> {
    let schedules = both_schedules(rt.alloc())?;
    assert!(rt; is_isolated(rt.alloc(), &schedules));
    Ok(())
}
