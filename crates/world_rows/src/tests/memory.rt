//! The worked update, without refused memory or with one refused allocation.

use crate::tests::packages::{file, is_image, package};
use crate::tests::seeing::{is_updated, stands};
use crate::tests::setup::{DEVICE, KEY, Small, step, world};
use crate::tests::steps::perfect;
use fd_core::{Bank, State};
use fw_package::Package;
use fw_world::{HistoryEvent, Image, Step, StepFault};
use mctp_wire::Unit;
use std::alloc::{AllocError, Global};
use std::borrow::CowSlice;
use std::test::Fail;
use ua_core::{Cause, SessionState};

/// The time, and the numbers of packets and of history entries.
fn seen(world: &Small<'_>) -> (u32, usize, usize) {
    let packets = match world.packets(DEVICE) {
        Some(packets) => packets.len(),
        None => 0,
    };
    (world.now(), packets, world.history().len())
}

/// Takes the steps, each again if memory is refused, up to the first that isn't allowed. Returns
/// whether a refused step leaves the world unchanged, and is taken at the second try.
fn takes(world: &mut Small<'_>, steps: &[Step]) -> bool {
    for next in steps {
        let before = seen(world);
        match step(world, next) {
            Ok(()) => {}
            Err(StepFault::Memory) => {
                if seen(world) != before || step(world, next).is_err() {
                    return false;
                }
            }
            Err(_) => return true,
        }
    }
    true
}

/// Whether this is the worked image, borrowed from its package.
fn is_worked(image: &Image<'_>) -> bool {
    image.key == KEY
        && is_image(image.bytes.as_slice())
        && matches!(image.bytes, CowSlice::Borrowed(_))
}

/// Whether the device applied the image, the agent recorded the first component of the first
/// package, and the device activated the image.
fn told(world: &Small<'_>) -> bool {
    let [applied, recorded, activated] = world.history() else {
        return false;
    };
    let (HistoryEvent::Applied(a), HistoryEvent::Recorded(r), HistoryEvent::Activated(b)) = (
        &applied.event,
        &recorded.event,
        &activated.event,
    ) else {
        return false;
    };
    let devices = [applied.device, recorded.device, activated.device];
    devices == [DEVICE, DEVICE, DEVICE]
        && is_worked(a)
        && is_worked(b)
        && (r.package, r.component) == (1, 0)
}

/// Returns whether the image is active after 12 ticks and 27 packets, of which those of the first 3
/// ticks are dead, and all is recorded.
pub fn is_done(world: &Small<'_>) -> bool {
    world.now() == 12
        && stands(world, DEVICE, SessionState::Done, State::Activate, 27)
        && is_updated(world, DEVICE)
        && world.agent().log().len() == 3
        && told(world)
        && (world.dead_packets(DEVICE), world.dead_packets(10)) == (6, 0)
}

/// Whether the device's bank failed once, and the session failed for that.
fn is_failed(world: &Small<'_>) -> bool {
    let (Some(node), Some(session)) = (world.device(DEVICE), world.agent().session(DEVICE)) else {
        return false;
    };
    node.device().bank().failures() == 1 && session.state() == SessionState::Failed(Cause::Answer)
}

/// Creates the worked world, at the second try if memory is refused.
pub fn asked_twice<'a>(
    alloc: Global,
    packages: &'a [Package<'a>],
) -> Result<Small<'a>, AllocError> {
    match world(alloc, Unit::U64, packages, 1, 1) {
        Ok(made) => Ok(made),
        Err(_) => world(alloc, Unit::U64, packages, 1, 1),
    }
}

/// The worked file, at the second try if memory is refused.
pub fn file_twice(alloc: Global) -> Result<Vec<u8>, AllocError> {
    match file(alloc) {
        Ok(bytes) => Ok(bytes),
        Err(_) => file(alloc),
    }
}

/// The schedule of the worked update, at the second try if memory is refused.
pub fn perfect_twice(alloc: Global) -> Result<Vec<Step>, AllocError> {
    match perfect(alloc) {
        Ok(steps) => Ok(steps),
        Err(_) => perfect(alloc),
    }
}

/// Whether a new world takes these steps, and the update is then done, or has failed for its bank.
fn goes(world: &mut Small<'_>, steps: &[Step]) -> bool {
    world.dead_packets(DEVICE) == 0
        && world.answer().is_none()
        && takes(world, steps)
        && (is_done(world) || is_failed(world))
}

/// Whether this holds for the worked world and schedule.
fn goes_despite_refusals(alloc: Global, steps: &[Step]) -> bool {
    let Ok(bytes) = file_twice(alloc) else {
        return false;
    };
    let Ok(package) = package(&bytes) else {
        return false;
    };
    match asked_twice(alloc, std::slice::from_ref(&package)) {
        Ok(mut world) => goes(&mut world, steps),
        Err(_) => false,
    }
}

/// Whichever single allocation is refused, the test holds.
#[test]
fn refused_memory_takes_no_step(rt: HostRuntime) -> Result<(), Fail> {
    let steps = perfect_twice(rt.alloc())?;
    assert!(rt; goes_despite_refusals(rt.alloc(), &steps));
    Ok(())
}
