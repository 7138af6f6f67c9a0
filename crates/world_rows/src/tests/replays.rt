//! The worked update by `replay`, without refused memory or with one refused allocation.

use crate::tests::memory::{asked_twice, file_twice, is_done, perfect_twice};
use crate::tests::packages::package;
use crate::tests::seeing::{are_alike, runs_first, stands};
use crate::tests::setup::{DEVICE, Small, world};
use fd_core::{Bank, State};
use fw_package::Package;
use fw_world::{Step, StepFault, replay};
use mctp_wire::Unit;
use std::alloc::Global;
use std::test::Fail;
use ua_core::{Cause, SessionState};

/// The result of a replay.
type End = Result<(), (usize, StepFault)>;

/// `replay`; its contract isn't needed in the proofs of the tests.
fn replayed(world: &mut Small<'_>, steps: &[Step]) -> End {
    replay(world, steps)
}

/// Whether a fresh world takes these steps and is then the same.
fn becomes(fresh: &mut Small<'_>, steps: &[Step], made: &Small<'_>) -> bool {
    replayed(fresh, steps).is_ok() && are_alike(fresh, made)
}

/// Whether a fresh world after these steps is the same.
fn is_replay<'a>(
    alloc: Global,
    packages: &'a [Package<'a>],
    steps: &[Step],
    made: &Small<'_>,
) -> bool {
    match world(alloc, Unit::U64, packages, 1, 1) {
        Ok(mut fresh) => becomes(&mut fresh, steps, made),
        Err(_) => false,
    }
}

/// The answer to UpdateComponent, packet 12, if the bank can't begin: the command's byte, and
/// completion code 1.
const NOT_BEGUN: &[u8] = &[0x14, 1];

/// The place of the packet that the schedule delivers in the seventh tick, and which isn't sent if
/// the bank can't begin.
const DATA_REQUEST: usize = 20;

/// Whether the device's bank failed once, in its `begin`: the device answers with the failure, and
/// the session fails, so there is no data request in the seventh tick.
fn is_without_stage(world: &Small<'_>) -> bool {
    let (Some(node), Some(packets)) = (world.device(DEVICE), world.packets(DEVICE)) else {
        return false;
    };
    let Some(answer) = packets.get(11) else {
        return false;
    };
    world.now() == 7
        && stands(
            world,
            DEVICE,
            SessionState::Failed(Cause::Answer),
            State::Ready,
            12,
        )
        && answer.bytes.get(7..) == Some(NOT_BEGUN)
        && node.device().bank().failures() == 1
        && runs_first(world, DEVICE)
        && world.agent().log().len() == 2
        && world.history().is_empty()
}

/// Whether the replay of the steps ended as it may: the update is done; or memory was refused, and
/// the world is that of the steps before; or the bank had no memory for the image.
fn ends_rightly<'a>(
    alloc: Global,
    packages: &'a [Package<'a>],
    steps: &[Step],
    made: &Small<'_>,
    end: End,
) -> bool {
    match end {
        Ok(()) => is_done(made),
        Err((count, StepFault::Memory)) => match steps.get(..count) {
            Some(before) => is_replay(alloc, packages, before, made),
            None => false,
        },
        Err(end) => end == (DATA_REQUEST, StepFault::NoSuchPacket) && is_without_stage(made),
    }
}

/// Whether this holds for the worked world and schedule.
fn ends_despite_refusals(alloc: Global, steps: &[Step]) -> bool {
    let Ok(bytes) = file_twice(alloc) else {
        return false;
    };
    let Ok(package) = package(&bytes) else {
        return false;
    };
    let packages = std::slice::from_ref(&package);
    match asked_twice(alloc, packages) {
        Ok(mut made) => {
            let end = replayed(&mut made, steps);
            ends_rightly(alloc, packages, steps, &made, end)
        }
        Err(_) => false,
    }
}

/// Whichever single allocation is refused, the test holds.
#[test]
fn refused_memory_ends_a_replay(rt: HostRuntime) -> Result<(), Fail> {
    let steps = perfect_twice(rt.alloc())?;
    assert!(rt; ends_despite_refusals(rt.alloc(), &steps));
    Ok(())
}
