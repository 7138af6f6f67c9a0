//! Losses: commands and answers that nobody waits for any longer, and refused memory.

use crate::messages::seeing::{
    active, applied, cell_of, failures, happened, has_first_record, is_worked_image, look_at,
    runs_first, stands,
};
use crate::messages::setup::{Small, join, opening};
use crate::messages::steps::{
    ACTIVATING, APPLY, ASKED, COMPLETE_ASKED, GIVE_UP_DOWN, START, WHOLE, go_on, led, replay,
    takes, takes_worked, worked,
};
use crate::packages::{ONE, file, package};
use crate::worked::{DEVICE, KEY};
use fd_core::State;
use fw_message::{MessageStep, MessageStepFault, Way};
use fw_package::Package;
use std::alloc::{AllocError, Global};
use ua_core::{Cause, SessionState};

/// Whether the update is done.
fn is_done(world: &Small<'_>) -> bool {
    stands(world, State::Activate, SessionState::Done)
}

/// Whether the session has failed, these steps then empty the cell, and a next update is done.
fn fails_and_goes_on(world: &mut Small<'_>, then: &[MessageStep]) -> bool {
    stands(world, State::Idle, SessionState::Failed(Cause::Silent))
        && takes(world, then)
        && cell_of(world, Way::Down).is_none()
        && takes(world, &[START])
        && goes_on(world)
}

/// Whether an update is done if each step is taken that may be.
fn goes_on(world: &mut Small<'_>) -> bool {
    go_on(world);
    is_done(world)
}

/// Returns whether this holds if the session's asker gives up.
pub fn gives_up<'a>(alloc: Global, packages: &'a [Package<'a>], then: &[MessageStep]) -> bool {
    match led(alloc, packages, ASKED, &[GIVE_UP_DOWN]) {
        Ok(mut world) => fails_and_goes_on(&mut world, then),
        Err(_) => false,
    }
}

/// The worked steps that allocate: Start, the verdict ApplyOk, and the Takes of ApplyComplete and
/// of ActivateFirmware.
static NEEDY: [usize; 4] = [0, APPLY, COMPLETE_ASKED, ACTIVATING + 1];

/// Whether a worked step is taken, at once or, if memory is refused and nothing changes, at the
/// second try.
fn takes_again(world: &mut Small<'_>, number: usize, step: MessageStep) -> bool {
    let before = look_at(world);
    match replay(world, &[step]) {
        Ok(()) => true,
        Err((0, MessageStepFault::Memory)) => {
            NEEDY.contains(&number) && look_at(world) == before && takes(world, &[step])
        }
        Err(_) => false,
    }
}

/// The world with the worked device, which joins it at once or at the second try.
fn joined<'a>(alloc: Global, packages: &'a [Package<'a>]) -> Result<Small<'a>, MessageStepFault> {
    let mut world = opening(alloc, packages);
    if join(alloc, &mut world, DEVICE).is_err() {
        join(alloc, &mut world, DEVICE)?;
    }
    Ok(world)
}

/// Takes the worked steps until the device's bank has failed and the session has received the
/// device's answer, if it does. Returns whether each step is taken.
fn takes_until_failed(world: &mut Small<'_>) -> bool {
    for (number, step) in worked().iter().enumerate() {
        if !takes_again(world, number, *step) {
            return false;
        }
        if failures(world) > 0 && cell_of(world, Way::Down).is_none() {
            return true;
        }
    }
    true
}

/// Whether the one failure of the bank has failed the update, and the next update is done.
fn is_failed_and_goes_on(world: &mut Small<'_>) -> bool {
    let failed = SessionState::Failed(Cause::Answer);
    failures(world) == 1
        && world.history().is_empty()
        && stands(world, State::Ready, failed)
        && takes_worked(world, WHOLE)
}

/// Whether the worked update is done, the device's active image is the new one, and that is
/// recorded.
fn is_updated(world: &Small<'_>) -> bool {
    is_done(world)
        && is_worked_image(active(world, KEY))
        && applied(world, KEY).is_empty()
        && has_first_record(world)
        && happened(world, b"ARV")
}

/// Whether the worked update is taken, and done, also if a failure of the bank came before.
fn is_taken(world: &mut Small<'_>) -> bool {
    WHOLE == 40
        && runs_first(world)
        && takes_until_failed(world)
        && (failures(world) == 0 || is_failed_and_goes_on(world))
        && is_updated(world)
}

/// The worked file, at the second try if memory is refused.
fn file_twice(alloc: Global) -> Result<Vec<u8>, AllocError> {
    match file(alloc, ONE) {
        Ok(bytes) => Ok(bytes),
        Err(_) => file(alloc, ONE),
    }
}

/// Whether this holds for a world with the worked package.
fn goes_despite_refusals(alloc: Global) -> bool {
    let Ok(bytes) = file_twice(alloc) else {
        return false;
    };
    let Ok(package) = package(&bytes) else {
        return false;
    };
    match joined(alloc, std::slice::from_ref(&package)) {
        Ok(mut world) => is_taken(&mut world),
        Err(_) => false,
    }
}

/// The worked update of forty steps. Whichever single allocation is refused, the test holds.
#[test]
fn refused_memory_leaves_the_world(rt: HostRuntime) {
    assert!(rt; goes_despite_refusals(rt.alloc()));
}
