//! Runs in which one call of the device's bank fails.

use crate::tests::setup::{
    DEVICE, KEY, Small, driven, is_updated, runs_first, stands, start, step, tells,
};
use fd_core::{Bank, State};
use fw_edge::{Driven, MemLink};
use fw_world::{Missed, Step};
use std::alloc::Global;
use ua_core::{Cause, SessionState};

/// The result of a failing call.
#[derive(Clone, Copy)]
pub struct Failure {
    /// The call that fails, counted from 1 among begin, put, put, seal and switch.
    pub call: u64,
    /// The number of turns after which the session has failed, and the cause.
    pub turns: u32,
    pub cause: Cause,
    /// The device's state then, and the number of packets sent.
    pub state: State,
    pub sent: usize,
    /// The number of records of the event log.
    pub records: usize,
    /// Whether the device applied its image and the agent recorded that.
    pub recorded: bool,
}

/// Starts the update, and drives it over perfect links until the session is Done or Failed.
fn update(alloc: Global, world: &mut Small<'_>, links: &mut [MemLink]) -> Option<Driven> {
    let mut steps = Vec::new(alloc);
    if !start(world, DEVICE) {
        return None;
    }
    driven(world, links, 100, &mut steps).ok()
}

/// Whether the world is as the case expects after an update with this result.
fn fails_so(world: &Small<'_>, driven: Option<Driven>, failure: &Failure) -> bool {
    let turns = failure.turns;
    let story = if failure.recorded {
        b"AR".as_slice()
    } else {
        b"".as_slice()
    };
    driven == Some(Driven { turns, foreign: 0 })
        && stands(
            world,
            DEVICE,
            SessionState::Failed(failure.cause),
            failure.state,
            failure.sent,
        )
        && world.agent().log().len() == failure.records
        && tells(world, story)
        && runs_first(world, DEVICE)
}

/// Whether the device is idle after 240 ticks, and nothing is applied.
fn rests(world: &mut Small<'_>) -> bool {
    for _ in 0..240 {
        let _ = step(world, &Step::Tick(Missed::new()));
    }
    match world.device(DEVICE) {
        Some(node) => {
            node.device().state() == State::Idle
                && node.device().bank().applied(KEY).is_none()
                && runs_first(world, DEVICE)
        }
        None => false,
    }
}

/// Whether the session of an update with this result is done, and the device's active image is the
/// new one.
fn is_done(world: &Small<'_>, driven: Option<Driven>) -> bool {
    let done = match world.agent().session(DEVICE) {
        Some(session) => session.state() == SessionState::Done,
        None => false,
    };
    driven.is_some() && done && is_updated(world, DEVICE)
}

/// Returns whether a world in which that call fails is as the case expects, then becomes idle, and
/// is then updated.
pub fn fails_and_goes_on(alloc: Global, world: &mut Small<'_>, failure: &Failure) -> bool {
    let mut links = [MemLink::new(alloc)];
    let failed = update(alloc, world, &mut links);
    fails_so(world, failed, failure) && rests(world) && is_done_again(alloc, world, &mut links)
}

/// Whether the next update is done.
fn is_done_again(alloc: Global, world: &mut Small<'_>, links: &mut [MemLink]) -> bool {
    let again = update(alloc, world, links);
    is_done(world, again)
}
