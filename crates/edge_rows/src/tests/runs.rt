//! Runs over links.

use crate::tests::alike::{are_alike, is_reported, sent_alike};
use crate::tests::links::{BadLink, Trouble};
use crate::tests::packages::{file, package};
use crate::tests::setup::{
    DEVICE, Small, driven, driven_over, is_updated, runs_first, stands, start, tells, world,
};
use crate::tests::trials::{Trial, holds};
use fd_core::State;
use fw_edge::{Driven, EdgeFault, Link, MemLink};
use fw_package::Package;
use fw_world::{Missed, SentPackets, Step, replay};
use mctp_wire::Unit;
use std::alloc::{AllocError, Global};
use std::test::Fail;
use ua_core::{Cause, SessionState};

/// Creates the worked world with its update started, at the second try if memory is refused.
fn started<'a>(alloc: Global, packages: &'a [Package<'a>]) -> Result<Small<'a>, AllocError> {
    let mut world = world(alloc, Unit::U64, packages, 1, 0)?;
    if !start(&mut world, DEVICE) {
        let _ = start(&mut world, DEVICE);
    }
    Ok(world)
}

/// A link's fault, and the number of turns, of foreign frames and of packets after which the worked
/// world is updated.
pub type Row = (Trouble, u32, u64, usize);

/// The report of an update that is done at `now`, after `sent` packets.
fn updated_text(alloc: Global, now: u32, sent: usize) -> Result<String, AllocError> {
    format!(in alloc;
        "now {now}\nagent 8 up\ndevice 9 up ACTIVATE session Done sent {sent}\n{UPDATED}"
    )
}

/// The rest of that report.
const UPDATED: &str = "active 9 10 1 241 000102030405060708090A0B0C0D0E0F..\n\
    log 3 last -\n\
    applied 9 10 1 241\n\
    recorded 9 1 1\n\
    activated 9 10 1 241\n";

/// Whether the worked world's report is that of an update done at `now`, after `sent` packets, and
/// the device's active image is the new one.
fn is_updated_at(alloc: Global, world: &Small<'_>, now: u32, sent: usize) -> bool {
    let Ok(text) = updated_text(alloc, now, sent) else {
        return false;
    };
    is_reported(alloc, world, text.as_bytes()) && is_updated(world, DEVICE)
}

/// Returns whether the worked world, driven over such a link, is updated as the case expects.
pub fn updates(alloc: Global, world: &mut Small<'_>, row: &Row) -> bool {
    let (trouble, turns, foreign, sent) = *row;
    let mut links = [BadLink::new(alloc, trouble)];
    start(world, DEVICE)
        && driven_over(alloc, world, &mut links, 100) == Some(Driven { turns, foreign })
        && is_updated_at(alloc, world, turns, sent)
}

/// The report after three ticks in which the agent's first request was sent and nothing arrived.
const THIRD_TICK: &[u8] = b"now 3\n\
    agent 8 up\n\
    device 9 up IDLE session Query sent 1\n\
    active 9 10 1 1 AA\n\
    log 1 last -\n";

/// Whether these are the steps of three ticks.
fn are_three_ticks(steps: &[Step]) -> bool {
    let ticks = [
        Step::Tick(Missed::new()),
        Step::Tick(Missed::new()),
        Step::Tick(Missed::new()),
    ];
    steps == ticks.as_slice()
}

/// Returns whether a link that returns forged frames whenever it is asked lets three ticks pass and
/// nothing else.
pub fn passes_ticks(alloc: Global, world: &mut Small<'_>) -> bool {
    let (turns, foreign) = (3, 3_072);
    let mut steps = Vec::new(alloc);
    let mut links = [BadLink::new(alloc, Trouble::ForgesAlways)];
    start(world, DEVICE)
        && driven(world, &mut links, 3, &mut steps) == Ok(Driven { turns, foreign })
        && are_three_ticks(&steps)
        && is_reported(alloc, world, THIRD_TICK)
}

/// Whether another world takes the steps, and both worlds are then equal.
fn becomes(
    alloc: Global,
    other: &mut Small<'_>,
    steps: &[Step],
    world: &Small<'_>,
) -> Result<bool, AllocError> {
    if replay(other, steps).is_err() {
        return Ok(false);
    }
    are_alike(alloc, other, world)
}

/// Whether a fresh world that takes the steps is this world.
fn is_replay<'a>(
    alloc: Global,
    packages: &'a [Package<'a>],
    world: &Small<'_>,
    steps: &[Step],
) -> Result<bool, AllocError> {
    let mut other = started(alloc, packages)?;
    becomes(alloc, &mut other, steps, world)
}

/// Drives the worked world over a link that fails in its `k`-th call. Returns whether it didn't
/// fail; None if the result is wrong.
fn fails_at<'a>(
    alloc: Global,
    packages: &'a [Package<'a>],
    k: u64,
) -> Result<Option<bool>, AllocError> {
    let mut world = started(alloc, packages)?;
    let mut steps = Vec::new(alloc);
    let mut links = [BadLink::new(alloc, Trouble::Fails(k))];
    let driven = driven(&mut world, &mut links, 100, &mut steps);
    let same = is_replay(alloc, packages, &world, &steps)?;
    let [link] = &links;
    Ok(match (driven, link.failures()) {
        (Ok(_), 0) if same => Some(true),
        (Err(EdgeFault::Frame), 1) if same => Some(false),
        _ => None,
    })
}

/// Returns whether each call fails as expected, up to one that the run doesn't make.
pub fn fails_at_each<'a>(alloc: Global, packages: &'a [Package<'a>]) -> Result<bool, AllocError> {
    for k in 1..1_000 {
        match fails_at(alloc, packages, k)? {
            Some(true) => return Ok(true),
            Some(false) => {}
            None => return Ok(false),
        }
    }
    Ok(false)
}

#[test]
fn a_link_that_fails_ends_the_run_at_a_replay_of_its_steps(rt: HostRuntime) {
    assert!(rt; holds(rt.alloc(), Trial::FailsAtEach));
}

/// Whether the worked world is driven over a link in memory until its update is done, or has failed
/// since its device's bank had no memory. A run that ends early returns the steps that it took.
/// They are replayed twice if memory is refused to the first replay.
fn drives<'a>(alloc: Global, packages: &'a [Package<'a>]) -> Result<bool, AllocError> {
    let mut world = started(alloc, packages)?;
    let mut steps = Vec::new(alloc);
    let mut links = [MemLink::new(alloc)];
    let driven = driven(&mut world, &mut links, 100, &mut steps);
    let failed = SessionState::Failed(Cause::Answer);
    if stands(&world, DEVICE, failed, State::Ready, 12) {
        return Ok(true);
    }
    let ends = match driven {
        Ok(driven) => driven.turns == 12,
        Err(fault) => fault != EdgeFault::Step,
    };
    let same = is_replay(alloc, packages, &world, &steps)?;
    Ok(ends && (same || is_replay(alloc, packages, &world, &steps)?))
}

/// Whichever single allocation is refused, the test holds.
#[test]
fn refused_memory_hands_back_the_steps_taken(rt: HostRuntime) -> Result<(), Fail> {
    let bytes = match file(rt.alloc()) {
        Ok(bytes) => bytes,
        Err(_) => file(rt.alloc())?,
    };
    let packages = [package(&bytes)?];
    let held = match drives(rt.alloc(), &packages) {
        Ok(held) => held,
        Err(_) => drives(rt.alloc(), &packages)?,
    };
    assert!(rt; held);
    Ok(())
}

/// Returns whether the worked world, driven over such a link, fails in turn 19, since the device
/// answers nothing, and its active image is the first one.
pub fn is_silent<L: Link>(alloc: Global, world: &mut Small<'_>, links: &mut [L]) -> bool {
    let (turns, foreign) = (19, 0);
    let silent = SessionState::Failed(Cause::Silent);
    start(world, DEVICE)
        && driven_over(alloc, world, links, 100) == Some(Driven { turns, foreign })
        && stands(world, DEVICE, silent, State::Idle, 3)
        && runs_first(world, DEVICE)
}

/// Returns whether a link that returns each packet at its sender's end gives the same result as one
/// that loses all: a returned packet is one of the pair, but its sender isn't its destination.
pub fn echoes(alloc: Global, world: &mut Small<'_>) -> bool {
    is_silent(alloc, world, &mut [BadLink::new(alloc, Trouble::Echoes)])
}

/// The world of devices 9 to 11 with their updates started, driven over links of which the second
/// has this fault, and the number of turns.
fn three<'a>(
    alloc: Global,
    packages: &'a [Package<'a>],
    trouble: Trouble,
) -> Result<(Small<'a>, Option<u32>), AllocError> {
    let mut world = world(alloc, Unit::U64, packages, 3, 0)?;
    let turns = turns_of_three(alloc, &mut world, trouble);
    Ok((world, turns))
}

/// The number of turns of a run of devices 9 to 11 over such links, after their updates are
/// started.
fn turns_of_three(alloc: Global, world: &mut Small<'_>, trouble: Trouble) -> Option<u32> {
    if !start(world, 9) || !start(world, 10) || !start(world, 11) {
        return None;
    }
    let mut links = [
        BadLink::new(alloc, Trouble::Loses(0)),
        BadLink::new(alloc, trouble),
        BadLink::new(alloc, Trouble::Loses(0)),
    ];
    match driven_over(alloc, world, &mut links, 100) {
        Some(Driven { turns, foreign: 0 }) => Some(turns),
        _ => None,
    }
}

/// Whether a device's active image is the new one, after an update over perfect links that left it
/// in this state.
fn is_done(world: &Small<'_>, device: u8, state: State) -> bool {
    stands(world, device, SessionState::Done, state, 27) && is_updated(world, device)
}

/// Whether all three are done.
fn all_done(world: &Small<'_>) -> bool {
    is_done(world, 9, State::Activate)
        && is_done(world, 10, State::Activate)
        && is_done(world, 11, State::Activate)
}

/// Whether 10 is given up unchanged, and 9 and 11 are done with the same packets as in a world
/// without faults.
fn one_is_silent(world: &Small<'_>, well: &Small<'_>) -> bool {
    let silent = SessionState::Failed(Cause::Silent);
    is_done(world, 9, State::Idle)
        && is_done(world, 11, State::Idle)
        && sent_alike(well, world, 9)
        && sent_alike(well, world, 11)
        && stands(world, 10, silent, State::Idle, 3)
        && runs_first(world, 10)
}

/// Returns whether devices 9 to 11 are all done in turn 12 over perfect links; and, if the link of
/// 10 loses every packet, only 10 fails, in turn 19.
pub fn one_fails_alone<'a>(alloc: Global, packages: &'a [Package<'a>]) -> Result<bool, AllocError> {
    let (well, turns) = three(alloc, packages, Trouble::Loses(0))?;
    let done = turns == Some(12) && all_done(&well);
    let (world, turns) = three(alloc, packages, Trouble::LosesAll)?;
    Ok(done && turns == Some(19) && one_is_silent(&world, &well))
}
