//! Three devices, one of them over a link that loses all packets, beside a run of the first device
//! alone.

use crate::tests::alike::{is_reported, sent_alike};
use crate::tests::links::{BadLink, Trouble};
use crate::tests::setup::{DEVICE, Small, driven, is_updated, step, world};
use crate::tests::trials::{Trial, holds};
use fw_edge::{Driven, Link, MemLink};
use fw_package::Package;
use fw_world::{Missed, Step, replay_two};
use mctp_wire::Unit;
use std::alloc::{AllocError, Global};

/// The report of the three devices after 19 turns.
const AMONG: &[u8] = b"now 19\n\
    agent 8 up\n\
    device 9 up IDLE session Done sent 27\n\
    active 9 10 1 241 000102030405060708090A0B0C0D0E0F..\n\
    device 10 up IDLE session Failed:Silent sent 3\n\
    active 10 10 1 1 AA\n\
    device 11 up IDLE session Done sent 27\n\
    active 11 10 1 241 000102030405060708090A0B0C0D0E0F..\n\
    log 8 last -\n\
    applied 9 10 1 241\n\
    applied 11 10 1 241\n\
    recorded 9 1 1\n\
    recorded 11 1 1\n\
    activated 9 10 1 241\n\
    activated 11 10 1 241\n";

/// The report of the first device alone after 19 ticks.
const ALONE: &[u8] = b"now 19\n\
    agent 8 up\n\
    device 9 up IDLE session Done sent 27\n\
    active 9 10 1 241 000102030405060708090A0B0C0D0E0F..\n\
    log 3 last -\n\
    applied 9 10 1 241\n\
    recorded 9 1 1\n\
    activated 9 10 1 241\n";

/// Takes a step and lists it. Returns whether it was taken.
fn is_listed(world: &mut Small<'_>, steps: &mut Vec<Step>, next: Step) -> Result<bool, AllocError> {
    let taken = step(world, &next).is_ok();
    steps.push(next)?;
    Ok(taken)
}

/// Starts the updates of the devices, drives the world over its links, and lists the steps. Returns
/// whether `drive` took `turns` turns.
fn is_driven<L: Link>(
    world: &mut Small<'_>,
    devices: &[u8],
    links: &mut [L],
    turns: u32,
    steps: &mut Vec<Step>,
) -> Result<bool, AllocError> {
    for device in devices {
        if !is_listed(world, steps, Step::Start(*device, 1))? {
            return Ok(false);
        }
    }
    Ok(driven(world, links, 100, steps) == Ok(Driven { turns, foreign: 0 }))
}

/// Drives the devices 9 to 11 together until all sessions have ended, with a link of 10 that loses
/// every packet, and lists the steps.
fn drives_among(
    alloc: Global,
    world: &mut Small<'_>,
    steps: &mut Vec<Step>,
) -> Result<bool, AllocError> {
    let mut links = [
        BadLink::new(alloc, Trouble::Loses(0)),
        BadLink::new(alloc, Trouble::LosesAll),
        BadLink::new(alloc, Trouble::Loses(0)),
    ];
    is_driven(world, &[9, 10, 11], &mut links, 19, steps)
}

/// Drives the device 9 alone until its session has ended, passes ticks up to the 19th, and lists
/// the steps.
fn drives_alone(
    alloc: Global,
    world: &mut Small<'_>,
    steps: &mut Vec<Step>,
) -> Result<bool, AllocError> {
    let mut links = [MemLink::new(alloc)];
    let mut taken = is_driven(world, &[9], &mut links, 12, steps)?;
    for _ in 12..19 {
        taken = is_listed(world, steps, Step::Tick(Missed::new()))? && taken;
    }
    Ok(taken)
}

/// Whether the worlds of the three devices and of the single one have these reports, and the device
/// 9 has the same packets in both, each sent at the same tick, and the worked image active.
fn is_as_alone(alloc: Global, among: &Small<'_>, alone: &Small<'_>) -> bool {
    is_reported(alloc, among, AMONG)
        && is_reported(alloc, alone, ALONE)
        && sent_alike(among, alone, DEVICE)
        && is_updated(among, DEVICE)
        && is_updated(alone, DEVICE)
}

/// The steps of a run of the three devices, and those of a run of the device 9 alone.
#[derive(Drop)]
struct Lists {
    for_all: Vec<Step>,
    for_one: Vec<Step>,
}

/// Drives both worlds and lists their steps. Returns whether the device 9 ends the same in both.
fn are_driven(
    alloc: Global,
    among: &mut Small<'_>,
    alone: &mut Small<'_>,
    lists: &mut Lists,
) -> Result<bool, AllocError> {
    let all_driven = drives_among(alloc, among, &mut lists.for_all)?;
    let one_driven = drives_alone(alloc, alone, &mut lists.for_one)?;
    Ok(all_driven && one_driven && is_as_alone(alloc, among, alone))
}

/// `replay_two`, for the device 9; its contract isn't needed in the proofs of the tests. Returns
/// whether it takes all steps.
fn are_taken(among: &mut Small<'_>, alone: &mut Small<'_>, lists: &Lists) -> bool {
    let (first, second) = replay_two(among, &lists.for_all, alone, &lists.for_one, DEVICE);
    first.is_ok() && second.is_ok()
}

/// Drives fresh worlds, and lists their steps. Returns whether the device 9 ends the same in both.
fn drives_both<'a>(
    alloc: Global,
    packages: &'a [Package<'a>],
    lists: &mut Lists,
) -> Result<bool, AllocError> {
    let mut among = world(alloc, Unit::U64, packages, 3, 0)?;
    let mut alone = world(alloc, Unit::U64, packages, 1, 0)?;
    are_driven(alloc, &mut among, &mut alone, lists)
}

/// Replays the steps in fresh worlds. Returns whether the device 9 ends the same in both.
fn replays_both<'a>(
    alloc: Global,
    packages: &'a [Package<'a>],
    lists: &Lists,
) -> Result<bool, AllocError> {
    let mut among = world(alloc, Unit::U64, packages, 3, 0)?;
    let mut alone = world(alloc, Unit::U64, packages, 1, 0)?;
    let taken = are_taken(&mut among, &mut alone, lists);
    Ok(taken && is_as_alone(alloc, &among, &alone))
}

/// Returns whether the device 9 beside a silent one ends as it does alone: by `drive`, and in fresh
/// worlds by the steps of both runs.
pub fn is_left_as_alone<'a>(
    alloc: Global,
    packages: &'a [Package<'a>],
) -> Result<bool, AllocError> {
    let mut lists = Lists {
        for_all: Vec::new(alloc),
        for_one: Vec::new(alloc),
    };
    let driven = drives_both(alloc, packages, &mut lists)?;
    let replayed = replays_both(alloc, packages, &lists)?;
    Ok(driven && replayed)
}

#[test]
fn beside_a_silent_device_another_is_left_as_alone(rt: HostRuntime) {
    assert!(rt; holds(rt.alloc(), Trial::IsLeftAsAlone));
}
