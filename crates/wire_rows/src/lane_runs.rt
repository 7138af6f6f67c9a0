//! Lanes for which an allocation is refused.

use crate::lanes::glance;
use exch_lane::{End, Lane, LaneEntry, LaneFault, LaneStep, lane_replay};
use mctp_wire::Unit;
use pldm_base::Reply;
use std::alloc::Global;

/// Whether each taken request is the last one begun, and taken once, and each accepted reply is the
/// last one given, and accepted once.
fn is_of_a_cell(entries: &[LaneEntry]) -> bool {
    let mut request = None;
    let mut answer = None;
    for entry in entries {
        let fits = match entry {
            LaneEntry::Asked(command, body) => {
                request = Some((command, body));
                answer = None;
                true
            }
            LaneEntry::Taken(command, body, reply) => {
                answer = Some(reply);
                request.take() == Some((command, body))
            }
            LaneEntry::Learnt(reply) => answer.take() == Some(reply),
        };
        if !fits {
            return false;
        }
    }
    true
}

/// Whether a lane takes a step, at the second try if memory was refused, which leaves it unchanged.
fn takes(lane: &mut Lane, step: &LaneStep) -> bool {
    let step = std::slice::from_ref(step);
    let before = glance(lane);
    match lane_replay(lane, step) {
        Ok(()) => true,
        Err((_, fault)) => {
            fault == LaneFault::Memory
                && glance(lane) == before
                && lane_replay(lane, step) == Ok(())
        }
    }
}

/// Whether a request of this command is answered, with a reply of four packets, in one tick.
fn exchanges(lane: &mut Lane, command: u8, fields: &[u8]) -> bool {
    let first = lane.packets().len().wrapping_add(1);
    let mut reply = Reply::new();
    let _ = reply.try_extend_from_slice(fields);
    let to_asker = |at: usize| LaneStep::Deliver(at, End::Asker, Reply::new());
    let steps = [
        LaneStep::Begin(command, Reply::new()),
        LaneStep::Deliver(first, End::Taker, reply),
        to_asker(first.wrapping_add(1)),
        to_asker(first.wrapping_add(2)),
        to_asker(first.wrapping_add(3)),
        to_asker(first.wrapping_add(4)),
        LaneStep::Tick(true, true),
    ];
    for step in &steps {
        if !takes(lane, step) {
            return false;
        }
    }
    true
}

/// Whether eight requests are answered at a transmission unit, each with a reply of four packets.
fn is_left(alloc: Global, unit: Unit, fields: &[u8]) -> bool {
    let mut lane = Lane::new(alloc, unit, 8, 9);
    for command in 0..8u8 {
        if !exchanges(&mut lane, command, fields) {
            return false;
        }
    }
    lane.now() == 8
        && lane.packets().len() == 40
        && lane.history().len() == 24
        && is_of_a_cell(lane.history())
}

/// Whichever single allocation is refused, the test holds.
#[test]
fn refused_memory_leaves_the_lane(rt: HostRuntime) {
    assert!(rt; is_left(rt.alloc(), Unit::U64, &[0x5A; 252]));
    assert!(rt; is_left(rt.alloc(), Unit::U128, &[0x5A; 508]));
}
