//! A cancel at the same time as a completion, and an update at the greater transmission unit.

use crate::messages::seeing::{
    applied, cell_of, happened, happened_last, records, runs_first, stands,
};
use crate::messages::setup::{Small, join_at, opening};
use crate::messages::steps::{
    CANCEL, COMPLETE_ASKED, TAKE_UP, WHOLE, led, takes, takes_worked, worked_long,
};
use crate::worked::{DEVICE, KEY};
use fd_core::State;
use fw_message::{MessageStep, Way};
use fw_package::Package;
use fwup_wire::code::command::APPLY_COMPLETE;
use fwup_wire::code::completion::COMMAND_NOT_EXPECTED;
use mctp_wire::Unit;
use std::alloc::Global;
use ua_core::SessionState;

/// Whether the first image is active, no image is applied and nothing is recorded.
fn is_as_before(world: &Small<'_>) -> bool {
    runs_first(world) && applied(world, KEY).is_empty() && records(world).is_empty()
}

/// Whether ApplyComplete is refused, and these steps then end the update without a record, and the
/// next update is done.
fn ends_without_record(world: &mut Small<'_>, then: &[MessageStep]) -> bool {
    cell_of(world, Way::Up) == Some((APPLY_COMPLETE, Some(COMMAND_NOT_EXPECTED), true))
        && stands(world, State::Apply, SessionState::Cancelling)
        && happened(world, b"A")
        && takes(world, then)
        && stands(world, State::Idle, SessionState::Idle)
        && is_as_before(world)
        && happened(world, b"A")
        && takes_worked(world, WHOLE)
        && happened_last(world, b"ARV")
}

/// Returns whether this holds if the update is cancelled then.
pub fn is_refused_late<'a>(
    alloc: Global,
    packages: &'a [Package<'a>],
    then: &[MessageStep],
) -> bool {
    match led(alloc, packages, COMPLETE_ASKED, &[CANCEL, TAKE_UP]) {
        Ok(mut world) => ends_without_record(&mut world, then),
        Err(_) => false,
    }
}

/// Whether a device at the unit of 128 bytes is updated with one request for data.
fn is_updated_long(alloc: Global, world: &mut Small<'_>) -> bool {
    join_at(alloc, world, DEVICE, Unit::U128).is_ok()
        && takes(world, &worked_long())
        && happened_last(world, b"ARV")
}

/// Returns whether this holds for a new world.
pub fn goes_long<'a>(alloc: Global, packages: &'a [Package<'a>]) -> bool {
    is_updated_long(alloc, &mut opening(alloc, packages))
}
