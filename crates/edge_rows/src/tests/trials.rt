//! Tests of worlds with the worked package.

use crate::tests::failures::{Failure, fails_and_goes_on};
use crate::tests::hearing::is_heard;
use crate::tests::links::Trouble;
use crate::tests::packages::{file, package};
use crate::tests::rough::{ends, loses_all};
use crate::tests::runs::{self, echoes, fails_at_each, one_fails_alone, passes_ticks, updates};
use crate::tests::setup::{Small, world};
use crate::tests::silence::is_left_as_alone;
use crate::tests::stories::{cancels, cancels_undelivered};
use crate::tests::units::{self, AT_64, AT_128, goes_so};
use fd_core::State;
use fw_package::Package;
use fwupd_base::Roughness;
use mctp_wire::Unit;
use std::alloc::Global;
use ua_core::Cause;

/// A test, by the name of its function.
#[derive(Clone, Copy)]
pub enum Trial<'a> {
    Updates(&'a runs::Row),
    PassesTicks,
    FailsAtEach,
    Echoes,
    OneFailsAlone,
    GoesAtUnit(&'a units::Row),
    BankFails(&'a Failure),
    EndsRoughly(Roughness),
    LosesAll,
    Cancels,
    CancelsUndelivered,
    IsLeftAsAlone,
    IsHeard,
}

static TRIALS: [(&str, Trial<'static>); 18] = [
    // If the answer to UpdateComponent, packet 12, is lost, the device requests data at 7 to 12, in
    // vain, since the agent waits for that answer, which is sent again at 12. Its data requests are
    // then at 13 and 14, and its completions wait for the tags of those at 7, 8 and 9, until 47 to
    // 49.
    (
        "nothing is lost",
        Trial::Updates(&(Trouble::Loses(0), 12, 0, 27)),
    ),
    (
        "the first answer is lost",
        Trial::Updates(&(Trouble::Loses(2), 18, 0, 29)),
    ),
    (
        "UpdateComponent's answer is lost",
        Trial::Updates(&(Trouble::Loses(12), 50, 0, 41)),
    ),
    (
        "a forged frame comes first",
        Trial::Updates(&(Trouble::ForgesFirst, 12, 1, 27)),
    ),
    ("a link gives forged frames without end", Trial::PassesTicks),
    ("a packet at its sender's end is for nobody", Trial::Echoes),
    ("a link loses all packets", Trial::LosesAll),
    (
        "one silent device of three fails alone",
        Trial::OneFailsAlone,
    ),
    (
        "an image of 241 bytes is two pieces at 64",
        Trial::GoesAtUnit(&AT_64),
    ),
    (
        "an image of 241 bytes is one piece at 128",
        Trial::GoesAtUnit(&AT_128),
    ),
    // An update ends where a call of the bank fails, and the next is done.
    (
        "call 1 of the bank fails",
        Trial::BankFails(&Failure {
            call: 1,
            turns: 6,
            cause: Cause::Answer,
            state: State::Ready,
            sent: 12,
            records: 2,
            recorded: false,
        }),
    ),
    (
        "call 2 of the bank fails",
        Trial::BankFails(&Failure {
            call: 2,
            turns: 8,
            cause: Cause::Transfer,
            state: State::Download,
            sent: 19,
            records: 2,
            recorded: false,
        }),
    ),
    (
        "call 3 of the bank fails",
        Trial::BankFails(&Failure {
            call: 3,
            turns: 9,
            cause: Cause::Transfer,
            state: State::Download,
            sent: 21,
            records: 2,
            recorded: false,
        }),
    ),
    (
        "call 4 of the bank fails",
        Trial::BankFails(&Failure {
            call: 4,
            turns: 11,
            cause: Cause::Apply,
            state: State::Apply,
            sent: 25,
            records: 2,
            recorded: false,
        }),
    ),
    (
        "call 5 of the bank fails",
        Trial::BankFails(&Failure {
            call: 5,
            turns: 12,
            cause: Cause::Answer,
            state: State::Ready,
            sent: 27,
            records: 3,
            recorded: true,
        }),
    ),
    (
        "after a cancel a stale completion changes nothing",
        Trial::Cancels,
    ),
    (
        "after a cancel a completion is never delivered",
        Trial::CancelsUndelivered,
    ),
    (
        "the last of three alike is heard until all are dead",
        Trial::IsHeard,
    ),
];

#[test]
fn a_world_does_as_each_row_says(rt: HostRuntime) {
    for (situation, trial) in &TRIALS {
        assert!(rt; holds(rt.alloc(), *trial), "{situation}");
    }
}

/// Returns whether a test holds.
pub fn holds(alloc: Global, trial: Trial<'_>) -> bool {
    let Ok(bytes) = file(alloc) else {
        return false;
    };
    let Ok(package) = package(&bytes) else {
        return false;
    };
    tries(alloc, std::slice::from_ref(&package), trial)
}

/// Whether a test holds with these packages.
fn tries<'a>(alloc: Global, packages: &'a [Package<'a>], trial: Trial<'_>) -> bool {
    let held = match trial {
        Trial::FailsAtEach => fails_at_each(alloc, packages),
        Trial::OneFailsAlone => one_fails_alone(alloc, packages),
        Trial::IsLeftAsAlone => is_left_as_alone(alloc, packages),
        _ => return tries_alone(alloc, packages, trial),
    };
    held.unwrap_or(false)
}

/// Whether a test of a world of the device 9 holds.
fn tries_alone<'a>(alloc: Global, packages: &'a [Package<'a>], trial: Trial<'_>) -> bool {
    let (unit, call) = match trial {
        Trial::GoesAtUnit(row) => (row.unit, 0),
        Trial::BankFails(failure) => (Unit::U64, failure.call),
        _ => (Unit::U64, 0),
    };
    match world(alloc, unit, packages, 1, call) {
        Ok(mut world) => goes(alloc, &mut world, trial),
        Err(_) => false,
    }
}

/// Whether a test of this world holds.
fn goes(alloc: Global, world: &mut Small<'_>, trial: Trial<'_>) -> bool {
    match trial {
        Trial::Updates(row) => updates(alloc, world, row),
        Trial::PassesTicks => passes_ticks(alloc, world),
        Trial::Echoes => echoes(alloc, world),
        Trial::GoesAtUnit(row) => goes_so(alloc, world, row),
        Trial::BankFails(failure) => fails_and_goes_on(alloc, world, failure),
        Trial::EndsRoughly(asked) => ends(alloc, world, asked),
        Trial::LosesAll => loses_all(alloc, world),
        Trial::Cancels => cancels(alloc, world),
        Trial::CancelsUndelivered => cancels_undelivered(alloc, world),
        Trial::IsHeard => is_heard(world),
        Trial::FailsAtEach | Trial::OneFailsAlone | Trial::IsLeftAsAlone => false,
    }
}
