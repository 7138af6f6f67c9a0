//! The cases of worlds with the worked package.

use crate::messages::endings::{goes_long, is_refused_late};
use crate::messages::losses::gives_up;
use crate::messages::refusals::{is_no_device, is_refused, stop_there};
use crate::messages::setup::NOBODY;
use crate::messages::steps::{
    ACTIVATE, ACTIVATING, ALL_APPLIED, ANSWERED, APPLIED, ASK_DOWN, ASK_UP, ASKED, CANCEL,
    DATA_ANSWERED, DATA_ASKED, DOWNLOAD, DROP_DOWN, DROP_UP, GIVE_UP_DOWN, GIVE_UP_UP, LEARN_DOWN,
    LEARN_UP, START, TAKE_BUSY, TAKE_DOWN, TAKE_UP, TIME_OUT_DEVICE, TIME_OUT_SESSION, WHOLE,
};
use crate::packages::{ONE, file, package};
use crate::worked::{AGENT, DEVICE};
use fw_message::{MessageStep, MessageStepFault};
use fw_package::Package;
use std::alloc::Global;

/// A trial of a world.
#[derive(Clone, Copy)]
enum Trial<'a> {
    /// The number of worked steps and the other steps that lead to the world, a step that is
    /// refused there, and the fault.
    Refused(usize, &'a [MessageStep], MessageStep, MessageStepFault),
    /// After this number of worked steps, the identifier of no device.
    NoDevice(usize, u8),
    /// Replays stop at the first step that is refused.
    Stops,
    /// The steps after an update is cancelled before ApplyComplete is answered.
    Late(&'a [MessageStep]),
    /// An update at the unit of 128 bytes.
    Long,
    /// The steps after the session's asker gives up.
    GivesUp(&'a [MessageStep]),
}

const NOT_NOW: MessageStepFault = MessageStepFault::NotNow;

const REFUSED: MessageStepFault = MessageStepFault::Refused;

static ROWS: [(&str, Trial<'static>); 79] = [
    // Cells that aren't empty, and no pending command.
    (
        "the session wishes nothing",
        Trial::Refused(0, &[], ASK_DOWN, NOT_NOW),
    ),
    (
        "the device wishes nothing",
        Trial::Refused(0, &[], ASK_UP, NOT_NOW),
    ),
    (
        "a session in Download",
        Trial::Refused(DOWNLOAD, &[], ASK_DOWN, NOT_NOW),
    ),
    (
        "a session that is Done",
        Trial::Refused(WHOLE, &[], ASK_DOWN, NOT_NOW),
    ),
    (
        "a device in ACTIVATE",
        Trial::Refused(WHOLE, &[], ASK_UP, NOT_NOW),
    ),
    (
        "the agent has asked",
        Trial::Refused(ASKED, &[], ASK_DOWN, NOT_NOW),
    ),
    (
        "the agent has its answer",
        Trial::Refused(ANSWERED, &[], ASK_DOWN, NOT_NOW),
    ),
    (
        "another command is wished",
        Trial::Refused(ASKED, &[CANCEL], ASK_DOWN, NOT_NOW),
    ),
    (
        "the agent gave up",
        Trial::Refused(ASKED, &[GIVE_UP_DOWN], ASK_DOWN, NOT_NOW),
    ),
    (
        "the device has asked",
        Trial::Refused(DATA_ASKED, &[], ASK_UP, NOT_NOW),
    ),
    (
        "the device has its answer",
        Trial::Refused(DATA_ANSWERED, &[], ASK_UP, NOT_NOW),
    ),
    (
        "the device gave up",
        Trial::Refused(DATA_ASKED, &[GIVE_UP_UP], ASK_UP, NOT_NOW),
    ),
    // Cells without a command to take, and devices that aren't quiet.
    ("no update", Trial::Refused(0, &[], TAKE_DOWN, NOT_NOW)),
    (
        "no update, not quiet",
        Trial::Refused(0, &[], TAKE_BUSY, NOT_NOW),
    ),
    ("no update, up", Trial::Refused(0, &[], TAKE_UP, NOT_NOW)),
    (
        "nothing is asked yet",
        Trial::Refused(1, &[], TAKE_DOWN, NOT_NOW),
    ),
    (
        "nothing is asked yet, up",
        Trial::Refused(DOWNLOAD, &[], TAKE_UP, NOT_NOW),
    ),
    (
        "it is answered",
        Trial::Refused(ANSWERED, &[], TAKE_DOWN, NOT_NOW),
    ),
    (
        "it is answered, not quiet",
        Trial::Refused(ANSWERED, &[], TAKE_BUSY, NOT_NOW),
    ),
    (
        "it is answered, closed",
        Trial::Refused(ANSWERED, &[CANCEL], TAKE_DOWN, NOT_NOW),
    ),
    (
        "it is answered, up",
        Trial::Refused(DATA_ANSWERED, &[], TAKE_UP, NOT_NOW),
    ),
    (
        "it is learnt",
        Trial::Refused(ANSWERED, &[LEARN_DOWN], TAKE_DOWN, NOT_NOW),
    ),
    (
        "the device has asked",
        Trial::Refused(DATA_ASKED, &[CANCEL, ASK_DOWN], TAKE_DOWN, NOT_NOW),
    ),
    (
        "the device has its answer",
        Trial::Refused(DATA_ANSWERED, &[CANCEL, ASK_DOWN], TAKE_DOWN, NOT_NOW),
    ),
    (
        "the device gave up",
        Trial::Refused(
            DATA_ASKED,
            &[GIVE_UP_UP, CANCEL, ASK_DOWN],
            TAKE_DOWN,
            NOT_NOW,
        ),
    ),
    // Cells without an answer that somebody waits for.
    ("no update", Trial::Refused(0, &[], LEARN_DOWN, NOT_NOW)),
    ("no update, up", Trial::Refused(0, &[], LEARN_UP, NOT_NOW)),
    (
        "nothing is asked yet",
        Trial::Refused(1, &[], LEARN_DOWN, NOT_NOW),
    ),
    (
        "no answer yet",
        Trial::Refused(ASKED, &[], LEARN_DOWN, NOT_NOW),
    ),
    (
        "no answer yet, up",
        Trial::Refused(DATA_ASKED, &[], LEARN_UP, NOT_NOW),
    ),
    (
        "it is learnt",
        Trial::Refused(ANSWERED, &[LEARN_DOWN], LEARN_DOWN, NOT_NOW),
    ),
    (
        "it is learnt, up",
        Trial::Refused(DATA_ANSWERED, &[LEARN_UP], LEARN_UP, NOT_NOW),
    ),
    (
        "the cell is closed",
        Trial::Refused(ANSWERED, &[CANCEL], LEARN_DOWN, NOT_NOW),
    ),
    (
        "it was taken when closed",
        Trial::Refused(ASKED, &[CANCEL, TAKE_DOWN], LEARN_DOWN, NOT_NOW),
    ),
    (
        "the cell is closed, up",
        Trial::Refused(DATA_ANSWERED, &[GIVE_UP_UP], LEARN_UP, NOT_NOW),
    ),
    // Nothing to give up, nothing to drop, and nobody waiting.
    (
        "an empty cell",
        Trial::Refused(0, &[], GIVE_UP_DOWN, NOT_NOW),
    ),
    (
        "an empty cell, up",
        Trial::Refused(0, &[], GIVE_UP_UP, NOT_NOW),
    ),
    (
        "a closed cell",
        Trial::Refused(ASKED, &[CANCEL], GIVE_UP_DOWN, NOT_NOW),
    ),
    (
        "given up",
        Trial::Refused(ASKED, &[GIVE_UP_DOWN], GIVE_UP_DOWN, NOT_NOW),
    ),
    (
        "given up, up",
        Trial::Refused(DATA_ASKED, &[GIVE_UP_UP], GIVE_UP_UP, NOT_NOW),
    ),
    (
        "nothing to drop",
        Trial::Refused(0, &[], DROP_DOWN, NOT_NOW),
    ),
    (
        "nothing to drop, up",
        Trial::Refused(0, &[], DROP_UP, NOT_NOW),
    ),
    (
        "an open cell",
        Trial::Refused(ASKED, &[], DROP_DOWN, NOT_NOW),
    ),
    (
        "an open cell with its answer",
        Trial::Refused(ANSWERED, &[], DROP_DOWN, NOT_NOW),
    ),
    (
        "an open cell, up",
        Trial::Refused(DATA_ASKED, &[], DROP_UP, NOT_NOW),
    ),
    (
        "an open cell with its answer, up",
        Trial::Refused(DATA_ANSWERED, &[], DROP_UP, NOT_NOW),
    ),
    (
        "dropped",
        Trial::Refused(ASKED, &[CANCEL, DROP_DOWN], DROP_DOWN, NOT_NOW),
    ),
    (
        "a device that is idle",
        Trial::Refused(0, &[], TIME_OUT_DEVICE, NOT_NOW),
    ),
    (
        "a device that is asked",
        Trial::Refused(ASKED, &[], TIME_OUT_DEVICE, NOT_NOW),
    ),
    (
        "a session that is Idle",
        Trial::Refused(0, &[], TIME_OUT_SESSION, NOT_NOW),
    ),
    (
        "a session that is Done",
        Trial::Refused(WHOLE, &[], TIME_OUT_SESSION, NOT_NOW),
    ),
    (
        "a session that failed",
        Trial::Refused(ASKED, &[GIVE_UP_DOWN], TIME_OUT_SESSION, NOT_NOW),
    ),
    // The operator's calls.
    ("in Query", Trial::Refused(1, &[], START, REFUSED)),
    ("in Download", Trial::Refused(DOWNLOAD, &[], START, REFUSED)),
    (
        "in AllApplied",
        Trial::Refused(ALL_APPLIED, &[], START, REFUSED),
    ),
    (
        "in Activate",
        Trial::Refused(ACTIVATING, &[], START, REFUSED),
    ),
    (
        "in Cancelling",
        Trial::Refused(ASKED, &[CANCEL], START, REFUSED),
    ),
    (
        "package 0",
        Trial::Refused(0, &[], MessageStep::Start(DEVICE, 0), REFUSED),
    ),
    (
        "package 2 of 1",
        Trial::Refused(0, &[], MessageStep::Start(DEVICE, 2), REFUSED),
    ),
    (
        "package 0 behind an update",
        Trial::Refused(WHOLE, &[], MessageStep::Start(DEVICE, 0), REFUSED),
    ),
    ("in Idle", Trial::Refused(0, &[], ACTIVATE, REFUSED)),
    ("in Query", Trial::Refused(1, &[], ACTIVATE, REFUSED)),
    (
        "in Download",
        Trial::Refused(DOWNLOAD, &[], ACTIVATE, REFUSED),
    ),
    ("in Apply", Trial::Refused(APPLIED, &[], ACTIVATE, REFUSED)),
    (
        "in Activate",
        Trial::Refused(ACTIVATING, &[], ACTIVATE, REFUSED),
    ),
    ("in Done", Trial::Refused(WHOLE, &[], ACTIVATE, REFUSED)),
    (
        "in Cancelling",
        Trial::Refused(ALL_APPLIED, &[CANCEL], ACTIVATE, REFUSED),
    ),
    // A step of no device is known before all else.
    ("no device NOBODY, step 0", Trial::NoDevice(0, NOBODY)),
    ("no device AGENT, step 0", Trial::NoDevice(0, AGENT)),
    (
        "no device NOBODY, step ASKED",
        Trial::NoDevice(ASKED, NOBODY),
    ),
    ("no device AGENT, step ASKED", Trial::NoDevice(ASKED, AGENT)),
    (
        "no device NOBODY, step DATA_ASKED",
        Trial::NoDevice(DATA_ASKED, NOBODY),
    ),
    (
        "no device AGENT, step DATA_ASKED",
        Trial::NoDevice(DATA_ASKED, AGENT),
    ),
    (
        "a replay stops at the first step that is refused",
        Trial::Stops,
    ),
    // A stale completion records nothing: the device gets the refusal, or is cancelled before.
    (
        "the refusal is learnt",
        Trial::Late(&[LEARN_UP, ASK_DOWN, TAKE_BUSY, LEARN_DOWN]),
    ),
    (
        "cancelled before",
        Trial::Late(&[ASK_DOWN, TAKE_BUSY, LEARN_DOWN, DROP_UP]),
    ),
    ("an update at the greater unit asks once", Trial::Long),
    // A session fails when its asker gives up: the device never takes the command, or takes it
    // later.
    ("never taken", Trial::GivesUp(&[DROP_DOWN])),
    ("taken later", Trial::GivesUp(&[TAKE_DOWN, DROP_DOWN])),
];

/// Whether a trial holds with these packages.
fn tries<'a>(alloc: Global, packages: &'a [Package<'a>], trial: Trial<'_>) -> bool {
    match trial {
        Trial::Refused(count, then, step, fault) => {
            is_refused(alloc, packages, (count, then), step, fault)
        }
        Trial::NoDevice(count, eid) => is_no_device(alloc, packages, count, eid),
        Trial::Stops => stop_there(alloc, packages),
        Trial::Late(then) => is_refused_late(alloc, packages, then),
        Trial::Long => goes_long(alloc, packages),
        Trial::GivesUp(then) => gives_up(alloc, packages, then),
    }
}

/// Whether a trial holds with the worked package.
fn holds(alloc: Global, trial: Trial<'_>) -> bool {
    let Ok(bytes) = file(alloc, ONE) else {
        return false;
    };
    let Ok(package) = package(&bytes) else {
        return false;
    };
    tries(alloc, std::slice::from_ref(&package), trial)
}

#[test]
fn a_world_does_as_each_row_says(rt: HostRuntime) {
    for (situation, trial) in &ROWS {
        assert!(rt; holds(rt.alloc(), *trial), "{situation}");
    }
}
