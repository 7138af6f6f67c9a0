//! The steps of the worked update.

use crate::messages::setup::{Small, join, opening};
use crate::worked::{AGENT, DEVICE};
use fd_core::Verdict;
use fw_message::{MessageStep, MessageStepFault, Side, Way, message_replay};
use fw_package::Package;
use std::alloc::Global;

pub const ASK_DOWN: MessageStep = MessageStep::Ask(DEVICE, Way::Down);

pub const TAKE_DOWN: MessageStep = MessageStep::Take(DEVICE, Way::Down, true);

pub const LEARN_DOWN: MessageStep = MessageStep::Learn(DEVICE, Way::Down);

pub const GIVE_UP_DOWN: MessageStep = MessageStep::GiveUp(DEVICE, Way::Down);

pub const DROP_DOWN: MessageStep = MessageStep::Drop(DEVICE, Way::Down);

pub const ASK_UP: MessageStep = MessageStep::Ask(DEVICE, Way::Up);

pub const TAKE_UP: MessageStep = MessageStep::Take(DEVICE, Way::Up, true);

pub const LEARN_UP: MessageStep = MessageStep::Learn(DEVICE, Way::Up);

pub const GIVE_UP_UP: MessageStep = MessageStep::GiveUp(DEVICE, Way::Up);

pub const DROP_UP: MessageStep = MessageStep::Drop(DEVICE, Way::Up);

pub const START: MessageStep = MessageStep::Start(DEVICE, 1);

pub const CANCEL: MessageStep = MessageStep::Cancel(DEVICE);

pub const VERIFY_OK: MessageStep = MessageStep::Verdict(DEVICE, Verdict::VerifyOk);

pub const APPLY_OK: MessageStep = MessageStep::Verdict(DEVICE, Verdict::ApplyOk);

pub const ACTIVATE: MessageStep = MessageStep::Activate(DEVICE);

pub const TIME_OUT_SESSION: MessageStep = MessageStep::TimeOut(DEVICE, Side::Agent);

pub const TIME_OUT_DEVICE: MessageStep = MessageStep::TimeOut(DEVICE, Side::Device);

pub const RESTART_AGENT: MessageStep = MessageStep::Restart(AGENT);

/// The device takes a command; its own cell isn't empty.
pub const TAKE_BUSY: MessageStep = MessageStep::Take(DEVICE, Way::Down, false);

/// The number of worked steps before the first request is answered: Start and the request.
pub const ASKED: usize = 2;
/// The number before its answer is received.
pub const ANSWERED: usize = 3;
/// The number before the first request for data.
pub const DOWNLOAD: usize = 19;
/// The number before that is answered.
pub const DATA_ASKED: usize = 20;
/// The number before its answer is received.
pub const DATA_ANSWERED: usize = 21;
/// The number before the verdict ApplyOk.
pub const APPLY: usize = 32;
/// The number after it.
pub const APPLIED: usize = 33;
/// The number before ApplyComplete is answered.
pub const COMPLETE_ASKED: usize = 34;
/// The number before Activate.
pub const ALL_APPLIED: usize = 36;
/// The number after it.
pub const ACTIVATING: usize = 37;
/// The number of all worked steps.
pub const WHOLE: usize = 40;

/// The forty steps of an update of one component of 241 bytes. The agent sends
/// QueryDeviceIdentifiers, GetFirmwareParameters, CancelUpdate, RequestUpdate, PassComponentTable
/// and UpdateComponent, and ActivateFirmware at the end. The device sends two RequestFirmwareData
/// and TransferComplete, then VerifyComplete, then ApplyComplete.
pub fn worked() -> [MessageStep; WHOLE] {
    let (a, b, c) = (ASK_DOWN, TAKE_DOWN, LEARN_DOWN);
    let (x, y, z) = (ASK_UP, TAKE_UP, LEARN_UP);
    [
        START, a, b, c, a, b, c, a, b, c, a, b, c, a, b, c, a, b, c, x, y, z, x, y, z, x, y, z,
        VERIFY_OK, x, y, z, APPLY_OK, x, y, z, ACTIVATE, a, b, c,
    ]
}

/// The steps of the same update at the unit of 128 bytes, where one RequestFirmwareData requests
/// the whole image.
pub fn worked_long() -> [MessageStep; 37] {
    let (a, b, c) = (ASK_DOWN, TAKE_DOWN, LEARN_DOWN);
    let (x, y, z) = (ASK_UP, TAKE_UP, LEARN_UP);
    [
        START, a, b, c, a, b, c, a, b, c, a, b, c, a, b, c, a, b, c, x, y, z, x, y, z, VERIFY_OK,
        x, y, z, APPLY_OK, x, y, z, ACTIVATE, a, b, c,
    ]
}

/// `message_replay`; its contract isn't needed in the proofs of the tests.
pub fn replay(
    world: &mut Small<'_>,
    steps: &[MessageStep],
) -> Result<(), (usize, MessageStepFault)> {
    message_replay(world, steps)
}

/// Returns whether each step is taken.
pub fn takes(world: &mut Small<'_>, steps: &[MessageStep]) -> bool {
    replay(world, steps).is_ok()
}

/// Returns whether each of the first `count` worked steps is taken.
pub fn takes_worked(world: &mut Small<'_>, count: usize) -> bool {
    takes(world, worked().get(..count).unwrap_or(&[]))
}

/// The world after the first worked steps, and then these.
pub fn led<'a>(
    alloc: Global,
    packages: &'a [Package<'a>],
    count: usize,
    then: &[MessageStep],
) -> Result<Small<'a>, MessageStepFault> {
    let mut world = opening(alloc, packages);
    join(alloc, &mut world, DEVICE)?;
    if takes_worked(&mut world, count) && takes(&mut world, then) {
        Ok(world)
    } else {
        Err(MessageStepFault::NotNow)
    }
}

/// All steps that the worked device and its session may take next, with good verdicts.
static ROUND: [MessageStep; 12] = [
    ASK_DOWN, TAKE_DOWN, TAKE_BUSY, LEARN_DOWN, DROP_DOWN, ASK_UP, TAKE_UP, LEARN_UP, DROP_UP,
    VERIFY_OK, APPLY_OK, ACTIVATE,
];

/// Takes steps of the worked device as long as one is taken.
pub fn go_on(world: &mut Small<'_>) {
    for _ in 0..40 {
        try_each(world, &ROUND);
    }
}

/// Takes each step that is allowed.
fn try_each(world: &mut Small<'_>, steps: &[MessageStep]) {
    for step in steps {
        let _ = takes(world, &[*step]);
    }
}
