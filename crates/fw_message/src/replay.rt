//! Replays of steps over whole messages.

ghost use Rattle.std.specs.Prelude.{◌≡◌, ◌<◌, IfErr, IfSome, List, OnOk, length, slice_get, take};
ghost use Rattle.fw_message.specs.Replays.{CountedWorldOf, RefusesMessageStep, MessageRun};
ghost use Rattle.fw_message.specs.RunLaws.{GrowsMessageHistory, IsMessageWorldTiedBetween};
ghost use Rattle.fw_message.specs.WorldLaws.{IsOpeningMessageWorld, IsSafeMessageWorld};
ghost use Rattle.fw_message.specs.declared.step.MessageStep.{MessageStep};

use crate::laws::{runs_stay_tied, worlds_are_safe};
use crate::messages::MessageWorld;
use crate::step::{MessageStep, MessageStepFault};
use fd_core::Bank;

/// Takes these steps in order. For a world that began as constructed and any calls on it, the
/// history is safe and tied, and only grows. Safe: the images that a device activates at once are
/// those that one package names for it, each recorded since the device's previous activation, and
/// each record has its own application before it. Tied: the images that run on a device and the
/// agent's records are those of the history, also between two moments of this call.
///
/// # Errors
/// The number of the step that isn't taken, counted from 0, and the cause: `NoSuchNode`, else
/// `NotNow` or `Refused`, else `Memory`, at a Start or a step that adds to the history. The world
/// is the one after the steps before it.
pub fn message_replay<B: Bank + Drop>(
    world: &mut MessageWorld<'_, B>,
    steps: &[MessageStep],
) -> Result<(), (usize, MessageStepFault)>
    ensures ok { OnOk result (MessageRun world.old steps.now world.new) }
    ensures stopped { IfErr result (λ e. (e.0 < length steps.now)
        × MessageRun world.old (take e.0 steps.now) world.new
        × IfSome (slice_get steps.now e.0) (λ s. RefusesMessageStep world.new.world s e.1)) }
    ensures grown { GrowsMessageHistory world.old.world world.new.world }
    ensures tied { (opening : CountedWorldOf) (before : List MessageStep)
        → IsOpeningMessageWorld opening.world
        → MessageRun opening before world.old
        → IsMessageWorldTiedBetween world.old.world world.new.world }
    ensures safe { (opening : CountedWorldOf) (before : List MessageStep)
        → IsOpeningMessageWorld opening.world
        → MessageRun opening before world.old
        → IsSafeMessageWorld opening.world world.new.world }
{
    worlds_are_safe();
    runs_stay_tied();
    for (i, step) in steps.iter().enumerate() {
        match world.step(*step) {
            Ok(_) => {}
            Err(fault) => return Err((i, fault)),
        }
    }
    Ok(())
}
