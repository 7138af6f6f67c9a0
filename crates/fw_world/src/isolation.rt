//! Two replays in two worlds: the state between the agent and a device depends on no other device.

ghost use Rattle.std.specs.Prelude.{◌≡◌, ◌<◌, IfErr, IfSome, IsOk, OnOk, length, slice_get, take};
ghost use Rattle.fw_steps.specs.Steps.{Run};
ghost use Rattle.fw_steps.specs.Isolation.{AgreeIn, IsUnfailed, steps_of};
ghost use Rattle.fw_steps.specs.Replays.{RefusesStep};

use crate::replays::replay;
use fd_core::Bank;
use fw_steps::{Step, StepFault, World, devices_are_isolated};

/// Takes the first steps in the first world, then the second steps in the second world, each as
/// `replay` does. Returns both results.
///
/// A silent or broken device changes nothing between the agent and another device. If the worlds
/// agree in a device, the same steps of both schedules concern it, all steps are taken, and in
/// neither world its bank's count of failures rises or is at its last value, then the worlds agree
/// in the device afterwards. The other devices, their number, their steps and the event log may
/// differ.
///
/// # Errors
/// In each result those of `replay`, for its own world and steps.
pub fn replay_two<'a, 'b, B: Bank + Drop>(
    first: &mut World<'a, B>,
    first_steps: &[Step],
    second: &mut World<'b, B>,
    second_steps: &[Step],
    device: u8,
) -> (
    Result<(), (usize, StepFault)>,
    Result<(), (usize, StepFault)>,
)
    ensures first_ok { OnOk result.0 (Run first.old first_steps.now first.new) }
    ensures first_stopped { IfErr result.0 (λ e. (e.0 < length first_steps.now)
        × Run first.old (take e.0 first_steps.now) first.new
        × IfSome (slice_get first_steps.now e.0) (λ s. RefusesStep first.new s e.1)) }
    ensures second_ok { OnOk result.1 (Run second.old second_steps.now second.new) }
    ensures second_stopped { IfErr result.1 (λ e. (e.0 < length second_steps.now)
        × Run second.old (take e.0 second_steps.now) second.new
        × IfSome (slice_get second_steps.now e.0) (λ s. RefusesStep second.new s e.1)) }
    ensures isolated { AgreeIn device first.old second.old
        → steps_of first.old device first_steps.now ≡ steps_of second.old device second_steps.now
        → IsOk result.0
        → IsOk result.1
        → IsUnfailed device first.old first.new
        → IsUnfailed device second.old second.new
        → AgreeIn device first.new second.new }
{
    devices_are_isolated();
    first.is_promised();
    second.is_promised();
    let first_result = replay(first, first_steps);
    let second_result = replay(second, second_steps);
    (first_result, second_result)
}
