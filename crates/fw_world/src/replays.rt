//! Replays of steps of the packet world.

ghost use Rattle.std.specs.Prelude.{◌≡◌, ◌<◌, IfErr, IfSome, List, OnOk, length, slice_get, take, true, ℕ};
ghost use Rattle.fw_steps.specs.Clocks.{KeepsTime};
ghost use Rattle.fw_steps.specs.Opening.{IsOpeningWorld};
ghost use Rattle.fw_steps.specs.Promises.{IsPromised, IsSafeWorld};
ghost use Rattle.fw_steps.specs.Steps.{IsAfterSteps, Run, is_node};
ghost use Rattle.fw_steps.specs.Moments.{GrowsHistory, IsTiedBetween};
ghost use Rattle.fw_steps.specs.Replays.{RefusesStep};
ghost use Rattle.fw_steps.specs.Worlds.{WorldOf};
ghost use Rattle.fw_steps.specs.declared.step.Step.{Step};

use fd_core::Bank;
use fw_steps::{Step, StepFault, World, clocks_keep_time, moments_are_tied, packets_are_safe};

/// Takes these steps in order: deliveries of packets in any order, any number of times or never,
/// ticks, the operator's calls, verdicts, restarts and requests to the event log.
///
/// The history of each device is then safe and tied (`promised`). Safe: the images that a device
/// activates at once are those that one package names for it, each recorded since the device's
/// previous activation, and each record has its own application before it. Tied: the images that
/// run on a device and the agent's records are those of the history. Steps over whole messages give
/// the same devices, sessions and history.
///
/// The moments before and after the call are tied too: the history has only grown, and the running
/// images, the applied images and the records are those of before, changed by the entries since
/// (`grown`, `tied`). So are any two moments of any run (`moments`).
///
/// Each node keeps time: it counts at most as many ticks as units of time pass, and the units are
/// at most its ticks, plus an eighth of them, rounded down, plus one. This holds in this call
/// (`clocks`, `clocks_stopped`) and between any two moments (`time`).
///
/// # Errors
/// The number of the step that isn't taken, counted from 0, and the cause: `NoSuchNode`, then
/// `NoSuchPacket`, then `Dead`; for the operator's calls `NoSuchPackage` before `Busy`, and
/// `NotReady`; `NotNow` for a verdict; `ClockEnd`, then `ClockSlow` for a tick; and `Memory` for a
/// step that is allowed. The world is the one after the steps before it.
pub fn replay<B: Bank + Drop>(
    world: &mut World<'_, B>,
    steps: &[Step],
) -> Result<(), (usize, StepFault)>
    ensures ok { OnOk result (Run world.old steps.now world.new) }
    ensures stopped { IfErr result (λ e. (e.0 < length steps.now)
        × Run world.old (take e.0 steps.now) world.new
        × IfSome (slice_get steps.now e.0) (λ s. RefusesStep world.new s e.1)) }
    ensures grown { GrowsHistory world.old world.new }
    ensures tied { IsTiedBetween world.old world.new }
    ensures moments { (opening earlier later : WorldOf) (before between : List Step)
        → IsOpeningWorld opening
        → Run opening before earlier
        → Run earlier between later
        → IsSafeWorld opening later × IsTiedBetween earlier later }
    ensures clocks { OnOk result ((eid : ℕ) → is_node world.old eid ≡ true → KeepsTime eid steps.now) }
    ensures clocks_stopped { IfErr result (λ e. (eid : ℕ) → is_node world.old eid ≡ true → KeepsTime eid (take e.0 steps.now)) }
    ensures time { (opening earlier later : WorldOf) (before between : List Step)
        → IsOpeningWorld opening
        → Run opening before earlier
        → Run earlier between later
        → (eid : ℕ)
        → is_node earlier eid ≡ true
        → KeepsTime eid between }
    ensures promised { IsPromised world.new }
{
    packets_are_safe();
    moments_are_tied();
    clocks_keep_time();
    world.is_promised();
    let taken = take_all(world, steps);
    world.is_promised();
    taken
}

/// Takes these steps in order, up to the first that isn't taken.
fn take_all<B: Bank + Drop>(
    world: &mut World<'_, B>,
    steps: &[Step],
) -> Result<(), (usize, StepFault)>
    ensures ok { OnOk result (Run world.old steps.now world.new) }
    ensures stopped { IfErr result (λ e. (e.0 < length steps.now)
        × Run world.old (take e.0 steps.now) world.new
        × IfSome (slice_get steps.now e.0) (λ s. RefusesStep world.new s e.1)) }
    ensures led { IsAfterSteps world.old world.new }
{
    for (i, step) in steps.iter().enumerate() {
        match world.step(step) {
            Ok(()) => {}
            Err(fault) => return Err((i, fault)),
        }
    }
    Ok(())
}
