//! Steps of a run, each taken and listed.

ghost use Rattle.std.specs.Prelude.{[], ◌≡◌, ◌≢◌, ◌-◌, ◌^◌, ◌++◌, ◌∷◌, IfErr, IfSome, None, OnErr, OnOk, Some, is_some, slice_get, true, vec_capacity, vec_len};
ghost use Rattle.fw_edge.specs.Drives.{Drives, DrivesCounted, all_over, deliver_in, is_driven, is_good, is_over, tick_in};
ghost use Rattle.fw_edge.specs.Ledgers.{packet_counts};
ghost use Rattle.fw_edge.specs.Outcomes.{LacksMemory, SentNone, StepErr, StepsErr};
ghost use Rattle.fw_edge.specs.Turns.{TakesAll, TakesIf, activation_for, all_due, awaited_in, due_at, verdict_for};
ghost use Rattle.fw_node.specs.Agents.{half_for, ready_for};
ghost use Rattle.fw_steps.specs.Steps.{StepsTo, may_step};
ghost use Rattle.fw_steps.specs.Worlds.{eids_of, full_tick, site_for};
ghost use Rattle.fw_steps.specs.declared.step.Step.{Step};

use crate::driving::EdgeFault;
use fd_core::{Bank, Verdict};
use fw_message::awaits;
use fw_world::{Missed, Step, World};
use ua_core::SessionState;

/// Takes a step that the world allows, and appends it to `steps`. The room for it is reserved
/// first.
///
/// # Errors
/// `Memory` if memory is refused; nothing has changed then.
pub(crate) fn take<B: Bank + Drop>(
    world: &mut World<'_, B>,
    steps: &mut Vec<Step>,
    step: Step,
) -> Result<(), EdgeFault>
    requires may { may_step world.old step ≡ None }
    requires driven { is_driven step ≡ true }
    ensures leads { OnOk result (StepsTo world.old step world.new) }
    ensures listed { OnOk result (steps.new.items ≡ steps.old.items ++ step ∷ []) }
    ensures goes { OnOk result (DrivesCounted world.old steps.old.items world.new steps.new.items
        (tick_in step) (deliver_in step)) }
    ensures same { OnErr result (world.new ≡ world.old) }
    ensures unlisted { OnErr result (steps.new.items ≡ steps.old.items) }
    ensures fault { IfErr result (λ e. e ≡ EdgeFault.Memory) }
    ensures lacked { OnErr result (LacksMemory step (vec_len steps.old) (vec_capacity steps.old) (vec_capacity steps.new)) }
{
    let Ok(()) = steps.reserve(1) else {
        return Err(EdgeFault::Memory);
    };
    match world.step(&step) {
        Ok(()) => {}
        Err(_) => return Err(EdgeFault::Memory),
    }
    let _ = steps.push(step);
    Ok(())
}

/// Takes a tick that no node misses.
///
/// # Errors
/// `Step` if the clock is at its last tick, and `Memory` if memory is refused; nothing has changed
/// then.
#[tactic(auto, using(crate::proofs::Full::full_may))]
pub(crate) fn tick<B: Bank + Drop>(
    world: &mut World<'_, B>,
    steps: &mut Vec<Step>,
) -> Result<(), EdgeFault>
    ensures tick { OnOk result (TakesIf world.old steps.old.items (Some full_tick) world.new steps.new.items) }
    ensures goes { OnOk result (DrivesCounted world.old steps.old.items world.new steps.new.items 1 0) }
    ensures same { OnErr result (world.new ≡ world.old) }
    ensures unlisted { OnErr result (steps.new.items ≡ steps.old.items) }
    ensures fault { IfErr result (λ e. e ≢ EdgeFault.Frame) }
    ensures end { IfErr result (λ e. e ≡ EdgeFault.Step → world.old.now ≡ 2 ^ 32 - 1) }
    ensures before_end { IfErr result (λ e. e ≢ EdgeFault.Step → world.old.now ≢ 2 ^ 32 - 1) }
    ensures on { OnOk result (world.old.now ≢ 2 ^ 32 - 1) }
{
    if world.now() == u32::MAX {
        return Err(EdgeFault::Step);
    }
    take(world, steps, Step::Tick(Missed::new()))
}

/// The verdict that a device waits for; it is always a success.
fn awaited<B: Bank + Drop>(world: &World<'_, B>, device: u8) -> Option<Verdict>
    ensures may { IfSome result (λ v. may_step world.now (Step.Verdict device v) ≡ None) }
    ensures good { IfSome result (λ v. is_good v ≡ true) }
    ensures awaited { result ≡ awaited_in (site_for world.now.sites device) }
{
    let Some(node) = world.device(device) else {
        return None;
    };
    if awaits(node.device(), Verdict::VerifyOk) {
        return Some(Verdict::VerifyOk);
    }
    if awaits(node.device(), Verdict::ApplyOk) {
        return Some(Verdict::ApplyOk);
    }
    None
}

/// Whether the session with a device waits for the operator's activation.
fn is_ready<B: Bank + Drop>(world: &World<'_, B>, device: u8) -> bool
    ensures may { result ≡ true → may_step world.now (Step.Activate device) ≡ None }
    ensures ready { result ≡ is_some (ready_for world.now.agent device) }
{
    match world.agent().session(device) {
        Some(session) => session.state() == SessionState::AllApplied,
        None => false,
    }
}

/// Gives the device at `place` the verdict that it waits for, if any.
#[tactic(auto, using(crate::proofs::Gaining::verdict_sends_none))]
fn judge<B: Bank + Drop>(
    world: &mut World<'_, B>,
    place: usize,
    steps: &mut Vec<Step>,
) -> Result<(), EdgeFault>
    ensures due { OnOk result (TakesIf world.old steps.old.items
        (due_at verdict_for world.old (slice_get world.old.sites place)) world.new
        steps.new.items) }
    ensures quiet { OnOk result (SentNone world.old steps.old.items world.new steps.new.items) }
    ensures refused { IfErr result (λ e. StepErr e world.old steps.old.items world.new steps.new.items) }
    ensures one { OnErr result (is_some (due_at verdict_for world.old (slice_get world.old.sites place)) ≡ true) }
    ensures lacked { OnErr result (IfSome (due_at verdict_for world.old
        (slice_get world.old.sites place)) (λ s. LacksMemory s (vec_len steps.old)
        (vec_capacity steps.old) (vec_capacity steps.new))) }
{
    let Some(node) = world.device_at(place) else {
        return Ok(());
    };
    let device = node.eid();
    let Some(verdict) = awaited(world, device) else {
        return Ok(());
    };
    take(world, steps, Step::Verdict(device, verdict))
}

/// Activates the session with the device at `place`, if it waits for that.
#[tactic(auto, using(crate::proofs::Gaining::activation_sends_none))]
fn activate<B: Bank + Drop>(
    world: &mut World<'_, B>,
    place: usize,
    steps: &mut Vec<Step>,
) -> Result<(), EdgeFault>
    ensures due { OnOk result (TakesIf world.old steps.old.items
        (due_at activation_for world.old (slice_get world.old.sites place)) world.new
        steps.new.items) }
    ensures quiet { OnOk result (SentNone world.old steps.old.items world.new steps.new.items) }
    ensures refused { IfErr result (λ e. StepErr e world.old steps.old.items world.new steps.new.items) }
    ensures one { OnErr result (is_some (due_at activation_for world.old (slice_get world.old.sites place)) ≡ true) }
    ensures lacked { OnErr result (IfSome (due_at activation_for world.old
        (slice_get world.old.sites place)) (λ s. LacksMemory s (vec_len steps.old)
        (vec_capacity steps.old) (vec_capacity steps.new))) }
{
    let Some(node) = world.device_at(place) else {
        return Ok(());
    };
    let device = node.eid();
    if !is_ready(world, device) {
        return Ok(());
    }
    take(world, steps, Step::Activate(device))
}

/// Gives each waiting device its verdict, in configured order.
pub(crate) fn judge_all<B: Bank + Drop>(
    world: &mut World<'_, B>,
    steps: &mut Vec<Step>,
) -> Result<(), EdgeFault>
    ensures due { OnOk result (TakesAll world.old steps.old.items
        (all_due verdict_for world.old (eids_of world.old.sites)) world.new steps.new.items) }
    ensures quiet { OnOk result (SentNone world.old steps.old.items world.new steps.new.items) }
    ensures stopped { IfErr result (λ e. StepsErr e (all_due verdict_for world.old
        (eids_of world.old.sites)) world.old steps.old.items world.new steps.new.items) }
{
    world.is_promised();
    for place in 0..world.device_count() {
        match judge(world, place, steps) {
            Ok(()) => {}
            Err(fault) => return Err(fault),
        }
    }
    Ok(())
}

/// Activates each waiting session, in configured order.
pub(crate) fn activate_all<B: Bank + Drop>(
    world: &mut World<'_, B>,
    steps: &mut Vec<Step>,
) -> Result<(), EdgeFault>
    ensures due { OnOk result (TakesAll world.old steps.old.items
        (all_due activation_for world.old (eids_of world.old.sites)) world.new steps.new.items) }
    ensures quiet { OnOk result (SentNone world.old steps.old.items world.new steps.new.items) }
    ensures stopped { IfErr result (λ e. StepsErr e (all_due activation_for world.old
        (eids_of world.old.sites)) world.old steps.old.items world.new steps.new.items) }
{
    world.is_promised();
    for place in 0..world.device_count() {
        match activate(world, place, steps) {
            Ok(()) => {}
            Err(fault) => return Err(fault),
        }
    }
    Ok(())
}

/// Whether the session with a device is Done or Failed, or there is none.
fn is_over<B: Bank + Drop>(world: &World<'_, B>, device: u8) -> bool
    ensures { result ≡ is_over (half_for world.now.agent device) }
{
    match world.agent().session(device) {
        Some(session) => matches!(
            session.state(),
            SessionState::Done | SessionState::Failed(_)
        ),
        None => true,
    }
}

/// Whether each session is Done or Failed.
pub(crate) fn all_over<B: Bank + Drop>(world: &World<'_, B>) -> bool
    ensures { result ≡ all_over world.now }
{
    for place in 0..world.device_count() {
        let Some(node) = world.device_at(place) else {
            return true;
        };
        if !is_over(world, node.eid()) {
            return false;
        }
    }
    true
}
