//! Updates devices over links.

ghost use Rattle.std.specs.Prelude.{[], ◌≡◌, ◌≢◌, ◌-◌, ◌^◌, ◌⊎◌, Bool, Err, IfErr, IfSome, List, None, OnOk, Some, is_some, length, map, true, ℕ};
ghost use Rattle.fw_edge.specs.Ledgers.{AllSent, packet_counts};
ghost use Rattle.fw_edge.specs.Links.{CountsOne};
ghost use Rattle.fw_steps.specs.Steps.{Run};
ghost use Rattle.fwupd_base.specs.PackageChoices.{number_for};
ghost use Rattle.fwupd_watch.specs.Histories.{HasHistoryLinesIfAny, MayHaveHistoryLines, HasNoLines, AppendsToHistory, MayAppendToHistory};
ghost use Rattle.fwupd_watch.specs.Recordings.{WritesHeldTicksIfAny, IsNewRecording, HasRecordedSteps, RecordsStepsIfAny, RecordsRun};
ghost use Rattle.fwupd_watch.specs.Running.{ReportsLinkFailures, IsCaused, IsRefusedStart, HasObserverFault, HasStarted, UpdateOk, MayEnd, MayRefuse, MayStart, StartsUpdates, RunsSteps, RunsStepsSeen, UpdatesDevices, show_of, shown_of, starts_of, job_fault_of_observer, job_fault_of, observer_fault_of};

use crate::faults::{JobFault, edge_fault};
use fd_core::Bank;
use fw_edge::{EdgeFault, Link, drive};
use fw_script::schedules_read_back;
use fw_world::{Step, StepFault, World, moments_are_tied};
use fwupd_base::{PackageChoice, Show};
use std::alloc::Global;

/// The most turns of a run; three images of the largest size take about 66,000.
const TURNS: u32 = 80_000;

/// Why an observer stops a run.
#[derive(Clone, Copy, PartialEq, Eq)]
pub enum ObserverFault {
    /// The trace of packets can't be written.
    Unwritten,
    /// The event log's records can't be written.
    Unlogged,
    /// The record of steps can't be written.
    Unrecorded,
    /// The history of the stores can't be written.
    Unkept,
    /// Memory was refused.
    Memory,
}

/// An observer of a run. After its first fault every later call returns that fault.
pub trait Observer {
    ghost use Rattle.fw_edge.specs.Links.{CountsOne};
    ghost use Rattle.fwupd_watch.specs.Running.{IsOfShown, ObserverOf};

    ghost watched: { Self → ObserverOf };

    ghost refuses: { Self → List ℕ → Bool };

    /// Opens the requested outputs.
    ///
    /// # Errors
    /// The fault of an output that can't be opened, or `Memory`. In contracts, `refuses` are the
    /// paths that may fail to open.
    fn begin(&mut self, show: Show<'_>) -> Result<(), ObserverFault>
        ensures shows { OnOk result ((watched self.new).shows ≡ shown_of (show_of show.entry)) }
        ensures anew { OnOk result (((watched self.new).seen ≡ 0) × ((watched self.new).lost ≡ None)) }
        ensures recording { OnOk result (IfSome (watched self.new).recording IsNewRecording) }
        ensures history { OnOk result (IfSome (watched self.new).history HasNoLines) }
        ensures err { IfErr result (λ e. (watched self.new).fault ≡ Some e) }
        ensures refused { IfErr result (λ e. e ≢ ObserverFault.Memory
            → MayRefuse (refuses self.old) (show_of show.entry) (job_fault_of_observer e)) };

    /// Records the steps that were taken, if that is requested.
    ///
    /// # Errors
    /// The observer's first fault: an earlier one, or that the steps can't be written or a schedule
    /// can't encode one of them, or that memory is refused.
    fn note(&mut self, steps: &[Step]) -> Result<(), ObserverFault>
        ensures ok { OnOk result ((watched self.new).fault ≡ None) }
        ensures err { IfErr result (λ e. (watched self.new).fault ≡ Some e) }
        ensures first { IfSome (watched self.old).fault (λ f. result ≡ Err f) }
        ensures cause { IfErr result (λ e. (watched self.old).fault ≡ None
            → (e ≡ ObserverFault.Memory)
            ⊎ ((e ≡ ObserverFault.Unrecorded) × ((watched self.old).shows.is_recorded ≡ true))) }
        ensures noted { OnOk result (RecordsStepsIfAny (watched self.old).recording (watched self.new).recording steps.now) }
        ensures history { (watched self.new).history ≡ (watched self.old).history }
        ensures same { (watched self.new).shows ≡ (watched self.old).shows }
        ensures seen { (watched self.new).seen ≡ (watched self.old).seen }
        ensures lost { (watched self.new).lost ≡ (watched self.old).lost };

    /// Observes the world after a turn. The history of the turn is written before the next turn
    /// begins, and never before its events.
    ///
    /// # Errors
    /// The observer's first fault: an earlier one, or that an output can't be written, or that
    /// memory is refused.
    fn see<B: Bank + Drop>(&mut self, world: &World<'_, B>) -> Result<(), ObserverFault>
        ensures ok { OnOk result ((watched self.new).fault ≡ None) }
        ensures err { IfErr result (λ e. (watched self.new).fault ≡ Some e) }
        ensures first { IfSome (watched self.old).fault (λ f. result ≡ Err f) }
        ensures cause { IfErr result (λ e. (watched self.old).fault ≡ None → IsOfShown (watched self.old).shows e) }
        ensures same { (watched self.new).shows ≡ (watched self.old).shows }
        ensures seen { CountsOne (watched self.old).seen (watched self.new).seen }
        ensures lost { (watched self.new).lost ≡ (watched self.old).lost }
        ensures recording { (watched self.new).recording ≡ (watched self.old).recording }
        ensures history { OnOk result (AppendsToHistory (watched self.old).history (watched self.new).history world.now.history) }
        ensures history_still { MayAppendToHistory (watched self.old).history (watched self.new).history world.now.history };

    /// Observes that the link of this device failed.
    fn lose(&mut self, device: u8)
        ensures lost { (watched self.new).lost ≡ Some device }
        ensures fault { (watched self.new).fault ≡ (watched self.old).fault }
        ensures same { (watched self.new).shows ≡ (watched self.old).shows }
        ensures seen { (watched self.new).seen ≡ (watched self.old).seen }
        ensures recording { (watched self.new).recording ≡ (watched self.old).recording }
        ensures history { (watched self.new).history ≡ (watched self.old).history }
        ensures ended { (watched self.new).has_ended ≡ (watched self.old).has_ended };

    /// Observes the end of the run, with its last world. The event log's records are written, if
    /// that is requested.
    ///
    /// # Errors
    /// As for `see`; and if the records can't be written.
    fn end<B: Bank + Drop>(&mut self, world: &World<'_, B>) -> Result<(), ObserverFault>
        ensures ok { OnOk result ((watched self.new).fault ≡ None) }
        ensures err { IfErr result (λ e. (watched self.new).fault ≡ Some e) }
        ensures first { IfSome (watched self.old).fault (λ f. result ≡ Err f) }
        ensures cause { IfErr result (λ e. (watched self.old).fault ≡ None → IsOfShown (watched self.old).shows e) }
        ensures same { (watched self.new).shows ≡ (watched self.old).shows }
        ensures seen { (watched self.new).seen ≡ (watched self.old).seen }
        ensures lost { (watched self.new).lost ≡ (watched self.old).lost }
        ensures closed { OnOk result (WritesHeldTicksIfAny (watched self.old).recording (watched self.new).recording) }
        ensures history { (watched self.new).history ≡ (watched self.old).history }
        ensures ended { (watched self.new).has_ended ≡ true };
}

/// Returns the fault of a run whose observer failed.
pub fn observer_fault(fault: ObserverFault) -> JobFault
    ensures told { result ≡ job_fault_of_observer fault }
    ensures ends { MayEnd result }
{
    match fault {
        ObserverFault::Unwritten => JobFault::Trace,
        ObserverFault::Unlogged => JobFault::Log,
        ObserverFault::Unrecorded => JobFault::Record,
        ObserverFault::Unkept => JobFault::History,
        ObserverFault::Memory => JobFault::Memory,
    }
}

/// Starts the update of each device with its package, and lists the steps.
fn start_all<B: Bank + Drop>(
    world: &mut World<'_, B>,
    packages: &PackageChoice,
    steps: &mut Vec<Step>,
) -> Result<(), JobFault>
    requires none { steps.old.items ≡ [] }
    ensures started { OnOk result (StartsUpdates (number_for packages.now) world.old world.new) }
    ensures listed { OnOk result (steps.new.items ≡ starts_of (number_for packages.now) world.old.sites) }
    ensures same { world.new.sites ≡ world.old.sites }
    ensures history { world.new.history ≡ world.old.history }
    ensures reached { RunsSteps (number_for packages.now) world.old world.new }
    ensures unseen_steps { RunsStepsSeen (number_for packages.now) world.old world.new 0 }
    ensures fault { IfErr result MayEnd }
    ensures refused { IfErr result (λ e. e ≡ JobFault.Edge EdgeFault.Step
        → IsRefusedStart (number_for packages.now) world.old world.new) }
    ensures memory { IfErr result (λ e. e ≡ JobFault.Memory
        → (world.new ≡ world.old) ⊎ MayStart (number_for packages.now) world.old world.new) }
    ensures run { Run world.old steps.new.items world.new }
    ensures none { IfErr result (λ e. e ≡ JobFault.Edge EdgeFault.Frame → ⊥) }
    ensures unseen { IfErr result (λ e. observer_fault_of e ≡ None) }
{
    let Ok(()) = steps.reserve(world.device_count()) else {
        return Err(JobFault::Memory);
    };
    for place in 0..world.device_count() {
        let Some(node) = world.device_at(place) else {
            unreachable!()
        };
        let device = node.eid();
        let start = Step::Start(device, packages.number_for(device));
        match world.step(&start) {
            Ok(()) => {}
            Err(StepFault::Memory) => return Err(JobFault::Memory),
            Err(_) => return Err(JobFault::Edge(EdgeFault::Step)),
        }
        let _ = steps.push(start);
    }
    Ok(())
}

/// Lets the observer record the steps of a turn, and observe the world after it.
fn see_turn<B: Bank + Drop, V: Observer>(
    world: &World<'_, B>,
    watch: &mut V,
    steps: &[Step],
) -> Result<(), ObserverFault>
    ensures ok { OnOk result ((V.watched watch.new).fault ≡ None) }
    ensures err { IfErr result (λ e. (V.watched watch.new).fault ≡ Some e) }
    ensures noted { OnOk result (RecordsStepsIfAny (V.watched watch.old).recording (V.watched watch.new).recording steps.now) }
    ensures history { OnOk result (AppendsToHistory (V.watched watch.old).history (V.watched watch.new).history world.now.history) }
    ensures history_still { MayAppendToHistory (V.watched watch.old).history (V.watched watch.new).history world.now.history }
    ensures same { (V.watched watch.new).shows ≡ (V.watched watch.old).shows }
    ensures seen { CountsOne (V.watched watch.old).seen (V.watched watch.new).seen }
    ensures lost { (V.watched watch.new).lost ≡ (V.watched watch.old).lost }
{
    let _ = watch.note(steps);
    watch.see(world)
}

/// The fault of a run if a turn fails. The observer still records its steps, and observes the
/// world; a fault of its own isn't returned then.
fn broken_off<B: Bank + Drop, V: Observer>(
    world: &World<'_, B>,
    watch: &mut V,
    steps: &[Step],
    fault: EdgeFault,
) -> JobFault
    ensures told { result ≡ job_fault_of fault }
    ensures noted { (V.watched watch.new).fault ≡ None
        → RecordsStepsIfAny (V.watched watch.old).recording (V.watched watch.new).recording
        steps.now }
    ensures history_still { MayAppendToHistory (V.watched watch.old).history (V.watched watch.new).history world.now.history }
    ensures same { (V.watched watch.new).shows ≡ (V.watched watch.old).shows }
    ensures seen { CountsOne (V.watched watch.old).seen (V.watched watch.new).seen }
    ensures lost { (V.watched watch.new).lost ≡ (V.watched watch.old).lost }
{
    let _ = see_turn(world, watch, steps);
    edge_fault(fault)
}

/// Updates each device of a new world with its package over its link, turn by turn, until each
/// session is Done or Failed, or for at most 80,000 turns. The observer sees each step and each
/// turn, also a turn in which a link fails.
///
/// # Errors
/// `Edge` if a link failed, a start is refused or the clock is at its last tick; `Memory` if memory
/// is refused; or the observer's fault.
pub fn update_all<B: Bank + Drop, L: Link, V: Observer>(
    alloc: Global,
    world: &mut World<'_, B>,
    packages: &PackageChoice,
    links: &mut [L],
    watch: &mut V,
) -> Result<(), JobFault>
    requires { length links.old ≡ length world.old.sites }
    ensures updated { OnOk result (UpdateOk (number_for packages.now) world.old world.new) }
    ensures reached { RunsSteps (number_for packages.now) world.old world.new }
    ensures fault { IfErr result MayEnd }
    ensures kept { OnOk result (map (λ l. (L.tally l).failures) links.new ≡ map (λ l. (L.tally l).failures) links.old) }
    ensures failed { IfErr result (λ e. ReportsLinkFailures e
        (map (λ l. (L.tally l).failures) links.old) (map (λ l. (L.tally l).failures) links.new)) }
    ensures step { IfErr result (λ e. e ≡ JobFault.Edge EdgeFault.Step
        → IsRefusedStart (number_for packages.now) world.old world.new ⊎ (world.new.now ≡ 2 ^ 32 - 1)) }
    ensures sent { OnOk result (AllSent (packet_counts world.old.sites)
        (packet_counts world.new.sites) (map (λ l. (L.tally l).sent) links.old)
        (map (λ l. (L.tally l).sent) links.new)) }
    ensures devices { length links.new ≡ length world.new.sites }
    ensures unwritten { IfErr result (λ e. HasObserverFault e (V.watched watch.new).fault) }
    ensures begun { IfErr result (λ e. is_some (observer_fault_of e) ≡ true
        → HasStarted (number_for packages.now) world.old world.new) }
    ensures noted { OnOk result (RecordsRun world.old world.new (V.watched watch.old).recording (V.watched watch.new).recording) }
    ensures noted_still { IfErr result (λ e. (V.watched watch.new).fault ≡ None
        → RecordsRun world.old world.new (V.watched watch.old).recording
        (V.watched watch.new).recording) }
    ensures history { OnOk result (HasHistoryLinesIfAny (V.watched watch.old).history
        world.old.history
        → HasHistoryLinesIfAny (V.watched watch.new).history world.new.history) }
    ensures history_still { HasHistoryLinesIfAny (V.watched watch.old).history world.old.history
        → MayHaveHistoryLines (V.watched watch.new).history world.new.history }
    ensures same { (V.watched watch.new).shows ≡ (V.watched watch.old).shows }
    ensures turns { OnOk result ((V.watched watch.old).seen ≡ 0
        → UpdatesDevices (number_for packages.now) world.old world.new (V.watched watch.new).seen) }
    ensures sees { (V.watched watch.old).seen ≡ 0
        → RunsStepsSeen (number_for packages.now) world.old world.new (V.watched watch.new).seen }
    ensures lost { (V.watched watch.new).lost ≡ (V.watched watch.old).lost }
{
    let mut steps = Vec::new(alloc);
    schedules_read_back();
    moments_are_tied();
    let started = start_all(world, packages, &mut steps);
    let noted = watch.note(steps.as_slice());
    match started {
        Ok(()) => {}
        Err(fault) => return Err(fault),
    }
    match noted {
        Ok(()) => {}
        Err(fault) => return Err(observer_fault(fault)),
    }
    steps.clear();
    for _ in 0..TURNS {
        let driven = match drive(world, links, 1, &mut steps) {
            Ok(driven) => driven,
            Err(fault) => return Err(broken_off(world, watch, steps.as_slice(), fault)),
        };
        if driven.turns == 0 {
            return Ok(());
        }
        match see_turn(world, watch, steps.as_slice()) {
            Ok(()) => {}
            Err(fault) => return Err(observer_fault(fault)),
        }
        steps.clear();
    }
    Ok(())
}

/// Updates each device of a new world, and ends the observer, whatever the result of the update.
///
/// # Errors
/// The fault of the update, or else the observer's.
pub fn update_observed<B: Bank + Drop, L: Link, V: Observer>(
    alloc: Global,
    world: &mut World<'_, B>,
    packages: &PackageChoice,
    links: &mut [L],
    watch: &mut V,
) -> Result<(), JobFault>
    requires { length links.old ≡ length world.old.sites }
    ensures updated { OnOk result (UpdateOk (number_for packages.now) world.old world.new) }
    ensures reached { RunsSteps (number_for packages.now) world.old world.new }
    ensures seen { OnOk result ((V.watched watch.new).fault ≡ None) }
    ensures recorded { OnOk result (IfSome (V.watched watch.old).recording IsNewRecording
        → IfSome (V.watched watch.new).recording (HasRecordedSteps world.old world.new)) }
    ensures recorded_still { IfErr result (λ e. (V.watched watch.new).fault ≡ None
        → IfSome (V.watched watch.old).recording IsNewRecording
        → IfSome (V.watched watch.new).recording (HasRecordedSteps world.old world.new)) }
    ensures history { OnOk result (HasHistoryLinesIfAny (V.watched watch.old).history
        world.old.history
        → HasHistoryLinesIfAny (V.watched watch.new).history world.new.history) }
    ensures history_still { HasHistoryLinesIfAny (V.watched watch.old).history world.old.history
        → MayHaveHistoryLines (V.watched watch.new).history world.new.history }
    ensures ended { (V.watched watch.new).has_ended ≡ true }
    ensures devices { length links.new ≡ length world.new.sites }
    ensures same { (V.watched watch.new).shows ≡ (V.watched watch.old).shows }
    ensures turns { OnOk result ((V.watched watch.old).seen ≡ 0
        → UpdatesDevices (number_for packages.now) world.old world.new (V.watched watch.new).seen) }
    ensures sees { (V.watched watch.old).seen ≡ 0
        → RunsStepsSeen (number_for packages.now) world.old world.new (V.watched watch.new).seen }
    ensures lost { (V.watched watch.new).lost ≡ (V.watched watch.old).lost }
    ensures fault { IfErr result (λ e. (e ≡ JobFault.Memory)
        ⊎ IsCaused (number_for packages.now) world.old world.new e (V.watched watch.new)) }
    ensures kept { OnOk result (map (λ l. (L.tally l).failures) links.new ≡ map (λ l. (L.tally l).failures) links.old) }
    ensures failed { IfErr result (λ e. ReportsLinkFailures e
        (map (λ l. (L.tally l).failures) links.old) (map (λ l. (L.tally l).failures) links.new)) }
    ensures sent { OnOk result (AllSent (packet_counts world.old.sites)
        (packet_counts world.new.sites) (map (λ l. (L.tally l).sent) links.old)
        (map (λ l. (L.tally l).sent) links.new)) }
{
    schedules_read_back();
    let end = update_all(alloc, world, packages, links, watch);
    let watched = watch.end(world);
    match end {
        Ok(()) => {}
        Err(fault) => return Err(fault),
    }
    match watched {
        Ok(()) => Ok(()),
        Err(fault) => Err(observer_fault(fault)),
    }
}
