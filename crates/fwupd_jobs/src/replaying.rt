//! Replays a schedule on the nodes of a configuration.

ghost use Rattle.std.specs.Prelude.{◌≡◌, ◌<◌, ◌≤◌, ◌-◌, ◌^◌, ◌⊎◌, ◌∷◌, IfErr, IfOk, IfSome, None, OnErr, OnOk, Some, is_some, length, map, option_map, slice_get, string_bytes, take, true};
ghost use Rattle.fw_edge.specs.Links.{CountsOne};
ghost use Rattle.fw_script.specs.ScheduleLines.{all_steps, step_of_next};
ghost use Rattle.fw_script.specs.Seen.{device_of};
ghost use Rattle.fw_script.specs.Whole.{AreWhole};
ghost use Rattle.fw_steps.specs.Opening.{new_world};
ghost use Rattle.fw_steps.specs.Steps.{StepsTo, Run};
ghost use Rattle.fw_steps.specs.Replays.{RefusesStep};
ghost use Rattle.fw_steps.specs.Worlds.{full_tick};
ghost use Rattle.fw_setup.specs.Nodes.{nodes_made};
ghost use Rattle.fw_setup.specs.Stocks.{stores_in};
ghost use Rattle.fwupd_base.specs.ImageFiles.{config_source};
ghost use Rattle.fwupd_jobs.specs.Replayed.{IsReplayed, ReplayEnds, ReportsReplay, taken_of};
ghost use Rattle.fwupd_watch.specs.Apart.{IsApart, IsBarred};
ghost use Rattle.fwupd_watch.specs.Inputs.{inputs_of};
ghost use Rattle.fwupd_watch.specs.Running.{HasObserverFault, show_of, shown_of};
ghost use Rattle.fwupd_nodes.specs.Setups.{source_of};

use fd_core::Bank;
use fw_json::report_in;
use fw_package::Package;
use fw_script::{Config, DeviceConfig, LineSteps, NextStep, ScheduleLine};
use fw_setup::opening_world;
use fw_world::{
    Missed, Step, StepFault, World, clocks_keep_time, moments_are_tied, replay, runs_are_promised,
};
use fwupd_base::{Form, Show};
use fwupd_nodes::{Host, Parts, configured, package_files, packages_in, read_kept, schedule};
use fwupd_watch::{Files, Inputs, JobFault, Observer, ObserverFault, begin_apart, observer_fault};
use fwupd_words::Replay;
use mctp_ctl::Endpoint;
use mctp_wire::Unit;
use std::alloc::{AllocError, Global};
use std::slice;

/// The result of a replay: the report of the world; the number of the step that was refused, from
/// 0, with the cause; and the observer's result.
#[derive(Drop)]
pub struct ReplayOutcome {
    /// The report.
    pub report: Vec<u8>,
    /// The step that was refused, if any.
    pub fault: Option<(usize, StepFault)>,
    /// The observer's result.
    pub watched: Result<(), ObserverFault>,
}

/// The next step: a step of a line, or a tick that all nodes count.
fn lent<'s>(next: NextStep<'s>, tick: &'s Step) -> &'s Step
    requires { tick.now ≡ full_tick }
    ensures { result.now ≡ step_of_next next.entry }
{
    match next {
        NextStep::Said(step) => step,
        NextStep::Tick => tick,
    }
}

/// Takes a step. The observer sees the world after it, if packets are traced; its faults don't stop
/// the replay.
///
/// # Errors
/// Why the step is refused; nothing has changed then.
fn take_observed<B: Bank + Drop, V: Observer>(
    world: &mut World<'_, B>,
    step: &Step,
    is_traced: bool,
    watch: &mut V,
) -> Result<(), StepFault>
    ensures taken { OnOk result (StepsTo world.old step.now world.new) }
    ensures refused { IfErr result (λ e. RefusesStep world.old step.now e) }
    ensures kept { OnErr result (world.new ≡ world.old) }
    ensures same { (V.watched watch.new).shows ≡ (V.watched watch.old).shows }
    ensures seen { OnOk result (is_traced ≡ true → CountsOne (V.watched watch.old).seen (V.watched watch.new).seen) }
    ensures unseen { OnErr result ((V.watched watch.new).seen ≡ (V.watched watch.old).seen) }
{
    match replay(world, slice::from_ref(step)) {
        Ok(()) => {}
        Err((_, fault)) => return Err(fault),
    }
    if is_traced {
        let _ = watch.see(world);
    }
    Ok(())
}

/// Takes the steps of the lines, one after another, up to the first that is refused. The observer
/// sees the world after each step, if packets are traced.
///
/// # Errors
/// The number of the step that is refused, counted from 0, and the cause.
fn replay_lines<B: Bank + Drop, V: Observer>(
    world: &mut World<'_, B>,
    lines: &[ScheduleLine],
    is_traced: bool,
    watch: &mut V,
) -> Result<(), (usize, StepFault)>
    requires countable { length (all_steps lines.now) ≤ 2 ^ 64 - 1 }
    ensures ok { OnOk result (Run world.old (all_steps lines.now) world.new) }
    ensures stopped { IfErr result (λ e. (e.0 < length (all_steps lines.now))
        × Run world.old (take e.0 (all_steps lines.now)) world.new
        × IfSome (slice_get (all_steps lines.now) e.0) (λ s. RefusesStep world.new s e.1)) }
    ensures same { (V.watched watch.new).shows ≡ (V.watched watch.old).shows }
    ensures seen { OnOk result (is_traced ≡ true
        → (V.watched watch.old).seen ≡ 0
        → (V.watched watch.new).seen ≡ length (all_steps lines.now)) }
    ensures seen_before { IfErr result (λ e. is_traced ≡ true → (V.watched watch.old).seen ≡ 0 → (V.watched watch.new).seen ≡ e.0) }
{
    let tick = Step::Tick(Missed::new());
    let mut steps = LineSteps::new(lines);
    let mut taken = 0;
    while let Some(next) = steps.next() {
        match take_observed(world, lent(next, &tick), is_traced, watch) {
            Ok(()) => {}
            Err(fault) => return Err((taken, fault)),
        }
        taken += 1;
    }
    Ok(())
}

/// Replays a schedule on the nodes of a configuration, in a network with its transmission unit, and
/// ends the observer.
///
/// # Errors
/// `AllocError` if memory for the nodes or the report is refused.
pub fn replayed<'a, V: Observer>(
    alloc: Global,
    unit: Unit,
    agent: Endpoint,
    devices: Vec<DeviceConfig>,
    packages: &'a [Package<'a>],
    lines: &[ScheduleLine],
    show: Show<'_>,
    watch: &mut V,
) -> Result<ReplayOutcome, AllocError>
    requires whole { AreWhole agent.eid (map device_of devices.items) }
    requires countable { length (all_steps lines.now) ≤ 2 ^ 64 - 1 }
    ensures replayed { IfOk result (λ r. IsReplayed (new_world agent
        (nodes_made unit agent.eid (map device_of devices.items)) packages.now)
        (all_steps lines.now) r.fault show.entry.form r.report.items) }
    ensures same { OnOk result ((V.watched watch.new).shows ≡ (V.watched watch.old).shows) }
    ensures ended { OnOk result ((V.watched watch.new).has_ended ≡ true) }
    ensures unseen { IfOk result (λ r. IfErr r.watched (λ e. (V.watched watch.new).fault ≡ Some e)) }
    ensures seen { IfOk result (λ r. OnOk r.watched ((V.watched watch.new).fault ≡ None)) }
    ensures each { IfOk result (λ r. is_some show.entry.trace ≡ true
        → (V.watched watch.old).seen ≡ 0
        → (V.watched watch.new).seen ≡ taken_of (all_steps lines.now) r.fault) }
{
    runs_are_promised();
    moments_are_tied();
    clocks_keep_time();
    let mut world = opening_world(alloc, unit, agent, devices, packages)?;
    let fault = match replay_lines(&mut world, lines, show.trace.is_some(), watch) {
        Ok(()) => None,
        Err(fault) => Some(fault),
    };
    let watched = watch.end(&world);
    let report = report_in(alloc, &world, show.form)?;
    Ok(ReplayOutcome {
        report,
        fault,
        watched,
    })
}

/// Begins the observer after checking its outputs: none may overwrite an input or another output,
/// or be in a store.
fn begin_replay<F: Files, V: Observer>(
    alloc: Global,
    files: &F,
    job: Replay<'_>,
    packages: &[String],
    watch: &mut V,
) -> Result<(), JobFault>
    ensures shows { OnOk result ((V.watched watch.new).shows ≡ shown_of (show_of job.entry.show)) }
    ensures anew { OnOk result ((V.watched watch.new).seen ≡ 0) }
    ensures apart { OnOk result (IsApart (F.holds files.now) (show_of job.entry.show)
        (job.entry.schedule.now ∷ inputs_of (config_source job.entry.config) (map (λ p. string_bytes p) packages.now))) }
    ensures untouched { IfErr result (λ e. (watch.new ≡ watch.old) ⊎ HasObserverFault e (V.watched watch.new).fault) }
    ensures fault { IfErr result (λ e. (e ≡ JobFault.Memory)
        ⊎ IsBarred (F.holds files.now) (V.refuses watch.old) (show_of job.entry.show)
        (job.entry.schedule.now ∷ inputs_of (config_source job.entry.config) (map (λ p. string_bytes p) packages.now)) e
        (V.watched watch.new)) }
{
    let inputs = Inputs::with_schedule(job.schedule, &job.config, packages);
    begin_apart(alloc, files, inputs, job.show, watch)
}

/// Replays the schedule in a file on the nodes of the configuration in another, and writes in a
/// format the report of the last world. If a folder of stores is given, each device begins with the
/// images in its store, which is only read. Tracing packets doesn't change the report.
///
/// # Errors
/// The first fault, in this order: of the configuration and its images; of each of its packages;
/// `Store` of the first device whose store can't be read; of the schedule.
/// `Trace`, `Log` or `Record` if the observer can't begin, or if an output would overwrite one of
/// these files or another output, or is in a store.
/// `Step` if a step, numbered from 1, is refused; the report is of the world before it.
/// `Trace`, `Log` or `Record` if the observer couldn't write; the report is still written.
/// `Output` if the report can't be written; a beginning of it may be written.
/// `Memory` if memory is refused; nothing is written then, unless only the observer lacked memory.
pub fn replay_files<H: Parts>(
    alloc: Global,
    job: Replay<'_>,
    host: &mut Host<H>,
) -> Result<(), JobFault>
    ensures ok { OnOk result (ReportsReplay (H.Files.holds host.old.files)
        (source_of (stores_in (H.Stores.is_known host.old.stores) (H.Stores.files host.old.stores))
        (option_map (λ p. p.now) job.entry.show.store) (config_source job.entry.config))
        job.entry.schedule.now (show_of job.entry.show) (H.Watch.watched host.new.watch)
        host.old.output host.new.output) }
    ensures fault { IfErr result (λ e. ReplayEnds (H.Files.holds host.old.files)
        (source_of (stores_in (H.Stores.is_known host.old.stores) (H.Stores.files host.old.stores))
        (option_map (λ p. p.now) job.entry.show.store) (config_source job.entry.config))
        job.entry.schedule.now (show_of job.entry.show) (H.Watch.refuses host.old.watch) e
        (H.Watch.watched host.new.watch) host.old.output host.new.output) }
    ensures untouched { IfErr result (λ e. (host.new.watch ≡ host.old.watch)
        ⊎ HasObserverFault e (H.Watch.watched host.new.watch).fault) }
{
    let Config {
        agent,
        unit,
        devices,
        packages: paths,
    } = match configured(alloc, &host.files, &job.config) {
        Ok(config) => config,
        Err(fault) => return Err(fault),
    };
    let contents = match package_files(alloc, &host.files, paths.as_slice()) {
        Ok(contents) => contents,
        Err(fault) => return Err(fault),
    };
    let packages = match packages_in(alloc, contents.as_slice()) {
        Ok(packages) => packages,
        Err(fault) => return Err(fault),
    };
    let mut devices = devices;
    match read_kept(alloc, &host.stores, job.show.store, &mut devices) {
        Ok(()) => {}
        Err(fault) => return Err(fault),
    }
    let script = match schedule(alloc, &host.files, job.schedule) {
        Ok(script) => script,
        Err(fault) => return Err(fault),
    };
    match begin_replay(alloc, &host.files, job, paths.as_slice(), &mut host.watch) {
        Ok(()) => {}
        Err(fault) => return Err(fault),
    }
    let Ok(outcome) = replayed(
        alloc,
        unit,
        agent,
        devices,
        packages.as_slice(),
        script.as_slice(),
        job.show,
        &mut host.watch,
    ) else {
        return Err(JobFault::Memory);
    };
    match host.output.write(&outcome.report) {
        Ok(()) => {}
        Err(_) => return Err(JobFault::Output),
    }
    match outcome.fault {
        Some((place, fault)) => return Err(JobFault::Step(place.saturating_add(1), fault)),
        None => {}
    }
    match outcome.watched {
        Ok(()) => Ok(()),
        Err(fault) => Err(observer_fault(fault)),
    }
}
