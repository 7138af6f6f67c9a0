//! Updates the devices of a configuration.

ghost use Rattle.std.specs.Prelude.{◌≡◌, ◌⊎◌, IfErr, IfOk, IfSome, None, OnOk, length, map, option_map, string_bytes, true};
ghost use Rattle.std.specs.List.{AllByRecursion};
ghost use Rattle.fw_json.specs.Forms.{report_in};
ghost use Rattle.fw_setup.specs.Stocks.{stores_in};
ghost use Rattle.fwupd_base.specs.ImageFiles.{config_source};
ghost use Rattle.fwupd_base.specs.PackageChoices.{number_for};
ghost use Rattle.fw_steps.specs.Opening.{IsOpeningWorld};
ghost use Rattle.fwupd_watch.specs.Outputs.{FailsToWriteOutput, WritesOutput};
ghost use Rattle.fwupd_nodes.specs.Sessions.{undone_in};
ghost use Rattle.fwupd_nodes.specs.Setups.{SourceOf, TellsStore, chosen_source, source_of};
ghost use Rattle.fwupd_watch.specs.Histories.{HasHistoryLinesIfAny, MayHaveHistoryLines};
ghost use Rattle.fwupd_watch.specs.Recordings.{IsNewRecording, HasRecordedSteps};
ghost use Rattle.fwupd_jobs.specs.Updated.{HaveLinks, DrivingEnds, IsLost, IsNumberedSetup, IsRoughLink, IsUnlinked, NamesLost, ReportsUpdate, TellsLost, UpdateEnds};
ghost use Rattle.fwupd_watch.specs.Running.{ReportsLinkFailures, IsBrokenRun, IsCaused, HasObserverFault, UpdateOk, RunsSteps, RunsStepsSeen, UpdatesDevices, show_of};

use crate::choosing::ordered_devices;
use fd_core::Bank;
use fw_edge::{EdgeFault, Link, Rough};
use fw_json::report_in;
use fw_script::Config;
use fw_setup::{opening_world, opening_world_over};
use fw_world::{World, runs_are_promised};
use fwupd_base::{Form, Roughness};
use fwupd_nodes::{
    Host, Parts, Undone, Wires, configured, open_kept, package_files, packages_in, undone_in,
};
use fwupd_watch::{Inputs, JobFault, Observer, Output, begin_apart, update_observed};
use fwupd_words::{Order, Update};
use mctp_wire::Unit;
use std::alloc::Global;
use std::io::Write;

/// Opens a link to each device of a world, in configured order, each with the requested roughness
/// and random numbers of its own.
fn open_all<B: Bank + Drop, L: Link + Drop, S: Wires<L>>(
    alloc: Global,
    world: &World<'_, B>,
    folder: &str,
    roughness: Roughness,
    wires: &mut S,
) -> Result<Vec<Rough<L>>, JobFault>
    ensures links { IfOk result (λ links. length links.items ≡ length world.now.sites) }
    ensures each { IfOk result (λ links. HaveLinks (λ unit device link. S.is_to unit folder.now
        device link.link ≡ true) world.now.sites links.items) }
    ensures rough { IfOk result (λ links. HaveLinks (λ unit device link. IsRoughLink roughness
        device link.roughness link.generator) world.now.sites links.items) }
    ensures fault { IfErr result (λ e. (e ≡ JobFault.Memory) ⊎ IsUnlinked world.now (S.lacks wires.old folder.now) e) }
{
    let mut links = Vec::new(alloc);
    for place in 0..world.device_count() {
        let Some(node) = world.device_at(place) else {
            unreachable!()
        };
        let link = match wires.open(node.unit(), folder, node.eid()) {
            Ok(link) => link,
            Err(fault) => return Err(fault),
        };
        let stream = u64::from(node.eid());
        let rough = match Rough::with_room(alloc, link, roughness, stream) {
            Ok(rough) => rough,
            Err(_) => return Err(JobFault::Memory),
        };
        let Ok(()) = links.push(rough) else {
            return Err(JobFault::Memory);
        };
    }
    Ok(links)
}

/// Writes the report of a world in a format, and returns its sessions that aren't Done.
fn write_report<B: Bank + Drop, W: Write + Drop>(
    alloc: Global,
    world: &World<'_, B>,
    form: Form,
    output: &mut Output<W>,
) -> Result<Undone, JobFault>
    ensures ok { OnOk result (WritesOutput output.old output.new (report_in form world.now)) }
    ensures undone { IfOk result (λ u. u ≡ undone_in world.now) }
    ensures fault { IfErr result (λ e. ((e ≡ JobFault.Memory) × (output.new ≡ output.old))
        ⊎ ((e ≡ JobFault.Output)
        × FailsToWriteOutput output.old output.new (report_in form world.now))) }
{
    let Ok(undone) = undone_in(alloc, world) else {
        return Err(JobFault::Memory);
    };
    let Ok(text) = report_in(alloc, world, form) else {
        return Err(JobFault::Memory);
    };
    match output.write(&text) {
        Ok(()) => Ok(undone),
        Err(fault) => Err(fault),
    }
}

/// The first device whose link has failed.
fn lost_device<B: Bank + Drop, L: Link>(world: &World<'_, B>, links: &[L]) -> Option<u8>
    ensures lost { IfSome result (λ device. IsLost world.now (map (λ l. (L.tally l).failures) links.now) device) }
    ensures none { result ≡ None
        → length links.now ≡ length world.now.sites
        → AllByRecursion (λ n. n ≡ 0) (map (λ l. (L.tally l).failures) links.now) }
{
    for place in 0..links.len() {
        if links[place].failures() > 0 {
            return match world.device_at(place) {
                Some(node) => Some(node.eid()),
                None => None,
            };
        }
    }
    None
}

/// Reports the first device whose link has failed, if any, to the observer.
fn lose_failed<B: Bank + Drop, L: Link, V: Observer>(
    world: &World<'_, B>,
    links: &[L],
    watch: &mut V,
)
    ensures seen { (V.watched watch.new).seen ≡ (V.watched watch.old).seen }
    ensures lost { length links.now ≡ length world.now.sites
        → AllByRecursion (λ n. n ≡ 0) (map (λ l. (L.tally l).failures) links.now)
        ⊎ TellsLost world.now (map (λ l. (L.tally l).failures) links.now)
        (V.watched watch.new).lost }
    ensures fault { (V.watched watch.new).fault ≡ (V.watched watch.old).fault }
    ensures history { (V.watched watch.new).history ≡ (V.watched watch.old).history }
    ensures recording { (V.watched watch.new).recording ≡ (V.watched watch.old).recording }
    ensures same { (V.watched watch.new).shows ≡ (V.watched watch.old).shows }
    ensures ended { (V.watched watch.new).has_ended ≡ (V.watched watch.old).has_ended }
{
    match lost_device(world, links) {
        Some(device) => watch.lose(device),
        None => {}
    }
}

/// Updates each device of a new world over its link, with the requested roughness, and ends the
/// observer. If a link failed, the observer gets its device.
///
/// # Errors
/// The fault of the update, or else the observer's.
fn update_reporting<B: Bank + Drop, L: Link + Drop, V: Observer>(
    alloc: Global,
    world: &mut World<'_, B>,
    order: Order,
    links: &mut [Rough<L>],
    watch: &mut V,
) -> Result<(), JobFault>
    requires each { length links.old ≡ length world.old.sites }
    requires rough { HaveLinks (λ unit device link. IsRoughLink order.roughness device
        link.roughness link.generator) world.old.sites links.old }
    ensures updated { OnOk result (UpdateOk (number_for order.packages) world.old world.new) }
    ensures reached { RunsSteps (number_for order.packages) world.old world.new }
    ensures seen { OnOk result ((V.watched watch.new).fault ≡ None) }
    ensures recorded { OnOk result (IfSome (V.watched watch.old).recording IsNewRecording
        → IfSome (V.watched watch.new).recording (HasRecordedSteps world.old world.new)) }
    ensures recorded_still { IfErr result (λ e. (V.watched watch.new).fault ≡ None
        → IfSome (V.watched watch.old).recording IsNewRecording
        → IfSome (V.watched watch.new).recording (HasRecordedSteps world.old world.new)) }
    ensures history { OnOk result (HasHistoryLinesIfAny (V.watched watch.old).history
        world.old.history
        → HasHistoryLinesIfAny (V.watched watch.new).history world.new.history) }
    ensures history_still { HasHistoryLinesIfAny (V.watched watch.old).history world.old.history
        → MayHaveHistoryLines (V.watched watch.new).history world.new.history }
    ensures ended { (V.watched watch.new).has_ended ≡ true }
    ensures same { (V.watched watch.new).shows ≡ (V.watched watch.old).shows }
    ensures turns { OnOk result ((V.watched watch.old).seen ≡ 0
        → UpdatesDevices (number_for order.packages) world.old world.new (V.watched watch.new).seen) }
    ensures lost { IfErr result (λ e. e ≡ JobFault.Edge EdgeFault.Frame
        → TellsLost world.new (map (λ l. l.tally.failures) links.new) (V.watched watch.new).lost) }
    ensures none_lost { OnOk result ((V.watched watch.new).lost ≡ (V.watched watch.old).lost) }
    ensures fault { IfErr result (λ e. (e ≡ JobFault.Memory)
        ⊎ IsCaused (number_for order.packages) world.old world.new e (V.watched watch.new)) }
    ensures kept { OnOk result (map (λ l. l.tally.failures) links.new ≡ map (λ l. l.tally.failures) links.old) }
    ensures failed { IfErr result (λ e. ReportsLinkFailures e
        (map (λ l. l.tally.failures) links.old) (map (λ l. l.tally.failures) links.new)) }
    ensures sees { (V.watched watch.old).seen ≡ 0
        → RunsStepsSeen (number_for order.packages) world.old world.new (V.watched watch.new).seen }
{
    match update_observed(alloc, world, &order.packages, links, watch) {
        Ok(()) => Ok(()),
        Err(JobFault::Memory) => Err(JobFault::Memory),
        Err(fault) => {
            lose_failed(world, links, watch);
            Err(fault)
        }
    }
}

/// Updates each device of a new world over its own link, with its package, and writes the report of
/// the last world.
fn update_over<B: Bank + Drop, H: Parts>(
    alloc: Global,
    world: &mut World<'_, B>,
    job: Update<'_>,
    host: &mut Host<H>,
) -> Result<Undone, JobFault>
    ensures updated { OnOk result (UpdateOk (number_for job.entry.order.packages) world.old world.new) }
    ensures seen { OnOk result ((H.Watch.watched host.new.watch).fault ≡ None) }
    ensures recorded { OnOk result (IfSome (H.Watch.watched host.old.watch).recording IsNewRecording
        → IfSome (H.Watch.watched host.new.watch).recording (HasRecordedSteps world.old world.new)) }
    ensures recorded_still { IfErr result (λ e. IsBrokenRun e
        → (H.Watch.watched host.new.watch).fault ≡ None
        → IfSome (H.Watch.watched host.old.watch).recording IsNewRecording
        → IfSome (H.Watch.watched host.new.watch).recording (HasRecordedSteps world.old world.new)) }
    ensures history { OnOk result (HasHistoryLinesIfAny (H.Watch.watched host.old.watch).history
        world.old.history
        → HasHistoryLinesIfAny (H.Watch.watched host.new.watch).history world.new.history) }
    ensures history_still { IfErr result (λ e. IsBrokenRun e
        → HasHistoryLinesIfAny (H.Watch.watched host.old.watch).history world.old.history
        → MayHaveHistoryLines (H.Watch.watched host.new.watch).history world.new.history) }
    ensures let_end { OnOk result ((H.Watch.watched host.new.watch).has_ended ≡ true) }
    ensures turns { OnOk result ((H.Watch.watched host.old.watch).seen ≡ 0
        → UpdatesDevices (number_for job.entry.order.packages) world.old world.new (H.Watch.watched host.new.watch).seen) }
    ensures lost { IfErr result (λ e. e ≡ JobFault.Edge EdgeFault.Frame
        → NamesLost world.new (H.Watch.watched host.new.watch).lost) }
    ensures none_lost { OnOk result ((H.Watch.watched host.new.watch).lost ≡ (H.Watch.watched host.old.watch).lost) }
    ensures unwritten { IfErr result (λ e. HasObserverFault e (H.Watch.watched host.new.watch).fault) }
    ensures same { (H.Watch.watched host.new.watch).shows ≡ (H.Watch.watched host.old.watch).shows }
    ensures written { OnOk result (WritesOutput host.old.output host.new.output (report_in job.entry.show.form world.new)) }
    ensures undone { IfOk result (λ u. u ≡ undone_in world.new) }
    ensures reached { RunsSteps (number_for job.entry.order.packages) world.old world.new }
    ensures sees { (H.Watch.watched host.old.watch).seen ≡ 0
        → RunsStepsSeen (number_for job.entry.order.packages) world.old world.new (H.Watch.watched host.new.watch).seen }
    ensures fault { IfErr result (λ e. DrivingEnds (number_for job.entry.order.packages) job.entry.show.form
        (H.Wires.lacks host.old.wires job.entry.folder.now)
        world.old world.new e (H.Watch.watched host.new.watch) host.old.output host.new.output) }
{
    let mut links = match open_all(
        alloc,
        world,
        job.folder,
        job.order.roughness,
        &mut host.wires,
    ) {
        Ok(links) => links,
        Err(fault) => return Err(fault),
    };
    match update_reporting(
        alloc,
        world,
        job.order,
        links.as_mut_slice(),
        &mut host.watch,
    ) {
        Ok(()) => {}
        Err(JobFault::Memory) => return Err(JobFault::Memory),
        Err(fault) => {
            match write_report(alloc, world, job.show.form, &mut host.output) {
                Ok(_) => {}
                Err(other) => return Err(other),
            }
            return Err(fault);
        }
    }
    match write_report(alloc, world, job.show.form, &mut host.output) {
        Ok(undone) => Ok(undone),
        Err(fault) => Err(fault),
    }
}

/// Begins the observer, updates each device of a new world over its own link, with its package, and
/// writes the report of the last world. The first world is that of the configuration
/// in a file with these packages.
fn update_new<B: Bank + Drop, H: Parts>(
    alloc: Global,
    packages: &[String],
    world: &mut World<'_, B>,
    job: Update<'_>,
    host: &mut Host<H>,
) -> Result<Undone, JobFault>
    requires { IsOpeningWorld world.old }
    ensures ok { IfOk result (λ undone. (source : SourceOf) (named : IsNumberedSetup
        (H.Files.holds host.old.files) source (number_for job.entry.order.packages) world.old)
        → source.config ≡ config_source job.entry.config
        → named.setup.config.packages ≡ map (λ p. string_bytes p) packages.now
        → ReportsUpdate (H.Files.holds host.old.files) source (number_for job.entry.order.packages) (show_of job.entry.show)
        (H.Watch.watched host.new.watch) host.old.output host.new.output undone) }
    ensures fault { IfErr result (λ e. (source : SourceOf) (named : IsNumberedSetup
        (H.Files.holds host.old.files) source (number_for job.entry.order.packages) world.old)
        → source.config ≡ config_source job.entry.config
        → named.setup.config.packages ≡ map (λ p. string_bytes p) packages.now
        → UpdateEnds (H.Files.holds host.old.files) source (number_for job.entry.order.packages) (show_of job.entry.show)
        (H.Watch.refuses host.old.watch) (H.Wires.lacks host.old.wires job.entry.folder.now) e
        (H.Watch.watched host.new.watch) host.old.output host.new.output) }
    ensures untouched { IfErr result (λ e. (host.new.watch ≡ host.old.watch)
        ⊎ HasObserverFault e (H.Watch.watched host.new.watch).fault) }
    ensures stores { IfErr result (λ e. TellsStore e → ⊥) }
{
    runs_are_promised();
    let inputs = Inputs::new(&job.config, packages);
    match begin_apart(alloc, &host.files, inputs, job.show, &mut host.watch) {
        Ok(()) => {}
        Err(fault) => return Err(fault),
    }
    match update_over(alloc, world, job, host) {
        Ok(undone) => Ok(undone),
        Err(fault) => Err(fault),
    }
}

/// Updates the requested devices of the configuration in a file over links, each with its package,
/// with the requested roughness, and writes the report of the last world, in which are only these
/// devices. Returns the sessions that aren't Done, in configured order. If a folder of stores is
/// given, each device begins with the images in its store, and writes activated images there.
///
/// # Errors
/// The first fault, in this order: of the configuration and its images; `NoDevice` with the least
/// requested endpoint identifier that is that of no device; `NoPackage` if it has no package of the
/// number of one of them; of each of its packages; `Store` of the first device whose store can't be
/// opened;
/// `Trace`, `Log`, `Record` or `History` if the observer can't begin, or if an output would
/// overwrite one of these files or another output, or is in a store; `Socket` if a link can't be
/// opened.
/// `Edge` if a link failed or the clock is at its last tick, and `Trace`, `Log`, `Record` or
/// `History` if the observer can't write; the report is then of the world that was reached.
/// `Output` if the report can't be written; a beginning of it may be written.
/// `Memory` if memory is refused; nothing is written then.
pub fn update_files<H: Parts>(
    alloc: Global,
    job: Update<'_>,
    host: &mut Host<H>,
) -> Result<Undone, JobFault>
    ensures ok { IfOk result (λ undone. ReportsUpdate (H.Files.holds host.old.files)
        (chosen_source (source_of (stores_in (H.Stores.is_known host.old.stores) (H.Stores.files host.old.stores))
        (option_map (λ p. p.now) job.entry.show.store) (config_source job.entry.config)) job.entry.order.devices)
        (number_for job.entry.order.packages) (show_of job.entry.show)
        (H.Watch.watched host.new.watch) host.old.output host.new.output undone) }
    ensures fault { IfErr result (λ e. UpdateEnds (H.Files.holds host.old.files)
        (chosen_source (source_of (stores_in (H.Stores.is_known host.old.stores) (H.Stores.files host.old.stores))
        (option_map (λ p. p.now) job.entry.show.store) (config_source job.entry.config)) job.entry.order.devices)
        (number_for job.entry.order.packages) (show_of job.entry.show)
        (H.Watch.refuses host.old.watch) (H.Wires.lacks host.old.wires job.entry.folder.now) e
        (H.Watch.watched host.new.watch) host.old.output host.new.output) }
    ensures untouched { IfErr result (λ e. (host.new.watch ≡ host.old.watch)
        ⊎ HasObserverFault e (H.Watch.watched host.new.watch).fault) }
    ensures unopened { IfErr result (λ e. TellsStore e → (host.new.watch ≡ host.old.watch) × (host.new.wires ≡ host.old.wires)) }
{
    let Config {
        agent,
        unit,
        devices,
        packages: paths,
    } = match configured(alloc, &host.files, &job.config) {
        Ok(config) => config,
        Err(fault) => return Err(fault),
    };
    let devices = match ordered_devices(devices, &job.order, paths.len()) {
        Ok(devices) => devices,
        Err(fault) => return Err(fault),
    };
    let contents = match package_files(alloc, &host.files, paths.as_slice()) {
        Ok(contents) => contents,
        Err(fault) => return Err(fault),
    };
    let packages = match packages_in(alloc, contents.as_slice()) {
        Ok(packages) => packages,
        Err(fault) => return Err(fault),
    };
    let Some(root) = job.show.store else {
        let Ok(mut world) = opening_world(alloc, unit, agent, devices, packages.as_slice()) else {
            return Err(JobFault::Memory);
        };
        match update_new(alloc, &paths, &mut world, job, host) {
            Ok(undone) => return Ok(undone),
            Err(fault) => return Err(fault),
        }
    };
    let mut devices = devices;
    let mut banks = match open_kept(alloc, &mut host.stores, root, &mut devices) {
        Ok(banks) => banks,
        Err(fault) => return Err(fault),
    };
    // Each store was opened for its device, so banks are only missing for lack of memory.
    let Ok(mut world) = opening_world_over(
        alloc,
        unit,
        agent,
        devices.as_slice(),
        packages.as_slice(),
        &mut banks,
    ) else {
        return Err(JobFault::Memory);
    };
    match update_new(alloc, &paths, &mut world, job, host) {
        Ok(undone) => Ok(undone),
        Err(fault) => Err(fault),
    }
}
