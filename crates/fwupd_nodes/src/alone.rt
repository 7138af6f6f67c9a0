//! A device or the agent of a configuration by itself, line by line.

ghost use Rattle.std.specs.Prelude.{[], ◌≡◌, ◌≢◌, ◌<◌, ◌⊎◌, IfErr, IfOk, IfSome, IsOk, IsSome, None, OnErr, OnOk, Some, length, map, option_map, string_bytes, true, ℕ};
ghost use Rattle.std.specs.List.{AllByRecursion};
ghost use Rattle.fd_core.specs.Components.{HasComponents};
ghost use Rattle.fw_package.specs.Reading.{package_of};
ghost use Rattle.fw_script.specs.Seen.{config_seen, device_of};
ghost use Rattle.fw_script.specs.Whole.{AreWhole};
ghost use Rattle.fw_serve.specs.Agents.{agent_report};
ghost use Rattle.fw_serve.specs.Serving.{device_report};
ghost use Rattle.fw_trace.specs.Records.{records_bytes};
ghost use Rattle.fwupd_nodes.specs.Alone.{AgentEnds, AreOutputsApart, DeviceEnds, DeviceSetupFails, FilterEnds, IsDeviceSetup, IsOnly, IsOutputOver, LacksDevice, NodeEnds, PackagesEnd, ServesAgent, ServesDevice, ServesFilter, ServesNode, ServesPackages, ServesSetup, SetupEnds, device_setup_seen, front_if, place_named};

use crate::host::{Host, HostView, Parts};
use crate::images::{configured, place_of};
use crate::outputs::agent_inputs;
use crate::setups::{configuration, open_kept, package_files, packages_in};
use fd_core::Bank;
use fw_node::DeviceNode;
use fw_script::{Config, DeviceConfig};
use fw_serve::{AgentFilter, DeviceFilter, FilterOptions, Front};
use fw_setup::{MemBanks, device_node};
use fw_trace::log_bytes;
use fwupd_base::{AgentAlone, DeviceAlone};
use fwupd_watch::{Files, Inputs, JobFault, OutputPlaces, is_over_read, write_file};
use mctp_ctl::Endpoint;
use mctp_wire::Unit;
use std::alloc::Global;
use std::io::Write;

/// The device with this endpoint identifier, in a list of its own.
fn only_device(
    alloc: Global,
    devices: Vec<DeviceConfig>,
    eid: u8,
) -> Result<Vec<DeviceConfig>, JobFault>
    ensures only { IfOk result (λ only. IsOnly (map device_of devices.items) eid (map device_of only.items)) }
    ensures whole { IfOk result (λ only. (agent : ℕ)
        → AreWhole agent (map device_of devices.items)
        → AreWhole agent (map device_of only.items)) }
    ensures one { IfOk result (λ only. length only.items ≡ 1) }
    ensures fault { IfErr result (λ e. ((e ≡ JobFault.Memory)
        × IsSome (place_named (map device_of devices.items) eid))
        ⊎ ((e ≡ JobFault.NoDevice eid) × LacksDevice (map device_of devices.items) eid)) }
{
    let mut devices = devices;
    let Some(place) = place_of(devices.as_slice(), eid) else {
        return Err(JobFault::NoDevice(eid));
    };
    let mut only = Vec::new(alloc);
    let Ok(()) = only.push(devices.swap_remove(place)) else {
        return Err(JobFault::Memory);
    };
    Ok(only)
}

/// The fault of a report if its file can't be made.
fn unreported(fault: JobFault) -> JobFault
    ensures memory { fault ≡ JobFault.Memory → result ≡ JobFault.Memory }
    ensures other { fault ≢ JobFault.Memory → result ≡ JobFault.Report }
{
    match fault {
        JobFault::Memory => JobFault::Memory,
        _ => JobFault::Report,
    }
}

/// Writes the report of a device, if it is requested.
fn keep_device<B: Bank + Drop, W: Write + Drop, P: OutputPlaces<W>>(
    job: DeviceAlone<'_>,
    filter: &DeviceFilter<B>,
    places: &mut P,
) -> Result<(), JobFault>
    ensures reported { OnOk result (P.is_known places.old ≡ true
        → IfSome job.entry.report (λ p. P.held places.new p.now ≡ Some (device_report filter.now.device))) }
    ensures fault { IfErr result (λ e. (e ≡ JobFault.Memory)
        ⊎ ((e ≡ JobFault.Report) × IsSome job.entry.report)) }
    ensures unmade { OnErr result (P.held places.new ≡ P.held places.old) }
{
    let Some(path) = job.report else {
        return Ok(());
    };
    let Ok(text) = filter.report() else {
        return Err(JobFault::Memory);
    };
    match write_file(places, path, &text) {
        Ok(()) => Ok(()),
        Err(fault) => Err(unreported(fault)),
    }
}

/// The front of a node with this endpoint, if it is open.
fn front_if(is_open: bool, unit: Unit, endpoint: Endpoint) -> Option<Front>
    ensures { result ≡ front_if is_open unit endpoint }
{
    if is_open {
        Some(Front { unit, endpoint })
    } else {
        None
    }
}

/// Serves the node of a device to the end of the input, and then writes its report, if it is
/// requested.
fn serve_node<B: Bank + Drop, H: Parts>(
    alloc: Global,
    job: DeviceAlone<'_>,
    node: DeviceNode<B>,
    front: Option<Front>,
    host: &mut Host<H>,
) -> Result<(), JobFault>
    requires device { HasComponents node.half.core.device }
    requires front { front ≡ front_if job.is_open node.half.unit node.endpoint }
    ensures ok { OnOk result (ServesNode job.entry node
        (⟦<Host<H> as HostView>⟧.found host.old) (⟦<Host<H> as HostView>⟧.left host.new)) }
    ensures fault { IfErr result (λ e. NodeEnds job.entry node e
        (⟦<Host<H> as HostView>⟧.found host.old) (⟦<Host<H> as HostView>⟧.left host.new)) }
    ensures untouched { host.new.watch ≡ host.old.watch }
{
    let options = FilterOptions {
        auto: job.is_automatic,
        front,
    };
    let Ok(mut filter) = DeviceFilter::new(alloc, node, options) else {
        return Err(JobFault::Memory);
    };
    match host.output.serve(alloc, &mut host.input, &mut filter) {
        Ok(()) => {}
        Err(fault) => return Err(JobFault::Answer(fault)),
    }
    let Ok(()) = filter.end_turn() else {
        return Err(JobFault::Memory);
    };
    keep_device(job, &filter, &mut host.places)
}

/// A device as configured, in a list of its own, and the unit and the agent of its network.
#[derive(Drop)]
pub struct DeviceSetup {
    pub unit: Unit,
    pub agent: u8,
    pub only: Vec<DeviceConfig>,
}

/// The setup of the requested device of the configuration in a file.
///
/// # Errors
/// The first fault of the configuration; `Report` if the report would overwrite it; `NoDevice` if
/// it has no such device; and `Memory`.
pub fn device_setup<F: Files>(
    alloc: Global,
    files: &F,
    job: DeviceAlone<'_>,
) -> Result<DeviceSetup, JobFault>
    ensures is { IfOk result (λ s. IsDeviceSetup job.entry (F.holds files.now) (device_setup_seen s)) }
    ensures whole { IfOk result (λ s. AreWhole s.agent (map device_of s.only.items)) }
    ensures one { IfOk result (λ s. length s.only.items ≡ 1) }
    ensures fault { IfErr result (DeviceSetupFails job.entry (F.holds files.now)) }
{
    let Config {
        agent,
        unit,
        devices,
        packages: _,
    } = match configured(alloc, files, &job.config) {
        Ok(config) => config,
        Err(fault) => return Err(fault),
    };
    if is_over_read(files, job.report, Inputs::new(&job.config, &[])) {
        return Err(JobFault::Report);
    }
    match only_device(alloc, devices, job.eid) {
        Ok(only) => Ok(DeviceSetup {
            unit,
            agent: agent.eid,
            only,
        }),
        Err(fault) => Err(fault),
    }
}

/// Serves a device with the images of the configuration.
fn serve_configured<H: Parts>(
    alloc: Global,
    job: DeviceAlone<'_>,
    setup: &DeviceSetup,
    host: &mut Host<H>,
) -> Result<(), JobFault>
    requires whole { AreWhole setup.now.agent (map device_of setup.now.only.items) }
    requires one { length setup.now.only.items ≡ 1 }
    requires none { job.store ≡ None }
    ensures ok { OnOk result (ServesSetup job.entry (device_setup_seen setup.now)
        (⟦<Host<H> as HostView>⟧.found host.old) (⟦<Host<H> as HostView>⟧.left host.new)) }
    ensures fault { IfErr result (λ e. SetupEnds job.entry (device_setup_seen setup.now) e
        (⟦<Host<H> as HostView>⟧.found host.old) (⟦<Host<H> as HostView>⟧.left host.new)) }
    ensures untouched { host.new.watch ≡ host.old.watch }
{
    let device = &setup.only[0];
    let front = front_if(job.is_open, setup.unit, device.endpoint);
    let Ok(node) = device_node(alloc, setup.unit, setup.agent, device, &mut MemBanks) else {
        return Err(JobFault::Memory);
    };
    serve_node(alloc, job, node, front, host)
}

/// Serves a device with the images in its store.
fn serve_stored<H: Parts>(
    alloc: Global,
    job: DeviceAlone<'_>,
    root: &str,
    setup: DeviceSetup,
    host: &mut Host<H>,
) -> Result<(), JobFault>
    requires whole { AreWhole setup.agent (map device_of setup.only.items) }
    requires one { length setup.only.items ≡ 1 }
    requires some { option_map (λ p. p.now) job.store ≡ Some root.now }
    ensures ok { OnOk result (ServesSetup job.entry (device_setup_seen setup)
        (⟦<Host<H> as HostView>⟧.found host.old) (⟦<Host<H> as HostView>⟧.left host.new)) }
    ensures fault { IfErr result (λ e. SetupEnds job.entry (device_setup_seen setup) e
        (⟦<Host<H> as HostView>⟧.found host.old) (⟦<Host<H> as HostView>⟧.left host.new)) }
    ensures untouched { host.new.watch ≡ host.old.watch }
{
    let DeviceSetup {
        unit,
        agent,
        mut only,
    } = setup;
    let mut banks = match open_kept(alloc, &mut host.stores, root, &mut only) {
        Ok(banks) => banks,
        Err(fault) => return Err(fault),
    };
    let device = &only[0];
    let front = front_if(job.is_open, unit, device.endpoint);
    // The store was opened for its device, so a bank is only missing for lack of memory.
    let Ok(node) = device_node(alloc, unit, agent, device, &mut banks) else {
        return Err(JobFault::Memory);
    };
    serve_node(alloc, job, node, front, host)
}

/// Serves a device of the configuration in a file by itself: each line of the input is a call of
/// its node, and what it prints is what the node sends. If a folder of stores is given, the device
/// begins with the images in its store, and writes activated images there. At the end of the input
/// its report is written, if it is requested.
///
/// # Errors
/// The first fault, in this order: of the configuration; `Report` if the report would overwrite it;
/// `NoDevice` if it has no such device; `Store` if the device's store can't be opened; nothing is
/// read then. `Answer` if reading or writing fails, and `Report` if the report can't be written.
/// `Memory` if memory is refused.
pub fn device_file<H: Parts>(
    alloc: Global,
    job: DeviceAlone<'_>,
    host: &mut Host<H>,
) -> Result<(), JobFault>
    ensures ok { OnOk result (ServesDevice job.entry
        (⟦<Host<H> as HostView>⟧.found host.old) (⟦<Host<H> as HostView>⟧.left host.new)) }
    ensures fault { IfErr result (λ e. DeviceEnds job.entry e
        (⟦<Host<H> as HostView>⟧.found host.old) (⟦<Host<H> as HostView>⟧.left host.new)) }
    ensures untouched { host.new.watch ≡ host.old.watch }
{
    let setup = match device_setup(alloc, &host.files, job) {
        Ok(setup) => setup,
        Err(fault) => return Err(fault),
    };
    match job.store {
        Some(root) => serve_stored(alloc, job, root, setup, host),
        None => serve_configured(alloc, job, &setup, host),
    }
}

/// The endpoint identifiers of the devices.
pub fn eids_of(alloc: Global, devices: &[DeviceConfig]) -> Result<Vec<u8>, JobFault>
    ensures eids { IfOk result (λ eids. eids.items ≡ map (λ d. d.endpoint.eid) (map device_of devices.now)) }
    ensures memory { IfErr result (λ e. e ≡ JobFault.Memory) }
{
    let mut eids = Vec::new(alloc);
    for device in devices {
        let Ok(()) = eids.push(device.endpoint.eid) else {
            return Err(JobFault::Memory);
        };
    }
    Ok(eids)
}

/// Writes the records of the agent's event log and its report, if they are requested.
fn keep_agent<W: Write + Drop, P: OutputPlaces<W>>(
    alloc: Global,
    job: AgentAlone<'_>,
    filter: &AgentFilter<'_>,
    places: &mut P,
) -> Result<(), JobFault>
    ensures reported { OnOk result (P.is_known places.old ≡ true
        → IfSome job.entry.report (λ p. P.held places.new p.now ≡ Some (agent_report filter.now.agent))) }
    ensures logged { OnOk result (P.is_known places.old ≡ true
        → job.entry.report ≡ None
        → IfSome job.entry.log (λ p. P.held places.new p.now
        ≡ Some (records_bytes filter.now.agent.agent.log.records))) }
    ensures fault { IfErr result (λ e. (e ≡ JobFault.Memory)
        ⊎ (((e ≡ JobFault.Log) × IsSome job.entry.log)
        ⊎ ((e ≡ JobFault.Report) × IsSome job.entry.report))) }
    ensures left { OnErr result ((P.held places.new ≡ P.held places.old)
        ⊎ (P.is_known places.old ≡ true
        → IfSome job.entry.log (λ p. P.held places.new p.now
        ≡ Some (records_bytes filter.now.agent.agent.log.records)))) }
{
    if let Some(path) = job.log {
        let Ok(records) = log_bytes(alloc, filter.agent().agent().log()) else {
            return Err(JobFault::Memory);
        };
        match write_file(places, path, &records) {
            Ok(()) => {}
            Err(JobFault::Memory) => return Err(JobFault::Memory),
            Err(_) => return Err(JobFault::Log),
        }
    }
    let Some(path) = job.report else {
        return Ok(());
    };
    let Ok(text) = filter.report() else {
        return Err(JobFault::Memory);
    };
    match write_file(places, path, &text) {
        Ok(()) => Ok(()),
        Err(fault) => Err(unreported(fault)),
    }
}

/// Serves the agent to the end of the input, and then writes the records of its event log and its
/// report, if they are requested.
fn serve_agent<H: Parts>(
    alloc: Global,
    job: AgentAlone<'_>,
    filter: AgentFilter<'_>,
    host: &mut Host<H>,
) -> Result<(), JobFault>
    ensures ok { OnOk result (ServesFilter job.entry filter.entry
        (⟦<Host<H> as HostView>⟧.found host.old) (⟦<Host<H> as HostView>⟧.left host.new)) }
    ensures fault { IfErr result (λ e. FilterEnds job.entry filter.entry e
        (⟦<Host<H> as HostView>⟧.found host.old) (⟦<Host<H> as HostView>⟧.left host.new)) }
    ensures untouched { host.new.watch ≡ host.old.watch }
{
    let mut filter = filter;
    match host.output.serve(alloc, &mut host.input, &mut filter) {
        Ok(()) => {}
        Err(fault) => return Err(JobFault::Answer(fault)),
    }
    filter.end_turn();
    keep_agent(alloc, job, &filter, &mut host.places)
}

/// Serves the agent of a configuration with the packages in these bytes.
fn serve_packages<H: Parts>(
    alloc: Global,
    job: AgentAlone<'_>,
    config: &Config,
    contents: &[Vec<u8>],
    host: &mut Host<H>,
) -> Result<(), JobFault>
    requires packed { AllByRecursion (λ f. IsOk (package_of f.items)) contents.now }
    requires whole { AreWhole config.now.agent.eid (map device_of config.now.devices.items) }
    ensures ok { OnOk result (ServesPackages job.entry (config_seen config.now) (map (λ f. f.items) contents.now)
        (⟦<Host<H> as HostView>⟧.found host.old) (⟦<Host<H> as HostView>⟧.left host.new)) }
    ensures fault { IfErr result (λ e. PackagesEnd job.entry (config_seen config.now) (map (λ f. f.items) contents.now) e
        (⟦<Host<H> as HostView>⟧.found host.old) (⟦<Host<H> as HostView>⟧.left host.new)) }
    ensures untouched { host.new.watch ≡ host.old.watch }
{
    let packages = match packages_in(alloc, contents) {
        Ok(packages) => packages,
        Err(fault) => return Err(fault),
    };
    let eids = match eids_of(alloc, config.devices.as_slice()) {
        Ok(eids) => eids,
        Err(fault) => return Err(fault),
    };
    let options = FilterOptions {
        auto: job.is_automatic,
        front: front_if(job.is_open, config.unit, config.agent),
    };
    let Ok(filter) = AgentFilter::new(
        alloc,
        config.unit,
        config.agent,
        eids.as_slice(),
        packages.as_slice(),
        options,
    ) else {
        return Err(JobFault::Memory);
    };
    serve_agent(alloc, job, filter, host)
}

/// The fault if the records or the report would overwrite the configuration or a package.
fn apart_from_read<F: Files>(
    files: &F,
    job: AgentAlone<'_>,
    packages: &[String],
) -> Result<(), JobFault>
    ensures apart { OnOk result (AreOutputsApart job.entry (F.holds files.now) (map (λ p. string_bytes p) packages.now)) }
    ensures over { IfErr result (IsOutputOver job.entry (F.holds files.now) (map (λ p. string_bytes p) packages.now)) }
{
    let inputs = agent_inputs(job.config, packages);
    if is_over_read(files, job.log, inputs) {
        return Err(JobFault::Log);
    }
    if is_over_read(files, job.report, inputs) {
        return Err(JobFault::Report);
    }
    Ok(())
}

/// Serves the agent of the configuration in a file by itself: each line of the input is a call of
/// its node, and what it prints is what the node sends. At the end of the input the records of its
/// event log and its report are written, if they are requested.
///
/// # Errors
/// The first fault, in this order: of the configuration; `Log` or `Report` if these would overwrite
/// it or a package; of each of its packages; nothing is read then. `Answer` if reading or writing
/// fails, and `Log` or `Report` if these can't be written. `Memory` if memory is refused.
pub fn agent_file<H: Parts>(
    alloc: Global,
    job: AgentAlone<'_>,
    host: &mut Host<H>,
) -> Result<(), JobFault>
    ensures ok { OnOk result (ServesAgent job.entry
        (⟦<Host<H> as HostView>⟧.found host.old) (⟦<Host<H> as HostView>⟧.left host.new)) }
    ensures fault { IfErr result (λ e. AgentEnds job.entry e
        (⟦<Host<H> as HostView>⟧.found host.old) (⟦<Host<H> as HostView>⟧.left host.new)) }
    ensures untouched { host.new.watch ≡ host.old.watch }
{
    let config = match configuration(alloc, &host.files, job.config) {
        Ok(config) => config,
        Err(fault) => return Err(fault),
    };
    match apart_from_read(&host.files, job, config.packages.as_slice()) {
        Ok(()) => {}
        Err(fault) => return Err(fault),
    }
    let contents = match package_files(alloc, &host.files, config.packages.as_slice()) {
        Ok(contents) => contents,
        Err(fault) => return Err(fault),
    };
    serve_packages(alloc, job, &config, contents.as_slice(), host)
}
