//! The agent of a configuration as a process of its own.

ghost use Rattle.std.specs.Prelude.{◌∷◌, ◌≡◌, ◌≤◌, ◌⊎◌, IfErr, IfOk, IfSome, IsOk, IsSome, None, Ok, OnErr, OnOk, Some, length, map, string_bytes, true};
ghost use Rattle.std.specs.List.{AllByRecursion};
ghost use Rattle.fw_package.specs.Reading.{package_of};
ghost use Rattle.fw_script.specs.Seen.{config_seen, device_of};
ghost use Rattle.fw_script.specs.Whole.{AreWhole};
ghost use Rattle.fw_serve.specs.Agents.{new_served_agent};
ghost use Rattle.fw_trace.specs.Records.{records_bytes};
ghost use Rattle.fwupd_nodes.specs.Hosts.{agent_store_in};
ghost use Rattle.fwupd_nodes.specs.AgentStores.{agent_setup_seen, keeps_nothing};
ghost use Rattle.fwupd_nodes.specs.Processes.{AgentProcessEnds, AgentSetupStops, ContentsStop, EndFails, EndsServed, HasEnded, KeptStops, ObservedEndFails, RunsAgent, RunsAgentSetup, RunsKept, RunsPackages, RunsServed, ServedStops, ServesStarted, agent_report_in, agent_shows, agent_started};
ghost use Rattle.fwupd_nodes.specs.Sessions.{undone_of};
ghost use Rattle.fwupd_watch.specs.Apart.{IsApart, IsOverRead};
ghost use Rattle.fwupd_watch.specs.Outputs.{FailsToWriteOutput, WritesOutput};

use crate::agent_stores::{AgentSetup, open_agent};
use crate::alone::eids_of;
use crate::host::{Host, HostView, Parts};
use crate::outputs::{ProcessOutputs, agent_inputs, check_outputs};
use crate::sessions::Undone;
use crate::setups::{configuration, package_files, packages_in};
use crate::wiring::{Joined, Network, Observed, Wiring, begin, end_of, observe};
use agent_store::{AgentKeeper, KeepFault, NoKeeper};
use fw_json::agent_json;
use fw_node::AgentNode;
use fw_package::Package;
use fw_process::{Clock, Line};
use fw_script::{Config, SentCount, session_of};
use fw_serve::{AgentProcess, CallFault, ServedAgent, serve_agent_process};
use fw_trace::log_bytes;
use fwupd_base::Form;
use fwupd_traces::{ObservedLine, PacketObserver, Starts, TracedNode, WatchFault};
use fwupd_watch::{Files, JobFault, Output, OutputPlaces, process_fault, write_file};
use std::alloc::{AllocError, Global};
use std::io::Write;

/// Starts the update of each of these devices with a package, in order.
///
/// # Errors
/// `NoPackage` if a start is refused, and `Memory`; the updates before it are started then.
fn start_all(agent: &mut ServedAgent<'_>, number: usize, eids: &[u8]) -> Result<(), JobFault>
    ensures started { OnOk result (agent.new ≡ agent_started agent.old number eids.now) }
    ensures fault { IfErr result (λ e. (e ≡ JobFault.NoPackage) ⊎ (e ≡ JobFault.Memory)) }
{
    for eid in eids {
        match agent.start(*eid, number) {
            Ok(()) => {}
            Err(CallFault::Refused(_)) => return Err(JobFault::NoPackage),
            Err(CallFault::Memory) => return Err(JobFault::Memory),
        }
    }
    Ok(())
}

/// The fault of an agent's process whose keeper failed.
fn unkept(eid: u8, fault: KeepFault) -> JobFault
    ensures unwritable { fault ≡ KeepFault.Unwritable → result ≡ JobFault.Unkept eid }
    ensures memory { fault ≡ KeepFault.Memory → result ≡ JobFault.Memory }
{
    match fault {
        KeepFault::Unwritable => JobFault::Unkept(eid),
        KeepFault::Memory => JobFault::Memory,
    }
}

/// Serves an agent as a process, from the unit that a clock shows, with an update of each device.
fn serve_started<
    'p,
    K: AgentKeeper + Drop,
    L: Line + Drop,
    O: PacketObserver + Drop,
    C: Clock + Drop,
>(
    alloc: Global,
    job: &fwupd_base::AgentProcess<'_>,
    setup: &AgentSetup<'_>,
    agent: ServedAgent<'p>,
    keeper: K,
    joined: &mut Joined<ObservedLine<L, O>, C>,
) -> Result<AgentProcess<'p, K>, JobFault>
    requires { agent.now ≡ 0 }
    ensures { IfOk result (λ last. ServesStarted K.keeps job.now setup.now.eids.now agent.entry last) }
{
    let mut agent = agent;
    let (eid, eids) = (setup.network.endpoint.eid, setup.eids);
    let shown = begin(joined);
    agent.miss(shown);
    match start_all(&mut agent, job.number, eids) {
        Ok(()) => {}
        Err(fault) => return Err(fault),
    }
    let mut process = match AgentProcess::new(alloc, agent, keeper) {
        Ok(process) => process,
        Err(fault) => return Err(unkept(eid, fault)),
    };
    let end = end_of(shown, job.serving.ticks);
    match serve_agent_process(&mut process, &mut joined.line, &mut joined.clock, end) {
        Ok(()) => Ok(process),
        Err(fault) => Err(unkept(eid, fault)),
    }
}

/// The same, and then its observer ends, also if serving fails. Returns how it ended, too.
fn serve_observed<
    'p,
    K: AgentKeeper + Drop,
    L: Line + Drop,
    O: PacketObserver + Drop,
    C: Clock + Drop,
>(
    alloc: Global,
    job: &fwupd_base::AgentProcess<'_>,
    setup: &AgentSetup<'_>,
    agent: ServedAgent<'p>,
    keeper: K,
    joined: &mut Joined<ObservedLine<L, O>, C>,
) -> (
    Result<AgentProcess<'p, K>, JobFault>,
    Result<(), WatchFault>,
)
    requires { agent.now ≡ 0 }
    ensures serves { IfOk result.0 (λ last. ServesStarted K.keeps job.now setup.now.eids.now agent.entry last) }
    ensures ended { HasEnded O.ends result.1 joined.new.line.observer }
{
    let served = serve_started(alloc, job, setup, agent, keeper, joined);
    (served, joined.line.end())
}

/// Returns the report of the agent in a form.
fn report_in(alloc: Global, agent: &ServedAgent<'_>, form: Form) -> Result<Vec<u8>, AllocError>
    ensures { IfOk result (λ text. text.items ≡ agent_report_in form agent.now) }
{
    match form {
        Form::Text => agent.report(alloc),
        Form::Json => agent_json(
            alloc,
            agent.now(),
            agent.agent(),
            agent.counts(),
            agent.answer(),
            agent.history(),
        ),
    }
}

/// Writes the records of the agent's event log, if they are requested.
fn keep_log<W: Write + Drop, P: OutputPlaces<W>>(
    alloc: Global,
    log: Option<&str>,
    agent: &ServedAgent<'_>,
    places: &mut P,
) -> Result<(), JobFault>
    ensures logged { OnOk result (P.is_known places.old ≡ true
        → IfSome log.entry (λ p. P.held places.new p.now ≡ Some (records_bytes agent.now.agent.log.records))) }
    ensures fault { IfErr result (λ e. (e ≡ JobFault.Memory) ⊎ ((e ≡ JobFault.Log) × IsSome log.entry)) }
    ensures unmade { OnErr result (P.held places.new ≡ P.held places.old) }
{
    let Some(path) = log else {
        return Ok(());
    };
    let Ok(records) = log_bytes(alloc, agent.agent().log()) else {
        return Err(JobFault::Memory);
    };
    match write_file(places, path, &records) {
        Ok(()) => Ok(()),
        Err(JobFault::Memory) => Err(JobFault::Memory),
        Err(_) => Err(JobFault::Log),
    }
}

/// The sessions of an agent that aren't Done, of those with the devices of these counts.
fn undone_of(alloc: Global, agent: &AgentNode, counts: &[SentCount]) -> Result<Undone, AllocError>
    ensures { IfOk result (λ u. u ≡ undone_of agent.now (map (λ c. c.device) counts.now)) }
{
    let mut undone = Undone::none(alloc);
    for count in counts {
        undone.add(alloc, count.device, session_of(agent, count.device))?;
    }
    Ok(undone)
}

/// Writes the report of an agent in a format, and returns its sessions that aren't Done.
fn write_report<W: Write + Drop>(
    alloc: Global,
    agent: &ServedAgent<'_>,
    form: Form,
    output: &mut Output<W>,
) -> Result<Undone, JobFault>
    ensures written { OnOk result (WritesOutput output.old output.new (agent_report_in form agent.now)) }
    ensures undone { IfOk result (λ u. u ≡ undone_of agent.now.agent (map (λ c. c.device) agent.now.counts)) }
    ensures fault { IfErr result (λ e. ((e ≡ JobFault.Memory) × (output.new ≡ output.old))
        ⊎ ((e ≡ JobFault.Output)
        × FailsToWriteOutput output.old output.new (agent_report_in form agent.now))) }
{
    let Ok(undone) = undone_of(alloc, agent.agent(), agent.counts()) else {
        return Err(JobFault::Memory);
    };
    let Ok(text) = report_in(alloc, agent, form) else {
        return Err(JobFault::Memory);
    };
    match output.write(&text) {
        Ok(()) => Ok(undone),
        Err(fault) => Err(fault),
    }
}

/// Writes what is requested of an agent at the end: the records of its event log, and its report.
fn end_agent<H: Parts>(
    alloc: Global,
    job: &fwupd_base::AgentProcess<'_>,
    agent: &ServedAgent<'_>,
    host: &mut Host<H>,
) -> Result<(), JobFault>
    ensures ended { OnOk result (EndsServed job.now agent.now host.old.output
        (⟦<Host<H> as HostView>⟧.agent_left host.old host.new)) }
    ensures fault { IfErr result (λ e. EndFails job.now agent.now e host.old.output
        (⟦<Host<H> as HostView>⟧.agent_left host.old host.new)) }
    ensures untouched { host.new.watch ≡ host.old.watch }
{
    match keep_log(alloc, job.log, agent, &mut host.places) {
        Ok(()) => {}
        Err(fault) => return Err(fault),
    }
    let undone = match write_report(alloc, agent, job.form, &mut host.output) {
        Ok(undone) => undone,
        Err(fault) => return Err(fault),
    };
    if !job.is_checked {
        return Ok(());
    }
    undone.check()
}

/// Writes what is requested of an agent at the end, whose observer ended so.
fn end_observed<H: Parts>(
    alloc: Global,
    job: &fwupd_base::AgentProcess<'_>,
    agent: &ServedAgent<'_>,
    watched: Result<(), WatchFault>,
    host: &mut Host<H>,
) -> Result<(), JobFault>
    ensures ended { OnOk result (EndsServed job.now agent.now host.old.output
        (⟦<Host<H> as HostView>⟧.agent_left host.old host.new)) }
    ensures watched { OnOk result (watched ≡ Ok tt) }
    ensures fault { IfErr result (λ e. ObservedEndFails job.now agent.now watched e host.old.output
        (⟦<Host<H> as HostView>⟧.agent_left host.old host.new)) }
    ensures untouched { host.new.watch ≡ host.old.watch }
{
    match end_agent(alloc, job, agent, host) {
        Ok(()) => {}
        Err(fault) => return Err(fault),
    }
    match watched {
        Ok(()) => Ok(()),
        Err(fault) => Err(process_fault(fault)),
    }
}

/// An agent as a process that is observed.
fn observed<'e>(setup: &AgentSetup<'e>, number: usize) -> Observed<'e>
    ensures unit { result.unit ≡ setup.now.network.unit }
    ensures node { result.node ≡ TracedNode.Agent setup.now.network.endpoint.eid }
    ensures number { result.starts.number ≡ number }
    ensures eids { result.starts.eids.now ≡ setup.now.eids.now }
{
    let eids = setup.eids;
    Observed {
        unit: setup.network.unit,
        node: TracedNode::Agent(setup.network.endpoint.eid),
        starts: Starts { number, eids },
    }
}

/// Serves an agent as a process, with a keeper of what it keeps over a restart.
fn serve_agent<'p, K: AgentKeeper + Drop, H: Parts>(
    alloc: Global,
    job: &fwupd_base::AgentProcess<'_>,
    setup: &AgentSetup<'_>,
    agent: ServedAgent<'p>,
    keeper: K,
    host: &mut Host<H>,
) -> Result<(), JobFault>
    requires { agent.now ≡ 0 }
    ensures runs { OnOk result (RunsServed K.keeps job.now agent.entry setup.now.eids.now
        host.old.output (⟦<Host<H> as HostView>⟧.agent_left host.old host.new)) }
    ensures fault { IfErr result (λ e. ServedStops K.keeps job.now agent.entry setup.now.eids.now e
        host.old.output (⟦<Host<H> as HostView>⟧.agent_left host.old host.new)) }
    ensures untouched { host.new.watch ≡ host.old.watch }
{
    let watch = match host
        .wiring
        .watch(alloc, observed(setup, job.number), job.watching)
    {
        Ok(watch) => watch,
        Err(fault) => return Err(fault),
    };
    let joined = match host
        .wiring
        .agent(alloc, &setup.network, setup.eids, job.serving)
    {
        Ok(joined) => joined,
        Err(fault) => return Err(fault),
    };
    let mut joined = observe(joined, watch);
    let (served, watched) = serve_observed(alloc, job, setup, agent, keeper, &mut joined);
    let process = match served {
        Ok(process) => process,
        Err(fault) => return Err(fault),
    };
    end_observed(alloc, job, process.agent(), watched, host)
}

/// Serves a new agent, of which nothing is kept.
fn serve_new<'p, H: Parts>(
    alloc: Global,
    job: &fwupd_base::AgentProcess<'_>,
    setup: &AgentSetup<'_>,
    packages: &'p [Package<'p>],
    host: &mut Host<H>,
) -> Result<(), JobFault>
    requires devices { length setup.now.eids.now ≤ 16 }
    ensures runs { OnOk result (RunsServed keeps_nothing job.now (new_served_agent setup.now.network.unit
        setup.now.network.endpoint setup.now.eids.now packages.now) setup.now.eids.now
        host.old.output (⟦<Host<H> as HostView>⟧.agent_left host.old host.new)) }
    ensures fault { IfErr result (λ e. ServedStops keeps_nothing job.now (new_served_agent setup.now.network.unit
        setup.now.network.endpoint setup.now.eids.now packages.now) setup.now.eids.now e
        host.old.output (⟦<Host<H> as HostView>⟧.agent_left host.old host.new)) }
    ensures untouched { host.new.watch ≡ host.old.watch }
{
    let (unit, endpoint) = (setup.network.unit, setup.network.endpoint);
    let Ok(agent) = ServedAgent::new(alloc, unit, endpoint, setup.eids, packages) else {
        return Err(JobFault::Memory);
    };
    serve_agent(alloc, job, setup, agent, NoKeeper, host)
}

/// Serves the agent that goes on with what a folder of stores keeps, and keeps it there.
fn serve_kept<'p, H: Parts>(
    alloc: Global,
    job: &fwupd_base::AgentProcess<'_>,
    root: &str,
    setup: &AgentSetup<'_>,
    packages: &'p [Package<'p>],
    host: &mut Host<H>,
) -> Result<(), JobFault>
    requires devices { length setup.now.eids.now ≤ 16 }
    ensures runs { OnOk result (RunsKept job.now (agent_store_in (H.Stores.is_known host.old.stores)
        (H.Stores.agent_files host.old.stores) root.now) (agent_setup_seen setup.now)
        packages.now host.old.output (⟦<Host<H> as HostView>⟧.agent_left host.old host.new)) }
    ensures fault { IfErr result (λ e. KeptStops job.now (agent_store_in (H.Stores.is_known host.old.stores)
        (H.Stores.agent_files host.old.stores) root.now) (agent_setup_seen setup.now)
        packages.now e host.old.output (⟦<Host<H> as HostView>⟧.agent_left host.old host.new)) }
    ensures untouched { host.new.watch ≡ host.old.watch }
{
    let (node, keeper) = match open_agent(alloc, &mut host.stores, root, setup) {
        Ok(opened) => opened,
        Err(fault) => return Err(fault),
    };
    let Ok(agent) = ServedAgent::of_node(alloc, node, packages) else {
        return Err(JobFault::Memory);
    };
    serve_agent(alloc, job, setup, agent, keeper, host)
}

/// Serves an agent, which goes on with what a folder of stores keeps, if one is given.
fn serve_setup<'p, H: Parts>(
    alloc: Global,
    job: &fwupd_base::AgentProcess<'_>,
    setup: &AgentSetup<'_>,
    packages: &'p [Package<'p>],
    host: &mut Host<H>,
) -> Result<(), JobFault>
    requires devices { length setup.now.eids.now ≤ 16 }
    ensures runs { OnOk result (RunsAgentSetup job.now (agent_store_in (H.Stores.is_known host.old.stores)
        (H.Stores.agent_files host.old.stores)) (agent_setup_seen setup.now) packages.now
        host.old.output (⟦<Host<H> as HostView>⟧.agent_left host.old host.new)) }
    ensures fault { IfErr result (λ e. AgentSetupStops job.now (agent_store_in (H.Stores.is_known host.old.stores)
        (H.Stores.agent_files host.old.stores)) (agent_setup_seen setup.now) packages.now e
        host.old.output (⟦<Host<H> as HostView>⟧.agent_left host.old host.new)) }
    ensures untouched { host.new.watch ≡ host.old.watch }
{
    match job.store {
        None => serve_new(alloc, job, setup, packages, host),
        Some(root) => serve_kept(alloc, job, root, setup, packages, host),
    }
}

/// Serves the agent of a configuration with the packages in these bytes.
fn serve_packages<H: Parts>(
    alloc: Global,
    job: &fwupd_base::AgentProcess<'_>,
    config: &Config,
    contents: &[Vec<u8>],
    host: &mut Host<H>,
) -> Result<(), JobFault>
    requires packed { AllByRecursion (λ f. IsOk (package_of f.items)) contents.now }
    requires whole { AreWhole config.now.agent.eid (map device_of config.now.devices.items) }
    ensures runs { OnOk result (RunsPackages job.now (agent_store_in (H.Stores.is_known host.old.stores)
        (H.Stores.agent_files host.old.stores)) (config_seen config.now)
        (map (λ f. f.items) contents.now) host.old.output
        (⟦<Host<H> as HostView>⟧.agent_left host.old host.new)) }
    ensures fault { IfErr result (λ e. ContentsStop job.now (agent_store_in (H.Stores.is_known host.old.stores)
        (H.Stores.agent_files host.old.stores)) (config_seen config.now)
        (map (λ f. f.items) contents.now) e host.old.output
        (⟦<Host<H> as HostView>⟧.agent_left host.old host.new)) }
    ensures untouched { host.new.watch ≡ host.old.watch }
{
    let packages = match packages_in(alloc, contents) {
        Ok(packages) => packages,
        Err(fault) => return Err(fault),
    };
    let eids = match eids_of(alloc, config.devices.as_slice()) {
        Ok(eids) => eids,
        Err(fault) => return Err(fault),
    };
    let network = Network {
        unit: config.unit,
        endpoint: config.agent,
    };
    let setup = AgentSetup {
        network,
        eids: eids.as_slice(),
        contents,
    };
    serve_setup(alloc, job, &setup, packages.as_slice(), host)
}

/// Checks the outputs of an agent's process besides its report: none may overwrite the
/// configuration, a package or another output, or be in a store.
///
/// # Errors
/// As for `check_outputs`.
fn check_agent_outputs<F: Files>(
    alloc: Global,
    files: &F,
    job: &fwupd_base::AgentProcess<'_>,
    packages: &[String],
) -> Result<(), JobFault>
    ensures apart { OnOk result (IsApart (F.holds files.now) (agent_shows job.now)
        (job.now.config.now ∷ map (λ p. string_bytes p) packages.now)) }
    ensures fault { IfErr result (λ e. (e ≡ JobFault.Memory)
        ⊎ IsOverRead (F.holds files.now) (agent_shows job.now)
        (job.now.config.now ∷ map (λ p. string_bytes p) packages.now) e) }
{
    let inputs = agent_inputs(job.config, packages);
    let outputs = ProcessOutputs {
        watching: job.watching,
        log: job.log,
        store: job.store,
    };
    check_outputs(alloc, files, inputs, outputs)
}

/// Serves the agent of the configuration in a file as a process of its own: it starts the update of
/// each device, and handles what comes over sockets or a serial line. It ends when each session is
/// done or failed. Then the records of its event log, if they are requested, and its report are
/// written. If a folder of stores is given, the agent goes on with what its folder there keeps, and
/// what it records and its event log are kept there before a packet is sent that follows from them.
///
/// # Errors
/// The first fault, in this order: of the configuration; `Trace`, `Log` and `Record` if these files
/// would overwrite it, a package or each other, or be in a store; of each of its packages; `Store`
/// if the agent's store can't be opened; `Trace` and `Record` if these files can't be made; `Tty`
/// if the serial line can't be opened; `NoPackage` if it has no package of the number; `Unkept` if
/// its store can't be written; `Log` and `Output` if the records or the report can't be written;
/// `Undone` or `Skipped`, if that check is requested, with the sessions that aren't Done; and
/// `Trace` and `Record` if something of these couldn't be written. `Memory` if memory is refused.
pub fn run_agent<H: Parts>(
    alloc: Global,
    job: &fwupd_base::AgentProcess<'_>,
    host: &mut Host<H>,
) -> Result<(), JobFault>
    ensures runs { OnOk result (RunsAgent job.now (H.Files.holds host.old.files)
        (agent_store_in (H.Stores.is_known host.old.stores) (H.Stores.agent_files host.old.stores))
        host.old.output (⟦<Host<H> as HostView>⟧.agent_left host.old host.new)) }
    ensures fault { IfErr result (λ e. AgentProcessEnds job.now e (H.Files.holds host.old.files)
        (agent_store_in (H.Stores.is_known host.old.stores) (H.Stores.agent_files host.old.stores))
        host.old.output (⟦<Host<H> as HostView>⟧.agent_left host.old host.new)) }
    ensures untouched { host.new.watch ≡ host.old.watch }
{
    let config = match configuration(alloc, &host.files, job.config) {
        Ok(config) => config,
        Err(fault) => return Err(fault),
    };
    let packages = config.packages.as_slice();
    match check_agent_outputs(alloc, &host.files, job, packages) {
        Ok(()) => {}
        Err(fault) => return Err(fault),
    }
    let contents = match package_files(alloc, &host.files, packages) {
        Ok(contents) => contents,
        Err(fault) => return Err(fault),
    };
    serve_packages(alloc, job, &config, contents.as_slice(), host)
}
