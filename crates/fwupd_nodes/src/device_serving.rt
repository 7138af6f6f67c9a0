//! A device of a configuration as a process of its own.

ghost use Rattle.std.specs.Prelude.{[], ◌≡◌, IfErr, IfOk, None, Ok, OnOk, Some, length, map, option_map};
ghost use Rattle.fd_core.specs.Components.{HasComponents};
ghost use Rattle.fw_script.specs.Seen.{device_of};
ghost use Rattle.fw_script.specs.Whole.{AreWhole};
ghost use Rattle.fw_serve.specs.Serving.{device_report};
ghost use Rattle.fw_setup.specs.Stocks.{stores_in};
ghost use Rattle.fwupd_nodes.specs.Alone.{device_setup_seen};
ghost use Rattle.fwupd_watch.specs.Outputs.{WritesOutput};
ghost use Rattle.fwupd_nodes.specs.Processes.{DeviceProcessEnds, HasEnded, NodeStops, ReportFails, RunsDevice, RunsNode, RunsSetup, ServesProcess, SetupStops};

use crate::alone::{DeviceSetup, device_setup};
use crate::host::{Host, Parts};
use crate::outputs::{ProcessOutputs, check_outputs};
use crate::setups::open_kept;
use crate::wiring::{Joined, Network, Observed, Wiring, begin, end_of, observe};
use fd_core::Bank;
use fw_node::DeviceNode;
use fw_process::{Clock, Line, ProcessNode, serve_process};
use fw_serve::DeviceProcess;
use fw_setup::{MemBanks, device_node};
use fwupd_base::DeviceAlone;
use fwupd_traces::{ObservedLine, PacketObserver, Starts, TracedNode, WatchFault};
use fwupd_watch::{Inputs, JobFault, Output, process_fault};
use std::alloc::Global;
use std::io::Write;

/// Serves a device's node as a process over a line, from the unit that a clock shows.
fn serve_over<B: Bank + Drop, L: Line + Drop, O: PacketObserver + Drop, C: Clock + Drop>(
    alloc: Global,
    node: DeviceNode<B>,
    joined: &mut Joined<ObservedLine<L, O>, C>,
    ticks: Option<u32>,
) -> Result<DeviceProcess<B>, JobFault>
    requires { HasComponents node.half.core.device }
    ensures { IfOk result (λ process. ServesProcess ticks node process) }
{
    let Ok(mut process) = DeviceProcess::new(alloc, node) else {
        return Err(JobFault::Memory);
    };
    let shown = begin(joined);
    process.miss(shown);
    match serve_process(
        &mut process,
        &mut joined.line,
        &mut joined.clock,
        end_of(shown, ticks),
    ) {
        Ok(()) => Ok(process),
        Err(_) => Err(JobFault::Memory),
    }
}

/// The same, and then its observer ends, also if serving fails. Returns how it ended, too.
fn serve_observed<B: Bank + Drop, L: Line + Drop, O: PacketObserver + Drop, C: Clock + Drop>(
    alloc: Global,
    node: DeviceNode<B>,
    joined: &mut Joined<ObservedLine<L, O>, C>,
    ticks: Option<u32>,
) -> (Result<DeviceProcess<B>, JobFault>, Result<(), WatchFault>)
    requires { HasComponents node.half.core.device }
    ensures serves { IfOk result.0 (λ process. ServesProcess ticks node process) }
    ensures ended { HasEnded O.ends result.1 joined.new.line.observer }
{
    let served = serve_over(alloc, node, joined, ticks);
    (served, joined.line.end())
}

/// Writes the report of a device's process, whose observer ended so.
fn report_served<B: Bank + Drop, W: Write + Drop>(
    process: &DeviceProcess<B>,
    watched: Result<(), WatchFault>,
    output: &mut Output<W>,
) -> Result<(), JobFault>
    ensures written { OnOk result (WritesOutput output.old output.new (device_report process.now.device)) }
    ensures watched { OnOk result (watched ≡ Ok tt) }
    ensures fault { IfErr result (λ e. ReportFails (device_report process.now.device) watched e output.old output.new) }
{
    let Ok(text) = process.report() else {
        return Err(JobFault::Memory);
    };
    match output.write(&text) {
        Ok(()) => {}
        Err(fault) => return Err(fault),
    }
    match watched {
        Ok(()) => Ok(()),
        Err(fault) => Err(process_fault(fault)),
    }
}

/// A device as a process that is observed.
fn observed(network: &Network) -> Observed<'static>
    ensures unit { result.unit ≡ network.now.unit }
    ensures node { result.node ≡ TracedNode.Device network.now.endpoint.eid }
    ensures starts { result.starts.eids.now ≡ [] }
{
    Observed {
        unit: network.unit,
        node: TracedNode::Device(network.endpoint.eid),
        starts: Starts {
            number: 0,
            eids: &[],
        },
    }
}

/// Serves a device's node as a process, and writes its report at the end.
fn serve_device<B: Bank + Drop, H: Parts>(
    alloc: Global,
    job: &fwupd_base::DeviceProcess<'_>,
    network: Network,
    node: DeviceNode<B>,
    host: &mut Host<H>,
) -> Result<(), JobFault>
    requires { HasComponents node.half.core.device }
    ensures runs { OnOk result (RunsNode job.now.serving.ticks node host.old.output host.new.output) }
    ensures fault { IfErr result (λ e. NodeStops job.now.serving.ticks node e host.old.output host.new.output) }
    ensures untouched { host.new.watch ≡ host.old.watch }
{
    let watch = match host.wiring.watch(alloc, observed(&network), job.watching) {
        Ok(watch) => watch,
        Err(fault) => return Err(fault),
    };
    let joined = match host.wiring.device(alloc, &network, job) {
        Ok(joined) => joined,
        Err(fault) => return Err(fault),
    };
    let mut joined = observe(joined, watch);
    let (served, watched) = serve_observed(alloc, node, &mut joined, job.serving.ticks);
    let process = match served {
        Ok(process) => process,
        Err(fault) => return Err(fault),
    };
    report_served(&process, watched, &mut host.output)
}

/// Serves a device with the images of the configuration.
fn serve_configured<H: Parts>(
    alloc: Global,
    job: &fwupd_base::DeviceProcess<'_>,
    setup: &DeviceSetup,
    host: &mut Host<H>,
) -> Result<(), JobFault>
    requires whole { AreWhole setup.now.agent (map device_of setup.now.only.items) }
    requires one { length setup.now.only.items ≡ 1 }
    requires none { job.now.store ≡ None }
    ensures runs { OnOk result (RunsSetup job.now (device_setup_seen setup.now)
        (stores_in (H.Stores.is_known host.old.stores) (H.Stores.files host.old.stores))
        host.old.output host.new.output) }
    ensures fault { IfErr result (λ e. SetupStops job.now (device_setup_seen setup.now)
        (stores_in (H.Stores.is_known host.old.stores) (H.Stores.files host.old.stores)) e
        host.old.output host.new.output) }
    ensures untouched { host.new.watch ≡ host.old.watch }
{
    let device = &setup.only[0];
    let network = Network {
        unit: setup.unit,
        endpoint: device.endpoint,
    };
    let Ok(node) = device_node(alloc, setup.unit, setup.agent, device, &mut MemBanks) else {
        return Err(JobFault::Memory);
    };
    serve_device(alloc, job, network, node, host)
}

/// Serves a device with the images in its store.
fn serve_stored<H: Parts>(
    alloc: Global,
    job: &fwupd_base::DeviceProcess<'_>,
    root: &str,
    setup: DeviceSetup,
    host: &mut Host<H>,
) -> Result<(), JobFault>
    requires whole { AreWhole setup.agent (map device_of setup.only.items) }
    requires one { length setup.only.items ≡ 1 }
    requires some { option_map (λ p. p.now) job.now.store ≡ Some root.now }
    ensures runs { OnOk result (RunsSetup job.now (device_setup_seen setup)
        (stores_in (H.Stores.is_known host.old.stores) (H.Stores.files host.old.stores))
        host.old.output host.new.output) }
    ensures fault { IfErr result (λ e. SetupStops job.now (device_setup_seen setup)
        (stores_in (H.Stores.is_known host.old.stores) (H.Stores.files host.old.stores)) e
        host.old.output host.new.output) }
    ensures untouched { host.new.watch ≡ host.old.watch }
{
    let DeviceSetup {
        unit,
        agent,
        mut only,
    } = setup;
    let mut banks = match open_kept(alloc, &mut host.stores, root, &mut only) {
        Ok(banks) => banks,
        Err(fault) => return Err(fault),
    };
    let device = &only[0];
    let network = Network {
        unit,
        endpoint: device.endpoint,
    };
    // The store was opened for its device, so a bank is only missing for lack of memory.
    let Ok(node) = device_node(alloc, unit, agent, device, &mut banks) else {
        return Err(JobFault::Memory);
    };
    serve_device(alloc, job, network, node, host)
}

/// Serves a device of the configuration in a file as a process of its own: its node handles what
/// comes over a socket or a serial line. If a folder of stores is given, the device begins with the
/// images in its store, and writes activated images there. At the end its report is written.
///
/// # Errors
/// The first fault, in this order: of the configuration; `NoDevice` if it has no such device;
/// `Trace` and `Record` if these files would overwrite it, each other, or are in a store; `Store`
/// if the device's store can't be opened; `Trace` and `Record` if these files can't be made;
/// `Socket` or `Tty` if what joins it to the agent can't be made; `Output` if the report can't be
/// written; and `Trace` and `Record` if something of these couldn't be written. `Memory` if memory
/// is refused.
#[tactic(auto, using(crate::proofs::Processes::device_stops, crate::proofs::Processes::device_overwrites))]
pub fn run_device<H: Parts>(
    alloc: Global,
    job: &fwupd_base::DeviceProcess<'_>,
    host: &mut Host<H>,
) -> Result<(), JobFault>
    ensures runs { OnOk result (RunsDevice job.now (H.Files.holds host.old.files)
        (stores_in (H.Stores.is_known host.old.stores) (H.Stores.files host.old.stores))
        host.old.output host.new.output) }
    ensures fault { IfErr result (λ e. DeviceProcessEnds job.now e (H.Files.holds host.old.files)
        (stores_in (H.Stores.is_known host.old.stores) (H.Stores.files host.old.stores))
        host.old.output host.new.output) }
    ensures untouched { host.new.watch ≡ host.old.watch }
{
    let alone = DeviceAlone {
        config: job.config,
        eid: job.eid,
        store: job.store,
        report: None,
        is_automatic: true,
        is_open: job.serving.is_open,
    };
    let setup = match device_setup(alloc, &host.files, alone) {
        Ok(setup) => setup,
        Err(fault) => return Err(fault),
    };
    let outputs = ProcessOutputs {
        watching: job.watching,
        log: None,
        store: job.store,
    };
    let inputs = Inputs::new(&job.config, &[]);
    match check_outputs(alloc, &host.files, inputs, outputs) {
        Ok(()) => {}
        Err(fault) => return Err(fault),
    }
    match job.store {
        Some(root) => serve_stored(alloc, job, root, setup, host),
        None => serve_configured(alloc, job, &setup, host),
    }
}
