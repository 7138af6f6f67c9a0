//! What joins the processes of nodes to their peers.

ghost use Rattle.std.specs.Prelude.{[], ◌≡◌, ◌∷◌};
ghost use Rattle.fw_process.specs.Processes.{shows};
ghost use Rattle.fwupd_nodes.specs.Processes.{end_of};

use fw_process::{Clock, Line};
use fwupd_base::{DeviceProcess, Serving, Watching};
use fwupd_traces::{ObservedLine, PacketObserver, Starts, TracedNode};
use fwupd_watch::JobFault;
use mctp_ctl::Endpoint;
use mctp_wire::Unit;
use std::alloc::Global;

/// The network of a node's process: its transmission unit, and the node's endpoint.
#[derive(Clone, Copy)]
pub struct Network {
    /// The transmission unit.
    pub unit: Unit,
    /// The node's endpoint.
    pub endpoint: Endpoint,
}

/// A process that is observed: the transmission unit of its network, its node, and the updates that
/// it starts.
#[derive(Clone, Copy)]
pub struct Observed<'a> {
    /// The transmission unit.
    pub unit: Unit,
    /// The node.
    pub node: TracedNode,
    /// The updates that it starts at its beginning.
    pub starts: Starts<'a>,
}

/// What joins a process to its peers, and the clock of the machine.
#[derive(Drop)]
pub struct Joined<L: Drop, C: Drop> {
    /// What joins it to its peers.
    pub line: L,
    /// The clock.
    pub clock: C,
}

/// What joins processes to their peers. Contracts know nothing of what it carries.
pub trait Wiring {
    /// What joins a device to the agent.
    type Device: Line + Drop;
    /// What joins the agent to its devices.
    type Agent: Line + Drop;
    /// The clock.
    type Clock: Clock + Drop;
    /// The observer of a process.
    type Watch: PacketObserver + Drop;

    /// Opens what is written of a process while it runs.
    ///
    /// # Errors
    /// `Trace` and `Record` if these files can't be made, and `Memory`.
    fn watch(
        &mut self,
        alloc: Global,
        observed: Observed<'_>,
        watching: Watching<'_>,
    ) -> Result<Self::Watch, JobFault>;

    /// Joins a device to the agent.
    ///
    /// # Errors
    /// `Socket` if its socket can't be made, `Tty` if the serial line can't be opened, and
    /// `Memory`.
    fn device(
        &mut self,
        alloc: Global,
        network: &Network,
        job: &DeviceProcess<'_>,
    ) -> Result<Joined<Self::Device, Self::Clock>, JobFault>;

    /// Joins the agent to the devices with these endpoint identifiers.
    ///
    /// # Errors
    /// `Tty` if the serial line can't be opened, and `Memory`.
    fn agent(
        &mut self,
        alloc: Global,
        network: &Network,
        eids: &[u8],
        serving: Serving<'_>,
    ) -> Result<Joined<Self::Agent, Self::Clock>, JobFault>;
}

/// Has what joins a process to its peers observed.
pub fn observe<L: Line + Drop, C: Clock + Drop, O: PacketObserver + Drop>(
    joined: Joined<L, C>,
    observer: O,
) -> Joined<ObservedLine<L, O>, C>
    ensures line { result.line.line ≡ joined.line }
    ensures observer { result.line.observer ≡ observer }
    ensures clock { result.clock ≡ joined.clock }
{
    Joined {
        line: ObservedLine::new(joined.line, observer),
        clock: joined.clock,
    }
}

/// Waits until the clock shows a unit, in which the process begins, and returns it. The observer is
/// told.
pub fn begin<L: Line + Drop, C: Clock + Drop, O: PacketObserver + Drop>(
    joined: &mut Joined<ObservedLine<L, O>, C>,
) -> u32
    ensures seen { O.begins joined.old.line.observer result joined.new.line.observer }
    ensures line { joined.new.line.line ≡ joined.old.line.line }
    ensures clock { C.shown joined.new.clock ≡ shows (C.shown joined.old.clock) (result ∷ []) }
{
    let shown = joined.clock.wait_past(0);
    joined.line.begin(shown);
    shown
}

/// The unit in which a process ends, if it ends after a number of units.
pub fn end_of(start: u32, ticks: Option<u32>) -> u32
    ensures { result ≡ end_of start ticks }
{
    match ticks {
        Some(ticks) => start.saturating_add(ticks),
        None => u32::MAX,
    }
}
