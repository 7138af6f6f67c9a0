//! The agent as a process whose keeper fails.

use crate::worked::{endpoint, file, package};
use agent_store::{AgentKeeper, KeepFault};
use fw_node::{AgentNode, Outbox};
use fw_package::Package;
use fw_process::{Clock, Line};
use fw_serve::{AgentProcess, ServedAgent, serve_agent_process};
use mctp_wire::{RawPacket, Unit};
use std::alloc::{AllocError, Global};
use std::test::Fail;

/// A keeper that keeps nothing, and fails after a number of calls.
#[derive(Drop)]
struct FailingKeeper {
    /// The calls that succeed still.
    left: u32,
}

impl AgentKeeper for FailingKeeper {
    ghost keeps = { λ k ls. Prim.Unit {0} };

    fn keep(&mut self, _agent: &AgentNode) -> Result<(), KeepFault> {
        if self.left == 0 {
            return Err(KeepFault::Unwritable);
        }
        self.left -= 1;
        Ok(())
    }
}

/// A line over which nothing comes, with the number of packets that were sent and the unit of the
/// last.
#[derive(Drop)]
struct SentLine {
    count: u32,
    unit: u32,
}

impl Line for SentLine {
    fn receive(&mut self, _packet: &mut RawPacket) -> Option<u32> {
        None
    }

    fn send(&mut self, unit: u32, _packet: &RawPacket) {
        self.count = self.count.saturating_add(1);
        self.unit = unit;
    }

    fn begin_round(&mut self, _unit: u32) {}
}

/// A clock that shows each unit.
#[derive(Drop)]
struct EachUnit;

impl Clock for EachUnit {
    fn wait_past(&mut self, unit: u32) -> u32 {
        unit + 1
    }
}

/// The agent 8 of the devices 9 and 10. The update of 9 is started at time 0, and that of 10 at
/// time 6, when the request to 9 was sent once.
fn started<'p>(alloc: Global, packages: &'p [Package<'p>]) -> Result<ServedAgent<'p>, Fail> {
    let mut agent = ServedAgent::new(alloc, Unit::U64, endpoint(8), &[9, 10], packages)?;
    let _ = agent.start(9, 1);
    for _tick in 0..6 {
        let mut outbox = Outbox::new(alloc)?;
        if agent.now() < 6 {
            agent.on_tick(&mut outbox);
        }
    }
    let _ = agent.start(10, 1);
    Ok(agent)
}

/// How a process ends, the number of packets that it sent, and the unit of the last.
#[derive(Drop)]
struct Ended {
    result: Result<(), KeepFault>,
    count: u32,
    unit: u32,
}

/// Serves the agent with a keeper that fails after a number of calls, up to the unit 30.
fn serve_failing<'p>(
    alloc: Global,
    agent: ServedAgent<'p>,
    calls: u32,
) -> Result<Ended, KeepFault> {
    let mut process = AgentProcess::new(alloc, agent, FailingKeeper { left: calls })?;
    let mut line = SentLine { count: 0, unit: 0 };
    let result = serve_agent_process(&mut process, &mut line, &mut EachUnit, 30);
    Ok(Ended {
        result,
        count: line.count,
        unit: line.unit,
    })
}

/// The number of calls that succeed, the end, the number of packets that were sent after time 6,
/// and the unit of the last. The devices don't answer. A request is sent again after 6 and after 12
/// units, and given up after 18. So in unit 19 the update of 9 fails, which the log notes, and the
/// last request to 10 is sent; in unit 25 the update of 10 fails.
const ROWS: &[(u32, Result<(), KeepFault>, u32, u32)] = &[
    (1, Err(KeepFault::Unwritable), 4, 13),
    (2, Err(KeepFault::Unwritable), 5, 19),
    (3, Ok(()), 5, 19),
];

#[test]
fn sends_nothing_that_was_not_kept(rt: HostRuntime) -> Result<(), Fail> {
    let alloc = rt.alloc();
    let bytes = file(alloc)?;
    let packages = [package(&bytes)?];
    for (calls, result, count, unit) in ROWS {
        let agent = started(alloc, &packages)?;
        let end = serve_failing(alloc, agent, *calls)?;
        assert!(rt; end.result == *result);
        assert!(rt; end.count == *count);
        assert!(rt; end.unit == *unit);
    }
    Ok(())
}

/// Whether the agent of this node is at time 0, and has applied, recorded and activated nothing.
fn is_new(alloc: Global, node: AgentNode) -> Result<bool, AllocError> {
    let agent = ServedAgent::of_node(alloc, node, &[])?;
    Ok(agent.now() == 0 && agent.history().is_empty())
}

#[test]
fn an_agent_is_made_of_a_node(rt: HostRuntime) -> Result<(), Fail> {
    let node = AgentNode::new(rt.alloc(), Unit::U64, endpoint(8), &[9, 10])?;
    assert!(rt; is_new(rt.alloc(), node)?);
    Ok(())
}
