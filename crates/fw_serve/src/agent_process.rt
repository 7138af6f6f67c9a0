//! The update agent as a process of its own.

ghost use Rattle.std.specs.Prelude.{[], ◌≡◌, ◌≤◌, ◌⊎◌, IfErr, IfOk, IfSome, List, None, OnErr, OnOk, true};
ghost use Rattle.agent_store.specs.Kept.{kept_lines};
ghost use Rattle.fw_steps.specs.Worlds.{sent_now};
ghost use Rattle.fw_store.specs.declared.kept_line.KeptLine.{KeptLine};
ghost use Rattle.fw_process.specs.Processes.{ServesRounds, ServesUntil, line_with};
ghost use Rattle.fw_serve.specs.Agents.{counts_after};
ghost use Rattle.fw_script.specs.Reports.{session_of};
ghost use Rattle.fw_serve.specs.Keeping.{DoesKept, FailsKept, IsKept, ServesKept, keeping_unit};
ghost use Rattle.fw_serve.specs.Processes.{AgentDoes, are_over, is_over};

use crate::agent::ServedAgent;
use crate::texts::clear;
use agent_store::{AgentKeeper, ChangeKeeper, KeepFault};
use fw_node::{AgentNode, Outbox};
use fw_process::{Clock, Line, ProcessNode, serve_process};
use fw_script::{SentCount, session_of};
use std::alloc::{AllocError, Global};
use std::marker::Model;
use ua_core::SessionState;

/// The update agent as a process of its own: at the end of each unit it has each device activate
/// whose session is ready for that. It is over when each session is done or failed. Before it sends
/// the packets of a call, its keeper keeps what the agent keeps over a restart, if that changed.
#[derive(Drop)]
pub struct AgentProcess<'p, K: AgentKeeper + Drop> {
    /// The agent.
    agent: ServedAgent<'p>,
    /// The keeper of what the agent keeps.
    keeper: ChangeKeeper<K>,
    /// Why the keeper failed, if it did.
    fault: Option<KeepFault>,
    /// The packets that the node sends in a call.
    outbox: Outbox,
}

impl<'p, K: AgentKeeper + Drop> Model for AgentProcess<'p, K> {
    ghost use Rattle.fw_serve.specs.Keeping.{KeepingAgentOf};

    ghost Value = { KeepingAgentOf K };

    ghost view = { λ p. record { agent = p.agent; keeper = p.keeper; fault = p.fault } };
}

impl<'p, K: AgentKeeper + Drop> AgentProcess<'p, K> {
    /// Creates the process of an agent. The keeper keeps what the agent keeps.
    ///
    /// # Errors
    /// `Unwritable` if it can't; `Memory` if memory is refused.
    pub fn new(
        alloc: Global,
        agent: ServedAgent<'p>,
        keeper: K,
    ) -> Result<AgentProcess<'p, K>, KeepFault>
        ensures agent { IfOk result (λ p. p.agent ≡ agent.entry) }
        ensures kept { IfOk result (λ p. IsKept K.keeps p) }
        ensures fault { IfOk result (λ p. p.fault ≡ None) }
    {
        let Ok(outbox) = Outbox::new(alloc) else {
            return Err(KeepFault::Memory);
        };
        let mut keeper = ChangeKeeper::new(alloc, keeper);
        if let Err(fault) = keeper.keep(agent.agent()) {
            return Err(fault);
        }
        Ok(AgentProcess {
            agent,
            keeper,
            fault: None,
            outbox,
        })
    }

    /// The agent.
    pub fn agent(&self) -> &ServedAgent<'p>
        ensures { result.now ≡ self.now.agent }
    {
        &self.agent
    }

    /// The keeper.
    pub fn keeper(&self) -> &K
        ensures { result.now ≡ self.now.keeper }
    {
        self.keeper.keeper()
    }

    /// Why the keeper failed. `None` if it didn't.
    pub fn fault(&self) -> Option<KeepFault>
        ensures { result ≡ self.now.fault }
    {
        self.fault
    }
}

/// Counts and sends all packets of a call, in the unit that the agent is in. None are left.
fn send_counted<L: Line>(agent: &mut ServedAgent<'_>, line: &mut L, outbox: &mut Outbox)
    ensures line { L.known line.new ≡ line_with (L.known line.old) [] (sent_now agent.old.now outbox.old) }
    ensures counted { agent.new ≡ record agent.old { counts = counts_after agent.old.counts outbox.old } }
    ensures empty { outbox.new ≡ [] }
{
    while let Some(packet) = outbox.pop() {
        agent.count(packet.as_slice());
        line.send(agent.now(), &packet);
    }
}

/// Has the keeper keep what the agent keeps, and then counts and sends all packets of a call.
///
/// # Errors
/// `KeepFault` if the keeper fails. Nothing is sent then.
fn keep_and_send<K: AgentKeeper + Drop, L: Line>(
    agent: &mut ServedAgent<'_>,
    keeper: &mut ChangeKeeper<K>,
    line: &mut L,
    outbox: &mut Outbox,
) -> Result<(), KeepFault>
    ensures kept { OnOk result (K.keeps keeper.new (kept_lines agent.old.agent)) }
    ensures counted { OnOk result (agent.new ≡ record agent.old { counts = counts_after agent.old.counts outbox.old }) }
    ensures line { OnOk result (L.known line.new ≡ line_with (L.known line.old) [] (sent_now agent.old.now outbox.old)) }
    ensures either { OnErr result ((ls : List KeptLine) → K.keeps keeper.old ls
        → K.keeps keeper.new ls ⊎ K.keeps keeper.new (kept_lines agent.old.agent)) }
    ensures same { OnErr result (agent.new ≡ agent.old) }
    ensures silent { OnErr result (L.known line.new ≡ L.known line.old) }
{
    match keeper.keep(agent.agent()) {
        Ok(()) => {}
        Err(fault) => return Err(fault),
    }
    send_counted(agent, line, outbox);
    Ok(())
}

/// Whether the session with a device is done or failed.
fn is_over(agent: &AgentNode, device: u8) -> bool
    ensures { result ≡ is_over (session_of agent.now device) }
{
    match session_of(agent, device) {
        Some(SessionState::Done | SessionState::Failed(_)) => true,
        _ => false,
    }
}

/// Whether the sessions with all these devices are.
fn are_over(agent: &AgentNode, counts: &[SentCount]) -> bool
    ensures { result ≡ are_over agent.now counts.now }
{
    counts.iter().all(|count| is_over(agent, count.device))
}

impl<'p, K: AgentKeeper + Drop> ProcessNode for AgentProcess<'p, K> {
    ghost use Rattle.fw_serve.specs.Keeping.{DoesKept, FailsKept, keeping_unit};
    ghost use Rattle.fw_serve.specs.Processes.{are_over};

    ghost does = { λ s d t sent. DoesKept K.keeps s d t sent };

    ghost fails = { λ s d t. FailsKept K.keeps s d t };

    ghost unit = { λ s. keeping_unit s };

    ghost is_over = { λ s. are_over s.agent.agent s.agent.counts };

    fn unit(&self) -> u32 {
        self.agent.now()
    }

    fn is_over(&self) -> bool {
        are_over(self.agent.agent(), self.agent.counts())
    }

    #[tactic(auto, using(crate::proofs::Keeping::receives, crate::proofs::Keeping::fails_before, crate::proofs::Keeping::fails_received))]
    fn receive<L: Line>(
        &mut self,
        line: &mut L,
        _stamp: u32,
        packet: &[u8],
    ) -> Result<(), AllocError> {
        clear(&mut self.outbox);
        match self.agent.on_packet(packet, &mut self.outbox) {
            Ok(()) => {}
            Err(error) => return Err(error),
        }
        match keep_and_send(&mut self.agent, &mut self.keeper, line, &mut self.outbox) {
            Ok(()) => Ok(()),
            Err(fault) => {
                self.fault = Some(fault);
                Err(AllocError)
            }
        }
    }

    #[tactic(auto, using(crate::proofs::Keeping::turns_kept, crate::proofs::Keeping::fails_turned))]
    fn turn<L: Line>(&mut self, line: &mut L) -> Result<(), AllocError> {
        clear(&mut self.outbox);
        self.agent.turn(true, &mut self.outbox);
        match keep_and_send(&mut self.agent, &mut self.keeper, line, &mut self.outbox) {
            Ok(()) => Ok(()),
            Err(fault) => {
                self.fault = Some(fault);
                Err(AllocError)
            }
        }
    }

    #[tactic(auto, using(crate::proofs::Keeping::misses_kept))]
    fn miss(&mut self, units: u32) {
        self.agent.miss(units);
    }
}

/// Serves the agent as a process over a line until it is over, or is at the unit `end` or past it
/// (`serve_process`).
///
/// # Errors
/// `Unwritable` if the keeper can't keep what the agent keeps; `Memory` if memory is refused.
/// Nothing of the deed that fails is sent, and nothing after it.
#[tactic(auto, using(crate::proofs::Keeping::agent_rounds, crate::proofs::Keeping::rounds_kept, crate::proofs::Keeping::until_kept))]
pub fn serve_agent_process<'p, K: AgentKeeper + Drop, L: Line, C: Clock>(
    process: &mut AgentProcess<'p, K>,
    line: &mut L,
    clock: &mut C,
    end: u32,
) -> Result<(), KeepFault>
    ensures served { OnOk result (ServesRounds (DoesKept K.keeps) keeping_unit
        process.old (record { line = L.known line.old; shown = C.shown clock.old })
        process.new (record { line = L.known line.new; shown = C.shown clock.new })) }
    ensures agent { OnOk result (ServesRounds AgentDoes (λ s. s.now)
        process.old.agent (record { line = L.known line.old; shown = C.shown clock.old })
        process.new.agent (record { line = L.known line.new; shown = C.shown clock.new })) }
    ensures kept { ServesKept K.keeps process.old (L.known line.old) (L.known line.new) }
    ensures stopped { OnErr result (ServesUntil (DoesKept K.keeps) (FailsKept K.keeps) process.old
        (L.known line.old) process.new (L.known line.new)) }
    ensures ends { OnOk result ((are_over process.new.agent.agent process.new.agent.counts ≡ true)
        ⊎ (end ≤ process.new.agent.now)) }
    ensures fault { IfErr result (λ e. IfSome process.new.fault (λ f. e ≡ f)) }
{
    match serve_process(process, line, clock, end) {
        Ok(()) => Ok(()),
        Err(_) => Err(process.fault().unwrap_or(KeepFault::Memory)),
    }
}
