//! The update agent by itself: its node, its clock, and the history of its records.

ghost use Rattle.std.specs.Prelude.{[], ◌≡◌, ◌≢◌, ◌≤◌, ◌<◌, ◌+◌, ◌-◌, ◌^◌, ◌∷◌, Bool, IfErr, IfOk, None, OnErr, OnOk, Some, is_some, length, map, option_map, true};
ghost use Rattle.fw_message.specs.Entries.{entry_of};
ghost use Rattle.fw_node.specs.Agents.{free_for, half_for, new_agent, ready_for};
ghost use Rattle.fw_steps.specs.Alone.{AgentCall};
ghost use Rattle.fw_steps.specs.Steps.{is_package};
ghost use Rattle.fw_serve.specs.Processes.{agent_after_missing};
ghost use Rattle.fw_serve.specs.Agents.{activated_if_ready, agent_report, agent_served, counts_with, known_refusal, log_answer, new_counts, new_served_agent, ready_refusal, served_agent_of, served_packets, start_refusal, turn_ended, turn_packets, turn_taken};

use crate::counts::{count_packet, counts_for, counts_of};
use crate::texts::LineRefusal;
use fw_message::Entry;
use fw_node::{AgentNode, Outbox};
use fw_package::Package;
use fw_script::{SentCount, push_agent_alone, push_history, push_log, push_sessions};
use fw_steps::deliver_and_record;
use mctp_ctl::Endpoint;
use mctp_wire::Unit;
use sel_core::{CompletionCode, SelReply};
use std::alloc::{AllocError, Global};
use std::marker::Model;
use ua_core::{SessionState, StartFault};

/// Why a call of the operator isn't taken.
#[derive(Clone, Copy, PartialEq, Eq)]
pub enum CallFault {
    /// The agent refuses it.
    Refused(LineRefusal),
    /// Memory was refused.
    Memory,
}

/// The agent's node, its clock, the packets that it sent to each device, and the history of its
/// records.
#[derive(Drop)]
pub struct ServedAgent<'p> {
    /// The packages that the operator may start updates with.
    packages: &'p [Package<'p>],
    /// The units of time that have passed.
    time: u32,
    /// The agent's node.
    agent: AgentNode,
    /// The number of packets that the agent sent to each of its devices, in configured order.
    counts: Vec<SentCount>,
    /// The last answer of the event log, or none before the first request.
    answer: Option<SelReply>,
    /// The history, in order.
    history: Vec<Entry<'p>>,
}

impl<'p> Model for ServedAgent<'p> {
    ghost use Rattle.std.specs.Prelude.{map, option_map};
    ghost use Rattle.fw_message.specs.Entries.{entry_of};
    ghost use Rattle.fw_serve.specs.Agents.{ServedAgentOf};

    ghost Value = { ServedAgentOf };

    ghost view = { λ s. record {
      packages = s.packages.now;
      now = s.time;
      agent = s.agent;
      counts = s.counts.items;
      answer = option_map (λ a. a.items) s.answer;
      history = map entry_of s.history.items;
    } };
}

impl<'p> ServedAgent<'p> {
    /// Creates the agent of the devices with these endpoint identifiers, at most 16, in a network
    /// with this transmission unit, at time 0.
    ///
    /// # Errors
    /// `AllocError` if memory for it is refused.
    pub fn new(
        alloc: Global,
        unit: Unit,
        endpoint: Endpoint,
        devices: &[u8],
        packages: &'p [Package<'p>],
    ) -> Result<ServedAgent<'p>, AllocError>
        requires { length devices.now ≤ 16 }
        ensures { IfOk result (λ s. s ≡ new_served_agent unit endpoint devices.now packages.now) }
    {
        let agent = AgentNode::new(alloc, unit, endpoint, devices)?;
        let counts = counts_for(alloc, devices)?;
        Ok(ServedAgent {
            packages,
            time: 0,
            agent,
            counts,
            answer: None,
            history: Vec::new(alloc),
        })
    }

    /// Creates the agent with this node, which may be resumed, at time 0. It has sent nothing.
    ///
    /// # Errors
    /// `AllocError` if memory for it is refused.
    pub fn of_node(
        alloc: Global,
        node: AgentNode,
        packages: &'p [Package<'p>],
    ) -> Result<ServedAgent<'p>, AllocError>
        ensures { IfOk result (λ s. s ≡ served_agent_of node packages.now) }
    {
        let counts = counts_of(alloc, &node)?;
        Ok(ServedAgent {
            packages,
            time: 0,
            agent: node,
            counts,
            answer: None,
            history: Vec::new(alloc),
        })
    }

    /// The units of time that have passed.
    pub fn now(&self) -> u32
        ensures { result ≡ self.now.now }
    {
        self.time
    }

    /// The agent's node.
    pub fn agent(&self) -> &AgentNode
        ensures { result.now ≡ self.now.agent }
    {
        &self.agent
    }

    /// The number of packets that the agent sent to each of its devices, in configured order.
    pub fn counts(&self) -> &[SentCount]
        ensures { result.now ≡ self.now.counts }
    {
        self.counts.as_slice()
    }

    /// The last answer of the event log. `None` before the first request.
    pub fn answer(&self) -> Option<&[u8]>
        ensures { option_map (λ a. a.now) result ≡ self.now.answer }
    {
        match &self.answer {
            Some(answer) => Some(answer.as_slice()),
            None => None,
        }
    }

    /// The history of the agent's records, in order.
    pub fn history(&self) -> &[Entry<'p>]
        ensures { map entry_of result.now ≡ self.now.history }
    {
        self.history.as_slice()
    }

    /// Counts a packet that the agent sent, for its device.
    pub fn count(&mut self, packet: &[u8])
        ensures { self.new ≡ record self.old { counts = counts_with self.old.counts packet.now } }
    {
        count_packet(self.counts.as_mut_slice(), packet);
    }

    /// Handles the bytes of a packet, and puts the packets to send into `outbox`, which must be
    /// empty. The component that the agent records is noted. `count` counts what is sent.
    ///
    /// # Errors
    /// `AllocError` if memory for the entry is refused. The agent is unchanged then.
    pub fn on_packet(&mut self, bytes: &[u8], outbox: &mut Outbox) -> Result<(), AllocError>
        requires { outbox.old ≡ [] }
        ensures taken { OnOk result (self.new ≡ record (agent_served self.old
            (AgentCall.Receives self.old.now bytes.now)) { counts = self.old.counts }) }
        ensures sent { OnOk result (outbox.new ≡ served_packets self.old
            (AgentCall.Receives self.old.now bytes.now)) }
        ensures same { OnErr result (self.new ≡ self.old) }
    {
        let Ok(()) = self.history.reserve(1) else {
            return Err(AllocError);
        };
        deliver_and_record(
            &mut self.agent,
            self.packages,
            bytes,
            self.time,
            outbox,
            &mut self.history,
        );
        Ok(())
    }

    /// Handles a tick, and puts the packets to send into `outbox`, which must be empty. `count`
    /// counts what is sent.
    pub fn on_tick(&mut self, outbox: &mut Outbox)
        requires clock { self.old.now < 2 ^ 32 - 1 }
        requires outbox { outbox.old ≡ [] }
        ensures taken { self.new ≡ record (agent_served self.old (AgentCall.Ticks (self.old.now + 1))) {
          counts = self.old.counts;
        } }
        ensures sent { outbox.new ≡ served_packets self.old (AgentCall.Ticks (self.old.now + 1)) }
    {
        self.time += 1;
        self.agent.on_tick(self.packages, self.time, outbox);
    }

    /// The operator starts an update of a device with the package of this number.
    ///
    /// # Errors
    /// `NoSuchNode`, then `NoSuchPackage`, then `Busy`; else `Memory`. The agent is unchanged then.
    pub fn start(&mut self, device: u8, number: usize) -> Result<(), CallFault>
        ensures taken { OnOk result (self.new ≡ agent_served self.old
            (AgentCall.Starts self.old.now device number)) }
        ensures may { OnOk result (start_refusal (is_package self.old.packages number)
            (free_for self.old.agent device) ≡ None) }
        ensures refused { IfErr result (λ e. e ≢ CallFault.Memory → Some e ≡ option_map
            CallFault.Refused (start_refusal (is_package self.old.packages number)
            (free_for self.old.agent device))) }
        ensures lacked { IfErr result (λ e. e ≡ CallFault.Memory
            → start_refusal (is_package self.old.packages number) (free_for self.old.agent device) ≡ None) }
        ensures same { OnErr result (self.new ≡ self.old) }
    {
        if self.agent.session(device).is_none() {
            return Err(CallFault::Refused(LineRefusal::NoSuchNode));
        }
        if number == 0 || number > self.packages.len() {
            return Err(CallFault::Refused(LineRefusal::NoSuchPackage));
        }
        match self.agent.start(self.packages, device, number, self.time) {
            Ok(()) => Ok(()),
            Err(StartFault::Busy) => Err(CallFault::Refused(LineRefusal::Busy)),
            Err(StartFault::Memory) => Err(CallFault::Memory),
        }
    }

    /// The operator cancels the update of a device.
    ///
    /// # Errors
    /// `NoSuchNode` if the agent has no such device. The agent is unchanged then.
    pub fn cancel(&mut self, device: u8) -> Result<(), LineRefusal>
        ensures taken { OnOk result (self.new ≡ agent_served self.old
            (AgentCall.Cancels self.old.now device)) }
        ensures may { OnOk result (known_refusal (is_some (half_for self.old.agent device)) None ≡ None) }
        ensures refused { IfErr result (λ e. Some e
            ≡ known_refusal (is_some (half_for self.old.agent device)) None) }
        ensures same { OnErr result (self.new ≡ self.old) }
    {
        if self.agent.session(device).is_none() {
            return Err(LineRefusal::NoSuchNode);
        }
        self.agent.cancel(self.packages, device, self.time);
        Ok(())
    }

    /// The operator has a device activate the images that it applied.
    ///
    /// # Errors
    /// `NoSuchNode`, then `NotReady`. The agent is unchanged then.
    pub fn activate(&mut self, device: u8) -> Result<(), LineRefusal>
        ensures taken { OnOk result (self.new ≡ agent_served self.old
            (AgentCall.Activates self.old.now device)) }
        ensures may { OnOk result (known_refusal (is_some (half_for self.old.agent device))
            (ready_refusal (is_some (ready_for self.old.agent device))) ≡ None) }
        ensures refused { IfErr result (λ e. Some e
            ≡ known_refusal (is_some (half_for self.old.agent device))
            (ready_refusal (is_some (ready_for self.old.agent device)))) }
        ensures same { OnErr result (self.new ≡ self.old) }
    {
        if self.agent.session(device).is_none() {
            return Err(LineRefusal::NoSuchNode);
        }
        match self.agent.activate(self.packages, device, self.time) {
            Ok(()) => Ok(()),
            Err(_) => Err(LineRefusal::NotReady),
        }
    }

    /// A request to the event log, whose answer is the last one then. A request without a byte has
    /// a wrong length.
    pub fn ask_log(&mut self, request: &[u8])
        ensures { self.new ≡ agent_served self.old (AgentCall.AsksLog self.old.now request.now) }
    {
        let [command, data @ ..] = request else {
            self.answer = Some(wrong_length());
            return;
        };
        self.answer = Some(self.agent.request(*command, data, self.time));
    }

    /// Restarts the node.
    pub fn restart(&mut self)
        ensures { self.new ≡ agent_served self.old AgentCall.Restarts }
    {
        self.agent.restart();
    }

    /// Has the device activate if its session is ready for that.
    fn activate_if_ready(&mut self, device: u8)
        ensures after { self.new ≡ activated_if_ready self.old device }
        ensures clock { self.new.now ≡ self.old.now }
        ensures counts { self.new.counts ≡ self.old.counts }
    {
        let _ = self.agent.activate(self.packages, device, self.time);
    }

    /// Has each device activate whose session is ready for that, in their order, if `auto`.
    pub fn end_turn(&mut self, auto: bool)
        ensures after { self.new ≡ turn_ended auto self.old }
        ensures clock { self.new.now ≡ self.old.now }
        ensures counts { self.new.counts ≡ self.old.counts }
    {
        if !auto {
            return;
        }
        for place in 0..self.counts.len() {
            let device = self.counts[place].device;
            self.activate_if_ready(device);
        }
    }

    /// Has each device activate whose session is ready for that at the end of a turn, if `auto`,
    /// and begins the next turn: the agent handles a tick.
    pub fn turn(&mut self, auto: bool, outbox: &mut Outbox)
        requires clock { self.old.now < 2 ^ 32 - 1 }
        requires outbox { outbox.old ≡ [] }
        ensures taken { self.new ≡ record (turn_taken auto self.old) { counts = self.old.counts } }
        ensures sent { outbox.new ≡ turn_packets auto self.old }
    {
        self.end_turn(auto);
        self.on_tick(outbox);
    }

    /// Restarts the node, and goes on after this number of units.
    pub fn miss(&mut self, units: u32)
        requires { self.old.now + units < 2 ^ 32 }
        ensures { self.new ≡ agent_after_missing self.old units }
    {
        self.agent.restart();
        self.time += units;
    }

    /// Returns the report of the agent as text: its node, its sessions, its event log, and the
    /// history.
    ///
    /// # Errors
    /// `AllocError` if memory is refused.
    pub fn report(&self, alloc: Global) -> Result<Vec<u8>, AllocError>
        ensures { IfOk result (λ text. text.items ≡ agent_report self.now) }
    {
        let mut text = Vec::new(alloc);
        push_agent_alone(alloc, &mut text, self.agent())?;
        push_sessions(alloc, &mut text, self.agent(), self.counts())?;
        push_log(alloc, &mut text, self.agent().log().len(), self.answer())?;
        push_history(alloc, &mut text, self.history())?;
        Ok(text)
    }
}

/// Returns the answer to a request of a wrong length.
fn wrong_length() -> SelReply
    ensures { result.items ≡ 0xC7 ∷ [] }
{
    let mut answer = SelReply::new();
    answer.push(CompletionCode::LengthInvalid.byte());
    answer
}
