//! The update agent as a server of lines.

ghost use Rattle.std.specs.Prelude.{[], ◌≡◌, ◌≤◌, ◌++◌, IfOk, OnOk, Ok, Some, length};
ghost use Rattle.fw_serve.specs.Agents.{agent_called, agent_line_front, agent_read_served, agent_report, agent_served_behind, agent_step_served, agent_ticks_served, call_text, counts_after, log_asked, new_served_agent, turn_ended};
ghost use Rattle.fw_serve.specs.Fronts.{answer_in_front};
ghost use Rattle.fw_serve.specs.Lines.{AgentLineOf, agent_line_seen};
ghost use Rattle.fw_serve.specs.Texts.{packets_spaced};
ghost use Rattle.fw_steps.specs.Alone.{AgentCall};
ghost use Rattle.fw_steps.specs.declared.step.Step.{Step};

use crate::agent::{CallFault, ServedAgent};
use crate::fronts::{FilterOptions, front_answer};
use crate::lines::{AgentLine, read_agent_line};
use crate::texts::{
    LineRefusal, clear, end_packets, push_answer, push_fault, push_nothing, push_packet,
    push_refused,
};
use fw_json::agent_json;
use fw_node::Outbox;
use fw_package::Package;
use fw_script::ScriptCause;
use fw_world::Step;
use fwupd_base::LineServer;
use mctp_ctl::Endpoint;
use mctp_wire::Unit;
use std::alloc::{AllocError, Global};
use std::marker::Model;

/// The update agent as a server of lines. Each line is a call of its node, and prints the packets
/// that the node sends.
#[derive(Drop)]
pub struct AgentFilter<'p> {
    /// The allocator of its calls.
    alloc: Global,
    /// What it does beside its lines.
    options: FilterOptions,
    /// The agent.
    agent: ServedAgent<'p>,
    /// The packets that the node sends in a call.
    outbox: Outbox,
}

impl<'p> Model for AgentFilter<'p> {
    ghost use Rattle.fw_serve.specs.Agents.{AgentFilterOf};

    ghost Value = { AgentFilterOf };

    ghost view = { λ f. record { options = f.options; agent = f.agent } };
}

impl<'p> AgentFilter<'p> {
    /// Creates the server of the agent of the devices with these endpoint identifiers, at most 16,
    /// in a network with this transmission unit. With `options.auto`, each session that is ready
    /// has its device activate at the end of each turn.
    ///
    /// # Errors
    /// `AllocError` if memory for it is refused.
    pub fn new(
        alloc: Global,
        unit: Unit,
        endpoint: Endpoint,
        devices: &[u8],
        packages: &'p [Package<'p>],
        options: FilterOptions,
    ) -> Result<AgentFilter<'p>, AllocError>
        requires { length devices.now ≤ 16 }
        ensures { IfOk result (λ f. f ≡ record {
          options = options;
          agent = new_served_agent unit endpoint devices.now packages.now;
        }) }
    {
        let agent = ServedAgent::new(alloc, unit, endpoint, devices, packages)?;
        let outbox = Outbox::new(alloc)?;
        Ok(AgentFilter {
            alloc,
            options,
            agent,
            outbox,
        })
    }

    /// The agent.
    pub fn agent(&self) -> &ServedAgent<'p>
        ensures { result.now ≡ self.now.agent }
    {
        &self.agent
    }

    /// Gives what is due at the end of the last turn. To be called at the end of the input, before
    /// the report.
    pub fn end_turn(&mut self)
        ensures { self.new ≡ record self.old { agent = turn_ended self.old.options.auto self.old.agent } }
    {
        self.agent.end_turn(self.options.auto);
    }

    /// Serves a line that was read.
    fn serve_read(&mut self, line: AgentLine, text: &mut Vec<u8>) -> Result<(), AllocError>
        requires { text.old.items ≡ [] }
        ensures options { OnOk result (self.new.options ≡ self.old.options) }
        ensures agent { OnOk result (self.new.agent ≡ (agent_served_behind
            (agent_line_front self.old.options.front (Ok (Some (agent_line_seen line))))
            self.old.options.auto self.old.agent (Ok (Some (agent_line_seen line)))).agent) }
        ensures text { OnOk result (text.new.items ≡ (agent_served_behind
            (agent_line_front self.old.options.front (Ok (Some (agent_line_seen line))))
            self.old.options.auto self.old.agent (Ok (Some (agent_line_seen line)))).text) }
    {
        match line {
            AgentLine::Packet(bytes) => self.take_packet(&bytes, text),
            AgentLine::Ticks(count) => self.tick(count, text),
            AgentLine::Call(step) => self.call(&step, text),
            AgentLine::Restart => self.restart(text),
            AgentLine::Report => self.push_json(text),
        }
    }

    /// A packet arrives at the front, or at the node if the front has no answer.
    fn take_packet(&mut self, bytes: &[u8], text: &mut Vec<u8>) -> Result<(), AllocError>
        requires { text.old.items ≡ [] }
        ensures options { OnOk result (self.new.options ≡ self.old.options) }
        ensures agent { OnOk result (self.new.agent ≡ (agent_served_behind
            (answer_in_front self.old.options.front bytes.now) self.old.options.auto self.old.agent
            (Ok (Some (AgentLineOf.Packet bytes.now)))).agent) }
        ensures text { OnOk result (text.new.items ≡ (agent_served_behind
            (answer_in_front self.old.options.front bytes.now) self.old.options.auto self.old.agent
            (Ok (Some (AgentLineOf.Packet bytes.now)))).text) }
    {
        match front_answer(self.options.front, bytes) {
            Some(answer) => push_answer(self.alloc, text, answer.as_slice()),
            None => self.receive(bytes, text),
        }
    }

    /// A packet arrives at the node.
    fn receive(&mut self, bytes: &[u8], text: &mut Vec<u8>) -> Result<(), AllocError>
        requires { text.old.items ≡ [] }
        ensures options { OnOk result (self.new.options ≡ self.old.options) }
        ensures agent { OnOk result (self.new.agent ≡ (agent_called self.old.agent
            (AgentCall.Receives self.old.agent.now bytes.now)).agent) }
        ensures text { OnOk result (text.new.items ≡ (agent_called self.old.agent
            (AgentCall.Receives self.old.agent.now bytes.now)).text) }
    {
        clear(&mut self.outbox);
        match self.agent.on_packet(bytes, &mut self.outbox) {
            Ok(()) => {}
            Err(error) => return Err(error),
        }
        match push_counted(self.alloc, text, &mut self.agent, &mut self.outbox) {
            Ok(()) => {}
            Err(error) => return Err(error),
        }
        end_packets(text)
    }

    /// A number of ticks. They are refused together if the clock would pass its last unit.
    fn tick(&mut self, count: u64, text: &mut Vec<u8>) -> Result<(), AllocError>
        requires { text.old.items ≡ [] }
        ensures options { OnOk result (self.new.options ≡ self.old.options) }
        ensures agent { OnOk result (self.new.agent ≡ (agent_ticks_served self.old.options.auto count self.old.agent).agent) }
        ensures text { OnOk result (text.new.items ≡ (agent_ticks_served self.old.options.auto count self.old.agent).text) }
    {
        if count > u64::from(u32::MAX - self.agent.now()) {
            return push_refused(text, LineRefusal::ClockEnd);
        }
        clear(&mut self.outbox);
        for _taken in 0..count {
            self.agent.turn(self.options.auto, &mut self.outbox);
            match push_counted(self.alloc, text, &mut self.agent, &mut self.outbox) {
                Ok(()) => {}
                Err(error) => return Err(error),
            }
        }
        end_packets(text)
    }

    /// The node restarts.
    fn restart(&mut self, text: &mut Vec<u8>) -> Result<(), AllocError>
        requires { text.old.items ≡ [] }
        ensures options { OnOk result (self.new.options ≡ self.old.options) }
        ensures agent { OnOk result (self.new.agent ≡ (agent_called self.old.agent AgentCall.Restarts).agent) }
        ensures text { OnOk result (text.new.items ≡ (agent_called self.old.agent AgentCall.Restarts).text) }
    {
        self.agent.restart();
        push_nothing(text)
    }

    /// A call of the operator.
    fn call(&mut self, step: &Step, text: &mut Vec<u8>) -> Result<(), AllocError>
        requires { text.old.items ≡ [] }
        ensures options { OnOk result (self.new.options ≡ self.old.options) }
        ensures agent { OnOk result (self.new.agent ≡ (agent_step_served self.old.agent step.now).agent) }
        ensures text { OnOk result (text.new.items ≡ (agent_step_served self.old.agent step.now).text) }
    {
        match step {
            Step::Start(device, number) => self.start(*device, *number, text),
            Step::Cancel(device) => {
                let taken = self.agent.cancel(*device);
                end_call(text, taken)
            }
            Step::Activate(device) => {
                let taken = self.agent.activate(*device);
                end_call(text, taken)
            }
            Step::Sel(request) => self.ask_log(request.as_slice(), text),
            _ => Ok(()),
        }
    }

    /// The operator starts an update.
    fn start(&mut self, device: u8, number: usize, text: &mut Vec<u8>) -> Result<(), AllocError>
        requires { text.old.items ≡ [] }
        ensures options { OnOk result (self.new.options ≡ self.old.options) }
        ensures agent { OnOk result (self.new.agent ≡ (agent_step_served self.old.agent
            (Step.Start device number)).agent) }
        ensures text { OnOk result (text.new.items ≡ (agent_step_served self.old.agent
            (Step.Start device number)).text) }
    {
        match self.agent.start(device, number) {
            Ok(()) => push_nothing(text),
            Err(CallFault::Refused(refusal)) => push_refused(text, refusal),
            Err(CallFault::Memory) => Err(AllocError),
        }
    }

    /// A request to the event log.
    fn ask_log(&mut self, request: &[u8], text: &mut Vec<u8>) -> Result<(), AllocError>
        requires { text.old.items ≡ [] }
        ensures options { OnOk result (self.new.options ≡ self.old.options) }
        ensures agent { OnOk result (self.new.agent ≡ (log_asked self.old.agent request.now).agent) }
        ensures text { OnOk result (text.new.items ≡ (log_asked self.old.agent request.now).text) }
    {
        self.agent.ask_log(request);
        let Some(answer) = self.agent.answer() else {
            return Ok(());
        };
        push_answer(self.alloc, text, answer)
    }

    /// Prints the report as JSON.
    fn push_json(&self, text: &mut Vec<u8>) -> Result<(), AllocError>
        requires { text.old.items ≡ [] }
        ensures { OnOk result (text.new.items
            ≡ (agent_read_served self.now.options.auto self.now.agent AgentLineOf.Reports).text) }
    {
        let agent = &self.agent;
        let line = agent_json(
            self.alloc,
            agent.now(),
            agent.agent(),
            agent.counts(),
            agent.answer(),
            agent.history(),
        )?;
        text.extend_from_slice(&line)?;
        Ok(())
    }

    /// Returns the report of the agent as text: its node, its sessions, its event log, and the
    /// history.
    ///
    /// # Errors
    /// `AllocError` if memory is refused.
    pub fn report(&self) -> Result<Vec<u8>, AllocError>
        ensures { IfOk result (λ text. text.items ≡ agent_report self.now.agent) }
    {
        self.agent.report(self.alloc)
    }
}

/// Prints the packets of the outbox, a space after each, counts them, and empties the outbox.
fn push_counted(
    alloc: Global,
    text: &mut Vec<u8>,
    agent: &mut ServedAgent<'_>,
    outbox: &mut Outbox,
) -> Result<(), AllocError>
    ensures sent { OnOk result (text.new.items ≡ text.old.items ++ packets_spaced outbox.old) }
    ensures counted { OnOk result (agent.new ≡ record agent.old {
      counts = counts_after agent.old.counts outbox.old;
    }) }
    ensures empty { OnOk result (outbox.new ≡ []) }
{
    while let Some(packet) = outbox.pop() {
        agent.count(packet.as_slice());
        push_packet(alloc, text, packet.as_slice())?;
    }
    Ok(())
}

/// Prints the line of a call of the operator: no packet is sent, or it isn't taken.
fn end_call(text: &mut Vec<u8>, taken: Result<(), LineRefusal>) -> Result<(), AllocError>
    requires { text.old.items ≡ [] }
    ensures { OnOk result (text.new.items ≡ call_text taken) }
{
    match taken {
        Ok(()) => push_nothing(text),
        Err(refusal) => push_refused(text, refusal),
    }
}

impl<'p> LineServer for AgentFilter<'p> {
    ghost use Rattle.std.specs.Prelude.{true};
    ghost use Rattle.fw_serve.specs.Agents.{ServesAgentLine};

    ghost serves = { λ s line t text. ServesAgentLine s line t text };

    ghost may_lack = { true };

    #[tactic(auto, using(crate::proofs::Prints::agent_line_is_served))]
    fn serve(
        &mut self,
        line: &[u8],
        _bytes: &mut Vec<u8>,
        text: &mut Vec<u8>,
    ) -> Result<(), AllocError> {
        match read_agent_line(self.alloc, line) {
            Ok(None) => Ok(()),
            Ok(Some(line)) => self.serve_read(line, text),
            Err(ScriptCause::Memory) => Err(AllocError),
            Err(cause) => push_fault(text, cause),
        }
    }
}
