//! The state of a packet world, and its steps.

ghost use Rattle.std.specs.Prelude.{[], ◌≡◌, ◌≤◌, ◌<◌, ◌+◌, ◌∷◌, Err, IfErr, IfOk, IfSome, None, OnErr, OnOk, Ok, Some, false, is_some, length, map, option_map, slice_get, true};
ghost use Rattle.exch_lane.specs.Lanes.{item_numbered};
ghost use Rattle.fw_message.specs.Entries.{entry_of};
ghost use Rattle.fw_node.specs.Agents.{agent_restarts, half_after_cancel, half_after_start};
ghost use Rattle.fw_steps.specs.Dead.{AreDead, dead_count};
ghost use Rattle.fw_steps.specs.Deliveries.{DeliversToDevice};
ghost use Rattle.fw_steps.specs.Opening.{AreNewNodes, IsOpeningWorld, new_world};
ghost use Rattle.fw_steps.specs.Steps.{StepsTo, is_device, is_node, may_all_beat, may_step};
ghost use Rattle.fw_steps.specs.Replays.{RefusesStep};
ghost use Rattle.fw_steps.specs.Sites.{HaveRoom, sites_of};
ghost use Rattle.fw_steps.specs.Worlds.{agent_pass_sends, agent_passes, world_after_log_request, at_agent, packets_of, place_of, posts, site_for, site_restarts, world_after_tick};
ghost use Rattle.std.specs.List.{list_all};

use crate::fitting::{devices_fit, packages_fit};
use crate::packets::SentPackets;
use crate::recorded::deliver_and_record;
use crate::site::Site;
use crate::sites::{
    deliver_at, eids_of, judge_at, make_room, may_all_beat, new_sites, pass_all, place_of,
    post_all, restart_at, site_for, unit_of,
};
use crate::step::{Missed, Refusal, Step, StepFault};
use crate::ticks::counts;
use arrayvec::ArrayVec;
use exch_lane::{UNMISSED, may_beat, since_after};
use fd_core::{Bank, Verdict};
use fw_message::Entry;
use fw_node::{AgentNode, DeviceNode, Outbox};
use fw_package::Package;
use mctp_ctl::Endpoint;
use mctp_wire::RawPacket;
use sel_core::{CompletionCode, SelReply};
use std::alloc::{AllocError, Global};
use std::marker::Model;
use ua_core::StartFault;

/// The most packets that a step appends to those of a device: those that the agent and the device
/// send in a tick.
const ROOM: u16 = 128;

/// The content of a world. This type has any state; that steps reached it is the invariant of
/// `World`.
#[derive(Drop)]
pub(crate) struct State<'a, B: Bank + Drop> {
    /// The allocator of the steps.
    alloc: Global,
    /// The packages that the operator may start updates with.
    packages: &'a [Package<'a>],
    /// The units of time that have passed.
    time: u32,
    /// The agent's node.
    agent: AgentNode,
    /// The ticks that the agent counted since it last missed one, at most 8.
    since_miss: u8,
    /// The devices in configured order, 1 to 16, each with its packets.
    sites: Vec<Site<'a, B>>,
    /// The last answer of the event log, or none before the first request.
    answer: Option<SelReply>,
    /// The history, in order.
    history: Vec<Entry<'a>>,
    /// The packets that a node sends in a call. It is empty between steps.
    outbox: Outbox,
}

impl<'a, B: Bank + Drop> Model for State<'a, B> {
    ghost use Rattle.std.specs.Prelude.{[], ◌≡◌, ◌≤◌, length, map, option_map};
    ghost use Rattle.fw_message.specs.Entries.{entry_of};
    ghost use Rattle.fw_steps.specs.Sites.{sites_of};
    ghost use Rattle.fw_steps.specs.Worlds.{WorldOf};

    ghost Value = { WorldOf };

    ghost view = { λ w. record {
      packages = w.packages.now;
      now = w.time;
      agent = w.agent;
      since_miss = w.since_miss;
      sites = sites_of w.sites.items;
      answer = option_map (λ a. a.items) w.answer;
      history = map entry_of w.history.items;
    } };

    ghost invariant = { λ w. (w.outbox ≡ []) × (1 ≤ length w.sites.items) × (length w.sites.items ≤ 16) };
}

impl<'a, B: Bank + Drop> State<'a, B> {
    /// Creates the state before the first step.
    ///
    /// # Errors
    /// `AllocError` if memory for it is refused.
    #[tactic(auto, using(crate::proofs::Opening::have_components, crate::proofs::Opening::opens_so))]
    pub(crate) fn new(
        alloc: Global,
        agent: Endpoint,
        devices: Vec<DeviceNode<B>>,
        packages: &'a [Package<'a>],
    ) -> Result<State<'a, B>, AllocError>
        requires { AreNewNodes agent.eid devices.items }
        ensures made { IfOk result (λ w. w ≡ new_world agent devices.items packages.now) }
        ensures opens { IfOk result (λ w. IsOpeningWorld w) }
    {
        packages_fit(packages);
        devices_fit(devices.as_slice());
        let eids = eids_of(alloc, devices.as_slice())?;
        let unit = unit_of(devices.as_slice());
        let agent = AgentNode::new(alloc, unit, agent, eids.as_slice())?;
        let outbox = Outbox::new(alloc)?;
        let sites = new_sites(alloc, devices)?;
        Ok(State {
            alloc,
            packages,
            time: 0,
            agent,
            since_miss: UNMISSED,
            sites,
            answer: None,
            history: Vec::new(alloc),
            outbox,
        })
    }

    /// The units of time that have passed, at most 4,294,967,295.
    pub(crate) fn now(&self) -> u32
        ensures { result ≡ self.now.now }
    {
        self.time
    }

    /// The agent.
    pub(crate) fn agent(&self) -> &AgentNode
        ensures { result.now ≡ self.now.agent }
    {
        &self.agent
    }

    /// Returns the node of a device.
    pub(crate) fn device(&self, eid: u8) -> Option<&DeviceNode<B>>
        ensures { option_map (λ n. n.now) result ≡ option_map (λ x. x.node) (site_for self.now.sites eid) }
    {
        let site = site_for(self.sites.as_slice(), eid)?;
        Some(site.node())
    }

    /// Returns the number of devices, 1 to 16.
    pub(crate) fn device_count(&self) -> usize
        ensures count { result ≡ length self.now.sites }
        ensures some { 1 ≤ result }
        ensures few { result ≤ 16 }
    {
        self.sites.len()
    }

    /// Returns the node of the device at a place, counted from 0, in configured order.
    pub(crate) fn device_at(&self, place: usize) -> Option<&DeviceNode<B>>
        ensures { option_map (λ n. n.now) result ≡ option_map (λ x. x.node) (slice_get self.now.sites place) }
    {
        let site = self.sites.get(place)?;
        Some(site.node())
    }

    /// Returns every packet that was sent between the agent and the device at a place, counted from
    /// 0, in the order of sending.
    pub(crate) fn packets_at(&self, place: usize) -> Option<SentPackets<'_>>
        ensures { result ≡ option_map (λ x. x.packets) (slice_get self.now.sites place) }
    {
        let site = self.sites.get(place)?;
        Some(site.packets())
    }

    /// Returns every packet that was sent between the agent and a device, in the order of sending.
    pub(crate) fn packets(&self, eid: u8) -> Option<SentPackets<'_>>
        ensures { result ≡ option_map (λ x. x.packets) (site_for self.now.sites eid) }
    {
        let site = site_for(self.sites.as_slice(), eid)?;
        Some(site.packets())
    }

    /// Returns the number of first packets between the agent and a device that can't be received
    /// any more; 0 if there is no such device.
    #[tactic(auto, using(crate::proofs::Aging::dead_within))]
    pub(crate) fn dead_packets(&self, eid: u8) -> usize
        ensures dead { AreDead self.now.now result (packets_of self.now eid) }
        ensures exact { result ≡ dead_count self.now.now (packets_of self.now eid) }
        ensures within { result ≤ length (packets_of self.now eid) }
    {
        match site_for(self.sites.as_slice(), eid) {
            Some(site) => site.dead_packets(self.time),
            None => 0,
        }
    }

    /// Returns the last answer of the event log: a completion code and its data. `None` before the
    /// first request.
    pub(crate) fn answer(&self) -> Option<&[u8]>
        ensures { option_map (λ a. a.now) result ≡ self.now.answer }
    {
        match &self.answer {
            Some(answer) => Some(answer.as_slice()),
            None => None,
        }
    }

    /// The history, in order.
    pub(crate) fn history(&self) -> &[Entry<'a>]
        ensures { map entry_of result.now ≡ self.now.history }
    {
        self.history.as_slice()
    }

    /// Takes a step, or leaves the state unchanged.
    ///
    /// # Errors
    /// The reason why the step isn't taken.
    #[tactic(auto, using(crate::proofs::Leading::log_leads))]
    pub(crate) fn step(&mut self, step: &Step) -> Result<(), StepFault>
        ensures taken { OnOk result (StepsTo self.old step.now self.new) }
        ensures refused { IfErr result (λ e. RefusesStep self.old step.now e) }
        ensures same { OnErr result (self.new ≡ self.old) }
    {
        match step {
            Step::Deliver(device, number, node) => self.deliver(*device, *number, *node),
            Step::Tick(missed) => self.tick(missed),
            Step::Start(device, number) => self.start(*device, *number),
            Step::Cancel(device) => self.cancel(*device),
            Step::Activate(device) => self.activate(*device),
            Step::Verdict(device, verdict) => self.judge(*device, *verdict),
            Step::Restart(node) => self.restart(*node),
            Step::Sel(request) => {
                self.ask_log(request.as_slice());
                Ok(())
            }
        }
    }

    /// Delivers a packet to a node.
    #[tactic(auto, using(crate::proofs::Leading::agent_leads, crate::proofs::Leading::device_leads))]
    fn deliver(&mut self, device: u8, number: usize, node: u8) -> Result<(), StepFault>
        ensures taken { OnOk result (StepsTo self.old (Step.Deliver device number node) self.new) }
        ensures refused { IfErr result (λ e. RefusesStep self.old (Step.Deliver device number node) e) }
        ensures same { OnErr result (self.new ≡ self.old) }
    {
        let bytes = match self.living(device, number, node) {
            Ok(bytes) => bytes,
            Err(fault) => return Err(fault),
        };
        if node == self.agent.eid() {
            match self.deliver_to_agent(bytes.as_slice()) {
                Ok(()) => {}
                Err(fault) => return Err(fault),
            }
            return Ok(());
        }
        match self.deliver_to_device(node, bytes.as_slice()) {
            Ok(()) => {}
            Err(fault) => return Err(fault),
        }
        Ok(())
    }

    /// Returns the bytes of a packet that may be delivered to a node now.
    fn living(&self, device: u8, number: usize, node: u8) -> Result<RawPacket, StepFault>
        ensures found { IfOk result (λ p. option_map (λ s. s.bytes)
            (item_numbered (packets_of self.now device) number) ≡ Some p.items) }
        ensures ok { OnOk result (may_step self.now (Step.Deliver device number node) ≡ None) }
        ensures fault { IfErr result (λ e. may_step self.now (Step.Deliver device number node) ≡ Some e) }
    {
        let Some(site) = site_for(self.sites.as_slice(), device) else {
            return Err(StepFault::NoSuchNode);
        };
        if !self.has_node(node) {
            return Err(StepFault::NoSuchNode);
        }
        site.living(number, self.time)
    }

    /// Returns the place of the device with this identifier.
    fn place_of(&self, eid: u8) -> Option<usize>
        ensures place { result ≡ place_of self.now.sites eid }
        ensures within { IfSome result (λ place. place < length self.now.sites) }
    {
        place_of(self.sites.as_slice(), eid)
    }

    /// Whether the agent or a device has this identifier.
    fn has_node(&self, eid: u8) -> bool
        ensures { result ≡ is_node self.now eid }
    {
        eid == self.agent.eid() || site_for(self.sites.as_slice(), eid).is_some()
    }

    /// Delivers a packet to a device of the world.
    fn deliver_to_device(&mut self, node: u8, bytes: &[u8]) -> Result<(), StepFault>
        requires { is_device self.old node ≡ true }
        ensures heard { OnOk result (DeliversToDevice self.old node bytes.now self.new) }
        ensures memory { IfErr result (λ e. e ≡ StepFault.Memory) }
        ensures same { OnErr result (self.new ≡ self.old) }
    {
        let Some(place) = place_of(self.sites.as_slice(), node) else {
            return Err(StepFault::Memory);
        };
        match deliver_at(
            self.sites.as_mut_slice(),
            place,
            self.alloc,
            self.packages,
            self.time,
            bytes,
            &mut self.outbox,
            &mut self.history,
        ) {
            Ok(()) => Ok(()),
            Err(_) => Err(StepFault::Memory),
        }
    }

    /// Delivers a packet to the agent.
    fn deliver_to_agent(&mut self, bytes: &[u8]) -> Result<(), StepFault>
        ensures after { OnOk result (self.new ≡ at_agent self.old bytes.now) }
        ensures memory { IfErr result (λ e. e ≡ StepFault.Memory) }
        ensures same { OnErr result (self.new ≡ self.old) }
    {
        let Ok(()) = make_room(self.sites.as_mut_slice(), ROOM) else {
            return Err(StepFault::Memory);
        };
        let Ok(()) = self.history.reserve(1) else {
            return Err(StepFault::Memory);
        };
        deliver_and_record(
            &mut self.agent,
            self.packages,
            bytes,
            self.time,
            &mut self.outbox,
            &mut self.history,
        );
        // Reading the length gives the bound on an outbox's packets.
        let _sent = self.outbox.len();
        post_all(self.sites.as_mut_slice(), self.time, &mut self.outbox);
        Ok(())
    }

    /// A unit of time passes, which all nodes but `missed` count as a tick.
    fn tick(&mut self, missed: &Missed) -> Result<(), StepFault>
        ensures taken { OnOk result (StepsTo self.old (Step.Tick missed.now) self.new) }
        ensures refused { IfErr result (λ e. RefusesStep self.old (Step.Tick missed.now) e) }
        ensures same { OnErr result (self.new ≡ self.old) }
    {
        if !self.has_nodes(missed.as_slice()) {
            return Err(StepFault::NoSuchNode);
        }
        let Some(time) = self.time.checked_add(1) else {
            return Err(StepFault::Refused(Refusal::ClockEnd));
        };
        if !self.may_all_beat(missed.as_slice()) {
            return Err(StepFault::Refused(Refusal::ClockSlow));
        }
        match self.pass(missed.as_slice(), time) {
            Ok(()) => {}
            Err(fault) => return Err(fault),
        }
        Ok(())
    }

    /// Whether each of these identifiers is one of a node.
    fn has_nodes(&self, eids: &[u8]) -> bool
        ensures { result ≡ list_all (is_node self.now) eids.now }
    {
        for eid in eids {
            if !self.has_node(*eid) {
                return false;
            }
        }
        true
    }

    /// Whether each node that misses a tick may miss it.
    fn may_all_beat(&self, missed: &[u8]) -> bool
        ensures { result ≡ may_all_beat missed.now self.now }
    {
        may_beat(counts(missed, self.agent.eid()), self.since_miss)
            && may_all_beat(self.sites.as_slice(), missed)
    }

    /// The unit before `time` passes.
    fn pass(&mut self, missed: &[u8], time: u32) -> Result<(), StepFault>
        requires { time ≡ self.old.now + 1 }
        ensures after { OnOk result (self.new ≡ world_after_tick missed.now self.old) }
        ensures memory { IfErr result (λ e. e ≡ StepFault.Memory) }
        ensures same { OnErr result (self.new ≡ self.old) }
    {
        let Ok(()) = make_room(self.sites.as_mut_slice(), ROOM) else {
            return Err(StepFault::Memory);
        };
        let agent_counts = counts(missed, self.agent.eid());
        pass_agent(
            &mut self.agent,
            self.packages,
            agent_counts,
            time,
            self.sites.as_mut_slice(),
            &mut self.outbox,
        );
        pass_all(self.sites.as_mut_slice(), missed, time, &mut self.outbox);
        self.time = time;
        self.since_miss = since_after(agent_counts, self.since_miss);
        Ok(())
    }

    /// The operator starts an update.
    #[tactic(auto, using(crate::proofs::Leading::start_leads))]
    fn start(&mut self, device: u8, number: usize) -> Result<(), StepFault>
        ensures taken { OnOk result (StepsTo self.old (Step.Start device number) self.new) }
        ensures refused { IfErr result (λ e. RefusesStep self.old (Step.Start device number) e) }
        ensures same { OnErr result (self.new ≡ self.old) }
    {
        if self.agent.session(device).is_none() {
            return Err(StepFault::NoSuchNode);
        }
        if number == 0 || self.packages.len() < number {
            return Err(StepFault::Refused(Refusal::NoSuchPackage));
        }
        match self.agent.start(self.packages, device, number, self.time) {
            Ok(()) => {}
            Err(StartFault::Busy) => return Err(StepFault::Refused(Refusal::Busy)),
            Err(StartFault::Memory) => return Err(StepFault::Memory),
        }
        Ok(())
    }

    /// The operator cancels the update of a device.
    #[tactic(auto, using(crate::proofs::Leading::cancel_leads))]
    fn cancel(&mut self, device: u8) -> Result<(), StepFault>
        ensures taken { OnOk result (StepsTo self.old (Step.Cancel device) self.new) }
        ensures refused { IfErr result (λ e. RefusesStep self.old (Step.Cancel device) e) }
        ensures same { OnErr result (self.new ≡ self.old) }
    {
        if self.agent.session(device).is_none() {
            return Err(StepFault::NoSuchNode);
        }
        self.agent.cancel(self.packages, device, self.time);
        Ok(())
    }

    /// The operator has a device activate the images that it applied.
    #[tactic(auto, using(crate::proofs::Leading::activate_leads))]
    fn activate(&mut self, device: u8) -> Result<(), StepFault>
        ensures taken { OnOk result (StepsTo self.old (Step.Activate device) self.new) }
        ensures refused { IfErr result (λ e. RefusesStep self.old (Step.Activate device) e) }
        ensures same { OnErr result (self.new ≡ self.old) }
    {
        if self.agent.session(device).is_none() {
            return Err(StepFault::NoSuchNode);
        }
        match self.agent.activate(self.packages, device, self.time) {
            Ok(()) => {}
            Err(_) => return Err(StepFault::Refused(Refusal::NotReady)),
        }
        Ok(())
    }

    /// A verdict on the image that a device has written.
    #[tactic(auto, using(crate::proofs::Leading::verdict_leads))]
    fn judge(&mut self, device: u8, verdict: Verdict) -> Result<(), StepFault>
        ensures taken { OnOk result (StepsTo self.old (Step.Verdict device verdict) self.new) }
        ensures refused { IfErr result (λ e. RefusesStep self.old (Step.Verdict device verdict) e) }
        ensures same { OnErr result (self.new ≡ self.old) }
    {
        let Some(place) = place_of(self.sites.as_slice(), device) else {
            return Err(StepFault::NoSuchNode);
        };
        match judge_at(
            self.sites.as_mut_slice(),
            place,
            self.alloc,
            self.packages,
            verdict,
            &mut self.history,
        ) {
            Ok(()) => {}
            Err(fault) => return Err(fault),
        }
        Ok(())
    }

    /// Restarts a node.
    fn restart(&mut self, node: u8) -> Result<(), StepFault>
        ensures taken { OnOk result (StepsTo self.old (Step.Restart node) self.new) }
        ensures refused { IfErr result (λ e. RefusesStep self.old (Step.Restart node) e) }
        ensures same { OnErr result (self.new ≡ self.old) }
    {
        if node == self.agent.eid() {
            self.restart_agent();
            return Ok(());
        }
        let Some(place) = self.place_of(node) else {
            return Err(StepFault::NoSuchNode);
        };
        self.restart_device(place);
        Ok(())
    }

    /// Restarts the agent.
    fn restart_agent(&mut self)
        ensures { self.new ≡ record self.old { agent = agent_restarts self.old.packages self.old.agent } }
    {
        self.agent.restart();
    }

    /// Restarts the device at a place.
    fn restart_device(&mut self, place: usize)
        requires { place < length self.old.sites }
        ensures { self.new ≡ record self.old {
          sites = site_restarts self.old.sites (Some place) (slice_get self.old.sites place);
        } }
    {
        restart_at(self.sites.as_mut_slice(), place);
    }

    /// Handles a request to the event log. A request without a byte has a wrong length.
    fn ask_log(&mut self, request: &[u8])
        ensures { self.new ≡ world_after_log_request self.old request.now }
    {
        let [command, data @ ..] = request else {
            self.answer = Some(wrong_length());
            return;
        };
        self.answer = Some(self.agent.request(*command, data, self.time));
    }
}

/// The agent counts a tick, or misses it. The packets that it sends go to the devices that they are
/// for, dated with this time.
#[tactic(auto, using(crate::proofs::Places::less_room))]
fn pass_agent<'p, B: Bank>(
    agent: &mut AgentNode,
    packages: &'p [Package<'p>],
    counts: bool,
    now: u32,
    sites: &mut [Site<'_, B>],
    outbox: &mut Outbox,
)
    requires room { HaveRoom 128 sites.old }
    requires outbox { outbox.old ≡ [] }
    ensures agent { agent.new ≡ agent_passes counts packages.now now agent.old }
    ensures sites { sites_of sites.new ≡ posts now (sites_of sites.old) (agent_pass_sends counts packages.now agent.old) }
    ensures room { HaveRoom 64 sites.new }
    ensures outbox { outbox.new ≡ [] }
    ensures count { length sites.new ≡ length sites.old }
{
    if !counts {
        return;
    }
    agent.on_tick(packages, now, outbox);
    // Reading the length gives the bound on an outbox's packets.
    let _sent = outbox.len();
    post_all(sites, now, outbox);
}

/// Returns the answer to a request of a wrong length.
fn wrong_length() -> SelReply
    ensures { result.items ≡ 0xC7 ∷ [] }
{
    let mut answer = SelReply::new();
    answer.push(CompletionCode::LengthInvalid.byte());
    answer
}
