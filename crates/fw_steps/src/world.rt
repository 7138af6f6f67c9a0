//! The packet world: by its type, a state that steps reached.

ghost use Rattle.std.specs.Prelude.{◌≡◌, ◌≤◌, IfErr, IfOk, OnErr, OnOk, length, map, option_map, slice_get};
ghost use Rattle.fw_message.specs.Entries.{entry_of};
ghost use Rattle.fw_steps.specs.Dead.{AreDead, dead_count};
ghost use Rattle.fw_steps.specs.Opening.{AreNewNodes, IsOpeningWorld, new_world};
ghost use Rattle.fw_steps.specs.Promises.{IsPromised};
ghost use Rattle.fw_steps.specs.Steps.{StepsTo};
ghost use Rattle.fw_steps.specs.Replays.{RefusesStep};
ghost use Rattle.fw_steps.specs.Worlds.{packets_of, site_for};

use crate::headline::runs_are_promised;
use crate::packets::SentPackets;
use crate::state::State;
use crate::step::{Step, StepFault};
use fd_core::Bank;
use fw_message::Entry;
use fw_node::{AgentNode, DeviceNode};
use fw_package::Package;
use mctp_ctl::Endpoint;
use std::alloc::{AllocError, Global};
use std::marker::Model;

/// An update agent and its devices, every packet that was ever sent between them, and the history.
/// Time passes in units. Only `new` creates a world and only `step` changes it, so every value of
/// this type is safe (`is_promised`).
#[derive(Drop)]
pub struct World<'a, B: Bank + Drop> {
    /// Its content. The invariant says that steps reached it.
    state: State<'a, B>,
}

impl<'a, B: Bank + Drop> Model for World<'a, B> {
    ghost use Rattle.fw_steps.specs.Promises.{IsReached};
    ghost use Rattle.fw_steps.specs.Worlds.{WorldOf};

    ghost Value = { WorldOf };

    ghost view = { λ w. w.state };

    ghost invariant = { λ w. IsReached w.state };
}

impl<'a, B: Bank + Drop> World<'a, B> {
    /// Creates a world before its first step: an agent with this endpoint, the new nodes of its 1
    /// to 16 devices, with different endpoint identifiers from 8 to 254, and the packages that the
    /// operator may start updates with. Later calls allocate from `alloc`.
    ///
    /// # Errors
    /// `AllocError` if memory for it is refused.
    pub fn new(
        alloc: Global,
        agent: Endpoint,
        devices: Vec<DeviceNode<B>>,
        packages: &'a [Package<'a>],
    ) -> Result<World<'a, B>, AllocError>
        requires { AreNewNodes agent.eid devices.items }
        ensures made { IfOk result (λ w. w ≡ new_world agent devices.items packages.now) }
        ensures opens { IfOk result (λ w. IsOpeningWorld w) }
    {
        match State::new(alloc, agent, devices, packages) {
            Ok(state) => Ok(World { state }),
            Err(error) => Err(error),
        }
    }

    /// The units of time that have passed, at most 4,294,967,295.
    pub fn now(&self) -> u32
        ensures { result ≡ self.now.now }
    {
        self.state.now()
    }

    /// The agent.
    pub fn agent(&self) -> &AgentNode
        ensures { result.now ≡ self.now.agent }
    {
        self.state.agent()
    }

    /// Returns the node of a device.
    pub fn device(&self, eid: u8) -> Option<&DeviceNode<B>>
        ensures { option_map (λ n. n.now) result ≡ option_map (λ x. x.node) (site_for self.now.sites eid) }
    {
        self.state.device(eid)
    }

    /// Returns the number of devices, 1 to 16.
    pub fn device_count(&self) -> usize
        ensures count { result ≡ length self.now.sites }
        ensures some { 1 ≤ result }
        ensures few { result ≤ 16 }
    {
        self.state.device_count()
    }

    /// Returns the node of the device at a place, counted from 0, in configured order.
    pub fn device_at(&self, place: usize) -> Option<&DeviceNode<B>>
        ensures { option_map (λ n. n.now) result ≡ option_map (λ x. x.node) (slice_get self.now.sites place) }
    {
        self.state.device_at(place)
    }

    /// Returns every packet that was sent between the agent and the device at a place, counted from
    /// 0, in the order of sending.
    pub fn packets_at(&self, place: usize) -> Option<SentPackets<'_>>
        ensures { result ≡ option_map (λ x. x.packets) (slice_get self.now.sites place) }
    {
        self.state.packets_at(place)
    }

    /// Returns every packet that was sent between the agent and a device, in the order of sending.
    /// A Deliver numbers them from 1.
    pub fn packets(&self, eid: u8) -> Option<SentPackets<'_>>
        ensures { result ≡ option_map (λ x. x.packets) (site_for self.now.sites eid) }
    {
        self.state.packets(eid)
    }

    /// Returns the number of first packets between the agent and a device that can't be received
    /// any more, because they were sent more than 8 units ago. The next packet may still be
    /// received. 0 if there is no such device.
    pub fn dead_packets(&self, eid: u8) -> usize
        ensures dead { AreDead self.now.now result (packets_of self.now eid) }
        ensures exact { result ≡ dead_count self.now.now (packets_of self.now eid) }
        ensures within { result ≤ length (packets_of self.now eid) }
    {
        self.state.dead_packets(eid)
    }

    /// Returns the last answer of the event log: a completion code and its data. `None` before the
    /// first request.
    pub fn answer(&self) -> Option<&[u8]>
        ensures { option_map (λ a. a.now) result ≡ self.now.answer }
    {
        self.state.answer()
    }

    /// The history, in order. It is safe at any time.
    pub fn history(&self) -> &[Entry<'a>]
        ensures entries { map entry_of result.now ≡ self.now.history }
        ensures promised { IsPromised self.now }
    {
        self.is_promised();
        self.state.history()
    }

    /// The laws of every world, at any moment: steps reached it from an opening world; each device
    /// is still there, and its history is safe, and tied with its running images and the agent's
    /// records; and steps over whole messages give the same devices, sessions and history.
    pub fn is_promised(&self)
        ensures { IsPromised self.now }
    {
        let _ = &self.state;
        runs_are_promised();
    }

    /// Takes a step, or leaves the world unchanged.
    ///
    /// # Errors
    /// The reason why the step isn't taken: `NoSuchNode`, then `NoSuchPacket`, then `Dead`; for the
    /// operator's calls `NoSuchPackage` before `Busy`, and `NotReady`; `NotNow` for a verdict;
    /// `ClockEnd`, then `ClockSlow` for a tick; and `Memory` for a step that is allowed.
    pub fn step(&mut self, step: &Step) -> Result<(), StepFault>
        ensures taken { OnOk result (StepsTo self.old step.now self.new) }
        ensures refused { IfErr result (λ e. RefusesStep self.old step.now e) }
        ensures same { OnErr result (self.new ≡ self.old) }
    {
        match self.state.step(step) {
            Ok(()) => Ok(()),
            Err(fault) => Err(fault),
        }
    }
}
