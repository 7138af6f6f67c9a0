//! The node of a firmware device.

ghost use Rattle.std.specs.Prelude.{◌≡◌, ◌==◌, [], Bool, IfNone, IfSome, None, OnErr, OnOk, false, is_some, not, true};
ghost use Rattle.mctp_wire.specs.Packet.{IsRead, spelling};
ghost use Rattle.fd_core.specs.BankCalls.{verdict_calls_bank};
ghost use Rattle.fd_core.specs.Banks.{CountsFailure};
ghost use Rattle.fd_core.specs.Steps.{device_verdict, verdict_after};
ghost use Rattle.fw_node.specs.BankCalls.{packet_calls_bank};
ghost use Rattle.fw_node.specs.Cores.{device_core, timed_device};
ghost use Rattle.fw_node.specs.Halves.{half_ticks};
ghost use Rattle.fw_node.specs.Nodes.{DeviceNodeOf, HandlesPacket, HandlesVerdict, device_on_packet, device_restarts, half_of, new_device_node};
ghost use Rattle.fw_node.specs.Packets.{all_packets};

use crate::cores::has_failed;
use crate::half::Half;
use crate::identity::Identity;
use crate::outbox::Outbox;
use fd_core::{Bank, Device, NotNow, Verdict};
use mctp_ctl::Endpoint;
use mctp_wire::{Packet, Unit};
use pldm_base::{Role, Tid};
use pldm_exch::DEAF;
use std::marker::Model;

/// A firmware device on a network of MCTP packets: its half for its agent. It answers control and
/// base requests too.
#[derive(Drop)]
pub struct DeviceNode<B: Bank> {
    /// Its endpoint and its terminus identifier.
    identity: Identity,
    /// The ticks for which it is still deaf after a restart; 0 if it hears.
    deaf: u8,
    /// The device, and both ends for its agent.
    half: Half<Device<B>>,
}

impl<B: Bank> Model for DeviceNode<B> {
    ghost use Rattle.std.specs.Prelude.{◌≡◌};
    ghost use Rattle.fw_node.specs.Cores.{timed_device};
    ghost use Rattle.fw_node.specs.Nodes.{DeviceNodeOf, half_of};

    ghost Value = { DeviceNodeOf };

    ghost view = { λ n. record {
      endpoint = n.identity.endpoint;
      tid = n.identity.tid;
      half = half_of n.deaf (timed_device n.half.core) n.half.ends;
      faults = n.half.core.faults;
    } };

    ghost invariant = { λ n. (n.half.ends.asking.own ≡ n.identity.endpoint.eid) };
}

impl<B: Bank> DeviceNode<B> {
    /// Creates the node of a device whose agent has the endpoint identifier `agent`. Its network
    /// has the device's transmission unit.
    pub fn new(endpoint: Endpoint, agent: u8, device: Device<B>) -> DeviceNode<B>
        ensures { result ≡ new_device_node endpoint agent device }
    {
        let half = Half::new(device.unit(), endpoint.eid, agent, device);
        let identity = Identity {
            endpoint,
            tid: Tid::unassigned(),
        };
        DeviceNode {
            identity,
            deaf: 0,
            half,
        }
    }

    /// Its endpoint identifier.
    pub fn eid(&self) -> u8
        ensures eid { result ≡ self.now.endpoint.eid }
        ensures own { result ≡ self.now.half.own }
    {
        self.identity.endpoint.eid
    }

    /// The transmission unit of its network.
    pub fn unit(&self) -> Unit
        ensures { result ≡ self.now.half.unit }
    {
        self.half.unit()
    }

    /// Its agent's endpoint identifier.
    pub fn peer(&self) -> u8
        ensures { result ≡ self.now.half.peer }
    {
        self.half.peer()
    }

    /// Whether it drops every packet because it restarted less than 40 ticks ago.
    pub fn is_deaf(&self) -> bool
        ensures { result ≡ not (self.now.half.asker.deaf == 0) }
    {
        self.deaf > 0
    }

    /// The device.
    pub fn device(&self) -> &Device<B>
        ensures device { timed_device result.now ≡ self.now.half.core }
        ensures faults { result.now.faults ≡ self.now.faults }
    {
        &self.half.core
    }

    /// Handles the bytes of a packet, and puts the packets to send into `outbox`, which must be
    /// empty. A packet to another endpoint, or not of its agent, changes nothing. A deaf node drops
    /// every packet.
    pub fn on_packet(&mut self, bytes: &[u8], outbox: &mut Outbox)
        requires { outbox.old ≡ [] }
        ensures heard { HandlesPacket self.old bytes.now self.new outbox.new }
        ensures endpoint { self.new.endpoint ≡ self.old.endpoint }
    {
        let _works = self.read(bytes, outbox);
    }

    /// Handles a tick: held packets, kept answers and the open request grow older, the open request
    /// is sent again or given up, the device ticks, and its pending command begins. A deaf node
    /// only counts the tick.
    #[tactic(auto, using(crate::proofs::NodeTicks::node_ticks))]
    pub fn on_tick(&mut self, outbox: &mut Outbox)
        requires { outbox.old ≡ [] }
        ensures after { self.new ≡ record self.old { half = (half_ticks device_core true self.old.half).half } }
        ensures sent { outbox.new ≡ all_packets self.old.half.unit (half_ticks device_core true self.old.half).sent }
    {
        if self.deaf > 1 {
            self.deaf -= 1;
            return;
        }
        self.deaf = 0;
        self.half.grow((), outbox);
        self.half.wait((), outbox);
    }

    /// Handles a verdict on the image that the device has written. VERIFY and APPLY wait for one
    /// each.
    ///
    /// # Errors
    /// `NotNow` if the device doesn't wait for this verdict. Then nothing changes.
    pub fn verdict(&mut self, verdict: Verdict) -> Result<(), NotNow>
        ensures judged { OnOk result (HandlesVerdict self.old verdict self.new) }
        ensures refused { OnErr result ((works : Bool) → device_verdict self.old.half.core.device verdict works ≡ None) }
        ensures kept { OnErr result (self.new ≡ self.old) }
        ensures tid { self.new.tid ≡ self.old.tid }
        ensures endpoint { self.new.endpoint ≡ self.old.endpoint }
    {
        let Some(_works) = self.judge(verdict) else {
            return Err(NotNow);
        };
        self.half.settle(());
        Ok(())
    }

    /// Handles a verdict. Returns `None` if the device doesn't wait for it, else whether its bank
    /// worked.
    #[tactic(auto, using(crate::proofs::Working::judging, fd_core::proofs::BankCalls::bank_calls))]
    fn judge(&mut self, verdict: Verdict) -> Option<bool>
        ensures counts { IfSome result (λ works. is_some (device_verdict self.old.half.core.device verdict works) ≡ true) }
        ensures half { IfSome result (λ works. self.new ≡ record self.new {
          half = record self.old.half {
            core = record {
              device = verdict_after self.old.half.core.device verdict works;
              idle = 0;
            };
          };
        }) }
        ensures worked { IfSome result (λ works. works ≡ true → self.new.faults ≡ self.old.faults) }
        ensures failed { IfSome result (λ works. works ≡ false → CountsFailure self.old.faults self.new.faults) }
        ensures called { IfSome result (λ works. works ≡ false → verdict_calls_bank self.old.half.core.device verdict ≡ true) }
        ensures refused { IfNone result ((works : Bool) → device_verdict self.old.half.core.device verdict works ≡ None) }
        ensures kept { result ≡ None → self.new ≡ self.old }
        ensures tid { self.new.tid ≡ self.old.tid }
        ensures endpoint { self.new.endpoint ≡ self.old.endpoint }
    {
        let Ok(()) = self.half.core.verdict(verdict) else {
            return None;
        };
        Some(verdict != Verdict::ApplyOk || !has_failed(&self.half.core))
    }

    /// Restarts: images that were applied and not activated are dropped, and the node is deaf and
    /// silent for 40 ticks.
    pub fn restart(&mut self)
        ensures restarted { self.new ≡ device_restarts self.old }
    {
        self.half.restart();
        self.identity.tid = Tid::unassigned();
        self.deaf = DEAF;
    }

    /// Decodes the bytes of a packet and handles it. Returns whether its one call of the bank
    /// succeeded, if it made one.
    fn read(&mut self, bytes: &[u8], outbox: &mut Outbox) -> bool
        requires { outbox.old ≡ [] }
        ensures half { self.new.half ≡ (device_on_packet result self.old bytes.now).half }
        ensures tid { self.new.tid ≡ (device_on_packet result self.old bytes.now).tid }
        ensures packets { outbox.new ≡ all_packets self.old.half.unit (device_on_packet result self.old bytes.now).sent }
        ensures worked { result ≡ true → self.new.faults ≡ self.old.faults }
        ensures failed { result ≡ false → CountsFailure self.old.faults self.new.faults }
        ensures called { result ≡ false → packet_calls_bank device_core self.old.half bytes.now ≡ true }
        ensures endpoint { self.new.endpoint ≡ self.old.endpoint }
    {
        let Ok(packet) = mctp_wire::decode(self.unit(), bytes) else {
            return true;
        };
        self.accept(&packet, outbox)
    }

    /// Handles a packet. Returns whether its one call of the bank succeeded, if it made one.
    fn accept(&mut self, packet: &Packet<'_>, outbox: &mut Outbox) -> bool
        requires read { IsRead packet.now }
        requires outbox { outbox.old ≡ [] }
        ensures half { self.new.half ≡ (device_on_packet result self.old (spelling packet.now)).half }
        ensures tid { self.new.tid ≡ (device_on_packet result self.old (spelling packet.now)).tid }
        ensures packets { outbox.new ≡ all_packets self.old.half.unit
            (device_on_packet result self.old (spelling packet.now)).sent }
        ensures worked { result ≡ true → self.new.faults ≡ self.old.faults }
        ensures failed { result ≡ false → CountsFailure self.old.faults self.new.faults }
        ensures called { result ≡ false → packet_calls_bank device_core self.old.half (spelling packet.now) ≡ true }
        ensures endpoint { self.new.endpoint ≡ self.old.endpoint }
    {
        if self.deaf > 0 {
            return true;
        }
        self.half
            .handle_packet(&mut self.identity, Role::Device, (), packet, outbox)
    }
}
