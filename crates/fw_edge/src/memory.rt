//! A link in memory.

ghost use Rattle.std.specs.Prelude.{[], ◌≤◌, ◌≡◌, ◌++◌, ◌∷◌, IfErr, IfNone, IfOk, IsOk, None, Ok, OnErr, OnOk, false, is_some, map, option_to_list, true};
ghost use Rattle.std.specs.VecDeque.{deque_capacity, deque_len};
ghost use Rattle.fw_edge.specs.Links.{AsksForFrame, FailsCall, SendsPacket};

use crate::frame::FrameFault;
use crate::link::Link;
use crate::tally::Tally;
use fw_world::Side;
use mctp_wire::{RawPacket, copy_of};
use std::alloc::Global;
use std::collections::VecDeque;

/// A link in memory that delivers each packet once, in the order of sending. It fails only if
/// memory for a packet is refused; that packet is lost.
#[derive(Drop)]
pub struct MemLink {
    /// Packets on the way to the agent.
    up: VecDeque<RawPacket>,
    /// Packets on the way to the device.
    down: VecDeque<RawPacket>,
    tally: Tally,
}

impl MemLink {
    /// Creates a link without packets.
    pub fn new(alloc: Global) -> MemLink
        ensures up { result.up.items ≡ [] }
        ensures down { result.down.items ≡ [] }
        ensures failures { result.tally.failures ≡ 0 }
        ensures sent { result.tally.sent ≡ 0 }
        ensures asked { result.tally.asked ≡ 0 }
        ensures given { result.tally.given ≡ 0 }
    {
        MemLink {
            up: VecDeque::new(alloc),
            down: VecDeque::new(alloc),
            tally: Tally::new(),
        }
    }

    /// Appends a packet that was sent at `side` to the packets on the way, if there is memory for
    /// it.
    fn put(&mut self, side: Side, packet: RawPacket) -> bool
        ensures tally { self.new.tally ≡ self.old.tally }
        ensures agent { side ≡ Side.Agent → result ≡ true → self.new.down.items ≡ self.old.down.items ++ packet ∷ [] }
        ensures device { side ≡ Side.Device → result ≡ true → self.new.up.items ≡ self.old.up.items ++ packet ∷ [] }
        ensures not_up { side ≡ Side.Agent → self.new.up.items ≡ self.old.up.items }
        ensures not_down { side ≡ Side.Device → self.new.down.items ≡ self.old.down.items }
        ensures refused { result ≡ false → (self.new.up.items ≡ self.old.up.items) × (self.new.down.items ≡ self.old.down.items) }
        ensures full_down { side ≡ Side.Agent → result ≡ false → deque_capacity self.old.down ≤ deque_len self.old.down }
        ensures full_up { side ≡ Side.Device → result ≡ false → deque_capacity self.old.up ≤ deque_len self.old.up }
    {
        match side {
            Side::Agent => self.down.push_back(packet).is_ok(),
            Side::Device => self.up.push_back(packet).is_ok(),
        }
    }

    /// Removes and returns the first packet on the way to `side`, if there is one.
    fn take(&mut self, side: Side) -> Option<RawPacket>
        ensures tally { self.new.tally ≡ self.old.tally }
        ensures agent { side ≡ Side.Agent → self.old.up.items ≡ option_to_list result ++ self.new.up.items }
        ensures device { side ≡ Side.Device → self.old.down.items ≡ option_to_list result ++ self.new.down.items }
        ensures none { IfNone result ((side ≡ Side.Agent → self.old.up.items ≡ [])
            × (side ≡ Side.Device → self.old.down.items ≡ [])) }
        ensures not_down { side ≡ Side.Agent → self.new.down.items ≡ self.old.down.items }
        ensures not_up { side ≡ Side.Device → self.new.up.items ≡ self.old.up.items }
    {
        match side {
            Side::Agent => self.up.pop_front(),
            Side::Device => self.down.pop_front(),
        }
    }
}

impl Link for MemLink {
    ghost tally = { λ l. l.tally };

    fn send(&mut self, side: Side, packet: &RawPacket) -> Result<(), FrameFault>
        ensures ok { OnOk result (SendsPacket self.old.tally self.new.tally) }
        ensures err { OnErr result (FailsCall self.old.tally self.new.tally) }
        ensures agent { side ≡ Side.Agent
            → OnOk result (map (λ p. p.items) self.new.down.items
            ≡ map (λ p. p.items) self.old.down.items ++ packet.now.items ∷ []) }
        ensures device { side ≡ Side.Device
            → OnOk result (map (λ p. p.items) self.new.up.items
            ≡ map (λ p. p.items) self.old.up.items ++ packet.now.items ∷ []) }
        ensures not_up { side ≡ Side.Agent → self.new.up.items ≡ self.old.up.items }
        ensures not_down { side ≡ Side.Device → self.new.down.items ≡ self.old.down.items }
        ensures fault { IfErr result (λ e. e ≡ FrameFault.Io) }
        ensures refused { OnErr result ((self.new.up.items ≡ self.old.up.items) × (self.new.down.items ≡ self.old.down.items)) }
        ensures full_down { side ≡ Side.Agent → OnErr result (deque_capacity self.old.down ≤ deque_len self.old.down) }
        ensures full_up { side ≡ Side.Device → OnErr result (deque_capacity self.old.up ≤ deque_len self.old.up) }
    {
        if !self.put(side, copy_of(packet)) {
            self.tally.fail();
            return Err(FrameFault::Io);
        }
        self.tally.send();
        Ok(())
    }

    fn receive(&mut self, side: Side) -> Result<Option<RawPacket>, FrameFault>
        ensures ok { IfOk result (λ p. AsksForFrame (is_some p) self.old.tally self.new.tally) }
        ensures err { OnErr result (FailsCall self.old.tally self.new.tally) }
        ensures agent { side ≡ Side.Agent → IfOk result (λ p. self.old.up.items ≡ option_to_list p ++ self.new.up.items) }
        ensures device { side ≡ Side.Device → IfOk result (λ p. self.old.down.items ≡ option_to_list p ++ self.new.down.items) }
        ensures not_down { side ≡ Side.Agent → self.new.down.items ≡ self.old.down.items }
        ensures not_up { side ≡ Side.Device → self.new.up.items ≡ self.old.up.items }
        ensures none { result ≡ Ok None
            → (side ≡ Side.Agent → self.old.up.items ≡ [])
            × (side ≡ Side.Device → self.old.down.items ≡ []) }
        ensures always { IsOk result }
    {
        let packet = self.take(side);
        self.tally.ask(packet.is_some());
        Ok(packet)
    }

    fn failures(&self) -> u64 {
        self.tally.failures
    }

    fn sent(&self) -> u64 {
        self.tally.sent
    }

    fn asked(&self) -> u64 {
        self.tally.asked
    }

    fn given(&self) -> u64 {
        self.tally.given
    }
}
