//! The packets that a node sends in a call.

ghost use Rattle.std.specs.Prelude.{◌≡◌, ◌≤◌, ◌+◌, ◌++◌, ◌==◌, [], IfOk, List, ℕ, length, map, option_map, slice_get, drop};
ghost use Rattle.fw_node.specs.Packets.{packets_of};

use circular_buffer::HeapCircularBuffer;
use mctp_reasm::{Message, piece_at};
use mctp_wire::{MAX_PACKETS, RawPacket, Unit};
use std::alloc::{AllocError, Global};
use std::marker::Model;

/// The most packets that a node sends in a call: a request of four packets for each of 16 peers,
/// which is sent again or begins. No request may begin if another of that peer was just sent again.
const CAPACITY: usize = 64;

/// The packets that a node sends in a call, in the order of sending. It is empty at the start of a
/// call. Its memory is allocated once.
#[derive(Drop)]
pub struct Outbox {
    packets: HeapCircularBuffer<RawPacket>,
}

impl Model for Outbox {
    ghost use Rattle.std.specs.Prelude.{◌≡◌, ◌≤◌, List, length, map, ℕ};

    ghost Value = { List (List ℕ) };

    ghost view = { λ o. map (λ p. p.items) o.packets.items };

    ghost invariant = { λ o. (o.packets.capacity ≡ 64) × (length o.packets.items ≤ 64) };
}

impl Outbox {
    /// Creates an empty outbox with room for 64 packets.
    ///
    /// # Errors
    /// `AllocError` if memory for it is refused.
    pub fn new(alloc: Global) -> Result<Outbox, AllocError>
        ensures { IfOk result (λ o. o ≡ []) }
    {
        let packets = HeapCircularBuffer::with_capacity(alloc, CAPACITY)?;
        Ok(Outbox { packets })
    }

    /// Whether there is nothing to send.
    pub fn is_empty(&self) -> bool
        ensures { result ≡ (length self.now == 0) }
    {
        self.packets.is_empty()
    }

    /// Returns the number of packets to send.
    pub fn len(&self) -> usize
        ensures count { result ≡ length self.now }
        ensures few { length self.now ≤ 64 }
    {
        self.packets.len()
    }

    /// Removes and returns the first packet.
    pub fn pop(&mut self) -> Option<RawPacket>
        ensures packet { option_map (λ p. p.items) result ≡ slice_get self.old 0 }
        ensures rest { self.new ≡ drop 1 self.old }
    {
        self.packets.pop_front()
    }

    /// Appends the packets of a message, cut at this transmission unit.
    pub fn send(&mut self, unit: Unit, message: &Message)
        requires { length self.old ≤ 60 }
        ensures packets { self.new ≡ self.old ++ packets_of unit message.now }
        ensures few { length self.new ≤ length self.old + 4 }
    {
        push_pieces(&mut self.packets, unit, message);
    }
}

/// Appends the packets of a message, each as it is cut.
fn push_pieces(out: &mut HeapCircularBuffer<RawPacket>, unit: Unit, message: &Message)
    requires { length out.old.items + 4 ≤ out.old.capacity }
    ensures few { length out.new.items ≤ length out.old.items + 4 }
    ensures packets { map (λ p. p.items) out.new.items ≡ map (λ p. p.items) out.old.items ++ packets_of unit message.now }
    ensures capacity { out.new.capacity ≡ out.old.capacity }
{
    for number in 0..MAX_PACKETS as u8 {
        let Some(packet) = piece_at(unit, message, number) else {
            return;
        };
        let _ = out.push_back(packet);
    }
}
