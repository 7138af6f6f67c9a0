//! Assembles messages from packets.

ghost use Rattle.std.specs.Prelude.{◌≡◌, ◌≢◌, ◌<◌, ◌≤◌, ◌↔◌, ◌⊎◌, ◌%◌, ◌++◌, ◌∷◌, [], length, Option, Some, None, true, false, IfNone};
ghost use Rattle.mctp_reasm.specs.Pieces.{IsMessage, MessageOf, packet_of, pieces};
ghost use Rattle.mctp_reasm.specs.Held.{IsHeld, IsOfHeldMessage, FollowsPackets, KeepsMessageUnlessWhole, base_of, cause_of, feed_outcome, held_after, held_tick, packets_with, message_of, next_cause, packets_of, start_cause, fed_of};
ghost use Rattle.mctp_wire.specs.Units.{bytes_of};

use crate::messages::Message;
use crate::outcomes::{DropCause, Fed, Taken};
use arrayvec::ArrayVec;
use mctp_wire::{MAX_MESSAGE, MAX_PACKETS, Packet, Unit};
use std::marker::Model;

/// The modulus of sequence numbers.
const SEQUENCE_NUMBERS: u8 = 4;

/// The ticks that an assembly waits for its next packet. A packet is in transit at most as long, so
/// a held packet can't meet a message that uses the tag later. The assembly ends in the tick after
/// them.
const PATIENCE: u8 = 8;

/// The received packets of one message, and the ticks since the last of them, 0 to 8.
#[derive(Drop)]
pub struct Assembly {
    unit: Unit,
    dest: u8,
    source: u8,
    to: bool,
    tag: u8,
    pieces: u8,
    age: u8,
    bytes: ArrayVec<u8, MAX_MESSAGE>,
}

impl Model for Assembly {
    ghost use Rattle.std.specs.Prelude.{◌≡◌, ◌≤◌, ◌*◌, length};
    ghost use Rattle.mctp_reasm.specs.Held.{AssemblyOf, held_of};
    ghost use Rattle.mctp_wire.specs.declared.unit.TheConstants.{MAX_PACKETS};
    ghost use Rattle.mctp_wire.specs.Units.{bytes_of};

    ghost Value = { AssemblyOf };

    ghost view = { λ a. record {
      unit = a.unit;
      held = held_of a.unit (record { dest = a.dest; source = a.source; to = a.to; tag = a.tag })
          a.bytes.items a.pieces a.age;
    } };

    ghost invariant = { λ a. (a.tag ≤ 7)
        × (a.age ≤ 8)
        × (a.pieces ≤ MAX_PACKETS)
        × (length a.bytes.items ≡ bytes_of a.unit * a.pieces) };
}

impl Assembly {
    /// Returns an empty assembly of a network with this transmission unit.
    pub fn new(unit: Unit) -> Assembly
        ensures { result ≡ record { unit = unit; held = None } }
    {
        Assembly {
            unit,
            dest: 0,
            source: 0,
            to: false,
            tag: 0,
            pieces: 0,
            age: 0,
            bytes: ArrayVec::new(),
        }
    }

    /// Returns the network's transmission unit.
    pub fn unit(&self) -> Unit
        ensures { result ≡ self.now.unit }
    {
        self.unit
    }

    /// Drops the held packets.
    pub fn clear(&mut self)
        ensures { self.new ≡ record self.old { held = None } }
    {
        self.pieces = 0;
        self.age = 0;
        self.bytes.clear();
    }

    /// Counts a tick. In the ninth after the last packet the held packets are dropped.
    pub fn tick(&mut self)
        ensures { self.new ≡ record self.old { held = held_tick self.old.held } }
    {
        if self.pieces == 0 {
            return;
        }
        if self.age == PATIENCE {
            self.clear();
        } else {
            self.age += 1;
        }
    }

    /// Returns the number of held packets.
    #[tactic(auto, using(crate::proofs::Opened::held))]
    fn count(&self) -> u8
        ensures count { result ≡ length (packets_of self.now.held) }
        ensures lawful { IsHeld self.now.unit self.now.held }
    {
        self.pieces
    }

    /// Returns the first cause to drop this packet.
    fn cause(&self, packet: &Packet<'_>) -> Option<DropCause>
        ensures cause { result ≡ cause_of self.now.unit self.now.held (packet_of packet.now.head packet.now.body.now) }
        ensures lawful { IsHeld self.now.unit self.now.held }
        ensures joins { IfNone result (FollowsPackets (base_of self.now.held packet.now.head) packet.now.head) }
    {
        let count = self.count();
        if packet.head.som {
            return start_cause(self.unit, packet);
        }
        if count == 0 {
            return Some(DropCause::NoStart);
        }
        next_cause(self.unit, count, packet)
    }

    /// Returns whether `feed` may be called: the packet starts a message, nothing is held, or the
    /// packet is of the held message.
    pub fn is_for(&self, packet: &Packet<'_>) -> bool
        ensures { (result ≡ true) ↔ ((packet.now.head.som ≡ true) ⊎ IsOfHeldMessage (packets_of self.now.held) packet.now.head) }
    {
        if packet.head.som {
            return true;
        }
        self.is_same(packet)
    }

    /// Returns whether the packet is of the held message, or nothing is held.
    #[tactic(auto, using(crate::proofs::Opened::held))]
    fn is_same(&self, packet: &Packet<'_>) -> bool
        ensures { (result ≡ true) ↔ IsOfHeldMessage (packets_of self.now.held) packet.now.head }
    {
        if self.pieces == 0 {
            return true;
        }
        if self.dest != packet.head.dest || self.source != packet.head.source {
            return false;
        }
        self.to == packet.head.to && self.tag == packet.head.tag
    }

    /// Takes a packet (DSP0236, section 8). A packet that starts a message replaces the held
    /// packets. Any other packet must be the next of the held message. The packet with EOM set
    /// completes the message.
    ///
    /// The packet's route must be that of the held message, unless nothing is held or the packet
    /// starts a message: there is one assembly for each source, tag and TO.
    pub fn feed(&mut self, packet: &Packet<'_>) -> Fed
        requires body { (1 ≤ length packet.now.body.now) × (length packet.now.body.now ≤ bytes_of self.old.unit) }
        requires tag { packet.now.head.tag ≤ 7 }
        requires same { (packet.now.head.som ≡ true) ⊎ IsOfHeldMessage (packets_of self.old.held) packet.now.head }
        ensures answer { result ≡ feed_outcome self.old.unit self.old.held (packet_of packet.now.head packet.now.body.now) }
        ensures after { self.new ≡ record self.old {
          held = held_after self.old.unit self.old.held (packet_of packet.now.head
              packet.now.body.now);
        } }
        ensures exact { (m : MessageOf)
            → IsMessage self.old.unit m
            → (result ≡ Fed.Whole m)
            ↔ (packets_with self.old.held (packet_of packet.now.head packet.now.body.now)
            ≡ pieces self.old.unit m) }
    {
        let mut whole = Message::blank();
        match self.take(packet, &mut whole) {
            Taken::Open => Fed::Open,
            Taken::Whole => Fed::Whole(whole),
            Taken::Dropped(cause) => Fed::Dropped(cause),
        }
    }

    /// Takes a packet as `feed` does. Writes a message that the packet completes into `whole`,
    /// which otherwise is left as it is.
    pub(crate) fn take(&mut self, packet: &Packet<'_>, whole: &mut Message) -> Taken
        requires body { (1 ≤ length packet.now.body.now) × (length packet.now.body.now ≤ bytes_of self.old.unit) }
        requires tag { packet.now.head.tag ≤ 7 }
        requires same { (packet.now.head.som ≡ true) ⊎ IsOfHeldMessage (packets_of self.old.held) packet.now.head }
        ensures answer { fed_of result whole.new
            ≡ feed_outcome self.old.unit self.old.held (packet_of packet.now.head
            packet.now.body.now) }
        ensures whole { KeepsMessageUnlessWhole result whole.old whole.new }
        ensures after { self.new ≡ record self.old {
          held = held_after self.old.unit self.old.held (packet_of packet.now.head
              packet.now.body.now);
        } }
        ensures lawful { IsHeld self.old.unit self.old.held }
        ensures joins { IfNone (cause_of self.old.unit self.old.held
            (packet_of packet.now.head packet.now.body.now))
            (FollowsPackets (base_of self.old.held packet.now.head) packet.now.head) }
    {
        let cause = self.cause(packet);
        if packet.head.som || cause.is_some() {
            self.clear();
        }
        if let Some(cause) = cause {
            return Taken::Dropped(cause);
        }
        if packet.head.eom {
            self.finish(packet, whole);
            return Taken::Whole;
        }
        self.append(packet);
        Taken::Open
    }

    /// Writes the message that ends with this packet.
    #[tactic(auto, using(crate::proofs::Opened::held))]
    fn finish(&mut self, packet: &Packet<'_>, whole: &mut Message)
        requires room { length (packets_of self.old.held) < MAX_PACKETS }
        requires body { (1 ≤ length packet.now.body.now) × (length packet.now.body.now ≤ bytes_of self.old.unit) }
        requires tag { packet.now.head.tag ≤ 7 }
        ensures whole { whole.new ≡ message_of packet.now.head
            (packets_of self.old.held ++ packet_of packet.now.head packet.now.body.now ∷ []) }
        ensures empty { self.new ≡ record self.old { held = None } }
    {
        whole.dest = packet.head.dest;
        whole.source = packet.head.source;
        whole.to = packet.head.to;
        whole.tag = packet.head.tag;
        whole.bytes.clear();
        let _ = whole.bytes.try_extend_from_slice(self.bytes.as_slice());
        let _ = whole.bytes.try_extend_from_slice(packet.body);
        self.clear();
    }

    /// Appends the body of a packet to the held message.
    #[tactic(auto, using(crate::proofs::Opened::held))]
    fn append(&mut self, packet: &Packet<'_>)
        requires joins { FollowsPackets (packets_of self.old.held) packet.now.head }
        requires full { length packet.now.body.now ≡ bytes_of self.old.unit }
        requires tag { packet.now.head.tag ≤ 7 }
        requires eom { packet.now.head.eom ≡ false }
        requires same { IsOfHeldMessage (packets_of self.old.held) packet.now.head }
        ensures { self.new ≡ record self.old {
          held = Some (record {
            packets = packets_of self.old.held ++ packet_of packet.now.head packet.now.body.now
                ∷ [];
            age = 0;
          });
        } }
    {
        self.dest = packet.head.dest;
        self.source = packet.head.source;
        self.to = packet.head.to;
        self.tag = packet.head.tag;
        self.age = 0;
        self.pieces += 1;
        let _ = self.bytes.try_extend_from_slice(packet.body);
    }
}

/// Returns the first cause to drop a packet that starts a message.
fn start_cause(unit: Unit, packet: &Packet<'_>) -> Option<DropCause>
    ensures cause { result ≡ start_cause unit (packet_of packet.now.head packet.now.body.now) }
    ensures number { IfNone result (packet.now.head.seq ≡ 0) }
{
    if packet.head.seq != 0 {
        return Some(DropCause::StartNumber);
    }
    if !packet.head.eom && packet.body.len() != unit.bytes() {
        return Some(DropCause::Unit);
    }
    None
}

/// Returns the first cause to drop a packet that comes after `count` packets.
fn next_cause(unit: Unit, count: u8, packet: &Packet<'_>) -> Option<DropCause>
    ensures cause { result ≡ next_cause unit count (packet_of packet.now.head packet.now.body.now) }
    ensures number { IfNone result ((packet.now.head.seq ≡ count % 4) × (count ≢ MAX_PACKETS)) }
{
    if packet.head.seq != count % SEQUENCE_NUMBERS {
        return Some(DropCause::Sequence);
    }
    if usize::from(count) == MAX_PACKETS {
        return Some(DropCause::FifthPacket);
    }
    if !packet.head.eom && packet.body.len() != unit.bytes() {
        return Some(DropCause::Unit);
    }
    None
}
