//! The messages that a node receives from a peer, assembled from their packets (DSP0236, section
//! 8).

ghost use Rattle.std.specs.Prelude.{◌≡◌, ◌≤◌, None, Some, false, length, map, true};
ghost use Rattle.mctp_reasm.specs.Held.{IsOfHeldMessage, KeepsMessageUnlessWhole, held_tick, packets_of, fed_of};
ghost use Rattle.mctp_reasm.specs.Pieces.{packet_of};
ghost use Rattle.mctp_reasm.specs.Inboxes.{HaveUnit, feed_outcome_at, held_at, held_in, held_with, is_for, none_held, packet_for, assembly_after_tick};
ghost use Rattle.mctp_wire.specs.Packet.{IsRead, spelling};
ghost use Rattle.mctp_wire.specs.Units.{bytes_of};

use crate::{Assembly, Message, Taken};
use mctp_wire::{Head, Packet, Unit};
use std::marker::Model;

/// Tags of a direction: the tag of a message has three bits (DSP0236).
pub const TAGS: usize = 8;

/// The assemblies of the messages that a node receives from one peer, one for each tag: of that
/// peer's requests (TO set), or of its replies (TO clear).
#[derive(Drop)]
pub struct Inbox {
    unit: Unit,
    own: u8,
    peer: u8,
    to: bool,
    places: [Assembly; TAGS],
}

impl Model for Inbox {
    ghost use Rattle.mctp_reasm.specs.Inboxes.{HaveUnit, InboxOf, IsInbox, held_in};

    ghost Value = { InboxOf };

    ghost view = { λ b. record { unit = b.unit; own = b.own; peer = b.peer; to = b.to; held = held_in b.places } };

    ghost invariant = { λ b. IsInbox (record {
      unit = b.unit;
      own = b.own;
      peer = b.peer;
      to = b.to;
      held = held_in b.places;
    })
        × HaveUnit b.unit b.places };
}

impl Inbox {
    /// Returns an empty inbox of the endpoint `own` in a network with this transmission unit. It
    /// receives requests of `peer` if `to` is set, otherwise replies.
    pub fn new(unit: Unit, own: u8, peer: u8, to: bool) -> Inbox
        ensures { result ≡ record { unit = unit; own = own; peer = peer; to = to; held = none_held } }
    {
        Inbox {
            unit,
            own,
            peer,
            to,
            places: [
                Assembly::new(unit),
                Assembly::new(unit),
                Assembly::new(unit),
                Assembly::new(unit),
                Assembly::new(unit),
                Assembly::new(unit),
                Assembly::new(unit),
                Assembly::new(unit),
            ],
        }
    }

    /// Returns the network's transmission unit.
    pub fn unit(&self) -> Unit
        ensures { result ≡ self.now.unit }
    {
        self.unit
    }

    /// Returns the node's own endpoint identifier.
    pub fn own(&self) -> u8
        ensures { result ≡ self.now.own }
    {
        self.own
    }

    /// Returns the endpoint identifier of the peer.
    pub fn peer(&self) -> u8
        ensures { result ≡ self.now.peer }
    {
        self.peer
    }

    /// Returns whether a packet is for this inbox: it goes to this node, comes from its peer, and
    /// TO is set exactly if the inbox receives requests.
    fn is_for(&self, head: &Head) -> bool
        ensures { result ≡ is_for self.now.own self.now.peer self.now.to head.now }
    {
        head.dest == self.own && head.source == self.peer && head.to == self.to
    }

    /// Returns whether a packet is for this inbox: its body fits the transmission unit, it goes to
    /// this node's endpoint and comes from its peer, and TO is set exactly if the inbox receives
    /// requests.
    #[tactic(auto, using(crate::proofs::Heard::heard))]
    pub fn accepts(&self, packet: &Packet<'_>) -> bool
        requires read { IsRead packet.now }
        ensures heard { result ≡ true
            → packet_for self.now.unit self.now.own self.now.peer self.now.to (spelling packet.now)
            ≡ Some (packet_of packet.now.head packet.now.body.now) }
        ensures other { result ≡ false
            → packet_for self.now.unit self.now.own self.now.peer self.now.to (spelling packet.now)
            ≡ None }
        ensures mine { result ≡ true → is_for self.now.own self.now.peer self.now.to packet.now.head ≡ true }
        ensures fits { result ≡ true → length packet.now.body.now ≤ bytes_of self.now.unit }
    {
        if packet.body.len() > self.unit.bytes() {
            return false;
        }
        self.is_for(&packet.head)
    }

    /// Feeds a packet for this node to the assembly of its tag, and returns the outcome. Writes a
    /// message that the packet completes into `whole`, which otherwise is left as it is.
    #[tactic(auto, using(crate::proofs::Routes::routes))]
    pub fn feed(&mut self, packet: &Packet<'_>, whole: &mut Message) -> Taken
        requires mine { is_for self.old.own self.old.peer self.old.to packet.now.head ≡ true }
        requires body { (1 ≤ length packet.now.body.now) × (length packet.now.body.now ≤ bytes_of self.old.unit) }
        requires tag { packet.now.head.tag ≤ 7 }
        ensures answer { fed_of result whole.new
            ≡ feed_outcome_at self.old.unit self.old.held (packet_of packet.now.head
            packet.now.body.now) }
        ensures whole { KeepsMessageUnlessWhole result whole.old whole.new }
        ensures after { self.new ≡ record self.old {
          held = held_with self.old.unit self.old.held (packet_of packet.now.head
              packet.now.body.now);
        } }
    {
        feed_to(self.unit, &mut self.places, packet, whole)
    }

    /// Counts a tick: each assembly grows older, and ends in the ninth tick after its last packet.
    #[tactic(auto, using(crate::proofs::Routes::routes))]
    pub fn tick(&mut self)
        ensures { self.new ≡ record self.old { held = map held_tick self.old.held } }
    {
        tick_all(&mut self.places);
    }
}

/// Counts a tick for each assembly.
fn tick_all(places: &mut [Assembly])
    ensures { places.new ≡ map assembly_after_tick places.old }
{
    for place in places.iter_mut() {
        place.tick();
    }
}

/// Feeds a packet to the assembly of its tag.
#[tactic(auto, using(crate::proofs::Places::places))]
fn feed_to(unit: Unit, places: &mut [Assembly], packet: &Packet<'_>, whole: &mut Message) -> Taken
    requires places { length places.old ≡ 8 }
    requires unit { HaveUnit unit places.old }
    requires body { (1 ≤ length packet.now.body.now) × (length packet.now.body.now ≤ bytes_of unit) }
    requires tag { packet.now.head.tag ≤ 7 }
    requires same { IsOfHeldMessage (packets_of (held_at (held_in places.old) packet.now.head.tag)) packet.now.head }
    ensures answer { fed_of result whole.new
        ≡ feed_outcome_at unit (held_in places.old) (packet_of packet.now.head
        packet.now.body.now) }
    ensures whole { KeepsMessageUnlessWhole result whole.old whole.new }
    ensures after { held_in places.new ≡ held_with unit (held_in places.old) (packet_of packet.now.head packet.now.body.now) }
    ensures unit { HaveUnit unit places.new }
{
    places[usize::from(packet.head.tag)].take(packet, whole)
}
