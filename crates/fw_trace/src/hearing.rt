//! What the receiving end does with a packet.

ghost use Rattle.std.specs.Prelude.{◌≡◌, ◌≤◌, length};
ghost use Rattle.mctp_reasm.specs.Pieces.{packet_of};
ghost use Rattle.mctp_wire.specs.Units.{bytes_of};
ghost use Rattle.fw_trace.specs.Hearings.{fed_in, held_in, no_assemblies};

use mctp_reasm::{Fed, Inbox, Message, Taken};
use mctp_wire::{Packet, Unit};
use std::marker::Model;

/// What the receiving end does with a packet between an agent and a device.
#[derive(Drop)]
pub enum PacketOutcome {
    /// The packet's destination is neither of them.
    Destination,
    /// The packet's destination is one of them, and its source isn't the other.
    Source,
    /// An assembly of the destination took the packet or dropped it.
    Fed(Fed),
}

/// The assemblies of one end: of the peer's requests and of its replies.
#[derive(Drop)]
pub struct EndAssemblies {
    requests: Inbox,
    replies: Inbox,
}

impl Model for EndAssemblies {
    ghost use Rattle.std.specs.Prelude.{◌≡◌, false, true};
    ghost use Rattle.fw_trace.specs.Hearings.{HearingOf};

    ghost Value = { HearingOf };

    ghost view = { λ h. record {
      unit = h.requests.unit;
      own = h.requests.own;
      peer = h.requests.peer;
      held = record { requests = h.requests.held; replies = h.replies.held };
    } };

    ghost invariant = { λ h. (h.requests.to ≡ true)
        × (h.replies.to ≡ false)
        × (h.replies.unit ≡ h.requests.unit)
        × (h.replies.own ≡ h.requests.own)
        × (h.replies.peer ≡ h.requests.peer) };
}

impl EndAssemblies {
    /// Creates the empty assemblies of the endpoint `own`, in a network with this transmission
    /// unit.
    pub fn new(unit: Unit, own: u8, peer: u8) -> EndAssemblies
        ensures { result ≡ record { unit = unit; own = own; peer = peer; held = no_assemblies } }
    {
        EndAssemblies {
            requests: Inbox::new(unit, own, peer, true),
            replies: Inbox::new(unit, own, peer, false),
        }
    }

    /// Returns the network's transmission unit.
    pub fn unit(&self) -> Unit
        ensures { result ≡ self.now.unit }
    {
        self.requests.unit()
    }

    /// Returns the end's own endpoint identifier.
    pub fn own(&self) -> u8
        ensures { result ≡ self.now.own }
    {
        self.requests.own()
    }

    /// Returns the peer's endpoint identifier.
    pub fn peer(&self) -> u8
        ensures { result ≡ self.now.peer }
    {
        self.requests.peer()
    }

    /// Feeds a packet from the peer to the assembly of its tag; TO selects those of requests.
    pub fn feed(&mut self, packet: &Packet<'_>) -> Fed
        requires dest { packet.now.head.dest ≡ self.old.own }
        requires source { packet.now.head.source ≡ self.old.peer }
        requires body { (1 ≤ length packet.now.body.now) × (length packet.now.body.now ≤ bytes_of self.old.unit) }
        requires tag { packet.now.head.tag ≤ 7 }
        ensures answer { result ≡ fed_in self.old.unit self.old.held (packet_of packet.now.head packet.now.body.now) }
        ensures after { self.new ≡ record self.old {
          held = held_in self.old.unit self.old.held (packet_of packet.now.head
              packet.now.body.now);
        } }
    {
        let mut whole = Message::blank();
        let taken = if packet.head.to {
            self.requests.feed(packet, &mut whole)
        } else {
            self.replies.feed(packet, &mut whole)
        };
        match taken {
            Taken::Open => Fed::Open,
            Taken::Whole => Fed::Whole(whole),
            Taken::Dropped(cause) => Fed::Dropped(cause),
        }
    }
}
