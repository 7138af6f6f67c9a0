//! The packets that were sent between the agent and a device. Each takes a place, and as many bytes
//! as it has.

ghost use Rattle.std.specs.Prelude.{◌≡◌, ◌≤◌, ◌<◌, ◌+◌, ◌++◌, ◌∷◌, [], IfSome, OnErr, OnOk, drop, length, nat_lt, not, option_map, slice_get, slice_range};
ghost use Rattle.exch_lane.specs.Lanes.{lives_until};
ghost use Rattle.exch_lane.specs.Steps.{sent_at};
ghost use Rattle.fw_steps.specs.Packets.{is_dead_one, sent_of, start_at};
ghost use Rattle.fw_steps.specs.Worlds.{sent_now};

use fw_node::Outbox;
use mctp_wire::{MAX_PACKET, RawPacket};
use pldm_exch::LIFE;
use std::alloc::{AllocError, Global};
use std::marker::Model;

/// The date of a packet and the end of its bytes. They begin at the end of the packet before it.
#[derive(Clone, Copy)]
pub(crate) struct Place {
    /// The units of time that had passed when it was sent.
    date: u32,
    /// The number of bytes of all packets up to this one.
    end: usize,
}

/// A packet as it was sent, borrowed from its world.
#[derive(Clone, Copy, PartialEq, Eq)]
pub struct DatedPacket<'a> {
    /// The units of time that had passed when it was sent.
    pub date: u32,
    /// Its bytes.
    pub bytes: &'a [u8],
}

impl DatedPacket<'_> {
    /// Whether the packet may still be received at `now`: at most 8 units after its sending.
    pub fn lives(&self, now: u32) -> bool
        ensures { result ≡ not (nat_lt (lives_until (sent_of self.now)) now) }
    {
        self.date.saturating_add(LIFE) >= now
    }
}

/// Returns the start of the packet after the first `count`.
fn start_at(start: usize, places: &[Place], count: usize) -> usize
    requires { count ≤ length places.now }
    ensures { result ≡ start_at start places.now count }
{
    if count == 0 {
        return start;
    }
    places[count - 1].end
}

/// Returns the place with this number, counted from 0.
fn place_at(places: &[Place], number: usize) -> Option<Place>
    ensures { result ≡ slice_get places.now number }
{
    places.get(number).copied()
}

/// Returns the packet of this date with the bytes from `start` to `end`.
fn part(date: u32, bytes: &[u8], start: usize, end: usize) -> DatedPacket<'_>
    requires order { start ≤ end }
    requires within { end ≤ length bytes.now }
    ensures packet { sent_of result ≡ record { date = date; bytes = slice_range bytes.now start end } }
    ensures size { length result.bytes.now + start ≡ end }
{
    DatedPacket {
        date,
        bytes: &bytes[start..end],
    }
}

/// Packets in the order of their sending, borrowed from their world.
#[derive(Drop)]
pub struct SentPackets<'a> {
    /// The start of the bytes of the first packet.
    start: usize,
    /// A place for each packet.
    places: &'a [Place],
    /// The bytes of these packets and of those before them.
    bytes: &'a [u8],
}

impl<'a> Model for SentPackets<'a> {
    ghost use Rattle.std.specs.Prelude.{List, length};
    ghost use Rattle.exch_lane.specs.Lanes.{Sent};
    ghost use Rattle.fw_steps.specs.Packets.{AreLengthsEnds, packets_in};

    ghost Value = { List Sent };

    ghost view = { λ s. packets_in s.start s.places.now s.bytes.now };

    ghost invariant = { λ s. AreLengthsEnds s.start s.places.now (length s.bytes.now) };
}

impl<'a> SentPackets<'a> {
    /// Returns the number of packets.
    #[tactic(auto, using(crate::proofs::Spans::count_in))]
    pub fn len(&self) -> usize
        ensures { result ≡ length self.now }
    {
        self.places.len()
    }

    /// Returns the packet at a place, counted from 0.
    pub fn get(&self, place: usize) -> Option<DatedPacket<'a>>
        ensures packet { option_map sent_of result ≡ slice_get self.now place }
        ensures short { IfSome result (λ p. length p.bytes.now ≤ MAX_PACKET) }
    {
        let Some(found) = place_at(self.places, place) else {
            return None;
        };
        let start = start_at(self.start, self.places, place);
        Some(part(found.date, self.bytes, start, found.end))
    }

    /// Returns a copy of the bytes of the packet at a place, counted from 0.
    pub fn copied(&self, place: usize) -> Option<RawPacket>
        ensures { option_map (λ p. p.items) result ≡ option_map (λ s. s.bytes) (slice_get self.now place) }
    {
        let packet = self.get(place)?;
        let mut copy = RawPacket::new();
        let _ = copy.try_extend_from_slice(packet.bytes);
        Some(copy)
    }

    /// Returns the packets after the first `count`.
    pub fn behind(&self, count: usize) -> SentPackets<'a>
        ensures { result ≡ drop count self.now }
    {
        if self.places.len() < count {
            return SentPackets {
                start: self.bytes.len(),
                places: &[],
                bytes: self.bytes,
            };
        }
        SentPackets {
            start: start_at(self.start, self.places, count),
            places: &self.places[count..],
            bytes: self.bytes,
        }
    }

    /// Whether there is a packet at a place, counted from 0, which can't be received any more at
    /// `now`.
    pub(crate) fn is_dead(&self, place: usize, now: u32) -> bool
        ensures { result ≡ is_dead_one now (slice_get self.now place) }
    {
        match self.get(place) {
            Some(packet) => !packet.lives(now),
            None => false,
        }
    }
}

/// Packets in the order of their sending. None is ever removed.
#[derive(Drop)]
pub(crate) struct Packets {
    /// A place for each packet.
    places: Vec<Place>,
    /// The bytes of all packets, in order.
    bytes: Vec<u8>,
}

impl Model for Packets {
    ghost use Rattle.std.specs.Prelude.{◌-◌, ◌/◌, length, min};
    ghost use Rattle.std.specs.Vec.{vec_capacity, vec_len};
    ghost use Rattle.mctp_wire.specs.declared.layout.TheConstants.{MAX_PACKET};
    ghost use Rattle.fw_steps.specs.Packets.{AreLengthsEnds, PacketsOf, packets_in};

    ghost Value = { PacketsOf };

    ghost view = { λ p. record {
      packets = packets_in 0 p.places.items p.bytes.items;
      room = min (vec_capacity p.places - vec_len p.places) ((vec_capacity p.bytes - vec_len p.bytes) / MAX_PACKET);
    } };

    ghost invariant = { λ p. AreLengthsEnds 0 p.places.items (length p.bytes.items) };
}

impl Packets {
    /// Creates an empty list of packets.
    pub(crate) fn new(alloc: Global) -> Packets
        ensures { result.packets ≡ [] }
    {
        Packets {
            places: Vec::new(alloc),
            bytes: Vec::new(alloc),
        }
    }

    /// Borrows all packets.
    pub(crate) fn lent(&self) -> SentPackets<'_>
        ensures { result ≡ self.now.packets }
    {
        SentPackets {
            start: 0,
            places: self.places.as_slice(),
            bytes: self.bytes.as_slice(),
        }
    }

    /// Makes room for `count` more packets.
    pub(crate) fn make_room(&mut self, count: u16) -> Result<(), AllocError>
        ensures room { OnOk result (count ≤ self.new.room) }
        ensures lacked { OnErr result (self.old.room < count) }
        ensures same { self.new.packets ≡ self.old.packets }
    {
        let count = usize::from(count);
        self.places.reserve(count)?;
        self.bytes.reserve(count * MAX_PACKET)
    }

    /// Appends a packet. There must be room for it.
    pub(crate) fn push(&mut self, date: u32, bytes: &[u8])
        requires room { 1 ≤ self.old.room }
        requires short { length bytes.now ≤ MAX_PACKET }
        ensures packets { self.new.packets ≡ self.old.packets ++ sent_at date bytes.now ∷ [] }
        ensures room { self.old.room ≤ self.new.room + 1 }
    {
        let _ = self.bytes.extend_from_slice(bytes);
        let end = self.bytes.as_slice().len();
        let _ = self.places.push(Place { date, end });
    }

    /// Appends the packets of the outbox, with this date. There must be room for them.
    pub(crate) fn drain(&mut self, date: u32, outbox: &mut Outbox)
        requires { length outbox.old ≤ self.old.room }
        ensures packets { self.new.packets ≡ self.old.packets ++ sent_now date outbox.old }
        ensures outbox { outbox.new ≡ [] }
    {
        while let Some(packet) = outbox.pop() {
            self.push(date, packet.as_slice());
        }
    }
}
