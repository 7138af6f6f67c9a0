//! Links of the tests.

ghost use Rattle.std.specs.Prelude.{◌≡◌};

use fw_edge::{FrameFault, Link, MemLink, Tally};
use fw_world::Side;
use mctp_wire::RawPacket;
use std::alloc::Global;

/// A fault of a link.
#[derive(Clone, Copy, PartialEq, Eq)]
pub enum Trouble {
    /// Loses this packet, counted from 1.
    Loses(u64),
    /// Holds back the packet of the first number, and passes it on after that of the second.
    Delays(u64, u64),
    /// Loses every packet.
    LosesAll,
    /// Returns each packet at the end at which it was sent.
    Echoes,
    /// Inserts a forged packet before the first.
    ForgesFirst,
    /// Returns a forged packet whenever it is asked, and passes nothing on.
    ForgesAlways,
    /// Fails in this call, counted from 1, and in no other.
    Fails(u64),
}

/// A link in memory with a fault.
#[derive(Drop)]
pub struct BadLink {
    link: MemLink,
    trouble: Trouble,
    /// The numbers of calls and of packets so far.
    calls: u64,
    packets: u64,
    /// The packet that is held back, with the end at which it was sent.
    kept: Option<(Side, RawPacket)>,
    tally: Tally,
}

/// A RequestUpdate from 8 to 9 with the command code 0xFF, which is not a packet of a run.
fn forged() -> RawPacket {
    let mut packet = RawPacket::new();
    let _ = packet.try_extend_from_slice(&[0x01, 0x09, 0x08, 0xC8, 0x01, 0x80, 0x05, 0xFF]);
    packet
}

/// A packet with the same bytes.
fn copy_of(packet: &RawPacket) -> RawPacket {
    let mut copy = RawPacket::new();
    let _ = copy.try_extend_from_slice(packet.as_slice());
    copy
}

/// The other end of a link.
fn other_end(side: Side) -> Side {
    match side {
        Side::Agent => Side::Device,
        Side::Device => Side::Agent,
    }
}

impl BadLink {
    /// Creates a link without packets.
    pub fn new(alloc: Global, trouble: Trouble) -> BadLink {
        BadLink {
            link: MemLink::new(alloc),
            trouble,
            calls: 0,
            packets: 0,
            kept: None,
            tally: Tally::new(),
        }
    }

    /// Whether the current call fails.
    fn fails(&mut self) -> bool
        ensures { self.new.tally ≡ self.old.tally }
    {
        self.calls = self.calls.saturating_add(1);
        self.trouble == Trouble::Fails(self.calls)
    }

    /// Passes a packet on, or not.
    fn pass(&mut self, side: Side, packet: &RawPacket)
        ensures { self.new.tally ≡ self.old.tally }
    {
        self.packets = self.packets.saturating_add(1);
        match self.trouble {
            Trouble::LosesAll | Trouble::ForgesAlways => return,
            Trouble::Loses(number) if number == self.packets => return,
            Trouble::Echoes => {
                let _ = self.link.send(other_end(side), packet);
                return;
            }
            Trouble::ForgesFirst if self.packets == 1 => {
                let _ = self.link.send(side, &forged());
            }
            Trouble::Delays(number, _) if number == self.packets => {
                self.kept = Some((side, copy_of(packet)));
                return;
            }
            _ => {}
        }
        let _ = self.link.send(side, packet);
        self.pass_kept();
    }

    /// Passes the held-back packet on, if it is due after the last one passed on.
    fn pass_kept(&mut self)
        ensures { self.new.tally ≡ self.old.tally }
    {
        let Trouble::Delays(_, behind) = self.trouble else {
            return;
        };
        if behind != self.packets {
            return;
        }
        if let Some((side, packet)) = self.kept.take() {
            let _ = self.link.send(side, &packet);
        }
    }

    /// The next packet at an end.
    fn next(&mut self, side: Side) -> Option<RawPacket>
        ensures { self.new.tally ≡ self.old.tally }
    {
        if self.trouble == Trouble::ForgesAlways {
            return Some(forged());
        }
        match self.link.receive(side) {
            Ok(packet) => packet,
            Err(_) => None,
        }
    }
}

impl Link for BadLink {
    ghost tally = { λ l. l.tally };

    fn send(&mut self, side: Side, packet: &RawPacket) -> Result<(), FrameFault> {
        if self.fails() {
            self.tally.fail();
            return Err(FrameFault::Io);
        }
        self.pass(side, packet);
        self.tally.send();
        Ok(())
    }

    fn receive(&mut self, side: Side) -> Result<Option<RawPacket>, FrameFault> {
        if self.fails() {
            self.tally.fail();
            return Err(FrameFault::Io);
        }
        let packet = self.next(side);
        self.tally.ask(packet.is_some());
        Ok(packet)
    }

    fn failures(&self) -> u64 {
        self.tally.failures
    }

    fn sent(&self) -> u64 {
        self.tally.sent
    }

    fn asked(&self) -> u64 {
        self.tally.asked
    }

    fn given(&self) -> u64 {
        self.tally.given
    }
}
