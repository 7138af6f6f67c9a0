//! The pairs of endpoints whose packets are decoded.

ghost use Rattle.std.specs.Prelude.{◌≡◌, OnOk, IfOk};
ghost use Rattle.std.specs.List.{position};
ghost use Rattle.fw_text.specs.Printing.{AppendsText};
ghost use Rattle.fw_trace.specs.Decoding.{ends_by, facts_of_packet, has_ends, new_pair, next_number, packet_says, pair_after};

use crate::decoder::PacketFacts;
use crate::lines::PacketReader;
use mctp_wire::Unit;
use std::alloc::{AllocError, Global};

/// The ends of a pair.
#[derive(Clone, Copy, PartialEq, Eq)]
pub struct Ends {
    /// The agent's endpoint identifier.
    pub agent: u8,
    /// The device's endpoint identifier.
    pub device: u8,
}

/// A pair of endpoints: the reader of its packets, and their number so far.
#[derive(Drop)]
pub struct Pair {
    reader: PacketReader,
    count: usize,
}

/// The ends of a packet's pair, by its source and destination. The source is the agent unless the
/// device is known.
fn ends_by(device: Option<u8>, source: u8, dest: u8) -> Ends
    ensures { result ≡ ends_by device source dest }
{
    match device {
        None => Ends {
            agent: source,
            device: dest,
        },
        Some(device) => Ends {
            agent: if source == device { dest } else { source },
            device,
        },
    }
}

/// Returns the ends of a packet's pair, if it has at least four bytes.
pub fn ends_of(device: Option<u8>, bytes: &[u8]) -> Option<Ends>
    ensures { result ≡ Rattle.fw_trace.specs.Decoding.ends_of device bytes.now }
{
    match bytes {
        [_, dest, source, _, ..] => Some(ends_by(device, *source, *dest)),
        _ => None,
    }
}

impl Pair {
    /// Creates a pair with these ends, before its first packet.
    pub fn new(unit: Unit, ends: Ends) -> Pair
        ensures { result ≡ new_pair unit ends }
    {
        Pair {
            reader: PacketReader::new(unit, ends.agent, ends.device),
            count: 0,
        }
    }

    /// Returns whether these are the pair's ends, in either order.
    pub fn has_ends(&self, ends: Ends) -> bool
        ensures { result ≡ has_ends ends self.now }
    {
        let (agent, device) = (self.reader.agent(), self.reader.device());
        (agent == ends.agent && device == ends.device)
            || (agent == ends.device && device == ends.agent)
    }

    /// Reads the pair's next packet: returns its facts, and appends what it says to `text`.
    ///
    /// # Errors
    /// `AllocError` if memory is refused; the text's content is unspecified then.
    pub fn read(
        &mut self,
        alloc: Global,
        text: &mut Vec<u8>,
        turn: Option<u32>,
        bytes: &[u8],
    ) -> Result<PacketFacts, AllocError>
        ensures facts { IfOk result (λ f. f ≡ facts_of_packet self.old turn bytes.now) }
        ensures text { OnOk result (AppendsText text.old.items text.new.items (packet_says self.old.reader bytes.now)) }
        ensures after { self.new ≡ pair_after self.old bytes.now }
    {
        let device = self.reader.device();
        let number = self.count.saturating_add(1);
        self.count = number;
        let head = self.reader.read(alloc, text, bytes)?;
        Ok(PacketFacts {
            turn,
            device,
            number,
            head,
        })
    }
}

/// Returns the place of the first pair with these ends.
pub fn place_of(pairs: &[Pair], ends: Ends) -> Option<usize>
    ensures { result ≡ position (has_ends ends) pairs.now }
{
    pairs.iter().position(|pair| pair.has_ends(ends))
}
