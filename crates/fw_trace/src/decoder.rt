//! Decodes the packets of any pairs of endpoints.

ghost use Rattle.std.specs.Prelude.{◌≡◌, ◌∷◌, ◌++◌, [], IfOk, OnOk, if◌then◌else◌, length, nat_lt};
ghost use Rattle.fw_text.specs.Printing.{AppendsText};
ghost use Rattle.fw_trace.specs.Decoding.{decoder_after, decoder_after_seen, facts_of_input, facts_of_packet, facts_of_seen, new_decoder, new_pair, packet_says, pair_after, text_of_input, text_of_seen};
ghost use Rattle.fw_trace.specs.Inputs.{line_input};
ghost use Rattle.fw_trace.specs.Seen.{seen_of};

use crate::inputs::{InputFault, place_in_line};
use crate::pairs::{Ends, Pair, ends_of, place_of};
use hex::FromHexError;
use mctp_wire::{Head, Unit};
use std::alloc::{AllocError, Global};
use std::marker::Model;

/// The most pairs of endpoints that a decoder has readers for.
const MAX_PAIRS: usize = 1024;

/// A packet to decode.
#[derive(Clone, Copy)]
pub struct SeenPacket<'a> {
    /// The tick of sending, if it is known.
    pub turn: Option<u32>,
    /// The device of the packet's link, if it is known.
    pub device: Option<u8>,
    /// The packet's bytes.
    pub bytes: &'a [u8],
}

/// The facts of an input, besides what its packet says.
#[derive(Clone, Copy)]
pub enum Facts {
    /// The input is no packet that can be decoded.
    Unread(InputFault),
    /// A packet of a pair.
    Packet(PacketFacts),
}

/// The facts of a packet, besides what it says.
#[derive(Clone, Copy)]
pub struct PacketFacts {
    /// The tick of sending, if it is known.
    pub turn: Option<u32>,
    /// The pair's device.
    pub device: u8,
    /// The packet's number among those of the pair, from 1. Those after 2^64 - 1 have that number.
    pub number: usize,
    /// The packet's head, unless the bytes aren't a packet.
    pub head: Option<Head>,
}

/// Decodes the packets of any pairs of endpoints in a network, each pair by a reader of its own. It
/// has readers for 1,024 pairs.
#[derive(Drop)]
pub struct Decoder {
    unit: Unit,
    pairs: Vec<Pair>,
}

impl Model for Decoder {
    ghost use Rattle.fw_trace.specs.Decoding.{DecoderOf};

    ghost Value = { DecoderOf };

    ghost view = { λ d. record { unit = d.unit; pairs = d.pairs.items } };
}

impl Decoder {
    /// Creates a decoder of a network with this transmission unit, before the first packet.
    pub fn new(alloc: Global, unit: Unit) -> Decoder
        ensures { result ≡ new_decoder unit }
    {
        Decoder {
            unit,
            pairs: Vec::new(alloc),
        }
    }

    /// Reads the first packet of a further pair, if there is room for it.
    fn read_new(
        &mut self,
        alloc: Global,
        text: &mut Vec<u8>,
        ends: Ends,
        packet: &SeenPacket<'_>,
    ) -> Result<Facts, AllocError>
        ensures facts { IfOk result (λ f. f ≡ (if nat_lt (length self.old.pairs) 1024
            then Facts.Packet (facts_of_packet (new_pair self.old.unit ends) packet.now.turn packet.now.bytes.now)
            else Facts.Unread InputFault.Pairs)) }
        ensures text { OnOk result (AppendsText text.old.items text.new.items (if nat_lt (length self.old.pairs) 1024
            then packet_says (new_pair self.old.unit ends).reader packet.now.bytes.now
            else [])) }
        ensures after { OnOk result (self.new ≡ (if nat_lt (length self.old.pairs) 1024
            then record self.old { pairs = self.old.pairs ++ pair_after (new_pair self.old.unit ends) packet.now.bytes.now ∷ [] }
            else self.old)) }
    {
        if self.pairs.len() >= MAX_PAIRS {
            return Ok(Facts::Unread(InputFault::Pairs));
        }
        let mut pair = Pair::new(self.unit, ends);
        let facts = pair.read(alloc, text, packet.turn, packet.bytes)?;
        self.pairs.push(pair)?;
        Ok(Facts::Packet(facts))
    }

    /// Decodes the next packet: returns its facts, and appends what it says to `text`.
    ///
    /// # Errors
    /// `AllocError` if memory is refused; the text and the decoder are unspecified then.
    #[tactic(auto, unfolding(crate::specs::Decoding::facts_of_seen, crate::specs::Decoding::text_of_seen, crate::specs::Decoding::decoder_after_seen))]
    pub fn read(
        &mut self,
        alloc: Global,
        text: &mut Vec<u8>,
        packet: &SeenPacket<'_>,
    ) -> Result<Facts, AllocError>
        ensures facts { IfOk result (λ f. f ≡ facts_of_seen self.old (seen_of packet.now)) }
        ensures text { OnOk result (AppendsText text.old.items text.new.items (text_of_seen self.old (seen_of packet.now))) }
        ensures after { OnOk result (self.new ≡ decoder_after_seen self.old (seen_of packet.now)) }
    {
        let Some(ends) = ends_of(packet.device, packet.bytes) else {
            return Ok(Facts::Unread(InputFault::Short));
        };
        match place_of(&self.pairs, ends) {
            Some(place) => {
                let pair = &mut self.pairs[place];
                let facts = pair.read(alloc, text, packet.turn, packet.bytes)?;
                Ok(Facts::Packet(facts))
            }
            None => self.read_new(alloc, text, ends, packet),
        }
    }

    /// Decodes the packet in a line: digits alone, or a line of a trace. Returns its facts, and
    /// appends what it says to `text`. A line that is no packet leaves the decoder as it is.
    ///
    /// # Errors
    /// `AllocError` if memory is refused; the text and the decoder are unspecified then.
    #[tactic(auto, unfolding(crate::specs::Inputs::line_input))]
    pub fn read_line(
        &mut self,
        alloc: Global,
        text: &mut Vec<u8>,
        line: &[u8],
    ) -> Result<Facts, AllocError>
        ensures facts { IfOk result (λ f. f ≡ facts_of_input self.old (line_input line.now)) }
        ensures text { OnOk result (AppendsText text.old.items text.new.items (text_of_input self.old (line_input line.now))) }
        ensures after { OnOk result (self.new ≡ decoder_after self.old (line_input line.now)) }
    {
        let placed = match place_in_line(line) {
            Ok(placed) => placed,
            Err(fault) => return Ok(Facts::Unread(fault)),
        };
        let bytes = match hex::decode(alloc, placed.digits) {
            Ok(bytes) => bytes,
            Err(FromHexError::OutOfMemory) => return Err(AllocError),
            Err(_) => return Ok(Facts::Unread(InputFault::Hex)),
        };
        let packet = SeenPacket {
            turn: placed.turn,
            device: placed.device,
            bytes: &bytes,
        };
        self.read(alloc, text, &packet)
    }
}
