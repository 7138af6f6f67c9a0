//! A line for each packet between an agent and a device. Each function's only error is
//! `AllocError`.

ghost use Rattle.std.specs.Prelude.{◌≡◌, ◌≤◌, ◌++◌, codes, length, IfOk, OnOk};
ghost use Rattle.mctp_reasm.specs.Pieces.{packet_of};
ghost use Rattle.mctp_wire.specs.Packet as wire;
ghost use Rattle.mctp_wire.specs.Units.{bytes_of};
ghost use Rattle.fw_text.specs.Printing.{AppendsText};
ghost use Rattle.fw_trace.specs.Decoding.{head_in, packet_says};
ghost use Rattle.fw_trace.specs.Lines.{after_packet, fed_text, head_text, outcome_of_packet, outcome_text, new_reader, packet_line, packet_text, part_text, place_text, reader_after};
ghost use Rattle.fw_trace.specs.Messages.{message_text};
ghost use Rattle.fw_trace.specs.Names.{cause_name};
ghost use Rattle.fw_trace.specs.Pieces.{in_digits};

use crate::hearing::{EndAssemblies, PacketOutcome};
use crate::messages::push_message;
use crate::names::cause_name;
use crate::pieces::{push_byte, push_digits, push_long};
use fw_text::{push_number, push_words};
use mctp_reasm::{DropCause, Fed};
use mctp_wire::{Head, Packet, Unit};
use std::alloc::{AllocError, Global};
use std::marker::Model;

/// Decodes the packets between an agent and a device for a trace. It takes each packet once, in the
/// order of sending. Each end has assemblies of its own; what they hold doesn't age.
#[derive(Drop)]
pub struct PacketReader {
    at_agent: EndAssemblies,
    at_device: EndAssemblies,
}

impl Model for PacketReader {
    ghost use Rattle.std.specs.Prelude.{◌≡◌};
    ghost use Rattle.fw_trace.specs.Lines.{ReaderOf};

    ghost Value = { ReaderOf };

    ghost view = { λ r. record {
      unit = r.at_device.unit;
      agent = r.at_device.peer;
      device = r.at_device.own;
      at_agent = r.at_agent.held;
      at_device = r.at_device.held;
    } };

    ghost invariant = { λ r. (r.at_agent.unit ≡ r.at_device.unit)
        × (r.at_agent.own ≡ r.at_device.peer)
        × (r.at_agent.peer ≡ r.at_device.own) };
}

/// The place of a packet among those of its pair.
#[derive(Clone, Copy)]
struct Place {
    /// The tick at which it was sent.
    turn: u32,
    /// The pair's device.
    device: u8,
    /// Its number, from 1.
    number: usize,
}

impl PacketReader {
    /// Creates a reader of the packets between the endpoints `agent` and `device`, in a network
    /// with this transmission unit, before the first packet.
    pub fn new(unit: Unit, agent: u8, device: u8) -> PacketReader
        ensures { result ≡ new_reader unit agent device }
    {
        PacketReader {
            at_agent: EndAssemblies::new(unit, agent, device),
            at_device: EndAssemblies::new(unit, device, agent),
        }
    }

    /// Returns the network's transmission unit.
    pub fn unit(&self) -> Unit
        ensures { result ≡ self.now.unit }
    {
        self.at_device.unit()
    }

    /// Returns the agent's endpoint identifier.
    pub fn agent(&self) -> u8
        ensures { result ≡ self.now.agent }
    {
        self.at_device.peer()
    }

    /// Returns the device's endpoint identifier.
    pub fn device(&self) -> u8
        ensures { result ≡ self.now.device }
    {
        self.at_device.own()
    }

    /// Feeds a packet to the assemblies of its destination.
    #[tactic(auto, unfolding(crate::specs::Lines::outcome_of_packet, crate::specs::Lines::after_packet))]
    fn assemble(&mut self, packet: &Packet<'_>) -> PacketOutcome
        requires body { (1 ≤ length packet.now.body.now) × (length packet.now.body.now ≤ bytes_of self.old.unit) }
        requires tag { packet.now.head.tag ≤ 7 }
        ensures heard { result ≡ outcome_of_packet self.old (packet_of packet.now.head packet.now.body.now) }
        ensures after { self.new ≡ after_packet self.old (packet_of packet.now.head packet.now.body.now) }
    {
        let (end, from) = (packet.head.dest, packet.head.source);
        if end == self.device() {
            if from != self.agent() {
                return PacketOutcome::Source;
            }
            return PacketOutcome::Fed(self.at_device.feed(packet));
        }
        if end != self.agent() {
            return PacketOutcome::Destination;
        }
        if from != self.device() {
            return PacketOutcome::Source;
        }
        PacketOutcome::Fed(self.at_agent.feed(packet))
    }

    /// Appends the line of the next packet, sent at tick `turn` as the pair's packet `number`,
    /// counted from 1. Bytes that aren't a packet are shown in digits, and no assembly changes. The
    /// reader is updated whatever the result.
    ///
    /// # Errors
    /// `AllocError` if memory is refused; the text's content is unspecified then.
    #[tactic(auto, unfolding(crate::specs::Lines::packet_line, crate::specs::Lines::reader_after))]
    pub fn push_line(
        &mut self,
        alloc: Global,
        text: &mut Vec<u8>,
        turn: u32,
        number: usize,
        bytes: &[u8],
    ) -> Result<(), AllocError>
        ensures line { OnOk result (AppendsText text.old.items text.new.items (packet_line self.old turn number bytes.now)) }
        ensures after { self.new ≡ reader_after self.old bytes.now }
    {
        let place = Place {
            turn,
            device: self.device(),
            number,
        };
        let Ok(packet) = mctp_wire::decode(self.unit(), bytes) else {
            return push_bytes_line(alloc, text, place, bytes);
        };
        let heard = self.assemble(&packet);
        push_packet_line(alloc, text, place, &packet, &heard)
    }

    /// Reads the next packet: returns its head, if the bytes are a packet, and appends what it says
    /// to `text`. The reader is updated whatever the result.
    ///
    /// # Errors
    /// `AllocError` if memory is refused; the text's content is unspecified then.
    #[tactic(auto, unfolding(crate::specs::Decoding::packet_says, crate::specs::Lines::reader_after))]
    pub(crate) fn read(
        &mut self,
        alloc: Global,
        text: &mut Vec<u8>,
        bytes: &[u8],
    ) -> Result<Option<Head>, AllocError>
        ensures head { IfOk result (λ h. h ≡ head_in (wire.packet_of self.old.unit bytes.now)) }
        ensures text { OnOk result (AppendsText text.old.items text.new.items (packet_says self.old bytes.now)) }
        ensures after { self.new ≡ reader_after self.old bytes.now }
    {
        let Ok(packet) = mctp_wire::decode(self.unit(), bytes) else {
            push_digits(alloc, text, " bytes ", bytes)?;
            return Ok(None);
        };
        let heard = self.assemble(&packet);
        push_outcome(alloc, text, &packet, &heard)?;
        Ok(Some(packet.head))
    }
}

/// Appends the tick at which a packet was sent, its device, and its number.
#[tactic(auto, unfolding(crate::specs::Lines::place_text))]
fn push_place(alloc: Global, text: &mut Vec<u8>, place: Place) -> Result<(), AllocError>
    ensures { OnOk result (AppendsText text.old.items text.new.items (place_text place.turn place.device place.number)) }
{
    push_long(alloc, text, "", place.turn)?;
    push_byte(alloc, text, " ", place.device)?;
    push_number(alloc, text, " ", place.number)?;
    Ok(())
}

/// Appends the packet's source and destination, and its tag.
#[tactic(auto, unfolding(crate::specs::Lines::head_text))]
pub(crate) fn push_head(alloc: Global, text: &mut Vec<u8>, head: &Head) -> Result<(), AllocError>
    ensures { OnOk result (AppendsText text.old.items text.new.items (head_text head.now)) }
{
    push_byte(alloc, text, " ", head.source)?;
    push_byte(alloc, text, " > ", head.dest)?;
    push_byte(alloc, text, " tag ", head.tag)?;
    Ok(())
}

/// Appends a packet that doesn't end its message.
#[tactic(auto, unfolding(crate::specs::Lines::part_text))]
fn push_part(alloc: Global, text: &mut Vec<u8>, packet: &Packet<'_>) -> Result<(), AllocError>
    ensures { OnOk result (AppendsText text.old.items text.new.items (part_text (packet_of packet.now.head packet.now.body.now))) }
{
    push_byte(alloc, text, " part ", packet.head.seq)?;
    push_number(alloc, text, " of ", packet.body.len())?;
    push_words(text, " bytes")?;
    Ok(())
}

/// Appends the message that a packet completes.
fn push_whole(alloc: Global, text: &mut Vec<u8>, message: &[u8]) -> Result<(), AllocError>
    ensures { OnOk result (AppendsText text.old.items text.new.items (codes " " ++ message_text message.now)) }
{
    push_words(text, " ")?;
    push_message(alloc, text, message)?;
    Ok(())
}

/// Appends the reason why a packet is dropped.
fn push_dropped(text: &mut Vec<u8>, cause: DropCause) -> Result<(), AllocError>
    ensures { OnOk result (AppendsText text.old.items text.new.items (codes " drop " ++ cause_name cause)) }
{
    push_words(text, " drop ")?;
    push_words(text, cause_name(cause))?;
    Ok(())
}

/// Appends the result of feeding a packet to an assembly.
fn push_fed(
    alloc: Global,
    text: &mut Vec<u8>,
    packet: &Packet<'_>,
    fed: &Fed,
) -> Result<(), AllocError>
    ensures { OnOk result (AppendsText text.old.items text.new.items
        (fed_text (packet_of packet.now.head packet.now.body.now) fed.now)) }
{
    match fed {
        Fed::Open => push_part(alloc, text, packet),
        Fed::Whole(message) => push_whole(alloc, text, message.bytes()),
        Fed::Dropped(cause) => push_dropped(text, *cause),
    }
}

/// Appends the outcome of a packet.
fn push_outcome(
    alloc: Global,
    text: &mut Vec<u8>,
    packet: &Packet<'_>,
    heard: &PacketOutcome,
) -> Result<(), AllocError>
    ensures { OnOk result (AppendsText text.old.items text.new.items
        (outcome_text (packet_of packet.now.head packet.now.body.now) heard.now)) }
{
    match heard {
        PacketOutcome::Destination => push_words(text, " drop Destination"),
        PacketOutcome::Source => push_words(text, " drop Source"),
        PacketOutcome::Fed(fed) => push_fed(alloc, text, packet, fed),
    }
}

/// Appends a packet's head, and its outcome.
#[tactic(auto, unfolding(crate::specs::Lines::packet_text))]
fn push_packet(
    alloc: Global,
    text: &mut Vec<u8>,
    packet: &Packet<'_>,
    heard: &PacketOutcome,
) -> Result<(), AllocError>
    ensures { OnOk result (AppendsText text.old.items text.new.items
        (packet_text (packet_of packet.now.head packet.now.body.now) heard.now)) }
{
    push_head(alloc, text, &packet.head)?;
    push_outcome(alloc, text, packet, heard)?;
    Ok(())
}

/// Appends the line of a packet.
fn push_packet_line(
    alloc: Global,
    text: &mut Vec<u8>,
    place: Place,
    packet: &Packet<'_>,
    heard: &PacketOutcome,
) -> Result<(), AllocError>
    ensures { OnOk result (AppendsText text.old.items text.new.items
        (place_text place.turn place.device place.number
        ++ packet_text (packet_of packet.now.head packet.now.body.now) heard.now ++ codes "\n")) }
{
    push_place(alloc, text, place)?;
    push_packet(alloc, text, packet, heard)?;
    push_words(text, "\n")?;
    Ok(())
}

/// Appends the line of bytes that aren't a packet.
fn push_bytes_line(
    alloc: Global,
    text: &mut Vec<u8>,
    place: Place,
    bytes: &[u8],
) -> Result<(), AllocError>
    ensures { OnOk result (AppendsText text.old.items text.new.items
        (place_text place.turn place.device place.number ++ in_digits (codes " bytes ") bytes.now
        ++ codes "\n")) }
{
    push_place(alloc, text, place)?;
    push_digits(alloc, text, " bytes ", bytes)?;
    push_words(text, "\n")?;
    Ok(())
}
