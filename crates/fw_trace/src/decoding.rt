//! Decodes files of packets.

ghost use Rattle.std.specs.Prelude.{◌≡◌, [], IfOk, List, OnOk, false, map, ℕ};
ghost use Rattle.fw_text.specs.Printing.{AppendsText};
ghost use Rattle.fw_trace.specs.Decoding.{DecodesAsTraced, DecodesCaptures, decoded_lines, decoded_text, decoder_after, ends_text, facts_line, facts_of_input, fault_name, packet_facts_line, text_of_input, turn_text};
ghost use Rattle.fw_trace.specs.Inputs.{all_record_inputs, capture_inputs, lacks_record, line_input, lines_of_text, record_input};

use crate::capture_reading::{ByteOrder, number_in, order_of, record_packet, record_size};
use crate::decoder::{Decoder, Facts, PacketFacts};
use crate::inputs::{InputFault, first_text_line};
use crate::lines::push_head;
use crate::pieces::{push_byte, push_long};
use fw_text::{push_number, push_words};
use mctp_wire::{Head, Unit};
use std::alloc::{AllocError, Global};

/// The link type of Linux cooked mode.
const COOKED: u32 = 113;

/// The size of a capture's header, in bytes.
const CAPTURE_HEAD: usize = 24;

/// A form of the lines of decoded packets.
pub trait LineForm {
    ghost use Rattle.fw_trace.specs.declared.decoder.Facts.{Facts};

    ghost line: { Self → Facts → List ℕ → List ℕ };

    /// Appends the line of an input, by its facts and what its packet says.
    ///
    /// # Errors
    /// `AllocError` if memory is refused; the text's content is unspecified then.
    fn push(
        &self,
        alloc: Global,
        text: &mut Vec<u8>,
        facts: &Facts,
        said: &[u8],
    ) -> Result<(), AllocError>
        ensures { OnOk result (AppendsText text.old.items text.new.items (line self.now facts.now said.now)) };
}

/// The lines of a trace of what packets say.
#[derive(Clone, Copy)]
pub struct TraceLines;

/// Returns the name of a fault.
pub fn fault_name(fault: InputFault) -> &'static str
    ensures { result.now ≡ fault_name fault }
{
    match fault {
        InputFault::Fields => "Fields",
        InputFault::Number => "Number",
        InputFault::Hex => "Hex",
        InputFault::Short => "Short",
        InputFault::Pairs => "Pairs",
        InputFault::LinkType => "LinkType",
        InputFault::Protocol => "Protocol",
        InputFault::Cut => "Cut",
    }
}

/// Appends the tick of sending, or a dash if it isn't known.
fn push_turn(alloc: Global, text: &mut Vec<u8>, turn: Option<u32>) -> Result<(), AllocError>
    ensures { OnOk result (AppendsText text.old.items text.new.items (turn_text turn)) }
{
    match turn {
        Some(turn) => push_long(alloc, text, "", turn),
        None => push_words(text, "-"),
    }
}

/// Appends the ends and the tag of a packet, if there is one.
fn push_ends(alloc: Global, text: &mut Vec<u8>, head: Option<Head>) -> Result<(), AllocError>
    ensures { OnOk result (AppendsText text.old.items text.new.items (ends_text head)) }
{
    match head {
        Some(head) => push_head(alloc, text, &head),
        None => Ok(()),
    }
}

/// Appends the line of a packet.
#[tactic(auto, unfolding(crate::specs::Decoding::packet_facts_line))]
fn push_packet_facts(
    alloc: Global,
    text: &mut Vec<u8>,
    facts: &PacketFacts,
    said: &[u8],
) -> Result<(), AllocError>
    ensures { OnOk result (AppendsText text.old.items text.new.items (packet_facts_line facts.now said.now)) }
{
    push_turn(alloc, text, facts.turn)?;
    push_byte(alloc, text, " ", facts.device)?;
    push_number(alloc, text, " ", facts.number)?;
    push_ends(alloc, text, facts.head)?;
    text.extend_from_slice(said)?;
    push_words(text, "\n")?;
    Ok(())
}

/// Appends the line of an input that isn't a packet.
fn push_fault(text: &mut Vec<u8>, fault: InputFault) -> Result<(), AllocError>
    ensures { OnOk result (AppendsText text.old.items text.new.items (facts_line (Facts.Unread fault) [])) }
{
    push_words(text, "drop ")?;
    push_words(text, fault_name(fault))?;
    push_words(text, "\n")?;
    Ok(())
}

impl LineForm for TraceLines {
    ghost line = { λ form. facts_line };

    fn push(
        &self,
        alloc: Global,
        text: &mut Vec<u8>,
        facts: &Facts,
        said: &[u8],
    ) -> Result<(), AllocError> {
        match facts {
            Facts::Packet(facts) => push_packet_facts(alloc, text, facts, said),
            Facts::Unread(fault) => push_fault(text, *fault),
        }
    }
}

/// The lines of a file so far.
#[derive(Drop)]
struct FileLines<'a, P: LineForm> {
    alloc: Global,
    form: &'a P,
    decoder: Decoder,
    text: Vec<u8>,
}

impl<'a, P: LineForm> FileLines<'a, P> {
    /// Appends the line of an input, by its facts and what its packet says.
    fn push(&mut self, facts: &Facts, said: &[u8]) -> Result<(), AllocError>
        ensures line { OnOk result (AppendsText self.old.text.items self.new.text.items
            (P.line self.old.form.now facts.now said.now)) }
        ensures decoder { self.new.decoder ≡ self.old.decoder }
        ensures form { self.new.form ≡ self.old.form }
    {
        self.form.push(self.alloc, &mut self.text, facts, said)
    }

    /// Appends the line of the packet in a line of a text.
    fn push_line(&mut self, line: &[u8]) -> Result<(), AllocError>
        ensures line { OnOk result (AppendsText self.old.text.items self.new.text.items
            (P.line self.old.form.now (facts_of_input self.old.decoder (line_input line.now))
            (text_of_input self.old.decoder (line_input line.now)))) }
        ensures decoder { OnOk result (self.new.decoder ≡ decoder_after self.old.decoder (line_input line.now)) }
        ensures form { self.new.form ≡ self.old.form }
    {
        let mut said = Vec::new(self.alloc);
        let facts = self.decoder.read_line(self.alloc, &mut said, line)?;
        self.push(&facts, &said)
    }

    /// Appends the lines of the packets in a text.
    #[tactic(auto, using(fw_text::proofs::Chains::telling))]
    fn push_text(&mut self, lines: &[u8]) -> Result<(), AllocError>
        ensures lines { OnOk result (AppendsText self.old.text.items self.new.text.items
            (decoded_lines (P.line self.old.form.now) self.old.decoder
            (map line_input (lines_of_text lines.now)))) }
    {
        let mut left = lines;
        while !left.is_empty() {
            let (line, rest) = first_text_line(left);
            self.push_line(line)?;
            left = rest;
        }
        Ok(())
    }

    /// Appends the line of a record of a capture.
    fn push_record(&mut self, order: ByteOrder, record: &[u8]) -> Result<(), AllocError>
        requires { lacks_record order record.now ≡ false }
        ensures line { OnOk result (AppendsText self.old.text.items self.new.text.items
            (P.line self.old.form.now
            (facts_of_input self.old.decoder (record_input order record.now))
            (text_of_input self.old.decoder (record_input order record.now)))) }
        ensures decoder { OnOk result (self.new.decoder ≡ decoder_after self.old.decoder (record_input order record.now)) }
        ensures form { self.new.form ≡ self.old.form }
    {
        let mut said = Vec::new(self.alloc);
        let facts = match record_packet(order, record) {
            Ok(packet) => self.decoder.read(self.alloc, &mut said, &packet)?,
            Err(fault) => Facts::Unread(fault),
        };
        self.push(&facts, &said)
    }

    /// Appends the lines of the records of a capture.
    #[tactic(auto, using(fw_text::proofs::Chains::telling))]
    fn push_records(&mut self, order: ByteOrder, records: &[u8]) -> Result<(), AllocError>
        ensures lines { OnOk result (AppendsText self.old.text.items self.new.text.items
            (decoded_lines (P.line self.old.form.now) self.old.decoder
            (all_record_inputs order records.now))) }
    {
        let mut left = records;
        while !left.is_empty() {
            let Some(size) = record_size(order, left) else {
                return self.push(&Facts::Unread(InputFault::Cut), &[]);
            };
            self.push_record(order, left)?;
            left = &left[size..];
        }
        Ok(())
    }

    /// Appends the lines of the packets in a capture.
    fn push_capture(&mut self, order: ByteOrder, bytes: &[u8]) -> Result<(), AllocError>
        ensures lines { OnOk result (AppendsText self.old.text.items self.new.text.items
            (decoded_lines (P.line self.old.form.now) self.old.decoder
            (capture_inputs order bytes.now))) }
    {
        if bytes.len() < CAPTURE_HEAD {
            return self.push(&Facts::Unread(InputFault::Cut), &[]);
        }
        if number_in(order, &bytes[20..]) != COOKED {
            return self.push(&Facts::Unread(InputFault::LinkType), &[]);
        }
        self.push_records(order, &bytes[CAPTURE_HEAD..])
    }
}

/// Returns the lines, in a form, of the packets in a file: in a capture, or else in the lines of a
/// text. The packets are of a network with this transmission unit.
///
/// # Errors
/// `AllocError` if memory is refused.
pub fn decode_file_in<P: LineForm>(
    alloc: Global,
    unit: Unit,
    form: &P,
    bytes: &[u8],
) -> Result<Vec<u8>, AllocError>
    ensures { IfOk result (λ text. text.items ≡ decoded_text (P.line form.now) unit bytes.now) }
{
    let mut lines = FileLines {
        alloc,
        form,
        decoder: Decoder::new(alloc, unit),
        text: Vec::new(alloc),
    };
    match order_of(bytes) {
        Some(order) => lines.push_capture(order, bytes)?,
        None => lines.push_text(bytes)?,
    }
    Ok(lines.text)
}

/// The packets of one pair get the lines of that pair's trace. A capture that was written is
/// decoded as its packets.
pub fn decodes_as_traced()
    ensures traced { DecodesAsTraced }
    ensures captured { DecodesCaptures }
{}
