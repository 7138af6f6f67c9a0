//! Decoded packets as JSON values, a line each.

ghost use Rattle.std.specs.Prelude.{◌≡◌, [], ◌∷◌, IfOk, OnOk, codes, drop, option_map};
ghost use Rattle.json.specs.Token.{begin_object, key, string};
ghost use Rattle.json.specs.Tree.{json_tokens};
ghost use Rattle.fw_json.specs.Decoded.{decoded_in, facts_json, facts_value, packet_value, said_value, unread_value};
ghost use Rattle.fw_json.specs.Values.{ReadsBack, line_of, number_value, optional_value};
ghost use Rattle.fw_json.specs.Writing.{AppendsTokens};

use crate::fields::{
    close_object, line, open_object, push_key, push_null, push_number_field, push_text_field,
    push_word_field,
};
use fw_trace::{Facts, InputFault, LineForm, PacketFacts, TraceLines, decode_file_in, fault_name};
use fwupd_base::Form;
use json::Writer;
use mctp_wire::Unit;
use std::alloc::{AllocError, Global};

/// Begins the object of an input, and writes the name and version of its form.
fn begin(writer: &mut Writer) -> Result<(), AllocError>
    ensures { OnOk result (AppendsTokens writer.old writer.new
        (begin_object ∷ key (codes "format") ∷ string (codes "fwupd-packet/1") ∷ [])) }
{
    open_object(writer)?;
    push_word_field(writer, "format", "fwupd-packet/1")?;
    Ok(())
}

/// Writes a key, and a number or null.
fn push_optional_number(
    writer: &mut Writer,
    name: &str,
    value: Option<usize>,
) -> Result<(), AllocError>
    ensures { OnOk result (AppendsTokens writer.old writer.new (key name.now ∷ json_tokens (optional_value number_value value))) }
{
    match value {
        Some(value) => push_number_field(writer, name, value),
        None => {
            push_key(writer, name)?;
            push_null(writer)
        }
    }
}

/// Writes a key, and what a packet says.
fn push_said(alloc: Global, writer: &mut Writer, name: &str, text: &[u8]) -> Result<(), AllocError>
    ensures { OnOk result (AppendsTokens writer.old writer.new (key name.now ∷ json_tokens (said_value text.now))) }
{
    match str::from_utf8(text) {
        Ok(words) => push_word_field(writer, name, words),
        Err(_) => push_text_field(alloc, writer, name, text),
    }
}

/// The turn of a packet, if it is known.
fn turn_in(facts: &PacketFacts) -> Option<usize>
    ensures { result ≡ facts.now.turn }
{
    match facts.turn {
        Some(turn) => Some(turn as usize),
        None => None,
    }
}

/// The source of a packet, if there is one.
fn source_in(facts: &PacketFacts) -> Option<usize>
    ensures { result ≡ option_map (λ h. h.source) facts.now.head }
{
    match facts.head {
        Some(head) => Some(usize::from(head.source)),
        None => None,
    }
}

/// The destination of a packet, if there is one.
fn dest_in(facts: &PacketFacts) -> Option<usize>
    ensures { result ≡ option_map (λ h. h.dest) facts.now.head }
{
    match facts.head {
        Some(head) => Some(usize::from(head.dest)),
        None => None,
    }
}

/// The tag of a packet, if there is one.
fn tag_in(facts: &PacketFacts) -> Option<usize>
    ensures { result ≡ option_map (λ h. h.tag) facts.now.head }
{
    match facts.head {
        Some(head) => Some(usize::from(head.tag)),
        None => None,
    }
}

/// What a packet says, after the space before it.
fn after_space(said: &[u8]) -> &[u8]
    ensures { result.now ≡ drop 1 said.now }
{
    match said {
        [_, rest @ ..] => rest,
        [] => &[],
    }
}

/// Writes a packet.
#[tactic(auto, unfolding(crate::specs::Decoded::packet_value))]
fn push_packet(
    alloc: Global,
    writer: &mut Writer,
    facts: &PacketFacts,
    said: &[u8],
) -> Result<(), AllocError>
    ensures { OnOk result (AppendsTokens writer.old writer.new (json_tokens (packet_value facts.now said.now))) }
{
    begin(writer)?;
    push_optional_number(writer, "turn", turn_in(facts))?;
    push_number_field(writer, "device", usize::from(facts.device))?;
    push_number_field(writer, "number", facts.number)?;
    push_optional_number(writer, "source", source_in(facts))?;
    push_optional_number(writer, "dest", dest_in(facts))?;
    push_optional_number(writer, "tag", tag_in(facts))?;
    push_said(alloc, writer, "text", after_space(said))?;
    close_object(writer)?;
    Ok(())
}

/// Writes an input that is no packet.
#[tactic(auto, unfolding(crate::specs::Decoded::unread_value))]
fn push_unread(writer: &mut Writer, fault: InputFault) -> Result<(), AllocError>
    ensures { OnOk result (AppendsTokens writer.old writer.new (json_tokens (unread_value fault))) }
{
    begin(writer)?;
    push_word_field(writer, "drop", fault_name(fault))?;
    close_object(writer)?;
    Ok(())
}

/// Writes an input.
fn push_facts(
    alloc: Global,
    writer: &mut Writer,
    facts: &Facts,
    said: &[u8],
) -> Result<(), AllocError>
    ensures { OnOk result (AppendsTokens writer.old writer.new (json_tokens (facts_value facts.now said.now))) }
{
    match facts {
        Facts::Packet(facts) => push_packet(alloc, writer, facts, said),
        Facts::Unread(fault) => push_unread(writer, *fault),
    }
}

/// Returns the line of an input, by its facts and what its packet says.
///
/// # Errors
/// `AllocError` if memory is refused.
pub fn facts_json(alloc: Global, facts: &Facts, said: &[u8]) -> Result<Vec<u8>, AllocError>
    ensures line { IfOk result (λ text. text.items ≡ facts_json facts.now said.now) }
    ensures reads_back { OnOk result (ReadsBack (facts_value facts.now said.now)) }
{
    let mut writer = Writer::new(Vec::new(alloc));
    push_facts(alloc, &mut writer, facts, said)?;
    line(writer)
}

/// Lines of JSON, a value for each input.
#[derive(Clone, Copy)]
pub struct JsonLines;

impl LineForm for JsonLines {
    ghost use Rattle.fw_json.specs.Decoded.{facts_json};

    ghost line = { λ form. facts_json };

    fn push(
        &self,
        alloc: Global,
        text: &mut Vec<u8>,
        facts: &Facts,
        said: &[u8],
    ) -> Result<(), AllocError> {
        text.extend_from_slice(&facts_json(alloc, facts, said)?)?;
        Ok(())
    }
}

/// Returns the packets of a file, decoded, in a format: those of a capture, or else of the lines of
/// a text. They are of a network with this transmission unit.
///
/// # Errors
/// `AllocError` if memory is refused.
pub fn decode_in(alloc: Global, unit: Unit, bytes: &[u8], form: Form) -> Result<Vec<u8>, AllocError>
    ensures { IfOk result (λ text. text.items ≡ decoded_in form unit bytes.now) }
{
    match form {
        Form::Text => decode_file_in(alloc, unit, &TraceLines, bytes),
        Form::Json => decode_file_in(alloc, unit, &JsonLines, bytes),
    }
}
