//! MCTP control messages (DSP0236, section 12). Each function's only error is `AllocError`.

ghost use Rattle.std.specs.Prelude.{◌≡◌, OnOk, map};
ghost use Rattle.fw_text.specs.Printing.{AppendsText};
ghost use Rattle.mctp_ctl.specs.Codes.{command_of};
ghost use Rattle.fw_trace.specs.Control.{control_answer_fields, control_request_fields, control_start, control_text, control_unread};
ghost use Rattle.fw_trace.specs.Tables.{field_of};

use crate::names::{CodeTable, control_command};
use crate::pieces::{push_byte, push_name, push_rest};
use crate::tables::Form::{Byte, Digits, List, Number};
use crate::tables::{Field, push_answer_body, push_by_table};
use fw_text::push_words;
use mctp_ctl::ControlCommand;
use std::alloc::{AllocError, Global};

/// The Rq and D bits of a request that isn't a datagram.
const REQUEST: u8 = 0b10;

/// The Rq and D bits of an answer.
const ANSWER: u8 = 0b00;

/// The position of the Rq and D bits in the byte after the type byte.
const REQUEST_SHIFT: u32 = 6;

/// The mask of the instance identifier in that byte.
const INSTANCE_MASK: u8 = 0x1F;

/// The size of a UUID in bytes.
const UUID_SIZE: usize = 16;

/// The size of a version of a message type in bytes.
const VERSION_SIZE: u8 = 4;

/// Returns the fields of a request.
fn request_fields(code: u8) -> &'static [Field]
    ensures { map field_of result.now ≡ control_request_fields (command_of code) }
{
    match ControlCommand::from_code(code) {
        Some(ControlCommand::SetEndpointId) => &[(" operation ", Byte), (" eid ", Number)],
        Some(ControlCommand::GetMctpVersionSupport) => &[(" type ", Byte)],
        Some(
            ControlCommand::GetEndpointId
            | ControlCommand::GetEndpointUuid
            | ControlCommand::GetMessageTypeSupport,
        )
        | None => &[],
    }
}

/// Returns the fields of an answer with completion code 0.
fn answer_fields(code: u8) -> &'static [Field]
    ensures { map field_of result.now ≡ control_answer_fields (command_of code) }
{
    match ControlCommand::from_code(code) {
        Some(ControlCommand::SetEndpointId) => {
            &[(" status ", Byte), (" eid ", Number), (" pool ", Number)]
        }
        Some(ControlCommand::GetEndpointId) => {
            &[(" eid ", Number), (" type ", Byte), (" medium ", Byte)]
        }
        Some(ControlCommand::GetEndpointUuid) => &[(" uuid ", Digits(UUID_SIZE))],
        Some(ControlCommand::GetMctpVersionSupport) => &[(" versions ", List(VERSION_SIZE))],
        Some(ControlCommand::GetMessageTypeSupport) => &[(" types ", List(1))],
        None => &[],
    }
}

/// Appends the word of a request or an answer, its instance identifier and its command.
#[tactic(auto, unfolding(crate::specs::Control::control_start))]
fn push_start(
    alloc: Global,
    text: &mut Vec<u8>,
    word: &str,
    flags: u8,
    command: u8,
) -> Result<(), AllocError>
    ensures { OnOk result (AppendsText text.old.items text.new.items (control_start word.now flags command)) }
{
    push_byte(alloc, text, word, flags & INSTANCE_MASK)?;
    let name = control_command(ControlCommand::from_code(command));
    push_name(alloc, text, name, command)?;
    Ok(())
}

/// Appends a control message that can't be decoded.
#[tactic(auto, unfolding(crate::specs::Control::control_unread))]
fn push_unread(alloc: Global, text: &mut Vec<u8>, bytes: &[u8]) -> Result<(), AllocError>
    ensures { OnOk result (AppendsText text.old.items text.new.items (control_unread bytes.now)) }
{
    push_words(text, "control")?;
    push_rest(alloc, text, bytes)?;
    Ok(())
}

/// Appends a control message, given by the bytes after its type byte.
#[tactic(auto, unfolding(crate::specs::Control::control_text))]
pub fn push_control(alloc: Global, text: &mut Vec<u8>, bytes: &[u8]) -> Result<(), AllocError>
    ensures { OnOk result (AppendsText text.old.items text.new.items (control_text bytes.now)) }
{
    let [flags, command, fields @ ..] = bytes else {
        return push_unread(alloc, text, bytes);
    };
    match flags >> REQUEST_SHIFT {
        REQUEST => {
            push_start(alloc, text, "control rq ", *flags, *command)?;
            push_by_table(alloc, text, request_fields(*command), fields)
        }
        ANSWER => {
            push_start(alloc, text, "control rs ", *flags, *command)?;
            let success = answer_fields(*command);
            push_answer_body(alloc, text, CodeTable::Control, success, fields)
        }
        _ => push_unread(alloc, text, bytes),
    }
}
