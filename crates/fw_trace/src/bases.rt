//! The messages of PLDM type 0 (DSP0240), and of the PLDM types whose commands have no names here.
//! Each function's only error is `AllocError`.

ghost use Rattle.std.specs.Prelude.{◌≡◌, OnOk, map};
ghost use Rattle.fw_text.specs.Printing.{AppendsText};
ghost use Rattle.fw_trace.specs.Bases.{base_answer, base_answer_fields, base_request, base_request_fields, other_answer, other_command, other_request};
ghost use Rattle.fw_trace.specs.Tables.{field_of};

use crate::names::{CodeTable, GET_PLDM_VERSION, base_command};
use crate::pieces::{push_name, push_rest, push_two};
use crate::tables::Form::{Byte, Digits, Handle, Number, Rest};
use crate::tables::{Field, push_answer_body, push_by_table};
use pldm_base::{GET_PLDM_COMMANDS, GET_PLDM_TYPES, GET_TID, SET_TID, TYPE_BASE};
use std::alloc::{AllocError, Global};

/// The size of GetPLDMTypes' bit field in bytes: one bit for each of the 64 PLDM types.
const TYPE_BITS: usize = 8;

/// The size of GetPLDMCommands' bit field in bytes: one bit for each of the 256 commands of a type.
const COMMAND_BITS: usize = 32;

/// Returns the fields of a base command's request.
fn request_fields(command: u8) -> &'static [Field]
    ensures { map field_of result.now ≡ base_request_fields command }
{
    match command {
        SET_TID => &[(" tid ", Number)],
        GET_PLDM_VERSION => {
            &[
                (" handle ", Handle),
                (" operation ", Byte),
                (" type ", Byte),
            ]
        }
        GET_PLDM_COMMANDS => &[(" type ", Byte), (" version ", Digits(4))],
        _ => &[],
    }
}

/// Returns the fields of a base command's answer with completion code 0.
fn answer_fields(command: u8) -> &'static [Field]
    ensures { map field_of result.now ≡ base_answer_fields command }
{
    match command {
        GET_TID => &[(" tid ", Number)],
        GET_PLDM_VERSION => &[(" handle ", Handle), (" flag ", Byte), (" versions ", Rest)],
        GET_PLDM_TYPES => &[(" types ", Digits(TYPE_BITS))],
        GET_PLDM_COMMANDS => &[(" commands ", Digits(COMMAND_BITS))],
        _ => &[],
    }
}

/// Appends a command that has no name here, by its PLDM type.
#[tactic(auto, unfolding(crate::specs::Bases::other_command))]
fn push_other_command(
    alloc: Global,
    text: &mut Vec<u8>,
    kind: u8,
    command: u8,
) -> Result<(), AllocError>
    ensures { OnOk result (AppendsText text.old.items text.new.items (other_command kind command)) }
{
    push_two(alloc, text, " type ", kind)?;
    push_two(alloc, text, " command ", command)?;
    Ok(())
}

/// Appends a request of a PLDM type whose commands have no names here.
#[tactic(auto, unfolding(crate::specs::Bases::other_request))]
pub fn push_other_request(
    alloc: Global,
    text: &mut Vec<u8>,
    kind: u8,
    command: u8,
    fields: &[u8],
) -> Result<(), AllocError>
    ensures { OnOk result (AppendsText text.old.items text.new.items (other_request kind command fields.now)) }
{
    push_other_command(alloc, text, kind, command)?;
    push_rest(alloc, text, fields)?;
    Ok(())
}

/// Appends an answer of a PLDM type whose commands have no names here.
#[tactic(auto, unfolding(crate::specs::Bases::other_answer))]
pub fn push_other_answer(
    alloc: Global,
    text: &mut Vec<u8>,
    kind: u8,
    command: u8,
    body: &[u8],
) -> Result<(), AllocError>
    ensures { OnOk result (AppendsText text.old.items text.new.items (other_answer kind command body.now)) }
{
    push_other_command(alloc, text, kind, command)?;
    push_answer_body(alloc, text, CodeTable::Shared, &[], body)?;
    Ok(())
}

/// Appends a request of PLDM type 0: the command, and the fields of its request data.
#[tactic(auto, unfolding(crate::specs::Bases::base_request))]
pub fn push_base_request(
    alloc: Global,
    text: &mut Vec<u8>,
    command: u8,
    fields: &[u8],
) -> Result<(), AllocError>
    ensures { OnOk result (AppendsText text.old.items text.new.items (base_request command fields.now)) }
{
    let name = base_command(command);
    if name.is_none() {
        return push_other_request(alloc, text, TYPE_BASE, command, fields);
    }
    push_name(alloc, text, name, command)?;
    push_by_table(alloc, text, request_fields(command), fields)?;
    Ok(())
}

/// Appends an answer of PLDM type 0: the command, the completion code, and the fields.
#[tactic(auto, unfolding(crate::specs::Bases::base_answer))]
pub fn push_base_answer(
    alloc: Global,
    text: &mut Vec<u8>,
    command: u8,
    body: &[u8],
) -> Result<(), AllocError>
    ensures { OnOk result (AppendsText text.old.items text.new.items (base_answer command body.now)) }
{
    let name = base_command(command);
    if name.is_none() {
        return push_other_answer(alloc, text, TYPE_BASE, command, body);
    }
    push_name(alloc, text, name, command)?;
    push_answer_body(alloc, text, CodeTable::Base, answer_fields(command), body)?;
    Ok(())
}
