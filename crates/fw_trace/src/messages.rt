//! The text of a message. Each function's only error is `AllocError`.

ghost use Rattle.std.specs.Prelude.{OnOk};
ghost use Rattle.fw_text.specs.Printing.{AppendsText};
ghost use Rattle.pldm_base.specs.Header.{pldm_of};
ghost use Rattle.fw_trace.specs.Messages.{message_text, other_text, pldm_answer, pldm_read, pldm_request, pldm_unread};

use crate::answers::push_update_answer;
use crate::bases::{push_base_answer, push_base_request, push_other_answer, push_other_request};
use crate::commands::push_update_request;
use crate::control::push_control;
use crate::pieces::{push_byte, push_rest, push_two};
use fw_text::push_words;
use mctp_ctl::CONTROL;
use pldm_base::{MESSAGE_TYPE, PldmHead, TYPE_BASE, TYPE_FIRMWARE_UPDATE};
use std::alloc::{AllocError, Global};

/// Appends a PLDM request: its instance identifier, its command and its fields.
#[tactic(auto, unfolding(crate::specs::Messages::pldm_request))]
fn push_request(
    alloc: Global,
    text: &mut Vec<u8>,
    head: &PldmHead,
    body: &[u8],
) -> Result<(), AllocError>
    ensures { OnOk result (AppendsText text.old.items text.new.items (pldm_request head.now body.now)) }
{
    push_byte(alloc, text, "pldm rq ", head.instance)?;
    match head.pldm_type {
        TYPE_FIRMWARE_UPDATE => push_update_request(alloc, text, head.command, body),
        TYPE_BASE => push_base_request(alloc, text, head.command, body),
        other => push_other_request(alloc, text, other, head.command, body),
    }
}

/// Appends a PLDM answer: its instance identifier, its command, its code and its fields.
#[tactic(auto, unfolding(crate::specs::Messages::pldm_answer))]
fn push_answer(
    alloc: Global,
    text: &mut Vec<u8>,
    head: &PldmHead,
    body: &[u8],
) -> Result<(), AllocError>
    ensures { OnOk result (AppendsText text.old.items text.new.items (pldm_answer head.now body.now)) }
{
    push_byte(alloc, text, "pldm rs ", head.instance)?;
    match head.pldm_type {
        TYPE_FIRMWARE_UPDATE => push_update_answer(alloc, text, head.command, body),
        TYPE_BASE => push_base_answer(alloc, text, head.command, body),
        other => push_other_answer(alloc, text, other, head.command, body),
    }
}

/// Appends a PLDM message whose head can't be decoded, given by the bytes after its type byte.
#[tactic(auto, unfolding(crate::specs::Messages::pldm_unread))]
fn push_unread(alloc: Global, text: &mut Vec<u8>, bytes: &[u8]) -> Result<(), AllocError>
    ensures { OnOk result (AppendsText text.old.items text.new.items (pldm_unread bytes.now)) }
{
    push_words(text, "pldm")?;
    push_rest(alloc, text, bytes)?;
    Ok(())
}

/// Appends a PLDM message, or the bytes after its type byte if its head can't be decoded.
fn push_pldm(
    alloc: Global,
    text: &mut Vec<u8>,
    message: &[u8],
    bytes: &[u8],
) -> Result<(), AllocError>
    ensures { OnOk result (AppendsText text.old.items text.new.items (pldm_read (pldm_of message.now) bytes.now)) }
{
    match pldm_base::decode(message) {
        Ok((head, body)) => {
            if head.rq {
                push_request(alloc, text, &head, body)
            } else {
                push_answer(alloc, text, &head, body)
            }
        }
        Err(_) => push_unread(alloc, text, bytes),
    }
}

/// Appends a message of another type than MCTP control and PLDM.
#[tactic(auto, unfolding(crate::specs::Messages::other_text))]
fn push_other(alloc: Global, text: &mut Vec<u8>, kind: u8, bytes: &[u8]) -> Result<(), AllocError>
    ensures { OnOk result (AppendsText text.old.items text.new.items (other_text kind bytes.now)) }
{
    push_two(alloc, text, "type ", kind)?;
    push_rest(alloc, text, bytes)?;
    Ok(())
}

/// Appends the text of a message, given from its type byte on: the decoded fields of MCTP control
/// and PLDM messages, the digits of other types.
///
/// # Errors
/// `AllocError` if memory is refused; the text's content is unspecified then.
#[tactic(auto, unfolding(crate::specs::Messages::message_text))]
pub fn push_message(alloc: Global, text: &mut Vec<u8>, message: &[u8]) -> Result<(), AllocError>
    ensures { OnOk result (AppendsText text.old.items text.new.items (message_text message.now)) }
{
    let [kind, bytes @ ..] = message else {
        return Ok(());
    };
    match *kind {
        CONTROL => push_control(alloc, text, bytes),
        MESSAGE_TYPE => push_pldm(alloc, text, message, bytes),
        other => push_other(alloc, text, other, bytes),
    }
}
