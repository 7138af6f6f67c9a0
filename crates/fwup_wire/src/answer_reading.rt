//! Reads answers.

ghost use Rattle.std.specs.Prelude.{IfOk, IsOk, ◌≡◌, ℕ};
ghost use Rattle.std.specs.Option.{option_map};
ghost use Rattle.std.specs.Result.{result_map_both};
ghost use Rattle.fwup_wire.specs.Answers.{IsAnswer, firmware_parameters_in, identifiers_in, activation_in, answer_in, answer_read, fieldless_answer, offer_response_in, status_in, success_in, update_begun_in, update_cancelled_in};
ghost use Rattle.fwup_wire.specs.Lent.{answer_of};
ghost use Rattle.fwup_wire.specs.Values.{AnswerOf};

use crate::answer::{Answer, Malformed, OfferResponse, Status, TableResponse};
use crate::code::command;
use crate::cursor::Cursor;
use crate::descriptors::DeviceDescriptors;
use crate::parameters::Parameters;
use pldm_base::completion::SUCCESS;

/// Reads an answer to this command (DSP0267 1.0): the completion code and, if it is `SUCCESS`, the
/// fields after it. Reserved bits may hold anything.
///
/// # Errors
/// `Malformed` for an answer of no bytes, one to a command of PLDM type 5 that this crate doesn't
/// know, one with bytes after another code than `SUCCESS`, one of another length than its
/// command's, and one with a field value outside this profile.
#[tactic(auto, using(crate::proofs::Found::found_answer_value))]
pub fn read_answer(command: u8, bytes: &[u8]) -> Result<Answer<'_>, Malformed>
    ensures found { IfOk result (λ a. IsAnswer command bytes.now (answer_of a)) }
    ensures only { (a : AnswerOf) → IsAnswer command bytes.now a → IsOk result }
    ensures value { result_map_both answer_of (λ e. e) result ≡ answer_read command bytes.now }
{
    let Some(answer) = answer(command, bytes) else {
        return Err(Malformed);
    };
    Ok(answer)
}

/// Returns the answer, if the bytes are one.
fn answer(command: u8, bytes: &[u8]) -> Option<Answer<'_>>
    ensures { option_map answer_of result ≡ answer_in command bytes.now }
{
    let [code, fields @ ..] = bytes else {
        return None;
    };
    if *code == SUCCESS {
        success(command, fields)
    } else if is_known(command) {
        alone(fields, Answer::Refused { code: *code })
    } else {
        None
    }
}

/// Returns whether this crate knows the command of PLDM type 5.
fn is_known(command: u8) -> bool
    ensures { result ≡ Rattle.fwup_wire.specs.Answers.is_known command }
{
    matches!(
        command,
        command::QUERY_DEVICE_IDENTIFIERS
            | command::GET_FIRMWARE_PARAMETERS
            | command::REQUEST_UPDATE
            | command::PASS_COMPONENT_TABLE
            | command::UPDATE_COMPONENT
            | command::REQUEST_FIRMWARE_DATA
            | command::TRANSFER_COMPLETE
            | command::VERIFY_COMPLETE
            | command::APPLY_COMPLETE
            | command::ACTIVATE_FIRMWARE
            | command::GET_STATUS
            | command::CANCEL_UPDATE_COMPONENT
            | command::CANCEL_UPDATE
    )
}

/// Returns the answer with these fields after the code of success.
fn success(command: u8, fields: &[u8]) -> Option<Answer<'_>>
    ensures { option_map answer_of result ≡ success_in command fields.now }
{
    match command {
        command::QUERY_DEVICE_IDENTIFIERS => query_device_identifiers(fields),
        command::GET_FIRMWARE_PARAMETERS => get_firmware_parameters(fields),
        command::REQUEST_UPDATE => request_update(fields),
        command::PASS_COMPONENT_TABLE => match fields {
            [response, code] => Some(Answer::PassComponentTable(TableResponse {
                response: *response,
                code: *code,
            })),
            _ => None,
        },
        command::UPDATE_COMPONENT => update_component(fields),
        command::REQUEST_FIRMWARE_DATA => Some(Answer::RequestFirmwareData(fields)),
        command::TRANSFER_COMPLETE => alone(fields, Answer::TransferComplete),
        command::VERIFY_COMPLETE => alone(fields, Answer::VerifyComplete),
        command::APPLY_COMPLETE => alone(fields, Answer::ApplyComplete),
        command::ACTIVATE_FIRMWARE => activate_firmware(fields),
        command::GET_STATUS => get_status(fields),
        command::CANCEL_UPDATE_COMPONENT => alone(fields, Answer::CancelUpdateComponent),
        command::CANCEL_UPDATE => cancel_update(fields),
        _ => None,
    }
}

/// Returns an answer without fields.
fn alone<'a>(fields: &[u8], answer: Answer<'a>) -> Option<Answer<'a>>
    ensures { option_map answer_of result ≡ fieldless_answer (answer_of answer.entry) fields.now }
{
    if fields.is_empty() {
        Some(answer)
    } else {
        None
    }
}

fn query_device_identifiers(fields: &[u8]) -> Option<Answer<'_>>
    ensures { option_map answer_of result ≡ identifiers_in fields.now }
{
    let mut cursor = Cursor::new(fields);
    let length = cursor.u32()?;
    let count = cursor.byte()?;
    let bytes = cursor.rest();
    if length as usize != bytes.len() {
        return None;
    }
    let descriptors = DeviceDescriptors::read(count, bytes)?;
    Some(Answer::QueryDeviceIdentifiers(descriptors))
}

fn get_firmware_parameters(fields: &[u8]) -> Option<Answer<'_>>
    ensures { option_map answer_of result ≡ firmware_parameters_in fields.now }
{
    let [0, 0, 0, 0, count @ ..] = fields else {
        return None;
    };
    let mut cursor = Cursor::new(count);
    let count = cursor.u16()?;
    let [0, 0, 0, 0, bytes @ ..] = cursor.rest() else {
        return None;
    };
    let components = Parameters::read(count, bytes)?;
    Some(Answer::GetFirmwareParameters(components))
}

fn request_update(fields: &[u8]) -> Option<Answer<'static>>
    ensures { option_map answer_of result ≡ update_begun_in fields.now }
{
    match fields {
        [0, 0, 0] => Some(Answer::RequestUpdate),
        _ => None,
    }
}

fn update_component(fields: &[u8]) -> Option<Answer<'static>>
    ensures { option_map answer_of result ≡ offer_response_in fields.now }
{
    let mut cursor = Cursor::new(fields);
    let compatibility = cursor.byte()?;
    let code = cursor.byte()?;
    let flags = cursor.u32()?;
    let time = cursor.u16()?;
    if !cursor.is_at_end() {
        return None;
    }
    Some(Answer::UpdateComponent(OfferResponse {
        compatibility,
        code,
        force: flags % 2 == 1,
        time,
    }))
}

fn activate_firmware(fields: &[u8]) -> Option<Answer<'static>>
    ensures { option_map answer_of result ≡ activation_in fields.now }
{
    let mut cursor = Cursor::new(fields);
    let time = cursor.u16()?;
    if !cursor.is_at_end() {
        return None;
    }
    Some(Answer::ActivateFirmware { time })
}

fn get_status(fields: &[u8]) -> Option<Answer<'static>>
    ensures { option_map answer_of result ≡ status_in fields.now }
{
    let [
        state,
        previous,
        aux,
        aux_status,
        progress,
        reason,
        flags @ ..,
    ] = fields
    else {
        return None;
    };
    let mut cursor = Cursor::new(flags);
    let flags = cursor.u32()?;
    if !cursor.is_at_end() {
        return None;
    }
    Some(Answer::GetStatus(Status {
        state: *state,
        previous: *previous,
        aux: *aux,
        aux_status: *aux_status,
        progress: *progress,
        reason: *reason,
        force: flags % 2 == 1,
    }))
}

fn cancel_update(fields: &[u8]) -> Option<Answer<'static>>
    ensures { option_map answer_of result ≡ update_cancelled_in fields.now }
{
    match fields {
        [0, 0, 0, 0, 0, 0, 0, 0, 0] => Some(Answer::CancelUpdate),
        _ => None,
    }
}
