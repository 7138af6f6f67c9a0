//! The rows of PLDM's base commands.

ghost use Rattle.std.specs.Prelude.{◌≡◌, ◌∷◌, ◌≤◌, IfSome, length};
ghost use Rattle.std.specs.Option.{option_map};
ghost use Rattle.mctp_front.specs.PldmRows.{commands_reply, pldm_answer, reply_of, version_data, version_reply};

use byteorder::{ByteOrder, LittleEndian};
use fw_package::crc32;
use pldm_base::{
    GET_PLDM_COMMANDS, PldmHead, RawMessage, Reply, TYPE_BASE, TYPE_FIRMWARE_UPDATE, code_alone,
    completion,
};

/// GetPLDMVersion: requests the versions of a PLDM type.
const GET_PLDM_VERSION: u8 = 0x03;

/// GetPLDMVersion's own code: no part of version data has this handle.
const INVALID_DATA_TRANSFER_HANDLE: u8 = 0x80;

/// GetPLDMVersion's own code: there is no such operation.
const INVALID_TRANSFER_OPERATION_FLAG: u8 = 0x81;

/// The operation that requests the next part of version data.
const GET_NEXT_PART: u8 = 0;

/// The operation that requests the first part of version data.
const GET_FIRST_PART: u8 = 1;

/// The handle of the next part if no part follows.
const NO_NEXT_PART: [u8; 4] = [0; 4];

/// The transfer flag of version data that are whole in one part.
const START_AND_END: u8 = 5;

/// Version 1.0.0, low byte first: no letter, then update, minor and major, each one decimal digit
/// after the digit F (DSP0240, "ver32 encoding").
const TYPE_VERSION: [u8; 4] = [0x00, 0xF0, 0xF0, 0xF1];

/// The base commands 1 to 5: bit n is set for command n.
const BASE_COMMANDS: u8 = 0x3E;

/// Returns the answer to GetPLDMVersion, and to GetPLDMCommands for the base commands.
pub(crate) fn pldm_answer(message: &[u8]) -> Option<RawMessage>
    ensures answer { option_map (λ v. v.items) result ≡ pldm_answer message.now }
    ensures size { IfSome result (λ v. (1 ≤ length v.items) × (length v.items ≤ 64)) }
{
    let Ok((request, fields)) = pldm_base::decode(message) else {
        return None;
    };
    if !request.rq || request.pldm_type != TYPE_BASE {
        return None;
    }
    let reply = reply_to(request.command, fields)?;
    let head = PldmHead {
        rq: false,
        ..request
    };
    Some(pldm_base::encode(&head, reply.as_slice()))
}

/// Returns the completion code and the fields that answer a base command.
fn reply_to(command: u8, fields: &[u8]) -> Option<Reply>
    ensures reply { option_map (λ v. v.items) result ≡ reply_of command fields.now }
    ensures size { IfSome result (λ v. length v.items ≤ 60) }
{
    match command {
        GET_PLDM_VERSION => Some(version_reply(fields)),
        GET_PLDM_COMMANDS => commands_reply(fields),
        _ => None,
    }
}

/// GetPLDMVersion: the whole version data of a type in one part.
fn version_reply(fields: &[u8]) -> Reply
    ensures reply { result.items ≡ version_reply fields.now }
    ensures size { length result.items ≤ 60 }
{
    let [_, _, _, _, operation, pldm_type] = fields else {
        return code_alone(completion::ERROR_INVALID_LENGTH);
    };
    match (*operation, *pldm_type) {
        (GET_NEXT_PART, _) => code_alone(INVALID_DATA_TRANSFER_HANDLE),
        (GET_FIRST_PART, TYPE_BASE | TYPE_FIRMWARE_UPDATE) => version_data(),
        (GET_FIRST_PART, _) => code_alone(completion::INVALID_PLDM_TYPE_IN_REQUEST_DATA),
        _ => code_alone(INVALID_TRANSFER_OPERATION_FLAG),
    }
}

/// Returns the version data of a type, with the fields before them.
fn version_data() -> Reply
    ensures { result.items ≡ 0 ∷ 0 ∷ 0 ∷ 0 ∷ 0 ∷ 5 ∷ version_data }
{
    let mut checksum = [0; 4];
    LittleEndian::write_u32(&mut checksum, crc32(&TYPE_VERSION));
    let mut reply = code_alone(completion::SUCCESS);
    let _ = reply.try_extend_from_slice(&NO_NEXT_PART);
    reply.push(START_AND_END);
    let _ = reply.try_extend_from_slice(&TYPE_VERSION);
    let _ = reply.try_extend_from_slice(&checksum);
    reply
}

/// GetPLDMCommands: the base commands, with GetPLDMVersion. `None` is for another type.
fn commands_reply(fields: &[u8]) -> Option<Reply>
    ensures reply { option_map (λ v. v.items) result ≡ commands_reply fields.now }
    ensures size { IfSome result (λ v. length v.items ≤ 60) }
{
    let [TYPE_BASE, _, _, _, _] = fields else {
        return None;
    };
    let mut bits = [0; 32];
    bits[0] = BASE_COMMANDS;
    let mut reply = code_alone(completion::SUCCESS);
    let _ = reply.try_extend_from_slice(&bits);
    Some(reply)
}
