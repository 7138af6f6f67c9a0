//! The base commands: SetTID, GetTID, GetPLDMTypes and GetPLDMCommands.

ghost use Rattle.std.specs.Prelude.{[], ◌++◌, ◌≡◌, ◌∷◌, ◌≤◌, length, replicate, ℕ};
ghost use Rattle.byteorder.specs.Endian.{little_bytes};
ghost use Rattle.pldm_base.specs.Base.{base_reply, tid_after};

use crate::completion;
use crate::header::{HEADER_SIZE, TYPE_BASE, TYPE_FIRMWARE_UPDATE};
use crate::terminus::{Role, Tid};
use arrayvec::ArrayVec;
use byteorder::{ByteOrder, LittleEndian};
use mctp_wire::MAX_MESSAGE;

/// The most bytes of an answer with its code, and of request data: the longest message without its
/// header.
pub const MAX_REPLY: usize = MAX_MESSAGE - HEADER_SIZE;

/// SetTID: sets the terminus' identifier.
pub const SET_TID: u8 = 0x01;

/// GetTID: requests the terminus' identifier.
pub const GET_TID: u8 = 0x02;

/// GetPLDMTypes: requests the PLDM types of the terminus.
pub const GET_PLDM_TYPES: u8 = 0x04;

/// GetPLDMCommands: requests the terminus' commands of a PLDM type.
pub const GET_PLDM_COMMANDS: u8 = 0x05;

/// The PLDM types 0 and 5: bit n is set for type n (DSP0240, "GetPLDMTypes").
const TYPES: u64 = 0x21;

/// The base commands 1, 2, 4 and 5: bit n is set for command n (DSP0240, "GetPLDMCommands").
const BASE_COMMANDS: u32 = 0x36;

/// The firmware update commands that a device takes, 0x01, 0x02, 0x10, 0x13, 0x14 and 0x1A to 0x1D.
const DEVICE_COMMANDS: u32 = 0x3C19_0006;

/// The firmware update commands that the update agent takes, 0x15 to 0x18.
const AGENT_COMMANDS: u32 = 0x01E0_0000;

/// The completion code of an answer and the fields after it.
pub type Reply = ArrayVec<u8, MAX_REPLY>;

/// Returns the answer to a base command with these request data. Only a SetTID that is answered
/// `SUCCESS` changes the identifier.
pub fn answer_base(tid: &mut Tid, role: Role, command: u8, fields: &[u8]) -> Reply
    ensures reply { result.items ≡ base_reply role tid.old command fields.now }
    ensures tid { tid.new ≡ tid_after tid.old command fields.now }
{
    match command {
        SET_TID => set_tid(tid, fields),
        GET_TID => get_tid(tid, fields),
        GET_PLDM_TYPES => get_types(fields),
        GET_PLDM_COMMANDS => get_commands(role, fields),
        _ => code_alone(completion::ERROR_UNSUPPORTED_PLDM_CMD),
    }
}

/// Returns the reply of this completion code and nothing else (DSP0240, "PLDM completion codes"):
/// for a command that isn't carried out, or that has no answer fields.
pub fn code_alone(code: u8) -> Reply
    ensures { result.items ≡ code ∷ [] }
{
    let mut reply = Reply::new();
    reply.push(code);
    reply
}

/// Returns the answer of a command that was carried out: the code and the fields.
fn success(fields: &[u8]) -> Reply
    requires { length fields.now ≤ 251 }
    ensures { result.items ≡ 0 ∷ fields.now }
{
    let mut reply = code_alone(completion::SUCCESS);
    let _ = reply.try_extend_from_slice(fields);
    reply
}

fn set_tid(tid: &mut Tid, fields: &[u8]) -> Reply
    ensures reply { result.items ≡ Rattle.pldm_base.specs.Base.set_tid_reply fields.now }
    ensures tid { tid.new ≡ Rattle.pldm_base.specs.Base.tid_set tid.old fields.now }
{
    let [value] = fields else {
        return code_alone(completion::ERROR_INVALID_LENGTH);
    };
    if !Tid::is_assignable(*value) {
        return code_alone(completion::ERROR_INVALID_DATA);
    }
    tid.assign(*value);
    code_alone(completion::SUCCESS)
}

fn get_tid(tid: &Tid, fields: &[u8]) -> Reply
    ensures { result.items ≡ Rattle.pldm_base.specs.Base.get_tid_reply tid.now fields.now }
{
    if !fields.is_empty() {
        return code_alone(completion::ERROR_INVALID_LENGTH);
    }
    success(&[tid.value()])
}

fn get_types(fields: &[u8]) -> Reply
    ensures { result.items ≡ Rattle.pldm_base.specs.Base.get_types_reply fields.now }
{
    if !fields.is_empty() {
        return code_alone(completion::ERROR_INVALID_LENGTH);
    }
    let mut bits = [0; 8];
    LittleEndian::write_u64(&mut bits, TYPES);
    success(&bits)
}

fn get_commands(role: Role, fields: &[u8]) -> Reply
    ensures { result.items ≡ Rattle.pldm_base.specs.Base.get_commands_reply role fields.now }
{
    let [pldm_type, _, _, _, _] = fields else {
        return code_alone(completion::ERROR_INVALID_LENGTH);
    };
    match (*pldm_type, role) {
        (TYPE_BASE, _) => command_bits(BASE_COMMANDS),
        (TYPE_FIRMWARE_UPDATE, Role::Device) => command_bits(DEVICE_COMMANDS),
        (TYPE_FIRMWARE_UPDATE, Role::Agent) => command_bits(AGENT_COMMANDS),
        _ => code_alone(completion::INVALID_PLDM_TYPE_IN_REQUEST_DATA),
    }
}

/// Returns the answer with 32 bytes of bits, of which all but the first 32 bits are 0.
fn command_bits(commands: u32) -> Reply
    ensures { result.items ≡ 0 ∷ (little_bytes 4 commands ++ replicate 28 0) }
{
    let mut bits = [0; 32];
    LittleEndian::write_u32(&mut bits, commands);
    success(&bits)
}
