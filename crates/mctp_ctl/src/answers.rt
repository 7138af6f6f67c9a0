//! The answers of an endpoint to control messages.

ghost use Rattle.std.specs.Prelude.{◌≡◌, ◌≤◌, ◌++◌, length};
ghost use Rattle.std.specs.Option.{option_map};
ghost use Rattle.mctp_ctl.specs.Control.{answer_of, completion_of, set_endpoint_id, get_endpoint_id, get_endpoint_uuid, get_mctp_version_support, get_message_type_support};

use crate::codes::{
    CONTROL, ControlCommand, ERROR_INVALID_DATA, ERROR_INVALID_LENGTH, ERROR_UNSUPPORTED_CMD,
    MESSAGE_TYPE_NOT_SUPPORTED, SUCCESS,
};
use arrayvec::ArrayVec;
use uuid::Uuid;

/// The endpoint that answers.
#[derive(Clone, Copy, PartialEq, Eq)]
pub struct Endpoint {
    /// Its endpoint identifier, 8 to 254.
    pub eid: u8,
    /// Its UUID, which Get Endpoint UUID returns.
    pub uuid: Uuid,
}

/// The bytes of a control message that answers another, from its type byte on.
pub type ControlAnswer = ArrayVec<u8, 32>;

/// The Rq and D bits of a message's second byte, if it is a request and no datagram.
const REQUEST: u8 = 0b10;

/// The place of the Rq and D bits in a message's second byte.
const REQUEST_SHIFT: u32 = 6;

/// The instance identifier in a message's second byte.
const INSTANCE_MASK: u8 = 0x1F;

/// The operation of Set Endpoint ID, in the low two bits of its first byte.
const OPERATION_MASK: u8 = 0b11;

/// The last operation of Set Endpoint ID that sets the identifier: 0 sets it and 1 forces it.
const FORCE_EID: u8 = 1;

/// The null endpoint identifier.
const NULL_EID: u8 = 0x00;

/// The broadcast endpoint identifier.
const BROADCAST_EID: u8 = 0xFF;

/// Set Endpoint ID's status if the endpoint accepted the identifier; it has no pool of identifiers.
const EID_ACCEPTED: u8 = 0x00;

/// Set Endpoint ID's status if the endpoint kept its own identifier.
const EID_REJECTED: u8 = 0x10;

/// The size of the pool of identifiers that an endpoint without a bridge has.
const NO_POOL: u8 = 0;

/// Get Endpoint ID's type: a simple endpoint whose identifier is fixed.
const STATIC_EID: u8 = 0x01;

/// Get Endpoint ID's medium-specific byte: no information.
const NO_MEDIUM: u8 = 0x00;

/// The message type that requests the version of MCTP itself.
const MCTP_BASE: u8 = 0xFF;

/// Version 1.3.1 of the base protocol in DSP0236's version number encoding: major, minor and
/// update, each one decimal digit after the digit F, and no letter.
const BASE_VERSION: [u8; 4] = [0xF1, 0xF3, 0xF1, 0x00];

/// The message type of PLDM, the only one that an endpoint supports in addition to control
/// messages.
const PLDM: u8 = 0x01;

/// Returns the answer to a control message (DSP0236, section 12): the message's instance identifier
/// and command, a completion code and, if the code is 0, the command's fields. Returns `None` if
/// the message has less than three bytes or another type, has Rq clear, or is a datagram (D set).
pub fn answer(endpoint: &Endpoint, message: &[u8]) -> Option<ControlAnswer>
    ensures { option_map (λ v. v.items) result ≡ answer_of endpoint.now message.now }
{
    let [kind, flags, command, fields @ ..] = message else {
        return None;
    };
    if *kind != CONTROL || flags >> REQUEST_SHIFT != REQUEST {
        return None;
    }
    let mut out = ControlAnswer::new();
    out.push(CONTROL);
    out.push(flags & INSTANCE_MASK);
    out.push(*command);
    push_completion(endpoint, *command, fields, &mut out);
    Some(out)
}

/// Appends the completion code and the fields after it.
fn push_completion(endpoint: &Endpoint, command: u8, fields: &[u8], out: &mut ControlAnswer)
    requires { length out.old.items ≤ 3 }
    ensures { out.new.items ≡ out.old.items ++ completion_of endpoint.now command fields.now }
{
    match ControlCommand::from_code(command) {
        Some(ControlCommand::SetEndpointId) => push_set_endpoint_id(endpoint, fields, out),
        Some(ControlCommand::GetEndpointId) => push_endpoint_id(endpoint, fields, out),
        Some(ControlCommand::GetEndpointUuid) => push_endpoint_uuid(endpoint, fields, out),
        Some(ControlCommand::GetMctpVersionSupport) => push_mctp_version(fields, out),
        Some(ControlCommand::GetMessageTypeSupport) => push_message_types(fields, out),
        None => out.push(ERROR_UNSUPPORTED_CMD),
    }
}

/// Set Endpoint ID: an endpoint keeps the identifier that it is configured with.
fn push_set_endpoint_id(endpoint: &Endpoint, fields: &[u8], out: &mut ControlAnswer)
    requires { length out.old.items ≤ 3 }
    ensures { out.new.items ≡ out.old.items ++ set_endpoint_id endpoint.now.eid fields.now }
{
    let [operation, eid] = fields else {
        out.push(ERROR_INVALID_LENGTH);
        return;
    };
    if operation & OPERATION_MASK > FORCE_EID || *eid == NULL_EID || *eid == BROADCAST_EID {
        out.push(ERROR_INVALID_DATA);
        return;
    }
    out.push(SUCCESS);
    out.push(if *eid == endpoint.eid {
        EID_ACCEPTED
    } else {
        EID_REJECTED
    });
    out.push(endpoint.eid);
    out.push(NO_POOL);
}

/// Get Endpoint ID: the identifier, its type and its medium.
fn push_endpoint_id(endpoint: &Endpoint, fields: &[u8], out: &mut ControlAnswer)
    requires { length out.old.items ≤ 3 }
    ensures { out.new.items ≡ out.old.items ++ get_endpoint_id endpoint.now.eid fields.now }
{
    if !fields.is_empty() {
        out.push(ERROR_INVALID_LENGTH);
        return;
    }
    out.push(SUCCESS);
    out.push(endpoint.eid);
    out.push(STATIC_EID);
    out.push(NO_MEDIUM);
}

/// Get Endpoint UUID: the 16 bytes.
fn push_endpoint_uuid(endpoint: &Endpoint, fields: &[u8], out: &mut ControlAnswer)
    requires { length out.old.items ≤ 3 }
    ensures { out.new.items ≡ out.old.items ++ get_endpoint_uuid endpoint.now.uuid fields.now }
{
    if !fields.is_empty() {
        out.push(ERROR_INVALID_LENGTH);
        return;
    }
    out.push(SUCCESS);
    let _ = out.try_extend_from_slice(endpoint.uuid.as_bytes());
}

/// Get MCTP Version Support: version 1.3.1 of the base protocol, and no version of another type.
fn push_mctp_version(fields: &[u8], out: &mut ControlAnswer)
    requires { length out.old.items ≤ 3 }
    ensures { out.new.items ≡ out.old.items ++ get_mctp_version_support fields.now }
{
    let [kind] = fields else {
        out.push(ERROR_INVALID_LENGTH);
        return;
    };
    if *kind != MCTP_BASE {
        out.push(MESSAGE_TYPE_NOT_SUPPORTED);
        return;
    }
    out.push(SUCCESS);
    out.push(1);
    let _ = out.try_extend_from_slice(&BASE_VERSION);
}

/// Get Message Type Support: PLDM. Control messages are never listed.
fn push_message_types(fields: &[u8], out: &mut ControlAnswer)
    requires { length out.old.items ≤ 3 }
    ensures { out.new.items ≡ out.old.items ++ get_message_type_support fields.now }
{
    if !fields.is_empty() {
        out.push(ERROR_INVALID_LENGTH);
        return;
    }
    out.push(SUCCESS);
    out.push(1);
    out.push(PLDM);
}
