//! The rows of control messages.

ghost use Rattle.std.specs.Prelude.{◌≡◌};
ghost use Rattle.std.specs.Option.{option_map};
ghost use Rattle.mctp_front.specs.ControlRows.{physical_answer, version_of_type, version_support_answer};

use mctp_ctl::{CONTROL, ControlAnswer, ControlCommand, Endpoint};

/// The Rq and D bits of a message's second byte, if it is a request and no datagram.
const REQUEST: u8 = 0b10;

/// The place of the Rq and D bits in a message's second byte.
const REQUEST_SHIFT: u32 = 6;

/// The instance identifier in a message's second byte.
const INSTANCE_MASK: u8 = 0x1F;

/// Get MCTP Version Support.
const GET_MCTP_VERSION_SUPPORT: u8 = 0x04;

/// The request was carried out.
const SUCCESS: u8 = 0x00;

/// Version 1.3.1 of the control messages, which is that of the base protocol (DSP0236).
const CONTROL_VERSION: [u8; 4] = [0xF1, 0xF3, 0xF1, 0x00];

/// Version 1.0.0 of PLDM over MCTP (DSP0241).
const BINDING_VERSION: [u8; 4] = [0xF1, 0xF0, 0xF0, 0x00];

/// The message type of PLDM.
const PLDM: u8 = 0x01;

/// Returns the answer to Set Endpoint ID or Get Endpoint ID that was sent to the null identifier.
pub(crate) fn physical_answer(endpoint: &Endpoint, message: &[u8]) -> Option<ControlAnswer>
    ensures { option_map (λ v. v.items) result ≡ physical_answer endpoint.now message.now }
{
    let [_, _, command, ..] = message else {
        return None;
    };
    match ControlCommand::from_code(*command) {
        Some(ControlCommand::SetEndpointId | ControlCommand::GetEndpointId) => {
            mctp_ctl::answer(endpoint, message)
        }
        _ => None,
    }
}

/// Returns the version of a message type that a front knows.
fn version_of(kind: u8) -> Option<[u8; 4]>
    ensures { result ≡ version_of_type kind }
{
    match kind {
        CONTROL => Some(CONTROL_VERSION),
        PLDM => Some(BINDING_VERSION),
        _ => None,
    }
}

/// Returns the answer to Get MCTP Version Support for control messages or PLDM.
pub(crate) fn version_support_answer(message: &[u8]) -> Option<ControlAnswer>
    ensures { option_map (λ v. v.items) result ≡ version_support_answer message.now }
{
    let [kind, flags, command, asked] = message else {
        return None;
    };
    if *kind != CONTROL
        || flags >> REQUEST_SHIFT != REQUEST
        || *command != GET_MCTP_VERSION_SUPPORT
    {
        return None;
    }
    let version = version_of(*asked)?;
    let mut out = ControlAnswer::new();
    out.push(CONTROL);
    out.push(flags & INSTANCE_MASK);
    out.push(GET_MCTP_VERSION_SUPPORT);
    out.push(SUCCESS);
    out.push(1);
    let _ = out.try_extend_from_slice(&version);
    Some(out)
}
