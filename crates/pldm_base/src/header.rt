//! Reads and writes the header of a PLDM message.

ghost use Rattle.std.specs.Prelude.{◌≡◌, ◌≤◌, IfErr, IfOk, IsOk, List, length, ℕ};
ghost use Rattle.std.specs.Result.{result_map_both};
ghost use Rattle.pldm_base.specs.Header.{IsFirstPldmFault, IsPldmHead, IsPldm, pldm_bytes, pldm_of};
ghost use Rattle.pldm_base.specs.declared.header.PldmHead.{PldmHead};

use crate::base::MAX_REPLY;
use arrayvec::ArrayVec;
use mctp_wire::MAX_MESSAGE;
use thiserror::Error;

/// The bytes of a PLDM header with its type byte (DSP0240, "PLDM message fields").
pub const HEADER_SIZE: usize = 4;

/// PLDM type 0, messaging control and discovery: the base commands.
pub const TYPE_BASE: u8 = 0;

/// PLDM type 5, firmware update.
pub const TYPE_FIRMWARE_UPDATE: u8 = 5;

/// The MCTP message type of PLDM, with the integrity check bit clear.
pub const MESSAGE_TYPE: u8 = 0x01;

/// The place of the request bit in the second byte.
const RQ_BIT: u32 = 7;

/// The place of the datagram bit in the second byte.
const D_BIT: u32 = 6;

/// The five bits of an instance identifier, the second byte's lowest. The bit above them is
/// reserved.
const INSTANCE_MASK: u8 = 0x1F;

/// The place of the two bits of header version in the third byte.
const VERSION_SHIFT: u32 = 6;

/// The header version that this crate reads and writes.
const HEADER_VERSION: u8 = 0;

/// The six bits of a PLDM type, the third byte's lowest.
const TYPE_MASK: u8 = 0x3F;

/// The head of a PLDM message (DSP0240, "PLDM message fields").
#[derive(Clone, Copy, PartialEq, Eq)]
pub struct PldmHead {
    /// Set in a request, clear in its answer.
    pub rq: bool,
    /// The instance identifier, 0 to 31, which pairs an answer with its request.
    pub instance: u8,
    /// The PLDM type, 0 to 63.
    pub pldm_type: u8,
    /// The command of that type.
    pub command: u8,
}

/// The bytes of one PLDM message.
pub type RawMessage = ArrayVec<u8, MAX_MESSAGE>;

/// Why bytes are no PLDM message: the first fault in this order.
#[derive(Clone, Copy, Debug, PartialEq, Eq, Error)]
pub enum PldmFault {
    /// There are less than four bytes.
    #[error("Short")]
    Short,
    /// The message type isn't that of PLDM.
    #[error("NotPldm")]
    NotPldm,
    /// The D bit is set: no answer is expected.
    #[error("Datagram")]
    Datagram,
    /// The header version isn't 0.
    #[error("HeaderVersion")]
    HeaderVersion,
}

/// Reads a PLDM message into its head and its body. The reserved bit of the second byte is ignored.
/// Bytes that are no PLDM message are refused with the first fault that holds.
pub fn decode(bytes: &[u8]) -> Result<(PldmHead, &[u8]), PldmFault>
    ensures found { IfOk result (λ m. IsPldm bytes.now m.0 m.1.now) }
    ensures only { (head : PldmHead) (body : List ℕ) → IsPldm bytes.now head body → IsOk result }
    ensures value { result_map_both (λ m. (m.0, m.1.now)) (λ e. e) result ≡ pldm_of bytes.now }
    ensures fault { IfErr result (λ e. IsFirstPldmFault bytes.now e) }
{
    let [message_type, flags, version_and_type, command, body @ ..] = bytes else {
        return Err(PldmFault::Short);
    };
    if *message_type != MESSAGE_TYPE {
        return Err(PldmFault::NotPldm);
    }
    if flags >> D_BIT & 1 == 1 {
        return Err(PldmFault::Datagram);
    }
    if version_and_type >> VERSION_SHIFT != HEADER_VERSION {
        return Err(PldmFault::HeaderVersion);
    }
    let head = PldmHead {
        rq: flags >> RQ_BIT == 1,
        instance: flags & INSTANCE_MASK,
        pldm_type: version_and_type & TYPE_MASK,
        command: *command,
    };
    Ok((head, body))
}

/// Encodes a PLDM message, with reserved bit 0.
pub fn encode(head: &PldmHead, body: &[u8]) -> RawMessage
    requires body { length body.now ≤ MAX_REPLY }
    requires head { IsPldmHead head.now }
    ensures { result.items ≡ pldm_bytes head.now body.now }
{
    let mut out = RawMessage::new();
    out.push(MESSAGE_TYPE);
    out.push((u8::from(head.rq) << RQ_BIT) + head.instance);
    out.push((HEADER_VERSION << VERSION_SHIFT) + head.pldm_type);
    out.push(head.command);
    let _ = out.try_extend_from_slice(body);
    out
}
