//! The completion codes that every PLDM type shares (DSP0240, "PLDM completion codes"). An answer's
//! first byte is one of them or one of its type's own. An answer with another code than `SUCCESS`
//! has no more bytes.

ghost use Rattle.std.specs.Prelude.{◌≡◌, ◌∷◌, []};
ghost use Rattle.pldm_base.specs.Codes.{error, invalid_data, invalid_length, invalid_pldm_type, invalid_type_in_request, not_ready, success, unsupported_command};

/// The command was carried out.
pub const SUCCESS: u8 = 0x00;

/// The command failed for a reason that has no code of its own.
pub const ERROR: u8 = 0x01;

/// A field has a value that the command doesn't accept.
pub const ERROR_INVALID_DATA: u8 = 0x02;

/// The request data are too short or too long for the command.
pub const ERROR_INVALID_LENGTH: u8 = 0x03;

/// The command can't be accepted now, and may be sent again.
pub const ERROR_NOT_READY: u8 = 0x04;

/// The terminus doesn't support the command of the PLDM type.
pub const ERROR_UNSUPPORTED_PLDM_CMD: u8 = 0x05;

/// The terminus doesn't support the PLDM type.
pub const ERROR_INVALID_PLDM_TYPE: u8 = 0x20;

/// GetPLDMCommands requests a PLDM type that the terminus doesn't support.
pub const INVALID_PLDM_TYPE_IN_REQUEST_DATA: u8 = 0x83;

/// Returns all these codes, in the order of their values.
pub fn completion_codes() -> [u8; 8]
    ensures values { result ≡ success ∷ error ∷ invalid_data ∷ invalid_length ∷ not_ready
        ∷ unsupported_command ∷ invalid_pldm_type ∷ invalid_type_in_request ∷ [] }
{
    [
        SUCCESS,
        ERROR,
        ERROR_INVALID_DATA,
        ERROR_INVALID_LENGTH,
        ERROR_NOT_READY,
        ERROR_UNSUPPORTED_PLDM_CMD,
        ERROR_INVALID_PLDM_TYPE,
        INVALID_PLDM_TYPE_IN_REQUEST_DATA,
    ]
}
