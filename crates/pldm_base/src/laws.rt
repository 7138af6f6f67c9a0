//! Round-trip laws: an encoded message reads back.

ghost use Rattle.std.specs.Prelude.{◌≡◌, ◌∷◌, []};
ghost use Rattle.pldm_base.specs.Header.{ReadsMessages, WritesMessages};

use crate::base::{GET_PLDM_COMMANDS, GET_PLDM_TYPES, GET_TID, SET_TID};
use crate::header::{TYPE_BASE, TYPE_FIRMWARE_UPDATE};

/// An encoded message reads back as the same head and body. Bytes are a PLDM message with at most
/// one head and body, which `decode` returns.
pub fn reads_back()
    ensures written { WritesMessages }
    ensures read { ReadsMessages }
{}

/// The numbers of the PLDM types, base and firmware update, and of the base commands, in the order
/// of their values.
pub fn numbers() -> ([u8; 2], [u8; 4])
    ensures types { result.0 ≡ 0 ∷ 5 ∷ [] }
    ensures commands { result.1 ≡ 1 ∷ 2 ∷ 4 ∷ 5 ∷ [] }
{
    (
        [TYPE_BASE, TYPE_FIRMWARE_UPDATE],
        [SET_TID, GET_TID, GET_PLDM_TYPES, GET_PLDM_COMMANDS],
    )
}
