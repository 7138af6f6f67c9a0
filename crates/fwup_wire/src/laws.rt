//! Round-trip laws: encoded commands and answers read back.

ghost use Rattle.std.specs.Prelude.{◌≡◌, ◌∷◌, []};
ghost use Rattle.fwup_wire.specs.Laws.{ReadsAnswers, ReadsCommands, ReadsOnlyAnswers, ReadsOnlyCommands, WritesAnswers, WritesCommands};

use crate::code::{command, completion, response, text_type};

/// Request data are at most one command, which `read` returns. An encoded command reads back as the
/// same command.
pub fn commands_read_back()
    ensures read { ReadsCommands }
    ensures only { ReadsOnlyCommands }
    ensures written { WritesCommands }
{}

/// Bytes are at most one answer to a command, which `read_answer` returns. An encoded answer reads
/// back as the same answer.
#[tactic(auto, using(crate::proofs::Found::only_answer, crate::proofs::WrittenAnswers::writes_answers))]
pub fn answers_read_back()
    ensures read { ReadsAnswers }
    ensures only { ReadsOnlyAnswers }
    ensures written { WritesAnswers }
{}

/// Returns the commands of `code`, in the order of their values.
pub fn command_codes() -> [u8; 13]
    ensures values { result ≡ 0x01 ∷ 0x02 ∷ 0x10 ∷ 0x13 ∷ 0x14 ∷ 0x15 ∷ 0x16 ∷ 0x17 ∷ 0x18 ∷ 0x1A ∷ 0x1B ∷ 0x1C ∷ 0x1D ∷ [] }
{
    [
        command::QUERY_DEVICE_IDENTIFIERS,
        command::GET_FIRMWARE_PARAMETERS,
        command::REQUEST_UPDATE,
        command::PASS_COMPONENT_TABLE,
        command::UPDATE_COMPONENT,
        command::REQUEST_FIRMWARE_DATA,
        command::TRANSFER_COMPLETE,
        command::VERIFY_COMPLETE,
        command::APPLY_COMPLETE,
        command::ACTIVATE_FIRMWARE,
        command::GET_STATUS,
        command::CANCEL_UPDATE_COMPONENT,
        command::CANCEL_UPDATE,
    ]
}

/// Returns the completion codes of `code`, in the order of their values.
pub fn completion_codes() -> [u8; 9]
    ensures values { result ≡ 0x80 ∷ 0x81 ∷ 0x82 ∷ 0x83 ∷ 0x84 ∷ 0x85 ∷ 0x88 ∷ 0x89 ∷ 0x8B ∷ [] }
{
    [
        completion::NOT_IN_UPDATE_MODE,
        completion::ALREADY_IN_UPDATE_MODE,
        completion::DATA_OUT_OF_RANGE,
        completion::INVALID_TRANSFER_LENGTH,
        completion::INVALID_STATE_FOR_COMMAND,
        completion::INCOMPLETE_UPDATE,
        completion::COMMAND_NOT_EXPECTED,
        completion::RETRY_REQUEST_FW_DATA,
        completion::ACTIVATION_NOT_REQUIRED,
    ]
}

/// Returns the text types of `code`, in the order of their values.
pub fn text_types() -> [u8; 6]
    ensures values { result ≡ 0 ∷ 1 ∷ 2 ∷ 3 ∷ 4 ∷ 5 ∷ [] }
{
    [
        text_type::UNKNOWN,
        text_type::ASCII,
        text_type::UTF_8,
        text_type::UTF_16,
        text_type::UTF_16LE,
        text_type::UTF_16BE,
    ]
}

/// Returns the two responses of `code`, and its response codes in the order of their values.
pub fn response_codes() -> ([u8; 2], [u8; 4])
    ensures responses { result.0 ≡ 0 ∷ 1 ∷ [] }
    ensures codes { result.1 ≡ 0x00 ∷ 0x01 ∷ 0x02 ∷ 0x06 ∷ [] }
{
    (
        [response::CAN_BE_UPDATED, response::CANNOT_BE_UPDATED],
        [
            response::NO_RESTRICTION,
            response::COMPARISON_STAMP_IDENTICAL,
            response::COMPARISON_STAMP_LOWER,
            response::NOT_SUPPORTED,
        ],
    )
}
