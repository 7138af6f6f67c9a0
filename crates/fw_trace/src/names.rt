//! The standards' names of commands and completion codes, and the names of the reasons why a packet
//! is dropped.

ghost use Rattle.std.specs.Prelude.{◌≡◌, option_map};
ghost use Rattle.fw_trace.specs.Names.{base_code, base_command, cause_name, code_name, control_code, control_name, shared_code, update_code, update_command};

use fwup_wire::code::{command, completion as update};
use mctp_ctl::ControlCommand;
use mctp_reasm::DropCause;
use pldm_base::{GET_PLDM_COMMANDS, GET_PLDM_TYPES, GET_TID, SET_TID, completion};

/// GetPLDMVersion of PLDM type 0 (DSP0240): requests the versions of a PLDM type.
pub const GET_PLDM_VERSION: u8 = 0x03;

/// Returns the name of a command of PLDM type 5 (DSP0267 1.0, "PLDM for firmware update command
/// codes"), if it has one.
pub fn update_command(code: u8) -> Option<&'static str>
    ensures { option_map (λ s. s.now) result ≡ update_command code }
{
    match code {
        command::QUERY_DEVICE_IDENTIFIERS => Some("QueryDeviceIdentifiers"),
        command::GET_FIRMWARE_PARAMETERS => Some("GetFirmwareParameters"),
        command::REQUEST_UPDATE => Some("RequestUpdate"),
        command::PASS_COMPONENT_TABLE => Some("PassComponentTable"),
        command::UPDATE_COMPONENT => Some("UpdateComponent"),
        command::REQUEST_FIRMWARE_DATA => Some("RequestFirmwareData"),
        command::TRANSFER_COMPLETE => Some("TransferComplete"),
        command::VERIFY_COMPLETE => Some("VerifyComplete"),
        command::APPLY_COMPLETE => Some("ApplyComplete"),
        command::ACTIVATE_FIRMWARE => Some("ActivateFirmware"),
        command::GET_STATUS => Some("GetStatus"),
        command::CANCEL_UPDATE_COMPONENT => Some("CancelUpdateComponent"),
        command::CANCEL_UPDATE => Some("CancelUpdate"),
        _ => None,
    }
}

/// Returns the name of a command of PLDM type 0 (DSP0240), if it has one.
pub fn base_command(code: u8) -> Option<&'static str>
    ensures { option_map (λ s. s.now) result ≡ base_command code }
{
    match code {
        SET_TID => Some("SetTID"),
        GET_TID => Some("GetTID"),
        GET_PLDM_VERSION => Some("GetPLDMVersion"),
        GET_PLDM_TYPES => Some("GetPLDMTypes"),
        GET_PLDM_COMMANDS => Some("GetPLDMCommands"),
        _ => None,
    }
}

/// The name of a control command (DSP0236, Table 12).
fn control_name(command: ControlCommand) -> &'static str
    ensures { result.now ≡ control_name command }
{
    match command {
        ControlCommand::SetEndpointId => "SetEndpointID",
        ControlCommand::GetEndpointId => "GetEndpointID",
        ControlCommand::GetEndpointUuid => "GetEndpointUUID",
        ControlCommand::GetMctpVersionSupport => "GetMCTPVersionSupport",
        ControlCommand::GetMessageTypeSupport => "GetMessageTypeSupport",
    }
}

/// Returns the name of a control command, if there is one.
pub fn control_command(command: Option<ControlCommand>) -> Option<&'static str>
    ensures { option_map (λ s. s.now) result ≡ option_map control_name command }
{
    match command {
        Some(command) => Some(control_name(command)),
        None => None,
    }
}

/// Returns the name of a completion code that every PLDM type shares (DSP0240, "PLDM completion
/// codes"), if it has one.
fn shared_code(code: u8) -> Option<&'static str>
    ensures { option_map (λ s. s.now) result ≡ shared_code code }
{
    match code {
        completion::SUCCESS => Some("SUCCESS"),
        completion::ERROR => Some("ERROR"),
        completion::ERROR_INVALID_DATA => Some("ERROR_INVALID_DATA"),
        completion::ERROR_INVALID_LENGTH => Some("ERROR_INVALID_LENGTH"),
        completion::ERROR_NOT_READY => Some("ERROR_NOT_READY"),
        completion::ERROR_UNSUPPORTED_PLDM_CMD => Some("ERROR_UNSUPPORTED_PLDM_CMD"),
        completion::ERROR_INVALID_PLDM_TYPE => Some("ERROR_INVALID_PLDM_TYPE"),
        _ => None,
    }
}

/// Returns the name of a completion code of PLDM type 0 (DSP0240), if it has one.
fn base_code(code: u8) -> Option<&'static str>
    ensures { option_map (λ s. s.now) result ≡ base_code code }
{
    if code == completion::INVALID_PLDM_TYPE_IN_REQUEST_DATA {
        Some("INVALID_PLDM_TYPE_IN_REQUEST_DATA")
    } else {
        shared_code(code)
    }
}

/// Returns the name of a completion code of PLDM type 5 (DSP0267 1.0, "PLDM for firmware update
/// completion codes"), if it has one.
pub fn update_code(code: u8) -> Option<&'static str>
    ensures { option_map (λ s. s.now) result ≡ update_code code }
{
    match code {
        update::NOT_IN_UPDATE_MODE => Some("NOT_IN_UPDATE_MODE"),
        update::ALREADY_IN_UPDATE_MODE => Some("ALREADY_IN_UPDATE_MODE"),
        update::DATA_OUT_OF_RANGE => Some("DATA_OUT_OF_RANGE"),
        update::INVALID_TRANSFER_LENGTH => Some("INVALID_TRANSFER_LENGTH"),
        update::INVALID_STATE_FOR_COMMAND => Some("INVALID_STATE_FOR_COMMAND"),
        update::INCOMPLETE_UPDATE => Some("INCOMPLETE_UPDATE"),
        update::COMMAND_NOT_EXPECTED => Some("COMMAND_NOT_EXPECTED"),
        update::RETRY_REQUEST_FW_DATA => Some("RETRY_REQUEST_FW_DATA"),
        update::ACTIVATION_NOT_REQUIRED => Some("ACTIVATION_NOT_REQUIRED"),
        _ => shared_code(code),
    }
}

/// Returns the name of a completion code of control messages (DSP0236, Table 13), if it has one.
fn control_code(code: u8) -> Option<&'static str>
    ensures { option_map (λ s. s.now) result ≡ control_code code }
{
    match code {
        0x00 => Some("SUCCESS"),
        0x01 => Some("ERROR"),
        0x02 => Some("ERROR_INVALID_DATA"),
        0x03 => Some("ERROR_INVALID_LENGTH"),
        0x04 => Some("ERROR_NOT_READY"),
        0x05 => Some("ERROR_UNSUPPORTED_CMD"),
        _ => None,
    }
}

/// The completion codes of a kind of messages.
#[derive(Clone, Copy)]
pub enum CodeTable {
    /// Those of control messages.
    Control,
    /// Those of the commands of PLDM type 0.
    Base,
    /// Those that every PLDM type shares.
    Shared,
}

/// Returns the name of a completion code, if it has one.
pub fn code_name(codes: CodeTable, code: u8) -> Option<&'static str>
    ensures { option_map (λ s. s.now) result ≡ code_name codes code }
{
    match codes {
        CodeTable::Control => control_code(code),
        CodeTable::Base => base_code(code),
        CodeTable::Shared => shared_code(code),
    }
}

/// Returns the name of the reason why an assembly drops a packet.
pub fn cause_name(cause: DropCause) -> &'static str
    ensures { result.now ≡ cause_name cause }
{
    match cause {
        DropCause::NoStart => "NoStart",
        DropCause::Sequence => "Sequence",
        DropCause::Unit => "Unit",
        DropCause::StartNumber => "StartNumber",
        DropCause::FifthPacket => "FifthPacket",
    }
}
