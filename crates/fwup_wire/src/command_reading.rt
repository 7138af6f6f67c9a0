//! Reads commands.

ghost use Rattle.std.specs.Prelude.{◌≡◌, IfOk, IsOk, ℕ};
ghost use Rattle.std.specs.Option.{option_map};
ghost use Rattle.std.specs.Result.{result_map_both};
ghost use Rattle.fwup_wire.specs.Commands.{IsCommand, activation_read, command_read, data_request_in, entry_read, offer_in, report_in, request_in, result_in};
ghost use Rattle.fwup_wire.specs.Lent.{command_of, offer_of, update_request_of};
ghost use Rattle.fwup_wire.specs.Values.{CommandOf};

use crate::code::command;
use crate::command::{Command, ComponentOffer, TableEntry, UpdateRequest};
use crate::cursor::Cursor;
use crate::values::{TransferFlag, Version};
use pldm_base::completion::{ERROR_INVALID_DATA, ERROR_INVALID_LENGTH, ERROR_UNSUPPORTED_PLDM_CMD};

/// Reads the request data of a command (DSP0267 1.0). Reserved bits may hold anything.
///
/// # Errors
/// The completion code of the refusal, the first of these: `ERROR_UNSUPPORTED_PLDM_CMD` for a
/// command of PLDM type 5 that this crate doesn't know, `ERROR_INVALID_LENGTH` for too few or too
/// many bytes, `ERROR_INVALID_DATA` for a field's value.
pub fn read(command: u8, fields: &[u8]) -> Result<Command<'_>, u8>
    ensures found { IfOk result (λ c. IsCommand command fields.now (command_of c)) }
    ensures only { (c : CommandOf) → IsCommand command fields.now c → IsOk result }
    ensures value { result_map_both command_of (λ e. e) result ≡ command_read command fields.now }
{
    match command {
        command::QUERY_DEVICE_IDENTIFIERS => alone(fields, Command::QueryDeviceIdentifiers),
        command::GET_FIRMWARE_PARAMETERS => alone(fields, Command::GetFirmwareParameters),
        command::REQUEST_UPDATE => of_length(request_update(fields).map(Command::RequestUpdate)),
        command::PASS_COMPONENT_TABLE => pass_component_table(fields),
        command::UPDATE_COMPONENT => of_length(update_component(fields).map(
            Command::UpdateComponent,
        )),
        command::REQUEST_FIRMWARE_DATA => of_length(request_firmware_data(fields)),
        command::TRANSFER_COMPLETE => of_length(only_byte(fields).map(
            |byte| Command::TransferComplete { result: byte },
        )),
        command::VERIFY_COMPLETE => of_length(only_byte(fields).map(|byte| Command::VerifyComplete {
            result: byte,
        })),
        command::APPLY_COMPLETE => of_length(apply_complete(fields)),
        command::ACTIVATE_FIRMWARE => activate_firmware(fields),
        command::GET_STATUS => alone(fields, Command::GetStatus),
        command::CANCEL_UPDATE_COMPONENT => alone(fields, Command::CancelUpdateComponent),
        command::CANCEL_UPDATE => alone(fields, Command::CancelUpdate),
        _ => Err(ERROR_UNSUPPORTED_PLDM_CMD),
    }
}

/// Returns the command, or the code for a wrong length if there is none.
fn of_length(found: Option<Command<'_>>) -> Result<Command<'_>, u8>
    ensures { result_map_both command_of (λ e. e) result
        ≡ Rattle.fwup_wire.specs.Commands.of_length (option_map command_of found.entry) }
{
    found.ok_or(ERROR_INVALID_LENGTH)
}

/// Returns a command without request data.
fn alone<'a>(fields: &[u8], command: Command<'a>) -> Result<Command<'a>, u8>
    ensures { result_map_both command_of (λ e. e) result
        ≡ Rattle.fwup_wire.specs.Commands.alone fields.now (command_of command.entry) }
{
    if fields.is_empty() {
        Ok(command)
    } else {
        Err(ERROR_INVALID_LENGTH)
    }
}

fn request_update(fields: &[u8]) -> Option<UpdateRequest<'_>>
    ensures { option_map update_request_of result ≡ request_in fields.now }
{
    let mut cursor = Cursor::new(fields);
    let transfer_size = cursor.u32()?;
    let components = cursor.u16()?;
    let outstanding = cursor.byte()?;
    let package_data_length = cursor.u16()?;
    let image_set = cursor.last_text()?;
    Some(UpdateRequest {
        transfer_size,
        components,
        outstanding,
        package_data_length,
        image_set,
    })
}

fn pass_component_table(fields: &[u8]) -> Result<Command<'_>, u8>
    ensures { result_map_both command_of (λ e. e) result ≡ entry_read fields.now }
{
    let mut cursor = Cursor::new(fields);
    let Some(flag) = cursor.byte() else {
        return Err(ERROR_INVALID_LENGTH);
    };
    let Some((key, index, stamp)) = cursor.component() else {
        return Err(ERROR_INVALID_LENGTH);
    };
    let Some(text) = cursor.last_text() else {
        return Err(ERROR_INVALID_LENGTH);
    };
    let Some(flag) = TransferFlag::from_byte(flag) else {
        return Err(ERROR_INVALID_DATA);
    };
    let version = Version { stamp, text };
    Ok(Command::PassComponentTable(TableEntry {
        flag,
        key,
        index,
        version,
    }))
}

fn update_component(fields: &[u8]) -> Option<ComponentOffer<'_>>
    ensures { option_map offer_of result ≡ offer_in fields.now }
{
    let mut cursor = Cursor::new(fields);
    let (key, index, stamp) = cursor.component()?;
    let size = cursor.u32()?;
    let options = cursor.u32()?;
    let text = cursor.last_text()?;
    Some(ComponentOffer {
        key,
        index,
        version: Version { stamp, text },
        size,
        force: options % 2 == 1,
    })
}

fn request_firmware_data(fields: &[u8]) -> Option<Command<'static>>
    ensures { option_map command_of result ≡ data_request_in fields.now }
{
    let mut cursor = Cursor::new(fields);
    let offset = cursor.u32()?;
    let length = cursor.u32()?;
    if !cursor.is_at_end() {
        return None;
    }
    Some(Command::RequestFirmwareData { offset, length })
}

fn only_byte(fields: &[u8]) -> Option<u8>
    ensures { result ≡ result_in fields.now }
{
    let [byte] = fields else {
        return None;
    };
    Some(*byte)
}

fn apply_complete(fields: &[u8]) -> Option<Command<'static>>
    ensures { option_map command_of result ≡ report_in fields.now }
{
    let mut cursor = Cursor::new(fields);
    let outcome = cursor.byte()?;
    let methods = cursor.u16()?;
    if !cursor.is_at_end() {
        return None;
    }
    Some(Command::ApplyComplete {
        result: outcome,
        methods,
    })
}

fn activate_firmware(fields: &[u8]) -> Result<Command<'static>, u8>
    ensures { result_map_both command_of (λ e. e) result ≡ activation_read fields.now }
{
    match fields {
        [0] => Ok(Command::ActivateFirmware {
            self_contained: false,
        }),
        [1] => Ok(Command::ActivateFirmware {
            self_contained: true,
        }),
        [_] => Err(ERROR_INVALID_DATA),
        _ => Err(ERROR_INVALID_LENGTH),
    }
}
