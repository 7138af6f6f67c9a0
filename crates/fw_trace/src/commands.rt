//! The requests of firmware update (DSP0267 1.0): the command, and the fields of its request data.
//! Each function's only error is `AllocError`.

ghost use Rattle.std.specs.Prelude.{OnOk};
ghost use Rattle.fw_text.specs.Printing.{AppendsText};
ghost use Rattle.fwup_wire.specs.Lent.{command_of, table_entry_of, offer_of, update_request_of};
ghost use Rattle.fw_trace.specs.Commands.{apply_fields, command_fields, component_fields, data_fields, entry_fields, offer_fields, package_data_field, request_fields, update_request};

use crate::names::update_command;
use crate::pieces::{push_byte, push_long, push_name, push_rest, push_short, push_text, push_two};
use fw_text::{push_eight, push_four};
use fwup_wire::{Command, ComponentOffer, Key, TableEntry, UpdateRequest};
use std::alloc::{AllocError, Global};

/// Appends a component: its classification, its identifier and its index.
#[tactic(auto, unfolding(crate::specs::Commands::component_fields))]
pub fn push_component(
    alloc: Global,
    text: &mut Vec<u8>,
    key: Key,
    index: u8,
) -> Result<(), AllocError>
    ensures { OnOk result (AppendsText text.old.items text.new.items (component_fields key index)) }
{
    push_short(alloc, text, " class ", key.classification)?;
    push_short(alloc, text, " ident ", key.identifier)?;
    push_byte(alloc, text, " index ", index)?;
    Ok(())
}

/// Appends the length of the package data in bytes, if there is any.
fn push_package_data(alloc: Global, text: &mut Vec<u8>, length: u16) -> Result<(), AllocError>
    ensures { OnOk result (AppendsText text.old.items text.new.items (package_data_field length)) }
{
    if length == 0 {
        return Ok(());
    }
    push_short(alloc, text, " package ", length)
}

/// Appends the fields of RequestUpdate.
#[tactic(auto, unfolding(crate::specs::Commands::request_fields))]
fn push_request(
    alloc: Global,
    text: &mut Vec<u8>,
    request: &UpdateRequest<'_>,
) -> Result<(), AllocError>
    ensures { OnOk result (AppendsText text.old.items text.new.items (request_fields (update_request_of request.now))) }
{
    push_long(alloc, text, " size ", request.transfer_size)?;
    push_short(alloc, text, " components ", request.components)?;
    push_byte(alloc, text, " outstanding ", request.outstanding)?;
    push_package_data(alloc, text, request.package_data_length)?;
    push_text(alloc, text, " set ", &request.image_set)?;
    Ok(())
}

/// Appends the fields of PassComponentTable.
#[tactic(auto, unfolding(crate::specs::Commands::entry_fields))]
fn push_entry(alloc: Global, text: &mut Vec<u8>, entry: &TableEntry<'_>) -> Result<(), AllocError>
    ensures { OnOk result (AppendsText text.old.items text.new.items (entry_fields (table_entry_of entry.now))) }
{
    let flag = entry.flag.byte();
    push_byte(alloc, text, " flag ", flag)?;
    push_component(alloc, text, entry.key, entry.index)?;
    push_eight(alloc, text, " stamp ", entry.version.stamp)?;
    push_text(alloc, text, " version ", &entry.version.text)?;
    Ok(())
}

/// Appends the fields of UpdateComponent.
#[tactic(auto, unfolding(crate::specs::Commands::offer_fields))]
fn push_offer(
    alloc: Global,
    text: &mut Vec<u8>,
    offer: &ComponentOffer<'_>,
) -> Result<(), AllocError>
    ensures { OnOk result (AppendsText text.old.items text.new.items (offer_fields (offer_of offer.now))) }
{
    push_component(alloc, text, offer.key, offer.index)?;
    push_eight(alloc, text, " stamp ", offer.version.stamp)?;
    push_long(alloc, text, " size ", offer.size)?;
    push_eight(alloc, text, " options ", u32::from(offer.force))?;
    push_text(alloc, text, " version ", &offer.version.text)?;
    Ok(())
}

/// Appends the fields of RequestFirmwareData.
#[tactic(auto, unfolding(crate::specs::Commands::data_fields))]
fn push_data_request(
    alloc: Global,
    text: &mut Vec<u8>,
    offset: u32,
    length: u32,
) -> Result<(), AllocError>
    ensures { OnOk result (AppendsText text.old.items text.new.items (data_fields offset length)) }
{
    push_long(alloc, text, " offset ", offset)?;
    push_long(alloc, text, " length ", length)?;
    Ok(())
}

/// Appends the fields of ApplyComplete.
#[tactic(auto, unfolding(crate::specs::Commands::apply_fields))]
fn push_apply(
    alloc: Global,
    text: &mut Vec<u8>,
    outcome: u8,
    methods: u16,
) -> Result<(), AllocError>
    ensures { OnOk result (AppendsText text.old.items text.new.items (apply_fields outcome methods)) }
{
    push_two(alloc, text, " result ", outcome)?;
    push_four(alloc, text, " methods ", methods)?;
    Ok(())
}

/// Appends the fields of a command.
fn push_command(alloc: Global, text: &mut Vec<u8>, command: &Command<'_>) -> Result<(), AllocError>
    ensures { OnOk result (AppendsText text.old.items text.new.items (command_fields (command_of command.now))) }
{
    match command {
        Command::RequestUpdate(request) => push_request(alloc, text, request),
        Command::PassComponentTable(entry) => push_entry(alloc, text, entry),
        Command::UpdateComponent(offer) => push_offer(alloc, text, offer),
        Command::RequestFirmwareData { offset, length } => {
            push_data_request(alloc, text, *offset, *length)
        }
        Command::TransferComplete { result } | Command::VerifyComplete { result } => {
            push_two(alloc, text, " result ", *result)
        }
        Command::ApplyComplete { result, methods } => push_apply(alloc, text, *result, *methods),
        Command::ActivateFirmware { self_contained } => {
            push_byte(alloc, text, " self ", u8::from(*self_contained))
        }
        Command::QueryDeviceIdentifiers
        | Command::GetFirmwareParameters
        | Command::GetStatus
        | Command::CancelUpdateComponent
        | Command::CancelUpdate => Ok(()),
    }
}

/// Appends a request of firmware update: the command, and the fields of its request data, or the
/// digits of request data that can't be decoded.
#[tactic(auto, unfolding(crate::specs::Commands::update_request))]
pub fn push_update_request(
    alloc: Global,
    text: &mut Vec<u8>,
    command: u8,
    fields: &[u8],
) -> Result<(), AllocError>
    ensures { OnOk result (AppendsText text.old.items text.new.items (update_request command fields.now)) }
{
    push_name(alloc, text, update_command(command), command)?;
    match fwup_wire::read(command, fields) {
        Ok(command) => push_command(alloc, text, &command),
        Err(_) => push_rest(alloc, text, fields),
    }
}
