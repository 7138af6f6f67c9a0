//! Writes commands.

ghost use Rattle.std.specs.Prelude.{Ok, ◌+◌, ◌≡◌, ◌≤◌, length, ℕ};
ghost use Rattle.fwup_wire.specs.Commands.{HasCommandWidths, IsCommand, IsWritable, command_bytes, command_code, command_read};
ghost use Rattle.fwup_wire.specs.Lent.{command_of, table_entry_of, offer_of, update_request_of};
ghost use Rattle.fwup_wire.specs.Values.{CommandOf};

use crate::command::{Command, ComponentOffer, MAX_FIELDS, TableEntry, UpdateRequest};
use crate::writer::{put_component, put_text, put_u16, put_u32};
use pldm_base::Reply;

/// Writes the request data of a command (DSP0267 1.0), with reserved bits 0. The command's byte is
/// `Command::code`.
#[tactic(auto, using(crate::proofs::Written::writes_member, crate::proofs::Written::writes_back))]
pub fn write(command: &Command<'_>) -> Reply
    requires { IsWritable (command_of command.now) }
    ensures bytes { result.items ≡ command_bytes (command_of command.now) }
    ensures member { IsCommand (command_code (command_of command.now)) result.items (command_of command.now) }
    ensures reads_back { command_read (command_code (command_of command.now)) result.items ≡ Ok (command_of command.now) }
{
    let mut out = Reply::new();
    match command {
        Command::RequestUpdate(request) => return request_update(request),
        Command::PassComponentTable(entry) => return pass_component_table(entry),
        Command::UpdateComponent(offer) => return update_component(offer),
        Command::RequestFirmwareData { offset, length } => {
            put_u32(&mut out, *offset);
            put_u32(&mut out, *length);
        }
        Command::TransferComplete { result: outcome } => out.push(*outcome),
        Command::VerifyComplete { result: outcome } => out.push(*outcome),
        Command::ApplyComplete {
            result: outcome,
            methods,
        } => {
            out.push(*outcome);
            put_u16(&mut out, *methods);
        }
        Command::ActivateFirmware { self_contained } => out.push(u8::from(*self_contained)),
        Command::QueryDeviceIdentifiers
        | Command::GetFirmwareParameters
        | Command::GetStatus
        | Command::CancelUpdateComponent
        | Command::CancelUpdate => {}
    }
    out
}

fn request_update(request: &UpdateRequest<'_>) -> Reply
    requires { 11 + length request.now.image_set.bytes.now ≤ MAX_FIELDS }
    ensures bytes { result.items ≡ command_bytes (CommandOf.RequestUpdate (update_request_of request.now)) }
    ensures widths { HasCommandWidths (CommandOf.RequestUpdate (update_request_of request.now)) }
{
    let mut out = Reply::new();
    put_u32(&mut out, request.transfer_size);
    put_u16(&mut out, request.components);
    out.push(request.outstanding);
    put_u16(&mut out, request.package_data_length);
    put_text(&mut out, &request.image_set);
    out
}

fn pass_component_table(entry: &TableEntry<'_>) -> Reply
    requires { 12 + length entry.now.version.text.bytes.now ≤ MAX_FIELDS }
    ensures bytes { result.items ≡ command_bytes (CommandOf.PassComponentTable (table_entry_of entry.now)) }
    ensures widths { HasCommandWidths (CommandOf.PassComponentTable (table_entry_of entry.now)) }
{
    let mut out = Reply::new();
    out.push(entry.flag.byte());
    put_component(&mut out, &entry.key, entry.index, entry.version.stamp);
    put_text(&mut out, &entry.version.text);
    out
}

fn update_component(offer: &ComponentOffer<'_>) -> Reply
    requires { 19 + length offer.now.version.text.bytes.now ≤ MAX_FIELDS }
    ensures bytes { result.items ≡ command_bytes (CommandOf.UpdateComponent (offer_of offer.now)) }
    ensures widths { HasCommandWidths (CommandOf.UpdateComponent (offer_of offer.now)) }
{
    let mut out = Reply::new();
    put_component(&mut out, &offer.key, offer.index, offer.version.stamp);
    put_u32(&mut out, offer.size);
    put_u32(&mut out, u32::from(offer.force));
    put_text(&mut out, &offer.version.text);
    out
}
