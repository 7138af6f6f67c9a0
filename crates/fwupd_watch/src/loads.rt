//! The image that a device loads, by the packets of its update, and its text.

ghost use Rattle.std.specs.Prelude.{◌≡◌, OnOk};
ghost use Rattle.fw_text.specs.Printing.{AppendsText};
ghost use Rattle.fwup_wire.specs.Commands.{command_read};
ghost use Rattle.fwupd_watch.specs.Loads.{event_of, event_of_request, is_success, load_text, loaded};
ghost use Rattle.mctp_wire.specs.Packet.{packet_of};
ghost use Rattle.mctp_wire.specs.declared.unit.Unit.TheVariants.{U128};

use fw_text::{push_number, push_words};
use fwup_wire::code::command;
use fwup_wire::{Command, Key};
use mctp_wire::{Head, Unit};
use pldm_base::TYPE_FIRMWARE_UPDATE;
use std::alloc::{AllocError, Global};

/// An image that a device loads.
#[derive(Clone, Copy)]
pub(crate) struct Load {
    /// The device's endpoint identifier.
    pub(crate) device: u8,
    /// The component for which it is.
    pub(crate) key: Key,
    /// The end of the bytes that the device requested last. It may be past the image's end.
    pub(crate) asked: u32,
    /// The image's size in bytes.
    pub(crate) size: u32,
}

/// What a packet says of an update.
#[derive(Clone, Copy)]
pub(crate) enum Event {
    /// The agent has a device load an image (UpdateComponent).
    Offers(Load),
    /// A device requests bytes of its image up to an end (RequestFirmwareData).
    Asks(u8, u32),
    /// A device activated its images (the answer to ActivateFirmware).
    Activates(u8),
}

/// What a request of this command says of an update, between these endpoints.
fn requested(head: Head, command: u8, fields: &[u8]) -> Option<Event>
    ensures { result ≡ event_of_request head (command_read command fields.now) }
{
    match fwup_wire::read(command, fields) {
        Ok(Command::UpdateComponent(offer)) => Some(Event::Offers(Load {
            device: head.dest,
            key: offer.key,
            asked: 0,
            size: offer.size,
        })),
        Ok(Command::RequestFirmwareData { offset, length }) => {
            Some(Event::Asks(head.source, offset.saturating_add(length)))
        }
        _ => None,
    }
}

/// Whether an answer begins with the completion code of success.
fn is_success(fields: &[u8]) -> bool
    ensures { result ≡ is_success fields.now }
{
    match fields {
        [code, ..] => *code == 0,
        [] => false,
    }
}

/// What a packet says of an update, if it says something of it.
pub(crate) fn event_in(packet: &[u8]) -> Option<Event>
    ensures { result ≡ event_of (packet_of U128 packet.now) }
{
    let Ok(packet) = mctp_wire::decode(Unit::U128, packet) else {
        return None;
    };
    let Ok((head, fields)) = pldm_base::decode(packet.body) else {
        return None;
    };
    if head.pldm_type != TYPE_FIRMWARE_UPDATE {
        return None;
    }
    if head.rq {
        return requested(packet.head, head.command, fields);
    }
    if head.command == command::ACTIVATE_FIRMWARE && is_success(fields) {
        return Some(Event::Activates(packet.head.source));
    }
    None
}

impl Load {
    /// The number of the image's bytes that are requested. The padding of the last request doesn't
    /// count.
    pub(crate) fn loaded(self) -> u32
        ensures { result ≡ loaded self }
    {
        self.asked.min(self.size)
    }
}

/// Appends which image a device loads, and how far.
///
/// # Errors
/// `AllocError` if memory is refused.
pub(crate) fn push_load(alloc: Global, text: &mut Vec<u8>, load: &Load) -> Result<(), AllocError>
    ensures { OnOk result (AppendsText text.old.items text.new.items (load_text load.now)) }
{
    push_number(alloc, text, "device ", usize::from(load.device))?;
    push_number(
        alloc,
        text,
        " component ",
        usize::from(load.key.classification),
    )?;
    push_number(alloc, text, " ", usize::from(load.key.identifier))?;
    push_number(alloc, text, ": ", load.loaded() as usize)?;
    push_number(alloc, text, " of ", load.size as usize)?;
    push_words(text, " bytes")?;
    Ok(())
}
