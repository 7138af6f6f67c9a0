//! The commands of firmware update.

ghost use Rattle.std.specs.Prelude.{IsTrue, ◌↔◌, ◌≡◌};
ghost use Rattle.fwup_wire.specs.Lent.{command_of};
ghost use Rattle.fwup_wire.specs.Commands.{IsWritable, command_code, is_asked_of_agent};
ghost use Rattle.fwup_wire.specs.Same.{same_command};

use crate::code::command;
use crate::values::{Key, TransferFlag, TypedText, Version};

/// The most bytes of request data: the bytes of a message at the smallest transmission unit, so
/// that a command can be sent over each network (DSP0236, section 8.3).
pub const MAX_FIELDS: usize = 252;

/// The request data of RequestUpdate without its text's bytes.
const REQUEST_SIZE: usize = 11;

/// The request data of PassComponentTable without its text's bytes.
const ENTRY_SIZE: usize = 12;

/// The request data of UpdateComponent without its text's bytes.
const OFFER_SIZE: usize = 19;

/// The request data of RequestUpdate.
#[derive(Clone, Copy, PartialEq, Eq)]
pub struct UpdateRequest<'a> {
    /// The most bytes that the agent sends in answer to one RequestFirmwareData.
    pub transfer_size: u32,
    /// The number of components of the update.
    pub components: u16,
    /// The most RequestFirmwareData that may be outstanding at once.
    pub outstanding: u8,
    /// The bytes of package data that the device may request.
    pub package_data_length: u16,
    /// The version text of the whole component image set.
    pub image_set: TypedText<'a>,
}

/// The request data of PassComponentTable, about one component.
#[derive(Clone, Copy, PartialEq, Eq)]
pub struct TableEntry<'a> {
    /// The place of the entry in the table.
    pub flag: TransferFlag,
    /// The component.
    pub key: Key,
    /// The index among several components of this classification in the device.
    pub index: u8,
    /// The new image's version.
    pub version: Version<'a>,
}

/// The request data of UpdateComponent, about the component to update.
#[derive(Clone, Copy, PartialEq, Eq)]
pub struct ComponentOffer<'a> {
    /// The component.
    pub key: Key,
    /// The index among several components of this classification in the device.
    pub index: u8,
    /// The new image's version.
    pub version: Version<'a>,
    /// The new image's size in bytes.
    pub size: u32,
    /// Update even if the comparison stamp is equal or lower: bit 0 of the update option flags,
    /// whose other bits are reserved.
    pub force: bool,
}

/// A command with its request data (DSP0267 1.0), its texts borrowed.
#[derive(Clone, Copy, PartialEq, Eq)]
pub enum Command<'a> {
    /// Requests the device's descriptors.
    QueryDeviceIdentifiers,
    /// Requests the device's components, and the versions of their images.
    GetFirmwareParameters,
    /// Begins an update.
    RequestUpdate(UpdateRequest<'a>),
    /// Passes this component of the update.
    PassComponentTable(TableEntry<'a>),
    /// Updates this component now.
    UpdateComponent(ComponentOffer<'a>),
    /// The device requests `length` bytes of the image from `offset` on.
    RequestFirmwareData {
        /// The first requested byte.
        offset: u32,
        /// The number of requested bytes.
        length: u32,
    },
    /// The device reports the result of the transfer.
    TransferComplete {
        /// 0 for success.
        result: u8,
    },
    /// The device reports the result of the verification.
    VerifyComplete {
        /// 0 for success.
        result: u8,
    },
    /// The device reports the result of the application.
    ApplyComplete {
        /// 0 for success.
        result: u8,
        /// The activation methods, if they differ from those in the device's parameters.
        methods: u16,
    },
    /// Makes the applied images active.
    ActivateFirmware {
        /// Whether self-contained components are to be activated at once.
        self_contained: bool,
    },
    /// Requests the device's state.
    GetStatus,
    /// Ends the update of the component.
    CancelUpdateComponent,
    /// Ends the update.
    CancelUpdate,
}

impl Command<'_> {
    /// Returns whether two commands are equal, with all their fields. It is `==` with a clause that
    /// uses the definitions.
    #[tactic(auto, unfolding(crate::specs::Same::same_command))]
    pub fn is_same(&self, other: &Command<'_>) -> bool
        ensures { result ≡ same_command (command_of self.now) (command_of other.now) }
    {
        self == other
    }

    /// Returns the command's byte in a message's head.
    pub fn code(&self) -> u8
        ensures { result ≡ command_code (command_of self.now) }
    {
        match self {
            Command::QueryDeviceIdentifiers => command::QUERY_DEVICE_IDENTIFIERS,
            Command::GetFirmwareParameters => command::GET_FIRMWARE_PARAMETERS,
            Command::RequestUpdate(_) => command::REQUEST_UPDATE,
            Command::PassComponentTable(_) => command::PASS_COMPONENT_TABLE,
            Command::UpdateComponent(_) => command::UPDATE_COMPONENT,
            Command::RequestFirmwareData { .. } => command::REQUEST_FIRMWARE_DATA,
            Command::TransferComplete { .. } => command::TRANSFER_COMPLETE,
            Command::VerifyComplete { .. } => command::VERIFY_COMPLETE,
            Command::ApplyComplete { .. } => command::APPLY_COMPLETE,
            Command::ActivateFirmware { .. } => command::ACTIVATE_FIRMWARE,
            Command::GetStatus => command::GET_STATUS,
            Command::CancelUpdateComponent => command::CANCEL_UPDATE_COMPONENT,
            Command::CancelUpdate => command::CANCEL_UPDATE,
        }
    }

    /// Returns whether the request data fit a message of each network, so that `write` accepts the
    /// command. Only a long text can exceed it.
    pub fn is_writable(&self) -> bool
        ensures { IsTrue result ↔ IsWritable (command_of self.now) }
    {
        match self {
            Command::RequestUpdate(request) => {
                REQUEST_SIZE + request.image_set.bytes.len() <= MAX_FIELDS
            }
            Command::PassComponentTable(entry) => {
                ENTRY_SIZE + entry.version.text.bytes.len() <= MAX_FIELDS
            }
            Command::UpdateComponent(offer) => {
                OFFER_SIZE + offer.version.text.bytes.len() <= MAX_FIELDS
            }
            _ => true,
        }
    }
}

/// Returns whether a command goes from a device to its agent. The others go from the agent to a
/// device. Each end answers commands of the other kind with `ERROR_UNSUPPORTED_PLDM_CMD`, whatever
/// their request data.
pub fn is_asked_of_agent(code: u8) -> bool
    ensures { result ≡ is_asked_of_agent code }
{
    code >= command::REQUEST_FIRMWARE_DATA && code <= command::APPLY_COMPLETE
}
