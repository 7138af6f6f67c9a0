//! The answers to the commands of firmware update.

ghost use Rattle.std.specs.Prelude.{IsTrue, ◌↔◌, ◌≡◌};
ghost use Rattle.fwup_wire.specs.Answers.{IsAnswerWritable, answer_code};
ghost use Rattle.fwup_wire.specs.Lent.{answer_of};

use crate::descriptors::DeviceDescriptors;
use crate::parameters::Parameters;
use pldm_base::MAX_REPLY;
use pldm_base::completion::SUCCESS;
use thiserror::Error;

/// The answer to QueryDeviceIdentifiers without its descriptors.
const IDENTIFIERS_SIZE: usize = 6;

/// The answer to GetFirmwareParameters without its components.
const PARAMETERS_SIZE: usize = 11;

/// A device's response about a component of the update, in answer to PassComponentTable.
#[derive(Clone, Copy, PartialEq, Eq)]
pub struct TableResponse {
    /// Whether the component can be updated, as `code::response`.
    pub response: u8,
    /// The reason or the restriction, as `code::response`.
    pub code: u8,
}

/// A device's response about the component to update, in answer to UpdateComponent.
#[derive(Clone, Copy, PartialEq, Eq)]
pub struct OfferResponse {
    /// Whether the component can be updated, as `code::response`.
    pub compatibility: u8,
    /// The reason, as `code::response`.
    pub code: u8,
    /// The device follows the force bit: bit 0 of the enabled update option flags, whose other bits
    /// are reserved.
    pub force: bool,
    /// Seconds until the device requests data.
    pub time: u16,
}

/// The progress of a device, in answer to GetStatus.
#[derive(Clone, Copy, PartialEq, Eq)]
pub struct Status {
    /// The device's state.
    pub state: u8,
    /// The state before the last change of state.
    pub previous: u8,
    /// The device's progress in its state.
    pub aux: u8,
    /// The result code of a failure in its state, otherwise 0.
    pub aux_status: u8,
    /// Hundredths that are done, or 0x65 if the device doesn't report progress.
    pub progress: u8,
    /// The reason why the device is idle.
    pub reason: u8,
    /// The device follows the force bit: bit 0 of the enabled update option flags, whose other bits
    /// are reserved.
    pub force: bool,
}

/// An answer (DSP0267 1.0), its texts and data borrowed. An answer with another code than `SUCCESS`
/// has no fields and is `Refused`, whatever the command; the others carry the fields after the
/// code.
#[derive(PartialEq, Eq, Drop)]
pub enum Answer<'a> {
    /// The command wasn't carried out.
    Refused {
        /// The completion code, which isn't `SUCCESS`.
        code: u8,
    },
    /// The device's descriptors.
    QueryDeviceIdentifiers(DeviceDescriptors<'a>),
    /// The device's components. It has no capability beyond this profile, and names no component
    /// image set.
    GetFirmwareParameters(Parameters<'a>),
    /// The update began. The device requests no package data and has no metadata.
    RequestUpdate,
    /// The device's response about the component.
    PassComponentTable(TableResponse),
    /// The device's response about the component.
    UpdateComponent(OfferResponse),
    /// The requested bytes of the image.
    RequestFirmwareData(&'a [u8]),
    /// The end of the transfer was noted.
    TransferComplete,
    /// The end of the verification was noted.
    VerifyComplete,
    /// The end of the application was noted.
    ApplyComplete,
    /// The applied images become active.
    ActivateFirmware {
        /// Seconds that the activation takes.
        time: u16,
    },
    /// The device's progress.
    GetStatus(Status),
    /// The update of the component ended.
    CancelUpdateComponent,
    /// The update ended, and every component works as before.
    CancelUpdate,
}

/// Bytes that are no answer to the command.
#[derive(Clone, Copy, Debug, PartialEq, Eq, Error)]
#[error("Malformed")]
pub struct Malformed;

impl Answer<'_> {
    /// Returns the completion code.
    pub fn code(&self) -> u8
        ensures { result ≡ answer_code (answer_of self.now) }
    {
        match self {
            Answer::Refused { code } => *code,
            _ => SUCCESS,
        }
    }

    /// Returns whether `write_answer` accepts the answer: it fits a message at the greatest
    /// transmission unit, and it is no refusal with the code of success.
    pub fn is_writable(&self) -> bool
        ensures { IsTrue result ↔ IsAnswerWritable (answer_of self.now) }
    {
        match self {
            Answer::Refused { code } => *code != SUCCESS,
            Answer::QueryDeviceIdentifiers(descriptors) => {
                IDENTIFIERS_SIZE + descriptors.as_bytes().len() <= MAX_REPLY
            }
            Answer::GetFirmwareParameters(components) => {
                PARAMETERS_SIZE + components.as_bytes().len() <= MAX_REPLY
            }
            Answer::RequestFirmwareData(bytes) => bytes.len() < MAX_REPLY,
            _ => true,
        }
    }
}
