//! The firmware update messages of PLDM (DSP0267 1.0, PLDM type 5): commands and their answers,
//! read and written exactly. Reading borrows texts and data from the message and copies none.
#![tactic(auto)]

mod answer;
mod answer_reading;
mod answer_writing;
pub mod code;
mod command;
mod command_reading;
mod command_writing;
mod cursor;
mod descriptor_list;
mod descriptors;
mod laws;
mod parameter_list;
mod parameters;
mod transfers;
mod values;
mod writer;

pub use answer::{Answer, Malformed, OfferResponse, Status, TableResponse};
pub use answer_reading::read_answer;
pub use answer_writing::write_answer;
pub use command::{Command, ComponentOffer, TableEntry, UpdateRequest, is_asked_of_agent};
pub use command_reading::read;
pub use command_writing::write;
pub use descriptor_list::DescriptorList;
pub use descriptors::DeviceDescriptors;
pub use laws::{
    answers_read_back, command_codes, commands_read_back, completion_codes, response_codes,
    text_types,
};
pub use parameter_list::ParameterList;
pub use parameters::Parameters;
pub use transfers::{MAX_TRANSFER, MIN_TRANSFER, transfer_size};
pub use values::{
    ComponentParameters, DeviceDescriptor, Key, NO_STAMP, TransferFlag, TypedText, Version,
};
