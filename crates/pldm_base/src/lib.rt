//! PLDM (DSP0240): the header of a message, completion codes, and a terminus' answers to the base
//! commands.
#![tactic(auto)]

mod base;
pub mod completion;
mod header;
mod laws;
mod terminus;

pub use base::{
    GET_PLDM_COMMANDS, GET_PLDM_TYPES, GET_TID, MAX_REPLY, Reply, SET_TID, answer_base, code_alone,
};
pub use header::{
    HEADER_SIZE, MESSAGE_TYPE, PldmFault, PldmHead, RawMessage, TYPE_BASE, TYPE_FIRMWARE_UPDATE,
    decode, encode,
};
pub use laws::{numbers, reads_back};
pub use terminus::{Role, Tid};
