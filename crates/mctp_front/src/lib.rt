//! Answers in front of a node (DSP0236, DSP0240): what discovery by other software requests, if a
//! node doesn't answer it, or answers it otherwise.
#![tactic(auto)]

mod control;
mod laws;
mod packets;
mod pldm;

pub use laws::passes_to_the_node;
pub use packets::front;
