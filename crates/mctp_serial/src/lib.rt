//! The serial binding of MCTP (DSP0253): packets as frames on a byte stream, and out of one.
#![tactic(auto)]

mod check;
mod laws;
mod reader;
mod stage;
mod writer;

pub use laws::{
    check_sequence_is_published, frames_are_read_back, frames_are_unique, recovers_after_noise,
    what_is_given_was_framed,
};
pub use reader::Reader;
pub use writer::{FRAME_MAX, SerialFrame, write};
