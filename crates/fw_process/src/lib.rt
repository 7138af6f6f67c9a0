//! A node as a process of its own: it counts the units of a clock that it shares with its peers,
//! and receives packets that are stamped with the unit in which they were sent.
#![tactic(auto)]

mod frames;
mod process;
mod wire;

pub use frames::{FrameProgress, FrameReader, StampedFrame, frames_are_read_back, stamped_frame};
pub use process::{ProcessNode, serve_process};
pub use wire::{Clock, Line, send_all};
