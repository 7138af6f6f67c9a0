//! The edge of a firmware update agent: packets (DSP0236) as frames over byte streams, links to
//! devices, and the run of a world over links. Every step of a run is one that the world allows.
#![tactic(auto)]

mod driving;
mod fates;
mod frame;
mod hearing;
mod link;
mod memory;
mod outgoing;
mod retries;
mod rough;
mod rough_laws;
mod rounds;
mod steps;
mod stream;
mod tally;

pub use driving::{Driven, EdgeFault, drive};
pub use fates::Fate;
pub use frame::{FrameFault, read_frame, write_frame};
pub use fwupd_base::HeldBack;
pub use hearing::heard;
pub use link::Link;
pub use memory::MemLink;
pub use rough::Rough;
pub use rough_laws::fates_are_within;
pub use stream::StreamLink;
pub use tally::Tally;
