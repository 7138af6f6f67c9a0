//! One lane: the requests of one node to another and their replies, over packets (DSP0236) that are
//! lost, repeated, reordered and late, with the exchanges of PLDM messages (DSP0240) at both ends.
#![tactic(auto)]

mod clock;
mod entry;
mod journal;
mod lane;
mod laws;
mod replay;
mod step;

pub use clock::{UNMISSED, may_beat, since_after};
pub use entry::LaneEntry;
pub use journal::SentPacket;
pub use lane::Lane;
pub use laws::{lane_is_a_cell, time_adds_up};
pub use replay::lane_replay;
pub use step::{End, LaneFault, LaneStep};
