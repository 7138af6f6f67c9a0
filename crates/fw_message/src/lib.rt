//! The world of an update agent and its devices (DSP0267 1.0): their steps over whole messages, and
//! the laws of every image that a device activates and of every component that the agent records as
//! applied.
#![tactic(auto)]

mod cell;
mod entry;
mod images;
mod laws;
mod lending;
mod messages;
mod pair;
mod replay;
mod side;
mod step;
mod verdicts;

pub use cell::CellContent;
pub use entry::{Entry, HistoryEvent, Image};
pub use images::applied_images;
pub use laws::{
    bank_calls_decide, histories_are_judged, message_worlds_are_judged, messages_are_safe,
    runs_stay_tied, worlds_are_safe,
};
pub use messages::MessageWorld;
pub use replay::message_replay;
pub use side::{Side, Way};
pub use step::{MessageStep, MessageStepFault};
pub use verdicts::{awaits, copied, has_failed, room_for};
