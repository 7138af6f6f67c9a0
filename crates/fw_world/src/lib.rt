//! Replays of the packet world: the state of an update agent and its devices (DSP0267 1.0) after a
//! list of steps, and the laws of every image that a device activates and of every component that
//! the agent records as applied.
#![tactic(auto)]

mod isolation;
mod replays;

pub use fw_steps::{
    CellContent, DatedPacket, Entry, HistoryEvent, Image, LogRequest, MessageStep,
    MessageStepFault, MessageWorld, Missed, Refusal, SentPackets, Side, Step, StepFault, Way,
    World, agreement_sees_the_pair, clocks_keep_time, devices_are_isolated, links_are_lanes,
    links_are_messages, message_replay, messages_are_safe, moments_are_tied, packets_are_messages,
    packets_are_safe, runs_are_promised, runs_stay_tied, worlds_are_safe,
};
pub use isolation::replay_two;
pub use replays::replay;
