//! The world of an update agent and its devices (DSP0267 1.0): their steps, and the laws of every
//! image that a device activates and of every component that the agent records as applied.
#![tactic(auto)]

mod dead;
mod fault;
mod fitting;
mod headline;
mod isolation;
mod links;
mod packets;
mod processes;
mod recorded;
mod site;
mod sites;
mod state;
mod step;
mod ticks;
mod trials;
mod world;

pub use fw_message::{
    CellContent, Entry, HistoryEvent, Image, MessageStep, MessageStepFault, MessageWorld, Side,
    Way, message_replay, messages_are_safe, runs_stay_tied, worlds_are_safe,
};
pub use headline::{
    clocks_keep_time, moments_are_tied, packets_are_messages, packets_are_safe, runs_are_promised,
};
pub use isolation::{agreement_sees_the_pair, counts_need_calls, devices_are_isolated};
pub use links::{links_are_lanes, links_are_messages, messages_round_trip};
pub use packets::{DatedPacket, SentPackets};
pub use processes::{
    absences_are_deeds, nodes_are_alone, packets_are_theirs, plays_are_runs, plays_are_safe,
    processes_are_safe, traces_are_cut, traces_are_plays, traces_are_safe,
};
pub use recorded::deliver_and_record;
pub use step::{LogRequest, Missed, Refusal, Step, StepFault};
pub use trials::{bank_calls_are_judged, steps_are_judged, worlds_are_judged};
pub use world::World;
