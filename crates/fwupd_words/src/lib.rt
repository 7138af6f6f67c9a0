//! The command line: the subcommands with their options and help, and the job that arguments
//! request.
#![tactic(auto)]

mod asked;
mod choosing;
mod commands;
mod helps;
mod images;
mod nodes;
mod options;
mod packages;
mod reading;
mod values;

pub use asked::{BuildOutput, Job, Order, Plan, Replay, Soak, SoakOrder, Status, Update};
pub use reading::parse;
