//! Many runs of an update over rough links, each checked against the packages.
#![tactic(auto)]

mod chances;
mod checker;
mod counts;
mod course;
mod decisions;
mod naming;
mod setup;
mod soaking;
mod summary;
mod traffic;
mod turns;

pub use checker::{is_clean, is_right_history};
pub use setup::Setup;
pub use soaking::{SoakObserver, Soaked, soak};
pub use summary::{Summary, summary_in};
