//! What the jobs of the program run on, and the jobs of single nodes: answers, decoded packets, and
//! a device or the agent by itself, as a filter of lines or as a process.
#![tactic(auto)]

mod agent_serving;
mod agent_stores;
mod alone;
mod answering;
mod decoding;
mod device_serving;
mod host;
mod images;
mod outputs;
mod sessions;
mod setups;
mod wires;
mod wiring;

pub use agent_serving::run_agent;
pub use agent_stores::{AgentSetup, open_agent};
pub use alone::{DeviceSetup, agent_file, device_file, device_setup, eids_of};
pub use answering::answer_serial;
pub use decoding::decode_file;
pub use device_serving::run_device;
pub use host::{Host, HostView, Parts};
pub use images::configured;
pub use outputs::{ProcessOutputs, check_outputs};
pub use sessions::{Undone, undone_in};
pub use setups::{
    open_kept, package_files, packages_in, read_fault, read_kept, schedule, text_fault,
};
pub use wires::Wires;
pub use wiring::{Joined, Network, Observed, Wiring, end_of, observe};
