//! The jobs of the program: answers, inspections, plans, replays, updates over links, and soaks,
//! and the program that performs what its arguments request.
#![tactic(auto)]

mod building;
mod checking;
mod choosing;
mod inspecting;
mod jobs;
mod numbering;
mod planning;
mod process_files;
mod program;
mod read_ahead;
mod recording_laws;
mod replaying;
mod soak_progress;
mod soaking;
mod socket_names;
mod sockets;
mod statuses;
mod system_wiring;
mod telling;
mod updating;
mod words;
mod write_behind;

pub use building::{build_file, build_printed, build_told};
pub use checking::update_checked;
pub use fw_store::Durable;
pub use fwupd_base::{
    AgentAlone, AgentProcess, ConfigSource, DeviceAlone, DeviceProcess, ImageFile, ImageFiles,
    Serving, Show, TraceForm, Watching, Wire,
};
pub use fwupd_nodes::{
    Host, Joined, Network, Parts, Undone, Wires, Wiring, agent_file, answer_serial, decode_file,
    device_file, run_agent, run_device,
};
pub use fwupd_traces::{PacketObserver, PacketTrace};
pub use fwupd_watch::{
    Beginning, FileCalls, FileFault, FileIdentity, Files, HistoryFile, JobFault, Observer,
    ObserverFault, Output, OutputPlaces, Recording, WholeFiles, texts_are_lines,
};
pub use fwupd_words::{Job, Order, Plan, Replay, Soak, SoakOrder, Status, Update, parse};
pub use inspecting::{digest_file, inspect_file, inspection_fault};
pub use jobs::perform_job;
pub use planning::plan_file;
pub use program::perform;
pub use recording_laws::records_replay;
pub use replaying::replay_files;
pub use soaking::soak_file;
pub use statuses::status_file;
pub use telling::{names_causes, sel_file};
pub use updating::update_files;
