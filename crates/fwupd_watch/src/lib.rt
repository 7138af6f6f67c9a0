//! The observers of a run over links, the run that they observe, turn by turn, and the files and
//! the output of a job.
#![tactic(auto)]

mod apart;
mod beginnings;
mod beside;
mod faults;
mod files;
mod history;
mod history_calls;
mod history_opening;
mod inputs;
mod loads;
mod logging;
mod output;
mod packet_progress;
mod path_calls;
mod places;
mod process_faults;
mod progress;
mod progress_text;
mod recording;
mod refresh;
mod running;
mod terminal;
mod tracing;
mod tracing_laws;
mod watching;

pub use apart::{begin_apart, check_apart};
pub use beginnings::Beginning;
pub use beside::{SystemCalls, system_places};
pub use faults::JobFault;
pub use files::{
    FileFault, FileIdentity, Files, SystemFiles, folder_and_name, is_one_path, is_over_read,
    is_same_file, is_special,
};
pub use history::HistoryFile;
pub use history_calls::HistoryCalls;
pub use history_opening::{history_path, open_history};
pub use inputs::Inputs;
pub use output::Output;
pub use packet_progress::PacketProgress;
pub use places::{FileCalls, OutputPlaces, WholeFiles, write_file};
pub use process_faults::process_fault;
pub use recording::Recording;
pub use refresh::Refresh;
pub use running::{Observer, ObserverFault, observer_fault, update_observed};
pub use terminal::{Explaining, Terminal, erase_line};
pub use tracing_laws::texts_are_lines;
pub use watching::Observers;
