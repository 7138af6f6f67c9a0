//! Banks whose images persist: images are kept in a store before they become active.
#![tactic(auto)]

mod agent_putting;
mod agent_reading;
mod agent_writing;
mod bank;
mod calls;
mod durable;
mod entry;
mod faults;
mod folder;
mod folder_store;
mod kept_line;
mod known;
mod known_calls;
mod laws;
mod lines;
mod looking;
mod memory;
mod opening;
mod putting;
mod reading;
mod store;
mod sweeping;
mod synced;
mod system;
mod system_folder;
mod writing;

pub use agent_putting::{agent_in, put_agent};
pub use agent_reading::read_agent;
pub use agent_writing::agent_text;
pub use bank::KeptBank;
pub use calls::FolderCalls;
pub use durable::Durable;
pub use entry::ImageEntry;
pub use faults::OpenFault;
pub use folder::{Folder, FolderFault, RenameFault};
pub use folder_store::FolderStore;
pub use kept_line::KeptLine;
pub use known::{Failing, KnownFolder};
pub use known_calls::{KnownCalls, KnownFile};
pub use laws::{
    active_reads_back, agent_text_reads_back, no_other_agent_text_reads, nothing_else_reads,
    renamings_are_judged, what_is_kept_is_found,
};
pub use looking::read_store;
pub use memory::{MemStore, Stored};
pub use opening::open_store;
pub use reading::read_active;
pub use store::{Kept, Store, StoreFault};
pub use synced::SyncedFolder;
pub use system_folder::SystemFolder;
pub use writing::{active_text, image_name};
