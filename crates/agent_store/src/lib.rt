//! What the update agent keeps over a restart, in a folder: the records of its sessions, its event
//! log, and which packages the records name.
#![tactic(auto)]

mod change_keeper;
mod folder_keeper;
mod keeper;
mod laws;
mod packages;
mod resuming;
mod writing;

pub use change_keeper::ChangeKeeper;
pub use folder_keeper::FolderKeeper;
pub use keeper::{AgentKeeper, KeepFault, NoKeeper};
pub use laws::what_is_kept_is_resumed;
pub use packages::{ClaimFault, claim_packages, packages_text};
pub use resuming::resumed_agent;
pub use writing::agent_lines;
