//! A node of a firmware update by itself: a device or the update agent, as a server of lines. Each
//! line is a call of the node, and what it prints is what the node sends.
#![tactic(auto)]

mod agent;
mod agent_filter;
mod agent_process;
mod counts;
mod device;
mod device_filter;
mod device_process;
mod fronts;
mod lines;
mod noting;
mod printing_laws;
mod process_laws;
mod texts;

pub use agent::{CallFault, ServedAgent};
pub use agent_filter::AgentFilter;
pub use agent_process::{AgentProcess, serve_agent_process};
pub use device::ServedDevice;
pub use device_filter::DeviceFilter;
pub use device_process::DeviceProcess;
pub use fronts::{FilterOptions, Front};
pub use lines::{AgentLine, DeviceLine, read_agent_line, read_device_line};
pub use printing_laws::parts_are_printed;
pub use process_laws::{
    agents_act, devices_act, lives_act, lives_are_safe, rounds_are_timely,
    served_processes_are_safe, services_act, started_anew_is_absence,
};
pub use texts::LineRefusal;
