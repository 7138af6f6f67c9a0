//! What joins a process to its peers on a machine: sockets in a folder, and a serial line; and the
//! machine's clock.
#![tactic(auto)]

mod agent_sockets;
mod connection;
mod device_sockets;
mod fronted_line;
mod machine_clock;
mod port;
mod serial_line;
mod wires;

pub use agent_sockets::AgentSockets;
pub use device_sockets::DeviceSockets;
pub use fronted_line::{Front, FrontedLine};
pub use machine_clock::MachineClock;
pub use port::Port;
pub use serial_line::SerialLine;
pub use wires::{AgentWire, DeviceWire};
