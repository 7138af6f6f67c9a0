//! A device and the agent as servers of lines.

mod agent_lines;
mod device_lines;
mod joined;
mod keepers;
mod open_lines;
mod serial_lines;
mod setup;
mod streams;
