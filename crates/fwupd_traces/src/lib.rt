//! What is written of a node's process while it runs: the trace of its packets, and the record of
//! its calls.
#![tactic(auto)]

mod node_record;
mod observed_line;
mod packet_lines;
mod packet_trace;
mod process_watch;

pub use node_record::{NodeRecord, Starts};
pub use observed_line::{ObservedLine, PacketObserver};
pub use packet_lines::{TracedNode, device_of_packet, is_to_agent, push_packet_line};
pub use packet_trace::{PacketTrace, trace_head};
pub use process_watch::{ProcessWatch, WatchFault};
