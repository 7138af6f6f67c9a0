//! The nodes of a firmware update (DSP0267 1.0): the update agent and a firmware device, as state
//! machines of packets (DSP0236) and ticks. Each call of a node is one step: it handles a packet, a
//! tick, a call of its user, or a restart.
#![tactic(auto)]

mod agent_node;
mod cores;
mod device_node;
mod ends;
mod half;
mod identity;
mod incoming;
mod laws;
mod notes;
mod noting;
mod outbox;
mod resuming;
mod sending;

pub use agent_node::AgentNode;
pub use device_node::DeviceNode;
pub use laws::{bank_calls_decide, restarts_keep_no_more};
pub use outbox::Outbox;
pub use resuming::KeptSession;
