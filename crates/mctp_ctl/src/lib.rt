//! MCTP's control messages (DSP0236, section 12), answered by an endpoint.
#![tactic(auto)]

mod answers;
mod codes;

pub use answers::{ControlAnswer, Endpoint, answer};
pub use codes::{CONTROL, ControlCommand};
