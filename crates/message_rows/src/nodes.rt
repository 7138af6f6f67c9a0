//! Worked packets at a device's node and at the agent's, and updates by both. Each case is the
//! packets delivered, and the packets sent back or the event noted.

mod bench;
mod cases;
mod noise;
mod resuming;
mod setup;
mod updates;
