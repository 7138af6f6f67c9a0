//! The sides of a pair, and the ways of its commands.

/// A side of a pair: the agent's session for a device, or the device.
#[derive(Clone, Copy, PartialEq, Eq)]
pub enum Side {
    /// The agent's session.
    Agent,
    /// The device.
    Device,
}

/// The way of commands in a pair. Their answers go the other way.
#[derive(Clone, Copy, PartialEq, Eq)]
pub enum Way {
    /// The agent asks the device.
    Down,
    /// The device asks the agent.
    Up,
}
