//! The steps of a world over whole messages, and the causes of a refusal.

ghost use Rattle.std.specs.Prelude.{◌≡◌};
ghost use Rattle.fw_message.specs.Worlds.{device_of, restarts_agent};

use crate::side::{Side, Way};
use fd_core::Verdict;
use thiserror::Error;

/// A step of a world over whole messages. Devices are named by their endpoint identifiers, packages
/// by their numbers from 1.
#[derive(Clone, Copy, PartialEq, Eq)]
pub enum MessageStep {
    /// Puts the asker's pending command into its empty cell.
    Ask(u8, Way),
    /// Answers the command in a cell. The flag is a device's `quiet`, which may be true only if its
    /// own cell is empty; a session ignores it.
    Take(u8, Way, bool),
    /// The asker learns the answer in a cell, which is then empty.
    Learn(u8, Way),
    /// The asker no longer waits. A session handles that there was no answer.
    GiveUp(u8, Way),
    /// Empties a cell that nobody waits for.
    Drop(u8, Way),
    /// The operator starts an update of a device with a package.
    Start(u8, usize),
    /// The operator cancels the update of a device.
    Cancel(u8),
    /// The operator has a device activate the images that it applied.
    Activate(u8),
    /// A verdict on the image that a device has written.
    Verdict(u8, Verdict),
    /// The wait of a device's session, or of the device, times out.
    TimeOut(u8, Side),
    /// Restarts the agent or a device.
    Restart(u8),
}

impl MessageStep {
    /// Returns the device of the step. A restart names a node, which may be the agent.
    pub(crate) fn device(&self) -> u8
        ensures { result ≡ device_of self.now }
    {
        match *self {
            MessageStep::Ask(device, _)
            | MessageStep::Take(device, _, _)
            | MessageStep::Learn(device, _)
            | MessageStep::GiveUp(device, _)
            | MessageStep::Drop(device, _)
            | MessageStep::Start(device, _)
            | MessageStep::Cancel(device)
            | MessageStep::Activate(device)
            | MessageStep::Verdict(device, _)
            | MessageStep::TimeOut(device, _)
            | MessageStep::Restart(device) => device,
        }
    }

    /// Whether the step restarts the agent, which has this identifier.
    pub(crate) fn restarts(&self, agent: u8) -> bool
        ensures { result ≡ restarts_agent agent self.now }
    {
        match *self {
            MessageStep::Restart(node) => node == agent,
            _ => false,
        }
    }
}

/// The reason why a step isn't taken. The world is unchanged then.
#[derive(Clone, Copy, Debug, PartialEq, Eq, Error)]
pub enum MessageStepFault {
    /// There is no such node. The agent is none if the step needs a device.
    #[error("NoSuchNode")]
    NoSuchNode,
    /// It isn't time for such a step.
    #[error("NotNow")]
    NotNow,
    /// The operator's call or the verdict is refused.
    #[error("Refused")]
    Refused,
    /// Memory was refused.
    #[error("Memory")]
    Memory,
}
