//! The steps of the packet world, and the causes of a refusal.

use arrayvec::ArrayVec;
use fd_core::Verdict;

/// The nodes that miss a tick, by their endpoint identifiers: the agent and up to 16 devices. A
/// node that is listed twice misses it once.
pub type Missed = ArrayVec<u8, 17>;

/// The bytes of a request to the event log (IPMI 2.0, section 31): its command, then its data.
pub type LogRequest = ArrayVec<u8, 64>;

/// A step of the packet world. Nodes are named by their endpoint identifiers, a device's packets by
/// that of the device, and packages and packets by their numbers from 1.
#[derive(PartialEq, Eq, Drop)]
pub enum Step {
    /// Delivers a packet that was sent between the agent and a device to a node: the device, the
    /// packet's number, the node.
    Deliver(u8, usize, u8),
    /// A unit of time passes. All nodes but these count it as a tick.
    Tick(Missed),
    /// The operator starts an update of a device with a package.
    Start(u8, usize),
    /// The operator cancels the update of a device.
    Cancel(u8),
    /// The operator has a device activate the images that it applied.
    Activate(u8),
    /// A verdict on the image that a device has written.
    Verdict(u8, Verdict),
    /// Restarts the agent or a device.
    Restart(u8),
    /// A request to the event log.
    Sel(LogRequest),
}

/// The reason why a step of the operator, of a device's surroundings or of the clock is refused.
#[derive(Clone, Copy, Debug, PartialEq, Eq)]
pub enum Refusal {
    /// An update of the device is in progress.
    Busy,
    /// Not every component of the update is applied.
    NotReady,
    /// The device doesn't wait for this verdict.
    NotNow,
    /// There is no package of this number.
    NoSuchPackage,
    /// The clock is at its last unit.
    ClockEnd,
    /// A node that misses this tick has counted fewer than 8 since the last one it missed.
    ClockSlow,
}

/// The reason why a step isn't taken. The world is unchanged then.
#[derive(Clone, Copy, Debug, PartialEq, Eq)]
pub enum StepFault {
    /// No packet of this number was sent between the agent and the device.
    NoSuchPacket,
    /// The packet was sent more than 8 units of time ago.
    Dead,
    /// There is no such node. The agent is none if the step needs a device.
    NoSuchNode,
    /// The step is refused.
    Refused(Refusal),
    /// Memory was refused.
    Memory,
}
