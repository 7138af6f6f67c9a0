//! The outcome of a packet that an assembly takes.

use crate::messages::Message;
use thiserror::Error;

/// Why an assembly drops a packet (DSP0236, "Dropped packets").
#[derive(Clone, Copy, Debug, PartialEq, Eq, Error)]
pub enum DropCause {
    /// It continues a message, and none is open.
    #[error("NoStart")]
    NoStart,
    /// Its sequence number isn't the next.
    #[error("Sequence")]
    Sequence,
    /// It isn't the last of its message, and its body isn't a whole transmission unit.
    #[error("Unit")]
    Unit,
    /// It starts a message, and its sequence number isn't 0.
    #[error("StartNumber")]
    StartNumber,
    /// Four packets of its message came before it.
    #[error("FifthPacket")]
    FifthPacket,
}

/// The outcome of a packet that an assembly takes.
#[derive(PartialEq, Eq, Drop)]
pub enum Fed {
    /// The packet was taken, and its message isn't complete.
    Open,
    /// The packet ends this message.
    Whole(Message),
    /// The packet was dropped.
    Dropped(DropCause),
}

/// The outcome of a packet, as `Fed`, if a completed message is written elsewhere.
#[derive(Clone, Copy, Debug, PartialEq, Eq)]
pub enum Taken {
    /// The packet was taken, and its message isn't complete.
    Open,
    /// The packet ends a message, which was written.
    Whole,
    /// The packet was dropped.
    Dropped(DropCause),
}
