//! Why bytes are no packet.

use thiserror::Error;

/// Why bytes are no packet: the first fault in this order.
#[derive(Clone, Copy, Debug, PartialEq, Eq, Error)]
pub enum WireFault {
    /// Fewer bytes than a head has.
    #[error("Short")]
    Short,
    /// The header version isn't 1.
    #[error("Version")]
    Version,
    /// A head alone: the body has no byte.
    #[error("Empty")]
    Empty,
    /// A body of more bytes than the transmission unit.
    #[error("TooLong")]
    TooLong,
}
