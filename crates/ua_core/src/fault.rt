//! Why a call of a session is refused.

use thiserror::Error;

/// Why a session doesn't start: the first fault in this order.
#[derive(Clone, Copy, Debug, PartialEq, Eq, Error)]
pub enum StartFault {
    /// An update is in progress.
    #[error("Busy")]
    Busy,
    /// Memory could not be allocated.
    #[error("Memory")]
    Memory,
}

/// Not every component is applied and recorded, or there is nothing to activate.
#[derive(Clone, Copy, Debug, PartialEq, Eq, Error)]
#[error("NotReady")]
pub struct NotReady;
