//! The observable part of a session before and after a call.

use crate::state::SessionState;

/// The observable part of a session at a moment.
#[derive(Clone, Copy, PartialEq, Eq)]
pub struct Mark {
    /// The session's state.
    pub state: SessionState,
    /// The number of its records.
    pub records: usize,
}
