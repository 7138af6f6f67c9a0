//! A state, and the count of idle ticks in it.

ghost use Rattle.std.specs.Prelude.{◌≡◌, ◌+◌, ◌<◌, ◌==◌};

use crate::state::SessionState;

/// The number of consecutive idle ticks after which a session gives up.
pub const IDLE_LIMIT: u8 = 240;

/// A state, and the count of idle ticks in it.
#[derive(Clone, Copy)]
pub struct Position {
    /// The state.
    pub state: SessionState,
    /// The idle ticks since the last change, fewer than `IDLE_LIMIT`.
    pub idle: u8,
}

impl Position {
    /// Returns a state with no idle ticks.
    pub fn new(state: SessionState) -> Position
        ensures { result ≡ record { state = state; idle = 0 } }
    {
        Position { state, idle: 0 }
    }

    /// Goes to a state, and sets the count of idle ticks to 0.
    pub fn go(&mut self, state: SessionState)
        ensures { self.new ≡ record { state = state; idle = 0 } }
    {
        *self = Position::new(state);
    }

    /// Sets the count of idle ticks to 0.
    pub fn stir(&mut self)
        ensures { self.new ≡ record { state = self.old.state; idle = 0 } }
    {
        self.idle = 0;
    }
}
