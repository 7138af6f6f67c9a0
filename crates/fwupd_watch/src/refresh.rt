//! When a display on a terminal is due for an update.

ghost use Rattle.std.specs.Prelude.{◌≡◌, None, Some, is_some, option_map};
ghost use Rattle.std.specs.Time.{instant_nanos};
ghost use Rattle.fwupd_watch.specs.Refreshes.{is_due, update_due};

use std::time::{Duration, Instant};

/// The least time between two updates of a display, in milliseconds.
const PAUSE: u64 = 100;

/// Whether a display that was shown last at `shown`, if it was, is due for an update at `now`.
fn is_due(shown: Option<Instant>, now: Instant) -> bool
    ensures { result ≡ is_due (option_map instant_nanos shown) (instant_nanos now) }
{
    match shown {
        Some(shown) => now.duration_since(shown) >= Duration::from_millis(PAUSE),
        None => true,
    }
}

/// The time of a display's last update. A display is updated at most ten times a second.
#[derive(Clone, Copy)]
pub struct Refresh {
    /// `None` if nothing is shown.
    shown: Option<Instant>,
}

impl Refresh {
    /// Creates the refresh of a display that shows nothing yet.
    pub fn new() -> Refresh
        ensures { result.shown ≡ None }
    {
        Refresh { shown: None }
    }

    /// Returns whether something is shown.
    pub fn is_shown(&self) -> bool
        ensures { result ≡ is_some self.now.shown }
    {
        self.shown.is_some()
    }

    /// Returns the time `now`, if the display is due for an update then. `None` also if `now` is,
    /// since the clock couldn't be read.
    pub fn due(&self, now: Option<Instant>) -> Option<Instant>
        ensures { result ≡ update_due self.now.shown now }
    {
        match now {
            Some(now) if is_due(self.shown, now) => Some(now),
            _ => None,
        }
    }

    /// Notes that the display is updated at a time.
    pub fn note(&mut self, now: Instant)
        ensures { self.new.shown ≡ Some now }
    {
        self.shown = Some(now);
    }

    /// Notes that nothing is shown any more. Returns whether something was.
    pub fn take(&mut self) -> bool
        ensures was { result ≡ is_some self.old.shown }
        ensures none { self.new.shown ≡ None }
    {
        self.shown.take().is_some()
    }
}
