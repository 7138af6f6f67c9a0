//! The clock of a node that may miss ticks.

ghost use Rattle.std.specs.Prelude.{◌≡◌};
ghost use Rattle.exch_lane.specs.Clocks as clocks;

/// The greatest count of ticks since the last missed one. It is also the count of a node that has
/// missed none.
pub const UNMISSED: u8 = 8;

/// Returns whether a node may take this tick: it counts it, or it has counted 8 since the last one
/// that it missed. `since_miss` is at most 8.
pub fn may_beat(counts: bool, since_miss: u8) -> bool
    ensures { result ≡ clocks.may_beat counts since_miss }
{
    counts || since_miss == UNMISSED
}

/// Returns the ticks counted since the last missed one, at most 8, after a tick that is counted or
/// missed.
pub fn since_after(counts: bool, since_miss: u8) -> u8
    ensures { result ≡ clocks.since_after counts since_miss }
{
    if !counts {
        0
    } else if since_miss < UNMISSED {
        since_miss + 1
    } else {
        UNMISSED
    }
}
