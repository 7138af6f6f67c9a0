//! The ticks that nodes count, computed by a counter of the tests.

use arrayvec::ArrayVec;
use fw_world::Missed;

/// The agent and its devices.
const NODES: [u8; 3] = [8, 9, 10];

/// A moment: the ticks that had passed, and those that a node had counted.
#[derive(Clone, Copy, Default)]
struct Moment {
    units: u32,
    ticks: u32,
}

/// A node's clock: its count so far, the moments before each tick that it missed, and the ticks
/// counted since the last of these, at most 8.
#[derive(Drop)]
struct Clock {
    now: Moment,
    misses: ArrayVec<Moment, 16>,
    since_miss: u32,
}

/// The nodes' clocks, and whether each has kept time.
#[derive(Drop)]
pub struct Clocks {
    clocks: [Clock; 3],
    pub keep_time: bool,
}

impl Clock {
    /// Creates a clock that has missed no tick.
    fn new() -> Clock {
        Clock {
            now: Moment { units: 0, ticks: 0 },
            misses: ArrayVec::new(),
            since_miss: 8,
        }
    }

    /// Passes a tick, which the node counts or misses. Returns whether it keeps time.
    fn pass(&mut self, counts: bool) -> bool {
        let before = self.now;
        self.now.units = before.units.saturating_add(1);
        if counts {
            self.now.ticks = before.ticks.saturating_add(1);
            self.since_miss = self.since_miss.saturating_add(1).min(8);
            return true;
        }
        self.since_miss = 0;
        if self.misses.is_full() {
            return false;
        }
        self.misses.push(before);
        self.keeps_time()
    }

    /// Whether the ticks passed are at most the ticks counted in them, an eighth of these and one,
    /// from each missed tick to the last one. It suffices to test these times: a tick that is
    /// counted before or after adds one on both sides.
    fn keeps_time(&self) -> bool {
        for first in self.misses.iter() {
            let ticks = self.now.ticks.saturating_sub(first.ticks);
            let units = self.now.units.saturating_sub(first.units);
            if units > ticks.saturating_add(ticks / 8).saturating_add(1) {
                return false;
            }
        }
        true
    }
}

impl Clocks {
    /// Creates clocks that have missed no tick.
    pub fn new() -> Clocks {
        Clocks {
            clocks: [Clock::new(), Clock::new(), Clock::new()],
            keep_time: true,
        }
    }

    /// Returns whether each of the listed nodes has counted eight ticks since it last missed one.
    pub fn may_miss(&self, missed: &[u8]) -> bool {
        for (node, clock) in NODES.iter().zip(self.clocks.iter()) {
            if missed.contains(node) && clock.since_miss < 8 {
                return false;
            }
        }
        true
    }

    /// Passes a tick, which the listed nodes miss.
    pub fn pass(&mut self, missed: &[u8]) {
        for (node, clock) in NODES.iter().zip(self.clocks.iter_mut()) {
            let keeps = clock.pass(!missed.contains(node));
            self.keep_time = self.keep_time && keeps;
        }
    }
}

/// Returns the nodes as the argument of a tick.
pub fn missed_by(nodes: &[u8]) -> Missed {
    let mut missed = Missed::new();
    let _ = missed.try_extend_from_slice(nodes);
    missed
}
