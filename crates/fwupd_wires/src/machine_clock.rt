//! The monotonic clock of the machine, in units.

use fw_process::Clock;
use std::thread;
use std::time::{Clock as SystemClock, Duration};

/// How often a wait is begun again, at most.
const MOST_WAITS: u32 = 1 << 20;

/// The monotonic clock of the machine: all its processes see the same one. A unit is a number of
/// milliseconds.
#[derive(Drop)]
pub struct MachineClock<'a> {
    rt: &'a HostRuntime,
    tick: u32,
}

impl<'a> MachineClock<'a> {
    /// Creates the clock; a unit is `tick` milliseconds, at least 1.
    pub fn new(rt: &'a HostRuntime, tick: u32) -> MachineClock<'a> {
        MachineClock {
            rt,
            tick: tick.max(1),
        }
    }

    /// The milliseconds that the clock shows. `None` if it can't be read.
    fn milliseconds(&self) -> Option<u64> {
        let Ok(time) = self.rt.monotonic() else {
            return None;
        };
        Some(u64::try_from(time.as_millis()).unwrap_or(u64::MAX))
    }

    /// The unit that the clock shows, or 0 if it can't be read, or is past its end, 2^32 - 1.
    pub fn unit(&self) -> u32 {
        let shown = self
            .milliseconds()
            .unwrap_or(0)
            .checked_div(u64::from(self.tick))
            .unwrap_or(0);
        u32::try_from(shown).unwrap_or(0)
    }
}

impl<'a> Clock for MachineClock<'a> {
    fn wait_past(&mut self, unit: u32) -> u32 {
        let tick = u64::from(self.tick);
        let next = (u64::from(unit) + 1) * tick;
        for _ in 0..MOST_WAITS {
            let now = self.milliseconds().unwrap_or(next);
            if now >= next {
                return u32::try_from(now.checked_div(tick).unwrap_or(next))
                    .unwrap_or(u32::MAX)
                    .max(unit + 1);
            }
            thread::sleep(self.rt, Duration::from_millis(next - now));
        }
        unit + 1
    }
}
