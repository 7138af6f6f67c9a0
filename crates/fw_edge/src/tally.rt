//! The counts of a link.

ghost use Rattle.std.specs.Prelude.{◌≡◌, false, true};
ghost use Rattle.fw_edge.specs.Links.{AsksForFrame, FailsCall, SendsPacket};

/// The counts of a link's calls so far. Each count stops at 2^64 - 1.
#[derive(Clone, Copy, PartialEq, Eq)]
pub struct Tally {
    /// Calls that failed.
    pub failures: u64,
    /// Packets taken.
    pub sent: u64,
    /// Calls that asked for a frame and didn't fail.
    pub asked: u64,
    /// Frames given.
    pub given: u64,
}

impl Tally {
    /// Creates counts of 0.
    pub fn new() -> Tally
        ensures failures { result.failures ≡ 0 }
        ensures sent { result.sent ≡ 0 }
        ensures asked { result.asked ≡ 0 }
        ensures given { result.given ≡ 0 }
    {
        Tally {
            failures: 0,
            sent: 0,
            asked: 0,
            given: 0,
        }
    }

    /// Counts a failed call.
    pub fn fail(&mut self)
        ensures { FailsCall self.old self.new }
    {
        self.failures = self.failures.saturating_add(1);
    }

    /// Counts a taken packet.
    pub fn send(&mut self)
        ensures { SendsPacket self.old self.new }
    {
        self.sent = self.sent.saturating_add(1);
    }

    /// Counts a call that asked for a frame, and whether one was given.
    pub fn ask(&mut self, gave: bool)
        ensures { AsksForFrame gave self.old self.new }
    {
        self.asked = self.asked.saturating_add(1);
        if gave {
            self.given = self.given.saturating_add(1);
        }
    }
}
