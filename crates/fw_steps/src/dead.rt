//! The dead packets of a device, which can't be received any more and aren't checked again.

ghost use Rattle.std.specs.Prelude.{◌≡◌, List};
ghost use Rattle.exch_lane.specs.Lanes.{Sent};
ghost use Rattle.fw_steps.specs.Dead.{AreDead, dead_count};

use crate::packets::SentPackets;

/// The number of first packets that are known to be dead.
#[derive(Drop)]
pub(crate) struct FirstDead {
    /// That number.
    count: usize,
    /// The units of time that had passed when it was found.
    since: u32,
}

impl FirstDead {
    /// Creates the count 0.
    pub(crate) fn new() -> FirstDead
        ensures { result ≡ record { count = 0; since = 0 } }
    {
        FirstDead { count: 0, since: 0 }
    }

    /// Returns the number of first packets known to be dead at `now`; 0 before the time when that
    /// was found.
    #[tactic(auto, using(crate::proofs::Aging::dead_later))]
    pub(crate) fn count_at(&self, now: u32) -> usize
        ensures { (packets : List Sent) → AreDead self.now.since self.now.count packets → AreDead now result packets }
    {
        if now < self.since {
            return 0;
        }
        self.count
    }

    /// Advances the count over the packets that are dead at `now`, up to the first that isn't.
    #[tactic(auto, using(crate::proofs::Aging::dead_later))]
    pub(crate) fn advance(&mut self, packets: &SentPackets<'_>, now: u32)
        requires { AreDead self.old.since self.old.count packets.now }
        ensures { AreDead self.new.since self.new.count packets.now }
    {
        if self.since < now {
            self.since = now;
        }
        self.count = first_dead(packets, self.since, self.count);
    }
}

/// Returns the number of first packets that are dead at `now`, of which `known` are known to be.
#[tactic(auto, using(crate::proofs::Aging::dead_more))]
pub(crate) fn first_dead(packets: &SentPackets<'_>, now: u32, known: usize) -> usize
    requires { AreDead now known packets.now }
    ensures dead { AreDead now result packets.now }
    ensures exact { result ≡ dead_count now packets.now }
{
    let mut count = known;
    while count < packets.len() && packets.is_dead(count, now) {
        count += 1;
    }
    count
}
