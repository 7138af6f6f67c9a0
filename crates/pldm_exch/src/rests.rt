//! Rests of tags.

ghost use Rattle.std.specs.Prelude.{◌≡◌, ◌<◌, ◌==◌, get_or, slice_set};
ghost use Rattle.pldm_exch.specs.Rests.{AreRests, rests_after_tick, no_rests};

use crate::times::RETIRE;
use mctp_reasm::TAGS;
use std::marker::Model;

/// The ticks until each of the eight tags may be used again: 0 to 40.
#[derive(Drop)]
pub struct Rests {
    row: [u8; TAGS],
}

impl Model for Rests {
    ghost use Rattle.std.specs.Prelude.{List, ℕ};
    ghost use Rattle.pldm_exch.specs.Rests.{AreRests};

    ghost Value = { List ℕ };

    ghost view = { λ r. r.row };

    ghost invariant = { λ r. AreRests r.row };
}

impl Rests {
    /// Returns rests of 0: all tags may be used.
    #[tactic(auto, using(crate::proofs::Resting::rests))]
    pub fn new() -> Rests
        ensures { result ≡ no_rests }
    {
        Rests { row: [0; TAGS] }
    }

    /// Returns the rests, one for each tag.
    pub fn row(&self) -> &[u8; TAGS]
        ensures value { result.now ≡ self.now }
        ensures lawful { AreRests self.now }
    {
        &self.row
    }

    /// Starts the rest of a tag, which is used now.
    #[tactic(auto, using(crate::proofs::Resting::rests))]
    pub fn start(&mut self, tag: u8)
        requires tag { tag < 8 }
        ensures { self.new ≡ slice_set self.old tag 40 }
    {
        self.row[tag as usize] = RETIRE;
    }

    /// Counts a tick.
    #[tactic(auto, using(crate::proofs::Resting::rests))]
    pub fn tick(&mut self)
        ensures { self.new ≡ rests_after_tick self.old }
    {
        fall(self.row.as_mut_slice());
    }

    /// Returns whether a tag may be used.
    pub fn is_rested(&self, tag: u8) -> bool
        requires tag { tag < 8 }
        ensures value { result ≡ (get_or self.now tag 0 == 0) }
    {
        self.row[tag as usize] == 0
    }
}

/// Lowers each rest by one, down to 0.
fn fall(rests: &mut [u8])
    ensures { rests.new ≡ rests_after_tick rests.old }
{
    for rest in rests.iter_mut() {
        *rest = rest.saturating_sub(1);
    }
}
