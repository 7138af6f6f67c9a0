//! What the random numbers of a run decide.

ghost use Rattle.std.specs.Prelude.{◌≡◌, ◌<◌, ◌+◌, ◌-◌, ◌==◌, ◌||◌, if◌then◌else◌};
ghost use Rattle.fw_edge.specs.Fates.{word_after};
ghost use Rattle.fw_soak.specs.Chances.{comes_now, delays_of, drawn_package, drawn_rareness, drawn_upset, drawn_upsets, drawn_verdict, failing_call, generator_past};

use crate::chances::Chances;
use arrayvec::ArrayVec;
use fd_core::Verdict;
use fw_edge::Fate;

/// A run has fewer upsets than this.
const UPSETS: u32 = 8;

/// The number of powers of two from 16 to 2,048. One of them is the average number of turns between
/// two upsets.
const RARENESS: u32 = 8;

/// One verdict in this number is bad, on average.
const BAD: u32 = 16;

/// The upsets of a run.
#[derive(Clone, Copy)]
pub(crate) struct Upsets {
    /// The number of remaining upsets.
    left: u32,
    /// One turn in this number has an upset, on average.
    among: u32,
}

impl Upsets {
    /// Draws the upsets of a run.
    pub(crate) fn new(chances: &mut Chances) -> Upsets
        ensures left { result.left ≡ drawn_upsets chances.old.generator }
        ensures among { result.among ≡ drawn_rareness chances.old.generator }
        ensures after { chances.new.generator ≡ generator_past 2 chances.old.generator }
    {
        let left = chances.below(UPSETS);
        let among = 16 << chances.below(RARENESS);
        Upsets { left, among }
    }

    /// Whether an upset occurs in this turn.
    pub(crate) fn comes(&mut self, chances: &mut Chances) -> bool
        ensures value { result ≡ comes_now self.old.left self.old.among chances.old.generator }
        ensures left { self.new.left ≡ (if result then self.old.left - 1 else self.old.left) }
        ensures among { self.new.among ≡ self.old.among }
        ensures after { chances.new.generator
            ≡ (if self.old.left == 0 || self.old.among == 0 then chances.old.generator else
            word_after chances.old.generator) }
    {
        if self.left == 0 || self.among == 0 || !chances.one_in(self.among) {
            return false;
        }
        self.left -= 1;
        true
    }
}

/// The kind of an upset.
#[derive(Clone, Copy, PartialEq, Eq)]
pub(crate) enum Upset {
    /// The agent restarts.
    RestartAgent,
    /// A device restarts.
    RestartDevice,
    /// An update is cancelled.
    Cancel,
    /// A packet arrives once more.
    Repeat,
}

/// Draws the kind of an upset.
pub(crate) fn upset_drawn(chances: &mut Chances) -> Upset
    ensures value { result ≡ drawn_upset chances.old.generator }
    ensures after { chances.new.generator ≡ word_after chances.old.generator }
{
    match chances.below(4) {
        0 => Upset::RestartAgent,
        1 => Upset::RestartDevice,
        2 => Upset::Cancel,
        _ => Upset::Repeat,
    }
}

/// Draws the number of a package, from 1.
pub(crate) fn package_drawn(chances: &mut Chances, packages: u32) -> usize
    requires { 0 < packages }
    ensures value { result ≡ drawn_package packages chances.old.generator }
    ensures after { chances.new.generator ≡ word_after chances.old.generator }
{
    chances.below(packages) as usize + 1
}

/// Draws a verdict; most are good.
pub(crate) fn verdict_drawn(chances: &mut Chances, good: Verdict, bad: Verdict) -> Verdict
    ensures value { result ≡ drawn_verdict good bad chances.old.generator }
    ensures after { chances.new.generator ≡ word_after chances.old.generator }
{
    if chances.one_in(BAD) { bad } else { good }
}

/// Draws the call of a bank that fails, from 1; none does if it is 0.
pub(crate) fn failing_drawn(chances: &mut Chances) -> u64
    ensures value { result ≡ failing_call chances.old.generator }
    ensures after { chances.new.generator ≡ generator_past 2 chances.old.generator }
{
    let calls = 1 << chances.below(10);
    u64::from(chances.below(calls))
}

/// The delays of a packet's copies.
pub(crate) fn delays(fate: Fate) -> ArrayVec<u32, 2>
    ensures { result.items ≡ delays_of fate }
{
    let mut delays = ArrayVec::new();
    match fate {
        Fate::Lost => {}
        Fate::Once(first) => delays.push(first),
        Fate::Twice(first, second) => {
            delays.push(first);
            delays.push(second);
        }
    }
    delays
}
