//! The random numbers of a run, which a seed reproduces.

ghost use Rattle.std.specs.Prelude.{◌≡◌, ◌<◌, ◌==◌, ◌%◌, IfOk};
ghost use Rattle.fw_edge.specs.Fates.{word_after, word_of};
ghost use Rattle.fw_soak.specs.Chances.{drawn_fate, generator_after_fate, generator_of};

use fw_edge::Fate;
use fwupd_base::Roughness;
use rand_core::utils::NextWord;
use rand_pcg::Pcg32;
use std::alloc::AllocError;

/// The random numbers of a run.
#[derive(Drop)]
pub(crate) struct Chances {
    generator: Pcg32,
}

impl Chances {
    /// Creates the generator of run `run` for a seed.
    pub(crate) fn new(seed: u64, run: u64) -> Chances
        ensures { result.generator ≡ generator_of seed run }
    {
        Chances {
            generator: Pcg32::new(seed, run),
        }
    }

    /// A copy, which gives the same numbers.
    ///
    /// # Errors
    /// `AllocError` if memory is refused.
    pub(crate) fn copy(&self) -> Result<Chances, AllocError>
        ensures { IfOk result (λ c. c.generator ≡ self.now.generator) }
    {
        match self.generator.clone() {
            Ok(generator) => Ok(Chances { generator }),
            Err(fault) => Err(fault),
        }
    }

    /// A random number below `bound`.
    #[tactic(auto, unfolding(fw_edge::specs::Fates::word_of, fw_edge::specs::Fates::word_after))]
    pub(crate) fn below(&mut self, bound: u32) -> u32
        requires { 0 < bound }
        ensures number { result ≡ word_of self.old.generator % bound }
        ensures within { result < bound }
        ensures after { self.new.generator ≡ word_after self.old.generator }
    {
        self.generator.next_word() % bound
    }

    /// True with a probability of 1 in `times`.
    pub(crate) fn one_in(&mut self, times: u32) -> bool
        requires { 0 < times }
        ensures value { result ≡ (word_of self.old.generator % times == 0) }
        ensures after { self.new.generator ≡ word_after self.old.generator }
    {
        self.below(times) == 0
    }

    /// The fate of a packet on a link of this roughness: it is lost, or arrives once or twice, each
    /// time with a delay in turns.
    pub(crate) fn fate(&mut self, roughness: Roughness) -> Fate
        ensures fate { result ≡ drawn_fate roughness self.old.generator }
        ensures after { self.new.generator ≡ generator_after_fate roughness self.old.generator }
    {
        let late = u32::from(roughness.delay) + 1;
        if self.below(100) < u32::from(roughness.loss) {
            return Fate::Lost;
        }
        let first = self.below(late);
        if self.below(100) < u32::from(roughness.duplicate) {
            return Fate::Twice(first, self.below(late));
        }
        Fate::Once(first)
    }
}
