//! The fates of packets on a rough link.

ghost use Rattle.std.specs.Prelude.{◌≡◌, ◌<◌, ◌%◌, false, true};
ghost use Rattle.fw_edge.specs.Fates.{fate_of, generator_after, word_after, word_of};

use fwupd_base::Roughness;
use rand_core::utils::NextWord;
use rand_pcg::Pcg32;

/// The fate of a packet: the number of its copies, and the delay of each in turns.
#[derive(Clone, Copy, Debug, PartialEq, Eq)]
pub enum Fate {
    /// No copy arrives.
    Lost,
    /// One copy arrives.
    Once(u32),
    /// Two copies arrive.
    Twice(u32, u32),
}

/// The next number of a generator, below `bound`. A bound of 1 skips the division: a link without
/// delays uses it twice for each packet.
#[tactic(auto, unfolding(crate::specs::Fates::word_of, crate::specs::Fates::word_after))]
fn below(generator: &mut Pcg32, bound: u32) -> u32
    requires { 0 < bound }
    ensures word { result ≡ word_of generator.old % bound }
    ensures within { result < bound }
    ensures left { generator.new ≡ word_after generator.old }
{
    let word = generator.next_word();
    if bound == 1 {
        return 0;
    }
    word % bound
}

/// The fate of the next packet. It takes four numbers of the generator, whatever the fate.
pub(crate) fn next_fate(roughness: Roughness, generator: &mut Pcg32) -> Fate
    ensures fate { result ≡ fate_of roughness generator.old }
    ensures left { generator.new ≡ generator_after generator.old }
{
    let lost = below(generator, 100);
    let doubled = below(generator, 100);
    let late = u32::from(roughness.delay) + 1;
    let first = below(generator, late);
    let second = below(generator, late);
    if lost < u32::from(roughness.loss) {
        return Fate::Lost;
    }
    if doubled < u32::from(roughness.duplicate) {
        return Fate::Twice(first, second);
    }
    Fate::Once(first)
}
