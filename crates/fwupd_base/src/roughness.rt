//! The roughness of a link.

ghost use Rattle.std.specs.Prelude.{◌≡◌};

/// The probabilities and limits of a rough link.
#[derive(Clone, Copy, Debug, PartialEq, Eq)]
pub struct Roughness {
    /// The percentage of packets that are lost, on average: 0 to 100.
    pub loss: u8,
    /// The percentage of the other packets that are duplicated: 0 to 100.
    pub duplicate: u8,
    /// The largest delay of a packet, in turns.
    pub delay: u8,
    /// The seed of the random numbers: the same seed gives the same fates.
    pub seed: u64,
}

impl Roughness {
    /// Returns no roughness: each packet arrives once, without delay.
    pub fn none() -> Roughness
        ensures loss { result.loss ≡ 0 }
        ensures duplicate { result.duplicate ≡ 0 }
        ensures delay { result.delay ≡ 0 }
        ensures seed { result.seed ≡ 0 }
    {
        Roughness {
            loss: 0,
            duplicate: 0,
            delay: 0,
            seed: 0,
        }
    }
}
