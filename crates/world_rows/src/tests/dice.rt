//! Pseudo-random numbers.

/// Pseudo-random numbers, the same in each run (xorshift, 64 bits).
#[derive(Drop)]
pub struct Dice {
    state: u64,
}

impl Dice {
    /// Creates dice with this seed.
    pub fn new(seed: u64) -> Dice {
        Dice { state: seed | 1 }
    }

    /// The next number.
    fn roll(&mut self) -> u64 {
        self.state ^= self.state << 13;
        self.state ^= self.state >> 7;
        self.state ^= self.state << 17;
        self.state
    }

    /// Returns true with a probability of `hits` in 256.
    pub fn hits(&mut self, hits: u8) -> bool {
        let [_, byte, ..] = self.roll().to_le_bytes();
        byte < hits
    }

    /// Returns a number from 0 to 255.
    pub fn byte(&mut self) -> u8 {
        let [_, _, byte, ..] = self.roll().to_le_bytes();
        byte
    }
}
