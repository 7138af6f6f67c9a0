//! The sizes of packets and messages.

ghost use Rattle.std.specs.Prelude.{◌≡◌, ◌≤◌};
ghost use Rattle.mctp_wire.specs.Units.{bytes_of};

use crate::layout::MAX_BODY;

/// The most packets of a message. Their sequence numbers, which are counted modulo 4 (DSP0236,
/// section 8.1), then all differ.
pub const MAX_PACKETS: usize = 4;

/// The most bytes of a message, with its type byte, at the greatest transmission unit.
pub const MAX_MESSAGE: usize = MAX_PACKETS * MAX_BODY;

/// The transmission unit of a network: the most bytes of a packet's body, which all its nodes share
/// (DSP0236, section 8.3).
#[derive(Clone, Copy, Debug, PartialEq, Eq)]
pub enum Unit {
    /// The baseline of 64 bytes, which each medium carries.
    U64,
    /// 128 bytes.
    U128,
}

impl Unit {
    /// Returns the most bytes of a packet's body.
    pub fn bytes(self) -> usize
        ensures value { result ≡ bytes_of self }
        ensures fits { (1 ≤ result) × (result ≤ MAX_BODY) }
    {
        match self {
            Unit::U64 => 64,
            Unit::U128 => 128,
        }
    }
}
