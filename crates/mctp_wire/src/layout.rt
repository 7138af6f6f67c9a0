//! The parts of a packet (DSP0236, section 8.1).

ghost use Rattle.std.specs.Prelude.{◌≡◌};

use arrayvec::ArrayVec;

/// The bytes of a packet's head (DSP0236, section 8.1).
pub const HEAD_SIZE: usize = 4;

/// The most bytes of a packet's body, whatever the transmission unit (DSP0236, section 8.3).
pub const MAX_BODY: usize = 128;

/// The most bytes of a packet, whatever the transmission unit: its head and its body.
pub const MAX_PACKET: usize = HEAD_SIZE + MAX_BODY;

/// The head of a packet.
#[derive(Clone, Copy, PartialEq, Eq)]
pub struct Head {
    /// The endpoint that the packet goes to.
    pub dest: u8,
    /// The endpoint that sent it.
    pub source: u8,
    /// Start of message: this is a message's first packet.
    pub som: bool,
    /// End of message: this is a message's last packet.
    pub eom: bool,
    /// The packet's sequence number within its message, modulo 4.
    pub seq: u8,
    /// Tag owner: the sender chose the tag, so the message is a request.
    pub to: bool,
    /// The message tag, 0 to 7, which an answer repeats.
    pub tag: u8,
}

/// A packet that was read. Its body is borrowed from the bytes.
#[derive(Clone, Copy, PartialEq, Eq)]
pub struct Packet<'a> {
    /// The head.
    pub head: Head,
    /// The body, of 1 byte to the transmission unit.
    pub body: &'a [u8],
}

/// The bytes of one packet, as they go over a medium: a head and a body.
pub type RawPacket = ArrayVec<u8, MAX_PACKET>;

/// Returns a copy of the packet.
pub fn copy_of(packet: &RawPacket) -> RawPacket
    ensures { result.items ≡ packet.now.items }
{
    let mut copy = RawPacket::new();
    let _ = copy.try_extend_from_slice(packet.as_slice());
    copy
}
