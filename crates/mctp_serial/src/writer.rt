//! A packet as a frame.

ghost use Rattle.std.specs.Prelude.{◌≡◌, ◌≤◌, ◌+◌, ◌*◌, ◌++◌, length};
ghost use Rattle.mctp_serial.specs.Frames.{HasFrame, data_of, data_of_byte, frame_of};

use crate::check::check_of;
use arrayvec::ArrayVec;
use mctp_wire::MAX_PACKET;

/// The byte that begins and ends a frame (DSP0253).
pub(crate) const FLAG: u8 = 0x7E;

/// The byte that begins an escape sequence (DSP0253).
pub(crate) const ESCAPE: u8 = 0x7D;

/// The distance of an escaped byte from the original byte (DSP0253).
pub(crate) const ESCAPE_STEP: u8 = 0x20;

/// The revision of the serial binding (DSP0253).
pub(crate) const REVISION: u8 = 1;

/// The most bytes of a frame: six, and two for each byte of the longest packet.
pub const FRAME_MAX: usize = 6 + 2 * MAX_PACKET;

/// The bytes of one frame.
pub type SerialFrame = ArrayVec<u8, FRAME_MAX>;

/// Appends one byte of a packet to the data of a frame.
fn push_byte(frame: &mut SerialFrame, byte: u8)
    requires { length frame.old.items + 2 ≤ FRAME_MAX }
    ensures { frame.new.items ≡ frame.old.items ++ data_of_byte byte }
{
    if byte == FLAG || byte == ESCAPE {
        frame.push(ESCAPE);
        frame.push(byte - ESCAPE_STEP);
    } else {
        frame.push(byte);
    }
}

/// Appends the data of a packet to a frame.
#[tactic(auto, using(crate::proofs::Steps::steps))]
fn push_data(frame: &mut SerialFrame, packet: &[u8])
    requires { length frame.old.items + 2 * length packet.now ≤ FRAME_MAX }
    ensures { frame.new.items ≡ frame.old.items ++ data_of packet.now }
{
    for byte in packet {
        push_byte(frame, *byte);
    }
}

/// Writes the frame of a packet of 1 to 132 bytes to `frame`, replacing its content (DSP0253).
#[tactic(auto, using(crate::proofs::Steps::steps))]
pub fn write(packet: &[u8], frame: &mut SerialFrame)
    requires { HasFrame packet.now }
    ensures frame { frame.new.items ≡ frame_of packet.now }
    ensures size { FRAME_MAX ≡ 270 }
{
    let check = check_of(packet);
    frame.clear();
    frame.push(FLAG);
    frame.push(REVISION);
    frame.push(packet.len() as u8);
    push_data(frame, packet);
    frame.push((check / 256) as u8);
    frame.push((check % 256) as u8);
    frame.push(FLAG);
}
