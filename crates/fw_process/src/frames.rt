//! Stamped packets as frames in a stream of bytes.

ghost use Rattle.std.specs.Prelude.{[], ◌≡◌, ◌≤◌, drop, length};
ghost use Rattle.exch_lane.specs.Steps.{sent_at};
ghost use Rattle.fw_process.specs.Frames.{FramesAreReadBack, bytes_after, frame_of, packet_of, progress_of};

use arrayvec::ArrayVec;
use byteorder::{ByteOrder, LittleEndian};
use mctp_wire::{MAX_PACKET, RawPacket};
use std::marker::Model;

/// The size of a frame's head in bytes: the length of the packet, and its stamp.
const HEAD: usize = 6;

/// The largest size of a frame in bytes.
const MAX_FRAME: usize = HEAD + MAX_PACKET;

/// The bytes of a frame.
pub type StampedFrame = ArrayVec<u8, MAX_FRAME>;

/// What the bytes of a frame so far are.
#[derive(Clone, Copy, PartialEq, Eq)]
pub enum FrameProgress {
    /// A part of a frame.
    Part,
    /// A whole frame.
    Whole,
    /// No frame: its packet would have no byte, or more than 132.
    Bad,
}

/// Returns the frame of a packet that is sent in a unit.
pub fn stamped_frame(unit: u32, packet: &RawPacket) -> StampedFrame
    ensures { result.items ≡ frame_of (sent_at unit packet.now.items) }
{
    let mut head = [0; HEAD];
    LittleEndian::write_u16(&mut head[..2], packet.len() as u16);
    LittleEndian::write_u32(&mut head[2..], unit);
    let mut frame = StampedFrame::new();
    let _ = frame.try_extend_from_slice(&head);
    let _ = frame.try_extend_from_slice(packet.as_slice());
    frame
}

/// Reads frames, a byte at a time. It has the bytes of a frame so far.
#[derive(Drop)]
pub struct FrameReader {
    bytes: StampedFrame,
}

impl Model for FrameReader {
    ghost use Rattle.std.specs.Prelude.{List, ℕ};

    ghost Value = { List ℕ };

    ghost view = { λ r. r.bytes.items };
}

impl FrameReader {
    /// Creates a reader at the beginning of a frame.
    pub fn new() -> FrameReader
        ensures { result ≡ [] }
    {
        FrameReader {
            bytes: StampedFrame::new(),
        }
    }

    /// What the bytes so far are.
    fn progress(&self) -> FrameProgress
        ensures { result ≡ progress_of self.now }
    {
        if self.bytes.len() < 2 {
            return FrameProgress::Part;
        }
        let size = usize::from(LittleEndian::read_u16(&self.bytes[..2]));
        if size == 0 || size > MAX_PACKET {
            return FrameProgress::Bad;
        }
        if self.bytes.len() < HEAD + size {
            return FrameProgress::Part;
        }
        FrameProgress::Whole
    }

    /// Reads a byte, and returns what the bytes so far are then. After a whole frame, or bytes that
    /// are none, a frame begins with it.
    pub fn feed(&mut self, byte: u8) -> FrameProgress
        ensures bytes { self.new ≡ bytes_after self.old byte }
        ensures progress { result ≡ progress_of self.new }
    {
        if self.progress() != FrameProgress::Part {
            self.bytes.clear();
        }
        let _ = self.bytes.try_push(byte);
        self.progress()
    }

    /// The stamp of a whole frame.
    pub fn stamp(&self) -> u32
        requires { progress_of self.now ≡ FrameProgress.Whole }
        ensures { result ≡ (packet_of self.now).date }
    {
        LittleEndian::read_u32(&self.bytes[2..HEAD])
    }

    /// The packet of a whole frame.
    pub fn packet(&self) -> &[u8]
        requires { progress_of self.now ≡ FrameProgress.Whole }
        ensures { result.now ≡ (packet_of self.now).bytes }
    {
        &self.bytes[HEAD..]
    }
}

/// A frame is read back: each beginning of it is a part, and all of it is whole, and gives its
/// packet and its stamp.
pub fn frames_are_read_back()
    ensures law { FramesAreReadBack }
{}
