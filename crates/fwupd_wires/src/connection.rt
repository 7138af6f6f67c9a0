//! A connection over which stamped packets go, as frames.

use arrayvec::ArrayVec;
use fw_process::{FrameProgress, FrameReader, stamped_frame};
use mctp_wire::RawPacket;
use std::io::{ErrorKind, Read, Write};

/// The number of bytes that are read at once.
pub(crate) const MOST_READ: usize = 1024;

/// The number of bytes that are looked at for a packet.
pub(crate) const MOST_LOOKED_AT: u32 = 1 << 16;

/// A stream that doesn't wait, with the bytes that were read of it and aren't used yet.
#[derive(Drop)]
pub(crate) struct Input<S: Read + Drop> {
    /// The stream.
    pub(crate) stream: S,
    bytes: ArrayVec<u8, MOST_READ>,
    used: usize,
    /// Whether the stream may give more bytes.
    pub(crate) is_open: bool,
}

impl<S: Read + Drop> Input<S> {
    /// Creates the input of a stream.
    pub(crate) fn new(stream: S) -> Input<S> {
        Input {
            stream,
            bytes: ArrayVec::new(),
            used: 0,
            is_open: true,
        }
    }

    /// Reads what is there now, in place of the bytes that are used up.
    fn fill(&mut self) {
        let mut bytes = [0; MOST_READ];
        self.used = 0;
        self.bytes.clear();
        match self.stream.read(&mut bytes) {
            Ok(0) => self.is_open = false,
            Ok(count) => {
                let _ = self
                    .bytes
                    .try_extend_from_slice(&bytes[..count.min(MOST_READ)]);
            }
            Err(error) => match error.kind() {
                ErrorKind::WouldBlock | ErrorKind::Interrupted => {}
                _ => self.is_open = false,
            },
        }
    }

    /// The next byte. `None` if none is there now.
    pub(crate) fn next(&mut self) -> Option<u8> {
        if self.used >= self.bytes.len() {
            self.fill();
        }
        let byte = *self.bytes.get(self.used)?;
        self.used += 1;
        Some(byte)
    }
}

/// A connection to a peer.
#[derive(Drop)]
pub(crate) struct Connection<S: Read + Write + Drop> {
    input: Input<S>,
    reader: FrameReader,
}

impl<S: Read + Write + Drop> Connection<S> {
    /// Creates a connection over a stream that doesn't wait.
    pub(crate) fn new(stream: S) -> Connection<S> {
        Connection {
            input: Input::new(stream),
            reader: FrameReader::new(),
        }
    }

    /// Whether packets may still come and go. It ends at the stream's end, at a fault, at bytes
    /// that are no frame, and where only a part of a frame could be written.
    pub(crate) fn is_open(&self) -> bool {
        self.input.is_open
    }

    /// Puts the next packet that came into `packet`, and returns its stamp. `None` if no whole one
    /// is there now.
    pub(crate) fn receive(&mut self, packet: &mut RawPacket) -> Option<u32> {
        for _ in 0..MOST_LOOKED_AT {
            let byte = self.input.next()?;
            match self.reader.feed(byte) {
                FrameProgress::Part => {}
                FrameProgress::Bad => {
                    self.input.is_open = false;
                    return None;
                }
                FrameProgress::Whole => {
                    packet.clear();
                    let _ = packet.try_extend_from_slice(self.reader.packet());
                    return Some(self.reader.stamp());
                }
            }
        }
        None
    }

    /// Sends a packet in a unit. It is lost if the stream would wait.
    pub(crate) fn send(&mut self, unit: u32, packet: &RawPacket) {
        let frame = stamped_frame(unit, packet);
        match self.input.stream.write(frame.as_slice()) {
            Ok(count) if count == frame.len() => {}
            Err(error) if error.kind() == ErrorKind::WouldBlock => {}
            _ => self.input.is_open = false,
        }
    }
}
