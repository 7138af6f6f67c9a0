//! A serial line.

ghost use Rattle.std.specs.Prelude.{◌≡◌, IfSome, Some, take, true};
ghost use Rattle.std.specs.Io.KnownBytes.{Appends};
ghost use Rattle.mctp_serial.specs.Frames.{frame_of};
ghost use Rattle.fwupd_wires.specs.Serial.{packet_passed};

use crate::connection::{Input, MOST_LOOKED_AT};
use fw_process::Line;
use mctp_ctl::Endpoint;
use mctp_front::front;
use mctp_serial::{Reader, SerialFrame};
use mctp_wire::{RawPacket, Unit};
use std::io::{ErrorKind, Read, Write};

/// The number of writes in which a frame is written, at most.
const MOST_WRITES: u32 = 16;

/// Writes a frame to a stream. Returns the number of its bytes that are written. It is lost if the
/// stream would wait. If only a part of it can be written, the peer reads that as noise.
fn write_frame<S: Write>(stream: &mut S, frame: &[u8]) -> usize
    ensures { Appends (S.contents stream.old) (S.contents stream.new) (take result frame.now) }
{
    let mut written = 0;
    for _ in 0..MOST_WRITES {
        if written >= frame.len() {
            break;
        }
        match stream.write(&frame[written..]) {
            Ok(count) => written += count,
            Err(error) if error.kind() == ErrorKind::Interrupted => {}
            Err(_) => break,
        }
    }
    written
}

/// Writes the frame of a packet to a stream. Returns the number of its bytes that are written.
fn write_packet<S: Write>(stream: &mut S, packet: &RawPacket) -> usize
    ensures { Appends (S.contents stream.old) (S.contents stream.new) (take result (frame_of packet.now.items)) }
{
    if packet.is_empty() {
        return 0;
    }
    let mut frame = SerialFrame::new();
    mctp_serial::write(packet.as_slice(), &mut frame);
    write_frame(stream, frame.as_slice())
}

/// A serial line (DSP0253) to a peer that shares no clock with the node. A packet that comes has
/// the unit of the round as its stamp: the node receives only after its own tick of that unit. The
/// front of the node answers the packets that it knows, and the node doesn't see them.
#[derive(Drop)]
pub struct SerialLine<S: Read + Write + Drop> {
    input: Input<S>,
    reader: Reader,
    network: Unit,
    endpoint: Endpoint,
    /// The unit of the round.
    round: u32,
}

impl<S: Read + Write + Drop> SerialLine<S> {
    /// Creates the line of the node with this endpoint, over a stream whose reads don't wait.
    /// `network` is the transmission unit.
    pub fn new(stream: S, network: Unit, endpoint: Endpoint) -> SerialLine<S> {
        SerialLine {
            input: Input::new(stream),
            reader: Reader::new(network),
            network,
            endpoint,
            round: 0,
        }
    }

    /// Reads a byte. Returns whether it ends the frame of a packet that passes to the node; if so,
    /// `packet` is that packet. A packet that the front answers is answered at once.
    fn feed(&mut self, byte: u8, packet: &mut RawPacket) -> bool
        ensures given { result ≡ true
            → packet_passed self.old.network self.old.endpoint self.old.reader byte ≡ Some packet.new.items }
        ensures round { self.new.round ≡ self.old.round }
    {
        if !self.reader.feed(byte) {
            return false;
        }
        if let Some(answer) = front(self.network, &self.endpoint, self.reader.packet()) {
            let _ = write_packet(&mut self.input.stream, &answer);
            return false;
        }
        packet.clear();
        packet.try_extend_from_slice(self.reader.packet()).is_ok()
    }
}

impl<S: Read + Write + Drop> Line for SerialLine<S> {
    fn begin_round(&mut self, unit: u32)
        ensures round { self.new.round ≡ unit }
    {
        self.round = unit;
    }

    fn receive(&mut self, packet: &mut RawPacket) -> Option<u32>
        ensures stamp { IfSome result (λ stamp. stamp ≡ self.old.round) }
        ensures round { self.new.round ≡ self.old.round }
    {
        for _ in 0..MOST_LOOKED_AT {
            let byte = self.input.next()?;
            if self.feed(byte, packet) {
                return Some(self.round);
            }
        }
        None
    }

    fn send(&mut self, _unit: u32, packet: &RawPacket) {
        let _ = write_packet(&mut self.input.stream, packet);
    }
}
