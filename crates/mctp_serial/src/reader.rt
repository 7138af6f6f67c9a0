//! Packets out of a byte stream.

ghost use Rattle.std.specs.Prelude.{◌≡◌, ◌<◌, length};
ghost use Rattle.mctp_serial.specs.Reader.{new_reader, packet_after_byte, packet_from, packet_if, reader_after_byte, reader_from, reader_with};

use crate::check::check_of;
use crate::stage::Stage;
use crate::writer::{ESCAPE, ESCAPE_STEP, FLAG, REVISION};
use mctp_wire::{HEAD_SIZE, RawPacket, Unit};
use std::marker::Model;

/// Reads frames, a byte at a time. A raw flag inside the data begins a new frame.
#[derive(Drop)]
pub struct Reader {
    unit: Unit,
    stage: Stage,
    count: u8,
    high: u8,
    low: u8,
    packet: RawPacket,
}

impl Model for Reader {
    ghost use Rattle.std.specs.Prelude.{length};
    ghost use Rattle.mctp_serial.specs.Reader.{IsBounded, ReaderOf};

    ghost Value = { ReaderOf };

    ghost view = { λ r. record {
      unit = r.unit;
      stage = r.stage;
      count = r.count;
      high = r.high;
      low = r.low;
      packet = r.packet.items;
    } };

    ghost invariant = { λ r. IsBounded r.unit r.stage (length r.packet.items) r.count };
}

impl Reader {
    /// Returns a reader between frames, of packets with a body of up to `unit`.
    pub fn new(unit: Unit) -> Reader
        ensures { result ≡ new_reader unit }
    {
        Reader {
            unit,
            stage: Stage::Idle,
            count: 0,
            high: 0,
            low: 0,
            packet: RawPacket::new(),
        }
    }

    /// Returns the packet that `feed` gave last, until the next byte is fed.
    pub fn packet(&self) -> &[u8]
        ensures { result.now ≡ self.now.packet }
    {
        self.packet.as_slice()
    }

    /// Reads one byte. Returns whether it ends a frame; if so, `packet` is the frame's packet.
    pub fn feed(&mut self, byte: u8) -> bool
        ensures reader { self.new ≡ reader_after_byte self.old byte }
        ensures given { packet_after_byte self.old byte ≡ packet_if result self.new.packet }
    {
        match self.stage {
            Stage::Idle | Stage::Lost => self.seek_flag(byte),
            Stage::Opened => self.read_revision(byte),
            Stage::Revised => self.read_count(byte),
            Stage::Filling => self.read_data(byte),
            Stage::Escaped => self.read_escaped(byte),
            Stage::High => {
                self.high = byte;
                self.stage = Stage::Low;
            }
            Stage::Low => {
                self.low = byte;
                self.stage = Stage::Closing;
            }
            Stage::Closing => return self.close(byte),
        }
        false
    }

    /// Reads a byte between frames.
    fn seek_flag(&mut self, byte: u8)
        ensures { self.new ≡ reader_from Stage.Lost self.old byte }
    {
        self.stage = if byte == FLAG {
            Stage::Opened
        } else {
            Stage::Lost
        };
    }

    /// Reads the byte after a flag.
    fn read_revision(&mut self, byte: u8)
        ensures { self.new ≡ reader_from Stage.Opened self.old byte }
    {
        self.stage = match byte {
            REVISION => Stage::Revised,
            FLAG => Stage::Opened,
            _ => Stage::Lost,
        };
    }

    /// Reads the byte count.
    fn read_count(&mut self, byte: u8)
        ensures { self.new ≡ reader_from Stage.Revised self.old byte }
    {
        if byte == 0 || usize::from(byte) > HEAD_SIZE + self.unit.bytes() {
            self.stage = Stage::Lost;
        } else {
            self.count = byte;
            self.packet.clear();
            self.stage = Stage::Filling;
        }
    }

    /// Reads a byte of the data.
    fn read_data(&mut self, byte: u8)
        requires { length self.old.packet < self.old.count }
        ensures { self.new ≡ reader_from Stage.Filling self.old byte }
    {
        match byte {
            ESCAPE => self.stage = Stage::Escaped,
            FLAG => self.stage = Stage::Opened,
            _ => self.push_byte(byte),
        }
    }

    /// Reads the second byte of an escape sequence.
    fn read_escaped(&mut self, byte: u8)
        requires { length self.old.packet < self.old.count }
        ensures { self.new ≡ reader_from Stage.Escaped self.old byte }
    {
        if byte == ESCAPE - ESCAPE_STEP || byte == FLAG - ESCAPE_STEP {
            self.push_byte(byte + ESCAPE_STEP);
        } else {
            self.stage = Stage::Lost;
        }
    }

    /// Appends a byte to the packet.
    fn push_byte(&mut self, byte: u8)
        requires { length self.old.packet < self.old.count }
        ensures { self.new ≡ reader_with self.old byte }
    {
        self.packet.push(byte);
        self.stage = if self.packet.len() == usize::from(self.count) {
            Stage::High
        } else {
            Stage::Filling
        };
    }

    /// Reads the byte after the check sequence. Returns whether it ends a frame.
    fn close(&mut self, byte: u8) -> bool
        ensures reader { self.new ≡ reader_from Stage.Closing self.old byte }
        ensures given { packet_from Stage.Closing self.old byte ≡ packet_if result self.new.packet }
    {
        if byte != FLAG {
            self.stage = Stage::Lost;
            return false;
        }
        self.stage = Stage::Idle;
        check_of(self.packet.as_slice()) == u16::from(self.high) * 256 + u16::from(self.low)
    }
}
