//! Frames, decoded and encoded.

use crate::tests::links::{BadLink, Trouble};
use fw_edge::{FrameFault, HeldBack, Link, MemLink, Rough, StreamLink, read_frame, write_frame};
use fw_world::Side;
use fwupd_base::Roughness;
use mctp_wire::{RawPacket, Unit};
use std::alloc::Global;
use std::io::{self, Read, Write};
use std::test::Fail;

/// The control message Get Endpoint ID from 8 to 9, as a frame.
static FRAME: [u8; 9] = [0x07, 0x00, 0x01, 0x09, 0x08, 0xC8, 0x00, 0x80, 0x02];

/// Its packet.
const PACKET: &[u8] = &[0x01, 0x09, 0x08, 0xC8, 0x00, 0x80, 0x02];

/// The result of reading these bytes at a transmission unit.
fn read(unit: Unit, bytes: &[u8]) -> Result<RawPacket, FrameFault> {
    let mut reader = bytes;
    read_frame(unit, &mut reader)
}

#[test]
fn a_frame_is_its_length_and_its_packet(rt: HostRuntime) -> Result<(), Fail> {
    for unit in [Unit::U64, Unit::U128] {
        let packet = read(unit, &FRAME)?;
        let mut written = Vec::new(rt.alloc());
        write_frame(unit, &mut written, &packet)?;
        let empty = write_frame(unit, &mut written, &RawPacket::new());
        assert!(rt; packet.as_slice() == PACKET && empty == Err(FrameFault::Size));
        assert!(rt; written.as_slice() == FRAME.as_slice());
    }
    Ok(())
}

/// A case: the bytes, and their fault at a unit of 64 and of 128.
static FAULTS: [(&str, &[u8], FrameFault, FrameFault); 10] = [
    ("nothing", &[], FrameFault::End, FrameFault::End),
    ("half a length", &[0x07], FrameFault::Cut, FrameFault::Cut),
    ("a length", &[0x07, 0x00], FrameFault::Cut, FrameFault::Cut),
    (
        "a part of a packet",
        &[0x07, 0x00, 0x01, 0x09],
        FrameFault::Cut,
        FrameFault::Cut,
    ),
    (
        "length 0",
        &[0x00, 0x00],
        FrameFault::Size,
        FrameFault::Size,
    ),
    ("length 68", &[0x44, 0x00], FrameFault::Cut, FrameFault::Cut),
    (
        "length 69",
        &[0x45, 0x00],
        FrameFault::Size,
        FrameFault::Cut,
    ),
    (
        "length 132",
        &[0x84, 0x00],
        FrameFault::Size,
        FrameFault::Cut,
    ),
    (
        "length 133",
        &[0x85, 0x00],
        FrameFault::Size,
        FrameFault::Size,
    ),
    (
        "length 256",
        &[0x00, 0x01],
        FrameFault::Size,
        FrameFault::Size,
    ),
];

#[test]
fn what_is_no_frame_is_named(rt: HostRuntime) {
    for (situation, bytes, at_64, at_128) in &FAULTS {
        let faults = (read(Unit::U64, bytes).err(), read(Unit::U128, bytes).err());
        assert!(rt; faults == (Some(*at_64), Some(*at_128)), "{situation}");
    }
}

#[test]
fn a_packet_of_69_bytes_is_no_frame_at_64(rt: HostRuntime) {
    let mut written = Vec::new(rt.alloc());
    let refused = write_frame(Unit::U64, &mut written, &rising(69));
    assert!(rt; refused == Err(FrameFault::Size) && written.is_empty());
}

/// A reader that returns a frame byte by byte, and is interrupted before each byte; after a number
/// of bytes it fails.
#[derive(Drop)]
struct Slow {
    given: usize,
    most: usize,
    kind: io::ErrorKind,
    interrupted: bool,
}

impl Read for Slow {
    fn read(&mut self, buffer: &mut [u8]) -> io::Result<usize> {
        self.interrupted = !self.interrupted;
        if self.interrupted {
            return Err(io::Error::from(io::ErrorKind::Interrupted));
        }
        if self.given == self.most {
            return Err(io::Error::from(self.kind));
        }
        let (Some(byte), Some(room)) = (FRAME.get(self.given), buffer.first_mut()) else {
            return Ok(0);
        };
        *room = *byte;
        self.given = self.given.saturating_add(1);
        Ok(1)
    }
}

/// A reader that fails after `most` bytes, with this error.
fn failing_after(most: usize, kind: io::ErrorKind) -> Slow {
    Slow {
        given: 0,
        most,
        kind,
        interrupted: false,
    }
}

#[test]
fn a_frame_comes_byte_by_byte_or_the_reader_fails(rt: HostRuntime) -> Result<(), Fail> {
    let kinds = [
        io::ErrorKind::Other,
        io::ErrorKind::WouldBlock,
        io::ErrorKind::TimedOut,
    ];
    for kind in kinds {
        let packet = read_frame(Unit::U64, &mut failing_after(9, kind))?;
        assert!(rt; packet.as_slice() == PACKET);
        for most in 0..9 {
            let fault = read_frame(Unit::U64, &mut failing_after(most, kind)).err();
            assert!(rt; fault == Some(FrameFault::Io), "{most}");
        }
    }
    Ok(())
}

/// An end of a stream that buffers writes, and fails to flush them.
#[derive(Drop)]
struct Stuck;

impl Read for Stuck {
    fn read(&mut self, _buffer: &mut [u8]) -> io::Result<usize> {
        Ok(0)
    }
}

impl Write for Stuck {
    fn write(&mut self, buffer: &[u8]) -> io::Result<usize> {
        Ok(buffer.len())
    }

    fn flush(&mut self) -> io::Result<()> {
        Err(io::Error::from(io::ErrorKind::Other))
    }
}

impl HeldBack for Stuck {
    fn push_out(&mut self) -> io::Result<()> {
        self.flush()
    }
}

#[test]
fn a_stream_that_cannot_let_go_fails_before_the_other_end_is_read(
    rt: HostRuntime,
) -> Result<(), Fail> {
    for (from, to) in [(Side::Agent, Side::Device), (Side::Device, Side::Agent)] {
        let mut link = StreamLink::new(Unit::U64, Stuck, Stuck);
        link.send(from, &rising(7))?;
        let fault = link.receive(to).err();
        assert!(rt; fault == Some(FrameFault::Io) && link.failures() == 1 && link.asked() == 0);
    }
    Ok(())
}

/// A stream of single-byte reads and writes, with an interruption before each.
#[derive(Drop)]
struct Narrow {
    bytes: Vec<u8>,
    given: usize,
    interrupted: bool,
}

impl Read for Narrow {
    fn read(&mut self, buffer: &mut [u8]) -> io::Result<usize> {
        self.interrupted = !self.interrupted;
        if self.interrupted {
            return Err(io::Error::from(io::ErrorKind::Interrupted));
        }
        let (Some(byte), Some(room)) = (self.bytes.get(self.given), buffer.first_mut()) else {
            return Ok(0);
        };
        *room = *byte;
        self.given = self.given.saturating_add(1);
        Ok(1)
    }
}

impl Write for Narrow {
    fn write(&mut self, buffer: &[u8]) -> io::Result<usize> {
        self.interrupted = !self.interrupted;
        if self.interrupted {
            return Err(io::Error::from(io::ErrorKind::Interrupted));
        }
        let Some(byte) = buffer.first() else {
            return Ok(0);
        };
        match self.bytes.push(*byte) {
            Ok(()) => Ok(1),
            Err(_) => Err(io::Error::from(io::ErrorKind::OutOfMemory)),
        }
    }

    fn flush(&mut self) -> io::Result<()> {
        Ok(())
    }
}

impl HeldBack for Narrow {
    fn push_out(&mut self) -> io::Result<()> {
        Ok(())
    }
}

/// A stream without bytes.
fn narrow_stream(alloc: Global) -> Narrow {
    Narrow {
        bytes: Vec::new(alloc),
        given: 0,
        interrupted: false,
    }
}

/// A packet of `size` bytes, byte i being i.
fn rising(size: u8) -> RawPacket {
    let mut packet = RawPacket::new();
    for byte in 0..size {
        let _ = packet.try_push(byte);
    }
    packet
}

#[test]
fn frames_of_each_length_go_and_come_byte_by_byte(rt: HostRuntime) -> Result<(), Fail> {
    for (unit, most) in [(Unit::U64, 68), (Unit::U128, 132)] {
        for size in 1..=most {
            let mut stream = narrow_stream(rt.alloc());
            write_frame(unit, &mut stream, &rising(size))?;
            assert!(rt; stream.bytes.len() == usize::from(size) + 2, "{size}");
            let packet = read_frame(unit, &mut stream)?;
            assert!(rt; packet.as_slice() == rising(size).as_slice(), "{size}");
        }
    }
    Ok(())
}

#[test]
fn a_link_in_memory_gives_each_of_many_packets_once(rt: HostRuntime) -> Result<(), Fail> {
    let mut link = MemLink::new(rt.alloc());
    for size in 1..69 {
        link.send(Side::Agent, &rising(size))?;
        link.send(Side::Device, &rising(69 - size))?;
    }
    for size in 1..69 {
        let (Some(down), Some(up)) = (link.receive(Side::Device)?, link.receive(Side::Agent)?)
        else {
            assert!(rt; false, "{size}");
            return Ok(());
        };
        assert!(rt; down.as_slice() == rising(size).as_slice(), "{size}");
        assert!(rt; up.as_slice() == rising(69 - size).as_slice(), "{size}");
    }
    let rest = (link.receive(Side::Device)?, link.receive(Side::Agent)?);
    assert!(rt; matches!(rest, (None, None)) && link.sent() == 136 && link.given() == 136);
    assert!(rt; link.asked() == 138 && link.failures() == 0);
    Ok(())
}

/// Whether a link leaves the buffer for a packet unchanged if none arrives, and replaces its
/// content by the worked packet if that arrives.
fn fills_a_place<L: Link>(link: &mut L) -> Result<bool, FrameFault> {
    let mut place = rising(9);
    let before = link.receive_into(Side::Device, &mut place)?;
    let is_left = place.as_slice() == rising(9).as_slice();
    link.send(Side::Agent, &read(Unit::U64, &FRAME)?)?;
    let came = link.receive_into(Side::Device, &mut place)?;
    let behind = link.receive_into(Side::Device, &mut place)?;
    let is_filled = place.as_slice() == PACKET;
    Ok(!before && is_left && came && !behind && is_filled && link.given() == 1)
}

#[test]
fn a_packet_is_put_into_a_place_that_is_lent(rt: HostRuntime) -> Result<(), Fail> {
    let alloc = rt.alloc();
    let mut device = narrow_stream(alloc);
    write_frame(Unit::U64, &mut device, &read(Unit::U64, &FRAME)?)?;
    let mut stream = StreamLink::new(Unit::U64, narrow_stream(alloc), device);
    let mut rough = Rough::new(alloc, MemLink::new(alloc), Roughness::none(), 9);
    assert!(rt; fills_a_place(&mut stream)?);
    assert!(rt; fills_a_place(&mut MemLink::new(alloc))?);
    assert!(rt; fills_a_place(&mut rough)?);
    Ok(())
}

#[test]
fn a_fault_is_handed_on_as_it_is_told_below(rt: HostRuntime) -> Result<(), Fail> {
    let alloc = rt.alloc();
    let below = StreamLink::new(Unit::U64, narrow_stream(alloc), narrow_stream(alloc));
    let mut rough = Rough::new(alloc, below, Roughness::none(), 9);
    rough.send(Side::Agent, &rising(7))?;
    let fault = rough.receive(Side::Device).err();
    assert!(rt; fault == Some(FrameFault::End) && rough.failures() == 1);
    let mut bad = BadLink::new(alloc, Trouble::Fails(1));
    let fault = bad.receive_into(Side::Device, &mut rising(7)).err();
    assert!(rt; fault == Some(FrameFault::Io) && bad.failures() == 1);
    Ok(())
}
