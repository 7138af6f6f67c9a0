//! Frames on a byte stream (DSP0253). The check sequences are those of a CRC-16/MCRF4XX whose value
//! of "123456789" is 6F91.

use mctp_serial::{Reader, SerialFrame, write};
use mctp_wire::{MAX_PACKET, Unit};

/// Whether a packet encodes to this frame, which replaces the content of `frame`.
fn is_written(frame: &mut SerialFrame, packet: &[u8], bytes: &[u8]) -> bool {
    if packet.is_empty() || packet.len() > MAX_PACKET {
        return false;
    }
    write(packet, frame);
    frame.as_slice() == bytes
}

/// Whether a new reader returns exactly these packets for a stream.
fn are_read(unit: Unit, stream: &[u8], packets: &[&[u8]]) -> bool {
    let mut reader = Reader::new(unit);
    let mut count = 0;
    for byte in stream {
        if reader.feed(*byte) {
            match packets.get(count) {
                Some(packet) if *packet == reader.packet() => count += 1,
                _ => return false,
            }
        }
    }
    count == packets.len()
}

/// A packet and its frame: a request, "123456789", one byte, both bytes that are escaped beside
/// their escape codes, and a check sequence of two flags, which isn't escaped.
static FRAMES: [(&[u8], &[u8]); 5] = [
    (
        b"\x01\x09\x08\xC8\x00\x80\x02",
        b"\x7E\x01\x07\x01\x09\x08\xC8\x00\x80\x02\x0E\xB2\x7E",
    ),
    (b"123456789", b"\x7E\x01\x09123456789\xC1\x3D\x7E"),
    (b"\xAA", b"\x7E\x01\x01\xAA\x70\x67\x7E"),
    (
        b"\x01\x09\x08\xC8\x7E\x7D\x5E\x5D\x20",
        b"\x7E\x01\x09\x01\x09\x08\xC8\x7D\x5E\x7D\x5D\x5E\x5D\x20\x8D\x79\x7E",
    ),
    (
        b"\x01\x09\x08\xC8\x27\x3F",
        b"\x7E\x01\x06\x01\x09\x08\xC8\x27\x3F\x7E\x7E\x7E",
    ),
];

/// Whether a packet encodes to this frame, which is read at both units.
fn is_framed(frame: &mut SerialFrame, packet: &[u8], bytes: &[u8]) -> bool {
    is_written(frame, packet, bytes)
        && are_read(Unit::U64, bytes, &[packet])
        && are_read(Unit::U128, bytes, &[packet])
}

#[test]
fn a_packet_is_a_frame(rt: HostRuntime) {
    let mut frame = SerialFrame::new();
    for (packet, bytes) in &FRAMES {
        assert!(rt; is_framed(&mut frame, packet, bytes));
    }
}

/// The frame of a packet of `count` equal bytes, each of which is `data` in a frame, with this
/// check sequence.
fn repeated(count: u8, data: &[u8], check: &[u8]) -> SerialFrame {
    let mut frame = SerialFrame::new();
    let _ = frame.try_extend_from_slice(&[0x7E, 1, count]);
    for _ in 0..count {
        let _ = frame.try_extend_from_slice(data);
    }
    let _ = frame.try_extend_from_slice(check);
    let _ = frame.try_extend_from_slice(&[0x7E]);
    frame
}

/// A packet's size, each of its bytes, that byte in a frame, the check sequence, and whether the
/// frame is read at a unit of 64 and of 128.
type Long<'a> = (u8, u8, &'a [u8], &'a [u8], bool, bool);

static LONG: [Long<'static>; 7] = [
    (68, 0x5A, b"\x5A", b"\xB0\x93", true, true),
    (69, 0x5A, b"\x5A", b"\xC3\x5F", false, true),
    (126, 0x5A, b"\x5A", b"\x11\xBC", false, true),
    (132, 0x5A, b"\x5A", b"\x5B\xFC", false, true),
    (133, 0x5A, b"\x5A", b"\x87\x7B", false, false),
    (68, 0x7E, b"\x7D\x5E", b"\xCA\xFD", true, true),
    (132, 0x7E, b"\x7D\x5E", b"\xD2\x20", false, true),
];

/// Whether a frame is read as its case says, and encoded if the packet isn't too long at 128.
fn is_carried(row: &Long<'_>) -> bool {
    let (count, byte, data, check, at_64, at_128) = *row;
    let bytes = [byte; 133];
    let packet = bytes.get(..usize::from(count)).unwrap_or(&[]);
    let frame = repeated(count, data, check);
    are_read(Unit::U64, frame.as_slice(), &[packet]) == at_64
        && are_read(Unit::U128, frame.as_slice(), &[packet]) == at_128
        && is_written(&mut SerialFrame::new(), packet, frame.as_slice()) == at_128
}

#[test]
fn a_frame_carries_the_unit_and_a_head_at_most(rt: HostRuntime) {
    for row in &LONG {
        assert!(rt; is_carried(row), "{}", row.0);
    }
}

/// Bytes before the first frame of `FRAMES`, and the number of times that its packet is then
/// returned.
type Noise<'a> = (&'a str, &'a [u8], usize);

static NOISE: [Noise<'static>; 17] = [
    ("nothing", b"", 1),
    ("bytes that are no frame", b"\x00\xFF\x01\x7D", 1),
    ("flags", b"\x7E\x7E\x7E", 1),
    (
        "a frame",
        b"\x7E\x01\x07\x01\x09\x08\xC8\x00\x80\x02\x0E\xB2\x7E",
        2,
    ),
    (
        "a frame, and one flag for both",
        b"\x7E\x01\x07\x01\x09\x08\xC8\x00\x80\x02\x0E\xB2",
        1,
    ),
    ("no byte of a packet", b"\x7E\x01\x00\xE9\x60\x7E", 1),
    (
        "revision 2",
        b"\x7E\x02\x07\x01\x09\x08\xC8\x00\x80\x02\xD8\xB5\x7E",
        1,
    ),
    (
        "a wrong check sequence",
        b"\x7E\x01\x07\x01\x09\x08\xC8\x00\x80\x02\x0E\xB3\x7E",
        1,
    ),
    (
        "a check sequence complemented",
        b"\x7E\x01\x07\x01\x09\x08\xC8\x00\x80\x02\xF1\x4D\x7E",
        1,
    ),
    (
        "its low byte first",
        b"\x7E\x01\x07\x01\x09\x08\xC8\x00\x80\x02\xB2\x0E\x7E",
        1,
    ),
    (
        "a check sequence of the packet alone",
        b"\x7E\x01\x07\x01\x09\x08\xC8\x00\x80\x02\xE2\xD6\x7E",
        1,
    ),
    (
        "a check sequence of the escaped bytes",
        b"\x7E\x01\x06\x01\x09\x08\xC8\x7D\x5E\x7D\x5D\x6F\xD8\x7E",
        1,
    ),
    (
        "a frame that is cut off",
        b"\x7E\x01\x07\x01\x09\x08\xC8\x00",
        1,
    ),
    (
        "a flag that isn't escaped",
        b"\x7E\x01\x05\x01\x09\x08\xC8\x7E\x52\xAB\x7E",
        1,
    ),
    (
        "a flag that is escaped as itself",
        b"\x7E\x01\x05\x01\x09\x08\xC8\x7D\x7E\x52\xAB\x7E",
        1,
    ),
    (
        "an escaped byte that needs no escape",
        b"\x7E\x01\x05\x01\x09\x08\xC8\x7D\x5C\x71\xB9\x7E",
        1,
    ),
    (
        "no flag at the end",
        b"\x7E\x01\x07\x01\x09\x08\xC8\x00\x80\x02\x0E\xB2\x00",
        1,
    ),
];

/// Whether the packet of the first frame is returned `count` times after noise.
fn is_read_after(noise: &[u8], count: usize) -> bool {
    let (packet, frame) = FRAMES[0];
    let packets = [packet, packet];
    let wanted = packets.get(..count).unwrap_or(&[]);
    let mut stream = SerialFrame::new();
    let _ = stream.try_extend_from_slice(noise);
    let _ = stream.try_extend_from_slice(frame);
    are_read(Unit::U64, stream.as_slice(), wanted)
        && are_read(Unit::U128, stream.as_slice(), wanted)
}

#[test]
fn a_frame_is_read_after_noise(rt: HostRuntime) {
    for (situation, noise, count) in &NOISE {
        assert!(rt; is_read_after(noise, *count), "{situation}");
    }
}

/// A flag and a revision, a frame of a packet of 122 bytes, and then the first frame twice.
fn counted_flag() -> SerialFrame {
    let (_, frame) = FRAMES[0];
    let mut stream = SerialFrame::new();
    let _ = stream.try_extend_from_slice(&[0x7E, 1]);
    let _ = stream.try_extend_from_slice(repeated(122, b"\x5A", b"\x02\x52").as_slice());
    let _ = stream.try_extend_from_slice(frame);
    let _ = stream.try_extend_from_slice(frame);
    stream
}

/// After a flag and a revision, the flag that begins a frame is a byte count of 126 at a unit of
/// 128. A packet of 122 bytes and its framing fill that, and two frames are lost.
#[test]
fn a_flag_may_be_taken_for_a_byte_count(rt: HostRuntime) {
    let (packet, _) = FRAMES[0];
    let stream = counted_flag();
    assert!(rt; are_read(Unit::U64, stream.as_slice(), &[packet, packet]));
    assert!(rt; are_read(Unit::U128, stream.as_slice(), &[packet]));
}
