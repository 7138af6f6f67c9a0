//! Packets, decoded and encoded.

use mctp_wire::{Head, RawPacket, Unit, WireFault, decode, encode};

/// The head of the first packet of a request from endpoint 8 to endpoint 9.
const REQUEST: Head = Head {
    dest: 9,
    source: 8,
    som: true,
    eom: true,
    seq: 0,
    to: true,
    tag: 0,
};

/// A head in the middle of an answer: sequence number 2, tag 5.
const MIDDLE: Head = Head {
    dest: 8,
    source: 9,
    som: false,
    eom: false,
    seq: 2,
    to: false,
    tag: 5,
};

/// Whether a packet decodes to this head and the bytes after it.
fn reads(unit: Unit, head: &Head, packet: &[u8]) -> bool {
    match decode(unit, packet) {
        Ok(read) => read.head == *head && packet.get(4..) == Some(read.body),
        Err(_) => false,
    }
}

/// Whether this head and the bytes after it encode to a packet, which replaces the content of
/// `out`.
fn writes(out: &mut RawPacket, head: &Head, packet: &[u8]) -> bool {
    let [_, _, _, _, body @ ..] = packet else {
        return false;
    };
    if body.is_empty() || body.len() > 128 || head.seq > 3 || head.tag > 7 {
        return false;
    }
    encode(head, body, out);
    out.as_slice() == packet
}

/// One byte more than the longest packet at the greater unit; some of its beginnings are packets.
fn longest() -> [u8; 133] {
    let mut longest = [0x5A; 133];
    longest[..4].copy_from_slice(&[0x01, 9, 8, 0xC8]);
    longest
}

/// Whether its first `size` bytes are too long for a packet at this unit.
fn is_too_long(unit: Unit, size: usize) -> bool {
    let bytes = longest();
    let Some(packet) = bytes.get(..size) else {
        return false;
    };
    match decode(unit, packet) {
        Ok(_) => false,
        Err(fault) => fault == WireFault::TooLong,
    }
}

/// A unit, a size, and whether it is too long.
static SIZES: [(Unit, usize, bool); 5] = [
    (Unit::U64, 68, false),
    (Unit::U64, 69, true),
    (Unit::U128, 69, false),
    (Unit::U128, 132, false),
    (Unit::U128, 133, true),
];

#[test]
fn a_packet_carries_the_unit_at_most(rt: HostRuntime) {
    for (unit, size, wanted) in &SIZES {
        assert!(rt; is_too_long(*unit, *size) == *wanted, "{size}");
    }
}

/// Whether this head and the bytes after it are those of a packet, also if another one was encoded
/// before.
fn is_both_ways(unit: Unit, head: &Head, packet: &[u8]) -> bool {
    let mut out = RawPacket::new();
    let _ = out.try_extend_from_slice(&[0x5A; 9]);
    reads(unit, head, packet) && writes(&mut out, head, packet)
}

static PACKETS: [(Unit, Head, &[u8]); 4] = [
    (Unit::U64, REQUEST, &[0x01, 9, 8, 0xC8, 0x00, 0x80, 0x02]),
    (Unit::U64, MIDDLE, &[0x01, 8, 9, 0x25, 0xAA]),
    (Unit::U64, MIDDLE, &[0x01, 8, 9, 0x25, 0xBB]),
    (Unit::U128, MIDDLE, &[0x01, 8, 9, 0x25, 0xBB]),
];

/// Units, and the sizes of long packets.
static LONG: [(Unit, usize); 3] = [(Unit::U64, 68), (Unit::U128, 68), (Unit::U128, 132)];

#[test]
fn reads_and_writes_packets(rt: HostRuntime) {
    for (unit, head, packet) in &PACKETS {
        assert!(rt; is_both_ways(*unit, head, packet));
    }
    for (unit, size) in &LONG {
        assert!(rt; is_both_ways(*unit, &REQUEST, longest().get(..*size).unwrap_or(&[])));
    }
    // the reserved bits of the first byte are ignored
    assert!(rt; reads(Unit::U64, &REQUEST, &[0xF1, 9, 8, 0xC8, 0x00]));
}
