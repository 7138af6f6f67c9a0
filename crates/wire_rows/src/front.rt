//! Answers in front of a node. The endpoint is 9, and a request's source is 8 unless a comment says
//! otherwise. The bytes are worked out from DSP0236 and DSP0240: a packet is the version 01, the
//! destination, the source and the flags (80 SOM, 40 EOM, 30 sequence number, 08 TO, 07 tag), so
//! that C8 is a request under tag 0 and C0 its answer. A message's second byte has Rq (80), D (40)
//! and the instance identifier (1F).

use mctp_ctl::Endpoint;
use mctp_front::front;
use mctp_wire::Unit;
use uuid::Uuid;

/// Whether a front of endpoint 9 answers a packet with these bytes, and which; no bytes: it passes.
fn is_answered(unit: Unit, packet: &[u8], answer: &[u8]) -> bool {
    let endpoint = Endpoint {
        eid: 9,
        uuid: Uuid::from_bytes([0x5A; 16]),
    };
    match front(unit, &endpoint, packet) {
        Some(found) => found.as_slice() == answer,
        None => answer.is_empty(),
    }
}

/// Whether this is so at both transmission units.
fn at_both(packet: &[u8], answer: &[u8]) -> bool {
    is_answered(Unit::U64, packet, answer) && is_answered(Unit::U128, packet, answer)
}

/// Sent to the null identifier. Get Endpoint ID: 9, a simple endpoint with a fixed identifier (01);
/// the same for a source that has no identifier yet; with a byte too much. Set Endpoint ID: its own
/// is accepted (00), another is rejected (10), and 0 is invalid data.
static PHYSICAL: [(&[u8], &[u8]); 6] = [
    (
        b"\x01\x00\x08\xCA\x00\x83\x02",
        b"\x01\x08\x09\xC2\x00\x03\x02\x00\x09\x01\x00",
    ),
    (
        b"\x01\x00\x00\xC8\x00\x80\x02",
        b"\x01\x00\x09\xC0\x00\x00\x02\x00\x09\x01\x00",
    ),
    (
        b"\x01\x00\x08\xC8\x00\x80\x02\x00",
        b"\x01\x08\x09\xC0\x00\x00\x02\x03",
    ),
    (
        b"\x01\x00\x08\xC8\x00\x81\x01\x00\x09",
        b"\x01\x08\x09\xC0\x00\x01\x01\x00\x00\x09\x00",
    ),
    (
        b"\x01\x00\x08\xCF\x00\x9F\x01\x01\x0A",
        b"\x01\x08\x09\xC7\x00\x1F\x01\x00\x10\x09\x00",
    ),
    (
        b"\x01\x00\x08\xC8\x00\x80\x01\x00\x00",
        b"\x01\x08\x09\xC0\x00\x00\x01\x02",
    ),
];

/// Get MCTP Version Support: one version, 1.3.1 of control messages and 1.0.0 of PLDM over MCTP. A
/// version is major, minor, update and letter, each digit after an F.
static VERSION_SUPPORT: [(&[u8], &[u8]); 2] = [
    (
        b"\x01\x09\x08\xC9\x00\x81\x04\x00",
        b"\x01\x08\x09\xC1\x00\x01\x04\x00\x01\xF1\xF3\xF1\x00",
    ),
    (
        b"\x01\x09\x08\xC9\x00\x81\x04\x01",
        b"\x01\x08\x09\xC1\x00\x01\x04\x00\x01\xF1\xF0\xF0\x00",
    ),
];

/// GetPLDMVersion of the types 0 and 5: version 1.0.0 is 0xF1F0F000, and PLDM's numbers have their
/// low byte first. Its CRC-32 is 0x4A868FFB, the result of Python's
/// `zlib.crc32(bytes([0, 0xF0, 0xF0, 0xF1]))`. The handle of a first part is ignored, as are the
/// reserved bit of the second byte (20) and the packet's sequence number. Then type 2, the next
/// part, an operation that there isn't, a byte too few and a byte too many.
static VERSION: [(&[u8], &[u8]); 9] = [
    (
        b"\x01\x09\x08\xCD\x01\x85\x00\x03\x00\x00\x00\x00\x01\x00",
        b"\x01\x08\x09\xC5\x01\x05\x00\x03\x00\x00\x00\x00\x00\x05\x00\xF0\xF0\xF1\xFB\x8F\x86\x4A",
    ),
    (
        b"\x01\x09\x08\xC8\x01\x80\x00\x03\x00\x00\x00\x00\x01\x05",
        b"\x01\x08\x09\xC0\x01\x00\x00\x03\x00\x00\x00\x00\x00\x05\x00\xF0\xF0\xF1\xFB\x8F\x86\x4A",
    ),
    (
        b"\x01\x09\x08\xC8\x01\xA5\x00\x03\x04\x03\x02\x01\x01\x05",
        b"\x01\x08\x09\xC0\x01\x05\x00\x03\x00\x00\x00\x00\x00\x05\x00\xF0\xF0\xF1\xFB\x8F\x86\x4A",
    ),
    (
        b"\x01\x09\x08\xF8\x01\x80\x00\x03\x00\x00\x00\x00\x01\x05",
        b"\x01\x08\x09\xC0\x01\x00\x00\x03\x00\x00\x00\x00\x00\x05\x00\xF0\xF0\xF1\xFB\x8F\x86\x4A",
    ),
    (
        b"\x01\x09\x08\xC8\x01\x80\x00\x03\x00\x00\x00\x00\x01\x02",
        b"\x01\x08\x09\xC0\x01\x00\x00\x03\x83",
    ),
    (
        b"\x01\x09\x08\xC8\x01\x80\x00\x03\x00\x00\x00\x00\x00\x05",
        b"\x01\x08\x09\xC0\x01\x00\x00\x03\x80",
    ),
    (
        b"\x01\x09\x08\xC8\x01\x80\x00\x03\x00\x00\x00\x00\x02\x05",
        b"\x01\x08\x09\xC0\x01\x00\x00\x03\x81",
    ),
    (
        b"\x01\x09\x08\xC8\x01\x80\x00\x03\x00\x00\x00\x00\x01",
        b"\x01\x08\x09\xC0\x01\x00\x00\x03\x03",
    ),
    (
        b"\x01\x09\x08\xC8\x01\x80\x00\x03\x00\x00\x00\x00\x01\x05\x00",
        b"\x01\x08\x09\xC0\x01\x00\x00\x03\x03",
    ),
];

/// GetPLDMCommands of type 0: the bits 1 to 5 of 256, of which 3 is GetPLDMVersion.
static COMMANDS: [(&[u8], &[u8]); 1] = [(
    b"\x01\x09\x08\xC8\x01\x80\x00\x05\x00\x00\xF0\xF0\xF1",
    b"\x01\x08\x09\xC0\x01\x00\x00\x05\x00\x3E\0\0\0\0\0\0\0\0\0\0\0\0\0\0\0\0\0\0\0\0\0\0\0\0\0\0\0\0\0\0\0",
)];

/// Packets that pass, as the node knows them or drops them.
static PASSING: [&[u8]; 27] = [
    // No packet: no bytes, another header version, and no body.
    b"",
    b"\x02\x09\x08\xC8\x00\x81\x04\x00",
    b"\x01\x09\x08\xC8",
    // To the own identifier: Get and Set Endpoint ID, Get Endpoint UUID, Get Message Type Support.
    b"\x01\x09\x08\xC8\x00\x80\x02",
    b"\x01\x09\x08\xC8\x00\x80\x01\x00\x0A",
    b"\x01\x09\x08\xC8\x00\x80\x03",
    b"\x01\x09\x08\xC8\x00\x80\x05",
    // Get MCTP Version Support of the base protocol, of another type, and with a byte too few.
    b"\x01\x09\x08\xC8\x00\x80\x04\xFF",
    b"\x01\x09\x08\xC8\x00\x80\x04\x02",
    b"\x01\x09\x08\xC8\x00\x80\x04",
    // To the null identifier: Get Endpoint UUID, Get MCTP Version Support, GetPLDMVersion.
    b"\x01\x00\x08\xC8\x00\x80\x03",
    b"\x01\x00\x08\xC8\x00\x80\x04\x00",
    b"\x01\x00\x08\xC8\x01\x80\x00\x03\x00\x00\x00\x00\x01\x00",
    // Get Endpoint ID to all, and to another.
    b"\x01\xFF\x08\xC8\x00\x80\x02",
    b"\x01\x0A\x08\xC8\x00\x80\x02",
    // Get MCTP Version Support as a datagram, as an answer, and with TO clear.
    b"\x01\x09\x08\xC8\x00\xC1\x04\x00",
    b"\x01\x09\x08\xC8\x00\x01\x04\x00",
    b"\x01\x09\x08\xC0\x00\x81\x04\x00",
    // GetPLDMVersion to another, with SOM alone, EOM alone, and as an answer.
    b"\x01\x0A\x08\xC8\x01\x80\x00\x03\x00\x00\x00\x00\x01\x00",
    b"\x01\x09\x08\x88\x01\x80\x00\x03\x00\x00\x00\x00\x01\x00",
    b"\x01\x09\x08\x58\x01\x80\x00\x03\x00\x00\x00\x00\x01\x00",
    b"\x01\x09\x08\xC0\x01\x00\x00\x03\x05",
    // GetPLDMTypes, GetTID, GetPLDMCommands of type 5 and with a byte too few.
    b"\x01\x09\x08\xC8\x01\x80\x00\x04",
    b"\x01\x09\x08\xC8\x01\x80\x00\x02",
    b"\x01\x09\x08\xC8\x01\x80\x00\x05\x05\x00\xF0\xF0\xF1",
    b"\x01\x09\x08\xC8\x01\x80\x00\x05\x00\x00\xF0\xF0",
    // QueryDeviceIdentifiers.
    b"\x01\x09\x08\xC8\x01\x80\x05\x01",
];

/// Whether each packet is answered so.
fn are_answered(rows: &[(&[u8], &[u8])]) -> bool {
    for (packet, answer) in rows {
        if !at_both(packet, answer) {
            return false;
        }
    }
    true
}

#[test]
fn answers_the_rows(rt: HostRuntime) {
    assert!(rt; are_answered(&PHYSICAL));
    assert!(rt; are_answered(&VERSION_SUPPORT));
    assert!(rt; are_answered(&VERSION));
    assert!(rt; are_answered(&COMMANDS));
}

#[test]
fn passes_the_rest(rt: HostRuntime) {
    for packet in &PASSING {
        assert!(rt; at_both(packet, b""));
    }
}

/// A body of 65 bytes is GetPLDMVersion with too many fields at a unit of 128, and no packet at 64.
#[test]
fn keeps_the_unit(rt: HostRuntime) {
    let mut packet = [0; 69];
    packet[..8].copy_from_slice(b"\x01\x09\x08\xC8\x01\x80\x00\x03");
    assert!(rt; is_answered(Unit::U64, &packet, b""));
    assert!(rt; is_answered(Unit::U128, &packet, b"\x01\x08\x09\xC0\x01\x00\x00\x03\x03"));
}
