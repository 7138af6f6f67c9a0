//! PLDM headers, decoded and encoded.

use pldm_base::{PldmFault, PldmHead, TYPE_BASE, decode, encode};

/// GetTID.
const GET_TID: PldmHead = PldmHead {
    rq: true,
    instance: 9,
    pldm_type: TYPE_BASE,
    command: 2,
};

/// Each field at its greatest.
const LAST: PldmHead = PldmHead {
    rq: false,
    instance: 31,
    pldm_type: 63,
    command: 255,
};

/// Whether a message decodes to this head and the bytes after it, and they encode back.
fn reads_and_writes(head: &PldmHead, message: &[u8]) -> bool {
    let Ok((read, body)) = decode(message) else {
        return false;
    };
    if read != *head || body.len() > 508 || read.instance > 31 || read.pldm_type > 63 {
        return false;
    }
    message.get(4..) == Some(body) && encode(&read, body).as_slice() == message
}

static MESSAGES: [(PldmHead, &[u8]); 2] = [
    (GET_TID, &[0x01, 0x89, 0x00, 0x02]),
    (LAST, &[0x01, 0x1F, 0x3F, 0xFF, 0x05]),
];

/// Whether this holds for the longest message.
fn longest_is_read() -> bool {
    let mut longest = [0xA5; 512];
    longest[..4].copy_from_slice(&[0x01, 0x1F, 0x3F, 0xFF]);
    reads_and_writes(&LAST, &longest)
}

#[test]
fn reads_what_it_writes(rt: HostRuntime) {
    for (head, message) in &MESSAGES {
        assert!(rt; reads_and_writes(head, message));
    }
    assert!(rt; longest_is_read());
}

/// Messages with a fault: no bytes, and three that are all wrong; another message type, the
/// integrity check bit, and all wrong but the length; a datagram, and one of version 1; version 1.
static FAULTS: [(&[u8], PldmFault); 8] = [
    (&[], PldmFault::Short),
    (&[0x00, 0xC0, 0x40], PldmFault::Short),
    (&[0x00, 0x80, 0x00, 0x02], PldmFault::NotPldm),
    (&[0x81, 0x80, 0x00, 0x02], PldmFault::NotPldm),
    (&[0x02, 0xC0, 0x40, 0x02], PldmFault::NotPldm),
    (&[0x01, 0xC0, 0x00, 0x02], PldmFault::Datagram),
    (&[0x01, 0x40, 0x40, 0x02], PldmFault::Datagram),
    (&[0x01, 0x80, 0x45, 0x02], PldmFault::HeaderVersion),
];

/// Whether a message has this fault.
fn has_fault(message: &[u8], fault: PldmFault) -> bool {
    match decode(message) {
        Ok(_) => false,
        Err(found) => found == fault,
    }
}

#[test]
fn names_the_first_fault(rt: HostRuntime) {
    for (message, fault) in &FAULTS {
        assert!(rt; has_fault(message, *fault));
    }
}
