//! Cases of packets and ticks.

use crate::nodes::setup::{Event, device_fails};

/// RequestUpdate: transfer size 240, one component, set text `A`; tag 0, identifier 0.
const REQUEST_UPDATE: &[u8] = &[
    0x01, 9, 8, 0xC8, 0x01, 0x80, 0x05, 0x10, 0xF0, 0, 0, 0, 1, 0, 1, 0, 0, 1, 1, 0x41,
];

/// Its answer: accepted.
const TAKEN: &[u8] = &[0x01, 8, 9, 0xC0, 0x01, 0, 0x05, 0x10, 0, 0, 0, 0];

/// Its answer: the device is in an update already.
const ALREADY: &[u8] = &[0x01, 8, 9, 0xC0, 0x01, 0, 0x05, 0x10, 0x81];

/// The same with another identifier.
const REQUEST_OTHER: &[u8] = &[
    0x01, 9, 8, 0xC8, 0x01, 0x81, 0x05, 0x10, 0xF0, 0, 0, 0, 1, 0, 1, 0, 0, 1, 1, 0x41,
];

/// The answer under that identifier: the device is in an update already.
const ALREADY_OTHER: &[u8] = &[0x01, 8, 9, 0xC0, 0x01, 0x01, 0x05, 0x10, 0x81];

/// A repeated request gets its kept answer.
const REPEATED: [Event<'static>; 6] = [
    Event::Packet(REQUEST_UPDATE, TAKEN),
    Event::Packet(REQUEST_UPDATE, TAKEN),
    Event::Quiet(24),
    Event::Packet(REQUEST_UPDATE, TAKEN),
    Event::Quiet(1),
    Event::Packet(REQUEST_UPDATE, ALREADY),
];

/// Another identifier is another request.
const OTHER: [Event<'static>; 2] = [
    Event::Packet(REQUEST_UPDATE, TAKEN),
    Event::Packet(REQUEST_OTHER, ALREADY_OTHER),
];

/// Get Endpoint ID; SetTID 5, then GetTID; another PLDM type; an agent's command without its data.
const BASE: [Event<'static>; 5] = [
    Event::Packet(
        &[0x01, 9, 8, 0xC8, 0x00, 0x80, 0x02],
        &[0x01, 8, 9, 0xC0, 0x00, 0x00, 0x02, 0, 9, 1, 0],
    ),
    Event::Packet(
        &[0x01, 9, 8, 0xC9, 0x01, 0x80, 0x00, 0x01, 0x05],
        &[0x01, 8, 9, 0xC1, 0x01, 0x00, 0x00, 0x01, 0],
    ),
    Event::Packet(
        &[0x01, 9, 8, 0xCA, 0x01, 0x81, 0x00, 0x02],
        &[0x01, 8, 9, 0xC2, 0x01, 0x01, 0x00, 0x02, 0, 5],
    ),
    Event::Packet(
        &[0x01, 9, 8, 0xCB, 0x01, 0x82, 0x03, 0x01],
        &[0x01, 8, 9, 0xC3, 0x01, 0x02, 0x03, 0x01, 0x20],
    ),
    Event::Packet(
        &[0x01, 9, 8, 0xCC, 0x01, 0x83, 0x05, 0x15],
        &[0x01, 8, 9, 0xC4, 0x01, 0x03, 0x05, 0x15, 5],
    ),
];

#[test]
fn a_device_does_as_each_row_says(rt: HostRuntime) {
    let table: [(&str, &[Event<'_>]); 3] = [
        ("a repeated request meets its kept answer", &REPEATED),
        ("another identifier is another request", &OTHER),
        ("control and base requests are answered", &BASE),
    ];
    for (situation, rows) in table {
        assert!(rt; device_fails(rt.alloc(), rows) == 0, "{situation}");
    }
}
