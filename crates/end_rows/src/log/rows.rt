//! Calls of a new log, one after the other.

use super::{Row, STARTED};
use sel_core::SelCall::{Note, Request, Restart};
use sel_core::{Event, EventKind, Sel, SelCall, SelReply};
use std::alloc::{AllocError, Global};

/// An entry that is read as a whole: a note at time 5.
const WHOLE: [u8; 19] = [
    0, 0xFF, 0xFF, 1, 0, 0xC1, 5, 0, 0, 0, 0, 0, 0, 1, 9, 1, 0, 0xFF, 0xFF,
];

/// A note is read as a whole and in parts.
pub const PARTS: [Row<'static>; 14] = [
    (Note(STARTED, 5), &[]),
    (Request(0x43, &[0, 0, 0, 0, 0, 0xFF], 0), &WHOLE),
    // a part without a reservation, and with one
    (Request(0x43, &[0, 0, 0, 0, 0x0A, 2], 0), &[0xC5]),
    (Request(0x42, &[], 0), &[0, 1, 0]),
    (
        Request(0x43, &[1, 0, 0, 0, 10, 2], 0),
        &[0, 0xFF, 0xFF, 1, 9],
    ),
    // past the end, the last byte, and from the end on
    (Request(0x43, &[1, 0, 0, 0, 0x0F, 2], 0), &[0xC9]),
    (
        Request(0x43, &[1, 0, 1, 0, 15, 1], 0),
        &[0, 0xFF, 0xFF, 0xFF],
    ),
    (Request(0x43, &[1, 0, 1, 0, 16, 0xFF], 0), &[0xC9]),
    // no byte, all of them, and one too many
    (Request(0x43, &[1, 0, 1, 0, 0, 0], 0), &[0, 0xFF, 0xFF]),
    (Request(0x43, &[1, 0, 1, 0, 0, 16], 0), &WHOLE),
    (Request(0x43, &[1, 0, 1, 0, 0, 17], 0), &[0xC9]),
    // that there is no such record is checked first
    (Request(0x43, &[1, 0, 7, 0, 16, 1], 0), &[0xCB]),
    (Request(0x46, &[1, 0, 5, 0], 0), &[0xCB]),
    (Request(0x46, &[1, 0, 0xFF, 0xFF], 0), &[0, 1, 0]),
];

/// A delete removes the record.
pub const DELETES: [Row<'static>; 18] = [
    (Request(0x43, &[0, 0, 0, 0, 0, 2], 0), &[0xCB]),
    (Request(0x43, &[0, 0, 0xFF, 0xFF, 0, 2], 0), &[0xCB]),
    (Note(STARTED, 0), &[]),
    (Note(STARTED, 0), &[]),
    (Note(STARTED, 0), &[]),
    (Note(STARTED, 0), &[]),
    (Request(0x42, &[], 0), &[0, 1, 0]),
    // the second of four is deleted
    (Request(0x46, &[1, 0, 2, 0], 0), &[0, 2, 0]),
    (Request(0x43, &[0, 0, 0, 0, 0, 2], 0), &[0, 3, 0, 1, 0]),
    (Request(0x43, &[0, 0, 3, 0, 0, 2], 0), &[0, 4, 0, 3, 0]),
    (Request(0x43, &[0, 0, 2, 0, 0, 2], 0), &[0xCB]),
    // the last is deleted, and then the first
    (Request(0x42, &[], 0), &[0, 2, 0]),
    (Request(0x46, &[2, 0, 0xFF, 0xFF], 0), &[0, 4, 0]),
    (Request(0x42, &[], 0), &[0, 3, 0]),
    (Request(0x46, &[3, 0, 0, 0], 0), &[0, 1, 0]),
    (
        Request(0x43, &[0, 0, 0, 0, 0, 2], 0),
        &[0, 0xFF, 0xFF, 3, 0],
    ),
    (Request(0x44, &[0xFF; 16], 0), &[0, 5, 0]),
    (Request(0x43, &[0, 0, 0, 0, 0, 2], 0), &[0, 5, 0, 3, 0]),
];

/// A wrong length is checked first: without a reservation and without a record each of these would
/// be refused for another reason too. There are no commands 0x41, 0x45 and 0x4A.
pub const LENGTHS: [Row<'static>; 12] = [
    (Request(0x40, &[0xFF; 1], 0), &[0xC7]),
    (Request(0x42, &[0xFF; 1], 0), &[0xC7]),
    (Request(0x43, &[0xFF; 5], 0), &[0xC7]),
    (Request(0x44, &[0xFF; 15], 0), &[0xC7]),
    (Request(0x44, &[0xFF; 17], 0), &[0xC7]),
    (Request(0x46, &[0xFF; 3], 0), &[0xC7]),
    (Request(0x47, &[0xFF; 7], 0), &[0xC7]),
    (Request(0x48, &[0xFF; 1], 0), &[0xC7]),
    (Request(0x49, &[0xFF; 5], 0), &[0xC7]),
    (Request(0x41, &[], 0), &[0xC1]),
    (Request(0x45, &[0xFF; 17], 0), &[0xC1]),
    (Request(0x4A, &[], 0), &[0xC1]),
];

/// Each kind of event has its number: an entry of each, at time 0x01020304.
pub const KINDS: [Row<'static>; 10] = [
    (
        Note(
            Event {
                kind: EventKind::Started,
                device: 200,
                package: 0x1234,
            },
            0x01020304,
        ),
        &[],
    ),
    (
        Note(
            Event {
                kind: EventKind::Applied(0x0102),
                device: 200,
                package: 0x1234,
            },
            0x01020304,
        ),
        &[],
    ),
    (
        Note(
            Event {
                kind: EventKind::Activated,
                device: 200,
                package: 0x1234,
            },
            0x01020304,
        ),
        &[],
    ),
    (
        Note(
            Event {
                kind: EventKind::Failed(7),
                device: 200,
                package: 0x1234,
            },
            0x01020304,
        ),
        &[],
    ),
    (
        Note(
            Event {
                kind: EventKind::Cancelled,
                device: 200,
                package: 0x1234,
            },
            0x01020304,
        ),
        &[],
    ),
    (
        Request(0x43, &[0, 0, 1, 0, 0, 0xFF], 0),
        &[
            0, 2, 0, 1, 0, 0xC1, 4, 3, 2, 1, 0, 0, 0, 1, 200, 0x34, 0x12, 0xFF, 0xFF,
        ],
    ),
    (
        Request(0x43, &[0, 0, 2, 0, 0, 0xFF], 0),
        &[
            0, 3, 0, 2, 0, 0xC1, 4, 3, 2, 1, 0, 0, 0, 2, 200, 0x34, 0x12, 2, 1,
        ],
    ),
    (
        Request(0x43, &[0, 0, 3, 0, 0, 0xFF], 0),
        &[
            0, 4, 0, 3, 0, 0xC1, 4, 3, 2, 1, 0, 0, 0, 3, 200, 0x34, 0x12, 0xFF, 0xFF,
        ],
    ),
    (
        Request(0x43, &[0, 0, 4, 0, 0, 0xFF], 0),
        &[
            0, 5, 0, 4, 0, 0xC1, 4, 3, 2, 1, 0, 0, 0, 4, 200, 0x34, 0x12, 7, 0,
        ],
    ),
    (
        Request(0x43, &[0, 0, 5, 0, 0, 0xFF], 0),
        &[
            0, 0xFF, 0xFF, 5, 0, 0xC1, 4, 3, 2, 1, 0, 0, 0, 5, 200, 0x34, 0x12, 0xFF, 0xFF,
        ],
    ),
];

/// A record of type 2, and one of the log's own type.
const RECORD: [u8; 16] = [
    0, 0, 0x02, 0, 0, 0, 0, 0x20, 0, 0x04, 0x01, 0x01, 0x6F, 0xFF, 0xFF, 0xFF,
];

const OWN: [u8; 16] = [
    0, 0, 0xC1, 0, 0, 0, 0, 0x20, 0, 0x04, 0x01, 0x01, 0x6F, 0xFF, 0xFF, 0xFF,
];

/// A clear under an old reservation is refused.
pub const CLEARS: [Row<'static>; 8] = [
    (
        Request(0x40, &[], 0),
        &[
            0, 0x51, 0, 0, 0, 8, 0xFF, 0xFF, 0xFF, 0xFF, 0xFF, 0xFF, 0xFF, 0xFF, 0x0A,
        ],
    ),
    (Request(0x42, &[], 0), &[0, 1, 0]),
    (Request(0x44, &RECORD, 0), &[0, 1, 0]),
    (Request(0x47, &[1, 0, 0x43, 0x4C, 0x52, 0xAA], 0), &[0xC5]),
    (Request(0x42, &[], 0), &[0, 2, 0]),
    (Request(0x47, &[2, 0, 0x43, 0x4C, 0x52, 0xAA], 0), &[0, 1]),
    (Request(0x43, &[0, 0, 0, 0, 0, 0xFF], 0), &[0xCB]),
    (Request(0x44, &OWN, 0), &[0x80]),
];

/// The calls that cancel a reservation.
pub const CANCELS: [Row<'static>; 17] = [
    (Note(STARTED, 0), &[]),
    (Request(0x42, &[], 0), &[0, 1, 0]),
    // neither other letters, nor another action, nor the progress
    (Request(0x47, &[1, 0, 0x43, 0x4C, 0x53, 0xAA], 0), &[0xCC]),
    (Request(0x47, &[1, 0, 0x43, 0x4C, 0x52, 1], 0), &[0xCC]),
    (Request(0x47, &[1, 0, 0x43, 0x4C, 0x52, 0], 0), &[0, 1]),
    (Request(0x43, &[1, 0, 1, 0, 1, 1], 0), &[0, 0xFF, 0xFF, 0]),
    // but another reservation, a note, a restart and a clear
    (Request(0x42, &[], 0), &[0, 2, 0]),
    (Request(0x46, &[1, 0, 1, 0], 0), &[0xC5]),
    (Note(STARTED, 0), &[]),
    (Request(0x46, &[2, 0, 1, 0], 0), &[0xC5]),
    (Request(0x42, &[], 0), &[0, 3, 0]),
    (Restart, &[]),
    (Request(0x46, &[3, 0, 1, 0], 0), &[0xC5]),
    (Request(0x42, &[], 0), &[0, 4, 0]),
    (Request(0x47, &[4, 0, 0x43, 0x4C, 0x52, 0xAA], 0), &[0, 1]),
    (Request(0x47, &[4, 0, 0x43, 0x4C, 0x52, 0xAA], 0), &[0xC5]),
    // identifiers continue
    (Request(0x44, &[0; 16], 0), &[0, 3, 0]),
];

/// The time is set between additions, and none of the records changes its own.
pub const TIMES: [Row<'static>; 13] = [
    (Request(0x48, &[], 5), &[0, 5, 0, 0, 0]),
    (Note(STARTED, 6), &[]),
    (Request(0x49, &[0xF0, 0xFF, 0xFF, 0xFF], 10), &[0]),
    (Request(0x48, &[], 10), &[0, 0xF0, 0xFF, 0xFF, 0xFF]),
    (Note(STARTED, 11), &[]),
    // past 2^32
    (Request(0x48, &[], 27), &[0, 1, 0, 0, 0]),
    (Note(STARTED, 28), &[]),
    // set back
    (Request(0x49, &[0, 0, 0, 0], 29), &[0]),
    (Request(0x48, &[], 32), &[0, 3, 0, 0, 0]),
    (
        Request(0x43, &[0, 0, 1, 0, 0, 7], 0),
        &[0, 2, 0, 1, 0, 0xC1, 6, 0, 0, 0],
    ),
    (
        Request(0x43, &[0, 0, 2, 0, 0, 7], 0),
        &[0, 3, 0, 2, 0, 0xC1, 0xF1, 0xFF, 0xFF, 0xFF],
    ),
    (
        Request(0x43, &[0, 0, 3, 0, 0, 7], 0),
        &[0, 0xFF, 0xFF, 3, 0, 0xC1, 2, 0, 0, 0],
    ),
    (
        Request(0x40, &[], 33),
        &[
            0, 0x51, 3, 0, 0xD0, 7, 2, 0, 0, 0, 0xFF, 0xFF, 0xFF, 0xFF, 0x0A,
        ],
    ),
];

/// Whether these are the replies of the cases.
fn are_replies(rows: &[Row<'_>], replies: &[SelReply]) -> bool {
    for ((_, reply), got) in rows.iter().zip(replies) {
        if got.as_slice() != *reply {
            return false;
        }
    }
    replies.len() == rows.len()
}

/// The calls of the cases.
fn calls_of<'a>(alloc: Global, rows: &[Row<'a>]) -> Result<Vec<SelCall<'a>>, AllocError> {
    let mut calls = Vec::new(alloc);
    for (call, _) in rows {
        calls.push(*call)?;
    }
    Ok(calls)
}

/// Returns whether a new log gives these replies to the calls of the cases, made by `run`.
pub fn run_holds(alloc: Global, log: &mut Sel, rows: &[Row<'_>]) -> bool {
    let Ok(calls) = calls_of(alloc, rows) else {
        return false;
    };
    match log.run(alloc, &calls) {
        Ok(replies) => are_replies(rows, &replies),
        Err(_) => false,
    }
}
