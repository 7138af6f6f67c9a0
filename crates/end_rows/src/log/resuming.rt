//! Logs that are resumed from what earlier ones kept.

use super::{STARTED, holds};
use sel_core::SelCall::{Note, Request};
use sel_core::{LogRecord, LogSettings, ResumeFault, Sel, SelCall};
use std::alloc::Global;

/// Settings of a log that refused a record.
const SETTINGS: LogSettings = LogSettings {
    next_id: 7,
    next_reservation: 3,
    offset: 100,
    last_addition: Some(9),
    last_erase: None,
    overflow: true,
};

/// A record; the others have other identifiers.
const RECORD: LogRecord = LogRecord {
    id: 5,
    record_type: 0x12,
    rest: [1, 2, 3, 4, 5, 6, 7, 8, 9, 10, 11, 12, 13],
};

const SECOND: LogRecord = LogRecord { id: 2, ..RECORD };

/// Calls of a log with these settings and the records 5 and 2, and their replies.
static RESUMED: [(SelCall<'static>, &[u8]); 6] = [
    // two records, 126 free ones, the times, and the overflow
    (
        Request(0x40, &[], 0),
        &[
            0, 0x51, 2, 0, 0xE0, 0x07, 9, 0, 0, 0, 0xFF, 0xFF, 0xFF, 0xFF, 0x8A,
        ],
    ),
    // the first record, which the record 2 follows
    (
        Request(0x43, &[0, 0, 0, 0, 0, 0xFF], 0),
        &[
            0, 2, 0, 5, 0, 0x12, 1, 2, 3, 4, 5, 6, 7, 8, 9, 10, 11, 12, 13,
        ],
    ),
    // there is no reservation, and the next one is 3
    (Request(0x46, &[2, 0, 5, 0], 0), &[0xC5]),
    (Request(0x42, &[], 0), &[0, 3, 0]),
    // the log's time
    (Request(0x48, &[], 1), &[0, 101, 0, 0, 0]),
    // the next identifier is 7
    (Request(0x44, &[0x12; 16], 1), &[0, 7, 0]),
];

/// Whether the log of these settings and records goes on.
fn goes_on(alloc: Global) -> bool {
    match Sel::resumed(alloc, SETTINGS, &[RECORD, SECOND]) {
        Ok(mut log) => holds(&mut log, &RESUMED),
        Err(_) => false,
    }
}

/// Whether a log with these settings and records can be resumed; None if memory is refused.
fn resumes(alloc: Global, settings: LogSettings, records: &[LogRecord]) -> Option<bool> {
    match Sel::resumed(alloc, settings, records) {
        Ok(_) => Some(true),
        Err(ResumeFault::NoLog) => Some(false),
        Err(_) => None,
    }
}

/// Settings and records that are no log: an identifier twice; identifiers that no record has; and
/// next identifiers and a next reservation that there are not.
static NONE: [(LogSettings, &[LogRecord]); 6] = [
    (SETTINGS, &[RECORD, SECOND, RECORD]),
    (SETTINGS, &[LogRecord { id: 0, ..RECORD }]),
    (
        SETTINGS,
        &[LogRecord {
            id: 0xFFFF,
            ..RECORD
        }],
    ),
    (
        LogSettings {
            next_id: 0,
            ..SETTINGS
        },
        &[],
    ),
    (
        LogSettings {
            next_id: 0xFFFF,
            ..SETTINGS
        },
        &[],
    ),
    (
        LogSettings {
            next_reservation: 0,
            ..SETTINGS
        },
        &[],
    ),
];

/// Whether a log of this number of records can be resumed; None if memory is refused.
fn resumes_of(alloc: Global, count: u16) -> Option<bool> {
    let mut records = [RECORD; 129];
    for (record, id) in records.iter_mut().zip(1..130_u16) {
        record.id = id;
    }
    resumes(
        alloc,
        SETTINGS,
        records.get(..usize::from(count)).unwrap_or(&[]),
    )
}

#[test]
fn a_log_is_resumed_and_what_is_none_is_refused(rt: HostRuntime) {
    assert!(rt; goes_on(rt.alloc()));
    assert!(rt; resumes_of(rt.alloc(), 128) == Some(true));
    assert!(rt; resumes_of(rt.alloc(), 129) == Some(false));
    for (settings, records) in &NONE {
        assert!(rt; resumes(rt.alloc(), *settings, records) == Some(false));
    }
}

/// Calls that move each setting of a log.
static MOVES: [(SelCall<'static>, &[u8]); 3] = [
    (Note(STARTED, 4), &[]),
    (Request(0x42, &[], 4), &[0, 1, 0]),
    (Request(0x49, &[14, 0, 0, 0], 4), &[0]),
];

const MOVED: LogSettings = LogSettings {
    next_id: 2,
    next_reservation: 2,
    offset: 10,
    last_addition: Some(4),
    last_erase: None,
    overflow: false,
};

/// Returns whether the settings of a new log are those that calls moved.
pub fn moves(log: &mut Sel) -> bool {
    holds(log, &MOVES) && log.settings() == MOVED
}
