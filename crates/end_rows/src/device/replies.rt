//! The answers of a device in each place of an update, the status there, and the state after a
//! time-out.

use crate::device::setup::Call::{Applied, Ask, Busy, Go, Is, Ticks};
use crate::device::setup::{
    ACTIVATE, APPLIED, APPLY, COMPLETE, Call, DOWNLOAD, DOWNLOADED, ENTRY, IDLE, LEARN, READY,
    REQUEST, Row, SIZE, VERIFIED, VERIFY, WORKED, holds,
};

const OFFER_STAMP_1: [u8; 21] = [
    0x0A, 0, 1, 0, 0, 1, 0, 0, 0, 0xF1, 0, 0, 0, 0, 0, 0, 0, 1, 2, 0x76, 0x32,
];

const OFFER_STAMP_2: [u8; 21] = [
    0x0A, 0, 1, 0, 0, 2, 0, 0, 0, 0xF1, 0, 0, 0, 0, 0, 0, 0, 1, 2, 0x76, 0x32,
];

/// The first calls of an update, one after the other, each with the state after it.
const TABLE: [Call<'static>; 20] = [
    Ask(0x1D, &[], &[0x80]),
    Is(0),
    Ask(0x10, &REQUEST, &[0, 0, 0, 0]),
    Is(1),
    Ask(0x10, &REQUEST, &[0x81]),
    Is(1),
    Ask(0x13, &ENTRY, &[0, 0, 0]),
    Is(2),
    Ask(0x1A, &[1], &[0x85]),
    Is(2),
    Ask(0x1A, &[2], &[2]),
    Is(2),
    Ask(0x14, &OFFER_STAMP_1, &[0, 1, 1, 0, 0, 0, 0, 0, 0]),
    Is(2),
    Busy(0x14, &OFFER_STAMP_2, &[4]),
    Is(2),
    Ask(0x14, &OFFER_STAMP_2, &[0, 0, 0, 0, 0, 0, 0, 0, 0]),
    Is(3),
    Ask(0x1B, &[], &[0, 3, 2, 0, 0, 0x65, 0, 0, 0, 0, 0]),
    Is(3),
];

/// A case of a place of an update: the status there, and the status once the 240th tick without a
/// change has ended the update, with nothing applied: state, previous state, aux, its status, and
/// the reason.
macro_rules! ends {
    (
        $situation:expr, $place:expr, $state:expr, $previous:expr, $aux:expr, $reason:expr
    ) => {
        Row {
            situation: $situation,
            made: WORKED,
            calls: &[
                Go(IDLE, $place, SIZE),
                status!($state, $previous, $aux, 0, 0),
                Ticks(239),
                status!($state, $previous, $aux, 0, 0),
                Ticks(1),
                status!(0, $state, 3, 0, $reason),
                Applied(None),
            ],
        }
    };
}

static ROWS: [Row<'static>; 12] = [
    Row {
        situation: "the worked table",
        made: WORKED,
        calls: &TABLE,
    },
    Row {
        situation: "IDLE",
        made: WORKED,
        calls: &[status!(0, 0, 3, 0, 0)],
    },
    Row {
        situation: "ACTIVATE",
        made: WORKED,
        calls: &[Go(IDLE, ACTIVATE, SIZE), status!(6, 2, 3, 0, 0)],
    },
    ends!("LEARN COMPONENTS", LEARN, 1, 0, 3, 3),
    ends!("READY XFER", READY, 2, 1, 3, 4),
    ends!("DOWNLOAD", DOWNLOAD, 3, 2, 0, 5),
    ends!("DOWNLOAD, whole", DOWNLOADED, 3, 2, 1, 5),
    ends!("VERIFY", VERIFY, 4, 3, 0, 6),
    ends!("VERIFY, sound", VERIFIED, 4, 3, 1, 6),
    ends!("APPLY", APPLY, 5, 4, 0, 7),
    ends!("APPLY, applied", APPLIED, 5, 4, 1, 7),
    ends!("READY XFER again", COMPLETE, 2, 5, 3, 4),
];

#[test]
fn answers_in_each_place_until_time_ends_the_update(rt: HostRuntime) {
    for row in &ROWS {
        assert!(rt; holds(rt.alloc(), row), "{}", row.situation);
    }
}
