//! The results of a failing bank and of a bad verdict.

use crate::device::setup::Call::{Ask, Go, Is, Judge, Malformed, Refused, Reports};
use crate::device::setup::{
    ACTIVATE, APPLY, COMPLETE, IDLE, Made, READY, Row, SIZE, VERIFY, WORKED, holds,
};
use fd_core::Verdict;

/// UpdateComponent of 32 bytes.
const OFFER: [u8; 21] = [
    0x0A, 0, 1, 0, 0, 2, 0, 0, 0, 32, 0, 0, 0, 0, 0, 0, 0, 1, 2, 0x76, 0x32,
];

/// A case of a bad verdict in a place: the report, which the device sends until an answer arrives,
/// also a malformed one; and the status after it, in which the component can be cancelled.
macro_rules! fails {
    ($situation:expr, $place:expr, $verdict:expr, $report:expr, $answer:expr, $status:expr) => {
        Row {
            situation: $situation,
            made: WORKED,
            calls: &[
                Go(IDLE, $place, SIZE),
                Judge($verdict),
                Reports(Some($report)),
                $answer,
                Reports(None),
                $status,
                Ask(0x1C, &[], &[0]),
            ],
        }
    };
}

const UNSOUND: (u8, u8) = (0x17, 0x90);

const NOT_APPLIED: (u8, u8) = (0x18, 0xB0);

/// A call of the bank that fails, and the calls after it; and bad verdicts.
static ROWS: [Row<'static>; 6] = [
    Row {
        situation: "begin fails",
        made: Made::Failing(1),
        calls: &[
            Go(IDLE, READY, 32),
            Ask(0x14, &OFFER, &[1]),
            Go(READY, ACTIVATE, 32),
            Is(6),
        ],
    },
    Row {
        situation: "switch fails",
        made: Made::Failing(4),
        calls: &[
            Go(IDLE, COMPLETE, 32),
            Ask(0x1A, &[0], &[1]),
            Go(COMPLETE, ACTIVATE, 32),
            Is(6),
        ],
    },
    fails!(
        "unsound",
        VERIFY,
        Verdict::VerifyFail,
        UNSOUND,
        Refused(0x88),
        status!(4, 3, 2, 0x90, 0)
    ),
    fails!(
        "unsound, malformed",
        VERIFY,
        Verdict::VerifyFail,
        UNSOUND,
        Malformed,
        status!(4, 3, 2, 0x90, 0)
    ),
    fails!(
        "not applied",
        APPLY,
        Verdict::ApplyFail,
        NOT_APPLIED,
        Refused(0x88),
        status!(5, 4, 2, 0xB0, 0)
    ),
    fails!(
        "not applied, malformed",
        APPLY,
        Verdict::ApplyFail,
        NOT_APPLIED,
        Malformed,
        status!(5, 4, 2, 0xB0, 0)
    ),
];

#[test]
fn a_failure_is_answered_or_reported_once(rt: HostRuntime) {
    for row in &ROWS {
        assert!(rt; holds(rt.alloc(), row), "{}", row.situation);
    }
}
