//! A device of several components, what it reports of them, and how stamps are compared.

use crate::device::setup::Call::{Active, Applied, Ask, Busy, Go, Is, Keys, May};
use crate::device::setup::{
    APPLIED, COMPLETE, Call, DOWNLOADED, IDLE, KEY, Made, OTHER, READY, REQUEST, Row, SIZE, WORKED,
    holds,
};
use fd_core::BankComponent;
use mctp_wire::Unit;

/// RequestUpdate of two components, and of three.
const TWO: [u8; 12] = [0xF0, 0, 0, 0, 2, 0, 1, 0, 0, 1, 1, 0x41];

const THREE: [u8; 12] = [0xF0, 0, 0, 0, 3, 0, 1, 0, 0, 1, 1, 0x41];

/// A table of three entries, each with stamp 2 and no text, with the flags and components below.
const TABLE: [Call<'static>; 12] = [
    Ask(0x10, &THREE, &[0, 0, 0, 0]),
    // the first entry is neither a middle one, nor a last, nor the only one
    Ask(0x13, &[2, 0x0A, 0, 1, 0, 0, 2, 0, 0, 0, 1, 0], &[2]),
    Ask(0x13, &[4, 0x0A, 0, 1, 0, 0, 2, 0, 0, 0, 1, 0], &[2]),
    Ask(0x13, &[5, 0x0A, 0, 1, 0, 0, 2, 0, 0, 0, 1, 0], &[2]),
    Ask(0x13, &[1, 0x0A, 0, 1, 0, 0, 2, 0, 0, 0, 1, 0], &[0, 0, 0]),
    // a second first entry, the first component again, and a component that isn't the device's
    Ask(0x13, &[1, 0x0A, 0, 2, 0, 0, 2, 0, 0, 0, 1, 0], &[2]),
    Ask(0x13, &[2, 0x0A, 0, 1, 0, 0, 2, 0, 0, 0, 1, 0], &[2]),
    Ask(0x13, &[2, 0x0A, 0, 3, 0, 0, 2, 0, 0, 0, 1, 0], &[0, 1, 6]),
    // the last entry isn't a middle one, and there is no fourth
    Ask(0x13, &[2, 0x0A, 0, 2, 0, 0, 2, 0, 0, 0, 1, 0], &[2]),
    Ask(0x13, &[4, 0x0A, 0, 2, 0, 0, 2, 0, 0, 0, 1, 0], &[0, 0, 0]),
    Ask(0x13, &[4, 0x0A, 0, 4, 0, 0, 2, 0, 0, 0, 1, 0], &[0x84]),
    Is(2),
];

/// The second component's offer: stamp 2, `v2`, an empty image.
const EMPTY: [u8; 21] = [
    0x0A, 0, 2, 0, 0, 2, 0, 0, 0, 0, 0, 0, 0, 0, 0, 0, 0, 1, 2, 0x76, 0x32,
];

/// An update of two components is activated when both are applied, and not before.
const WHOLE: [Call<'static>; 14] = [
    Ask(0x10, &TWO, &[0, 0, 0, 0]),
    Ask(0x13, &[1, 0x0A, 0, 1, 0, 0, 2, 0, 0, 0, 1, 0], &[0, 0, 0]),
    Ask(0x13, &[4, 0x0A, 0, 2, 0, 0, 2, 0, 0, 0, 1, 0], &[0, 0, 0]),
    Go(READY, COMPLETE, 32),
    Applied(Some((2, 32, 0))),
    Ask(0x1A, &[0], &[0x85]),
    May(false),
    Ask(0x14, &EMPTY, &[0, 0, 0, 0, 0, 0, 0, 0, 0]),
    // the whole image is received
    Ask(0x1B, &[], &[0, 3, 2, 1, 0, 0x65, 0, 0, 0, 0, 0]),
    Go(DOWNLOADED, COMPLETE, 0),
    May(true),
    Ask(0x1A, &[0], &[0, 0, 0]),
    Active(KEY, (2, 32, 0)),
    Active(OTHER, (2, 0, 0)),
];

/// The reports of the worked device: its descriptors, its component, and the same with an image
/// pending.
const TOLD: [Call<'static>; 5] = [
    Busy(0x01, &[], &[0, 6, 0, 0, 0, 1, 0, 0, 2, 0, 0x34, 0x12]),
    Busy(
        0x02,
        &[],
        &[
            0, 0, 0, 0, 0, 1, 0, 0, 0, 0, 0, 0x0A, 0, 1, 0, 0, 1, 0, 0, 0, 1, 3, 0, 0, 0, 0, 0, 0,
            0, 0, 0, 0, 0, 0, 0, 0, 0, 0, 0, 0, 0, 0, 0, 0, 2, 0, 0, 0, 0, 0, 0x31, 0x2E, 0x30,
        ],
    ),
    Go(IDLE, APPLIED, SIZE),
    Busy(
        0x02,
        &[],
        &[
            0, 0, 0, 0, 0, 1, 0, 0, 0, 0, 0, 0x0A, 0, 1, 0, 0, 1, 0, 0, 0, 1, 3, 0, 0, 0, 0, 0, 0,
            0, 0, 2, 0, 0, 0, 1, 2, 0, 0, 0, 0, 0, 0, 0, 0, 2, 0, 0, 0, 0, 0, 0x31, 0x2E, 0x30,
            0x76, 0x32,
        ],
    ),
    Keys(&[BankComponent { key: KEY, index: 0 }]),
];

/// A case of stamps: the active one; the offered one, in its bytes; the answer to
/// PassComponentTable; whether the update is forced; the answer to UpdateComponent; and the state
/// after it.
macro_rules! stamps {
    ($situation:expr, $active:expr, $stamp:expr, $listed:expr, $forced:expr, $taken:expr, $state:expr) => {
        Row {
            situation: $situation,
            made: Made::Worked(Unit::U64, $active),
            calls: &[
                Ask(0x10, &REQUEST, &[0, 0, 0, 0]),
                Ask(
                    0x13,
                    &[
                        5, 0x0A, 0, 1, 0, 0, $stamp[0], $stamp[1], $stamp[2], $stamp[3], 1, 2, 0x76,
                        0x32,
                    ],
                    &$listed,
                ),
                Ask(
                    0x14,
                    &[
                        0x0A, 0, 1, 0, 0, $stamp[0], $stamp[1], $stamp[2], $stamp[3], 241, 0, 0, 0,
                        $forced, 0, 0, 0, 1, 2, 0x76, 0x32,
                    ],
                    &$taken,
                ),
                Is($state),
            ],
        }
    };
}

/// The offered stamp of most cases, none, and the greatest but one.
const TWO_BYTES: [u8; 4] = [2, 0, 0, 0];

const NO_BYTES: [u8; 4] = [0xFF, 0xFF, 0xFF, 0xFF];

const LATE_BYTES: [u8; 4] = [0xFD, 0xFF, 0xFF, 0xFF];

static ROWS: [Row<'static>; 12] = [
    Row {
        situation: "a table of several components",
        made: Made::Twofold,
        calls: &TABLE,
    },
    Row {
        situation: "only a whole update is activated",
        made: Made::Twofold,
        calls: &WHOLE,
    },
    Row {
        situation: "descriptors and components",
        made: WORKED,
        calls: &TOLD,
    },
    stamps!("higher", 1, TWO_BYTES, [0, 0, 0], 0, [0; 9], 3),
    stamps!(
        "the same",
        2,
        TWO_BYTES,
        [0, 1, 1],
        0,
        [0, 1, 1, 0, 0, 0, 0, 0, 0],
        2
    ),
    stamps!(
        "lower",
        3,
        TWO_BYTES,
        [0, 1, 2],
        0,
        [0, 1, 2, 0, 0, 0, 0, 0, 0],
        2
    ),
    stamps!(
        "the same, forced",
        2,
        TWO_BYTES,
        [0, 1, 1],
        1,
        [0, 0, 0, 1, 0, 0, 0, 0, 0],
        3
    ),
    stamps!(
        "lower, forced",
        3,
        TWO_BYTES,
        [0, 1, 2],
        1,
        [0, 0, 0, 1, 0, 0, 0, 0, 0],
        3
    ),
    stamps!(
        "no active stamp",
        0xFFFF_FFFF,
        TWO_BYTES,
        [0, 0, 0],
        0,
        [0; 9],
        3
    ),
    stamps!("no stamp offered", 3, NO_BYTES, [0, 0, 0], 0, [0; 9], 3),
    stamps!("no stamps", 0xFFFF_FFFF, NO_BYTES, [0, 0, 0], 0, [0; 9], 3),
    stamps!(
        "the greatest stamp",
        0xFFFF_FFFE,
        LATE_BYTES,
        [0, 1, 2],
        0,
        [0, 1, 2, 0, 0, 0, 0, 0, 0],
        2
    ),
];

#[test]
fn answers_of_several_components_and_of_each_stamp(rt: HostRuntime) {
    for row in &ROWS {
        assert!(rt; holds(rt.alloc(), row), "{}", row.situation);
    }
}
