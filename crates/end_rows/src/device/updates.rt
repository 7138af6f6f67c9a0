//! Whole updates: the requests, the stored, applied and activated image.

use crate::device::setup::Call::{Active, Applied, Ask, Go, Reports, Ticks, Transfer};
use crate::device::setup::{
    ACTIVATE, APPLIED, APPLY, COMPLETE, DOWNLOAD, DOWNLOADED, ENTRY, IDLE, KEY, LONG_REQUEST, Made,
    READY, REQUEST, Row, VERIFIED, holds,
};
use mctp_wire::Unit;

/// A case of a whole update: the unit, the image's size, the number of requests for data, and
/// offset and length of the last. Each request before it is for as many bytes as a message of the
/// unit holds. The image is downloaded, verified, applied, and not active before it is activated.
macro_rules! updates {
    ($situation:expr, $unit:expr, $size:expr, $requests:expr) => {
        Row {
            situation: $situation,
            made: Made::Worked($unit, 1),
            calls: &[
                Go(IDLE, DOWNLOAD, $size),
                Transfer($size, $requests),
                status!(3, 2, 1, 0, 0),
                Reports(Some((0x16, 0))),
                Go(DOWNLOADED, VERIFIED, $size),
                Reports(Some((0x17, 0))),
                Go(VERIFIED, APPLY, $size),
                Applied(None),
                Go(APPLY, APPLIED, $size),
                Applied(Some((2, $size, 0))),
                Reports(Some((0x18, 0))),
                Go(APPLIED, COMPLETE, $size),
                Reports(None),
                Active(KEY, (1, 1, 0xAA)),
                Go(COMPLETE, ACTIVATE, $size),
                Active(KEY, (2, $size, 0)),
                Applied(None),
                Ticks(1),
                status!(0, 6, 3, 0, 1),
                Active(KEY, (2, $size, 0)),
            ],
        }
    };
}

/// UpdateComponent of 1000 bytes.
const OFFER: [u8; 21] = [
    0x0A, 0, 1, 0, 0, 2, 0, 0, 0, 0xE8, 3, 0, 0, 0, 0, 0, 0, 1, 2, 0x76, 0x32,
];

/// A case of an image of 1000 bytes: the unit, RequestUpdate, the number of requests for data, and
/// offset and length of the last.
macro_rules! requests {
    ($situation:expr, $unit:expr, $request:expr, $requests:expr) => {
        Row {
            situation: $situation,
            made: Made::Worked($unit, 1),
            calls: &[
                Ask(0x10, &$request, &[0, 0, 0, 0]),
                Ask(0x13, &ENTRY, &[0, 0, 0]),
                Ask(0x14, &OFFER, &[0; 9]),
                Transfer(1000, $requests),
            ],
        }
    };
}

/// Images of each size: at the unit of 64 bytes requests are of 240 bytes, at 128 of 496. Then what
/// is requested where the agent gives more or less than the unit.
static ROWS: [Row<'static>; 16] = [
    updates!("empty", Unit::U64, 0, (0, 0, 0)),
    updates!("below the least length", Unit::U64, 31, (1, 0, 32)),
    updates!("the greatest length", Unit::U64, 240, (1, 0, 240)),
    updates!("one byte more", Unit::U64, 241, (2, 240, 32)),
    updates!("two pieces", Unit::U64, 480, (2, 240, 240)),
    updates!(
        "the longest image",
        Unit::U64,
        1_048_576,
        (4370, 1_048_560, 32)
    ),
    updates!("empty at 128", Unit::U128, 0, (0, 0, 0)),
    updates!("below the least length at 128", Unit::U128, 31, (1, 0, 32)),
    updates!("the greatest length at 128", Unit::U128, 496, (1, 0, 496)),
    updates!("one byte more at 128", Unit::U128, 497, (2, 496, 32)),
    updates!("two pieces at 128", Unit::U128, 992, (2, 496, 496)),
    updates!(
        "the longest image at 128",
        Unit::U128,
        1_048_576,
        (2115, 1_048_544, 32)
    ),
    requests!("240 of 64", Unit::U64, REQUEST, (5, 960, 40)),
    requests!("496 of 64", Unit::U64, LONG_REQUEST, (5, 960, 40)),
    requests!("240 of 128", Unit::U128, REQUEST, (5, 960, 40)),
    requests!("496 of 128", Unit::U128, LONG_REQUEST, (3, 992, 32)),
];

#[test]
fn stores_and_activates_images_of_each_size(rt: HostRuntime) {
    for row in &ROWS {
        assert!(rt; holds(rt.alloc(), row), "{}", row.situation);
    }
}
