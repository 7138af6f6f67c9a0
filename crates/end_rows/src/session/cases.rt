//! The cases of a session: what it does with a package.

use crate::session::calls::ends;
use crate::session::packages::{Draft, File, Item, file};
use crate::session::situations::{ITEM, TWO};
use crate::session::table::{says_each, serves};
use crate::session::updates::{
    asks_again, first, has_flag, leads, records_all, records_often, updates, wishes,
};
use fw_package::Package;
use fwup_wire::TransferFlag;
use mctp_wire::Unit;
use std::alloc::Global;
use ua_core::{Cause, Lent, SessionState};

/// A package.
#[derive(Clone, Copy)]
enum Content {
    /// One component of this size.
    Sized(u32),
    /// Two components, the second forced and without a stamp.
    Two,
    /// The first of nine components, this many.
    First(usize),
}

/// A trial of a session.
#[derive(Clone, Copy)]
enum Trial {
    /// A time-out after this number of turns, in this state.
    TimesOut(usize, SessionState),
    /// In this state, the codes for the commands.
    Answers(SessionState, [u8; 7]),
    /// At this unit, a request for data: the offset and the length, the code, and the number of
    /// image bytes before the zeros.
    Serves(Unit, (u32, u32), u8, usize),
    /// A whole update of this number of components.
    Records(usize),
    /// Updates up to a hundred records.
    RecordsOften,
    /// The response codes for both components, the number of components that are then updated, and
    /// the last of them.
    Updates((u8, u8), usize, usize),
    /// At this unit, the command that is pending after this number of turns.
    Wishes(Unit, usize, &'static [u8]),
    /// The flag of the table entry that is pending after this number of turns.
    Flag(usize, TransferFlag),
    /// Refusals after this number of turns, in this state.
    AsksAgain(usize, SessionState),
    /// The vendor's identifier in the device's descriptors, and the state after them.
    Leads([u8; 2], SessionState),
}

/// A case: a package, and the trial of a session with it.
#[derive(Clone, Copy)]
struct Row<'a> {
    situation: &'a str,
    content: Content,
    trial: Trial,
}

macro_rules! times_out {
    ($turns:literal, $state:ident) => {
        Row {
            situation: concat!("a time-out after turn ", $turns),
            content: Content::Sized(241),
            trial: Trial::TimesOut($turns, SessionState::$state),
        }
    };
}

macro_rules! answers {
    ($state:ident $(($cause:expr))?, $codes:expr) => {
        Row {
            situation: concat!("commands in ", stringify!($state)),
            content: Content::Sized(241),
            trial: Trial::Answers(SessionState::$state $(($cause))?, $codes),
        }
    };
}

macro_rules! serves {
    ($situation:expr, $unit:ident, $size:expr, $asked:expr, $code:expr, $known:expr) => {
        Row {
            situation: $situation,
            content: Content::Sized($size),
            trial: Trial::Serves(Unit::$unit, $asked, $code, $known),
        }
    };
}

macro_rules! records {
    ($count:literal) => {
        Row {
            situation: concat!("components: ", $count),
            content: Content::First($count),
            trial: Trial::Records($count),
        }
    };
}

macro_rules! updates {
    ($first:literal, $second:literal, $count:expr, $last:expr) => {
        Row {
            situation: concat!("codes ", $first, " and ", $second),
            content: Content::Two,
            trial: Trial::Updates(($first, $second), $count, $last),
        }
    };
}

macro_rules! wishes {
    ($unit:ident, $turns:literal, $bytes:expr) => {
        Row {
            situation: concat!("pending after turn ", $turns, " at ", stringify!($unit)),
            content: Content::Two,
            trial: Trial::Wishes(Unit::$unit, $turns, $bytes),
        }
    };
}

macro_rules! flag {
    ($count:literal, $turns:literal, $flag:ident) => {
        Row {
            situation: concat!("the flag of ", $count, " after turn ", $turns),
            content: Content::First($count),
            trial: Trial::Flag($turns, TransferFlag::$flag),
        }
    };
}

macro_rules! asks_again {
    ($turns:literal, $state:ident) => {
        Row {
            situation: concat!("refusals after turn ", $turns),
            content: Content::Sized(241),
            trial: Trial::AsksAgain($turns, SessionState::$state),
        }
    };
}

macro_rules! leads {
    ($count:literal, $vendor:expr, $state:ident $(($cause:expr))?) => {
        Row {
            situation: concat!("descriptors, components: ", $count),
            content: Content::First($count),
            trial: Trial::Leads($vendor, SessionState::$state $(($cause))?),
        }
    };
}

/// A session has each state for 239 ticks, and ends in the 240th unless it is done. It answers each
/// command in each state, and serves the image and zeros past its end. A whole update records every
/// component, and only what is to be done is updated. Each pending command has its fields, and is
/// pending again if the device isn't ready. The package must name something for the device.
static ROWS: [Row<'static>; 96] = [
    times_out!(0, Query),
    times_out!(1, Params),
    times_out!(2, ClearOld),
    times_out!(3, Request),
    times_out!(4, Pass),
    times_out!(5, Update),
    times_out!(6, Download),
    times_out!(7, Verify),
    times_out!(8, Apply),
    times_out!(9, AllApplied),
    times_out!(10, Activate),
    times_out!(11, Done),
    answers!(Idle, [0x88; 7]),
    answers!(Query, [0x88; 7]),
    answers!(Params, [0x88; 7]),
    answers!(ClearOld, [0x88; 7]),
    answers!(Request, [0x88; 7]),
    answers!(Pass, [0x88; 7]),
    answers!(Update, [0x89, 0x88, 0x88, 0x88, 0x88, 0x88, 0x88]),
    answers!(Download, [0, 0, 0, 0x88, 0x88, 0x88, 0x88]),
    answers!(Verify, [0x88, 0, 0x88, 0, 0, 0x88, 0x88]),
    answers!(Apply, [0x88, 0x88, 0x88, 0, 0x88, 0, 0]),
    answers!(AllApplied, [0x88, 0x88, 0x88, 0x88, 0x88, 0, 0x88]),
    answers!(Activate, [0x88, 0x88, 0x88, 0x88, 0x88, 0, 0x88]),
    answers!(Done, [0x88; 7]),
    answers!(Cancelling, [0x88; 7]),
    answers!(Failed(Cause::Silent), [0x88; 7]),
    serves!("fewer than 32 bytes", U64, 241, (0, 31), 0x83, 0),
    serves!("more than 240 bytes", U64, 241, (0, 241), 0x83, 0),
    serves!(
        "more than 32 bytes past the end",
        U64,
        241,
        (242, 32),
        0x82,
        0
    ),
    serves!("zeros alone", U64, 241, (241, 32), 0, 0),
    serves!("the length is tested first", U64, 241, (9999, 31), 0x83, 0),
    serves!(
        "the greatest numbers",
        U64,
        241,
        (u32::MAX, u32::MAX),
        0x83,
        0
    ),
    serves!("the greatest offset", U64, 241, (u32::MAX, 240), 0x82, 0),
    serves!("beginning", U64, 241, (0, 240), 0, 240),
    serves!("middle", U64, 241, (100, 32), 0, 32),
    serves!("end", U64, 241, (240, 32), 0, 1),
    serves!("end within", U64, 241, (209, 32), 0, 32),
    serves!("past the end by 32", U64, 241, (33, 240), 0, 208),
    serves!("past the end by 33", U64, 241, (34, 240), 0x82, 0),
    serves!("beginning of 240", U64, 240, (0, 240), 0, 240),
    serves!("middle of 240", U64, 240, (120, 100), 0, 100),
    serves!("end of 240", U64, 240, (208, 32), 0, 32),
    serves!("behind 240", U64, 240, (240, 32), 0, 0),
    serves!("one byte", U64, 1, (0, 32), 0, 1),
    serves!("one byte, one too many", U64, 1, (0, 34), 0x82, 0),
    serves!("behind one byte", U64, 1, (1, 32), 0, 0),
    serves!("nothing", U64, 0, (0, 32), 0, 0),
    serves!("behind nothing", U64, 0, (1, 32), 0x82, 0),
    serves!("fewer than 32 bytes at 128", U128, 500, (0, 31), 0x83, 0),
    serves!("more than 496 bytes at 128", U128, 500, (0, 497), 0x83, 0),
    serves!(
        "the greatest numbers at 128",
        U128,
        500,
        (u32::MAX, u32::MAX),
        0x83,
        0
    ),
    serves!("beginning at 128", U128, 500, (0, 496), 0, 496),
    serves!("beginning of 496 at 128", U128, 496, (0, 496), 0, 496),
    serves!("more than at 64 at 128", U128, 500, (100, 241), 0, 241),
    serves!("end at 128", U128, 500, (496, 32), 0, 4),
    serves!("past the end by 32 at 128", U128, 500, (36, 496), 0, 464),
    serves!("past the end by 33 at 128", U128, 500, (37, 496), 0x82, 0),
    records!(1),
    records!(2),
    records!(8),
    Row {
        situation: "a hundred records",
        content: Content::First(8),
        trial: Trial::RecordsOften,
    },
    updates!(0, 0, 2, 1),
    updates!(0, 6, 1, 0),
    updates!(6, 0, 1, 1),
    updates!(1, 1, 1, 1),
    updates!(2, 2, 1, 1),
    updates!(1, 6, 0, 0),
    updates!(6, 3, 0, 0),
    wishes!(U64, 0, &[0x01]),
    wishes!(U64, 1, &[0x02]),
    wishes!(U64, 2, &[0x1D]),
    wishes!(U64, 3, &[0x10, 240, 0, 0, 0, 2, 0, 1, 0, 0, 1, 1, b'A']),
    wishes!(
        U64,
        4,
        &[0x13, 1, 10, 0, 1, 0, 0, 2, 0, 0, 0, 1, 2, b'v', b'2']
    ),
    wishes!(
        U64,
        5,
        &[0x13, 4, 10, 0, 2, 0, 5, 0xFF, 0xFF, 0xFF, 0xFF, 1, 0]
    ),
    wishes!(
        U64,
        6,
        &[
            0x14, 10, 0, 1, 0, 0, 2, 0, 0, 0, 241, 0, 0, 0, 0, 0, 0, 0, 1, 2, b'v', b'2',
        ]
    ),
    wishes!(U64, 7, &[]),
    wishes!(
        U64,
        10,
        &[
            0x14, 10, 0, 2, 0, 5, 0xFF, 0xFF, 0xFF, 0xFF, 240, 0, 0, 0, 1, 0, 0, 0, 1, 0,
        ]
    ),
    wishes!(U64, 14, &[]),
    wishes!(U64, 15, &[0x1A, 1]),
    wishes!(U128, 3, &[0x10, 240, 1, 0, 0, 2, 0, 1, 0, 0, 1, 1, b'A']),
    flag!(1, 4, StartAndEnd),
    flag!(3, 4, Start),
    flag!(3, 5, Middle),
    flag!(3, 6, End),
    asks_again!(0, Query),
    asks_again!(1, Params),
    asks_again!(2, ClearOld),
    asks_again!(3, Request),
    asks_again!(4, Pass),
    asks_again!(5, Update),
    asks_again!(10, Activate),
    leads!(1, [0x34, 0x12], Params),
    leads!(1, [0x34, 0x13], Failed(Cause::NoRecord)),
    leads!(0, [0x34, 0x12], Failed(Cause::NothingToUpdate)),
    leads!(9, [0x34, 0x12], Failed(Cause::Plan)),
];

/// The file of a package.
fn file_of(content: Content) -> File {
    match content {
        Content::Sized(size) => file(Draft {
            set_text: b"A",
            items: &[Item { size, ..ITEM }],
        }),
        Content::Two => file(TWO),
        Content::First(count) => file(first(count)),
    }
}

/// Whether a trial holds with a package.
fn tries(alloc: Global, lent: &Lent<'_>, trial: &Trial) -> bool {
    match *trial {
        Trial::TimesOut(turns, state) => ends(alloc, lent, turns, state),
        Trial::Answers(state, codes) => says_each(alloc, lent, state, &codes),
        Trial::Serves(unit, asked, code, known) => serves(alloc, lent, (unit, asked), code, known),
        Trial::Records(count) => records_all(alloc, lent, count),
        Trial::RecordsOften => records_often(alloc, lent),
        Trial::Updates(codes, count, last) => updates(alloc, lent, codes, count, last),
        Trial::Wishes(unit, turns, bytes) => wishes(alloc, unit, lent, turns, bytes),
        Trial::Flag(turns, flag) => has_flag(alloc, lent, turns, flag),
        Trial::AsksAgain(turns, state) => asks_again(alloc, lent, turns, state),
        Trial::Leads(vendor, state) => leads(alloc, lent, &vendor, state),
    }
}

/// Whether a case holds.
fn holds(alloc: Global, row: &Row<'_>) -> bool {
    let bytes = file_of(row.content);
    match Package::read(bytes.as_slice()) {
        Ok(package) => tries(alloc, &Lent::some(&package), &row.trial),
        Err(_) => false,
    }
}

#[test]
fn a_session_does_as_each_row_says(rt: HostRuntime) {
    for row in &ROWS {
        assert!(rt; holds(rt.alloc(), row), "{}", row.situation);
    }
}
