//! The areas of a bank in memory, and their content.

use crate::device::setup::{KEY, bank, write};
use fd_core::{Bank, Key, MemBank};
use std::alloc::Global;

/// A call for the worked component.
#[derive(Clone, Copy)]
enum Call<'a> {
    /// `begin` for these bytes, and `put`.
    Write(&'a [u8]),
    /// The same, and `seal`.
    Apply(&'a [u8]),
    Switch,
    Drop,
}

/// The calls, and the active and the applied image and the numbers of their areas after them.
type Row<'a> = (
    &'a [Call<'a>],
    &'a [u8],
    Option<&'a [u8]>,
    (usize, Option<usize>),
);

/// The cases follow one another.
static ROWS: [Row<'static>; 6] = [
    (
        &[Call::Apply(&[1, 2, 3])],
        &[0xAA],
        Some(&[1, 2, 3]),
        (0, Some(1)),
    ),
    (
        &[Call::Write(&[4, 5])],
        &[0xAA],
        Some(&[1, 2, 3]),
        (0, Some(1)),
    ),
    (&[Call::Switch], &[1, 2, 3], None, (1, None)),
    (
        &[Call::Apply(&[7]), Call::Drop],
        &[1, 2, 3],
        None,
        (1, None),
    ),
    (&[Call::Apply(&[]), Call::Switch], &[], None, (0, None)),
    (
        &[Call::Apply(&[8, 9]), Call::Switch],
        &[8, 9],
        None,
        (1, None),
    ),
];

/// Makes a call, and returns whether it worked.
fn make(bank: &mut MemBank, call: Call<'_>) -> bool {
    match call {
        Call::Write(image) => write(bank, image, false),
        Call::Apply(image) => write(bank, image, true),
        Call::Switch => bank.switch().is_ok(),
        Call::Drop => {
            bank.drop_pending();
            true
        }
    }
}

/// Makes the calls, and returns whether all worked.
fn make_all(bank: &mut MemBank, calls: &[Call<'_>]) -> bool {
    for call in calls {
        if !make(bank, *call) {
            return false;
        }
    }
    true
}

/// Whether the bank is as a case expects, after its calls.
fn holds(bank: &mut MemBank, row: &Row<'_>) -> bool {
    let (calls, runs, next, areas) = row;
    if !make_all(bank, calls) {
        return false;
    }
    let active = match bank.active(KEY) {
        Some((_, bytes)) => bytes,
        None => &[0xFF],
    };
    let applied = match bank.applied(KEY) {
        Some((_, bytes)) => Some(bytes),
        None => None,
    };
    active == *runs && applied == *next && bank.areas(KEY) == Some(*areas)
}

/// A component that the bank doesn't have.
const OTHER: Key = Key {
    classification: 10,
    identifier: 2,
};

/// Whether the bank is as each case expects, and has no areas of another component.
fn keeps(bank: &mut MemBank) -> bool {
    for row in &ROWS {
        if !holds(bank, row) {
            return false;
        }
    }
    bank.areas(OTHER).is_none()
}

/// Whether this holds for a new bank.
fn new_one_keeps(alloc: Global) -> bool {
    match bank(alloc, 1) {
        Ok(mut bank) => keeps(&mut bank),
        Err(_) => false,
    }
}

#[test]
fn keeps_images_in_three_areas(rt: HostRuntime) {
    assert!(rt; new_one_keeps(rt.alloc()));
}
