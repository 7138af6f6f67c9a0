//! Observations of a world, and their expected values.

use crate::messages::setup::{SECOND, Small};
use crate::worked::{DEVICE, KEY};
use fd_core::{Bank, Key, MemBank, Progress, State};
use fw_message::{CellContent, Entry, HistoryEvent, Way};
use fwup_wire::Answer;
use ua_core::{Recorded, SessionState};

/// Whether the worked device and its session are in these states.
pub fn stands(world: &Small<'_>, device: State, session: SessionState) -> bool {
    state_of(world) == Some((device, session))
}

/// The states of the worked device and its session.
fn state_of(world: &Small<'_>) -> Option<(State, SessionState)> {
    let device = world.device(DEVICE)?;
    let session = world.session(DEVICE)?;
    Some((device.state(), session.state()))
}

/// A cell: the code of its command, the code of its answer, and whether its asker waits.
pub type Cell = Option<(u8, Option<u8>, bool)>;

/// The content of the cell of a way of the worked device.
pub fn cell_of(world: &Small<'_>, way: Way) -> Cell {
    let held = world.cell(DEVICE, way)?;
    Some((held.command().code(), answer_code(held), held.is_live()))
}

fn answer_code(held: &CellContent<'_>) -> Option<u8> {
    match held.answer() {
        Some(Answer::Refused { code }) => Some(code),
        Some(_) => Some(0),
        None => None,
    }
}

/// A component's active and applied image: the number of bytes, and a sum over bytes and positions.
type Images = [(usize, usize); 2];

/// An observation of the worked device and its session that needs no memory: their states, the
/// transferred bytes, both cells, the images of both components, the bank's failures, and the
/// numbers of records and history entries.
pub type Glance = (
    Option<(State, SessionState)>,
    Option<(Option<Progress>, Option<(Key, u32)>, u64)>,
    [Cell; 2],
    [Images; 2],
    [usize; 2],
);

/// Returns the observation of the worked device now.
pub fn look_at(world: &Small<'_>) -> Glance {
    let transferred = match world.device(DEVICE) {
        Some(device) => Some((device.progress(), device.staged(), device.bank().failures())),
        None => None,
    };
    (
        state_of(world),
        transferred,
        [cell_of(world, Way::Down), cell_of(world, Way::Up)],
        [images_of(world, KEY), images_of(world, SECOND)],
        [records(world).len(), world.history().len()],
    )
}

fn images_of(world: &Small<'_>, key: Key) -> Images {
    [
        size_and_sum(active(world, key)),
        size_and_sum(applied(world, key)),
    ]
}

fn size_and_sum(bytes: &[u8]) -> (usize, usize) {
    let mut sum: usize = 0;
    for (place, byte) in bytes.iter().enumerate() {
        sum = sum.wrapping_add(usize::from(*byte).wrapping_mul(place.wrapping_add(1)));
    }
    (bytes.len(), sum)
}

/// Returns whether the history of the worked device is these letters: A image applied, R component
/// 0 of package 1 recorded, V activated; a question mark if an image isn't the worked one of the
/// worked component.
pub fn happened(world: &Small<'_>, letters: &[u8]) -> bool {
    world.history().len() == letters.len() && happened_last(world, letters)
}

/// Returns whether the history ends with these letters.
pub fn happened_last(world: &Small<'_>, letters: &[u8]) -> bool {
    let before = world.history().len().saturating_sub(letters.len());
    let last = world.history().get(before..).unwrap_or(&[]);
    for (entry, letter) in last.iter().zip(letters) {
        if letter_of(entry) != *letter {
            return false;
        }
    }
    last.len() == letters.len()
}

fn letter_of(entry: &Entry<'_>) -> u8 {
    match &entry.event {
        HistoryEvent::Applied(image) if is_worked(entry, image.key, image.bytes.as_slice()) => b'A',
        HistoryEvent::Activated(image) if is_worked(entry, image.key, image.bytes.as_slice()) =>
            b'V',
        HistoryEvent::Recorded(recorded) if entry.device == DEVICE && *recorded == FIRST => b'R',
        _ => b'?',
    }
}

/// The record of the first component of the first package.
const FIRST: Recorded = Recorded {
    package: 1,
    component: 0,
};

fn is_worked(entry: &Entry<'_>, key: Key, bytes: &[u8]) -> bool {
    entry.device == DEVICE && key == KEY && is_worked_image(bytes)
}

/// Returns whether the bytes are 241, and byte i is i mod 256.
pub fn is_worked_image(bytes: &[u8]) -> bool {
    for (place, byte) in bytes.iter().enumerate() {
        if usize::from(*byte) != place % 256 {
            return false;
        }
    }
    bytes.len() == 241
}

/// The worked device's bank.
fn bank<'w>(world: &'w Small<'_>) -> Option<&'w MemBank> {
    match world.device(DEVICE) {
        Some(device) => Some(device.bank()),
        None => None,
    }
}

/// Returns the active image of a component of the worked device, or an empty one.
pub fn active<'w>(world: &'w Small<'_>, key: Key) -> &'w [u8] {
    let Some(bank) = bank(world) else {
        return &[];
    };
    match bank.active(key) {
        Some((_, image)) => image,
        None => &[],
    }
}

/// Returns the applied image of a component of the worked device, or an empty one.
pub fn applied<'w>(world: &'w Small<'_>, key: Key) -> &'w [u8] {
    let Some(bank) = bank(world) else {
        return &[];
    };
    match bank.applied(key) {
        Some((_, image)) => image,
        None => &[],
    }
}

/// Returns whether the worked device's active image is AA, the first one.
pub fn runs_first(world: &Small<'_>) -> bool {
    active(world, KEY) == [0xAA].as_slice()
}

/// Returns the agent's records of the worked device.
pub fn records<'w>(world: &'w Small<'_>) -> &'w [Recorded] {
    match world.session(DEVICE) {
        Some(session) => session.records(),
        None => &[],
    }
}

/// Returns whether the agent's only record of the worked device is the first component of the first
/// package.
pub fn has_first_record(world: &Small<'_>) -> bool {
    records(world) == [FIRST].as_slice()
}

/// Returns the number of failures of the worked device's bank.
pub fn failures(world: &Small<'_>) -> u64 {
    match bank(world) {
        Some(bank) => bank.failures(),
        None => 0,
    }
}
