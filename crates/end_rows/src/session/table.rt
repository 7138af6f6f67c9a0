//! The device's commands in every state, and the data that it gets.

use crate::session::situations::{session_after, session_at, session_in};
use fwup_wire::Command;
use mctp_wire::Unit;
use std::alloc::Global;
use ua_core::{Cause, Lent, Session, SessionState};

/// Commands of a device, good and bad: a case of the table has a code for each.
static SAYINGS: [Command<'static>; 7] = [
    Command::RequestFirmwareData {
        offset: 0,
        length: 32,
    },
    Command::TransferComplete { result: 0 },
    Command::TransferComplete { result: 1 },
    Command::VerifyComplete { result: 0 },
    Command::VerifyComplete { result: 1 },
    Command::ApplyComplete {
        result: 0,
        methods: 0,
    },
    Command::ApplyComplete {
        result: 1,
        methods: 0,
    },
];

/// A session with package 1 in this state, before anything was recorded.
fn led(alloc: Global, lent: &Lent<'_>, state: SessionState) -> Session {
    let mut session = session_after(alloc, lent, 0);
    match state {
        SessionState::Idle => session.restart(),
        SessionState::Cancelling => session.cancel(),
        SessionState::Failed(_) => session.silent(),
        _ => return session_in(alloc, lent, state),
    }
    session
}

/// Whether a command gets this code in a state, and leads to the expected state.
fn says(
    alloc: Global,
    lent: &Lent<'_>,
    state: SessionState,
    command: &Command<'_>,
    code: u8,
) -> bool {
    let mut session = led(alloc, lent, state);
    if session.state() != state {
        return false;
    }
    let reply = session.take(command, lent);
    reply.first() == Some(&code) && session.state() == led_on(state, command)
}

/// Whether each command is answered by its code in a state.
pub fn says_each(alloc: Global, lent: &Lent<'_>, state: SessionState, codes: &[u8; 7]) -> bool {
    for (command, code) in SAYINGS.iter().zip(codes) {
        if !says(alloc, lent, state, command, *code) {
            return false;
        }
    }
    true
}

/// The state after these commands: another one only in Download, Verify and Apply.
fn led_on(state: SessionState, command: &Command<'_>) -> SessionState {
    match (state, command) {
        (SessionState::Download, Command::TransferComplete { result }) => {
            if *result == 0 {
                SessionState::Verify
            } else {
                SessionState::Failed(Cause::Transfer)
            }
        }
        (SessionState::Verify, Command::VerifyComplete { result }) => {
            if *result == 0 {
                SessionState::Apply
            } else {
                SessionState::Failed(Cause::Verify)
            }
        }
        (SessionState::Apply, Command::ApplyComplete { result, .. }) => {
            if *result == 0 {
                SessionState::AllApplied
            } else {
                SessionState::Failed(Cause::Apply)
            }
        }
        _ => state,
    }
}

/// Whether a request for data in Download at a unit, of an offset and a length, is answered with
/// this code alone, or with the requested number of bytes: `known` bytes of the image, and zeros
/// after them.
pub fn serves(
    alloc: Global,
    lent: &Lent<'_>,
    request: (Unit, (u32, u32)),
    code: u8,
    known: usize,
) -> bool {
    let (unit, (offset, length)) = request;
    let mut session = session_at(alloc, unit, lent, 6);
    let reply = session.take(&Command::RequestFirmwareData { offset, length }, lent);
    let expected = if code == 0 { length as usize } else { 0 };
    match reply.as_slice() {
        [told, piece @ ..] => {
            *told == code && piece.len() == expected && is_piece(piece, offset as usize, known)
        }
        [] => false,
    }
}

/// Whether a piece is `known` bytes of the image from an offset on, and zeros after them.
fn is_piece(piece: &[u8], offset: usize, known: usize) -> bool {
    for (place, byte) in piece.iter().enumerate() {
        let expected = if place < known {
            (offset.saturating_add(place) % 256) as u8
        } else {
            0
        };
        if *byte != expected {
            return false;
        }
    }
    true
}
