//! Whole updates, the pending commands during them, and how updates fail.

use crate::session::packages::{Draft, Item};
use crate::session::situations::{
    ITEM, go_on, learn, learn_descriptors, learn_response, session_after, session_at,
};
use fwup_wire::{Answer, Command, Malformed, TransferFlag, write};
use mctp_wire::Unit;
use std::alloc::Global;
use ua_core::{Cause, Lent, Session, SessionState};

/// Nine components, one more than the most of a plan.
static NINE: [Item<'static>; 9] = [
    Item {
        key: (10, 1),
        ..ITEM
    },
    Item {
        key: (10, 2),
        ..ITEM
    },
    Item {
        key: (10, 3),
        ..ITEM
    },
    Item {
        key: (10, 4),
        ..ITEM
    },
    Item {
        key: (10, 5),
        ..ITEM
    },
    Item {
        key: (10, 6),
        ..ITEM
    },
    Item {
        key: (10, 7),
        ..ITEM
    },
    Item {
        key: (11, 1),
        ..ITEM
    },
    Item {
        key: (11, 2),
        ..ITEM
    },
];

/// The first `count` of the nine components.
pub fn first(count: usize) -> Draft<'static> {
    Draft {
        set_text: b"A",
        items: NINE.get(..count).unwrap_or(&[]),
    }
}

/// Runs an update to its end.
fn finish(session: &mut Session, lent: &Lent<'_>) {
    for _ in 0..60 {
        go_on(session, lent);
    }
}

/// Whether the records from this one on are those of a whole package of this number, in order.
fn has_recorded(session: &Session, from: usize, package: usize) -> bool {
    let mut component = 0usize;
    for recorded in session.records().iter().skip(from) {
        if recorded.package != package || recorded.component != component {
            return false;
        }
        component = component.saturating_add(1);
    }
    true
}

/// Whether an update of a package of `count` components records each of them.
pub fn records_all(alloc: Global, lent: &Lent<'_>, count: usize) -> bool {
    let mut session = Session::new(alloc, Unit::U64);
    let _ = session.start(3);
    finish(&mut session, lent);
    session.state() == SessionState::Done
        && session.records().len() == count
        && has_recorded(&session, 0, 3)
}

/// Whether an update of eight components starts, whatever the number of records, and records them.
fn records_eight(session: &mut Session, lent: &Lent<'_>, number: usize) -> bool {
    let before = session.records().len();
    if session.start(number).is_err() {
        return false;
    }
    finish(session, lent);
    session.records().len() == before.wrapping_add(8) && has_recorded(session, before, number)
}

/// Whether 13 updates of eight components record them. No start of a session is refused while
/// memory is ample.
pub fn records_often(alloc: Global, lent: &Lent<'_>) -> bool {
    let mut session = Session::new(alloc, Unit::U64);
    for number in 1..14usize {
        if !records_eight(&mut session, lent, number) {
            return false;
        }
    }
    session.records().len() == 104
}

/// Whether a session whose device gives these response codes for its two components updates these.
pub fn updates(alloc: Global, lent: &Lent<'_>, codes: (u8, u8), count: usize, last: usize) -> bool {
    let mut session = session_after(alloc, lent, 4);
    learn_response(&mut session, lent, codes.0);
    learn_response(&mut session, lent, codes.1);
    for _ in 0..20 {
        if session.state() != SessionState::AllApplied {
            go_on(&mut session, lent);
        }
    }
    let after = if count == 0 {
        SessionState::Failed(Cause::NothingToUpdate)
    } else {
        SessionState::AllApplied
    };
    let recorded = match session.records().last() {
        Some(made) => made.component,
        None => 0,
    };
    session.state() == after && session.records().len() == count && recorded == last
}

/// Whether a session at this unit after `turns` turns has the pending command with this encoding;
/// none, if no bytes are given.
pub fn wishes(alloc: Global, unit: Unit, lent: &Lent<'_>, turns: usize, expected: &[u8]) -> bool {
    let session = session_at(alloc, unit, lent, turns);
    let Some(command) = session.wish(lent) else {
        return expected.is_empty();
    };
    let [code, fields @ ..] = expected else {
        return false;
    };
    command.is_writable() && command.code() == *code && write(&command).as_slice() == fields
}

/// Whether the table entry that is pending after `turns` turns has this flag.
pub fn has_flag(alloc: Global, lent: &Lent<'_>, turns: usize, flag: TransferFlag) -> bool {
    match session_after(alloc, lent, turns).wish(lent) {
        Some(Command::PassComponentTable(entry)) => entry.flag == flag,
        _ => false,
    }
}

/// The state after an answer, or a malformed one, that is received after `turns` turns.
fn led_by(alloc: Global, lent: &Lent<'_>, turns: usize, code: Option<u8>) -> SessionState {
    let mut session = session_after(alloc, lent, turns);
    match code {
        Some(code) => learn(&mut session, &Answer::Refused { code }, lent),
        None => session.learn(Err(Malformed), lent),
    }
    session.state()
}

/// Whether refusals and a malformed answer after `turns` turns, in this state, lead to the expected
/// states.
pub fn asks_again(alloc: Global, lent: &Lent<'_>, turns: usize, state: SessionState) -> bool {
    for code in &[1u8, 4, 0x80, 0x81, 0x84] {
        let after = match (state, *code) {
            (SessionState::ClearOld, 0x80) => SessionState::Request,
            (SessionState::Request, 4)
            | (SessionState::Update, 4 | 0x84)
            | (SessionState::Activate, 0x84) => state,
            _ => SessionState::Failed(Cause::Answer),
        };
        if led_by(alloc, lent, turns, Some(*code)) != after {
            return false;
        }
    }
    session_after(alloc, lent, turns).state() == state
        && led_by(alloc, lent, turns, None) == SessionState::Failed(Cause::Answer)
}

/// Whether the descriptors of a device, whose vendor's identifier has these bytes, lead to this
/// state.
pub fn leads(alloc: Global, lent: &Lent<'_>, vendor: &[u8; 2], state: SessionState) -> bool {
    let mut session = session_after(alloc, lent, 0);
    learn_descriptors(&mut session, lent, vendor);
    session.state() == state
}
