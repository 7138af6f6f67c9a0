//! Sessions that are brought to a state by calls alone, and tests of them there.

use crate::session::packages::{Draft, Item};
use fwup_wire::code::command::GET_FIRMWARE_PARAMETERS;
use fwup_wire::{
    Answer, Command, DescriptorList, DeviceDescriptor, OfferResponse, TableResponse, read_answer,
};
use mctp_wire::Unit;
use std::alloc::Global;
use ua_core::{Lent, Session, SessionState};

/// A component of 241 bytes that is only updated to a newer stamp.
pub const ITEM: Item<'static> = Item {
    key: (10, 1),
    stamp: 2,
    options: 2,
    text: b"v2",
    size: 241,
};

/// The package of the worked cases: set text `A`, one component.
pub const ONE: Draft<'static> = Draft {
    set_text: b"A",
    items: &[ITEM],
};

/// Two components, the second forced and without a stamp.
pub const TWO: Draft<'static> = Draft {
    set_text: b"A",
    items: &[
        ITEM,
        Item {
            key: (10, 2),
            stamp: 7,
            options: 1,
            text: b"",
            size: 240,
        },
    ],
};

/// The session receives this answer.
pub fn learn(session: &mut Session, answer: &Answer<'_>, lent: &Lent<'_>) {
    session.learn(Ok(answer), lent);
}

/// The session receives the descriptor 0000 with data 34 12, and another.
pub fn learn_descriptors(session: &mut Session, lent: &Lent<'_>, bytes: &[u8; 2]) {
    let mut list = DescriptorList::new();
    list.push(&DeviceDescriptor {
        kind: 1,
        bytes: &[7],
    });
    list.push(&DeviceDescriptor { kind: 0, bytes });
    learn(session, &Answer::QueryDeviceIdentifiers(list.lent()), lent);
}

/// The answer of a device that has component (10, 2) under index 5: code and capabilities, one
/// component, no set texts; key, index, stamp 1, text of type 1 and 3 bytes, no date; the same of
/// the pending image; methods, capabilities, both texts.
static PARAMETERS: [u8; 56] = [
    0, 0, 0, 0, 0, 1, 0, 0, 0, 0, 0, 10, 0, 2, 0, 5, 1, 0, 0, 0, 1, 3, 0, 0, 0, 0, 0, 0, 0, 0, 1,
    0, 0, 0, 1, 3, 0, 0, 0, 0, 0, 0, 0, 0, 2, 0, 0, 0, 0, 0, b'1', b'.', b'0', b'1', b'.', b'0',
];

/// The session receives the report that the device has component (10, 2) under index 5.
pub fn learn_parameters(session: &mut Session, lent: &Lent<'_>) {
    match read_answer(GET_FIRMWARE_PARAMETERS, &PARAMETERS) {
        Ok(answer) => session.learn(Ok(&answer), lent),
        Err(malformed) => session.learn(Err(malformed), lent),
    }
}

/// The session receives this response code to PassComponentTable.
pub fn learn_response(session: &mut Session, lent: &Lent<'_>, code: u8) {
    let response = u8::from(code != 0);
    learn(
        session,
        &Answer::PassComponentTable(TableResponse { response, code }),
        lent,
    );
}

/// The session receives the answer that the device accepts the component, or refuses it.
pub fn learn_offer(session: &mut Session, lent: &Lent<'_>, compatibility: u8) {
    let response = OfferResponse {
        compatibility,
        code: 6,
        force: false,
        time: 0,
    };
    learn(session, &Answer::UpdateComponent(response), lent);
}

/// Gives one answer that advances each state with a pending command, and the device's results in
/// the other states.
pub fn go_on(session: &mut Session, lent: &Lent<'_>) {
    match session.state() {
        SessionState::Query => learn_descriptors(session, lent, &[0x34, 0x12]),
        SessionState::Params => learn_parameters(session, lent),
        SessionState::ClearOld | SessionState::Cancelling => {
            learn(session, &Answer::CancelUpdate, lent);
        }
        SessionState::Request => learn(session, &Answer::RequestUpdate, lent),
        SessionState::Pass => learn_response(session, lent, 0),
        SessionState::Update => learn_offer(session, lent, 0),
        SessionState::Download => {
            session.take(&Command::TransferComplete { result: 0 }, lent);
        }
        SessionState::Verify => {
            session.take(&Command::VerifyComplete { result: 0 }, lent);
        }
        SessionState::Apply => {
            session.take(
                &Command::ApplyComplete {
                    result: 0,
                    methods: 0,
                },
                lent,
            );
        }
        SessionState::AllApplied => {
            let _ = session.activate();
        }
        SessionState::Activate => learn(session, &Answer::ActivateFirmware { time: 0 }, lent),
        SessionState::Idle | SessionState::Done | SessionState::Failed(_) => {}
    }
}

/// A session with package 1 at the unit of 64 bytes after `turns` turns.
pub fn session_after(alloc: Global, lent: &Lent<'_>, turns: usize) -> Session {
    session_at(alloc, Unit::U64, lent, turns)
}

/// The same at this transmission unit.
pub fn session_at(alloc: Global, unit: Unit, lent: &Lent<'_>, turns: usize) -> Session {
    let mut session = Session::new(alloc, unit);
    let _ = session.start(1);
    for _ in 0..turns {
        go_on(&mut session, lent);
    }
    session
}

/// A session with package 1 in the first state of this kind, if one of thirty turns reaches it.
pub fn session_in(alloc: Global, lent: &Lent<'_>, state: SessionState) -> Session {
    let mut session = session_after(alloc, lent, 0);
    for _ in 0..30 {
        if session.state() != state {
            go_on(&mut session, lent);
        }
    }
    session
}
