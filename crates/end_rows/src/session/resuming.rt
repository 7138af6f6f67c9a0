//! Sessions that are resumed from what earlier ones kept.

use mctp_wire::Unit;
use ua_core::{Recorded, Session, SessionState};

/// The records of an update with the package 2.
const RECORDS: [Recorded; 2] = [
    Recorded {
        package: 2,
        component: 1,
    },
    Recorded {
        package: 2,
        component: 0,
    },
];

/// Whether a session has these records, and is in this state with this package.
fn is_at(session: &Session, state: SessionState, package: usize) -> bool {
    session.unit() == Unit::U128
        && session.state() == state
        && session.package() == package
        && session.records() == RECORDS.as_slice()
}

/// Whether a resumed session has its records, before it starts an update and after that.
fn is_resumed(session: &mut Session) -> bool {
    is_at(session, SessionState::Idle, 2)
        && session.start(3).is_ok()
        && is_at(session, SessionState::Query, 3)
}

#[test]
fn a_resumed_session_has_its_records(rt: HostRuntime) {
    match Session::resumed(rt.alloc(), Unit::U128, 2, &RECORDS) {
        Ok(mut session) => assert!(rt; is_resumed(&mut session)),
        Err(_) => assert!(rt; false),
    }
}
