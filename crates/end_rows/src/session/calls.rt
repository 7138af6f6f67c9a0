//! The user's calls, time and restarts.

use crate::session::packages::file;
use crate::session::situations::{ONE, go_on, session_after};
use fw_package::Package;
use mctp_wire::Unit;
use std::alloc::Global;
use ua_core::{Cause, Lent, Session, SessionState, StartFault};

/// Whether a session after `turns` turns has this state for 239 ticks, and ends in the 240th unless
/// it is done.
pub fn ends(alloc: Global, lent: &Lent<'_>, turns: usize, state: SessionState) -> bool {
    let mut session = session_after(alloc, lent, turns);
    for _ in 0..239 {
        session.idle_tick();
    }
    if session.state() != state {
        return false;
    }
    session.idle_tick();
    if state == SessionState::Done {
        session.state() == SessionState::Done
    } else {
        session.state() == SessionState::Failed(Cause::TimeOut)
    }
}

/// Whether an update with package `number` starts, at the second call if memory is refused and
/// nothing changes, and records its one component.
fn starts(session: &mut Session, lent: &Lent<'_>, number: usize) -> bool {
    let before = (session.mark(), session.package());
    if let Err(fault) = session.start(number) {
        let after = (session.mark(), session.package());
        if fault != StartFault::Memory || after != before || session.start(number) != Ok(()) {
            return false;
        }
    }
    if session.state() != SessionState::Query || session.package() != number {
        return false;
    }
    for _ in 0..11 {
        go_on(session, lent);
    }
    let last = match session.records().last() {
        Some(made) => made.package,
        None => 0,
    };
    session.state() == SessionState::Done && session.records().len() == number && last == number
}

/// Whether three updates start and record their components.
fn all_start(alloc: Global, lent: &Lent<'_>) -> bool {
    let mut session = Session::new(alloc, Unit::U64);
    starts(&mut session, lent, 1) && starts(&mut session, lent, 2) && starts(&mut session, lent, 3)
}

/// Whichever single allocation is refused, the test holds. The first start allocates its records,
/// and the second more beside the existing ones.
#[test]
fn refused_memory_starts_nothing(rt: HostRuntime) {
    let bytes = file(ONE);
    match Package::read(bytes.as_slice()) {
        Ok(package) => assert!(rt; all_start(rt.alloc(), &Lent::some(&package))),
        Err(_) => assert!(rt; false),
    }
}
