//! An agent that is resumed from what an earlier one kept.

use crate::nodes::setup::endpoint;
use crate::worked::AGENT;
use fw_node::{AgentNode, KeptSession};
use mctp_wire::Unit;
use sel_core::{Event, EventKind, Sel};
use std::alloc::Global;
use std::test::Fail;
use ua_core::{Recorded, SessionState};

/// The record of a component of the package 1.
fn recorded(component: usize) -> Recorded {
    Recorded {
        package: 1,
        component,
    }
}

/// Kept sessions: the device 11 applied one component of the package 1, and the device 9 none.
fn sessions(alloc: Global) -> Result<Vec<KeptSession>, Fail> {
    let mut records = Vec::new(alloc);
    records.push(recorded(3))?;
    let mut sessions = Vec::new(alloc);
    sessions.push(KeptSession {
        device: 11,
        package: 1,
        records,
    })?;
    sessions.push(KeptSession {
        device: 9,
        package: 0,
        records: Vec::new(alloc),
    })?;
    Ok(sessions)
}

/// Whether the session at a place is one with this device, this package and these records, and no
/// update is in progress.
fn is_at(
    agent: &AgentNode,
    place: usize,
    device: u8,
    package: usize,
    records: &[Recorded],
) -> bool {
    let Some((eid, session)) = agent.session_at(place) else {
        return false;
    };
    eid == device
        && session.state() == SessionState::Idle
        && session.unit() == Unit::U128
        && session.package() == package
        && session.records() == records
}

#[test]
fn a_resumed_agent_has_its_sessions_and_its_log(rt: HostRuntime) -> Result<(), Fail> {
    let mut log = Sel::new(rt.alloc())?;
    log.note(
        Event {
            kind: EventKind::Started,
            device: 11,
            package: 1,
        },
        7,
    )?;
    let kept = sessions(rt.alloc())?;
    assert!(rt; kept.len() == 2);
    let agent = AgentNode::resumed(rt.alloc(), Unit::U128, endpoint(AGENT), &kept, log)?;
    assert!(rt; agent.eid() == AGENT);
    assert!(rt; !agent.is_deaf());
    assert!(rt; agent.device_count() == 2);
    assert!(rt; is_at(&agent, 0, 11, 1, &[recorded(3)]));
    assert!(rt; is_at(&agent, 1, 9, 0, &[]));
    assert!(rt; agent.session_at(2).is_none());
    assert!(rt; agent.log().len() == 1);
    Ok(())
}

#[test]
fn an_agent_of_sixteen_devices_is_resumed(rt: HostRuntime) -> Result<(), Fail> {
    let mut kept = Vec::new(rt.alloc());
    for device in 0..16_u8 {
        kept.push(KeptSession {
            device: device + 9,
            package: 0,
            records: Vec::new(rt.alloc()),
        })?;
    }
    let log = Sel::new(rt.alloc())?;
    assert!(rt; kept.len() == 16);
    let agent = AgentNode::resumed(rt.alloc(), Unit::U64, endpoint(AGENT), &kept, log)?;
    assert!(rt; agent.device_count() == 16);
    Ok(())
}
