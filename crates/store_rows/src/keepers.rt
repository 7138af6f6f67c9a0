//! What an agent keeps in a folder, and the agent that goes on with it.

use agent_store::{AgentKeeper, ChangeKeeper, FolderKeeper, KeepFault, resumed_agent};
use fw_node::{AgentNode, KeptSession};
use fw_store::{Failing, Folder, KeptLine, KnownFolder, OpenFault, agent_in};
use mctp_ctl::Endpoint;
use mctp_wire::Unit;
use sel_core::{Event, EventKind, Sel};
use std::alloc::Global;
use std::test::Fail;
use ua_core::Recorded;
use uuid::Uuid;

/// The text of what the agent keeps, written by hand, with the CRC-32 of another program.
const TEXT: &[u8] =
    b"session 11 1\nrecord 11 1 3\nsession 9 0\nlog 2 1 0 8 0 0\nentry 0100C107000000000000010B0100FFFF\nFDE8934D\n";

/// The component that the device 11 applied.
const APPLIED: Recorded = Recorded {
    package: 1,
    component: 3,
};

/// The agent's endpoint.
fn endpoint() -> Endpoint {
    Endpoint {
        eid: 8,
        uuid: Uuid::nil(),
    }
}

/// The agent of the devices 11, which applied a component, and 9, at which an update of the device
/// 11 was noted at time 7.
fn agent(alloc: Global) -> Result<AgentNode, Fail> {
    let mut log = Sel::new(alloc)?;
    log.note(
        Event {
            kind: EventKind::Started,
            device: 11,
            package: 1,
        },
        7,
    )?;
    let mut records = Vec::new(alloc);
    records.push(APPLIED)?;
    let mut sessions = Vec::new(alloc);
    sessions.push(KeptSession {
        device: 11,
        package: 1,
        records,
    })?;
    sessions.push(KeptSession {
        device: 9,
        package: 0,
        records: Vec::new(alloc),
    })?;
    let agent = AgentNode::resumed(alloc, Unit::U128, endpoint(), &sessions, log)?;
    Ok(agent)
}

/// Whether a session is at a place, with this device and these records.
fn is_at(agent: &AgentNode, place: usize, device: u8, records: &[Recorded]) -> bool {
    match agent.session_at(place) {
        Some((eid, session)) => eid == device && session.records() == records,
        None => false,
    }
}

/// Whether lines resume an agent of the devices 9, 11 and 12 with the records that were kept.
fn resumes(alloc: Global, lines: &[KeptLine]) -> bool {
    match resumed_agent(alloc, Unit::U64, endpoint(), &[9, 11, 12], lines) {
        Ok(agent) => {
            is_at(&agent, 0, 9, &[])
                && is_at(&agent, 1, 11, &[APPLIED])
                && is_at(&agent, 2, 12, &[])
                && agent.log().len() == 1
        }
        Err(_) => false,
    }
}

/// Whether the devices of lines aren't all among these.
fn are_foreign(alloc: Global, devices: &[u8], lines: &[KeptLine]) -> bool {
    if devices.len() > 16 {
        return false;
    }
    match resumed_agent(alloc, Unit::U64, endpoint(), devices, lines) {
        Ok(_) => false,
        Err(fault) => fault == OpenFault::Foreign,
    }
}

#[test]
fn an_agent_is_kept_and_resumed(rt: HostRuntime) -> Result<(), Fail> {
    let alloc = rt.alloc();
    let agent = agent(alloc)?;
    let folder = FolderKeeper::new(alloc, KnownFolder::new(alloc, 0, Failing::Before));
    assert!(rt; agent_in(alloc, folder.folder())?.is_none());
    let mut keeper = ChangeKeeper::new(alloc, folder);
    keeper.keep(&agent)?;
    assert!(rt; keeper.keeper().folder().bytes(b"active") == Some(TEXT));
    // what is kept already isn't written again
    keeper.keep(&agent)?;
    assert!(rt; keeper.keeper().folder().count() == 2);
    let Some(lines) = agent_in(alloc, keeper.keeper().folder())? else {
        return Ok(());
    };
    assert!(rt; resumes(alloc, &lines));
    assert!(rt; are_foreign(alloc, &[11], &lines));
    assert!(rt; are_foreign(alloc, &[9], &lines));
    Ok(())
}

#[test]
fn a_folder_that_fails_keeps_nothing(rt: HostRuntime) -> Result<(), Fail> {
    let alloc = rt.alloc();
    let agent = agent(alloc)?;
    let mut keeper = FolderKeeper::new(alloc, KnownFolder::new(alloc, 2, Failing::Before));
    assert!(rt; keeper.keep(&agent) == Err(KeepFault::Unwritable));
    assert!(rt; agent_in(alloc, keeper.folder())?.is_none());
    keeper.keep(&agent)?;
    assert!(rt; agent_in(alloc, keeper.folder())?.is_some());
    Ok(())
}

#[test]
fn a_damaged_text_is_refused(rt: HostRuntime) -> Result<(), Fail> {
    let alloc = rt.alloc();
    let mut folder = KnownFolder::new(alloc, 0, Failing::Before);
    folder.write(b"active", &TEXT[1..])?;
    match agent_in(alloc, &folder) {
        Ok(_) => assert!(rt; false),
        Err(fault) => assert!(rt; fault == OpenFault::Damaged),
    }
    Ok(())
}
