//! The worked update through both nodes, joined by a loop.

use crate::servers::setup::{agent_filter, device_filter, served, serves_all};
use crate::worked::{file, package};
use fd_core::MemBank;
use fw_package::Package;
use fw_serve::{AgentFilter, DeviceFilter};
use fwupd_base::LineServer;
use std::alloc::{AllocError, Global};
use std::test::Fail;

/// The most packets of a turn.
const MOST: usize = 64;

/// Hands each packet of a line to a server, and returns what it prints, all on one line.
fn handed<S: LineServer>(
    alloc: Global,
    server: &mut S,
    line: &[u8],
) -> Result<Vec<u8>, AllocError> {
    let mut all = Vec::new(alloc);
    for packet in line.split(|byte| *byte == b' ' || *byte == b'\n') {
        if packet.is_empty() || packet == b"-".as_slice() {
            continue;
        }
        let sent = served(alloc, server, packet)?;
        all.extend_from_slice(&sent)?;
    }
    Ok(all)
}

/// A turn: both tick, and each packet is handed to the other node, until none is sent.
fn turn<S: LineServer, T: LineServer>(
    alloc: Global,
    agent: &mut S,
    device: &mut T,
) -> Result<(), AllocError> {
    let mut to_device = served(alloc, agent, b"tick")?;
    let mut to_agent = served(alloc, device, b"tick")?;
    for _ in 0..MOST {
        let more_to_agent = handed(alloc, device, &to_device)?;
        let more_to_device = handed(alloc, agent, &to_agent)?;
        to_device = more_to_device;
        to_agent = more_to_agent;
    }
    Ok(())
}

/// Lines to a node, each with what it prints.
type Lines = &'static [(&'static str, &'static str)];

/// A case: whether the agent and the device do by themselves what is due, the lines to them at the
/// ends of turns, and their reports after 12 turns, if they are compared.
struct Case {
    agent_is_automatic: bool,
    device_is_automatic: bool,
    calls: &'static [(u32, Lines, Lines)],
    agent: Option<&'static [u8]>,
    device: &'static [u8],
}

/// The reports at the end of the worked update.
const AGENT: &[u8] = b"agent 8 up\nsession 9 Done sent 15\nlog 3 last -\nrecorded 9 1 1\n";

const DEVICE: &[u8] = b"device 9 up ACTIVATE\n\
    active 9 10 1 241 000102030405060708090A0B0C0D0E0F..\n\
    applied 9 10 1 241\n\
    activated 9 10 1 241\n";

/// The calls of the worked update at the ends of turns.
const CALLS: &[(u32, Lines, Lines)] = &[
    (9, &[], &[("verdict verify-ok", "-\n")]),
    (10, &[], &[("verdict apply-ok", "-\n")]),
    (11, &[("activate 9", "-\n")], &[]),
];

/// Whether each line prints what is beside it.
fn prints<S: LineServer>(alloc: Global, server: &mut S, lines: Lines) -> bool {
    matches!(serves_all(alloc, server, lines), Ok(true))
}

/// Whether both nodes take 12 turns, with these calls, from the start of the update.
fn go<S: LineServer, T: LineServer>(
    alloc: Global,
    agent: &mut S,
    device: &mut T,
    calls: &[(u32, Lines, Lines)],
) -> bool {
    if !prints(alloc, agent, &[("start 9 1", "-\n")]) {
        return false;
    }
    for count in 1..=12 {
        if turn(alloc, agent, device).is_err() {
            return false;
        }
        for (at, to_agent, to_device) in calls {
            if *at == count
                && !(prints(alloc, agent, to_agent) && prints(alloc, device, to_device))
            {
                return false;
            }
        }
    }
    true
}

/// Whether a report is this one, if it is compared.
fn is_told(told: Result<Vec<u8>, AllocError>, wanted: Option<&[u8]>) -> bool {
    match (told, wanted) {
        (Ok(told), Some(wanted)) => told.as_slice() == wanted,
        (Ok(_), None) => true,
        (Err(_), _) => false,
    }
}

/// Whether these nodes do as a case says.
fn do_as<'p>(
    alloc: Global,
    agent: &mut AgentFilter<'p>,
    device: &mut DeviceFilter<MemBank>,
    case: &Case,
) -> bool {
    go(alloc, agent, device, case.calls)
        && is_told(agent.report(), case.agent)
        && is_told(device.report(), Some(case.device))
}

/// The same for new nodes with these packages.
fn is_case<'p>(
    alloc: Global,
    packages: &'p [Package<'p>],
    case: &Case,
) -> Result<bool, AllocError> {
    let mut agent = agent_filter(alloc, packages, case.agent_is_automatic)?;
    let mut device = device_filter(alloc, case.device_is_automatic)?;
    Ok(do_as(alloc, &mut agent, &mut device, case))
}

/// The same for new nodes with the worked package.
fn is_shown(alloc: Global, case: &Case) -> Result<bool, Fail> {
    let bytes = file(alloc)?;
    let packages = [package(&bytes)?];
    Ok(is_case(alloc, &packages, case)?)
}

static BY_THEMSELVES: Case = Case {
    agent_is_automatic: true,
    device_is_automatic: true,
    calls: &[],
    agent: Some(AGENT),
    device: DEVICE,
};

static LINE_BY_LINE: Case = Case {
    agent_is_automatic: false,
    device_is_automatic: false,
    calls: CALLS,
    agent: Some(AGENT),
    device: DEVICE,
};

static WITHOUT_VERDICTS: Case = Case {
    agent_is_automatic: true,
    device_is_automatic: false,
    calls: &[],
    agent: None,
    device: b"device 9 up VERIFY\nactive 9 10 1 1 AA\n",
};

#[test]
fn the_worked_update_is_done_with_verdicts_by_themselves(rt: HostRuntime) -> Result<(), Fail> {
    assert!(rt; is_shown(rt.alloc(), &BY_THEMSELVES)?);
    Ok(())
}

#[test]
fn the_worked_update_is_done_line_by_line(rt: HostRuntime) -> Result<(), Fail> {
    assert!(rt; is_shown(rt.alloc(), &LINE_BY_LINE)?);
    Ok(())
}

#[test]
fn an_update_without_verdicts_waits_in_verify(rt: HostRuntime) -> Result<(), Fail> {
    assert!(rt; is_shown(rt.alloc(), &WITHOUT_VERDICTS)?);
    Ok(())
}
