//! A device and the agent with and without their fronts. The bytes are worked out from DSP0236: Get
//! Endpoint ID to the null identifier, and Get MCTP Version Support of control messages, which are
//! of version 1.3.1.

use crate::servers::setup::{
    agent_filter, agent_with, device_filter, device_with, open, serves_all,
};
use crate::worked::{file, package};
use std::test::Fail;

/// Lines to a device with a front, and what each prints. The front answers a deaf device's packets.
const OPEN: &[(&str, &str)] = &[
    ("010008C8008002", "010809C000000200090100\n"),
    ("010908C800800400", "010809C00000040001F1F3F100\n"),
    ("010908C8008002", "010809C000000200090100\n"),
    ("restart", "-\n"),
    ("010008C8008002", "010809C000000200090100\n"),
    ("010908C8008002", "-\n"),
    ("010A08C8008002", "-\n"),
    ("010", "fault Hex\n"),
    ("# tick", ""),
];

/// The same packets to a device without one.
const CLOSED: &[(&str, &str)] = &[
    ("010008C8008002", "-\n"),
    ("010908C800800400", "010809C000000480\n"),
    ("010908C8008002", "010809C000000200090100\n"),
];

#[test]
fn the_front_of_a_device_answers_discovery(rt: HostRuntime) -> Result<(), Fail> {
    let mut device = device_with(rt.alloc(), open(9))?;
    assert!(rt; serves_all(rt.alloc(), &mut device, OPEN)?);
    let mut device = device_filter(rt.alloc(), false)?;
    assert!(rt; serves_all(rt.alloc(), &mut device, CLOSED)?);
    Ok(())
}

#[test]
fn the_front_of_the_agent_answers_discovery(rt: HostRuntime) -> Result<(), Fail> {
    let bytes = file(rt.alloc())?;
    let packages = [package(&bytes)?];
    let mut agent = agent_with(rt.alloc(), &packages, open(8))?;
    let asked = [
        ("010009C8008002", "010908C000000200080100\n"),
        ("tick", "-\n"),
    ];
    assert!(rt; serves_all(rt.alloc(), &mut agent, &asked)?);
    let mut agent = agent_filter(rt.alloc(), &packages, false)?;
    assert!(rt; serves_all(rt.alloc(), &mut agent, &[("010009C8008002", "-\n")])?);
    Ok(())
}
