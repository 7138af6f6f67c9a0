//! The lines of the agent.

use crate::servers::setup::{agent_filter, serves_all};
use crate::worked::{file, package};
use std::test::Fail;

/// Lines that are read, and what each prints. The packets are Get Endpoint ID (DSP0236) with its
/// answer, and QueryDeviceIdentifiers (DSP0267). The answers of the event log are those of IPMI
/// 2.0.
const LINES: &[(&str, &str)] = &[
    ("", ""),
    ("# start 9 1", ""),
    ("tick", "-\n"),
    ("010809C8008002", "010908C000000200080100\n"),
    ("sel -", "C7\n"),
    ("sel 42", "000100\n"),
    ("start 9 1", "-\n"),
    ("tick", "010908C801800501\n"),
    ("restart", "-\n"),
    ("010809C8008002", "-\n"),
    ("tick 39", "-\n"),
    ("010809C8008002", "-\n"),
    ("tick", "-\n"),
    ("010809C8008002", "010908C000000200080100\n"),
];

/// Lines that can't be read, and calls that aren't taken.
const REFUSED: &[(&str, &str)] = &[
    ("tick 0", "fault Range\n"),
    ("tick 1001", "fault Range\n"),
    ("tock", "fault Directive\n"),
    ("0", "fault Hex\n"),
    ("start 9", "fault Fields\n"),
    ("start 7 1", "fault Range\n"),
    ("start x 1", "fault Number\n"),
    ("start 10 1", "refused NoSuchNode\n"),
    ("start 9 0", "refused NoSuchPackage\n"),
    ("start 9 2", "refused NoSuchPackage\n"),
    ("cancel 10", "refused NoSuchNode\n"),
    ("activate 10", "refused NoSuchNode\n"),
    ("activate 9", "refused NotReady\n"),
    ("cancel", "fault Fields\n"),
    ("sel 4", "fault Hex\n"),
    ("sel", "fault Fields\n"),
    ("restart 8", "fault Fields\n"),
    ("report 8", "fault Fields\n"),
    ("verdict verify-ok", "fault Directive\n"),
    ("deliver 9 1 9", "fault Directive\n"),
    ("miss 9", "fault Directive\n"),
    ("start 9 1", "-\n"),
    ("start 9 1", "refused Busy\n"),
    ("activate 9", "refused NotReady\n"),
    ("cancel 9", "-\n"),
];

#[test]
fn each_line_prints_what_the_agent_sends(rt: HostRuntime) -> Result<(), Fail> {
    let bytes = file(rt.alloc())?;
    let packages = [package(&bytes)?];
    let mut agent = agent_filter(rt.alloc(), &packages, false)?;
    assert!(rt; serves_all(rt.alloc(), &mut agent, LINES)?);
    Ok(())
}

#[test]
fn refused_lines_are_named(rt: HostRuntime) -> Result<(), Fail> {
    let bytes = file(rt.alloc())?;
    let packages = [package(&bytes)?];
    let mut agent = agent_filter(rt.alloc(), &packages, false)?;
    assert!(rt; serves_all(rt.alloc(), &mut agent, REFUSED)?);
    Ok(())
}
