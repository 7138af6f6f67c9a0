//! The lines of a device.

use crate::servers::setup::{device_filter, serves_all};
use std::test::Fail;

/// Lines that are read, and what each prints. The packets are Get Endpoint ID (DSP0236), and
/// QueryDeviceIdentifiers (DSP0267) with its answer.
const LINES: &[(&str, &str)] = &[
    ("", ""),
    ("# tick", ""),
    ("tick", "-\n"),
    ("tick 1000", "-\n"),
    ("010908C8008002", "010809C000000200090100\n"),
    (
        "010908c801800501",
        "010809C001000501000600000001000002003412\n",
    ),
    ("010A08C8008002", "-\n"),
    ("A1", "-\n"),
    ("restart", "-\n"),
    ("010908C8008002", "-\n"),
    ("tick 39", "-\n"),
    ("010908C8008002", "-\n"),
    ("tick", "-\n"),
    ("010908C8008002", "010809C000000200090100\n"),
];

/// Lines that can't be read, and calls that aren't taken.
const REFUSED: &[(&str, &str)] = &[
    ("tick 0", "fault Range\n"),
    ("tick 1001", "fault Range\n"),
    ("tick x", "fault Number\n"),
    ("tick 1 1", "fault Fields\n"),
    ("tick ", "fault Fields\n"),
    ("ticks", "fault Directive\n"),
    (" tick", "fault Directive\n"),
    ("010", "fault Hex\n"),
    ("01 09", "fault Directive\n"),
    ("verdict", "fault Fields\n"),
    ("verdict 9 verify-ok", "fault Fields\n"),
    ("verdict good", "fault Number\n"),
    ("verdict verify-ok", "refused NotNow\n"),
    ("verdict verify-fail", "refused NotNow\n"),
    ("verdict apply-ok", "refused NotNow\n"),
    ("verdict apply-fail", "refused NotNow\n"),
    ("restart 9", "fault Fields\n"),
    ("report x", "fault Fields\n"),
    ("start 9 1", "fault Directive\n"),
    ("cancel 9", "fault Directive\n"),
    ("activate 9", "fault Directive\n"),
    ("sel 40", "fault Directive\n"),
    ("deliver 9 1 9", "fault Directive\n"),
    ("miss 9", "fault Directive\n"),
];

#[test]
fn each_line_prints_what_the_device_sends(rt: HostRuntime) -> Result<(), Fail> {
    let mut device = device_filter(rt.alloc(), false)?;
    assert!(rt; serves_all(rt.alloc(), &mut device, LINES)?);
    Ok(())
}

#[test]
fn refused_lines_are_named_and_change_nothing(rt: HostRuntime) -> Result<(), Fail> {
    let mut device = device_filter(rt.alloc(), false)?;
    assert!(rt; serves_all(rt.alloc(), &mut device, REFUSED)?);
    let report = device.report()?;
    assert!(rt; report.as_slice() == b"device 9 up IDLE\nactive 9 10 1 1 AA\n".as_slice());
    Ok(())
}

#[test]
fn a_report_is_a_line_of_json(rt: HostRuntime) -> Result<(), Fail> {
    let mut device = device_filter(rt.alloc(), false)?;
    assert!(rt;
        serves_all(
            rt.alloc(),
            &mut device,
            &[(
                "report",
                "{\"format\":\"fwupd-device/1\",\"device\":{\"eid\":9,\"up\":true,\"state\":\"IDLE\",\"active\":[{\"classification\":10,\"identifier\":1,\"size\":1,\"beginning\":\"AA\"}]},\"history\":[]}\n"
            )]
        )?
    );
    Ok(())
}
