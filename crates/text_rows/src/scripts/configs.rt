//! Configurations that are read.

use fw_script::{ComponentConfig, Config, DeviceConfig, ScriptCause, ScriptFault, read_config};
use mctp_ctl::Endpoint;
use mctp_wire::Unit;
use std::test::Fail;
use uuid::Uuid;

/// Whether this is the first device of the text below.
fn is_first(device: &DeviceConfig) -> bool {
    let descriptors = [0xFE, 0xFF, 2, 0, 0x34, 0x12, 1, 0, 0, 0];
    let [widest, least] = device.components.as_slice() else {
        return false;
    };
    (device.endpoint.eid, device.endpoint.uuid.as_bytes()[15]) == (9, 9)
        && device.descriptors.lent().as_bytes() == descriptors.as_slice()
        && is_widest(widest)
        && least.label.version().text.bytes.is_empty()
        && least.image.as_slice() == [0xAA, 0].as_slice()
}

/// Whether this is the first component of the text below, whose label is truncated.
fn is_widest(component: &ComponentConfig) -> bool {
    let key = component.component.key;
    let text = component.label.version().text;
    (
        key.classification,
        key.identifier,
        component.component.index,
    ) == (65535, 65535, 255)
        && component.label.stamp() == 4_294_967_295
        && text.bytes == b"abcdefghijkl".as_slice()
        && text.text_type == 1
        && component.image.is_empty()
}

/// Whether this is the second device of the text below.
fn is_second(device: &DeviceConfig) -> bool {
    (device.endpoint.eid, device.descriptors.lent().len()) == (254, 0)
        && device.components.len() == 1
}

#[test]
fn reads_each_line_in_its_order(rt: HostRuntime) -> Result<(), Fail> {
    let text = b"# A board.\n\
        \n\
        agent 8 00112233-4455-6677-8899-aabbccddeeff\n\
        # wide\n\
        \n\
        unit 128\n\
        device 9 urn:uuid:00000000-0000-0000-0000-000000000009\n\
        component 65535 65535 255 4294967295 abcdefghijklmnop -\n\
        descriptor fFfE 3412\n\
        component 10 1 0 1 - aA00\n\
        descriptor 0001 -\n\
        device 254 00000000000000000000000000000000\n\
        component 010 0 0 0 1.0 FF\n\
        package a.fwpkg\n\
        package -\n";
    let Config {
        agent,
        unit,
        devices,
        packages,
    } = read_config(rt.alloc(), text)?;
    let uuid = Uuid::from_bytes([
        0x00, 0x11, 0x22, 0x33, 0x44, 0x55, 0x66, 0x77, 0x88, 0x99, 0xAA, 0xBB, 0xCC, 0xDD, 0xEE,
        0xFF,
    ]);
    let [first, second] = devices.as_slice() else {
        assert!(rt; false, "two devices");
        return Ok(());
    };
    let [path, dash] = packages.as_slice() else {
        assert!(rt; false, "two packages");
        return Ok(());
    };
    let named = (path.as_str(), dash.as_str()) == ("a.fwpkg", "-") && unit == Unit::U128;
    assert!(rt;
        agent == Endpoint { eid: 8, uuid } && is_first(first) && is_second(second) && named
    );
    Ok(())
}

/// The agent's line of the texts below.
const AGENT: &[u8] = b"agent 8 00000000000000000000000000000000\n";

/// The device lines after it.
const DEVICE: &[u8] = b"device 9 00000000000000000000000000000000\ncomponent 10 1 0 1 1.0 AA\n";

/// Lines between the agent's and the device's, and the unit of the configuration.
const UNITS: [(&[u8], Unit); 7] = [
    (b"", Unit::U64),
    (b"# unit 128\n", Unit::U64),
    (b"unit 64\n", Unit::U64),
    (b"unit 128\n", Unit::U128),
    (b"\n# wide\nunit 128\n\n", Unit::U128),
    (b"unit 064\n", Unit::U64),
    (b"unit 0000128\n", Unit::U128),
];

/// Lines after the agent's, and the line and the fault of the configuration.
const NO_UNITS: [(&[u8], usize, ScriptCause); 21] = [
    (b"unit\n", 2, ScriptCause::Fields),
    (b"unit \n", 2, ScriptCause::Fields),
    (b"unit 64 128\n", 2, ScriptCause::Fields),
    (b"unit 64\nunit\n", 3, ScriptCause::Fields),
    (b"unit 64\nunit 128\n", 3, ScriptCause::Order),
    (b"unit 64\n\n# again\nunit 64\n", 5, ScriptCause::Order),
    (b"unit 64\nunit x\n", 3, ScriptCause::Order),
    (b"unit 64\nagent 9 -\n", 3, ScriptCause::Order),
    (
        b"device 10 00000000000000000000000000000000\nunit 64\n",
        3,
        ScriptCause::Order,
    ),
    (
        b"device 10 00000000000000000000000000000000\ncomponent 1 1 0 1 - -\nunit 65\n",
        4,
        ScriptCause::Order,
    ),
    (
        b"device 10 00000000000000000000000000000000\ndescriptor 0000 -\nunit 64\n",
        4,
        ScriptCause::Order,
    ),
    (b"package a\nunit 128\n", 3, ScriptCause::Order),
    (b"unit -\n", 2, ScriptCause::Number),
    (b"unit +64\n", 2, ScriptCause::Number),
    (b"unit 0x40\n", 2, ScriptCause::Number),
    (b"unit 63\n", 2, ScriptCause::Range),
    (b"unit 65\n", 2, ScriptCause::Range),
    (b"unit 127\n", 2, ScriptCause::Range),
    (b"unit 129\n", 2, ScriptCause::Range),
    (b"unit 18446744073709551680\n", 2, ScriptCause::Range),
    (b"Unit 64\n", 2, ScriptCause::Directive),
];

/// The unit of three texts, joined.
fn unit_in(rt: &HostRuntime, parts: [&[u8]; 3]) -> Result<Unit, ScriptFault> {
    let mut text = Vec::new(rt.alloc());
    for part in parts {
        if text.extend_from_slice(part).is_err() {
            return Err(ScriptFault {
                line: 0,
                cause: ScriptCause::Memory,
            });
        }
    }
    Ok(read_config(rt.alloc(), &text)?.unit)
}

#[test]
fn a_unit_stands_behind_the_agent(rt: HostRuntime) {
    for (lines, unit) in UNITS {
        assert!(rt; unit_in(&rt, [AGENT, lines, DEVICE]) == Ok(unit));
    }
    for (lines, line, cause) in NO_UNITS {
        assert!(rt; unit_in(&rt, [AGENT, lines, DEVICE]) == Err(ScriptFault { line, cause }));
    }
    let early = ScriptFault {
        line: 1,
        cause: ScriptCause::Order,
    };
    assert!(rt; unit_in(&rt, [b"unit 64\n", AGENT, DEVICE]) == Err(early));
}
