//! Captures, the lines of an event log, and observed replays.

ghost use Rattle.std.specs.Prelude.{true};

use crate::tests::jobs::{MemFiles, WHOLE, host, outcome, package, source};
use fw_edge::MemLink;
use fw_trace::{RecordsFault, capture_header, push_capture, records_text};
use fwupd_base::Form;
use fwupd_jobs::{Host, JobFault, Output, Replay, Show, TraceForm, Wires, replay_files, sel_file};
use mctp_wire::Unit;
use std::test::Fail;

/// The bytes that a text of hexadecimal digits encodes, which may contain spaces.
fn bytes_of(rt: &HostRuntime, text: &str) -> Result<Vec<u8>, Fail> {
    let mut digits = Vec::new(rt.alloc());
    for byte in text.bytes() {
        if byte != b' ' {
            digits.push(byte)?;
        }
    }
    Ok(hex::decode(rt.alloc(), digits.as_slice())?)
}

/// A source of no link.
#[derive(Drop)]
struct NoWires {}

impl Wires<MemLink> for NoWires {
    ghost lacks = { λ w folder device. true };

    fn open(&mut self, _unit: Unit, _folder: &str, device: u8) -> Result<MemLink, JobFault> {
        Err(JobFault::Socket(device))
    }
}

#[test]
fn a_packet_is_captured(rt: HostRuntime) -> Result<(), Fail> {
    let table = [
        (
            1,
            true,
            "010908C801800501",
            "01000000 00000000 18000000 18000000 0004 0122 0001 08 00000000000000 00FA 010908C801800501",
        ),
        (
            0x0102_0304,
            false,
            "010809C0010005",
            "04030201 00000000 17000000 17000000 0000 0122 0001 09 00000000000000 00FA 010809C0010005",
        ),
        (
            0,
            true,
            "",
            "00000000 00000000 10000000 10000000 0004 0122 0001 00 00000000000000 00FA",
        ),
    ];
    let head = bytes_of(
        &rt,
        "D4C3B2A1 0200 0400 00000000 00000000 FFFF0000 71000000",
    )?;
    assert!(rt; capture_header() == head.as_slice());
    for (turn, is_sent, packet, wanted) in table {
        let packet = bytes_of(&rt, packet)?;
        let wanted = bytes_of(&rt, wanted)?;
        let mut capture = Vec::new(rt.alloc());
        push_capture(&mut capture, turn, is_sent, &packet)?;
        assert!(rt;
            capture.as_slice() == wanted.as_slice(),
            "{}",
            capture.escape_ascii()
        );
    }
    Ok(())
}

#[test]
fn a_record_is_told_in_a_line(rt: HostRuntime) -> Result<(), Fail> {
    let table: [(&str, &[u8]); 11] = [
        ("", b""),
        (
            "0100 C1 01000000 000000 01 09 0100 FFFF",
            b"   1 |          1 | started   | device 9 package 1\n",
        ),
        (
            "0200 C1 0B000000 000000 02 09 0100 0100",
            b"   2 |         11 | applied   | device 9 package 1 component 1\n",
        ),
        (
            "1F00 C1 FFFFFFFF 000000 03 FE FFFF FFFF",
            b"  1F | 4294967295 | activated | device 254 package 65535\n",
        ),
        (
            "BC0A C1 01000000 000000 04 0A 0100 0300",
            b" ABC |          1 | failed    | device 10 package 1 cause NoRecord\n",
        ),
        (
            "FEFF C1 00000000 000000 05 09 0200 FFFF",
            b"FFFE |          0 | cancelled | device 9 package 2\n",
        ),
        (
            "0100 C1 00000000 000000 04 09 0200 0B00",
            b"   1 |          0 | failed    | device 9 package 2 cause 11\n",
        ),
        (
            "0300 02 0B000000 200004 01 30 6F 01FFFF",
            b"   3 | type 02 | 0B00000020000401306F01FFFF\n",
        ),
        (
            "0100 C1 01000000 000000 01 09 0100 0000",
            b"   1 | type C1 | 01000000000000010901000000\n",
        ),
        (
            "0100 C1 01000000 000001 01 09 0100 FFFF",
            b"   1 | type C1 | 0100000000000101090100FFFF\n",
        ),
        (
            "0100 C1 01000000 000000 06 09 0100 FFFF",
            b"   1 | type C1 | 0100000000000006090100FFFF\n",
        ),
    ];
    for (record, wanted) in table {
        let record = bytes_of(&rt, record)?;
        let mut line = Vec::new(rt.alloc());
        for byte in wanted.iter() {
            line.push(*byte)?;
        }
        let Ok(text) = records_text(rt.alloc(), &record) else {
            return Ok(());
        };
        assert!(rt;
            text.as_slice() == line.as_slice(),
            "{}",
            text.escape_ascii()
        );
    }
    Ok(())
}

#[test]
fn a_log_has_at_most_128_whole_records(rt: HostRuntime) -> Result<(), Fail> {
    let table = [
        (0, 0),
        (16, 1),
        (2048, 128),
        (1, 999),
        (15, 999),
        (17, 999),
        (2049, 999),
        (2064, 999),
    ];
    for (size, lines) in table {
        let mut bytes = Vec::new(rt.alloc());
        for _ in 0..size {
            bytes.push(0)?;
        }
        match records_text(rt.alloc(), &bytes) {
            Ok(text) => {
                let mut count = 0usize;
                for byte in text.iter() {
                    if *byte == b'\n' {
                        count = count.saturating_add(1);
                    }
                }
                assert!(rt; count == lines);
            }
            Err(RecordsFault::Size) => assert!(rt; lines == 999),
            Err(RecordsFault::Memory) => {}
        }
    }
    Ok(())
}

#[test]
fn the_log_in_a_file_is_told(rt: HostRuntime) -> Result<(), Fail> {
    let record = bytes_of(&rt, "0200 C1 0B000000 000000 02 09 0100 0100")?;
    let json =
        b"{\"format\":\"fwupd-sel/1\",\"records\":[{\"id\":2,\"time\":11,\"event\":\"applied\",\"device\":9,\"package\":1,\"component\":1}]}\n".as_slice();
    let table: [(&str, Form, &[u8]); 5] = [
        (
            "l",
            Form::Text,
            b"   2 |         11 | applied   | device 9 package 1 component 1\n",
        ),
        ("l", Form::Json, json),
        ("s", Form::Text, b"sel: Size"),
        ("s", Form::Json, b"sel: Size"),
        ("none", Form::Text, b"none: unreadable"),
    ];
    for (path, form, wanted) in table {
        let files: [(&str, u64, &[u8]); 2] = [("l", 1, &record), ("s", 2, b"short")];
        let mut output = match Output::new(rt.alloc(), Vec::new(rt.alloc())) {
            Ok(output) => output,
            Err(_) => return Ok(()),
        };
        let end = sel_file(
            rt.alloc(),
            &MemFiles { files: &files },
            path,
            form,
            &mut output,
        );
        let told = outcome(&rt, end, output.into_writer())?;
        assert!(rt; told.as_slice() == wanted, "{}", told.escape_ascii());
    }
    Ok(())
}

/// A schedule whose last step is refused.
const STEPS: &[u8] = b"start 9 1\ntick\ndeliver 9 1 9\ntick 3\ncancel 10\n";

/// The output of a replay, its fault, and the number of steps observed.
fn replayed<'a, 'b>(
    rt: &HostRuntime,
    config: &'a [u8],
    package: &'a [u8],
    steps: &'a [u8],
    trace: Option<&'b str>,
    log: Option<&'b str>,
    broken: usize,
) -> Result<(Vec<u8>, usize), Fail> {
    let files: [(&'a str, u64, &'a [u8]); 4] = [
        ("c", 1, config),
        ("p", 2, package),
        ("s", 3, steps),
        ("linked to s", 3, steps),
    ];
    let show = Show {
        is_quiet: true,
        trace,
        trace_form: TraceForm::Hex,
        log,
        record: None,
        store: None,
        history: None,
        form: Form::Text,
    };
    let replay = Replay {
        config: source(None),
        schedule: "s",
        show,
    };
    let mut host = host(rt, &files, NoWires {}, broken)?;
    let end = replay_files(rt.alloc(), replay, &mut host);
    let Host { output, watch, .. } = host;
    Ok((outcome(rt, end, output.into_writer())?, watch.turns))
}

#[test]
fn a_replay_reports_the_same_with_a_trace(rt: HostRuntime) -> Result<(), Fail> {
    let report =
        b"now 4\nagent 8 up\ndevice 9 up IDLE session Query sent 2\nactive 9 10 1 1 AA\nlog 1 last -\n".as_slice();
    let stopped =
        b"now 4\nagent 8 up\ndevice 9 up IDLE session Query sent 2\nactive 9 10 1 1 AA\nlog 1 last -\nstep 7: NoSuchNode".as_slice();
    let traced =
        b"now 4\nagent 8 up\ndevice 9 up IDLE session Query sent 2\nactive 9 10 1 1 AA\nlog 1 last -\ntrace".as_slice();
    let whole = &STEPS[..STEPS.len() - 10];
    let table: [(Option<&str>, Option<&str>, &[u8], usize, &[u8], usize); 10] = [
        (None, None, whole, 0, report, 0),
        (Some("t"), None, whole, 0, report, 6),
        (Some("t"), Some("l"), whole, 0, report, 6),
        (Some("t"), None, STEPS, 0, stopped, 6),
        (Some("t"), None, whole, 2, traced, 6),
        (Some("t"), None, STEPS, 2, stopped, 6),
        (Some("/"), None, whole, 0, b"trace", 0),
        (Some("linked to s"), None, whole, 0, b"trace", 0),
        (None, Some("/"), whole, 0, b"sel", 0),
        (Some("t"), Some("c"), whole, 0, b"sel", 0),
    ];
    let package = package(&rt)?;
    for (trace, log, steps, broken, wanted, turns) in table {
        let (told, seen) = replayed(&rt, WHOLE, &package, steps, trace, log, broken)?;
        assert!(rt; told.as_slice() == wanted, "{}", told.escape_ascii());
        assert!(rt; seen == turns);
    }
    Ok(())
}
