//! Schedules that are written, and read back.

use super::{miss, request};
use fd_core::Verdict;
use fw_script::{ScheduleText, read_schedule, write_schedule};
use fw_world::{Missed, Step};
use std::alloc::{AllocError, Global};
use std::test::Fail;

/// The remark before one update over perfect links.
const REMARK: &[u8] = b"# One update over perfect links.\n";

/// The steps of that update.
const UPDATE: &[u8] = b"\
start 9 1
tick
deliver 9 1 9
deliver 9 2 8
tick
deliver 9 3 9
deliver 9 4 8
tick
deliver 9 5 9
deliver 9 6 8
tick
deliver 9 7 9
deliver 9 8 8
tick
deliver 9 9 9
deliver 9 10 8
tick
deliver 9 11 9
deliver 9 12 8
tick
deliver 9 13 8
deliver 9 14 9
deliver 9 15 9
deliver 9 16 9
deliver 9 17 9
tick
deliver 9 18 8
deliver 9 19 9
tick
deliver 9 20 8
deliver 9 21 9
verdict 9 verify-ok
tick
deliver 9 22 8
deliver 9 23 9
verdict 9 apply-ok
tick
deliver 9 24 8
deliver 9 25 9
activate 9
tick
deliver 9 26 9
deliver 9 27 8
";

/// `count` ticks that no node misses, between two other steps.
fn ticks(alloc: Global, count: usize) -> Result<Vec<Step>, AllocError> {
    let mut steps = Vec::new(alloc);
    let _ = steps.push(Step::Restart(8));
    for _pushed in 0..count {
        let Ok(()) = steps.push(Step::Tick(Missed::new())) else {
            return Err(AllocError);
        };
    }
    let _ = steps.push(Step::Restart(9));
    Ok(steps)
}

/// Whether steps are written as a text, and it reads back as them.
fn is_text_of(alloc: Global, steps: &[Step], want: &[u8]) -> Result<bool, AllocError> {
    let text = write_schedule(alloc, steps)?;
    let Ok(read) = read_schedule(alloc, text.as_slice()) else {
        return Ok(false);
    };
    Ok(text.as_slice() == want && read.as_slice() == steps)
}

#[test]
fn each_step_has_its_line(rt: HostRuntime) -> Result<(), Fail> {
    let table: [(Step, &[u8]); 9] = [
        (Step::Tick(Missed::new()), b"tick\n"),
        (Step::Deliver(9, 0, 8), b"deliver 9 0 8\n"),
        (
            Step::Deliver(254, 18_446_744_073_709_551_615, 100),
            b"deliver 254 18446744073709551615 100\n",
        ),
        (Step::Start(9, 10), b"start 9 10\n"),
        (Step::Start(10, 0), b"start 10 0\n"),
        (Step::Cancel(254), b"cancel 254\n"),
        (Step::Activate(8), b"activate 8\n"),
        (Step::Activate(100), b"activate 100\n"),
        (Step::Restart(10), b"restart 10\n"),
    ];
    for (step, want) in table {
        assert!(rt; is_text_of(rt.alloc(), &[step], want)?);
    }
    Ok(())
}

#[test]
fn each_verdict_has_its_word(rt: HostRuntime) -> Result<(), Fail> {
    let table: [(Verdict, &[u8]); 4] = [
        (Verdict::VerifyOk, b"verdict 9 verify-ok\n"),
        (Verdict::VerifyFail, b"verdict 9 verify-fail\n"),
        (Verdict::ApplyOk, b"verdict 9 apply-ok\n"),
        (Verdict::ApplyFail, b"verdict 9 apply-fail\n"),
    ];
    for (verdict, want) in table {
        assert!(rt; is_text_of(rt.alloc(), &[Step::Verdict(9, verdict)], want)?);
    }
    Ok(())
}

#[test]
fn requests_and_missed_ticks_list_what_they_have(rt: HostRuntime) -> Result<(), Fail> {
    let all = [
        8, 9, 10, 11, 12, 13, 14, 15, 16, 17, 18, 19, 20, 21, 22, 23, 24,
    ];
    let table: [(Step, &[u8]); 6] = [
        (request(&[]), b"sel -\n"),
        (request(&[0x40]), b"sel 40\n"),
        (request(&[0x46, 0xFF, 0xC3, 0x0A]), b"sel 46FFC30A\n"),
        (miss(&[8]), b"miss 8\n"),
        (miss(&[254, 9, 10]), b"miss 254 9 10\n"),
        (
            miss(&all),
            b"miss 8 9 10 11 12 13 14 15 16 17 18 19 20 21 22 23 24\n",
        ),
    ];
    for (step, want) in table {
        assert!(rt; is_text_of(rt.alloc(), &[step], want)?);
    }
    Ok(())
}

#[test]
fn no_step_is_no_text(rt: HostRuntime) -> Result<(), Fail> {
    assert!(rt; is_text_of(rt.alloc(), &[], b"")?);
    Ok(())
}

#[test]
fn ticks_in_a_row_are_lines_of_a_thousand(rt: HostRuntime) -> Result<(), Fail> {
    let table: [(usize, &[u8]); 9] = [
        (0, b"restart 8\nrestart 9\n"),
        (1, b"restart 8\ntick\nrestart 9\n"),
        (2, b"restart 8\ntick 2\nrestart 9\n"),
        (999, b"restart 8\ntick 999\nrestart 9\n"),
        (1000, b"restart 8\ntick 1000\nrestart 9\n"),
        (1001, b"restart 8\ntick 1000\ntick\nrestart 9\n"),
        (1002, b"restart 8\ntick 1000\ntick 2\nrestart 9\n"),
        (2000, b"restart 8\ntick 1000\ntick 1000\nrestart 9\n"),
        (2001, b"restart 8\ntick 1000\ntick 1000\ntick\nrestart 9\n"),
    ];
    for (count, want) in table {
        let steps = ticks(rt.alloc(), count)?;
        assert!(rt; is_text_of(rt.alloc(), steps.as_slice(), want)?);
    }
    Ok(())
}

/// A tick that a node misses is a line of its own among others.
#[test]
fn ticks_are_held_back_until_another_step(rt: HostRuntime) -> Result<(), Fail> {
    let mut writer = ScheduleText::new();
    let mut text = Vec::new(rt.alloc());
    let table: [(Step, &[u8]); 6] = [
        (Step::Tick(Missed::new()), b""),
        (Step::Tick(Missed::new()), b""),
        (miss(&[9]), b"tick 2\nmiss 9\n"),
        (Step::Tick(Missed::new()), b""),
        (Step::Cancel(9), b"tick\ncancel 9\n"),
        (Step::Tick(Missed::new()), b""),
    ];
    for (step, want) in table {
        text.clear();
        writer.push(rt.alloc(), &mut text, &step)?;
        assert!(rt; text.as_slice() == want);
    }
    writer.end(rt.alloc(), &mut text)?;
    assert!(rt; text.as_slice() == b"tick\n".as_slice());
    text.clear();
    writer.end(rt.alloc(), &mut text)?;
    assert!(rt; text.is_empty());
    Ok(())
}

/// The text written turn by turn, with turns that end between ticks, is the text written at once.
#[test]
fn portions_are_the_whole(rt: HostRuntime) -> Result<(), Fail> {
    let steps = read_schedule(rt.alloc(), b"start 9 1\ntick 3\ndeliver 9 1 9\ntick 2\n")?;
    let whole = b"start 9 1\ntick 3\ndeliver 9 1 9\ntick 2\n".as_slice();
    for cut in 0..=steps.len() {
        let mut writer = ScheduleText::new();
        let mut text = Vec::new(rt.alloc());
        writer.push_all(rt.alloc(), &mut text, &steps[..cut])?;
        writer.push_all(rt.alloc(), &mut text, &steps[cut..])?;
        writer.end(rt.alloc(), &mut text)?;
        assert!(rt; text.as_slice() == whole);
    }
    Ok(())
}

#[test]
fn an_update_is_written_as_its_schedule_without_the_remark(rt: HostRuntime) -> Result<(), Fail> {
    let mut known = Vec::new(rt.alloc());
    known.extend_from_slice(REMARK)?;
    known.extend_from_slice(UPDATE)?;
    let steps = read_schedule(rt.alloc(), known.as_slice())?;
    let text = write_schedule(rt.alloc(), steps.as_slice())?;
    assert!(rt; text.as_slice() == UPDATE);
    Ok(())
}

/// Leading zeros, lower-case digits, remarks, empty lines and split ticks are read, and are not
/// written.
#[test]
fn what_is_read_is_written_in_one_way(rt: HostRuntime) -> Result<(), Fail> {
    let steps = read_schedule(
        rt.alloc(),
        b"# A remark.\ntick 003\n\ntick\n#tick\ntick 0996\ntick\nstart 009 00\nsel 46fFc3\nmiss 010 9\ntick 1",
    )?;
    let want = b"tick 1000\ntick\nstart 9 0\nsel 46FFC3\nmiss 10 9\ntick\n";
    assert!(rt; is_text_of(rt.alloc(), steps.as_slice(), want)?);
    Ok(())
}
