//! Schedules that are read.

use super::{miss, request};
use fd_core::Verdict;
use fw_script::{LineSteps, NextStep, read_lines, read_schedule, step_count};
use fw_world::{Missed, Step};
use std::test::Fail;

#[test]
fn reads_each_step_and_skips_what_says_nothing(rt: HostRuntime) -> Result<(), Fail> {
    let text = b"# every step\n\
        tick\n\
        \n\
        deliver 9 0 8\n\
        start 009 18446744073709551615\n\
        cancel 254\n\
        tick 003\n\
        activate 8\n\
        verdict 9 verify-ok\n\
        verdict 9 verify-fail\n\
        verdict 9 apply-ok\n\
        verdict 9 apply-fail\n\
        restart 10\n\
        sel -\n\
        sel 46fFc3\n\
        miss 8\n\
        miss 254 9 010\n\
        #tick\n\
        tick 1";
    let steps = read_schedule(rt.alloc(), text)?;
    let want = [
        Step::Tick(Missed::new()),
        Step::Deliver(9, 0, 8),
        Step::Start(9, 18_446_744_073_709_551_615),
        Step::Cancel(254),
        Step::Tick(Missed::new()),
        Step::Tick(Missed::new()),
        Step::Tick(Missed::new()),
        Step::Activate(8),
        Step::Verdict(9, Verdict::VerifyOk),
        Step::Verdict(9, Verdict::VerifyFail),
        Step::Verdict(9, Verdict::ApplyOk),
        Step::Verdict(9, Verdict::ApplyFail),
        Step::Restart(10),
        request(&[]),
        request(&[0x46, 0xFF, 0xC3]),
        miss(&[8]),
        miss(&[254, 9, 10]),
        Step::Tick(Missed::new()),
    ];
    assert!(rt; steps.as_slice() == want.as_slice());
    Ok(())
}

#[test]
fn keeps_ticks_as_they_are_written(rt: HostRuntime) -> Result<(), Fail> {
    let lines = read_lines(
        rt.alloc(),
        b"start 9 1
tick 1000
# nothing
tick
miss 8
",
    )?;
    assert!(rt; lines.len() == 4);
    assert!(rt; step_count(&lines) == Some(1003));
    let mut steps = LineSteps::new(&lines);
    assert!(rt; matches!(steps.next(), Some(NextStep::Said(Step::Start(9, 1)))));
    for _tick in 0..1001 {
        assert!(rt; matches!(steps.next(), Some(NextStep::Tick)));
    }
    assert!(rt; matches!(steps.next(), Some(NextStep::Said(step)) if *step == miss(&[8])));
    assert!(rt; steps.next().is_none());
    Ok(())
}
