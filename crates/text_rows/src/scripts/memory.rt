//! Reading texts if memory is refused, and the names of faults.

use fw_script::{
    ScheduleText, ScriptCause, ScriptFault, read_config, read_package_spec, read_schedule,
    write_schedule,
};
use fw_setup::opening_world;
use fw_world::{Missed, Step};
use std::test::Fail;

/// Whichever single allocation is refused, the test holds.
#[test]
fn refused_memory_is_told_of_configurations(rt: HostRuntime) {
    let text = b"agent 8 00000000000000000000000000000000\n\
        device 9 00000000000000000000000000000000\n\
        component 10 1 0 1 1.0 AA\n\
        descriptor 0000 3412\n\
        device 10 00000000000000000000000000000000\n\
        component 10 1 0 1 1.0 AABB\n\
        package a\n";
    match read_config(rt.alloc(), text) {
        Ok(config) => assert!(rt; (config.devices.len(), config.packages.len()) == (2, 1)),
        Err(fault) => assert!(rt; fault.cause == ScriptCause::Memory),
    }
}

/// Whichever single allocation is refused, the test holds.
#[test]
fn refused_memory_opens_no_world(rt: HostRuntime) {
    let text = b"agent 8 00000000000000000000000000000000\n\
        device 9 00000000000000000000000000000000\n\
        component 10 1 0 1 1.0 AA\n\
        device 10 00000000000000000000000000000000\n\
        component 10 1 0 1 1.0 AABB\n";
    let Ok(config) = read_config(rt.alloc(), text) else {
        return;
    };
    if let Ok(world) = opening_world(rt.alloc(), config.unit, config.agent, config.devices, &[]) {
        assert!(rt; (world.now(), world.device_count()) == (0, 2));
    }
}

/// Whichever single allocation is refused, the test holds.
#[test]
fn refused_memory_is_told_of_schedules(rt: HostRuntime) {
    match read_schedule(rt.alloc(), b"tick 4\nsel 4000\nrestart 9\n") {
        Ok(steps) => assert!(rt; steps.len() == 6),
        Err(fault) => assert!(rt; fault.cause == ScriptCause::Memory),
    }
}

/// Whichever single allocation is refused, the test holds.
#[test]
fn refused_memory_writes_no_schedule(rt: HostRuntime) {
    let text = b"tick 4\nsel 4000\nmiss 9 8\ndeliver 9 1 8\nverdict 9 apply-ok\ntick\n".as_slice();
    let Ok(steps) = read_schedule(rt.alloc(), text) else {
        return;
    };
    if let Ok(written) = write_schedule(rt.alloc(), steps.as_slice()) {
        assert!(rt; written.as_slice() == text);
    }
}

/// A step for which memory was refused is written again. Whichever single allocation is refused,
/// the test holds.
#[test]
fn refused_memory_keeps_the_ticks(rt: HostRuntime) {
    let table: [(Step, &[u8]); 4] = [
        (Step::Tick(Missed::new()), b""),
        (Step::Tick(Missed::new()), b""),
        (Step::Cancel(9), b"tick 2\ncancel 9\n"),
        (Step::Start(9, 12), b"start 9 12\n"),
    ];
    let mut writer = ScheduleText::new();
    for (step, want) in table {
        let mut text = Vec::new(rt.alloc());
        if writer.push(rt.alloc(), &mut text, &step).is_err() {
            text.clear();
            assert!(rt; writer.push(rt.alloc(), &mut text, &step).is_ok());
        }
        assert!(rt; text.as_slice() == want);
    }
}

/// Whichever single allocation is refused, the test holds.
#[test]
fn refused_memory_is_told_of_package_texts(rt: HostRuntime) {
    let text =
        b"version 1.0\nrelease 00000000000000000000000000\nrecord 0 \\x41 1 2\ndescriptor 0000 3412\n\
        record 1 - -\ncomponent 10 1 2 2 0 v2 a\ncomponent 10 2 2 2 0 v2 -\n";
    match read_package_spec(rt.alloc(), text) {
        Ok(spec) => assert!(rt;
            (spec.records.len(), spec.components.len(), spec.next_line) == (2, 2, 8)
        ),
        Err(fault) => assert!(rt; fault.cause == ScriptCause::Memory),
    }
}

#[test]
fn faults_are_told_by_their_names(rt: HostRuntime) -> Result<(), Fail> {
    let table: [(ScriptCause, &str); 10] = [
        (ScriptCause::Directive, "line 3: Directive"),
        (ScriptCause::Fields, "line 3: Fields"),
        (ScriptCause::Order, "line 3: Order"),
        (ScriptCause::Number, "line 3: Number"),
        (ScriptCause::Hex, "line 3: Hex"),
        (ScriptCause::Range, "line 3: Range"),
        (ScriptCause::Duplicate, "line 3: Duplicate"),
        (ScriptCause::Limit, "line 3: Limit"),
        (ScriptCause::Missing, "line 3: Missing"),
        (ScriptCause::Memory, "line 3: Memory"),
    ];
    for (cause, want) in table {
        let fault = ScriptFault { line: 3, cause };
        let told = format!(in rt.alloc(); "{fault}")?;
        assert!(rt; told.as_str() == want && want.strip_prefix("line 3: ") == Some(cause.name()));
    }
    Ok(())
}
