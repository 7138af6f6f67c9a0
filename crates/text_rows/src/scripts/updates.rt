//! The worked update by its schedule's text, and its reports.

use fd_core::MemBank;
use fw_package::{Package, PackageFault};
use fw_script::{read_config, read_schedule, report};
use fw_setup::opening_world;
use fw_world::{Step, StepFault, World, replay};
use std::alloc::{AllocError, Global};
use std::test::Fail;

/// The agent 8, and the device 9, whose active image is AA.
const CONFIG: &[u8] = b"agent 8 00000000-0000-0000-0000-000000000000\n\
    device 9 00000000-0000-0000-0000-000000000000\n\
    descriptor 0000 3412\n\
    component 10 1 0 1 1.0 AA\n\
    package one.fwpkg\n";

/// The header of the worked package: one record of the descriptor 0000 with data 34 12, set text
/// `A`, and component (10, 1) with stamp 2, options 0002, text `v2` and 241 bytes.
const HEADER: &[u8] = &[
    0xF0, 0x18, 0x87, 0x8C, 0xCB, 0x7D, 0x49, 0x43, 0x98, 0, 0xA0, 0x2F, 0x05, 0x9A, 0xCA, 0x02,
    0x01, 0x56, 0, 0, 0, 0, 0, 0, 0, 0, 0, 0, 0, 0, 0, 0, 0x08, 0, 0x01, 0, 0x01, 0x13, 0, 0x01, 0,
    0, 0, 0, 0x01, 0x01, 0, 0, 0x01, 0x41, 0, 0, 0x02, 0, 0x34, 0x12, 0x01, 0, 0x0A, 0, 0x01, 0,
    0x02, 0, 0, 0, 0x02, 0, 0, 0, 0x56, 0, 0, 0, 0xF1, 0, 0, 0, 0x01, 0x02, 0x76, 0x32, 0xFE, 0x65,
    0x62, 0x75,
];

/// The schedule of the update over perfect links.
const SCHEDULE: &[u8] = b"start 9 1\n\
    tick\ndeliver 9 1 9\ndeliver 9 2 8\n\
    tick\ndeliver 9 3 9\ndeliver 9 4 8\n\
    tick\ndeliver 9 5 9\ndeliver 9 6 8\n\
    tick\ndeliver 9 7 9\ndeliver 9 8 8\n\
    tick\ndeliver 9 9 9\ndeliver 9 10 8\n\
    tick\ndeliver 9 11 9\ndeliver 9 12 8\n\
    tick\ndeliver 9 13 8\ndeliver 9 14 9\ndeliver 9 15 9\ndeliver 9 16 9\ndeliver 9 17 9\n\
    tick\ndeliver 9 18 8\ndeliver 9 19 9\n\
    tick\ndeliver 9 20 8\ndeliver 9 21 9\nverdict 9 verify-ok\n\
    tick\ndeliver 9 22 8\ndeliver 9 23 9\nverdict 9 apply-ok\n\
    tick\ndeliver 9 24 8\ndeliver 9 25 9\nactivate 9\n\
    tick\ndeliver 9 26 9\ndeliver 9 27 8\n";

/// The report of that update.
const UPDATED: &[u8] = b"now 12\n\
    agent 8 up\n\
    device 9 up ACTIVATE session Done sent 27\n\
    active 9 10 1 241 000102030405060708090A0B0C0D0E0F..\n\
    log 3 last -\n\
    applied 9 10 1 241\n\
    recorded 9 1 1\n\
    activated 9 10 1 241\n";

/// The report if the device's bank can't begin with the image.
const NOT_BEGUN: &[u8] = b"now 7\n\
    agent 8 up\n\
    device 9 up READY session Failed:Answer sent 12\n\
    active 9 10 1 1 AA\n\
    log 2 last -\n";

/// The report after the update's first four steps.
const FIRST: &[u8] = b"now 1\n\
    agent 8 up\n\
    device 9 up IDLE session Params sent 2\n\
    active 9 10 1 1 AA\n\
    log 1 last -\n";

/// The file of the worked package: its header and its image, whose byte i is i.
fn file(alloc: Global) -> Result<Vec<u8>, AllocError> {
    let mut out = Vec::new(alloc);
    out.extend_from_slice(HEADER)?;
    for byte in 0..=240 {
        out.push(byte)?;
    }
    Ok(out)
}

/// `Package::read`; its contract isn't needed in the proofs of the tests.
fn package(bytes: &[u8]) -> Result<Package<'_>, PackageFault> {
    Package::read(bytes)
}

/// The world of the configuration.
fn opened<'a>(
    alloc: Global,
    packages: &'a [Package<'a>],
) -> Result<World<'a, MemBank>, AllocError> {
    let Ok(config) = read_config(alloc, CONFIG) else {
        return Err(AllocError);
    };
    opening_world(alloc, config.unit, config.agent, config.devices, packages)
}

/// The same, at the second try if memory is refused.
fn opened_twice<'a>(
    alloc: Global,
    packages: &'a [Package<'a>],
) -> Result<World<'a, MemBank>, AllocError> {
    match opened(alloc, packages) {
        Ok(world) => Ok(world),
        Err(_) => opened(alloc, packages),
    }
}

/// `replay`; its contract isn't needed in the proofs of the tests.
fn replayed(world: &mut World<'_, MemBank>, steps: &[Step]) -> Result<(), (usize, StepFault)> {
    replay(world, steps)
}

/// Takes the steps, each again if memory was refused. Returns whether each is taken.
fn takes(world: &mut World<'_, MemBank>, steps: &[Step]) -> bool {
    match replayed(world, steps) {
        Ok(()) => true,
        Err((count, StepFault::Memory)) => match steps.get(count..) {
            Some(rest) => replayed(world, rest).is_ok(),
            None => false,
        },
        Err(_) => false,
    }
}

/// `report`; its contract isn't needed in the proofs of the tests.
fn report_of(alloc: Global, world: &World<'_, MemBank>) -> Result<Vec<u8>, AllocError> {
    report(alloc, world)
}

/// Whether the report is this text, at the second try if memory is refused.
fn is_reported(alloc: Global, world: &World<'_, MemBank>, text: &[u8]) -> bool {
    let told = match report_of(alloc, world) {
        Ok(told) => Ok(told),
        Err(_) => report_of(alloc, world),
    };
    match told {
        Ok(told) => told.as_slice() == text,
        Err(_) => false,
    }
}

/// Whether a world takes the steps, and its report is then this text.
fn goes(
    alloc: Global,
    world: &mut World<'_, MemBank>,
    steps: Option<&[Step]>,
    text: &[u8],
) -> bool {
    match steps {
        Some(steps) => takes(world, steps) && is_reported(alloc, world, text),
        None => false,
    }
}

#[test]
fn the_worked_update_is_reported(rt: HostRuntime) -> Result<(), Fail> {
    let bytes = file(rt.alloc())?;
    let packages = [package(&bytes)?];
    let steps = read_schedule(rt.alloc(), SCHEDULE)?;
    let mut world = opened(rt.alloc(), &packages)?;
    assert!(rt; goes(rt.alloc(), &mut world, steps.get(..4), FIRST));
    assert!(rt; goes(rt.alloc(), &mut world, steps.get(4..), UPDATED));
    Ok(())
}

/// Whichever single allocation is refused, the test holds.
#[test]
fn refused_memory_writes_no_report(rt: HostRuntime) -> Result<(), Fail> {
    let bytes = match file(rt.alloc()) {
        Ok(bytes) => bytes,
        Err(_) => file(rt.alloc())?,
    };
    let packages = [package(&bytes)?];
    let steps = match read_schedule(rt.alloc(), SCHEDULE) {
        Ok(steps) => steps,
        Err(_) => read_schedule(rt.alloc(), SCHEDULE)?,
    };
    let mut world = opened_twice(rt.alloc(), &packages)?;
    let text = if takes(&mut world, &steps) {
        UPDATED
    } else {
        NOT_BEGUN
    };
    assert!(rt; is_reported(rt.alloc(), &world, text));
    Ok(())
}
