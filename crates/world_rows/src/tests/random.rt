//! Random schedules, with missed ticks. After each step, separate checkers test their histories and
//! clocks.

use crate::tests::clocks::{Clocks, missed_by};
use crate::tests::dice::Dice;
use crate::tests::headers::{
    LONG_FIRST, LONG_SECOND, THREE_FIRST, THREE_SECOND, TWO_FIRST, TWO_SECOND,
};
use crate::tests::packages::package;
use crate::tests::setup::{Small, step, world};
use crate::tests::watch::{Watch, byte_of, size_of};
use fd_core::Verdict;
use fw_package::{Package, PackageFault};
use fw_world::{Refusal, Step, StepFault};
use mctp_wire::Unit;
use std::alloc::{AllocError, Global};

/// The number of ticks of each schedule.
const TICKS: u32 = 90;

const DEVICES: [u8; 2] = [9, 10];

/// Schedules of a kind: their number, the network's transmission unit, the headers of both
/// packages, the number of a device's components, and the factor of the size of their images.
#[derive(Clone, Copy)]
struct Kind {
    schedules: u32,
    unit: Unit,
    headers: [&'static [u8]; 2],
    components: usize,
    stretch: u8,
}

static TWO: Kind = Kind {
    schedules: 10_000,
    unit: Unit::U64,
    headers: [TWO_FIRST, TWO_SECOND],
    components: 2,
    stretch: 1,
};

/// Images of one or two pieces, each of up to 496 bytes, which four packets of 128 bytes carry.
static LONG: Kind = Kind {
    schedules: 2_000,
    unit: Unit::U128,
    headers: [LONG_FIRST, LONG_SECOND],
    components: 2,
    stretch: 12,
};

static THREE: Kind = Kind {
    schedules: 10_000,
    unit: Unit::U64,
    headers: [THREE_FIRST, THREE_SECOND],
    components: 3,
    stretch: 1,
};

impl Kind {
    /// The file of a package, counted from 0: its header, and the image of each component.
    fn file(&self, alloc: Global, package: usize) -> Result<Vec<u8>, AllocError> {
        let mut out = Vec::new(alloc);
        out.extend_from_slice(self.headers[package % 2])?;
        for component in 0..self.components {
            for i in 0..size_of(package, component, self.stretch) {
                out.push(byte_of(package, component, i))?;
            }
        }
        Ok(out)
    }
}

/// A world that takes random steps, and the observations of its history.
#[derive(Drop)]
struct Trial<'a> {
    world: Small<'a>,
    dice: Dice,
    watch: Watch,
    clocks: Clocks,
    handed: [usize; 2],
}

impl<'a> Trial<'a> {
    /// Takes a step, if the world allows it, and checks the history.
    fn take(&mut self, next: Step) {
        let _ = step(&mut self.world, &next);
        self.watch.look(self.world.history());
    }

    /// Takes random steps of the operator and the devices' users.
    fn operate(&mut self, device: u8) {
        if self.dice.hits(40) {
            let number = if self.dice.hits(128) { 1 } else { 2 };
            self.take(Step::Start(device, number));
        }
        if self.dice.hits(3) {
            self.take(Step::Cancel(device));
        }
        if self.dice.hits(2) {
            self.take(Step::Restart(device));
        }
        if self.dice.hits(1) {
            self.take(Step::Restart(8));
        }
        if self.dice.hits(200) {
            self.judge(device);
        }
    }

    /// Takes verdicts, mostly good, and the activation.
    fn judge(&mut self, device: u8) {
        let bad = self.dice.hits(4);
        self.take(Step::Verdict(
            device,
            if bad {
                Verdict::VerifyFail
            } else {
                Verdict::VerifyOk
            },
        ));
        self.take(Step::Verdict(
            device,
            if bad {
                Verdict::ApplyFail
            } else {
                Verdict::ApplyOk
            },
        ));
        self.take(Step::Activate(device));
    }

    /// Delivers a packet to its destination, or to any node; some packets are lost, for now or
    /// forever.
    fn hand(&mut self, device: u8, number: usize) {
        if self.dice.hits(6) {
            return;
        }
        let other = if self.dice.hits(2) { 10 } else { device };
        self.take(Step::Deliver(device, number, 8));
        self.take(Step::Deliver(device, number, other));
    }

    /// Delivers the new packets, and some of the earlier ones again.
    fn hand_new(&mut self, device: u8, place: usize) {
        for _ in 0..32 {
            let count = match self.world.packets(device) {
                Some(packets) => packets.len(),
                None => 0,
            };
            let Some(slot) = self.handed.get_mut(place) else {
                return;
            };
            let handed = *slot;
            if handed >= count {
                return;
            }
            *slot = handed + 1;
            self.hand(device, handed + 1);
            if self.dice.hits(20) {
                let back = usize::from(self.dice.byte() % 24);
                self.hand(device, handed.saturating_sub(back));
            }
        }
    }

    /// The nodes that miss a tick, mostly none.
    fn missing(&mut self) -> &'static [u8] {
        if self.dice.hits(200) {
            return &[];
        }
        match self.dice.byte() % 6 {
            0 => &[8],
            1 => &[9],
            2 => &[10],
            3 => &[9, 10],
            4 => &[10, 8, 10],
            _ => &[8, 9, 10],
        }
    }

    /// Passes a tick, which some nodes miss. If one of them must not miss it, the world refuses
    /// that, and then no node misses it.
    fn pass(&mut self) {
        let missed = self.missing();
        if self.clocks.may_miss(missed) {
            self.count(missed);
            return;
        }
        let slow = step(&mut self.world, &Step::Tick(missed_by(missed)));
        self.clocks.keep_time = self.clocks.keep_time
            && slow == Err(StepFault::Refused(Refusal::ClockSlow));
        self.count(&[]);
    }

    /// Passes a tick, which the listed nodes miss.
    fn count(&mut self, missed: &[u8]) {
        let taken = step(&mut self.world, &Step::Tick(missed_by(missed)));
        self.clocks.pass(missed);
        self.clocks.keep_time = self.clocks.keep_time && taken == Ok(());
        self.watch.look(self.world.history());
    }

    /// The activations; None if the history isn't safe, or a node doesn't keep time.
    fn activations(&self) -> Option<u32> {
        if self.watch.is_safe && self.clocks.keep_time {
            Some(self.watch.activations)
        } else {
            None
        }
    }

    /// Runs the schedule.
    fn run(&mut self) {
        for _ in 0..TICKS {
            self.pass();
            for (place, device) in DEVICES.iter().enumerate() {
                self.hand_new(*device, place);
                self.operate(*device);
            }
        }
    }
}

/// The activations in a schedule of a new world; None if its history isn't safe, or a node doesn't
/// keep time.
fn activations_of(world: Small<'_>, seed: u32, stretch: u8) -> Option<u32> {
    let mut trial = Trial {
        world,
        dice: Dice::new(u64::from(seed).wrapping_mul(0x9E37_79B9_7F4A_7C15)),
        watch: Watch::new(stretch),
        clocks: Clocks::new(),
        handed: [0, 0],
    };
    trial.run();
    trial.activations()
}

/// The number of activations in the schedules; None if a history isn't safe, or a node doesn't keep
/// time, or memory is refused.
fn activations<'p>(alloc: Global, packages: &'p [Package<'p>], kind: &Kind) -> Option<u32> {
    let mut all = 0u32;
    for seed in 0..kind.schedules {
        let Ok(world) = world(alloc, kind.unit, packages, 2, kind.components) else {
            return None;
        };
        all = all.saturating_add(activations_of(world, seed, kind.stretch)?);
    }
    Some(all)
}

/// The packages of two files.
fn packages_of<'a>(first: &'a [u8], second: &'a [u8]) -> Result<[Package<'a>; 2], PackageFault> {
    Ok([package(first)?, package(second)?])
}

/// The number of activations in the schedules over both packages.
fn all_activations(alloc: Global, kind: &Kind) -> Option<u32> {
    let first = kind.file(alloc, 0).ok()?;
    let second = kind.file(alloc, 1).ok()?;
    let packages = packages_of(&first, &second).ok()?;
    activations(alloc, &packages, kind)
}

/// Prints the number of activations in the schedules, and returns whether that worked.
fn prints(rt: &HostRuntime, kind: &Kind, count: u32) -> bool {
    let Kind {
        schedules,
        unit,
        components,
        ..
    } = *kind;
    let bytes = unit.bytes();
    let printed = println!(rt;
        "{schedules} schedules of {components} components at {bytes} bytes: {count} activations"
    );
    printed.is_ok()
}

/// Prints the number of activations in the schedules over two packages. Returns whether the
/// histories are safe, and that number exceeds a fifth of the number of schedules.
fn many_are_safe(rt: &HostRuntime, kind: &Kind) -> bool {
    match all_activations(rt.alloc(), kind) {
        Some(count) => prints(rt, kind, count) && count > kind.schedules / 5,
        None => false,
    }
}

#[test]
fn random_schedules_of_two_components_are_safe(rt: HostRuntime) {
    assert!(rt; many_are_safe(&rt, &TWO));
}

#[test]
fn random_schedules_at_128_bytes_are_safe(rt: HostRuntime) {
    assert!(rt; many_are_safe(&rt, &LONG));
}

#[test]
fn random_schedules_of_three_components_are_safe(rt: HostRuntime) {
    assert!(rt; many_are_safe(&rt, &THREE));
}
