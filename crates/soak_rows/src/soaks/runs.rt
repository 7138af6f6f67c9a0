//! Soaks of the worked devices.

use crate::soaks::histories::worked;
use crate::worked::file;
use fw_package::Package;
use fw_soak::{Setup, SoakObserver, Soaked, Summary, soak, summary_in};
use fwupd_base::{Form, Roughness};
use std::alloc::Global;
use std::test::Fail;

/// Counts its observations, and stores the last one.
#[derive(Drop)]
struct Counting {
    seen: u64,
    last: u64,
}

impl SoakObserver for Counting {
    fn see(&mut self, summary: &Summary) {
        self.seen = self.seen.saturating_add(1);
        self.last = summary.runs;
    }
}

/// The result of `runs` runs with a seed.
fn soaked(alloc: Global, seed: u64, runs: u32, observer: &mut Counting) -> Option<Soaked> {
    let config = worked(alloc)?;
    let Ok(file) = file(alloc) else {
        return None;
    };
    let Ok(package) = Package::read(&file) else {
        return None;
    };
    let packages = [package];
    let setup = Setup {
        agent: config.agent,
        unit: config.unit,
        devices: config.devices.as_slice(),
        packages: packages.as_slice(),
    };
    let roughness = Roughness {
        loss: 20,
        duplicate: 10,
        delay: 3,
        seed,
    };
    match soak(alloc, &setup, roughness, runs, observer) {
        Ok(soaked) => Some(soaked),
        Err(_) => None,
    }
}

#[test]
fn soaks_the_worked_devices(rt: HostRuntime) {
    let alloc = rt.alloc();
    let mut observer = Counting { seen: 0, last: 0 };
    let Some(first) = soaked(alloc, 7, 3, &mut observer) else {
        return;
    };
    assert!(rt; (observer.seen, observer.last) == (3, 3));
    assert!(rt; (first.summary.runs, first.summary.violations) == (3, 0));
    assert!(rt; first.kept.is_none());
    let Some(again) = soaked(alloc, 7, 3, &mut observer) else {
        return;
    };
    assert!(rt; again.summary == first.summary);
}

#[test]
fn another_seed_makes_other_runs(rt: HostRuntime) {
    let alloc = rt.alloc();
    let mut observer = Counting { seen: 0, last: 0 };
    let (Some(one), Some(other)) = (
        soaked(alloc, 7, 3, &mut observer),
        soaked(alloc, 8, 3, &mut observer),
    ) else {
        return;
    };
    assert!(rt; one.summary.losses > 0 && other.summary.losses > 0);
    assert!(rt; one.summary != other.summary);
}

#[test]
fn tells_a_summary(rt: HostRuntime) {
    let summary = Summary {
        runs: 1,
        activations: 20,
        losses: 300,
        restarts: 4,
        longest: 50,
        violations: 6,
    };
    if let Ok(text) = summary_in(rt.alloc(), &summary, Form::Text) {
        let want = b"runs 1\nactivations 20\nlosses 300\nrestarts 4\nlongest 50\nviolations 6\n";
        assert!(rt; text.as_slice() == want.as_slice());
    }
    if let Ok(text) = summary_in(rt.alloc(), &summary, Form::Json) {
        let want =
            b"{\"format\":\"fwupd-soak/1\",\"runs\":1,\"activations\":20,\"losses\":300,\"restarts\":4,\"longest\":50,\"violations\":6}\n";
        assert!(rt; text.as_slice() == want.as_slice());
    }
}
