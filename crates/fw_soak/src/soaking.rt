//! Many runs over rough links, each checked.

ghost use Rattle.std.specs.Prelude.{◌∷◌, ◌≡◌, IfOk, IfSome, List, None, OnOk, Option, Some, map, option_map};
ghost use Rattle.fw_script.specs.Seen.{device_of};
ghost use Rattle.fw_script.specs.Whole.{AreWhole};
ghost use Rattle.fw_soak.specs.Setups.{setup_of};
ghost use Rattle.fw_soak.specs.Summaries.{SoakOk, SoaksRuns, first_kept_with, no_runs, with_run};
ghost use Rattle.fw_soak.specs.declared.summary.Summary.{Summary};

use crate::checker::is_clean;
use crate::counts::{activations, longest, losses, restarts};
use crate::course::SoakCourse;
use crate::setup::Setup;
use crate::summary::Summary;
use crate::turns::run;
use fw_world::Step;
use fwupd_base::Roughness;
use std::alloc::{AllocError, Global};

/// The result of many runs.
#[derive(Drop)]
pub struct Soaked {
    /// The totals of the runs.
    pub summary: Summary,
    /// The steps of the first run with a violation, if any.
    pub kept: Option<Vec<Step>>,
}

/// An observer of the runs.
pub trait SoakObserver {
    /// The totals that it has observed, the latest first, if that is known.
    ghost seen: { Self → Option (List Summary) } = { λ _. None };

    /// Observes the totals of the runs so far.
    fn see(&mut self, summary: &Summary)
        ensures { IfSome (seen self.old) (λ before. seen self.new ≡ Some (summary.now ∷ before)) };
}

/// The totals with one more run, which ended clean or not.
fn with_run(
    alloc: Global,
    summary: Summary,
    course: &SoakCourse<'_>,
    clean: bool,
) -> Result<Summary, AllocError>
    ensures { IfOk result (λ s. s ≡ with_run clean summary course.now) }
{
    let world = course.world();
    let steps = course.steps();
    let lost = losses(alloc, world, steps)?;
    let here = longest(world, steps);
    Ok(Summary {
        runs: summary.runs.saturating_add(1),
        activations: summary
            .activations
            .saturating_add(activations(world.history()) as u64),
        losses: summary.losses.saturating_add(lost),
        restarts: summary.restarts.saturating_add(restarts(steps) as u64),
        longest: if summary.longest < here {
            here
        } else {
            summary.longest
        },
        violations: if clean {
            summary.violations
        } else {
            summary.violations.saturating_add(1)
        },
    })
}

impl Soaked {
    /// Creates the result before the first run.
    fn new() -> Soaked
        ensures summary { result.summary ≡ no_runs }
        ensures kept { result.kept ≡ None }
    {
        let summary = Summary {
            runs: 0,
            activations: 0,
            losses: 0,
            restarts: 0,
            longest: 0,
            violations: 0,
        };
        Soaked {
            summary,
            kept: None,
        }
    }

    /// Adds a run.
    fn add(&mut self, alloc: Global, course: SoakCourse<'_>, clean: bool) -> Result<(), AllocError>
        ensures summary { OnOk result (self.new.summary ≡ with_run clean self.old.summary course.entry) }
        ensures kept { OnOk result (option_map (λ k. k.items) self.new.kept
            ≡ first_kept_with clean (option_map (λ k. k.items) self.old.kept) course.entry) }
    {
        self.summary = with_run(alloc, self.summary, &course, clean)?;
        if !clean && self.kept.is_none() {
            self.kept = Some(course.into_steps());
        }
        Ok(())
    }
}

/// Makes `runs` runs of a setup over rough links, and checks each. Nodes restart, updates are
/// cancelled, verdicts are bad and banks fail, all at random moments. The same roughness, which
/// contains the seed, gives the same result.
///
/// # Errors
/// `AllocError` if memory is refused.
#[tactic(auto, using(crate::proofs::Summing::summing))]
pub fn soak<V: SoakObserver>(
    alloc: Global,
    setup: &Setup<'_>,
    roughness: Roughness,
    runs: u32,
    observer: &mut V,
) -> Result<Soaked, AllocError>
    requires { AreWhole setup.now.agent.eid (map device_of setup.now.devices.now) }
    ensures soaked { IfOk result (λ s. SoakOk (setup_of setup.now) runs s.summary (option_map (λ k. k.items) s.kept)) }
    ensures none { IfOk result (λ s. s.kept ≡ None → s.summary.violations ≡ 0) }
    ensures runs { IfOk result (λ s. SoaksRuns (setup_of setup.now) roughness runs s.summary
        (option_map (λ k. k.items) s.kept) (V.seen observer.old) (V.seen observer.new)) }
{
    let mut soaked = Soaked::new();
    for number in 0..runs {
        let course = run(alloc, setup, roughness, number)?;
        let clean = is_clean(alloc, course.world(), setup.packages, setup.devices)?;
        soaked.add(alloc, course, clean)?;
        observer.see(&soaked.summary);
    }
    Ok(soaked)
}
