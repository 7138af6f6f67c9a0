//! A run: its steps, and the world after them.

ghost use Rattle.std.specs.Prelude.{[], ◌*◌, ◌≡◌, IfOk, OnErr, OnOk, length, map};
ghost use Rattle.fw_script.specs.Seen.{device_of};
ghost use Rattle.fw_script.specs.Whole.{AreWhole};
ghost use Rattle.fw_soak.specs.Chances.{generator_past};
ghost use Rattle.fw_soak.specs.Courses.{ContinuesRun, TriesStep, opening_of};
ghost use Rattle.fw_soak.specs.Setups.{setup_of};

use crate::chances::Chances;
use crate::setup::{Setup, opening};
use fd_core::FailBank;
use fw_world::{Step, StepFault, World};
use std::alloc::{AllocError, Global};
use std::marker::Model;

/// A run: its steps, and the world after them.
#[derive(Drop)]
pub(crate) struct SoakCourse<'a> {
    world: World<'a, FailBank>,
    steps: Vec<Step>,
}

impl<'a> Model for SoakCourse<'a> {
    ghost use Rattle.fw_soak.specs.Courses.{CourseOf};

    ghost Value = { CourseOf };

    ghost view = { λ c. record { steps = c.steps.items; world = c.world } };
}

impl<'a> SoakCourse<'a> {
    /// Creates a run without steps. At random, one call of each device's bank fails, or none.
    ///
    /// # Errors
    /// `AllocError` if memory is refused.
    pub(crate) fn begin(
        alloc: Global,
        setup: &Setup<'a>,
        chances: &mut Chances,
    ) -> Result<SoakCourse<'a>, AllocError>
        requires { AreWhole setup.now.agent.eid (map device_of setup.now.devices.now) }
        ensures none { IfOk result (λ c. c.steps ≡ []) }
        ensures opens { IfOk result (λ c. c.world ≡ opening_of (setup_of setup.now)) }
        ensures is { IfOk result (λ c. c ≡ record { steps = []; world = opening_of (setup_of setup.now) }) }
        ensures after { IfOk result (λ c. chances.new.generator
            ≡ generator_past (2 * length setup.now.devices.now) chances.old.generator) }
    {
        let world = opening(alloc, setup, chances)?;
        Ok(SoakCourse {
            world,
            steps: Vec::new(alloc),
        })
    }

    /// Returns the world after the steps.
    pub(crate) fn world(&self) -> &World<'a, FailBank>
        ensures { result.now ≡ self.now.world }
    {
        &self.world
    }

    /// Returns the steps taken, in order.
    pub(crate) fn steps(&self) -> &[Step]
        ensures { result.now ≡ self.now.steps }
    {
        self.steps.as_slice()
    }

    /// Takes a step if the world allows it, and returns whether it was taken.
    ///
    /// # Errors
    /// `AllocError` if memory is refused; nothing has changed then.
    #[tactic(auto, using(crate::proofs::Coursing::going))]
    pub(crate) fn take(&mut self, step: Step) -> Result<bool, AllocError>
        ensures goes { ContinuesRun self.old self.new }
        ensures tried { OnOk result (TriesStep step self.old self.new) }
        ensures same { OnErr result (self.new ≡ self.old) }
    {
        let Ok(()) = self.steps.reserve(1) else {
            return Err(AllocError);
        };
        match self.world.step(&step) {
            Ok(()) => {}
            Err(StepFault::Memory) => return Err(AllocError),
            Err(_) => return Ok(false),
        }
        let _ = self.steps.push(step);
        Ok(true)
    }

    /// Returns the steps taken, in order.
    pub(crate) fn into_steps(self) -> Vec<Step>
        ensures { result.items ≡ self.entry.steps }
    {
        self.steps
    }
}
