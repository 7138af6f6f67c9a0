//! The content of a schedule's lines.

ghost use Rattle.std.specs.Prelude.{◌≡◌, ◌++◌, ◌∷◌, ◌^◌, ◌≤◌, [], IfNone, IfOk, IfSome, OnOk, length};
ghost use Rattle.std.specs.List.{repeat};
ghost use Rattle.fw_script.specs.ScheduleLines.{all_steps, line_steps};
ghost use Rattle.fw_steps.specs.Worlds.{full_tick};

use fw_world::{Missed, Step};
use std::alloc::{AllocError, Global};
use std::marker::Model;

/// The content of a line of a schedule.
#[derive(Drop)]
pub enum ScheduleLine {
    /// A step.
    Step(Step),
    /// A number of ticks, each of which all nodes count.
    Ticks(u64),
}

/// Appends `count` ticks.
///
/// # Errors
/// `AllocError` if memory is refused.
fn push_ticks(steps: &mut Vec<Step>, count: u64) -> Result<(), AllocError>
    ensures { OnOk result (steps.new.items ≡ steps.old.items ++ repeat count (full_tick ∷ [])) }
{
    for _pushed in 0..count {
        steps.push(Step::Tick(Missed::new()))?;
    }
    Ok(())
}

/// Appends the steps of a line.
fn push_steps(steps: &mut Vec<Step>, line: ScheduleLine) -> Result<(), AllocError>
    ensures { OnOk result (steps.new.items ≡ steps.old.items ++ line_steps line) }
{
    match line {
        ScheduleLine::Step(step) => steps.push(step)?,
        ScheduleLine::Ticks(count) => push_ticks(steps, count)?,
    }
    Ok(())
}

/// Returns the steps of the lines, in order.
///
/// # Errors
/// `AllocError` if memory is refused.
#[tactic(auto, using(crate::proofs::AllSteps::all_more))]
pub fn steps_of_all(alloc: Global, lines: Vec<ScheduleLine>) -> Result<Vec<Step>, AllocError>
    ensures { IfOk result (λ steps. steps.items ≡ all_steps lines.items) }
{
    let mut steps = Vec::new(alloc);
    for line in lines {
        push_steps(&mut steps, line)?;
    }
    Ok(steps)
}

/// Returns the number of steps of the lines, if it fits 64 bits.
#[tactic(auto, using(crate::proofs::AllSteps::counted_more, crate::proofs::AllSteps::counted_so_far))]
pub fn step_count(lines: &[ScheduleLine]) -> Option<u64>
    ensures some { IfSome result (λ count. count ≡ length (all_steps lines.now)) }
    ensures none { IfNone result (2 ^ 64 ≤ length (all_steps lines.now)) }
{
    let mut count = 0u64;
    for line in lines {
        count = count.checked_add(line.len())?;
    }
    Some(count)
}

impl ScheduleLine {
    ghost use Rattle.std.specs.Prelude.{◌≡◌, length};
    ghost use Rattle.fw_script.specs.ScheduleLines.{line_steps};

    /// The number of steps of the line.
    #[tactic(auto, using(crate::proofs::AllSteps::ticks_long))]
    fn len(&self) -> u64
        ensures { result ≡ length (line_steps self.now) }
    {
        match self {
            ScheduleLine::Step(_) => 1,
            ScheduleLine::Ticks(count) => *count,
        }
    }
}

/// The next of a schedule's steps.
#[derive(Clone, Copy)]
pub enum NextStep<'a> {
    /// A step of a line.
    Said(&'a Step),
    /// A tick that all nodes count.
    Tick,
}

/// An iterator over the steps of lines.
#[derive(Drop)]
pub struct LineSteps<'a> {
    ticks: u64,
    lines: &'a [ScheduleLine],
}

impl<'a> Model for LineSteps<'a> {
    ghost use Rattle.std.specs.Prelude.{◌++◌, ◌∷◌, [], List};
    ghost use Rattle.std.specs.List.{repeat};
    ghost use Rattle.fw_steps.specs.Worlds.{full_tick};
    ghost use Rattle.fw_steps.specs.declared.step.Step.{Step};
    ghost use Rattle.fw_script.specs.ScheduleLines.{all_steps};

    ghost Value = { List Step };

    ghost view = { λ s. repeat s.ticks (full_tick ∷ []) ++ all_steps s.lines.now };
}

impl<'a> LineSteps<'a> {
    ghost use Rattle.std.specs.Prelude.{◌≡◌, ◌∷◌, [], IfNone, IfSome};
    ghost use Rattle.fw_script.specs.ScheduleLines.{all_steps, step_of_next};

    /// Creates an iterator over all steps of the lines.
    pub fn new(lines: &'a [ScheduleLine]) -> LineSteps<'a>
        ensures { result ≡ all_steps lines.now }
    {
        LineSteps { ticks: 0, lines }
    }

    /// Removes and returns the first of the remaining steps, or none if none remains.
    #[tactic(auto, using(crate::proofs::AllSteps::ticks_first))]
    pub fn next(&mut self) -> Option<NextStep<'a>>
        ensures some { IfSome result (λ s. self.old ≡ step_of_next s ∷ self.new) }
        ensures none { IfNone result (self.old ≡ []) }
    {
        if self.ticks > 0 {
            self.ticks -= 1;
            return Some(NextStep::Tick);
        }
        while let [first, rest @ ..] = self.lines {
            self.lines = rest;
            match first {
                ScheduleLine::Step(step) => return Some(NextStep::Said(step)),
                ScheduleLine::Ticks(count) => {
                    if *count > 0 {
                        self.ticks = *count - 1;
                        return Some(NextStep::Tick);
                    }
                }
            }
        }
        None
    }
}
