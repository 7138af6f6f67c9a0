//! Writes steps as the text of a schedule.

ghost use Rattle.std.specs.Prelude.{◌≡◌, ◌++◌, IfOk, Ok, OnErr, OnOk};
ghost use Rattle.fw_text.specs.Printing.{AppendsText};
ghost use Rattle.fw_script.specs.ScheduleTexts.{StepsRoundTrip, idle_after, idle_after_tick, idle_at, is_idle as is_idle_tick, schedule_text, step_text, text_of_steps, text_with, text_with_tick, ticks_text};
ghost use Rattle.fw_script.specs.Schedules.{script_of};

use crate::step_text::{push_step, push_ticks};
use fw_world::Step;
use std::alloc::{AllocError, Global};
use std::marker::Model;

/// The most ticks of a line.
const MAX_TICKS: u16 = 1000;

/// Whether a step is a tick that no node misses.
fn is_idle(step: &Step) -> bool
    ensures { result ≡ is_idle_tick step.now }
{
    match step {
        Step::Tick(missed) => missed.is_empty(),
        _ => false,
    }
}

/// Appends the line of `idle` ticks, then the line of a step.
fn push_behind(alloc: Global, text: &mut Vec<u8>, idle: u16, step: &Step) -> Result<(), AllocError>
    ensures { OnOk result (AppendsText text.old.items text.new.items (ticks_text idle ++ step_text step.now)) }
{
    push_ticks(alloc, text, idle)?;
    push_step(alloc, text, step)?;
    Ok(())
}

/// Writes steps as the text of a schedule, in any portions. `read_schedule` reads the whole text as
/// exactly these steps.
///
/// Adjacent ticks that no node misses share a line of at most 1000. The writer holds back only
/// their count, below 1000, so the text is complete after `end`. Contracts see the writer as that
/// count.
#[derive(Drop)]
pub struct ScheduleText {
    idle: u16,
}

impl Model for ScheduleText {
    ghost use Rattle.std.specs.Prelude.{ℕ, ◌<◌};

    ghost Value = { ℕ };

    ghost view = { λ t. t.idle };

    ghost invariant = { λ t. t.idle < 1000 };
}

impl ScheduleText {
    /// Creates a writer before the first step.
    pub fn new() -> Self
        ensures { result ≡ 0 }
    {
        ScheduleText { idle: 0 }
    }

    /// Counts a tick that no node misses; writes the line when there are 1000.
    fn hold(&mut self, alloc: Global, text: &mut Vec<u8>) -> Result<(), AllocError>
        ensures written { OnOk result (AppendsText text.old.items text.new.items (text_with_tick self.old)) }
        ensures held { OnOk result (self.new ≡ idle_after_tick self.old) }
        ensures kept { OnErr result (self.new ≡ self.old) }
    {
        if self.idle < MAX_TICKS - 1 {
            self.idle += 1;
            return Ok(());
        }
        let Ok(()) = push_ticks(alloc, text, MAX_TICKS) else {
            return Err(AllocError);
        };
        self.idle = 0;
        Ok(())
    }

    /// Writes the next step: the line of the held-back ticks, then the step's line. A tick that no
    /// node misses is held back instead; the 1000th of them writes their line.
    ///
    /// # Errors
    /// `AllocError` if memory is refused. The count of held-back ticks is unchanged; the text's
    /// content is unspecified.
    pub fn push(&mut self, alloc: Global, text: &mut Vec<u8>, step: &Step) -> Result<(), AllocError>
        ensures written { OnOk result (AppendsText text.old.items text.new.items (text_with self.old step.now)) }
        ensures held { OnOk result (self.new ≡ idle_after self.old step.now) }
        ensures kept { OnErr result (self.new ≡ self.old) }
    {
        if is_idle(step) {
            return self.hold(alloc, text);
        }
        let Ok(()) = push_behind(alloc, text, self.idle, step) else {
            return Err(AllocError);
        };
        self.idle = 0;
        Ok(())
    }

    /// Writes steps, one after another.
    ///
    /// # Errors
    /// `AllocError` if memory is refused. The text's content and the count of held-back ticks are
    /// unspecified then.
    #[tactic(auto, using(fw_text::proofs::Chains::telling))]
    pub fn push_all(
        &mut self,
        alloc: Global,
        text: &mut Vec<u8>,
        steps: &[Step],
    ) -> Result<(), AllocError>
        ensures written { OnOk result (AppendsText text.old.items text.new.items (text_of_steps self.old steps.now)) }
        ensures held { OnOk result (self.new ≡ idle_at self.old steps.now) }
    {
        for step in steps {
            self.push(alloc, text, step)?;
        }
        Ok(())
    }

    /// Appends the line of the held-back ticks. Then the text is complete, and the writer is as
    /// new.
    ///
    /// # Errors
    /// `AllocError` if memory is refused. The ticks are still held back; the text's content is
    /// unspecified.
    pub fn end(&mut self, alloc: Global, text: &mut Vec<u8>) -> Result<(), AllocError>
        ensures written { OnOk result (AppendsText text.old.items text.new.items (ticks_text self.old)) }
        ensures held { OnOk result (self.new ≡ 0) }
        ensures kept { OnErr result (self.new ≡ self.old) }
    {
        let Ok(()) = push_ticks(alloc, text, self.idle) else {
            return Err(AllocError);
        };
        self.idle = 0;
        Ok(())
    }
}

/// Returns steps as the text of a schedule. If a schedule can encode the steps, `read_schedule`
/// reads the text as exactly these steps.
///
/// # Errors
/// `AllocError` if memory is refused.
pub fn write_schedule(alloc: Global, steps: &[Step]) -> Result<Vec<u8>, AllocError>
    ensures text { IfOk result (λ text. text.items ≡ schedule_text steps.now) }
    ensures reads { StepsRoundTrip steps.now → IfOk result (λ text. script_of text.items ≡ Ok steps.now) }
{
    let mut text = Vec::new(alloc);
    let mut writer = ScheduleText::new();
    writer.push_all(alloc, &mut text, steps)?;
    writer.end(alloc, &mut text)?;
    Ok(text)
}
