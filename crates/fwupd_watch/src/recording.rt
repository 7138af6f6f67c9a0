//! Writes the steps of a run as a schedule, during the run.

ghost use Rattle.std.specs.Prelude.{◌≡◌, ◌⊎◌, ◌<◌, ◌^◌, [], IfErr, IfOk, List, OnOk, Option, false, true, ℕ};
ghost use Rattle.exch_lane.specs.Lanes.{IsEid};
ghost use Rattle.std.specs.Io.Buffered.{writer_buffer, writer_contents, writer_inner};
ghost use Rattle.fw_script.specs.ScheduleTexts.{StepsRoundTrip, StepRoundTrips};
ghost use Rattle.fwupd_watch.specs.Recordings.{AreRecordable, WritesHeldTicks, IsRecordable, RecordsSteps, recording_of};

use crate::running::ObserverFault;
use fw_script::ScheduleText;
use fw_world::Step;
use std::alloc::Global;
use std::io::{BufWriter, Write};

/// Writes each step of a run when it is taken, as a line of a schedule that a replay reads.
/// Adjacent ticks that no node misses share a line.
#[derive(Drop)]
pub struct Recording<W: Write + Drop> {
    alloc: Global,
    writer: BufWriter<W>,
    text: ScheduleText,
}

/// Whether a byte is an endpoint identifier of a node.
fn is_eid(eid: u8) -> bool
    ensures is { result ≡ true → IsEid eid }
    ensures not { result ≡ false → ¬ IsEid eid }
{
    8 <= eid && eid <= 254
}

/// Whether a number fits 64 bits, as each number of the program does.
fn is_counted(number: usize) -> bool
    ensures is { number < 2 ^ 64 }
    ensures always { result ≡ true }
{
    number <= usize::MAX
}

/// Whether a run takes such a step, and a schedule can encode it: the start of an update, a
/// delivery, a tick that no node misses, a verdict, or an activation.
fn is_said(step: &Step) -> bool
    ensures said { result ≡ true → StepRoundTrips step.now }
    ensures taken { IsRecordable step.now → result ≡ true }
{
    match step {
        Step::Deliver(pair, number, node) => {
            is_eid(*pair) && is_counted(*number) && is_eid(*node)
        }
        Step::Tick(missed) => missed.is_empty(),
        Step::Start(device, number) => is_eid(*device) && is_counted(*number),
        Step::Activate(device) => is_eid(*device),
        Step::Verdict(device, _) => is_eid(*device),
        _ => false,
    }
}

/// Whether this holds for each step.
fn are_said(steps: &[Step]) -> bool
    ensures said { result ≡ true → StepsRoundTrip steps.now }
    ensures taken { AreRecordable steps.now → result ≡ true }
{
    for step in steps {
        if !is_said(step) {
            return false;
        }
    }
    true
}

impl<W: Write + Drop> Recording<W> {
    /// Creates a recording without steps.
    ///
    /// # Errors
    /// `Memory`.
    pub fn new(alloc: Global, writer: W) -> Result<Recording<W>, ObserverFault>
        ensures contents { IfOk result (λ r. W.contents (writer_inner r.writer) ≡ W.contents writer) }
        ensures none { IfOk result (λ r. writer_buffer r.writer ≡ []) }
        ensures idle { IfOk result (λ r. r.text ≡ 0) }
        ensures fault { IfErr result (λ e. e ≡ ObserverFault.Memory) }
    {
        let Ok(writer) = BufWriter::new(alloc, writer) else {
            return Err(ObserverFault::Memory);
        };
        Ok(Recording {
            alloc,
            writer,
            text: ScheduleText::new(),
        })
    }

    /// Appends steps. Ticks may be held back.
    ///
    /// # Errors
    /// `Unrecorded` if they can't be written, or a schedule can't encode one of them; `Memory` if
    /// memory is refused.
    pub fn note(&mut self, steps: &[Step]) -> Result<(), ObserverFault>
        ensures fault { IfErr result (λ e. (e ≡ ObserverFault.Memory) ⊎ (e ≡ ObserverFault.Unrecorded)) }
        ensures noted { (begun : Option (List ℕ))
            → OnOk result (RecordsSteps (recording_of begun (writer_contents W.contents
            self.old.writer) self.old.text) (recording_of begun
            (writer_contents W.contents self.new.writer) self.new.text) steps.now) }
    {
        if !are_said(steps) {
            return Err(ObserverFault::Unrecorded);
        }
        let mut text = Vec::new(self.alloc);
        let Ok(()) = self.text.push_all(self.alloc, &mut text, steps) else {
            return Err(ObserverFault::Memory);
        };
        match self.writer.write_all(&text) {
            Ok(()) => Ok(()),
            Err(_) => Err(ObserverFault::Unrecorded),
        }
    }

    /// Writes the held-back ticks.
    ///
    /// # Errors
    /// `Unrecorded` if they can't be written, or `Memory` if memory is refused.
    pub fn end(&mut self) -> Result<(), ObserverFault>
        ensures fault { IfErr result (λ e. (e ≡ ObserverFault.Memory) ⊎ (e ≡ ObserverFault.Unrecorded)) }
        ensures ended { (begun : Option (List ℕ))
            → OnOk result (WritesHeldTicks (recording_of begun
            (writer_contents W.contents self.old.writer) self.old.text)
            (recording_of begun (writer_contents W.contents self.new.writer) self.new.text)) }
        ensures all { OnOk result (writer_buffer self.new.writer ≡ []) }
    {
        let mut text = Vec::new(self.alloc);
        let Ok(()) = self.text.end(self.alloc, &mut text) else {
            return Err(ObserverFault::Memory);
        };
        match self.writer.write_all(&text) {
            Ok(()) => {}
            Err(_) => return Err(ObserverFault::Unrecorded),
        }
        match self.writer.flush() {
            Ok(()) => Ok(()),
            Err(_) => Err(ObserverFault::Unrecorded),
        }
    }
}
