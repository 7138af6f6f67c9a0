//! Writes steps as lines of a schedule.

ghost use Rattle.std.specs.Prelude.{◌≡◌, ◌++◌, ◌∷◌, [], OnOk, decimal};
ghost use Rattle.std.specs.List.{flat_map};
ghost use Rattle.fw_text.specs.Printing.{AppendsText};
ghost use Rattle.fw_script.specs.ScheduleTexts.{words_with_spaces, step_text, ticks_text, verdict_word as word_for_verdict, words_for, words_for_ticks};

use fd_core::Verdict;
use fw_text::{push_data, push_number, push_words};
use fw_world::{LogRequest, Missed, Step};
use std::alloc::{AllocError, Global};

/// Appends a number as a line's next word.
#[tactic(auto, unfolding(fw_text::specs::Printing::word_and_number))]
fn push_place(alloc: Global, text: &mut Vec<u8>, number: usize) -> Result<(), AllocError>
    ensures { OnOk result (AppendsText text.old.items text.new.items (32 ∷ decimal number)) }
{
    push_number(alloc, text, " ", number)?;
    Ok(())
}

/// Appends an endpoint identifier as a line's next word.
fn push_eid(alloc: Global, text: &mut Vec<u8>, eid: u8) -> Result<(), AllocError>
    ensures { OnOk result (AppendsText text.old.items text.new.items (32 ∷ decimal eid)) }
{
    push_place(alloc, text, usize::from(eid))?;
    Ok(())
}

/// Appends endpoint identifiers as a line's next words.
fn push_eids(alloc: Global, text: &mut Vec<u8>, eids: &[u8]) -> Result<(), AllocError>
    ensures { OnOk result (AppendsText text.old.items text.new.items (flat_map (λ eid. 32 ∷ decimal eid) eids.now)) }
{
    for eid in eids {
        push_eid(alloc, text, *eid)?;
    }
    Ok(())
}

/// The word of a verdict.
fn verdict_word(verdict: Verdict) -> &'static str
    ensures { result.now ≡ word_for_verdict verdict }
{
    match verdict {
        Verdict::VerifyOk => "verify-ok",
        Verdict::VerifyFail => "verify-fail",
        Verdict::ApplyOk => "apply-ok",
        Verdict::ApplyFail => "apply-fail",
    }
}

/// Appends the words of the step that delivers a packet to a node.
fn push_delivery(
    alloc: Global,
    text: &mut Vec<u8>,
    pair: u8,
    number: usize,
    node: u8,
) -> Result<(), AllocError>
    ensures { OnOk result (AppendsText text.old.items text.new.items
        (words_with_spaces (words_for (Step.Deliver pair number node)))) }
{
    push_words(text, "deliver")?;
    push_eid(alloc, text, pair)?;
    push_place(alloc, text, number)?;
    push_eid(alloc, text, node)?;
    Ok(())
}

/// Appends the words of the step that starts an update.
fn push_start(
    alloc: Global,
    text: &mut Vec<u8>,
    device: u8,
    number: usize,
) -> Result<(), AllocError>
    ensures { OnOk result (AppendsText text.old.items text.new.items (words_with_spaces (words_for (Step.Start device number)))) }
{
    push_words(text, "start")?;
    push_eid(alloc, text, device)?;
    push_place(alloc, text, number)?;
    Ok(())
}

/// Appends the words of the step of a verdict.
fn push_verdict(
    alloc: Global,
    text: &mut Vec<u8>,
    device: u8,
    verdict: Verdict,
) -> Result<(), AllocError>
    ensures { OnOk result (AppendsText text.old.items text.new.items
        (words_with_spaces (words_for (Step.Verdict device verdict)))) }
{
    push_words(text, "verdict")?;
    push_eid(alloc, text, device)?;
    push_words(text, " ")?;
    push_words(text, verdict_word(verdict))?;
    Ok(())
}

/// Appends a word and an endpoint identifier.
fn push_named(alloc: Global, text: &mut Vec<u8>, word: &str, eid: u8) -> Result<(), AllocError>
    ensures { OnOk result (AppendsText text.old.items text.new.items (words_with_spaces (word.now ∷ decimal eid ∷ []))) }
{
    push_words(text, word)?;
    push_eid(alloc, text, eid)?;
    Ok(())
}

/// Appends the words of the tick that nodes miss.
fn push_missed(alloc: Global, text: &mut Vec<u8>, missed: &Missed) -> Result<(), AllocError>
    ensures { OnOk result (AppendsText text.old.items text.new.items (words_with_spaces (words_for (Step.Tick missed.now)))) }
{
    push_words(text, "miss")?;
    push_eids(alloc, text, missed.as_slice())?;
    Ok(())
}

/// Appends the words of the step of an event log request.
fn push_request(alloc: Global, text: &mut Vec<u8>, request: &LogRequest) -> Result<(), AllocError>
    ensures { OnOk result (AppendsText text.old.items text.new.items (words_with_spaces (words_for (Step.Sel request.now)))) }
{
    push_words(text, "sel")?;
    push_words(text, " ")?;
    push_data(alloc, text, request.as_slice())?;
    Ok(())
}

/// Appends the words of a step.
fn push_said(alloc: Global, text: &mut Vec<u8>, step: &Step) -> Result<(), AllocError>
    ensures { OnOk result (AppendsText text.old.items text.new.items (words_with_spaces (words_for step.now))) }
{
    match step {
        Step::Deliver(pair, number, node) => push_delivery(alloc, text, *pair, *number, *node),
        Step::Tick(missed) => push_missed(alloc, text, missed),
        Step::Start(device, number) => push_start(alloc, text, *device, *number),
        Step::Cancel(device) => push_named(alloc, text, "cancel", *device),
        Step::Activate(device) => push_named(alloc, text, "activate", *device),
        Step::Verdict(device, verdict) => push_verdict(alloc, text, *device, *verdict),
        Step::Restart(node) => push_named(alloc, text, "restart", *node),
        Step::Sel(request) => push_request(alloc, text, request),
    }
}

/// Appends the line of a step; the line of a tick lists the nodes that miss it.
#[tactic(auto, unfolding(crate::specs::ScheduleTexts::step_text))]
pub(crate) fn push_step(alloc: Global, text: &mut Vec<u8>, step: &Step) -> Result<(), AllocError>
    ensures { OnOk result (AppendsText text.old.items text.new.items (step_text step.now)) }
{
    push_said(alloc, text, step)?;
    push_words(text, "\n")?;
    Ok(())
}

/// Appends the words of `count` ticks.
fn push_tick_words(alloc: Global, text: &mut Vec<u8>, count: u16) -> Result<(), AllocError>
    ensures { OnOk result (AppendsText text.old.items text.new.items (words_with_spaces (words_for_ticks count))) }
{
    push_words(text, "tick")?;
    if count == 1 {
        return Ok(());
    }
    push_place(alloc, text, usize::from(count))?;
    Ok(())
}

/// Appends the line of `count` ticks that no node misses, or nothing for 0.
pub(crate) fn push_ticks(alloc: Global, text: &mut Vec<u8>, count: u16) -> Result<(), AllocError>
    ensures { OnOk result (AppendsText text.old.items text.new.items (ticks_text count)) }
{
    if count == 0 {
        return Ok(());
    }
    push_tick_words(alloc, text, count)?;
    push_words(text, "\n")?;
    Ok(())
}
