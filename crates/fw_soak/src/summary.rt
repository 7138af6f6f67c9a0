//! The totals of many runs.

ghost use Rattle.std.specs.Prelude.{◌≡◌, IfOk, OnOk};
ghost use Rattle.fw_text.specs.Printing.{AppendsText, word_and_number};
ghost use Rattle.fw_soak.specs.SummaryTexts.{line_of, summary_in, summary_json, summary_text};

use fw_text::{push_number, push_words};
use fwupd_base::Form;
use std::alloc::{AllocError, Global};

/// The totals of many runs. Each count stops at 2^64 - 1.
#[derive(Clone, Copy, PartialEq, Eq)]
pub struct Summary {
    /// The number of runs.
    pub runs: u64,
    /// The number of images that devices activated.
    pub activations: u64,
    /// The number of packets that were never delivered.
    pub losses: u64,
    /// The number of restarts of nodes.
    pub restarts: u64,
    /// The duration of the longest update in ticks, from its start to the operator's activation.
    pub longest: u64,
    /// The number of runs that the checker found not clean.
    pub violations: u64,
}

/// Appends a line of a word and a number.
fn push_line(alloc: Global, text: &mut Vec<u8>, word: &str, number: u64) -> Result<(), AllocError>
    ensures { OnOk result (AppendsText text.old.items text.new.items (line_of word.now number)) }
{
    push_number(alloc, text, word, number as usize)?;
    push_words(text, "\n")?;
    Ok(())
}

/// Returns the lines of the totals.
///
/// # Errors
/// `AllocError` if memory is refused.
fn summary_text(alloc: Global, summary: &Summary) -> Result<Vec<u8>, AllocError>
    ensures { IfOk result (λ text. text.items ≡ summary_text summary.now) }
{
    let mut text = Vec::new(alloc);
    push_line(alloc, &mut text, "runs ", summary.runs)?;
    push_line(alloc, &mut text, "activations ", summary.activations)?;
    push_line(alloc, &mut text, "losses ", summary.losses)?;
    push_line(alloc, &mut text, "restarts ", summary.restarts)?;
    push_line(alloc, &mut text, "longest ", summary.longest)?;
    push_line(alloc, &mut text, "violations ", summary.violations)?;
    Ok(text)
}

/// The totals as a JSON object, on one line.
fn summary_json(alloc: Global, summary: &Summary) -> Result<Vec<u8>, AllocError>
    ensures { IfOk result (λ text. text.items ≡ summary_json summary.now) }
{
    let mut text = Vec::new(alloc);
    push_number(
        alloc,
        &mut text,
        "{\"format\":\"fwupd-soak/1\",\"runs\":",
        summary.runs as usize,
    )?;
    push_number(
        alloc,
        &mut text,
        ",\"activations\":",
        summary.activations as usize,
    )?;
    push_number(alloc, &mut text, ",\"losses\":", summary.losses as usize)?;
    push_number(
        alloc,
        &mut text,
        ",\"restarts\":",
        summary.restarts as usize,
    )?;
    push_number(alloc, &mut text, ",\"longest\":", summary.longest as usize)?;
    push_number(
        alloc,
        &mut text,
        ",\"violations\":",
        summary.violations as usize,
    )?;
    push_words(&mut text, "}\n")?;
    Ok(text)
}

/// Returns the totals in a format.
///
/// # Errors
/// `AllocError` if memory is refused.
pub fn summary_in(alloc: Global, summary: &Summary, form: Form) -> Result<Vec<u8>, AllocError>
    ensures { IfOk result (λ text. text.items ≡ summary_in form summary.now) }
{
    match form {
        Form::Text => summary_text(alloc, summary),
        Form::Json => summary_json(alloc, summary),
    }
}
