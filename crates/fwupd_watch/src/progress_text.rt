//! The display of a run's progress: its lines, and the control sequences that draw them in place.

ghost use Rattle.std.specs.Prelude.{◌≡◌, ◌-◌, IfOk, OnOk};
ghost use Rattle.std.specs.List.{flat_map};
ghost use Rattle.fw_text.specs.Printing.{AppendsText};
ghost use Rattle.fwupd_watch.specs.Loads.{loaded};
ghost use Rattle.fwupd_watch.specs.Progress.{display, is_one_image, line_text, pace_since, pace_text, percent, rate, speed_text, time_to_go};
ghost use Rattle.fwupd_watch.specs.Terminals.{cursor_up, display_erasure};

use crate::loads::{Load, push_load};
use fw_text::{push_number, push_words};
use fwup_wire::Key;
use std::alloc::{AllocError, Global};

/// Erases what is right of the cursor in its line (ECMA-48, EL), and goes to the next line.
const END_OF_LINE: &str = "\x1b[K\n";

/// Erases what is right of the cursor and below (ECMA-48, ED).
const END_OF_SCREEN: &str = "\x1b[J";

/// The nanoseconds of a second.
const SECOND: u64 = 1_000_000_000;

/// How fast an image is loaded.
#[derive(Clone, Copy)]
pub(crate) struct Pace {
    /// The bytes that were requested since the image's first display.
    pub(crate) gained: u32,
    /// The nanoseconds since then.
    pub(crate) nanos: u64,
}

/// A line of the display.
#[derive(Clone, Copy)]
pub(crate) struct ProgressLine {
    /// The image.
    pub(crate) load: Load,
    /// How fast it is loaded. `None` at its first display.
    pub(crate) pace: Option<Pace>,
}

impl Default for ProgressLine {
    /// Creates the line of an empty image for no device, at its first display.
    fn default() -> ProgressLine {
        let key = Key {
            classification: 0,
            identifier: 0,
        };
        let load = Load {
            device: 0,
            key,
            asked: 0,
            size: 0,
        };
        ProgressLine { load, pace: None }
    }
}

/// The part of an image that is loaded, in percent.
fn percent(load: Load) -> usize
    ensures { result ≡ percent load }
{
    if load.size == 0 {
        return 100;
    }
    load.loaded() as usize * 100 / load.size as usize
}

/// Whether two loads are of one image.
fn is_one_image(earlier: Load, later: Load) -> bool
    ensures { result ≡ is_one_image earlier later }
{
    earlier.device == later.device
        && earlier.key.classification == later.key.classification
        && earlier.key.identifier == later.key.identifier
        && earlier.size == later.size
        && earlier.asked <= later.asked
}

/// Returns how fast an image is loaded, `nanos` nanoseconds after its first display. `None` if the
/// first display was of another image.
pub(crate) fn pace_since(first: Load, load: Load, nanos: u64) -> Option<Pace>
    ensures { result ≡ pace_since first load nanos }
{
    if !is_one_image(first, load) {
        return None;
    }
    Some(Pace {
        gained: load.loaded().saturating_sub(first.loaded()),
        nanos,
    })
}

/// The bytes a second; 0 if no time passed.
fn rate(pace: Pace) -> u64
    ensures { result ≡ rate pace }
{
    if pace.nanos == 0 {
        return 0;
    }
    u64::from(pace.gained) * SECOND / pace.nanos
}

/// The seconds that `rest` bytes take at a rate, unless that is 0.
fn time_to_go(rest: u32, rate: u64) -> Option<u64>
    ensures { result ≡ time_to_go rest rate }
{
    if rate == 0 {
        return None;
    }
    let rest = u64::from(rest);
    let whole = rest / rate;
    if rest % rate == 0 {
        Some(whole)
    } else {
        Some(whole + 1)
    }
}

/// Appends a rate and a time to go, if there is one.
fn push_speed(
    alloc: Global,
    text: &mut Vec<u8>,
    rate: u64,
    time: Option<u64>,
) -> Result<(), AllocError>
    ensures { OnOk result (AppendsText text.old.items text.new.items (speed_text rate time)) }
{
    let Some(time) = time else {
        return Ok(());
    };
    push_number(alloc, text, ", ", rate as usize)?;
    push_number(alloc, text, " bytes/s, ", time as usize)?;
    push_words(text, " s to go")?;
    Ok(())
}

/// Appends how fast an image is loaded, if that is known.
fn push_pace(
    alloc: Global,
    text: &mut Vec<u8>,
    rest: u32,
    pace: Option<Pace>,
) -> Result<(), AllocError>
    ensures { OnOk result (AppendsText text.old.items text.new.items (pace_text rest pace)) }
{
    let Some(pace) = pace else {
        return Ok(());
    };
    let rate = rate(pace);
    push_speed(alloc, text, rate, time_to_go(rest, rate))?;
    Ok(())
}

/// Appends a line.
fn push_line(alloc: Global, text: &mut Vec<u8>, line: &ProgressLine) -> Result<(), AllocError>
    ensures { OnOk result (AppendsText text.old.items text.new.items (line_text line.now)) }
{
    let rest = line.load.size.saturating_sub(line.load.loaded());
    push_words(text, "\r")?;
    push_load(alloc, text, &line.load)?;
    push_number(alloc, text, ", ", percent(line.load))?;
    push_words(text, " %")?;
    push_pace(alloc, text, rest, line.pace)?;
    push_words(text, END_OF_LINE)?;
    Ok(())
}

/// Appends lines.
fn push_lines(alloc: Global, text: &mut Vec<u8>, lines: &[ProgressLine]) -> Result<(), AllocError>
    ensures { OnOk result (AppendsText text.old.items text.new.items (flat_map line_text lines.now)) }
{
    for line in lines {
        push_line(alloc, text, line)?;
    }
    Ok(())
}

/// Appends what moves the cursor up by `count` lines.
fn push_cursor_up(alloc: Global, text: &mut Vec<u8>, count: usize) -> Result<(), AllocError>
    ensures { OnOk result (AppendsText text.old.items text.new.items (cursor_up count)) }
{
    if count == 0 {
        return Ok(());
    }
    push_number(alloc, text, "\x1b[", count)?;
    push_words(text, "A")?;
    Ok(())
}

/// Returns the text of a display of `lines`, which is drawn in place of one of `drawn` lines.
///
/// # Errors
/// `AllocError` if memory is refused.
pub(crate) fn display(
    alloc: Global,
    drawn: usize,
    lines: &[ProgressLine],
) -> Result<Vec<u8>, AllocError>
    ensures { IfOk result (λ text. text.items ≡ display drawn lines.now) }
{
    let mut text = Vec::new(alloc);
    push_cursor_up(alloc, &mut text, drawn)?;
    push_lines(alloc, &mut text, lines)?;
    if lines.len() < drawn {
        push_words(&mut text, END_OF_SCREEN)?;
    }
    Ok(text)
}

/// Returns the text that erases a display of `drawn` lines.
///
/// # Errors
/// `AllocError` if memory is refused.
pub(crate) fn display_erasure(alloc: Global, drawn: usize) -> Result<Vec<u8>, AllocError>
    ensures { IfOk result (λ text. text.items ≡ display_erasure drawn) }
{
    let mut text = Vec::new(alloc);
    if drawn == 0 {
        return Ok(text);
    }
    push_cursor_up(alloc, &mut text, drawn)?;
    push_words(&mut text, "\r")?;
    push_words(&mut text, END_OF_SCREEN)?;
    Ok(text)
}
