//! What is printed below the line of a fault, to explain it.

ghost use Rattle.std.specs.Prelude.{◌≡◌, ◌<◌, ◌≤◌, IfOk, IsCharBoundary, codes, length, option_map, string_bytes, take, ℕ};
ghost use Rattle.fwupd_clues.specs.ClueTexts.{agent_store_text, fault_text, numbered_text, reason_text, step_text, store_text, version_text};

use crate::clue_lines::step_line;
use crate::reasons::store_reason;
use fw_store::OpenFault;
use std::alloc::{AllocError, Global};

/// The most bytes of a line that an explanation shows.
const LONGEST: usize = 100;

/// Returns a path, and what is wrong with its file.
///
/// # Errors
/// `AllocError` if memory is refused.
pub(crate) fn reason_text(alloc: Global, path: &str, reason: &str) -> Result<String, AllocError>
    ensures { IfOk result (λ text. string_bytes text ≡ reason_text path.now reason.now) }
{
    match format!(in alloc; "{path}: {reason}\n") {
        Ok(text) => Ok(text),
        Err(_) => Err(AllocError),
    }
}

/// Returns what an explanation shows of a line: the line, and no dots; or of one longer than 100
/// bytes the characters that are within its first 100, and two dots.
pub(crate) fn shown_part(line: &str) -> (&str, &str)
    ensures whole { length line.now ≤ 100 → (result.0.now ≡ line.now) × (result.1.now ≡ codes "") }
    ensures dots { 100 < length line.now → result.1.now ≡ codes ".." }
    ensures start { 100 < length line.now → result.0.now ≡ take (length result.0.now) line.now }
    ensures bound { 100 < length line.now → length result.0.now ≤ 100 }
    ensures nearest { 100 < length line.now → (place : ℕ)
        → length result.0.now < place
        → place ≤ 100
        → IsCharBoundary line.now place
        → ⊥ }
{
    if line.len() <= LONGEST {
        return (line, "");
    }
    let (start, _) = line.split_at(line.floor_char_boundary(LONGEST));
    (start, "..")
}

/// Returns a path, what is wrong with its file, and what is shown of the line in which that is.
///
/// # Errors
/// `AllocError` if memory is refused.
pub(crate) fn fault_text(
    alloc: Global,
    path: &str,
    reason: &str,
    start: &str,
    dots: &str,
) -> Result<String, AllocError>
    ensures { IfOk result (λ text. string_bytes text ≡ fault_text path.now reason.now start.now dots.now) }
{
    match format!(in alloc; "{path}: {reason}: {start}{dots}\n") {
        Ok(text) => Ok(text),
        Err(_) => Err(AllocError),
    }
}

/// Returns a line of a file, with its number.
///
/// # Errors
/// `AllocError` if memory is refused.
pub(crate) fn numbered_text(
    alloc: Global,
    path: &str,
    number: usize,
    line: &str,
) -> Result<String, AllocError>
    ensures { IfOk result (λ text. string_bytes text ≡ numbered_text path.now number line.now) }
{
    match format!(in alloc; "{path}: line {number}: {line}\n") {
        Ok(text) => Ok(text),
        Err(_) => Err(AllocError),
    }
}

/// Returns the line of a schedule that contains a step, counted from 1, with the line's number.
///
/// # Errors
/// `AllocError` if memory is refused.
pub(crate) fn step_text(
    alloc: Global,
    path: &str,
    text: &str,
    step: usize,
) -> Result<Option<String>, AllocError>
    ensures { IfOk result (λ found. option_map string_bytes found ≡ step_text path.now text.now step) }
{
    let Some((number, line)) = step_line(alloc, text, step)? else {
        return Ok(None);
    };
    let text = numbered_text(alloc, path, number, line)?;
    Ok(Some(text))
}

/// Returns the later version of the standard that a file seems to be a package of.
///
/// # Errors
/// `AllocError` if memory is refused.
pub(crate) fn version_text(alloc: Global, path: &str, version: &str) -> Result<String, AllocError>
    ensures { IfOk result (λ text. string_bytes text ≡ version_text path.now version.now) }
{
    match format!(in alloc;
        "{path}: it seems to be a package of DSP0267 {version}, and only those of 1.0 are read\n"
    ) {
        Ok(text) => Ok(text),
        Err(_) => Err(AllocError),
    }
}

/// Returns why the store of a device in a folder can't be opened.
///
/// # Errors
/// `AllocError` if memory is refused.
pub(crate) fn store_text(
    alloc: Global,
    root: &str,
    device: u8,
    why: OpenFault,
) -> Result<String, AllocError>
    ensures { IfOk result (λ text. string_bytes text ≡ store_text root.now device why) }
{
    let reason = store_reason(why);
    match format!(in alloc; "{root}/{device}: {reason}\n") {
        Ok(text) => Ok(text),
        Err(_) => Err(AllocError),
    }
}

/// Returns why what the agent keeps in a folder can't be opened.
///
/// # Errors
/// `AllocError` if memory is refused.
pub(crate) fn agent_store_text(
    alloc: Global,
    root: &str,
    why: OpenFault,
) -> Result<String, AllocError>
    ensures { IfOk result (λ text. string_bytes text ≡ agent_store_text root.now why) }
{
    let reason = store_reason(why);
    match format!(in alloc; "{root}/agent: {reason}\n") {
        Ok(text) => Ok(text),
        Err(_) => Err(AllocError),
    }
}
