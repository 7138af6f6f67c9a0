//! The lines of a file that a clue names, numbered from 1.

ghost use Rattle.std.specs.Prelude.{◌≡◌, ◌∷◌, ◌<◌, IfOk, IfSome, length, map, option_map};
ghost use Rattle.fwupd_clues.specs.ClueLines.{file_lines, line_at, lines_left, package_in_line, package_lines, step_line, steps_in_line};

use fw_script::{ScriptCause, read_schedule};
use std::alloc::{AllocError, Global};

/// Cuts off the first line of a text. Returns it, and the text after its line feed, if it has one.
fn first_line(text: &str) -> (&str, Option<&str>)
    ensures lines { file_lines text.now
        ≡ result.0.now ∷ lines_left (option_map (λ r. r.now) result.1) }
    ensures shorter { IfSome result.1 (λ rest. length rest.now < length text.now) }
{
    match text.split_once('\n') {
        Some((line, rest)) => (line, Some(rest)),
        None => (text, None),
    }
}

/// Returns the line of a text with this number, if there is one.
pub(crate) fn line_at(text: &str, number: usize) -> Option<&str>
    ensures { option_map (λ line. line.now) result ≡ line_at number (file_lines text.now) }
{
    let mut rest = Some(text);
    let mut left = number;
    while let Some(lines) = rest {
        let (line, after) = first_line(lines);
        if left == 1 {
            return Some(line);
        }
        left = left.saturating_sub(1);
        rest = after;
    }
    None
}

/// The number of steps of a line of a schedule, 0 if it can't be read.
fn steps_of(alloc: Global, line: &str) -> Result<usize, AllocError>
    ensures { IfOk result (λ count. count ≡ steps_in_line line.now) }
{
    match read_schedule(alloc, line.as_bytes()) {
        Ok(steps) => Ok(steps.len()),
        Err(fault) if fault.cause == ScriptCause::Memory => Err(AllocError),
        Err(_) => Ok(0),
    }
}

/// Returns the line of a schedule that contains a step, counted from 1, and the line's number.
///
/// # Errors
/// `AllocError` if memory is refused.
pub(crate) fn step_line<'a>(
    alloc: Global,
    text: &'a str,
    step: usize,
) -> Result<Option<(usize, &'a str)>, AllocError>
    ensures { IfOk result (λ found. option_map (λ l. (l.0, l.1.now)) found
        ≡ step_line text.now step) }
{
    let mut rest = Some(text);
    let mut number = 0;
    let mut left = step;
    while let Some(lines) = rest {
        let (line, after) = first_line(lines);
        number += 1;
        let count = steps_of(alloc, line)?;
        if left <= count {
            return Ok(Some((number, line)));
        }
        left -= count;
        rest = after;
    }
    Ok(None)
}

/// The path of the package that a line of a configuration names, if it names one.
fn package_of_line(line: &str) -> Option<&str>
    ensures { option_map (λ path. path.now) result ≡ package_in_line line.now }
{
    line.strip_prefix("package ")
}

/// Returns the numbers and the paths of the lines of a configuration that name packages.
///
/// # Errors
/// `AllocError` if memory is refused.
pub(crate) fn package_lines<'a>(
    alloc: Global,
    text: &'a str,
) -> Result<Vec<(usize, &'a str)>, AllocError>
    ensures { IfOk result (λ found. map (λ l. (l.0, l.1.now)) found.items
        ≡ package_lines text.now) }
{
    let mut found = Vec::new(alloc);
    let mut rest = Some(text);
    let mut number = 0;
    while let Some(lines) = rest {
        let (line, after) = first_line(lines);
        number += 1;
        if let Some(path) = package_of_line(line) {
            found.push((number, path))?;
        }
        rest = after;
    }
    Ok(found)
}
