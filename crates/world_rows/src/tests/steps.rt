//! The steps of the worked update.

use fd_core::Verdict;
use fw_world::{Missed, Step};
use std::alloc::{AllocError, Global};

/// The update over perfect links, one letter a step: the start, points for ticks, the node that
/// receives the next packet, the verdicts that the image verifies and is applied, and the
/// activation.
const UPDATE: &[u8; 43] = b"s.98.98.98.98.98.98.89999.89.89v.89a.89A.98";

/// Returns the schedule of an update over perfect links, in turns.
pub fn perfect(alloc: Global) -> Result<Vec<Step>, AllocError> {
    let mut steps = Vec::new(alloc);
    let mut number: usize = 0;
    for letter in UPDATE {
        if letter.is_ascii_digit() {
            number = number.wrapping_add(1);
        }
        steps.push(step_of(*letter, number))?;
    }
    Ok(steps)
}

/// The step of a letter; `number` is that of the packet that it delivers.
fn step_of(letter: u8, number: usize) -> Step {
    match letter {
        b'8' => Step::Deliver(9, number, 8),
        b'9' => Step::Deliver(9, number, 9),
        b'v' => Step::Verdict(9, Verdict::VerifyOk),
        b'a' => Step::Verdict(9, Verdict::ApplyOk),
        b'A' => Step::Activate(9),
        b's' => Step::Start(9, 1),
        _ => Step::Tick(Missed::new()),
    }
}
