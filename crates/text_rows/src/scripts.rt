//! Texts that are read, texts that are refused, and the report of an update.

mod configs;
mod memory;
mod noise;
mod schedule_texts;
mod schedules;
mod updates;

use fw_world::{LogRequest, Missed, Step};

/// An event log request.
fn request(bytes: &[u8]) -> Step {
    let mut request = LogRequest::new();
    let _ = request.try_extend_from_slice(bytes);
    Step::Sel(request)
}

/// A tick that the listed nodes miss.
fn miss(nodes: &[u8]) -> Step {
    let mut missed = Missed::new();
    let _ = missed.try_extend_from_slice(nodes);
    Step::Tick(missed)
}
