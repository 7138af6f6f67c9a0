//! The outputs of a run or a replay.

use crate::forms::{Form, TraceForm};

/// The outputs of a run or a replay.
#[derive(Clone, Copy)]
pub struct Show<'a> {
    /// Whether progress is suppressed, also on a terminal.
    pub is_quiet: bool,
    /// The file that each packet is written to when it is sent, if any.
    pub trace: Option<&'a str>,
    /// The format of that file.
    pub trace_form: TraceForm,
    /// The file that the event log's records are written to at the end, if any.
    pub log: Option<&'a str>,
    /// The file that each step is written to when it is taken, as a schedule, if any.
    pub record: Option<&'a str>,
    /// The folder of the devices' stores, if their images persist. A replay only reads it.
    pub store: Option<&'a str>,
    /// The folder of stores whose history file the run appends to, if any; none for a replay.
    pub history: Option<&'a str>,
    /// The format of the report.
    pub form: Form,
}
