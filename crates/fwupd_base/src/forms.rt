//! The formats of output.

/// The format of output.
#[derive(Clone, Copy, PartialEq, Eq)]
pub enum Form {
    /// Lines of text, for readers.
    Text,
    /// One line of JSON, for programs.
    Json,
}

/// The format of a trace.
#[derive(Clone, Copy, PartialEq, Eq)]
pub enum TraceForm {
    /// One line a packet, with its bytes in hexadecimal digits.
    Hex,
    /// One line a packet, with its decoded fields.
    Text,
    /// A capture file, as Linux captures on an MCTP interface.
    Capture,
}
