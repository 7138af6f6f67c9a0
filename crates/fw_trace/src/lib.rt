//! Text of a run besides its report: the packets, as lines or as a capture, and the lines of the
//! event log.
#![tactic(auto)]

mod answers;
mod bases;
mod capture;
mod capture_reading;
mod commands;
mod control;
mod decoder;
mod decoding;
mod hearing;
mod inputs;
mod laws;
mod lines;
mod lists;
mod messages;
mod names;
mod pairs;
mod pieces;
mod records;
mod tables;

pub use capture::{capture_header, capture_reads_back, push_capture};
pub use decoder::{Decoder, Facts, PacketFacts, SeenPacket};
pub use decoding::{LineForm, TraceLines, decode_file_in, decodes_as_traced, fault_name};
pub use inputs::InputFault;
pub use laws::{shows_messages, shows_what_was_written};
pub use lines::PacketReader;
pub use lists::{Sent, push_lines};
pub use messages::push_message;
pub use records::{RecordsFault, log_bytes, records_read_back, records_text};
