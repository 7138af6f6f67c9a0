//! The lines of a list of packets.

ghost use Rattle.std.specs.Prelude.{◌≡◌, OnOk, map};
ghost use Rattle.fw_text.specs.Printing.{AppendsText};
ghost use Rattle.fw_trace.specs.Lines.{lines_of, reader_along};
ghost use Rattle.fw_trace.specs.Sent.{sent_of};

use crate::lines::PacketReader;
use std::alloc::{AllocError, Global};

/// Bytes that were sent as a packet between the agent and a device.
#[derive(Clone, Copy)]
pub struct Sent<'a> {
    /// The tick at which they were sent.
    pub turn: u32,
    /// The packet's bytes.
    pub bytes: &'a [u8],
}

/// Appends the lines of the packets between the agent and a device, in the order of sending,
/// numbered from 1.
///
/// # Errors
/// `AllocError` if memory is refused; the text's content is unspecified then.
#[tactic(auto, using(fw_text::proofs::Chains::telling))]
pub fn push_lines(
    alloc: Global,
    text: &mut Vec<u8>,
    reader: &mut PacketReader,
    packets: &[Sent<'_>],
) -> Result<(), AllocError>
    ensures lines { OnOk result (AppendsText text.old.items text.new.items (lines_of reader.old 1 (map sent_of packets.now))) }
    ensures after { OnOk result (reader.new ≡ reader_along reader.old (map sent_of packets.now)) }
{
    for (place, sent) in packets.iter().enumerate() {
        reader.push_line(alloc, text, sent.turn, place + 1, sent.bytes)?;
    }
    Ok(())
}
