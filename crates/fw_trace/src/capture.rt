//! Packets as Linux captures them on an MCTP interface, in a file format that network analysers
//! open.

ghost use Rattle.std.specs.Prelude.{◌≡◌, OnOk};
ghost use Rattle.fw_text.specs.Printing.{AppendsText};
ghost use Rattle.fw_trace.specs.Captures.{CaptureReadsBack, capture_header, capture_record, captured_size, cooked_head, record_head, source_of, word};

use std::alloc::AllocError;

/// The header of a capture file, low bytes first: the magic number, version 2.4, times in UTC, at
/// most 65,535 bytes of a packet, and the link type 113 (Linux cooked mode).
const CAPTURE_HEADER: [u8; 24] = [
    0xD4, 0xC3, 0xB2, 0xA1, 0x02, 0x00, 0x04, 0x00, 0x00, 0x00, 0x00, 0x00, 0x00, 0x00, 0x00, 0x00,
    0xFF, 0xFF, 0x00, 0x00, 0x71, 0x00, 0x00, 0x00,
];

/// The size of the cooked-mode header before each packet, in bytes.
const COOKED_SIZE: usize = 16;

/// The number of values of a four-byte size.
const SIZES: usize = 1 << 32;

/// The second byte of the packet type "sent by us", whose first is 0.
const SENT_BY_US: u8 = 4;

/// The second byte of the packet type "sent to us", whose first is 0.
const SENT_TO_US: u8 = 0;

/// An MCTP interface (ARPHRD_MCTP, 290), high byte first, and an address of one byte.
const INTERFACE: [u8; 4] = [0x01, 0x22, 0x00, 0x01];

/// The seven unused bytes of the address field after its first byte, and the protocol MCTP
/// (ETH_P_MCTP, 0x00FA), high byte first.
const PROTOCOL: [u8; 9] = [0, 0, 0, 0, 0, 0, 0, 0x00, 0xFA];

/// The endpoint that sent a packet: its third byte (DSP0236, section 8.1), or 0 if it is shorter.
fn source(bytes: &[u8]) -> u8
    ensures { result ≡ source_of bytes.now }
{
    match bytes {
        [_, _, source, ..] => *source,
        _ => 0,
    }
}

/// The captured size of a packet in bytes, with its cooked-mode header.
fn size(bytes: &[u8]) -> u32
    ensures { result ≡ captured_size bytes.now }
{
    (bytes.len().saturating_add(COOKED_SIZE) % SIZES) as u32
}

/// Returns the header of a capture file.
pub fn capture_header() -> &'static [u8]
    ensures { result.now ≡ capture_header }
{
    &CAPTURE_HEADER
}

/// Appends a number of four bytes, low byte first.
#[tactic(auto, unfolding(crate::specs::Captures::word))]
fn push_word(text: &mut Vec<u8>, number: u32) -> Result<(), AllocError>
    ensures { OnOk result (AppendsText text.old.items text.new.items (word number)) }
{
    text.extend_from_slice(&number.to_le_bytes())?;
    Ok(())
}

/// Appends the header of a packet: its tick as the time in seconds, and its size, which is captured
/// whole.
#[tactic(auto, unfolding(crate::specs::Captures::record_head))]
fn push_head(text: &mut Vec<u8>, turn: u32, size: u32) -> Result<(), AllocError>
    ensures { OnOk result (AppendsText text.old.items text.new.items (record_head turn size)) }
{
    push_word(text, turn)?;
    push_word(text, 0)?;
    push_word(text, size)?;
    push_word(text, size)?;
    Ok(())
}

/// Appends the cooked-mode header: whether the packet was sent by us, and its source.
fn push_cooked(text: &mut Vec<u8>, is_sent: bool, source: u8) -> Result<(), AllocError>
    ensures { OnOk result (AppendsText text.old.items text.new.items (cooked_head is_sent source)) }
{
    text.push(0)?;
    text.push(if is_sent { SENT_BY_US } else { SENT_TO_US })?;
    text.extend_from_slice(&INTERFACE)?;
    text.push(source)?;
    text.extend_from_slice(&PROTOCOL)?;
    Ok(())
}

/// Appends the record of a packet in a capture file: its header, with the tick of sending, `turn`,
/// as its time in seconds; the cooked-mode header with the direction and the source; and the
/// packet's bytes.
///
/// # Errors
/// `AllocError` if memory is refused.
#[tactic(auto, unfolding(crate::specs::Captures::capture_record))]
pub fn push_capture(
    text: &mut Vec<u8>,
    turn: u32,
    is_sent: bool,
    bytes: &[u8],
) -> Result<(), AllocError>
    ensures { OnOk result (AppendsText text.old.items text.new.items
        (capture_record (record { turn = turn; is_sent = is_sent; bytes = bytes.now }))) }
{
    push_head(text, turn, size(bytes))?;
    push_cooked(text, is_sent, source(bytes))?;
    text.extend_from_slice(bytes)?;
    Ok(())
}

/// A capture decodes to the packets that were written to it.
pub fn capture_reads_back()
    ensures { CaptureReadsBack }
{}
