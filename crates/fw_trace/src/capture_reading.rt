//! Reads the packets of captures.

ghost use Rattle.std.specs.Prelude.{◌≡◌, ◌≤◌, ◌+◌, None, Some, false, if◌then◌else◌, length};
ghost use Rattle.std.specs.Result.{result_map_both};
ghost use Rattle.fw_trace.specs.Inputs.{captured_size_in, is_mctp, is_whole, lacks_record, number_in, order_by_magic, record_input};
ghost use Rattle.fw_trace.specs.Seen.{seen_of};

use crate::decoder::SeenPacket;
use crate::inputs::InputFault;
use byteorder::{BigEndian, ByteOrder as _, LittleEndian};

/// The order of bytes in a capture's own numbers.
#[derive(Clone, Copy, PartialEq, Eq)]
pub enum ByteOrder {
    /// The lowest byte first.
    Little,
    /// The highest byte first.
    Big,
}

/// The size of a record's header, in bytes.
const RECORD_HEAD: usize = 16;

/// The size of the cooked-mode header before each packet, in bytes.
const COOKED_SIZE: usize = 16;

/// The protocol MCTP in a cooked-mode header (ETH_P_MCTP), high byte first.
const PROTOCOL: [u8; 2] = [0x00, 0xFA];

/// The order of bytes of a capture with this magic number, read lowest byte first.
fn order_by_magic(magic: u32) -> Option<ByteOrder>
    ensures { result ≡ order_by_magic magic }
{
    match magic {
        0xA1B2_C3D4 | 0xA1B2_3C4D => Some(ByteOrder::Little),
        0xD4C3_B2A1 | 0x4D3C_B2A1 => Some(ByteOrder::Big),
        _ => None,
    }
}

/// Returns the order of bytes of a capture, if the bytes are one.
pub fn order_of(bytes: &[u8]) -> Option<ByteOrder>
    ensures { result ≡ Rattle.fw_trace.specs.Inputs.order_of bytes.now }
{
    if bytes.len() < 4 {
        return None;
    }
    order_by_magic(LittleEndian::read_u32(bytes))
}

/// Returns the number in four bytes.
pub fn number_in(order: ByteOrder, bytes: &[u8]) -> u32
    requires { 4 ≤ length bytes.now }
    ensures { result ≡ number_in order bytes.now }
{
    match order {
        ByteOrder::Little => LittleEndian::read_u32(bytes),
        ByteOrder::Big => BigEndian::read_u32(bytes),
    }
}

/// Returns the size of the first record, with its header, if it is whole.
pub fn record_size(order: ByteOrder, bytes: &[u8]) -> Option<usize>
    ensures { result ≡ (if lacks_record order bytes.now then None else Some (16 + captured_size_in order bytes.now)) }
{
    if bytes.len() < RECORD_HEAD {
        return None;
    }
    let size = RECORD_HEAD + number_in(order, &bytes[8..]) as usize;
    if bytes.len() < size { None } else { Some(size) }
}

/// Whether a record has captured a whole packet, after a cooked-mode header.
fn is_whole(order: ByteOrder, bytes: &[u8]) -> bool
    requires { 16 ≤ length bytes.now }
    ensures { result ≡ is_whole order bytes.now }
{
    let size = number_in(order, &bytes[8..]);
    size as usize >= COOKED_SIZE && size == number_in(order, &bytes[12..])
}

/// Whether the packet of a record is an MCTP packet.
fn is_mctp(bytes: &[u8]) -> bool
    requires { 32 ≤ length bytes.now }
    ensures { result ≡ is_mctp bytes.now }
{
    bytes[30] == PROTOCOL[0] && bytes[31] == PROTOCOL[1]
}

/// Returns the packet of a record.
///
/// # Errors
/// `Cut` if the packet wasn't captured whole, with a cooked-mode header; `Protocol` if it isn't an
/// MCTP packet.
#[tactic(auto, unfolding(crate::specs::Inputs::record_input))]
pub fn record_packet(order: ByteOrder, bytes: &[u8]) -> Result<SeenPacket<'_>, InputFault>
    requires { lacks_record order bytes.now ≡ false }
    ensures { result_map_both seen_of (λ e. e) result ≡ record_input order bytes.now }
{
    if !is_whole(order, bytes) {
        return Err(InputFault::Cut);
    }
    if !is_mctp(bytes) {
        return Err(InputFault::Protocol);
    }
    let size = number_in(order, &bytes[8..]) as usize;
    Ok(SeenPacket {
        turn: Some(number_in(order, bytes)),
        device: None,
        bytes: &bytes[RECORD_HEAD + COOKED_SIZE..RECORD_HEAD + size],
    })
}
