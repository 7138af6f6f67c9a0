//! Packets as frames in a stream of bytes.

ghost use Rattle.std.specs.Prelude.{[], ◌≡◌, ◌≤◌, ◌∷◌, IfErr, IfOk, OnOk, false, length, true};
ghost use Rattle.std.specs.Io.KnownBytes.{Appends, Consumes};
ghost use Rattle.byteorder.specs.Endian.{little_bytes};
ghost use Rattle.fw_edge.specs.Frames.{IsNoSize, IsSize, ReadStops, WriteStops, frame_of, frames_of};

use crate::retries::{read_up_to, write_whole};
use arrayvec::ArrayVec;
use byteorder::{ByteOrder, LittleEndian};
use mctp_wire::{HEAD_SIZE, MAX_PACKET, RawPacket, Unit};
use std::io::{Read, Write};
use thiserror::Error;

/// The size of a frame's length field in bytes.
const LENGTH_SIZE: usize = 2;

/// The largest size of a frame in bytes, with any transmission unit: its length field and a packet.
const MAX_FRAME: usize = LENGTH_SIZE + MAX_PACKET;

/// The bytes of a frame.
pub(crate) type Frame = ArrayVec<u8, MAX_FRAME>;

/// Why a frame isn't read or written, or a link doesn't give or take one.
#[derive(Clone, Copy, Debug, PartialEq, Eq, Error)]
pub enum FrameFault {
    /// The stream is at its end: no byte was read.
    #[error("End")]
    End,
    /// The stream ends within a frame.
    #[error("Cut")]
    Cut,
    /// A length that no packet of the network has: 0, or more than a header and its transmission
    /// unit.
    #[error("Size")]
    Size,
    /// The stream failed.
    #[error("Io")]
    Io,
}

/// Whether a packet of a network with this transmission unit may have `size` bytes: 1 to a header
/// and the unit, 68 or 132 (DSP0236, section 8.3).
fn is_size(unit: Unit, size: usize) -> bool
    ensures yes { result ≡ true → IsSize unit size }
    ensures room { result ≡ true → size ≤ MAX_PACKET }
    ensures no { result ≡ false → IsNoSize unit size }
{
    size != 0 && size <= HEAD_SIZE + unit.bytes()
}

/// Reads a frame of a network with this transmission unit: the length of a packet in two bytes, low
/// byte first, and the packet, of 1 byte to a header and the unit. Interrupted reads are retried.
///
/// # Errors
/// - `End` if the reader is at its end; nothing is read;
/// - `Cut` if the reader ends within the frame; all its bytes are read;
/// - `Size` for a length of 0 or more than a header and the unit, 68 or 132 bytes; only the length
/// is read;
/// - `Io` if the reader fails; a part of the frame may be read.
pub fn read_frame<R: Read>(unit: Unit, reader: &mut R) -> Result<RawPacket, FrameFault>
    ensures ok { IfOk result (λ p. Consumes (R.remaining reader.old) (R.remaining reader.new) (frames_of (p.items ∷ []))) }
    ensures size { IfOk result (λ p. IsSize unit (length p.items)) }
    ensures fault { IfErr result (λ e. ReadStops unit e (R.remaining reader.old) (R.remaining reader.new)) }
{
    let mut packet = RawPacket::new();
    match read_frame_into(unit, reader, &mut packet) {
        Ok(()) => Ok(packet),
        Err(fault) => Err(fault),
    }
}

/// Reads a frame as `read_frame` does, and replaces the content of `packet` by its packet. After a
/// fault the content of `packet` is unspecified.
pub(crate) fn read_frame_into<R: Read>(
    unit: Unit,
    reader: &mut R,
    packet: &mut RawPacket,
) -> Result<(), FrameFault>
    ensures ok { OnOk result (Consumes (R.remaining reader.old) (R.remaining reader.new) (frames_of (packet.new.items ∷ []))) }
    ensures size { OnOk result (IsSize unit (length packet.new.items)) }
    ensures fault { IfErr result (λ e. ReadStops unit e (R.remaining reader.old) (R.remaining reader.new)) }
{
    match read_up_to(reader, LENGTH_SIZE, packet) {
        Ok(()) => {}
        Err(_) => return Err(FrameFault::Io),
    }
    if packet.is_empty() {
        return Err(FrameFault::End);
    }
    if packet.len() < LENGTH_SIZE {
        return Err(FrameFault::Cut);
    }
    let size = usize::from(LittleEndian::read_u16(packet.as_slice()));
    if !is_size(unit, size) {
        return Err(FrameFault::Size);
    }
    match read_up_to(reader, size, packet) {
        Ok(()) => {}
        Err(_) => return Err(FrameFault::Io),
    }
    if packet.len() < size {
        return Err(FrameFault::Cut);
    }
    Ok(())
}

/// Replaces the content of `frame` by a packet's frame.
fn put_frame(packet: &RawPacket, frame: &mut Frame)
    ensures { frame.new.items ≡ frame_of packet.now.items }
{
    let mut length = [0; LENGTH_SIZE];
    LittleEndian::write_u16(&mut length, packet.len() as u16);
    frame.clear();
    let _ = frame.try_extend_from_slice(&length);
    let _ = frame.try_extend_from_slice(packet.as_slice());
}

/// Writes the frame of a packet to a network with this transmission unit. Interrupted writes are
/// retried.
///
/// # Errors
/// - `Size` for an empty packet, or one of more bytes than a header and the unit; nothing is
/// written;
/// - `Io` if the writer fails, or takes no more bytes; a beginning of the frame may be written.
pub fn write_frame<W: Write>(
    unit: Unit,
    writer: &mut W,
    packet: &RawPacket,
) -> Result<(), FrameFault>
    ensures ok { OnOk result (Appends (W.contents writer.old) (W.contents writer.new) (frames_of (packet.now.items ∷ []))) }
    ensures size { OnOk result (IsSize unit (length packet.now.items)) }
    ensures fault { IfErr result (λ e. WriteStops unit e (W.contents writer.old) (W.contents writer.new) packet.now.items) }
{
    let mut frame = Frame::new();
    write_frame_from(unit, writer, packet, &mut frame)
}

/// Writes the frame of a packet as `write_frame` does. The frame replaces the content of `frame`.
pub(crate) fn write_frame_from<W: Write>(
    unit: Unit,
    writer: &mut W,
    packet: &RawPacket,
    frame: &mut Frame,
) -> Result<(), FrameFault>
    ensures ok { OnOk result (Appends (W.contents writer.old) (W.contents writer.new) (frames_of (packet.now.items ∷ []))) }
    ensures size { OnOk result (IsSize unit (length packet.now.items)) }
    ensures fault { IfErr result (λ e. WriteStops unit e (W.contents writer.old) (W.contents writer.new) packet.now.items) }
{
    if !is_size(unit, packet.len()) {
        return Err(FrameFault::Size);
    }
    put_frame(packet, frame);
    match write_whole(writer, frame.as_slice()) {
        Ok(()) => Ok(()),
        Err(_) => Err(FrameFault::Io),
    }
}
