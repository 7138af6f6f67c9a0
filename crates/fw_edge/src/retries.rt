//! Reads and writes of several bytes that are retried if they are interrupted.

ghost use Rattle.std.specs.Prelude.{◌≢◌, ◌<◌, ◌≤◌, length, IfErr, OnErr, OnOk};
ghost use Rattle.std.specs.Io.KnownBytes.{Appends, Consumes, IsAtEnd};
ghost use Rattle.std.specs.IoError.{error_kind};
ghost use Rattle.fw_edge.specs.Frames.{BeginsOf, PartOf};

use mctp_wire::{MAX_PACKET, RawPacket};
use std::io::{self, ErrorKind, Read, Write};

/// Reads `size` bytes, or fewer at the reader's end, and replaces the content of `held` by them.
///
/// # Errors
/// The reader's error, other than an interruption.
pub(crate) fn read_up_to<R: Read>(
    reader: &mut R,
    size: usize,
    held: &mut RawPacket,
) -> io::Result<()>
    requires some { 1 ≤ size }
    requires fits { size ≤ MAX_PACKET }
    ensures bytes { OnOk result (Consumes (R.remaining reader.old) (R.remaining reader.new) held.new.items) }
    ensures within { OnOk result (length held.new.items ≤ size) }
    ensures end { OnOk result (length held.new.items < size → IsAtEnd (R.remaining reader.new)) }
    ensures part { OnErr result (PartOf (R.remaining reader.old) (R.remaining reader.new) size) }
    ensures retried { IfErr result (λ e. error_kind e ≢ ErrorKind.Interrupted) }
{
    held.clear();
    let mut piece = [0; MAX_PACKET];
    for _ in 0..u64::MAX {
        let most = size - held.len();
        match reader.read(&mut piece[..most]) {
            Ok(0) => return Ok(()),
            Ok(count) => {
                let _ = held.try_extend_from_slice(&piece[..count]);
                if count == most {
                    return Ok(());
                }
            }
            Err(error) => {
                if error.kind() != ErrorKind::Interrupted {
                    return Err(error);
                }
            }
        }
    }
    Err(io::Error::from(ErrorKind::TimedOut))
}

/// Writes all bytes, one or more.
///
/// # Errors
/// The writer's error, other than an interruption, or `WriteZero` if it takes no more bytes.
pub(crate) fn write_whole<W: Write>(writer: &mut W, bytes: &[u8]) -> io::Result<()>
    requires some { 1 ≤ length bytes.now }
    ensures ok { OnOk result (Appends (W.contents writer.old) (W.contents writer.new) bytes.now) }
    ensures begun { OnErr result (BeginsOf (W.contents writer.old) (W.contents writer.new) bytes.now) }
    ensures retried { IfErr result (λ e. error_kind e ≢ ErrorKind.Interrupted) }
{
    let mut written = 0;
    for _ in 0..u64::MAX {
        match writer.write(&bytes[written..]) {
            Ok(0) => return Err(io::Error::from(ErrorKind::WriteZero)),
            Ok(count) => {
                written += count;
                if written == bytes.len() {
                    return Ok(());
                }
            }
            Err(error) => {
                if error.kind() != ErrorKind::Interrupted {
                    return Err(error);
                }
            }
        }
    }
    Err(io::Error::from(ErrorKind::TimedOut))
}
