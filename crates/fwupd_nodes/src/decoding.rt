//! Decodes the packets in a file or in standard input.

ghost use Rattle.std.specs.Io.KnownBytes.{Consumes, IsAtEnd};
ghost use Rattle.std.specs.Prelude.{◌≡◌, ◌≤◌, ◌⊎◌, IfErr, IfOk, OnOk, length, option_map};
ghost use Rattle.fwupd_nodes.specs.Decoded.{DecodeEnds, Decodes, GivesPackets, HasNoPackets, IsOverLimit, input_limit};

use crate::host::{Host, Parts};
use crate::setups::read_fault;
use fw_json::decode_in;
use fwupd_base::{AnswerFault, Form, read_some};
use fwupd_watch::{Files, JobFault};
use mctp_wire::Unit;
use std::alloc::Global;
use std::io::Read;

/// The most bytes that are read of standard input.
const LIMIT: usize = 16_777_216;

/// The most bytes that are read at once.
const PIECE: usize = 4096;

/// Why a reader's bytes can't be given.
#[derive(Clone, Copy, PartialEq, Eq)]
enum InputFault {
    /// The reader failed.
    Read,
    /// It has more than `LIMIT` bytes.
    TooLong,
    /// Memory was refused.
    Memory,
}

/// Reads all bytes of a reader.
fn read_input<R: Read>(alloc: Global, reader: &mut R) -> Result<Vec<u8>, InputFault>
    ensures all { IfOk result (λ bytes. Consumes (R.remaining reader.old) (R.remaining reader.new) bytes.items
        × IsAtEnd (R.remaining reader.new)) }
    ensures most { IfOk result (λ bytes. length bytes.items ≤ input_limit) }
    ensures over { IfErr result (λ e. e ≡ InputFault.TooLong
        → IsOverLimit (R.remaining reader.old) (R.remaining reader.new)) }
{
    let mut bytes = Vec::new(alloc);
    let mut piece = [0; PIECE];
    while bytes.len() <= LIMIT {
        let count = match read_some(reader, &mut piece, PIECE) {
            Ok(0) => return Ok(bytes),
            Ok(count) => count,
            Err(_) => return Err(InputFault::Read),
        };
        let Ok(()) = bytes.extend_from_slice(&piece[..count]) else {
            return Err(InputFault::Memory);
        };
    }
    Err(InputFault::TooLong)
}

/// The bytes of a file, or of the reader if there is no path or it is `-`.
fn packets_in<F: Files, R: Read>(
    alloc: Global,
    files: &F,
    reader: &mut R,
    path: Option<&str>,
) -> Result<Vec<u8>, JobFault>
    ensures given { IfOk result (λ bytes. GivesPackets (F.holds files.now) (option_map (λ p. p.now) path.entry)
        (R.remaining reader.old) (R.remaining reader.new) bytes.items) }
    ensures fault { IfErr result (λ e. (e ≡ JobFault.Memory)
        ⊎ HasNoPackets (F.holds files.now) (option_map (λ p. p.now) path.entry) e) }
{
    match path {
        Some(path) if path != "-" => match files.contents(alloc, path) {
            Ok(bytes) => Ok(bytes),
            Err(fault) => Err(read_fault(alloc, path, fault)),
        },
        _ => match read_input(alloc, reader) {
            Ok(bytes) => Ok(bytes),
            Err(InputFault::Memory) => Err(JobFault::Memory),
            Err(_) => Err(JobFault::Answer(AnswerFault::Read)),
        },
    }
}

/// Decodes the packets in a file, or in the input's bytes if there is no path or it is `-`, and
/// writes their lines in a format. They are of a network with this transmission unit.
///
/// # Errors
/// `Unreadable` if the file can't be read, `Answer` with `Read` if the input fails or has more than
/// 16,777,216 bytes, and `Memory` if memory is refused; nothing is written then. `Output` if the
/// lines can't be written; a beginning of them may be written.
pub fn decode_file<H: Parts>(
    alloc: Global,
    path: Option<&str>,
    unit: Unit,
    form: Form,
    host: &mut Host<H>,
) -> Result<(), JobFault>
    ensures ok { OnOk result (Decodes (H.Files.holds host.old.files) (option_map (λ p. p.now) path.entry) unit form
        (H.Input.remaining host.old.input) (H.Input.remaining host.new.input) host.old.output host.new.output) }
    ensures fault { IfErr result (λ e. DecodeEnds (H.Files.holds host.old.files) (option_map (λ p. p.now) path.entry) unit form
        (H.Input.remaining host.old.input) (H.Input.remaining host.new.input) e host.old.output host.new.output) }
    ensures untouched { host.new.watch ≡ host.old.watch }
{
    let bytes = match packets_in(alloc, &host.files, &mut host.input, path) {
        Ok(bytes) => bytes,
        Err(fault) => return Err(fault),
    };
    let Ok(text) = decode_in(alloc, unit, &bytes, form) else {
        return Err(JobFault::Memory);
    };
    match host.output.write(&text) {
        Ok(()) => Ok(()),
        Err(fault) => Err(fault),
    }
}
