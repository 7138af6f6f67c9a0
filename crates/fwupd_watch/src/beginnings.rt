//! The beginning of a file, up to the largest size of a package's header.

ghost use Rattle.std.specs.Io.KnownBytes.{IsAtEnd};
ghost use Rattle.std.specs.Prelude.{◌≡◌, ◌≢◌, ◌<◌, ◌≤◌, IfOk, IfSome, length, take};
ghost use Rattle.fw_package.specs.Outlines.{IsBeginning};
ghost use Rattle.fwupd_watch.specs.Files.{MayBegin, any_file};

use crate::files::PIECE;
use fwupd_base::read_some;
use std::alloc::Global;
use std::io::{self, Read};

/// The largest size of a package's header in bytes; the size field has two bytes (DSP0267 1.0,
/// package header size).
pub(crate) const BEGINNING: usize = 65_535;

/// The beginning of a file, 65,535 bytes or all if there are fewer, and the file's length.
#[derive(Drop)]
pub struct Beginning {
    /// The bytes.
    pub bytes: Vec<u8>,
    /// The file's length in bytes.
    pub file_length: usize,
}

impl Beginning {
    ghost use Rattle.std.specs.Prelude.{◌≡◌, ◌<◌, ◌≤◌, length};
    ghost use Rattle.fw_package.specs.Outlines.{IsBeginning};
    ghost use Rattle.fwupd_watch.specs.Files.{MayBegin, any_file};

    /// Creates the beginning of a file with these contents.
    pub fn from_bytes(mut bytes: Vec<u8>) -> Beginning
        ensures { IsBeginning bytes.items result.bytes.items result.file_length }
    {
        let file_length = bytes.len();
        bytes.truncate(BEGINNING);
        Beginning { bytes, file_length }
    }

    /// The beginning of a file whose first bytes are `bytes` and whose size is stated as `size`,
    /// more than a header's. If `bytes` are fewer than a header's, they are the whole file.
    pub(crate) fn said(bytes: Vec<u8>, size: usize) -> Beginning
        requires first { length bytes.items ≤ BEGINNING }
        requires longer { BEGINNING < size }
        ensures begins { MayBegin any_file result.bytes.items result.file_length }
        ensures bytes { result.bytes.items ≡ bytes.items }
        ensures long { length bytes.items ≡ BEGINNING → result.file_length ≡ size }
        ensures short { length bytes.items < BEGINNING → result.file_length ≡ length bytes.items }
    {
        if bytes.len() < BEGINNING {
            let file_length = bytes.len();
            return Beginning { bytes, file_length };
        }
        Beginning {
            bytes,
            file_length: size,
        }
    }
}

/// Reads the first `most` bytes of a reader, or all if there are fewer.
///
/// # Errors
/// The reader's error, other than an interruption, or `OutOfMemory`.
#[tactic(auto, using(crate::proofs::Begun::first_all, crate::proofs::Begun::first_full))]
pub(crate) fn read_first<R: Read>(alloc: Global, reader: &mut R, most: usize) -> io::Result<Vec<u8>>
    ensures bytes { IfOk result (λ bytes. IfSome (R.remaining reader.old) (λ given. bytes.items ≡ take most given)) }
    ensures within { IfOk result (λ bytes. length bytes.items ≤ most) }
    ensures end { IfOk result (λ bytes. length bytes.items < most → IsAtEnd (R.remaining reader.new)) }
{
    let mut bytes = Vec::new(alloc);
    let mut piece = [0; PIECE];
    while bytes.len() < most {
        let room = PIECE.min(most - bytes.len());
        let count = match read_some(reader, &mut piece, room) {
            Ok(0) => return Ok(bytes),
            Ok(count) => count,
            Err(error) => return Err(error),
        };
        match bytes.extend_from_slice(&piece[..count]) {
            Ok(()) => {}
            Err(error) => return Err(io::Error::from(error)),
        }
    }
    Ok(bytes)
}
