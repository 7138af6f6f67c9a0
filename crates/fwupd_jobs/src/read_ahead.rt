//! A byte stream with buffered reads.

ghost use Rattle.std.specs.Prelude.{◌≡◌, [], IfErr, IfOk};
ghost use Rattle.std.specs.IoError.{error_kind};
ghost use Rattle.std.specs.Io.Buffered.{reader_buffer, reader_inner, reader_remaining};

use fw_edge::HeldBack;
use std::alloc::Global;
use std::io::{self, BufReader, ErrorKind, Read, Write};

/// A byte stream with buffered reads, since each frame takes two reads. Writes are not buffered.
#[derive(Drop)]
pub struct ReadAhead<S: Read + Write + Drop> {
    reader: BufReader<S>,
}

impl<S: Read + Write + Drop> ReadAhead<S> {
    /// Creates the stream with an empty buffer.
    ///
    /// # Errors
    /// `OutOfMemory` if memory for the buffer is refused.
    pub fn new(alloc: Global, stream: S) -> io::Result<ReadAhead<S>>
        ensures stream { IfOk result (λ s. reader_inner s.reader ≡ stream) }
        ensures none { IfOk result (λ s. reader_buffer s.reader ≡ []) }
        ensures err { IfErr result (λ e. error_kind e ≡ ErrorKind.OutOfMemory) }
    {
        let reader = BufReader::new(alloc, stream)?;
        Ok(ReadAhead { reader })
    }
}

impl<S: Read + Write + Drop> Read for ReadAhead<S> {
    ghost remaining = { λ s. reader_remaining S.remaining s.reader };

    fn read(&mut self, bytes: &mut [u8]) -> io::Result<usize> {
        self.reader.read(bytes)
    }
}

impl<S: Read + Write + Drop> Write for ReadAhead<S> {
    ghost contents = { λ s. S.contents (reader_inner s.reader) };

    fn write(&mut self, bytes: &[u8]) -> io::Result<usize> {
        self.reader.get_mut().write(bytes)
    }

    fn flush(&mut self) -> io::Result<()> {
        self.reader.get_mut().flush()
    }
}

impl<S: Read + HeldBack + Drop> HeldBack for ReadAhead<S> {
    ghost held = { λ s. S.held (reader_inner s.reader) };

    fn push_out(&mut self) -> io::Result<()> {
        self.reader.get_mut().push_out()
    }
}
