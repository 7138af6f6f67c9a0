//! A byte stream with held-back writes.

ghost use Rattle.std.specs.Prelude.{◌≡◌, [], IfErr, IfOk, OnOk};
ghost use Rattle.std.specs.IoError.{error_kind};
ghost use Rattle.std.specs.Io.Buffered.{writer_buffer, writer_contents, writer_inner};
ghost use Rattle.std.specs.Io.KnownBytes.{Keeps};

use fw_edge::HeldBack;
use std::alloc::Global;
use std::io::{self, BufWriter, ErrorKind, Read, Write};

/// A byte stream that holds back what is written until it is flushed, or its buffer is full.
#[derive(Drop)]
pub struct WriteBehind<S: Read + Write + Drop> {
    writer: BufWriter<S>,
}

impl<S: Read + Write + Drop> WriteBehind<S> {
    /// Creates the stream with an empty buffer.
    ///
    /// # Errors
    /// `OutOfMemory` if memory for the buffer is refused.
    pub fn new(alloc: Global, stream: S) -> io::Result<WriteBehind<S>>
        ensures stream { IfOk result (λ s. writer_inner s.writer ≡ stream) }
        ensures none { IfOk result (λ s. writer_buffer s.writer ≡ []) }
        ensures err { IfErr result (λ e. error_kind e ≡ ErrorKind.OutOfMemory) }
    {
        let writer = BufWriter::new(alloc, stream)?;
        Ok(WriteBehind { writer })
    }
}

impl<S: Read + Write + Drop> Read for WriteBehind<S> {
    ghost remaining = { λ s. S.remaining (writer_inner s.writer) };

    fn read(&mut self, bytes: &mut [u8]) -> io::Result<usize> {
        self.writer.get_mut().read(bytes)
    }
}

impl<S: Read + Write + Drop> Write for WriteBehind<S> {
    ghost contents = { λ s. writer_contents S.contents s.writer };

    fn write(&mut self, bytes: &[u8]) -> io::Result<usize> {
        self.writer.write(bytes)
    }

    fn flush(&mut self) -> io::Result<()>
        ensures bytes { Keeps (writer_contents S.contents self.old.writer) (writer_contents S.contents self.new.writer) }
        ensures out { OnOk result (writer_buffer self.new.writer ≡ []) }
    {
        self.writer.flush()
    }
}

impl<S: Read + Write + Drop> HeldBack for WriteBehind<S> {
    ghost held = { λ s. writer_buffer s.writer };

    fn push_out(&mut self) -> io::Result<()> {
        self.flush()
    }
}
