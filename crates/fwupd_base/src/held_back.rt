//! Byte streams that hold back what is written to them.

ghost use Rattle.std.specs.Prelude.{[], ◌≡◌, List, OnOk, ℕ};
ghost use Rattle.std.specs.Io.Buffered.{writer_buffer};
ghost use Rattle.std.specs.Io.KnownBytes.{Keeps};

use std::io::{self, BufWriter, Write};
use std::os::unix::net::UnixStream;

/// A byte stream that may hold back what is written to it, as in a buffer, until it is flushed. In
/// contracts, `held` are the bytes that it holds back.
pub trait HeldBack: Write {
    ghost held: { Self → List ℕ } = { λ _. [] };

    /// Flushes the stream: writes out all bytes that are held back.
    ///
    /// # Errors
    /// The stream's error. Bytes may still be held back then.
    fn push_out(&mut self) -> io::Result<()>
        ensures out { OnOk result (held self.new ≡ []) }
        ensures kept { Keeps (Self.contents self.old) (Self.contents self.new) };
}

/// A socket holds nothing back.
impl HeldBack for UnixStream {
    fn push_out(&mut self) -> io::Result<()> {
        self.flush()
    }
}

/// A vector holds nothing back.
impl HeldBack for Vec<u8> {
    fn push_out(&mut self) -> io::Result<()> {
        self.flush()
    }
}

/// A slice holds nothing back.
impl HeldBack for &mut [u8] {
    fn push_out(&mut self) -> io::Result<()> {
        self.flush()
    }
}

/// A buffered writer holds back the bytes in its buffer. What the writer below it holds back isn't
/// counted; a flush reaches it too.
impl<W: Write + Drop> HeldBack for BufWriter<W> {
    ghost held = { λ w. writer_buffer w };

    fn push_out(&mut self) -> io::Result<()> {
        io::Write::flush(self)
    }
}
