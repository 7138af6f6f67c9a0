//! A serial port.

use mio::unix::SourceFd;
use mio::{Events, Interest, Poll, Token};
use std::alloc::Global;
use std::fs::{self, File, OpenOptions};
use std::io::{self, ErrorKind, Read, Write};
use std::os::fd::AsRawFd;
use std::os::unix::fs::FileTypeExt;
use std::os::unix::net::UnixStream;
use std::time::Duration;

/// The name of a terminal in its poll, which has no other source.
const TERMINAL: Token = Token(0);

/// A terminal, or a file that can be polled as one. Its reads and writes would wait, so the poll is
/// asked before each.
#[derive(Drop)]
struct Terminal {
    file: File,
    poll: Poll,
    events: Events,
}

impl Terminal {
    /// Opens a terminal to read and write.
    fn open(rt: &HostRuntime, alloc: Global, path: &str) -> io::Result<Terminal> {
        let mut options = OpenOptions::new();
        options.read(true).write(true);
        let file = options.open(rt, path)?;
        let fd = file.as_raw_fd();
        let poll = Poll::new(rt)?;
        let events = Events::with_capacity(alloc, 1)?;
        poll.registry()
            .register(&mut SourceFd(&fd), TERMINAL, Interest::READABLE)?;
        Ok(Terminal { file, poll, events })
    }

    /// Fails with `WouldBlock` if a call of this kind would wait now.
    fn check_ready(&mut self, interest: Interest) -> io::Result<()> {
        let fd = self.file.as_raw_fd();
        // A poll reports each change once. Registered anew, it reports what is so now.
        self.poll
            .registry()
            .reregister(&mut SourceFd(&fd), TERMINAL, interest)?;
        self.poll.poll(&mut self.events, Some(Duration::ZERO))?;
        if self.events.is_empty() {
            return Err(io::Error::from(ErrorKind::WouldBlock));
        }
        Ok(())
    }
}

/// The kind of a serial port.
#[derive(Drop)]
enum Kind {
    Socket(UnixStream),
    Terminal(Terminal),
}

/// A serial port: a terminal or a FIFO, or a Unix socket in place of one. A read or write that
/// would wait fails with `WouldBlock`. A write to a terminal may still wait if there is room for a
/// part of it only.
#[derive(Drop)]
pub struct Port {
    kind: Kind,
}

/// Whether a path is that of a Unix socket.
fn is_socket(rt: &HostRuntime, path: &str) -> bool {
    match fs::metadata(rt, path) {
        Ok(metadata) => metadata.file_type().is_socket(),
        Err(_) => false,
    }
}

impl Port {
    /// Opens the terminal at a path, or connects to the Unix socket there. A terminal's settings
    /// are left as they are: it must be raw.
    ///
    /// # Errors
    /// The path can't be opened or connected to, or is that of a file that can't be polled.
    pub fn open(rt: &HostRuntime, alloc: Global, path: &str) -> io::Result<Port> {
        let kind = if is_socket(rt, path) {
            let stream = UnixStream::connect(rt, path)?;
            stream.set_nonblocking(true)?;
            Kind::Socket(stream)
        } else {
            Kind::Terminal(Terminal::open(rt, alloc, path)?)
        };
        Ok(Port { kind })
    }
}

impl Read for Port {
    fn read(&mut self, buf: &mut [u8]) -> io::Result<usize> {
        match &mut self.kind {
            Kind::Socket(stream) => stream.read(buf),
            Kind::Terminal(terminal) => {
                terminal.check_ready(Interest::READABLE)?;
                terminal.file.read(buf)
            }
        }
    }
}

impl Write for Port {
    fn write(&mut self, buf: &[u8]) -> io::Result<usize> {
        match &mut self.kind {
            Kind::Socket(stream) => stream.write(buf),
            Kind::Terminal(terminal) => {
                terminal.check_ready(Interest::WRITABLE)?;
                terminal.file.write(buf)
            }
        }
    }

    fn flush(&mut self) -> io::Result<()> {
        Ok(())
    }
}
