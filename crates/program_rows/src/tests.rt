//! Runs of the programs over byte readers and writers.

mod exchanges;
mod inspected;
mod inspection;
mod jobs;
mod openings;
mod printed;
mod traces;

use fwupd_base::{AnswerFault, HeldBack, answer_stream};
use std::io::{self, Read, Write};
use uuid::Uuid;

/// A reader that returns a text, and then an error.
#[derive(Drop)]
struct BrokenReader<'a> {
    rest: &'a [u8],
}

impl<'a> Read for BrokenReader<'a> {
    fn read(&mut self, buffer: &mut [u8]) -> io::Result<usize> {
        if self.rest.is_empty() {
            return Err(io::Error::from(io::ErrorKind::Other));
        }
        self.rest.read(buffer)
    }
}

/// A reader that is interrupted before each byte.
#[derive(Drop)]
struct InterruptedReader<'a> {
    rest: &'a [u8],
    ready: bool,
}

impl<'a> Read for InterruptedReader<'a> {
    fn read(&mut self, buffer: &mut [u8]) -> io::Result<usize> {
        self.ready = !self.ready;
        if self.ready || buffer.is_empty() {
            return Err(io::Error::from(io::ErrorKind::Interrupted));
        }
        self.rest.read(&mut buffer[..1])
    }
}

/// A writer that is interrupted twice before each write, and counts the flushes of pending bytes.
#[derive(Drop)]
struct FlushedWriter {
    tries: usize,
    flushes: usize,
    waiting: usize,
}

impl Write for FlushedWriter {
    fn write(&mut self, buffer: &[u8]) -> io::Result<usize> {
        self.tries = self.tries.saturating_add(1);
        if self.tries % 3 != 0 {
            return Err(io::Error::from(io::ErrorKind::Interrupted));
        }
        self.waiting = buffer.len();
        Ok(buffer.len())
    }

    fn flush(&mut self) -> io::Result<()> {
        if self.waiting > 0 {
            self.flushes = self.flushes.saturating_add(1);
        }
        self.waiting = 0;
        Ok(())
    }
}

impl HeldBack for FlushedWriter {
    fn push_out(&mut self) -> io::Result<()> {
        self.flush()
    }
}

#[test]
fn a_broken_reader_leaves_the_answers_before(rt: HostRuntime) {
    let mut out = Vec::new(rt.alloc());
    let mut input = BrokenReader {
        rest: b"02\n0109".as_slice(),
    };
    let outcome = answer_stream(rt.alloc(), &mut input, &mut out, 9, Uuid::nil());
    assert!(rt; matches!(outcome, Err(AnswerFault::Read)));
    assert!(rt; out.as_slice() == b"drop Short\n".as_slice());
}

#[test]
fn what_is_interrupted_is_tried_again_and_each_answer_is_flushed(rt: HostRuntime) {
    let mut input = InterruptedReader {
        rest: b"02\n0109\n03".as_slice(),
        ready: false,
    };
    let mut writer = FlushedWriter {
        tries: 0,
        flushes: 0,
        waiting: 0,
    };
    let outcome = answer_stream(rt.alloc(), &mut input, &mut writer, 9, Uuid::nil());
    assert!(rt; outcome.is_ok());
    assert!(rt; writer.flushes == 3);
}

/// A writer that takes bytes, and fails to flush them. It flushes as long as it has none.
#[derive(Drop)]
struct ShutWriter {
    taken: usize,
}

impl Write for ShutWriter {
    fn write(&mut self, buffer: &[u8]) -> io::Result<usize> {
        self.taken = self.taken.saturating_add(buffer.len());
        Ok(buffer.len())
    }

    fn flush(&mut self) -> io::Result<()> {
        if self.taken == 0 {
            return Ok(());
        }
        Err(io::Error::from(io::ErrorKind::StorageFull))
    }
}

impl HeldBack for ShutWriter {
    fn push_out(&mut self) -> io::Result<()> {
        self.flush()
    }
}

#[test]
fn a_flush_that_fails_stops_the_run(rt: HostRuntime) {
    let mut writer = ShutWriter { taken: 0 };
    let mut input = b"02\n01\n03\n".as_slice();
    let outcome = answer_stream(rt.alloc(), &mut input, &mut writer, 9, Uuid::nil());
    assert!(rt; matches!(outcome, Err(AnswerFault::Write)));
    assert!(rt; writer.taken > 0 && writer.taken <= 33);
}

#[test]
fn nothing_is_read_while_bytes_are_held_back(rt: HostRuntime) {
    let mut writer = ShutWriter { taken: 1 };
    let mut input = b"02
01
03
"
        .as_slice();
    let outcome = answer_stream(rt.alloc(), &mut input, &mut writer, 9, Uuid::nil());
    assert!(rt; matches!(outcome, Err(AnswerFault::Write)));
    assert!(rt; writer.taken == 1 && input.len() == 9);
}

#[test]
fn a_broken_writer_stops_the_run(rt: HostRuntime) {
    let mut room = [0u8; 16];
    let mut writer = room.as_mut_slice();
    let mut input = b"02\n01\n03\n".as_slice();
    let outcome = answer_stream(rt.alloc(), &mut input, &mut writer, 9, Uuid::nil());
    assert!(rt; matches!(outcome, Err(AnswerFault::Write)));
    assert!(rt; room.as_slice() == b"drop Short\ndrop ".as_slice());
}

/// Whichever single allocation is refused, the test holds.
#[test]
fn refused_memory_leaves_whole_answers(rt: HostRuntime) {
    let mut room = [0u8; 64];
    let mut writer = room.as_mut_slice();
    let mut input = b"02\n010908C8008002\n010908C800800F\n".as_slice();
    let outcome = answer_stream(rt.alloc(), &mut input, &mut writer, 9, Uuid::nil());
    let left = writer.len();
    assert!(rt; left <= 64);
    let written = &room[..64 - left];
    let answers: [&[u8]; 4] = [
        b"",
        b"drop Short\n",
        b"drop Short\n010809C000000200090100\n",
        b"drop Short\n010809C000000200090100\n010809C000000F05\n",
    ];
    match outcome {
        Ok(()) => assert!(rt; written == answers[3]),
        Err(fault) => {
            assert!(rt; fault == AnswerFault::Memory);
            assert!(rt; answers[..3].contains(&written));
        }
    }
}
