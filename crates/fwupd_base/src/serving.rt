//! Lines in, lines out: a server of lines behind any reader and writer.

ghost use Rattle.std.specs.Prelude.{[], Bool, true, false, ◌≡◌, ◌≢◌, ◌≤◌, ◌<◌, ◌+◌, ◌*◌, ◌-◌, ◌^◌, ◌++◌, IfErr, IfOk, List, OnErr, OnOk, Option, length, take, vec_capacity, ℕ};
ghost use Rattle.std.specs.Io.KnownBytes.{Consumes, IsAtEnd, Keeps};
ghost use Rattle.fwupd_base.specs.Stream.{LacksDigitRoom};
ghost use Rattle.fwupd_base.specs.Serving.{BreaksOffLine, BreaksOffText, HasServedLines, ServeErr, ServeOk, ServesText, ServeWriteErr, StopsAtLine, WritesLine};

use crate::held_back::HeldBack;
use crate::retries::{read_some, write_whole};
use crate::stream::AnswerFault;
use memchr::memchr;
use std::alloc::{AllocError, Global};
use std::io::{Read, Write};

/// The most bytes of one read.
const PIECE: usize = 65_536;

/// The room that a text has, in bytes, for a server that needs no memory of its own.
const TEXT_ROOM: usize = 512;

/// A server of lines. In contracts, `serves s line t text` says that a server `s` serves a line, is
/// `t` afterwards, and prints `text`. If `may_lack` is false, memory is never refused to the
/// server: it gets buffers with room for what it needs, and leaves them with that room.
pub trait LineServer {
    ghost serves: { Self → (line : List ℕ) → Self → (text : List ℕ) → Type 0 };

    ghost may_lack: { Bool };

    /// Serves a line, which is given without its line feed, and puts what it prints into `text`,
    /// which must be empty. `bytes` is a buffer of any content, with room for the bytes that the
    /// line's digits encode.
    ///
    /// # Errors
    /// `AllocError` if memory is refused. The server and the text are unspecified then.
    fn serve(
        &mut self,
        line: &[u8],
        bytes: &mut Vec<u8>,
        text: &mut Vec<u8>,
    ) -> Result<(), AllocError>
        requires empty { text.old.items ≡ [] }
        requires digits { may_lack ≡ false → length line.now ≤ 2 * vec_capacity bytes.old }
        requires room { may_lack ≡ false → 512 ≤ vec_capacity text.old }
        ensures ok { OnOk result (serves self.old line.now self.new text.new.items) }
        ensures err { OnErr result (may_lack ≡ true) }
        ensures digits_room { may_lack ≡ false → vec_capacity bytes.old ≤ vec_capacity bytes.new }
        ensures text_room { may_lack ≡ false → vec_capacity text.old ≤ vec_capacity text.new };
}

/// The buffers of a run: the bytes that a line's digits encode, and what a line prints.
#[derive(Drop)]
pub(crate) struct Buffers {
    bytes: Vec<u8>,
    text: Vec<u8>,
}

/// Serves a line, and writes what it prints.
fn serve_line<S: LineServer, W: Write>(
    server: &mut S,
    line: &[u8],
    buffers: &mut Buffers,
    writer: &mut W,
) -> Result<(), AnswerFault>
    requires digits { S.may_lack ≡ false → length line.now ≤ 2 * vec_capacity buffers.old.bytes }
    requires room { S.may_lack ≡ false → 512 ≤ vec_capacity buffers.old.text }
    ensures ok { OnOk result (WritesLine S.serves server.old line.now server.new
        (W.contents writer.old) (W.contents writer.new)) }
    ensures broken { IfErr result (λ e. e ≡ AnswerFault.Write → BreaksOffLine S.serves server.old
        line.now server.new (W.contents writer.old) (W.contents writer.new)) }
    ensures memory { IfErr result (λ e. e ≢ AnswerFault.Write → (e ≡ AnswerFault.Memory)
        × (S.may_lack ≡ true)
        × Keeps (W.contents writer.old) (W.contents writer.new)) }
    ensures digits_room { S.may_lack ≡ false → vec_capacity buffers.old.bytes ≤ vec_capacity buffers.new.bytes }
    ensures text_room { S.may_lack ≡ false → vec_capacity buffers.old.text ≤ vec_capacity buffers.new.text }
{
    buffers.text.clear();
    let Ok(()) = server.serve(line, &mut buffers.bytes, &mut buffers.text) else {
        return Err(AnswerFault::Memory);
    };
    match write_whole(writer, &buffers.text) {
        Ok(()) => Ok(()),
        Err(_) => Err(AnswerFault::Write),
    }
}

/// Flushes the writer.
fn flush<W: HeldBack>(writer: &mut W) -> Result<(), AnswerFault>
    ensures out { OnOk result (W.held writer.new ≡ []) }
    ensures kept { Keeps (W.contents writer.old) (W.contents writer.new) }
    ensures fault { IfErr result (λ e. e ≡ AnswerFault.Write) }
{
    match writer.push_out() {
        Ok(()) => Ok(()),
        Err(_) => Err(AnswerFault::Write),
    }
}

/// Reserves room for `most` more digits in `held`, and in `bytes` for the bytes that the held
/// digits then encode.
fn make_room(held: &mut Vec<u8>, bytes: &mut Vec<u8>, most: usize) -> Result<(), AnswerFault>
    ensures same { held.new.items ≡ held.old.items }
    ensures holds { OnOk result (length held.new.items + most ≤ vec_capacity held.new) }
    ensures decodes { OnOk result (length held.new.items + most ≤ 2 * vec_capacity bytes.new) }
    ensures fault { IfErr result (λ e. e ≡ AnswerFault.Memory) }
    ensures lacked { OnErr result (LacksDigitRoom (length held.old.items) most (vec_capacity held.old) (vec_capacity bytes.old)) }
{
    let Ok(()) = held.reserve(most) else {
        return Err(AnswerFault::Memory);
    };
    bytes.clear();
    let Ok(()) = bytes.reserve((held.len() + most) / 2 + 1) else {
        return Err(AnswerFault::Memory);
    };
    Ok(())
}

/// Flushes the writer, and reserves room to hold and decode a piece of at most `most` bytes.
fn prepare_read<W: HeldBack>(
    writer: &mut W,
    held: &mut Vec<u8>,
    bytes: &mut Vec<u8>,
    most: usize,
) -> Result<(), AnswerFault>
    ensures same { held.new.items ≡ held.old.items }
    ensures out { OnOk result (W.held writer.new ≡ []) }
    ensures kept { Keeps (W.contents writer.old) (W.contents writer.new) }
    ensures holds { OnOk result (length held.new.items + most ≤ vec_capacity held.new) }
    ensures decodes { OnOk result (length held.new.items + most ≤ 2 * vec_capacity bytes.new) }
    ensures fault { IfErr result (λ e. e ≢ AnswerFault.Read) }
    ensures memory { IfErr result (λ e. e ≡ AnswerFault.Memory → LacksDigitRoom
        (length held.old.items) most (vec_capacity held.old) (vec_capacity bytes.old)) }
{
    flush(writer)?;
    make_room(held, bytes, most)
}

/// Reads a piece, of at most `most` bytes, into the front of `buffer`. Returns the number of bytes;
/// 0 is the end. `_writer` must hold nothing back: a peer may await it before it sends more.
fn read_piece<R: Read, W: HeldBack>(
    reader: &mut R,
    _writer: &W,
    buffer: &mut [u8],
    most: usize,
) -> Result<usize, AnswerFault>
    requires room { most ≤ length buffer.old }
    requires out { W.held _writer.now ≡ [] }
    ensures size { length buffer.new ≡ length buffer.old }
    ensures within { IfOk result (λ n. n ≤ most) }
    ensures bytes { IfOk result (λ n. Consumes (R.remaining reader.old) (R.remaining reader.new) (take n buffer.new)) }
    ensures end { IfOk result (λ n. n ≡ 0 → 0 < most → IsAtEnd (R.remaining reader.new)) }
    ensures kept { OnErr result (Keeps (R.remaining reader.old) (R.remaining reader.new)) }
    ensures fault { IfErr result (λ e. e ≡ AnswerFault.Read) }
{
    match read_some(reader, buffer, most) {
        Ok(read) => Ok(read),
        Err(_) => Err(AnswerFault::Read),
    }
}

/// Serves the line made of the held bytes and then `bytes`; afterwards no bytes are held.
fn serve_ended<S: LineServer, W: Write>(
    server: &mut S,
    held: &mut Vec<u8>,
    bytes: &[u8],
    buffers: &mut Buffers,
    writer: &mut W,
) -> Result<(), AnswerFault>
    requires holds { length held.old.items + length bytes.now ≤ vec_capacity held.old }
    requires digits { S.may_lack ≡ false
        → length held.old.items + length bytes.now ≤ 2 * vec_capacity buffers.old.bytes }
    requires room { S.may_lack ≡ false → 512 ≤ vec_capacity buffers.old.text }
    ensures ok { OnOk result (WritesLine S.serves server.old (held.old.items ++ bytes.now) server.new
        (W.contents writer.old) (W.contents writer.new)) }
    ensures none { OnOk result (held.new.items ≡ []) }
    ensures broken { IfErr result (λ e. e ≡ AnswerFault.Write → BreaksOffLine S.serves server.old
        (held.old.items ++ bytes.now) server.new (W.contents writer.old) (W.contents writer.new)) }
    ensures memory { IfErr result (λ e. e ≢ AnswerFault.Write → (e ≡ AnswerFault.Memory)
        × (S.may_lack ≡ true)
        × Keeps (W.contents writer.old) (W.contents writer.new)) }
    ensures held_room { vec_capacity held.old ≤ vec_capacity held.new }
    ensures digits_room { S.may_lack ≡ false → vec_capacity buffers.old.bytes ≤ vec_capacity buffers.new.bytes }
    ensures text_room { S.may_lack ≡ false → vec_capacity buffers.old.text ≤ vec_capacity buffers.new.text }
{
    if held.is_empty() {
        return serve_line(server, bytes, buffers, writer);
    }
    let _ = held.extend_from_slice(bytes);
    let end = serve_line(server, held, buffers, writer);
    held.clear();
    end
}

/// Serves the lines that end in a piece of the input, and holds the bytes after them. A line that
/// is whole in the piece isn't copied.
fn serve_piece<S: LineServer, W: Write>(
    server: &mut S,
    held: &mut Vec<u8>,
    piece: &[u8],
    buffers: &mut Buffers,
    writer: &mut W,
) -> Result<(), AnswerFault>
    requires holds { length held.old.items + length piece.now ≤ vec_capacity held.old }
    requires digits { S.may_lack ≡ false
        → length held.old.items + length piece.now ≤ 2 * vec_capacity buffers.old.bytes }
    requires room { S.may_lack ≡ false → 512 ≤ vec_capacity buffers.old.text }
    ensures ok { (s : S) (all : List ℕ) (before : Option (List ℕ))
        → HasServedLines S.serves s server.old all before (W.contents writer.old) held.old.items
        → OnOk result (HasServedLines S.serves s server.new (all ++ piece.now) before
        (W.contents writer.new) held.new.items) }
    ensures stopped { (s : S) (all : List ℕ) (before : Option (List ℕ))
        → HasServedLines S.serves s server.old all before (W.contents writer.old) held.old.items
        → IfErr result (λ e. e ≢ AnswerFault.Write → (S.may_lack ≡ true)
        × StopsAtLine S.serves s (all ++ piece.now) before (W.contents writer.new)) }
    ensures broken { (s : S) (all : List ℕ) (before : Option (List ℕ))
        → HasServedLines S.serves s server.old all before (W.contents writer.old) held.old.items
        → IfErr result (λ e. e ≡ AnswerFault.Write → BreaksOffText S.serves s server.new
        (all ++ piece.now) before (W.contents writer.new)) }
    ensures fault { IfErr result (λ e. e ≢ AnswerFault.Read) }
    ensures text_room { S.may_lack ≡ false → vec_capacity buffers.old.text ≤ vec_capacity buffers.new.text }
{
    let mut from = 0;
    while let Some(count) = memchr(b'\n', &piece[from..]) {
        match serve_ended(server, held, &piece[from..from + count], buffers, writer) {
            Ok(()) => from += count + 1,
            Err(fault) => return Err(fault),
        }
    }
    let _ = held.extend_from_slice(&piece[from..]);
    Ok(())
}

/// Serves the bytes after the last line feed: a line, unless they are empty. What it prints is
/// flushed; before, the writer must hold nothing back.
fn finish<S: LineServer, W: HeldBack>(
    server: &mut S,
    held: &[u8],
    buffers: &mut Buffers,
    writer: &mut W,
) -> Result<(), AnswerFault>
    requires digits { S.may_lack ≡ false → length held.now ≤ 2 * vec_capacity buffers.old.bytes }
    requires room { S.may_lack ≡ false → 512 ≤ vec_capacity buffers.old.text }
    requires out { W.held writer.old ≡ [] }
    ensures flushed { OnOk result (W.held writer.new ≡ []) }
    ensures ok { (s : S) (all : List ℕ) (before : Option (List ℕ))
        → HasServedLines S.serves s server.old all before (W.contents writer.old) held.now
        → OnOk result (ServesText S.serves s server.new all before (W.contents writer.new)) }
    ensures stopped { (s : S) (all : List ℕ) (before : Option (List ℕ))
        → HasServedLines S.serves s server.old all before (W.contents writer.old) held.now
        → IfErr result (λ e. e ≢ AnswerFault.Write → (S.may_lack ≡ true)
        × StopsAtLine S.serves s all before (W.contents writer.new)) }
    ensures broken { (s : S) (all : List ℕ) (before : Option (List ℕ))
        → HasServedLines S.serves s server.old all before (W.contents writer.old) held.now
        → IfErr result (λ e. e ≡ AnswerFault.Write → BreaksOffText S.serves s server.new all
        before (W.contents writer.new)) }
    ensures fault { IfErr result (λ e. e ≢ AnswerFault.Read) }
{
    if held.is_empty() {
        return Ok(());
    }
    match serve_line(server, held, buffers, writer) {
        Ok(()) => flush(writer),
        Err(fault) => Err(fault),
    }
}

/// Reads lines, has the server serve each, and writes what it prints. A line feed ends a line; the
/// bytes after the last one are a line too, unless they are empty.
///
/// The writer is flushed before each read, also before the first, and before `Ok` is returned. All
/// whole lines of the last read are served before the next one. So a peer over a pipe never waits
/// for what a line that it has sent prints. Beside the server's, work is linear in the input.
/// Interrupted reads and writes are retried.
///
/// # Errors
/// - `Read` if the reader fails, or at the first byte past `limit`: exactly the whole lines before
/// are served;
/// - `Memory` if memory for a line is refused: the lines before are served, and nothing that the
/// line prints is written;
/// - `Write` if the writer fails: the lines before are served, and a beginning of what the next
/// line prints may be written.
pub fn serve_stream<R: Read, W: HeldBack, S: LineServer>(
    alloc: Global,
    reader: &mut R,
    writer: &mut W,
    server: &mut S,
    limit: usize,
) -> Result<(), AnswerFault>
    requires { limit < 2 ^ 64 - 1 }
    ensures ok { OnOk result (ServeOk S.serves limit server.old server.new (R.remaining reader.old)
        (R.remaining reader.new) (W.contents writer.old) (W.contents writer.new)) }
    ensures flushed { OnOk result (W.held writer.new ≡ []) }
    ensures stopped { IfErr result (λ e. e ≢ AnswerFault.Write → ServeErr S.serves S.may_lack limit
        server.old server.new e (R.remaining reader.old) (R.remaining reader.new) (W.contents writer.old)
        (W.contents writer.new)) }
    ensures broken { IfErr result (λ e. e ≡ AnswerFault.Write → ServeWriteErr S.serves limit
        server.old server.new (R.remaining reader.old) (R.remaining reader.new)
        (W.contents writer.old) (W.contents writer.new)) }
{
    let mut held: Vec<u8> = Vec::new(alloc);
    let mut buffers = Buffers {
        bytes: Vec::new(alloc),
        text: Vec::new(alloc),
    };
    let mut storage: Vec<u8> = Vec::new(alloc);
    let Ok(()) = storage.resize(PIECE, 0) else {
        return Err(AnswerFault::Memory);
    };
    let Ok(()) = buffers.text.reserve(TEXT_ROOM) else {
        return Err(AnswerFault::Memory);
    };
    let buffer = storage.as_mut_slice();
    let mut count = 0;
    while count <= limit {
        let most = PIECE.min(limit + 1 - count);
        match prepare_read(writer, &mut held, &mut buffers.bytes, most) {
            Ok(()) => {}
            Err(fault) => return Err(fault),
        }
        let read = match read_piece(reader, writer, buffer, most) {
            Ok(0) => return finish(server, &held, &mut buffers, writer),
            Ok(read) => read,
            Err(fault) => return Err(fault),
        };
        let within = read.min(limit - count);
        match serve_piece(server, &mut held, &buffer[..within], &mut buffers, writer) {
            Ok(()) => {}
            Err(fault) => return Err(fault),
        }
        count += read;
    }
    match flush(writer) {
        Ok(()) => Err(AnswerFault::Read),
        Err(fault) => Err(fault),
    }
}
