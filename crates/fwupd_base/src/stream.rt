//! The engine of `fwupd answer`: reads lines and writes answers.

ghost use Rattle.std.specs.Prelude.{[], ◌≡◌, ◌≢◌, IfErr, OnOk};
ghost use Rattle.fwupd_base.specs.Answers.{endpoint_of};
ghost use Rattle.fwupd_base.specs.Stream.{AnswerErr, AnswerOk, AnswerWriteErr};

use crate::held_back::HeldBack;
use crate::responder::Responder;
use crate::serving::{LineServer, serve_stream};
use crate::text::{LineText, answer_line};
use mctp_ctl::Endpoint;
use pldm_base::Tid;
use std::alloc::{AllocError, Global};
use std::io::Read;
use thiserror::Error;
use uuid::Uuid;

/// The most bytes that one run reads; it makes every run end.
const LIMIT: usize = 16_777_216;

/// Why a run of answers stopped.
#[derive(Clone, Copy, Debug, PartialEq, Eq, Error)]
pub enum AnswerFault {
    /// The reader failed, or had more bytes than a run reads.
    #[error("input")]
    Read,
    /// The writer failed.
    #[error("output")]
    Write,
    /// Memory for a line was refused.
    #[error("memory")]
    Memory,
}

/// An endpoint without a device as a server of lines.
#[derive(Clone, Copy)]
struct AnswerServer {
    /// The endpoint.
    responder: Responder,
}

impl LineServer for AnswerServer {
    ghost use Rattle.std.specs.Prelude.{false};
    ghost use Rattle.fwupd_base.specs.Answering.{AnswersLine};

    ghost serves = { λ s line t text. AnswersLine s.responder line t.responder text };

    ghost may_lack = { false };

    fn serve(
        &mut self,
        line: &[u8],
        bytes: &mut Vec<u8>,
        text: &mut Vec<u8>,
    ) -> Result<(), AllocError> {
        let mut answer = LineText::new();
        answer_line(&mut self.responder, line, bytes, &mut answer);
        text.extend_from_slice(answer.as_slice())
    }
}

/// Reads lines of hexadecimal digits and writes one line for each: the packet by which an endpoint
/// without a device answers the packet in the line, or why there is no answer. A line feed ends a
/// line; the bytes after the last one are a line too, unless they are empty. The terminus
/// identifier is kept from line to line; at first it is 0.
///
/// The writer is flushed before each read, also before the first, and before `Ok` is returned. All
/// whole lines of the last read are answered before the next one. So a peer over a pipe never waits
/// for an answer to a line that it has sent. Work is linear in the input. Interrupted reads and
/// writes are retried.
///
/// # Errors
/// - `Read` if the reader fails, or at the first byte past 16,777,216;
/// - `Memory` if memory for a line is refused; in both cases exactly the whole lines before are
/// answered;
/// - `Write` if the writer fails: the lines before are answered, and a beginning of the next answer
/// may be written.
pub fn answer_stream<R: Read, W: HeldBack>(
    alloc: Global,
    reader: &mut R,
    writer: &mut W,
    eid: u8,
    uuid: Uuid,
) -> Result<(), AnswerFault>
    ensures ok { OnOk result (AnswerOk (endpoint_of eid uuid) (R.remaining reader.old)
        (R.remaining reader.new) (W.contents writer.old) (W.contents writer.new)) }
    ensures flushed { OnOk result (W.held writer.new ≡ []) }
    ensures stopped { IfErr result (λ e. e ≢ AnswerFault.Write
        → AnswerErr (endpoint_of eid uuid) e (R.remaining reader.old) (R.remaining reader.new)
        (W.contents writer.old) (W.contents writer.new)) }
    ensures broken { IfErr result (λ e. e ≡ AnswerFault.Write
        → AnswerWriteErr (endpoint_of eid uuid) (R.remaining reader.old) (R.remaining reader.new)
        (W.contents writer.old) (W.contents writer.new)) }
{
    let mut server = AnswerServer {
        responder: Responder {
            endpoint: Endpoint { eid, uuid },
            tid: Tid::unassigned(),
        },
    };
    serve_stream(alloc, reader, writer, &mut server, LIMIT)
}
