//! The output of a job's report.

ghost use Rattle.std.specs.Prelude.{◌≡◌, IfErr, IfOk, OnErr, OnOk, false};
ghost use Rattle.fwupd_watch.specs.Answering.{AnswerEnds, AnswersAll};
ghost use Rattle.fwupd_watch.specs.Outputs.{FailsToWriteOutput, WritesOutput};
ghost use Rattle.fwupd_watch.specs.Serving.{ServesAll, ServingEnds, StreamsOf, line_bound};

use crate::faults::JobFault;
use fwupd_base::{AnswerFault, LineServer, answer_stream, serve_stream, write_whole};
use mctp_ctl::Endpoint;
use std::alloc::Global;
use std::io::{BufWriter, Read, Write};
use std::marker::Model;

/// The most bytes that a run of a node by itself reads.
const LINE_BOUND: usize = 1_099_511_627_776;

/// A buffered writer that takes no more after its first failed write.
#[derive(Drop)]
pub struct Output<W: Write + Drop> {
    /// The buffered writer. Answers are held back until more input is awaited.
    writer: BufWriter<W>,
    is_broken: bool,
}

impl<W: Write + Drop> Model for Output<W> {
    ghost use Rattle.std.specs.Prelude.{◌≡◌, [], false};
    ghost use Rattle.std.specs.Io.Buffered.{writer_buffer, writer_inner};
    ghost use Rattle.fwupd_watch.specs.Outputs.{OutputOf};

    ghost Value = { OutputOf };

    ghost view = { λ o. record { is_broken = o.is_broken; written = W.contents (writer_inner o.writer) } };

    ghost invariant = { λ o. o.is_broken ≡ false → writer_buffer o.writer ≡ [] };
}

impl<W: Write + Drop> Output<W> {
    /// Creates an output without failed writes.
    ///
    /// # Errors
    /// `Memory`.
    pub fn new(alloc: Global, writer: W) -> Result<Output<W>, JobFault>
        ensures whole { IfOk result (λ o. o.is_broken ≡ false) }
        ensures written { IfOk result (λ o. o.written ≡ W.contents writer) }
        ensures fault { IfErr result (λ e. e ≡ JobFault.Memory) }
    {
        let Ok(writer) = BufWriter::new(alloc, writer) else {
            return Err(JobFault::Memory);
        };
        Ok(Output {
            writer,
            is_broken: false,
        })
    }

    /// Returns the underlying writer.
    pub fn into_writer(self) -> W
        ensures { W.contents result ≡ self.written }
    {
        let (writer, _) = self.writer.into_parts();
        writer
    }

    /// Writes all bytes.
    ///
    /// # Errors
    /// `Output` if they can't be written; a beginning of them may be written. After a failed write,
    /// nothing is.
    pub fn write(&mut self, bytes: &[u8]) -> Result<(), JobFault>
        ensures ok { OnOk result (WritesOutput self.old self.new bytes.now) }
        ensures fault { IfErr result (λ e. e ≡ JobFault.Output) }
        ensures failed { OnErr result (FailsToWriteOutput self.old self.new bytes.now) }
    {
        if self.is_broken {
            return Err(JobFault::Output);
        }
        match write_whole(self.writer.get_mut(), bytes) {
            Ok(()) => Ok(()),
            Err(_) => {
                self.is_broken = true;
                Err(JobFault::Output)
            }
        }
    }

    /// Answers the packets of a reader, line by line, as an endpoint without a device.
    ///
    /// # Errors
    /// `Answer`, with the cause why reading or writing failed, or memory was refused.
    pub fn answer<R: Read>(
        &mut self,
        alloc: Global,
        reader: &mut R,
        endpoint: &Endpoint,
    ) -> Result<(), JobFault>
        ensures ok { OnOk result (AnswersAll endpoint.now (R.remaining reader.old) (R.remaining reader.new) self.old self.new) }
        ensures fault { IfErr result (λ e. AnswerEnds endpoint.now (R.remaining reader.old)
            (R.remaining reader.new) e self.old self.new) }
    {
        if self.is_broken {
            return Err(JobFault::Answer(AnswerFault::Write));
        }
        let end = answer_stream(alloc, reader, &mut self.writer, endpoint.eid, endpoint.uuid);
        if self.writer.flush().is_err() {
            self.is_broken = true;
            return Err(JobFault::Answer(AnswerFault::Write));
        }
        match end {
            Ok(()) => Ok(()),
            Err(fault) => {
                self.is_broken = fault == AnswerFault::Write;
                Err(JobFault::Answer(fault))
            }
        }
    }

    /// Has the server serve the lines of a reader, and writes what it prints.
    ///
    /// # Errors
    /// The cause why reading or writing failed, or memory was refused.
    pub fn serve<S: LineServer, R: Read>(
        &mut self,
        alloc: Global,
        reader: &mut R,
        server: &mut S,
    ) -> Result<(), AnswerFault>
        ensures ok { OnOk result (ServesAll S.serves server.old server.new
            (record { input = R.remaining reader.old; output = self.old })
            (record { input = R.remaining reader.new; output = self.new })) }
        ensures fault { IfErr result (λ e. ServingEnds S.serves S.may_lack server.old server.new e
            (record { input = R.remaining reader.old; output = self.old })
            (record { input = R.remaining reader.new; output = self.new })) }
    {
        if self.is_broken {
            return Err(AnswerFault::Write);
        }
        let end = serve_stream(alloc, reader, &mut self.writer, server, LINE_BOUND);
        if self.writer.flush().is_err() {
            self.is_broken = true;
            return Err(AnswerFault::Write);
        }
        match end {
            Ok(()) => Ok(()),
            Err(fault) => {
                self.is_broken = fault == AnswerFault::Write;
                Err(fault)
            }
        }
    }
}
