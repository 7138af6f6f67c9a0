//! The answers of an endpoint without a device on a serial line.

ghost use Rattle.std.specs.Prelude.{IfErr, OnOk};
ghost use Rattle.fwupd_nodes.specs.Answered.{AnswersSerial, SerialEnds};

use fwupd_base::SerialResponder;
use fwupd_watch::{JobFault, Output};
use mctp_ctl::Endpoint;
use std::alloc::Global;
use std::io::{Read, Write};

/// Answers the packets of a serial line, whose bytes a reader has in lines of digits, as an
/// endpoint without a device.
///
/// # Errors
/// `Answer`, with the cause why reading or writing failed, or memory was refused.
pub fn answer_serial<R: Read, W: Write + Drop>(
    alloc: Global,
    reader: &mut R,
    endpoint: Endpoint,
    output: &mut Output<W>,
) -> Result<(), JobFault>
    ensures ok { OnOk result (AnswersSerial endpoint
        (record { input = R.remaining reader.old; output = output.old })
        (record { input = R.remaining reader.new; output = output.new })) }
    ensures fault { IfErr result (λ e. SerialEnds endpoint e
        (record { input = R.remaining reader.old; output = output.old })
        (record { input = R.remaining reader.new; output = output.new })) }
{
    let mut server = SerialResponder::new(alloc, endpoint);
    match output.serve(alloc, reader, &mut server) {
        Ok(()) => Ok(()),
        Err(fault) => Err(JobFault::Answer(fault)),
    }
}
