//! The arguments of the command line.

ghost use Rattle.std.specs.Prelude.{◌≡◌, ◌≢◌, ◌⊎◌, IfErr};
ghost use Rattle.std.specs.Process.{exit_status};

use crate::program::{USAGE, failed};
use fwupd_watch::JobFault;
use std::io::ErrorKind;
use std::process::ExitCode;

/// Prints on standard error why the command line's arguments can't be read, and returns the exit
/// status: 1 if memory was refused, else 2 for a usage error.
fn no_words(rt: &HostRuntime, kind: ErrorKind) -> ExitCode
    ensures memory { kind ≡ ErrorKind.OutOfMemory → exit_status result ≡ 1 }
    ensures mistake { kind ≢ ErrorKind.OutOfMemory → exit_status result ≡ 2 }
{
    if kind == ErrorKind::OutOfMemory {
        return failed(rt, &JobFault::Memory);
    }
    let _ = eprintln!(rt; "error: an argument isn't UTF-8 text");
    ExitCode::from(USAGE)
}

/// The arguments of the command line, or the exit status if they can't be read.
pub(crate) fn words(rt: &HostRuntime) -> Result<Vec<String>, ExitCode>
    ensures { IfErr result (λ status. (exit_status status ≡ 1) ⊎ (exit_status status ≡ 2)) }
{
    let args = match std::env::args(rt) {
        Ok(args) => args,
        Err(error) => return Err(no_words(rt, error.kind())),
    };
    match args.collect(rt.alloc()) {
        Ok(words) => Ok(words),
        Err(_) => Err(failed(rt, &JobFault::Memory)),
    }
}
