//! The program: reads its arguments, performs the job, and returns the exit status.

ghost use Rattle.std.specs.Prelude.{◌≡◌, ◌≢◌, ◌⊎◌, ◌≤◌, IfErr, OnOk, map, string_bytes};
ghost use Rattle.std.specs.IoError.{error_kind};
ghost use Rattle.std.specs.Process.{exit_status};
ghost use Rattle.clap.specs.Values.{kind_of};
ghost use Rattle.clap.specs.declared.error.kind.ErrorKind.TheVariants.{DisplayHelp, DisplayVersion, OutOfMemory};
ghost use Rattle.fwupd_jobs.specs.Failures.{status_of};
ghost use Rattle.fwupd_jobs.specs.Jobs.{Performs, StatusSays, SystemSays};
ghost use Rattle.fwupd_jobs.specs.Progress.{runs_of_job};

use crate::jobs::perform_job;
use crate::soak_progress::SoakProgress;
use crate::sockets::{SocketLink, Sockets};
use crate::system_wiring::SystemWiring;
use crate::words::words;
use fw_setup::SystemStores;
use fw_store::SystemFolder;
use fwupd_clues::{explain, warn};
use fwupd_nodes::{Host, HostView, Parts};
use fwupd_watch::{
    JobFault, Observers, Output, SystemCalls, SystemFiles, Terminal, WholeFiles, system_places,
};
use fwupd_words::{Job, parse};
use std::fmt::{self, Display};
use std::fs::File;
use std::io::{self, ErrorKind, Read, Write};
use std::marker::PhantomData;
use std::process::ExitCode;

/// The exit status of a usage error.
pub(crate) const USAGE: u8 = 2;

/// The exit status where sessions aren't Done since nothing was to be updated on their devices.
const SKIPPED: u8 = 3;

/// The line that reports the fault of a job.
#[derive(Drop)]
struct FailureLine<'a, F> {
    fault: &'a F,
}

impl<'a, F: Display> Display for FailureLine<'a, F> {
    ghost use Rattle.fwupd_jobs.specs.Failures.{failure_line};

    ghost output = { λ line. failure_line (F.output line.fault.now) };

    fn fmt<W: fmt::Write>(&self, f: &mut fmt::Formatter<W>) -> fmt::Result {
        let fault = self.fault;
        write!(f, "fwupd: {fault}\n")
    }
}

/// Prints a fault on standard error, and returns its exit status.
pub(crate) fn failed(rt: &HostRuntime, fault: &JobFault) -> ExitCode
    ensures is { exit_status result ≡ status_of fault.now }
    ensures known { exit_status result ≤ 3 }
{
    let line = FailureLine { fault };
    let _ = eprint!(rt; "{line}");
    match fault {
        JobFault::Skipped(_) => ExitCode::from(SKIPPED),
        _ => ExitCode::FAILURE,
    }
}

/// Performs a job on a host. Returns the exit status: 0, on a terminal after printing the warnings
/// about a package that was built; or that of the fault, after printing it and, on a terminal, its
/// clue.
fn status<H: Parts>(rt: &HostRuntime, job: &Job<'_>, host: &mut Host<H>) -> ExitCode
    ensures says { StatusSays (exit_status result) job.now
        (⟦<Host<H> as HostView>⟧.found host.old) (⟦<Host<H> as HostView>⟧.left host.new) }
    ensures known { exit_status result ≤ 3 }
{
    match perform_job(rt.alloc(), job, host) {
        Ok(()) => {
            warn(rt, job);
            ExitCode::SUCCESS
        }
        Err(fault) => {
            let status = failed(rt, &fault);
            explain(rt, job, &fault);
            status
        }
    }
}

/// The number of runs of a job, if it is a soak.
fn runs_of(job: &Job<'_>) -> u64
    ensures { result ≡ runs_of_job job.now }
{
    match job {
        Job::Soak(soak) => u64::from(soak.order.runs),
        _ => 0,
    }
}

/// The parts of the system: its files, sockets and observers, an input and an output.
struct SystemParts<'a, R, W> {
    parts: PhantomData<(&'a HostRuntime, R, W)>,
}

impl<'a, R: Read + Drop, W: Write + Drop> Parts for SystemParts<'a, R, W> {
    type Files = SystemFiles<'a>;

    type Folder = SystemFolder<'a>;

    type Stores = SystemStores<'a>;

    type Input = R;

    type Link = SocketLink;

    type Wires = Sockets<'a>;

    type Watch = Observers<'a>;

    type SoakWatch = SoakProgress<'a>;

    type NewFile = File;

    type Places = WholeFiles<SystemCalls<'a>>;

    type Wiring = SystemWiring<'a>;

    type Writer = W;
}

/// Performs a job with the system's files and sockets, this input and this output. Returns the exit
/// status and the output. On a terminal a link's fault is explained.
fn run<'a, R: Read + Drop, W: Write + Drop>(
    rt: &'a HostRuntime,
    job: &Job<'_>,
    input: R,
    output: Output<W>,
) -> (ExitCode, Output<W>)
    ensures says { SystemSays (exit_status result.0) job.now output result.1 }
    ensures known { exit_status result.0 ≤ 3 }
{
    let mut host: Host<SystemParts<'a, R, W>> = Host {
        files: SystemFiles::new(rt),
        stores: SystemStores::new(rt),
        input,
        wires: Sockets::new(rt),
        watch: Observers::new(rt),
        soak_watch: SoakProgress::new(Terminal::find(rt, false), runs_of(job)),
        places: system_places(rt),
        wiring: SystemWiring::new(rt),
        output,
    };
    let status = status(rt, job, &mut host);
    host.soak_watch.end();
    host.wires.explain();
    host.wiring.explain();
    host.watch.explain();
    let Host { output, .. } = host;
    (status, output)
}

/// Exit status after printing help or a usage error: 2 for a usage error; 0 for help, even if the
/// reader closed the pipe; 1, with a message, if writing the help failed.
fn printed(rt: &HostRuntime, error: &clap::Error, outcome: io::Result<()>) -> ExitCode
    ensures usage { kind_of error.now ≢ DisplayHelp → kind_of error.now ≢ DisplayVersion → exit_status result ≡ 2 }
    ensures shown { (kind_of error.now ≡ DisplayHelp) ⊎ (kind_of error.now ≡ DisplayVersion)
        → OnOk outcome (exit_status result ≡ 0) }
    ensures gone { (kind_of error.now ≡ DisplayHelp) ⊎ (kind_of error.now ≡ DisplayVersion)
        → IfErr outcome (λ e. error_kind e ≡ ErrorKind.BrokenPipe → exit_status result ≡ 0) }
    ensures lost { (kind_of error.now ≡ DisplayHelp) ⊎ (kind_of error.now ≡ DisplayVersion)
        → IfErr outcome (λ e. error_kind e ≢ ErrorKind.BrokenPipe → exit_status result ≡ 1) }
{
    match outcome {
        Ok(()) => ExitCode::from(error.exit_code() as u8),
        Err(_) if error.use_stderr() => ExitCode::from(USAGE),
        Err(failure) if failure.kind() == ErrorKind::BrokenPipe => ExitCode::SUCCESS,
        Err(_) => failed(rt, &JobFault::Output),
    }
}

/// Prints help or a usage error in place of a job, and returns the exit status: 2 for a usage
/// error; 0 for help, even if the reader closed the pipe; 1 if writing the help failed or memory
/// was refused. No contract covers which arguments these are, or that the text was printed.
fn no_job(rt: &HostRuntime, error: &clap::Error) -> ExitCode
    ensures memory { kind_of error.now ≡ OutOfMemory → exit_status result ≡ 1 }
    ensures shown { (kind_of error.now ≡ DisplayHelp) ⊎ (kind_of error.now ≡ DisplayVersion)
        → (exit_status result ≡ 0) ⊎ (exit_status result ≡ 1) }
    ensures mistake { kind_of error.now ≢ OutOfMemory → kind_of error.now ≢ DisplayHelp → kind_of error.now ≢ DisplayVersion
        → exit_status result ≡ 2 }
    ensures known { exit_status result ≤ 2 }
{
    if error.kind() == clap::error::ErrorKind::OutOfMemory {
        return failed(rt, &JobFault::Memory);
    }
    printed(rt, error, error.print(rt))
}

/// Performs the job that arguments request, with the program's name first, and returns the exit
/// status.
fn perform_words(rt: &HostRuntime, words: &[String]) -> ExitCode
    ensures known { exit_status result ≤ 3 }
    ensures performs { Performs (map string_bytes words.now) (exit_status result) }
{
    let job = match parse(rt.alloc(), words) {
        Ok(job) => job,
        Err(error) => return no_job(rt, &error),
    };
    let output = match Output::new(rt.alloc(), io::writer(rt)) {
        Ok(output) => output,
        Err(fault) => return failed(rt, &fault),
    };
    run(rt, &job, rt.reader(), output).0
}

/// Performs the job that the command line's arguments request, and returns the exit status: 0; 1
/// after printing a fault on standard error; 2 for a usage error; 3 after printing the sessions
/// that aren't Done, if nothing was to be updated on their devices.
pub fn perform(rt: &HostRuntime) -> ExitCode
    ensures { exit_status result ≤ 3 }
{
    match words(rt) {
        Ok(words) => perform_words(rt, words.as_slice()),
        Err(status) => status,
    }
}
