//! Shows the progress of a soak on a terminal.

ghost use Rattle.std.specs.Io.KnownBytes.{Appends};
ghost use Rattle.std.specs.Prelude.{◌≡◌, IfOk, None, OnOk, false, is_some, string_bytes};
ghost use Rattle.fwupd_jobs.specs.Progress.{soak_line, soak_shown, soak_text};
ghost use Rattle.fwupd_watch.specs.Terminals.{erasure_of};

use fw_soak::{SoakObserver, Summary};
use fwupd_watch::{Refresh, Terminal, erase_line};
use std::alloc::{AllocError, Global};
use std::fmt::{self, Display};
use std::io::{self, ErrorKind, Write};
use std::time::Instant;

/// The progress line of a soak. It overwrites the line before it.
#[derive(Clone, Copy)]
struct SoakLine {
    /// The number of runs made.
    runs: u64,
    /// The number of runs to make.
    all: u64,
    /// The number of violations found in them.
    violations: u64,
}

impl Display for SoakLine {
    ghost use Rattle.std.specs.Prelude.{Some};
    ghost use Rattle.fwupd_jobs.specs.Progress.{soak_line};

    ghost output = { λ line. Some (soak_line line.runs line.all line.violations) };

    fn fmt<W: fmt::Write>(&self, f: &mut fmt::Formatter<W>) -> fmt::Result {
        let runs = self.runs;
        let all = self.all;
        let violations = self.violations;
        write!(f, "\r{runs} of {all} runs, {violations} violations        ")
    }
}

/// The progress line of a soak of `all` runs with these totals so far.
///
/// # Errors
/// `AllocError` if memory is refused.
fn line_of(alloc: Global, summary: &Summary, all: u64) -> Result<String, AllocError>
    ensures { IfOk result (λ line. string_bytes line ≡ soak_line summary.now.runs all summary.now.violations) }
{
    let line = SoakLine {
        runs: summary.runs,
        all,
        violations: summary.violations,
    };
    match format!(in alloc; "{line}") {
        Ok(line) => Ok(line),
        Err(_) => Err(AllocError),
    }
}

/// Shows on a terminal, if there is one, the number of runs made, at most ten times a second, until
/// all are made.
#[derive(Drop)]
pub struct SoakProgress<'a> {
    terminal: Option<Terminal<'a>>,
    /// The number of runs to make.
    runs: u64,
    refresh: Refresh,
}

impl<'a> SoakProgress<'a> {
    /// Creates the progress of `runs` runs, which shows nothing yet.
    pub fn new(terminal: Option<Terminal<'a>>, runs: u64) -> SoakProgress<'a>
        ensures runs { result.runs ≡ runs }
        ensures none { is_some result.refresh.shown ≡ false }
    {
        SoakProgress {
            terminal,
            runs,
            refresh: Refresh::new(),
        }
    }

    /// Writes the line on a writer, if the display is due for an update at `now`. After the last
    /// run it erases the line that is shown.
    fn see_on<W: Write>(
        &mut self,
        alloc: Global,
        writer: &mut W,
        summary: &Summary,
        now: Option<Instant>,
    ) -> io::Result<()>
        ensures text { OnOk result (Appends (W.contents writer.old) (W.contents writer.new)
            (soak_text self.old.runs self.old.refresh.shown now summary.now.runs summary.now.violations)) }
        ensures shown { OnOk result (self.new.refresh.shown
            ≡ soak_shown self.old.runs self.old.refresh.shown now summary.now.runs) }
        ensures runs { self.new.runs ≡ self.old.runs }
    {
        if summary.runs >= self.runs {
            return self.end_on(writer);
        }
        let Some(now) = self.refresh.due(now) else {
            return Ok(());
        };
        let Ok(line) = line_of(alloc, summary, self.runs) else {
            return Err(io::Error::from(ErrorKind::OutOfMemory));
        };
        self.refresh.note(now);
        writer.write_all(line.as_bytes())
    }

    /// Erases the progress line on a writer, if one is shown.
    fn end_on<W: Write>(&mut self, writer: &mut W) -> io::Result<()>
        ensures erased { OnOk result (Appends (W.contents writer.old) (W.contents writer.new)
            (erasure_of (is_some self.old.refresh.shown))) }
        ensures none { self.new.refresh.shown ≡ None }
        ensures runs { self.new.runs ≡ self.old.runs }
    {
        erase_line(writer, self.refresh.take())
    }

    /// Erases the progress line.
    pub fn end(&mut self)
        ensures { self.new.refresh.shown ≡ None }
    {
        let Some(terminal) = self.terminal else {
            let _ = self.refresh.take();
            return;
        };
        let _ = self.end_on(&mut terminal.runtime().stderr());
    }
}

impl<'a> SoakObserver for SoakProgress<'a> {
    fn see(&mut self, summary: &Summary) {
        let Some(terminal) = self.terminal else {
            return;
        };
        let rt = terminal.runtime();
        let _ = self.see_on(rt.alloc(), &mut rt.stderr(), summary, terminal.now());
    }
}
