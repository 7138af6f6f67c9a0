//! Standard error as a terminal, and the lines that are shown there.

ghost use Rattle.std.specs.Io.KnownBytes.{Appends};
ghost use Rattle.std.specs.Prelude.{◌≡◌, ◌&&◌, IfOk, OnOk, false, is_some, not, option_map, true};
ghost use Rattle.fwupd_watch.specs.Terminals.{erasure_of, explanation_of, is_explaining, lost_line};

use fw_text::{push_number, push_words};
use std::alloc::{AllocError, Global};
use std::env;
use std::io::{self, ErrorKind, IsTerminal, Write};
use std::time::Instant;

/// A blank line, which covers one that was shown, between two carriage returns.
const ERASURE: &[u8] =
    b"\r                                                                        \r";

/// Standard error, where faults are explained. What prints an explanation takes one, and
/// [`Explaining::find`] alone makes it.
#[derive(Clone, Copy)]
pub struct Explaining<'a> {
    rt: &'a HostRuntime,
}

impl<'a> Explaining<'a> {
    /// Returns standard error if faults are explained: if it is a terminal, or the environment has
    /// `FWUPD_EXPLAIN=1`.
    pub fn find(rt: &'a HostRuntime) -> Option<Explaining<'a>> {
        let is_terminal = rt.stderr().is_terminal();
        match env::var(rt, "FWUPD_EXPLAIN") {
            Ok(value) => Explaining::by(rt, is_terminal, Some(value.as_str())),
            Err(_) => Explaining::by(rt, is_terminal, None),
        }
    }

    /// Returns standard error if it is a terminal, or the variable's value, if it has one, is 1.
    fn by(rt: &'a HostRuntime, is_terminal: bool, value: Option<&str>) -> Option<Explaining<'a>>
        ensures { is_some result ≡ is_explaining is_terminal (option_map (λ v. v.now) value.entry) }
    {
        let is_explaining = match value {
            Some(value) => is_terminal || value == "1",
            None => is_terminal,
        };
        if !is_explaining {
            return None;
        }
        Some(Explaining { rt })
    }

    /// Returns the runtime whose standard error this is.
    pub fn runtime(self) -> &'a HostRuntime {
        self.rt
    }
}

/// Standard error, where progress is shown. A display takes one, and [`Terminal::find`] alone makes
/// it.
#[derive(Clone, Copy)]
pub struct Terminal<'a> {
    rt: &'a HostRuntime,
}

impl<'a> Terminal<'a> {
    /// Returns standard error if progress is shown: if it is a terminal, unless the job is quiet.
    pub fn find(rt: &'a HostRuntime, is_quiet: bool) -> Option<Terminal<'a>>
        ensures { is_quiet ≡ true → is_some result ≡ false }
    {
        Terminal::by(rt, is_quiet, rt.stderr().is_terminal())
    }

    /// Returns standard error if it is a terminal, unless the job is quiet.
    fn by(rt: &'a HostRuntime, is_quiet: bool, is_terminal: bool) -> Option<Terminal<'a>>
        ensures { is_some result ≡ (not is_quiet && is_terminal) }
    {
        if is_quiet || !is_terminal {
            return None;
        }
        Some(Terminal { rt })
    }

    /// Returns the current time, if the clock can be read.
    pub fn now(self) -> Option<Instant> {
        Instant::now(self.rt).ok()
    }

    /// Returns the runtime whose standard error this is.
    pub fn runtime(self) -> &'a HostRuntime {
        self.rt
    }
}

/// Erases a progress line, if one was shown.
///
/// # Errors
/// The writer's error.
pub fn erase_line<W: Write>(writer: &mut W, was_shown: bool) -> io::Result<()>
    ensures { OnOk result (Appends (W.contents writer.old) (W.contents writer.new) (erasure_of was_shown)) }
{
    if !was_shown {
        return Ok(());
    }
    writer.write_all(ERASURE)
}

/// The line about a device whose link failed.
fn lost_line(alloc: Global, device: u8) -> Result<Vec<u8>, AllocError>
    ensures { IfOk result (λ line. line.items ≡ lost_line device) }
{
    let mut line = Vec::new(alloc);
    push_number(alloc, &mut line, "device ", usize::from(device))?;
    push_words(&mut line, ": its link failed\n")?;
    Ok(line)
}

/// Writes the device whose link failed, if there is one and faults are explained.
///
/// # Errors
/// The writer's error, or `OutOfMemory` if memory is refused.
pub(crate) fn explain_on<W: Write>(
    alloc: Global,
    writer: &mut W,
    explaining: Option<Explaining<'_>>,
    lost: Option<u8>,
) -> io::Result<()>
    ensures { OnOk result (Appends (W.contents writer.old) (W.contents writer.new)
        (explanation_of (is_some explaining.entry) lost)) }
{
    let (Some(device), Some(_)) = (lost, explaining) else {
        return Ok(());
    };
    let Ok(line) = lost_line(alloc, device) else {
        return Err(io::Error::from(ErrorKind::OutOfMemory));
    };
    writer.write_all(&line)
}
