//! Explains why a job failed, below the line that reports it, and warns of what a package is built
//! of, on a terminal or where it is wanted.

ghost use Rattle.std.specs.Prelude.{◌≡◌, is_err};
ghost use Rattle.fw_package.specs.Reading.{package_of};

use crate::clue_lines::{line_at, package_lines};
use crate::clue_texts::{
    agent_store_text, fault_text, numbered_text, reason_text, shown_part, step_text, store_text,
    version_text,
};
use crate::clues::{Clue, clue_to};
use crate::identifiers::later_version;
use crate::reasons::reason;
use crate::unwritten::{read_again, unwritten_reason, why_unwritten};
use crate::warnings::warnings;
use fw_package::Package;
use fw_script::{ScriptFault, read_package_spec};
use fw_store::OpenFault;
use fwupd_watch::{
    Explaining, Files, JobFault, SystemFiles, folder_and_name, history_path, is_special,
};
use fwupd_words::Job;
use std::alloc::AllocError;
use std::fs::OpenOptions;
use std::io::{self, Write};
use std::str;

/// Prints an explanation. Nothing is printed if memory was refused for its text.
fn print(explaining: Explaining<'_>, text: Result<String, AllocError>) {
    if let Ok(text) = text {
        let _ = explaining.runtime().stderr().write_all(text.as_bytes());
    }
}

/// Prints the system's error for a file that can't be read, by reading it once more.
fn explain_unreadable(explaining: Explaining<'_>, path: &str) {
    let rt = explaining.runtime();
    if let Err(error) = SystemFiles::new(rt).read(rt.alloc(), path) {
        if error.kind() != io::ErrorKind::OutOfMemory {
            let _ = eprintln!(rt; "{path}: {error}");
        }
    }
}

/// Whether bytes aren't a package.
fn is_no_package(bytes: &[u8]) -> bool
    ensures { result ≡ is_err (package_of bytes.now) }
{
    match Package::read(bytes) {
        Ok(_) => false,
        Err(_) => true,
    }
}

/// Prints the later version of the standard that a file seems to be a package of, if there is one.
fn explain_other(explaining: Explaining<'_>, path: &str) {
    let rt = explaining.runtime();
    if let Some(bytes) = read_again(rt, path)
        && let Some(version) = later_version(&bytes)
    {
        print(explaining, version_text(rt.alloc(), path, version));
    }
}

/// Prints the line of a fault in a text, as far as it is short, and what is wrong with it.
fn explain_line(explaining: Explaining<'_>, path: &str, fault: ScriptFault) {
    let rt = explaining.runtime();
    let Some(bytes) = read_again(rt, path) else {
        return;
    };
    let Ok(text) = str::from_utf8(&bytes) else {
        return;
    };
    let reason = reason(fault.cause);
    let text = match line_at(text, fault.line) {
        None | Some("") => reason_text(rt.alloc(), path, reason),
        Some(line) => {
            let (start, dots) = shown_part(line);
            fault_text(rt.alloc(), path, reason, start, dots)
        }
    };
    print(explaining, text);
}

/// Prints the first malformed package of a configuration, and its line there. Nothing is printed if
/// a package before it can't be read again.
fn explain_package(explaining: Explaining<'_>, config: &str) {
    let rt = explaining.runtime();
    let Some(bytes) = read_again(rt, config) else {
        return;
    };
    let Ok(text) = str::from_utf8(&bytes) else {
        return;
    };
    let Ok(lines) = package_lines(rt.alloc(), text) else {
        return;
    };
    for (number, path) in &lines {
        let Some(package) = read_again(rt, path) else {
            return;
        };
        if is_no_package(&package) {
            print(explaining, numbered_text(rt.alloc(), config, *number, path));
            return explain_other(explaining, path);
        }
    }
}

/// Prints the line of a schedule that contains a step, numbered from 1.
fn explain_step(explaining: Explaining<'_>, schedule: &str, step: usize) {
    let rt = explaining.runtime();
    let Some(bytes) = read_again(rt, schedule) else {
        return;
    };
    let Ok(text) = str::from_utf8(&bytes) else {
        return;
    };
    if let Ok(Some(text)) = step_text(rt.alloc(), schedule, text, step) {
        print(explaining, Ok(text));
    }
}

/// The system's error for a file that can't be written or made, as far as another try shows it,
/// which makes nothing.
fn refusal(rt: &HostRuntime, path: &str) -> Option<io::Error> {
    if is_special(rt, path) {
        return None;
    }
    let (folder, _) = folder_and_name(path);
    let has_folder = SystemFiles::new(rt).identity(folder).is_some();
    match OpenOptions::new().append(true).open(rt, path) {
        Err(error) if error.kind() == io::ErrorKind::NotFound && has_folder => None,
        Err(error) => Some(error),
        Ok(_) => None,
    }
}

/// Prints why a file can't be written or made: the system's error, or else what of the job is in
/// its way.
fn explain_unwritten(explaining: Explaining<'_>, job: &Job<'_>, path: &str) {
    let rt = explaining.runtime();
    if let Some(error) = refusal(rt, path) {
        let _ = eprintln!(rt; "{path}: {error}");
        return;
    }
    let reason = unwritten_reason(why_unwritten(rt, job, path));
    print(explaining, reason_text(rt.alloc(), path, reason));
}

/// Prints why the history of the stores in a folder can't be written.
fn explain_history(explaining: Explaining<'_>, job: &Job<'_>, folder: &str) {
    let rt = explaining.runtime();
    if let Ok(path) = history_path(rt.alloc(), folder) {
        explain_unwritten(explaining, job, &path);
    }
}

/// Prints why the store of a device in a folder can't be opened.
fn explain_store(explaining: Explaining<'_>, root: &str, device: u8, why: OpenFault) {
    let alloc = explaining.runtime().alloc();
    print(explaining, store_text(alloc, root, device, why));
}

/// Prints why what the agent keeps in a folder can't be opened.
fn explain_agent_store(explaining: Explaining<'_>, root: &str, why: OpenFault) {
    let alloc = explaining.runtime().alloc();
    print(explaining, agent_store_text(alloc, root, why));
}

/// Prints on standard error the clue to why a job failed, where faults are explained.
pub fn explain(rt: &HostRuntime, job: &Job<'_>, fault: &JobFault) {
    let Some(explaining) = Explaining::find(rt) else {
        return;
    };
    match clue_to(job, fault) {
        Some(Clue::Unread(path)) => explain_unreadable(explaining, path),
        Some(Clue::Other(path)) => explain_other(explaining, path),
        Some(Clue::Package(config)) => explain_package(explaining, config),
        Some(Clue::Line(path, fault)) => explain_line(explaining, path, fault),
        Some(Clue::Step(schedule, number)) => explain_step(explaining, schedule, number),
        Some(Clue::Unwritten(path)) => explain_unwritten(explaining, job, path),
        Some(Clue::History(folder)) => explain_history(explaining, job, folder),
        Some(Clue::Store(root, device, why)) => explain_store(explaining, root, device, why),
        Some(Clue::AgentStore(root, why)) => explain_agent_store(explaining, root, why),
        None => {}
    }
}

/// The warnings about the description of a package, which is read once more.
fn warnings_again(rt: &HostRuntime, path: &str) -> Option<Vec<u8>> {
    let bytes = read_again(rt, path)?;
    let spec = read_package_spec(rt.alloc(), &bytes).ok()?;
    warnings(rt.alloc(), path, &spec).ok()
}

/// Prints the warnings about the description of a package, if it can be read again.
fn print_warnings(explaining: Explaining<'_>, path: &str) {
    let rt = explaining.runtime();
    if let Some(text) = warnings_again(rt, path) {
        let _ = rt.stderr().write_all(&text);
    }
}

/// Prints on standard error the warnings about the description of a package that was built, where
/// faults are explained. If the description can't be read again, nothing is printed.
pub fn warn(rt: &HostRuntime, job: &Job<'_>) {
    let Job::Build { spec, .. } = job else {
        return;
    };
    if let Some(explaining) = Explaining::find(rt) {
        print_warnings(explaining, spec);
    }
}
