//! Why a file of a job can't be written, as far as another look at it shows.

ghost use Rattle.std.specs.Prelude.{◌≡◌};
ghost use Rattle.fwupd_clues.specs.Reasons.{reason_of_unwritten};

use crate::clue_lines::package_lines;
use fw_script::read_package_spec;
use fwupd_base::{ConfigSource, Show};
use fwupd_watch::{
    Files, Inputs, SystemFiles, is_one_path, is_over_read, is_same_file, is_special,
};
use fwupd_words::Job;
use std::str;

/// Why a file can't be written.
#[derive(Clone, Copy)]
pub(crate) enum Unwritten {
    /// It is a pipe, a device or a socket, which the job doesn't write.
    NotPlain,
    /// It is a link to no file.
    Dangling,
    /// It is another file of the job, too.
    Another,
    /// It is in the folder of stores, or in a store.
    InStore,
    /// Nothing of these holds.
    Unknown,
}

/// Returns why a file can't be written, in words.
pub(crate) fn unwritten_reason(why: Unwritten) -> &'static str
    ensures { result.now ≡ reason_of_unwritten why }
{
    match why {
        Unwritten::NotPlain => "it is no plain file",
        Unwritten::Dangling => "it is a link to no file",
        Unwritten::Another => "it is another file of this command, too",
        Unwritten::InStore => "it is in the folder of --store",
        Unwritten::Unknown => "writing failed, and its disk may be full",
    }
}

/// The bytes of a file, read once more. Standard input, a pipe, a device or a socket isn't read
/// again, since that may block.
pub(crate) fn read_again(rt: &HostRuntime, path: &str) -> Option<Vec<u8>> {
    if path == "-" || is_special(rt, path) {
        return None;
    }
    SystemFiles::new(rt).read(rt.alloc(), path).ok()
}

/// Whether a path names a package of the configuration in a file.
fn is_package(rt: &HostRuntime, config: &str, path: &str) -> bool {
    let files = SystemFiles::new(rt);
    let Some(bytes) = read_again(rt, config) else {
        return false;
    };
    let Ok(text) = str::from_utf8(&bytes) else {
        return false;
    };
    let Ok(lines) = package_lines(rt.alloc(), text) else {
        return false;
    };
    for (_, package) in &lines {
        if is_same_file(&files, package, path) {
            return true;
        }
    }
    false
}

/// Whether a path names a configuration, one of its packages, or the file of an image.
fn is_configured(rt: &HostRuntime, config: &ConfigSource<'_>, path: &str) -> bool {
    let files = SystemFiles::new(rt);
    is_over_read(&files, Some(path), Inputs::new(config, &[])) || is_package(rt, config.path, path)
}

/// Whether a path names an image of the description of a package in a file.
fn is_image(rt: &HostRuntime, spec: &str, path: &str) -> bool {
    let files = SystemFiles::new(rt);
    let Some(bytes) = read_again(rt, spec) else {
        return false;
    };
    let Ok(spec) = read_package_spec(rt.alloc(), &bytes) else {
        return false;
    };
    for component in &spec.components {
        if let Some(image) = &component.path
            && is_same_file(&files, image, path)
        {
            return true;
        }
    }
    false
}

/// Whether two outputs of a run or a replay are the file of a path.
fn is_written_twice(rt: &HostRuntime, show: &Show<'_>, path: &str) -> bool {
    let files = SystemFiles::new(rt);
    let trace = is_one_path(&files, show.trace, path);
    let log = is_one_path(&files, show.log, path);
    let record = is_one_path(&files, show.record, path);
    (trace && log) || (trace && record) || (log && record)
}

/// Whether an output of a job, at this path, is another file of the job, too.
fn is_another(rt: &HostRuntime, job: &Job<'_>, path: &str) -> bool {
    let files = SystemFiles::new(rt);
    match job {
        Job::Run(run) => {
            is_configured(rt, &run.config, path) || is_written_twice(rt, &run.show, path)
        }
        Job::Replay(replay) => {
            is_same_file(&files, replay.schedule, path)
                || is_configured(rt, &replay.config, path)
                || is_written_twice(rt, &replay.show, path)
        }
        Job::Soak(soak) => is_configured(rt, &soak.config, path),
        Job::Build { spec, .. } => is_same_file(&files, spec, path) || is_image(rt, spec, path),
        _ => false,
    }
}

/// Whether an output of a job, at this path, is in the folder of stores, if there is one.
fn is_stored(rt: &HostRuntime, job: &Job<'_>, path: &str) -> bool {
    let store = match job {
        Job::Run(run) => run.show.store,
        Job::Replay(replay) => replay.show.store,
        _ => None,
    };
    match store {
        Some(store) => SystemFiles::new(rt)
            .is_below(rt.alloc(), path, store)
            .unwrap_or(false),
        None => false,
    }
}

/// Whether a path names a pipe, a device or a socket, to which a job doesn't write.
fn is_not_plain(rt: &HostRuntime, job: &Job<'_>, path: &str) -> bool {
    match job {
        Job::Build { .. } | Job::Soak(_) => is_special(rt, path),
        _ => false,
    }
}

/// Whether a path is a link to no file.
fn is_dangling(rt: &HostRuntime, path: &str) -> bool {
    let files = SystemFiles::new(rt);
    files.is_link(path) && files.identity(path).is_none()
}

/// Returns why an output of a job, at this path, can't be written, if the system has no error.
pub(crate) fn why_unwritten(rt: &HostRuntime, job: &Job<'_>, path: &str) -> Unwritten {
    if is_not_plain(rt, job, path) {
        Unwritten::NotPlain
    } else if is_dangling(rt, path) {
        Unwritten::Dangling
    } else if is_another(rt, job, path) {
        Unwritten::Another
    } else if is_stored(rt, job, path) {
        Unwritten::InStore
    } else {
        Unwritten::Unknown
    }
}
