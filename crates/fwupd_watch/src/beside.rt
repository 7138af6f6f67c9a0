//! The system calls that put a file at its place as a whole.

ghost use Rattle.std.specs.Prelude.{◌≡◌, ◌++◌, IfOk, None, OnErr, false, is_some, string_bytes};
ghost use Rattle.fwupd_watch.specs.Paths.{new_name};
ghost use Rattle.fwupd_watch.specs.Places.{may_replace};

use crate::faults::JobFault;
use crate::files::{Files, SystemFiles, folder_and_name};
use crate::places::{FileCalls, WholeFiles};
use std::alloc::{AllocError, Global};
use std::fs::{self, File, OpenOptions};
use std::io::{self, ErrorKind};
use std::process;

/// The most symbolic links that are followed one after the other, as in Linux.
const MOST_LINKS: usize = 40;

/// A new file beside its place.
#[derive(Drop)]
struct Made {
    name: String,
    place: String,
}

/// The system's files; contracts know nothing of them.
///
/// A new file is made beside the place that a path resolves to. If the path names a symbolic link,
/// that is beside the link's target, so no link is replaced. The new file's name is that of the
/// place, followed by the process identifier and `.new`, so files that a killed process left don't
/// collide. It has the permissions of the file that it replaces.
#[derive(Drop)]
pub struct SystemCalls<'a> {
    rt: &'a HostRuntime,
    /// The new file, until it is at its place. Its paths are stored so that no memory is needed at
    /// the end.
    made: Option<Made>,
}

/// Creates the system's places.
pub fn system_places(rt: &HostRuntime) -> WholeFiles<SystemCalls<'_>> {
    WholeFiles::new(SystemCalls { rt, made: None })
}

/// Joins two pieces of a path.
fn joined(alloc: Global, first: &str, second: &str) -> io::Result<String>
    ensures { IfOk result (λ path. string_bytes path ≡ first.now ++ second.now) }
{
    match format!(in alloc; "{first}{second}") {
        Ok(path) => Ok(path),
        Err(_) => Err(io::Error::from(ErrorKind::OutOfMemory)),
    }
}

/// The target of a symbolic link, if the path names one.
fn named_by(rt: &HostRuntime, link: &str) -> io::Result<Option<String>> {
    if !SystemFiles::new(rt).is_link(link) {
        return Ok(None);
    }
    let next = fs::read_link(rt, link)?;
    if next.is_absolute() {
        return Ok(Some(joined(rt.alloc(), next.as_str(), "")?));
    }
    let (folder, _) = folder_and_name(link);
    let folder = joined(rt.alloc(), folder, "/")?;
    Ok(Some(joined(rt.alloc(), &folder, next.as_str())?))
}

/// The place that a path resolves to, which is not a symbolic link.
fn place_of(rt: &HostRuntime, path: &str) -> io::Result<String> {
    let mut place = joined(rt.alloc(), path, "")?;
    for _ in 0..MOST_LINKS + 1 {
        match named_by(rt, &place)? {
            Some(next) => place = next,
            None => return Ok(place),
        }
    }
    Err(io::Error::from(ErrorKind::Other))
}

/// Whether a path still resolves to a place, and a file may be put there: nothing is there, or a
/// regular file that is writable. `found` is whether it is regular, and writable.
fn may_replace(is_one: bool, found: Option<(bool, bool)>) -> bool
    ensures { result ≡ may_replace is_one found }
{
    match found {
        Some((is_file, is_writable)) => is_one && is_file && is_writable,
        None => is_one,
    }
}

/// Whether what is at a place, if anything, is a regular file, and is one that is writable.
fn found_at(rt: &HostRuntime, place: &str) -> Option<(bool, bool)> {
    let Ok(found) = fs::metadata(rt, place) else {
        return None;
    };
    if !found.is_file() {
        return Some((false, false));
    }
    let is_writable = OpenOptions::new().append(true).open(rt, place).is_ok();
    Some((true, is_writable))
}

/// Whether a file may be put at the place that a path resolved to.
fn can_replace(rt: &HostRuntime, path: &str, place: &str) -> bool {
    let files = SystemFiles::new(rt);
    let is_one = files.identity(path) == files.identity(place);
    may_replace(is_one, found_at(rt, place))
}

/// The name of a new file beside a place, made by the process with this identifier.
fn new_name(alloc: Global, place: &str, id: u32) -> Result<String, AllocError>
    ensures { IfOk result (λ name. string_bytes name ≡ new_name place.now id) }
{
    match format!(in alloc; "{place}.{id}.new") {
        Ok(name) => Ok(name),
        Err(_) => Err(AllocError),
    }
}

/// Makes a file of this name, with the permissions of the file at `place`, if there is one.
fn make_like(rt: &HostRuntime, name: &str, place: &str) -> io::Result<File> {
    let file = File::create_new(rt, name)?;
    if let Ok(found) = fs::metadata(rt, place) {
        let _ = file.set_permissions(found.permissions());
    }
    Ok(file)
}

impl<'a> SystemCalls<'a> {
    /// Makes a file beside the place that a path resolves to.
    fn make_beside(&mut self, path: &str) -> io::Result<File>
        ensures made { OnErr result (self.new.made ≡ self.old.made) }
    {
        let place = place_of(self.rt, path)?;
        if !can_replace(self.rt, path, &place) {
            return Err(io::Error::from(ErrorKind::Other));
        }
        let id = process::id(self.rt.process());
        let Ok(name) = new_name(self.rt.alloc(), &place, id) else {
            return Err(io::Error::from(ErrorKind::OutOfMemory));
        };
        let file = make_like(self.rt, &name, &place)?;
        self.made = Some(Made { name, place });
        Ok(file)
    }
}

impl<'a> FileCalls<File> for SystemCalls<'a> {
    ghost is_known = { λ c. false };

    ghost held = { λ c path. None };

    ghost lasting = { λ c path. None };

    ghost is_made = { λ c. is_some c.made };

    fn make(&mut self, path: &str) -> Result<File, JobFault> {
        match self.make_beside(path) {
            Ok(file) => Ok(file),
            Err(error) if error.kind() == ErrorKind::OutOfMemory => Err(JobFault::Memory),
            Err(_) => Err(JobFault::Output),
        }
    }

    fn rename(&mut self, _path: &str, _file: &File) -> Result<(), JobFault> {
        let Some(made) = &self.made else {
            return Err(JobFault::Output);
        };
        match fs::rename(self.rt, made.name.as_str(), made.place.as_str()) {
            Ok(()) => {}
            Err(_) => return Err(JobFault::Output),
        }
        // The file is at its place; a failure to sync its directory entry is not an error.
        let (folder, _) = folder_and_name(&made.place);
        if let Ok(folder) = File::open(self.rt, folder) {
            let _ = folder.sync_all();
        }
        self.made = None;
        Ok(())
    }

    fn remove(&mut self) {
        if let Some(made) = self.made.take() {
            let _ = fs::remove_file(self.rt, made.name.as_str());
        }
    }
}
