//! The calls of the system on the files of a folder.

ghost use Rattle.std.specs.Prelude.{◌≡◌, [], None, false, true};

use crate::calls::FolderCalls;
use crate::folder::FolderFault;
use std::alloc::Global;
use std::fs::{self, File};
use std::io::{ErrorKind, Read};

/// The calls of the system on the files of one of its folders; their content isn't known to the
/// proofs.
#[derive(Drop)]
pub(crate) struct SystemFolderCalls<'a> {
    rt: &'a HostRuntime,
    path: String,
}

impl<'a> SystemFolderCalls<'a> {
    /// Returns the calls on the files of the folder with this path.
    pub(crate) fn new(rt: &'a HostRuntime, path: String) -> SystemFolderCalls<'a> {
        SystemFolderCalls { rt, path }
    }

    /// Returns the path of a file.
    fn path_of(&self, name: &[u8]) -> Result<String, FolderFault> {
        let Ok(name) = str::from_utf8(name) else {
            return Err(FolderFault);
        };
        match format!(in self.rt.alloc(); "{}/{name}", self.path) {
            Ok(path) => Ok(path),
            Err(_) => Err(FolderFault),
        }
    }
}

/// Reads all bytes of a file.
fn read_whole(alloc: Global, file: &mut File) -> Result<Vec<u8>, FolderFault> {
    let size = match file.metadata() {
        Ok(found) => usize::try_from(found.len()).unwrap_or(0),
        Err(_) => 0,
    };
    let mut bytes = Vec::new(alloc);
    let Ok(()) = bytes.reserve(size.saturating_add(1)) else {
        return Err(FolderFault);
    };
    match file.read_to_end(&mut bytes) {
        Ok(_) => Ok(bytes),
        Err(_) => Err(FolderFault),
    }
}

/// Returns a copy of a name.
fn copied(alloc: Global, name: &str) -> Result<Vec<u8>, FolderFault> {
    let mut bytes = Vec::new(alloc);
    match bytes.extend_from_slice(name.as_bytes()) {
        Ok(()) => Ok(bytes),
        Err(_) => Err(FolderFault),
    }
}

impl<'a> FolderCalls for SystemFolderCalls<'a> {
    type File = File;

    ghost is_known = { λ c. false };

    ghost may_fail = { λ c. true };

    ghost files = { λ c name. None };

    ghost stored = { λ c name. None };

    ghost lasting = { λ c name. None };

    ghost moments = { λ c. [] };

    fn read(&self, alloc: Global, name: &[u8]) -> Result<Option<Vec<u8>>, FolderFault> {
        let path = self.path_of(name)?;
        match File::open(self.rt, path.as_str()) {
            Ok(file) => {
                let mut file = file;
                match read_whole(alloc, &mut file) {
                    Ok(bytes) => Ok(Some(bytes)),
                    Err(fault) => Err(fault),
                }
            }
            Err(error) if error.kind() == ErrorKind::NotFound => Ok(None),
            Err(_) => Err(FolderFault),
        }
    }

    fn create(&mut self, name: &[u8]) -> Result<File, FolderFault> {
        let path = self.path_of(name)?;
        match File::create(self.rt, path.as_str()) {
            Ok(file) => Ok(file),
            Err(_) => Err(FolderFault),
        }
    }

    fn close(&mut self, _name: &[u8], _file: File) -> Result<(), FolderFault> {
        Ok(())
    }

    fn rename(&mut self, name: &[u8], place: &[u8]) -> Result<(), FolderFault> {
        let name = self.path_of(name)?;
        let place = self.path_of(place)?;
        match fs::rename(self.rt, name.as_str(), place.as_str()) {
            Ok(()) => Ok(()),
            Err(_) => Err(FolderFault),
        }
    }

    fn remove(&mut self, name: &[u8]) -> Result<(), FolderFault> {
        let path = self.path_of(name)?;
        match fs::remove_file(self.rt, path.as_str()) {
            Ok(()) => Ok(()),
            Err(_) => Err(FolderFault),
        }
    }

    fn sync_names(&mut self) -> Result<(), FolderFault> {
        let Ok(folder) = File::open(self.rt, self.path.as_str()) else {
            return Err(FolderFault);
        };
        match folder.sync_all() {
            Ok(()) => Ok(()),
            Err(_) => Err(FolderFault),
        }
    }

    fn names(&self, alloc: Global) -> Result<Vec<Vec<u8>>, FolderFault> {
        let Ok(listing) = fs::read_dir(self.rt, self.path.as_str()) else {
            return Err(FolderFault);
        };
        let mut names = Vec::new(alloc);
        for entry in listing {
            let Ok(entry) = entry else {
                return Err(FolderFault);
            };
            match copied(alloc, entry.file_name()) {
                Ok(name) => {
                    let Ok(()) = names.push(name) else {
                        return Err(FolderFault);
                    };
                }
                Err(fault) => return Err(fault),
            }
        }
        Ok(names)
    }
}
