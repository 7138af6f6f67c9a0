//! A folder of the system.

ghost use Rattle.std.specs.Prelude.{◌≡◌, [], None, false, true};

use crate::folder::{Folder, FolderFault, RenameFault};
use crate::synced::SyncedFolder;
use crate::system::SystemFolderCalls;
use std::alloc::Global;
use std::fs;

/// The files of one folder of the system; their content isn't known to the proofs. It is a
/// `SyncedFolder` over the system's calls.
#[derive(Drop)]
pub struct SystemFolder<'a> {
    folder: SyncedFolder<SystemFolderCalls<'a>>,
}

impl<'a> SystemFolder<'a> {
    /// Returns the folder with this path. Creates it and its parents if they don't exist.
    ///
    /// # Errors
    /// `FolderFault` if it can't be created.
    pub fn make(rt: &'a HostRuntime, path: String) -> Result<SystemFolder<'a>, FolderFault> {
        match fs::create_dir_all(rt, path.as_str()) {
            Ok(()) => Ok(SystemFolder::new(rt, path)),
            Err(_) => Err(FolderFault),
        }
    }

    /// Returns the folder with this path, which may not exist: then it has no files, and none can
    /// be written.
    pub fn new(rt: &'a HostRuntime, path: String) -> SystemFolder<'a> {
        SystemFolder {
            folder: SyncedFolder::new(SystemFolderCalls::new(rt, path)),
        }
    }
}

impl<'a> Folder for SystemFolder<'a> {
    ghost is_known = { λ f. false };

    ghost may_fail = { λ f. true };

    ghost files = { λ f name. None };

    ghost stored = { λ f name. None };

    ghost lasting = { λ f name. None };

    ghost moments = { λ f. [] };

    fn read(&self, alloc: Global, name: &[u8]) -> Result<Option<Vec<u8>>, FolderFault> {
        self.folder.read(alloc, name)
    }

    fn write(&mut self, name: &[u8], bytes: &[u8]) -> Result<(), FolderFault> {
        self.folder.write(name, bytes)
    }

    fn rename(&mut self, name: &[u8], place: &[u8]) -> Result<(), RenameFault> {
        self.folder.rename(name, place)
    }

    fn remove(&mut self, name: &[u8]) -> Result<(), FolderFault> {
        self.folder.remove(name)
    }

    fn names(&self, alloc: Global) -> Result<Vec<Vec<u8>>, FolderFault> {
        self.folder.names(alloc)
    }
}
