//! A folder whose files are on the disk when a call on it ends.

ghost use Rattle.std.specs.Prelude.{◌≡◌, IfErr, OnOk, true};
ghost use Rattle.std.specs.Io.KnownBytes.{Appends};
ghost use Rattle.fw_store.specs.Folders.{IsMoment, LeavesFiles, RenamesFile, RenamesInOrder};

use crate::calls::FolderCalls;
use crate::durable::Durable;
use crate::folder::{Folder, FolderFault, RenameFault};
use std::alloc::Global;

/// A folder over the calls of a system. A file is written from its start, and its bytes are synced
/// to the disk before the call ends. A file is renamed when the names of all files are on the disk,
/// and its new name is synced then.
#[derive(Drop)]
pub struct SyncedFolder<C: Drop> {
    calls: C,
}

impl<C: Drop> SyncedFolder<C> {
    /// Creates the folder over these calls.
    pub fn new(calls: C) -> SyncedFolder<C>
        ensures { result.calls ≡ calls }
    {
        SyncedFolder { calls }
    }

    /// Returns the calls.
    pub fn calls(&self) -> &C
        ensures { result.now ≡ self.now.calls }
    {
        &self.calls
    }
}

/// Writes bytes to a file, and syncs them to the disk.
fn write_synced<W: Durable>(file: &mut W, bytes: &[u8]) -> Result<(), FolderFault>
    ensures written { OnOk result (Appends (W.contents file.old) (W.contents file.new) bytes.now) }
    ensures synced { OnOk result (W.on_disk file.new ≡ W.contents file.new) }
{
    if file.write_all(bytes).is_err() {
        return Err(FolderFault);
    }
    match file.persist() {
        Ok(()) => Ok(()),
        Err(_) => Err(FolderFault),
    }
}

impl<C: FolderCalls + Drop> Folder for SyncedFolder<C> {
    ghost is_known = { λ f. C.is_known f.calls };

    ghost may_fail = { λ f. C.may_fail f.calls };

    ghost files = { λ f. C.files f.calls };

    ghost stored = { λ f. C.stored f.calls };

    ghost lasting = { λ f. C.lasting f.calls };

    ghost moments = { λ f. C.moments f.calls };

    fn read(&self, alloc: Global, name: &[u8]) -> Result<Option<Vec<u8>>, FolderFault> {
        self.calls.read(alloc, name)
    }

    fn write(&mut self, name: &[u8], bytes: &[u8]) -> Result<(), FolderFault> {
        let mut file = self.calls.create(name)?;
        let written = write_synced(&mut file, bytes);
        self.calls.close(name, file)?;
        written
    }

    fn rename(&mut self, name: &[u8], place: &[u8]) -> Result<(), RenameFault>
        ensures known { C.is_known self.new.calls ≡ C.is_known self.old.calls }
        ensures ok { OnOk result (C.is_known self.old.calls ≡ true
            → RenamesFile (C.files self.old.calls) (C.files self.new.calls) name.now place.now) }
        ensures unchanged { IfErr result (λ e. e ≡ RenameFault.Unchanged
            → C.is_known self.old.calls ≡ true
            → LeavesFiles (C.files self.old.calls) (C.files self.new.calls)) }
        ensures unsure { IfErr result (λ e. e ≡ RenameFault.Unsure
            → C.is_known self.old.calls ≡ true
            → RenamesFile (C.files self.old.calls) (C.files self.new.calls) name.now place.now) }
        ensures stored { OnOk result (C.is_known self.old.calls ≡ true
            → RenamesFile (C.stored self.old.calls) (C.stored self.new.calls) name.now place.now) }
        ensures lasts { OnOk result (C.is_known self.old.calls ≡ true
            → LeavesFiles (C.stored self.new.calls) (C.lasting self.new.calls)) }
        ensures ordered { C.is_known self.old.calls ≡ true
            → RenamesInOrder (C.stored self.old.calls) (C.lasting self.old.calls)
            (C.lasting self.new.calls) name.now place.now }
        ensures moment { C.is_known self.old.calls ≡ true
            → IsMoment (C.files self.old.calls) (C.files self.new.calls) (C.moments self.old.calls)
            (C.moments self.new.calls) }
    {
        if self.calls.sync_names().is_err() || self.calls.rename(name, place).is_err() {
            return Err(RenameFault::Unchanged);
        }
        match self.calls.sync_names() {
            Ok(()) => Ok(()),
            Err(_) => Err(RenameFault::Unsure),
        }
    }

    fn remove(&mut self, name: &[u8]) -> Result<(), FolderFault> {
        self.calls.remove(name)
    }

    fn names(&self, alloc: Global) -> Result<Vec<Vec<u8>>, FolderFault> {
        self.calls.names(alloc)
    }
}
