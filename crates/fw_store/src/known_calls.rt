//! The calls on a folder in memory whose content is known, also after a loss of power.

ghost use Rattle.std.specs.Prelude.{◌≡◌, ◌∷◌, ◌++◌, [], OnErr, OnOk, Some, true};
ghost use Rattle.fw_store.specs.Changes.{files_of, states_of};

use crate::calls::FolderCalls;
use crate::durable::Durable;
use crate::folder::{Folder, FolderFault};
use crate::known::{Change, Failing, Kind, KnownFolder, change_of, copied};
use std::alloc::{AllocError, Global};
use std::io::{self, ErrorKind, Write};

/// An open file in memory.
#[derive(Drop)]
pub struct KnownFile {
    alloc: Global,
    bytes: Vec<u8>,
    synced: Vec<u8>,
}

impl Write for KnownFile {
    ghost contents = { λ f. Some f.bytes.items };

    fn write(&mut self, buf: &[u8]) -> io::Result<usize> {
        self.bytes.write(buf)
    }

    fn flush(&mut self) -> io::Result<()> {
        Ok(())
    }
}

impl Durable for KnownFile {
    ghost on_disk = { λ f. Some f.synced.items };

    fn persist(&mut self) -> io::Result<()> {
        match copied(self.alloc, &self.bytes) {
            Ok(bytes) => {
                self.synced = bytes;
                Ok(())
            }
            Err(_) => Err(io::Error::from(ErrorKind::OutOfMemory)),
        }
    }
}

/// The calls on a folder in memory that began empty. The writing call with one given number and all
/// after it fail and change nothing: the power is off. So does each for which memory can't be
/// allocated.
///
/// A name is on the disk when the names are synced. A new name of a file is on the disk at once if
/// the folder is early.
#[derive(Drop)]
pub struct KnownCalls {
    alloc: Global,
    files: KnownFolder,
    stored: KnownFolder,
    lasting: KnownFolder,
    calls: u32,
    fails: u32,
    is_early: bool,
}

impl KnownCalls {
    /// Returns the calls on an empty folder. Those from the number `fails` on fail; none does if
    /// the number is 0.
    pub fn new(alloc: Global, fails: u32, is_early: bool) -> KnownCalls
        ensures files { result.files.changes.items ≡ [] }
        ensures stored { result.stored.changes.items ≡ [] }
        ensures lasting { result.lasting.changes.items ≡ [] }
    {
        KnownCalls {
            alloc,
            files: KnownFolder::new(alloc, 0, Failing::Before),
            stored: KnownFolder::new(alloc, 0, Failing::Before),
            lasting: KnownFolder::new(alloc, 0, Failing::Before),
            calls: 0,
            fails,
            is_early,
        }
    }

    /// Returns the folder that a loss of power leaves.
    pub fn lasting(&self) -> &KnownFolder
        ensures { result.now ≡ self.now.lasting }
    {
        &self.lasting
    }

    /// Counts a call, and returns whether the power is off.
    fn is_off(&mut self) -> bool
        ensures files { self.new.files ≡ self.old.files }
        ensures stored { self.new.stored ≡ self.old.stored }
        ensures lasting { self.new.lasting ≡ self.old.lasting }
    {
        self.calls = self.calls.saturating_add(1);
        self.fails > 0 && self.calls >= self.fails
    }

    /// Records a change of the files, and of the bytes on the disk, or of neither.
    fn note(&mut self, kind: Kind, name: &[u8], other: &[u8]) -> Result<(), FolderFault>
        ensures files { OnOk result (self.new.files.changes.items ≡ self.old.files.changes.items
            ++ record { kind = kind; name = name.now; other = other.now } ∷ []) }
        ensures stored { OnOk result (self.new.stored.changes.items
            ≡ self.old.stored.changes.items
            ++ record { kind = kind; name = name.now; other = other.now } ∷ []) }
        ensures none { OnErr result ((self.new.files.changes.items
            ≡ self.old.files.changes.items)
            × (self.new.stored.changes.items ≡ self.old.stored.changes.items)) }
        ensures lasting { self.new.lasting ≡ self.old.lasting }
    {
        if self.is_off() {
            return Err(FolderFault);
        }
        let Ok(first) = change_of(self.alloc, kind, name, other) else {
            return Err(FolderFault);
        };
        let Ok(second) = change_of(self.alloc, kind, name, other) else {
            return Err(FolderFault);
        };
        match note_both(&mut self.files, &mut self.stored, first, second) {
            Ok(()) => Ok(()),
            Err(_) => Err(FolderFault),
        }
    }
}

/// Records a change in two folders, or in none.
fn note_both(
    first: &mut KnownFolder,
    second: &mut KnownFolder,
    one: Change,
    other: Change,
) -> Result<(), AllocError>
    ensures first { OnOk result (first.new.changes.items ≡ first.old.changes.items ++ one ∷ []) }
    ensures second { OnOk result (second.new.changes.items ≡ second.old.changes.items ++ other ∷ []) }
    ensures none { OnErr result ((first.new.changes.items ≡ first.old.changes.items)
        × (second.new.changes.items ≡ second.old.changes.items)) }
{
    let Ok(()) = first.changes.reserve(1) else {
        return Err(AllocError);
    };
    let Ok(()) = second.changes.reserve(1) else {
        return Err(AllocError);
    };
    let _ = first.changes.push(one);
    let _ = second.changes.push(other);
    Ok(())
}

impl FolderCalls for KnownCalls {
    type File = KnownFile;

    ghost is_known = { λ c. true };

    ghost may_fail = { λ c. true };

    ghost files = { λ c. files_of c.files.changes.items };

    ghost stored = { λ c. files_of c.stored.changes.items };

    ghost lasting = { λ c. files_of c.lasting.changes.items };

    ghost moments = { λ c. states_of c.files.changes.items };

    fn read(&self, alloc: Global, name: &[u8]) -> Result<Option<Vec<u8>>, FolderFault> {
        self.files.read(alloc, name)
    }

    #[tactic(auto, using(crate::proofs::Changes::calling))]
    fn create(&mut self, _name: &[u8]) -> Result<KnownFile, FolderFault> {
        if self.is_off() {
            return Err(FolderFault);
        }
        Ok(KnownFile {
            alloc: self.alloc,
            bytes: Vec::new(self.alloc),
            synced: Vec::new(self.alloc),
        })
    }

    #[tactic(auto, using(crate::proofs::Changes::calling))]
    fn close(&mut self, name: &[u8], file: KnownFile) -> Result<(), FolderFault> {
        if self.is_off() {
            return Err(FolderFault);
        }
        self.files.put(name, &file.bytes)?;
        self.stored.put(name, &file.synced)?;
        if self.lasting.bytes(name).is_some() {
            self.lasting.put(name, &file.synced)?;
        }
        Ok(())
    }

    #[tactic(auto, using(crate::proofs::Changes::calling))]
    fn rename(&mut self, name: &[u8], place: &[u8]) -> Result<(), FolderFault> {
        let Ok(()) = self.note(Kind::Moved, name, place) else {
            return Err(FolderFault);
        };
        if self.is_early
            && let Some(bytes) = self.stored.bytes(place)
        {
            let _ = self.lasting.put(place, bytes);
        }
        Ok(())
    }

    #[tactic(auto, using(crate::proofs::Changes::calling))]
    fn remove(&mut self, name: &[u8]) -> Result<(), FolderFault> {
        match self.note(Kind::Gone, name, &[]) {
            Ok(()) => Ok(()),
            Err(fault) => Err(fault),
        }
    }

    #[tactic(auto, using(crate::proofs::Changes::syncing))]
    fn sync_names(&mut self) -> Result<(), FolderFault> {
        if self.is_off() {
            return Err(FolderFault);
        }
        match self.stored.after(self.stored.count()) {
            Ok(folder) => {
                self.lasting = folder;
                Ok(())
            }
            Err(_) => Err(FolderFault),
        }
    }

    fn names(&self, alloc: Global) -> Result<Vec<Vec<u8>>, FolderFault> {
        self.files.names(alloc)
    }
}
