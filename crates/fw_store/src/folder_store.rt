//! A store in a folder.

ghost use Rattle.std.specs.Prelude.{◌≡◌, ◌⊎◌, ◌+◌, IfErr, IfOk, OnErr, OnOk, false, map, true};
ghost use Rattle.fw_store.specs.Active.{active_text};
ghost use Rattle.fw_store.specs.Folders.{IsAfter, IsBefore, IsBeforeOrAfter, NamesFiles, PassesStates};
ghost use Rattle.fw_store.specs.Keeping.{HoldsText, IsSettledIfKnown, entries_after};
ghost use Rattle.fw_store.specs.Kept.{kept_after};
ghost use Rattle.fw_store.specs.Opening.{IsUntouched};
ghost use Rattle.fw_store.specs.Strays.{ChangesOnlyStrays, RemovesStrays};

use crate::entry::ImageEntry;
use crate::faults::OpenFault;
use crate::folder::{Folder, RenameFault};
use crate::lines::{are_apart, entries_after};
use crate::memory::{MemStore, Stored};
use crate::putting::put_images;
use crate::store::{Kept, Store, StoreFault};
use crate::sweeping::sweep;
use std::alloc::Global;

/// A store over the files of a folder, with its images in memory too.
///
/// The store is settled if the folder's `active` has its lines, the lines' images are there, and
/// the number of each line is below the store's next one. A number is used once, even if the call
/// fails; a call that doesn't use it changes nothing.
/// The store is sure until the folder can't report whether a text replaced `active`. Then it keeps
/// no more images, and the next opening of the folder finds the images that were kept or those that
/// were to be kept.
#[derive(Drop)]
pub struct FolderStore<F: Folder + Drop> {
    alloc: Global,
    folder: F,
    memory: MemStore,
    entries: Vec<ImageEntry>,
    next: u64,
    is_sure: bool,
}

impl<F: Folder + Drop> FolderStore<F> {
    /// Returns a store that is sure of the folder's content.
    pub(crate) fn new(
        alloc: Global,
        folder: F,
        memory: MemStore,
        entries: Vec<ImageEntry>,
        next: u64,
    ) -> FolderStore<F>
        ensures folder { result.folder ≡ folder }
        ensures kept { result.memory.images.items ≡ memory.images.items }
        ensures lines { result.entries.items ≡ entries.items }
        ensures next { result.next ≡ next }
        ensures sure { result.is_sure ≡ true }
    {
        FolderStore {
            alloc,
            folder,
            memory,
            entries,
            next,
            is_sure: true,
        }
    }

    /// Returns the folder, and drops the store.
    pub fn into_folder(self) -> F
        ensures { result ≡ self.folder }
    {
        self.folder
    }

    /// Returns the folder.
    pub fn folder(&self) -> &F
        ensures { result.now ≡ self.now.folder }
    {
        &self.folder
    }

    /// Returns the kept images.
    pub fn images(&self) -> &[Stored]
        ensures { result.now ≡ self.now.memory.images.items }
    {
        self.memory.images()
    }

    /// Returns the names of the folder's files.
    fn names(&self) -> Result<Vec<Vec<u8>>, OpenFault>
        ensures names { IfOk result (λ names. F.is_known self.now.folder ≡ true
            → NamesFiles (map (λ name. name.items) names.items) (F.files self.now.folder)) }
        ensures fault { IfErr result (λ e. (e ≡ OpenFault.Unreadable) × (F.may_fail self.now.folder ≡ true)) }
    {
        match self.folder.names(self.alloc) {
            Ok(names) => Ok(names),
            Err(_) => Err(OpenFault::Unreadable),
        }
    }

    /// Removes the files of a store that `active` doesn't name, which a crash may leave. A file
    /// that can't be removed stays.
    ///
    /// # Errors
    /// `Unreadable` if the folder can't list its files; then all files stay. `Memory`: some files
    /// may be removed.
    #[tactic(auto, using(crate::proofs::Swept::cleaning))]
    pub fn sweep(&mut self) -> Result<(), OpenFault>
        ensures kept { self.new.memory ≡ self.old.memory }
        ensures lines { self.new.entries ≡ self.old.entries }
        ensures next { self.new.next ≡ self.old.next }
        ensures sure { self.new.is_sure ≡ self.old.is_sure }
        ensures known { F.is_known self.new.folder ≡ F.is_known self.old.folder }
        ensures untouched { F.is_known self.old.folder ≡ true
            → IsUntouched self.old.entries.items (F.files self.old.folder)
            (F.files self.new.folder) }
        ensures settled { IsSettledIfKnown (F.is_known self.old.folder) self.old.is_sure
            self.old.next (F.files self.old.folder) self.old.entries.items
            → IsSettledIfKnown (F.is_known self.new.folder) self.new.is_sure self.new.next
            (F.files self.new.folder) self.new.entries.items }
        ensures same { IsSettledIfKnown (F.is_known self.old.folder) self.old.is_sure self.old.next
            (F.files self.old.folder) self.old.entries.items
            → F.is_known self.old.folder ≡ true
            → self.old.is_sure ≡ true
            → IsBefore (F.files self.old.folder) (F.files self.new.folder) }
        ensures moments { IsSettledIfKnown (F.is_known self.old.folder) self.old.is_sure
            self.old.next (F.files self.old.folder) self.old.entries.items
            → F.is_known self.old.folder ≡ true
            → self.old.is_sure ≡ true
            → PassesStates (IsBefore (F.files self.old.folder)) (F.moments self.old.folder)
            (F.moments self.new.folder) }
        ensures only { F.is_known self.old.folder ≡ true
            → ChangesOnlyStrays self.old.entries.items (F.files self.old.folder)
            (F.files self.new.folder) }
        ensures swept { OnOk result (F.is_known self.old.folder ≡ true
            → F.may_fail self.old.folder ≡ false
            → RemovesStrays self.old.entries.items (F.files self.old.folder)
            (F.files self.new.folder)) }
        ensures unread { IfErr result (λ e. e ≡ OpenFault.Unreadable
            → (self.new ≡ self.old) × (F.may_fail self.old.folder ≡ true)) }
        ensures fault { IfErr result (λ e. (e ≡ OpenFault.Unreadable) ⊎ (e ≡ OpenFault.Memory)) }
    {
        let names = match self.names() {
            Ok(names) => names,
            Err(fault) => return Err(fault),
        };
        match sweep(
            self.alloc,
            &mut self.folder,
            self.entries.as_slice(),
            names.as_slice(),
        ) {
            Ok(()) => Ok(()),
            Err(_) => Err(OpenFault::Memory),
        }
    }

    /// Keeps images: their files are written first, and then the text that names them.
    ///
    /// # Errors
    /// The folder fails, memory can't be allocated, two of the images are of one component, or the
    /// store isn't sure any more. The images kept before are still kept.
    #[tactic(auto, using(crate::proofs::Ending::ending))]
    pub fn put(&mut self, images: &[Kept<'_>]) -> Result<(), StoreFault>
        ensures ok { OnOk result (self.new.memory.images.items ≡ kept_after self.old.memory.images.items images.now) }
        ensures err { OnErr result (self.new.memory.images.items ≡ self.old.memory.images.items) }
        ensures known { F.is_known self.new.folder ≡ F.is_known self.old.folder }
        ensures sure { OnOk result (self.new.is_sure ≡ true) }
        ensures next { OnOk result (self.new.next ≡ self.old.next + 1) }
        ensures unused { OnErr result ((self.new.next ≡ self.old.next + 1) ⊎ (self.new ≡ self.old)) }
        ensures settled { IsSettledIfKnown (F.is_known self.old.folder) self.old.is_sure
            self.old.next (F.files self.old.folder) self.old.entries.items
            → IsSettledIfKnown (F.is_known self.new.folder) self.new.is_sure self.new.next
            (F.files self.new.folder) self.new.entries.items }
        ensures found { OnOk result (IsSettledIfKnown (F.is_known self.old.folder) self.old.is_sure
            self.old.next (F.files self.old.folder) self.old.entries.items
            → F.is_known self.old.folder ≡ true
            → IsAfter images.now (F.files self.old.folder) (F.files self.new.folder)) }
        ensures lasts { OnOk result (IsSettledIfKnown (F.is_known self.old.folder) self.old.is_sure
            self.old.next (F.stored self.old.folder) self.old.entries.items
            → F.is_known self.old.folder ≡ true
            → IsAfter images.now (F.stored self.old.folder) (F.lasting self.new.folder)) }
        ensures stored { OnOk result (IsSettledIfKnown (F.is_known self.old.folder)
            self.old.is_sure self.old.next (F.stored self.old.folder) self.old.entries.items
            → IsSettledIfKnown (F.is_known self.new.folder) self.new.is_sure self.new.next
            (F.stored self.new.folder) self.new.entries.items) }
        ensures stays { OnErr result (IsSettledIfKnown (F.is_known self.old.folder) self.old.is_sure
            self.old.next (F.files self.old.folder) self.old.entries.items
            → F.is_known self.old.folder ≡ true
            → self.new.is_sure ≡ true
            → IsBefore (F.files self.old.folder) (F.files self.new.folder)) }
        ensures unsure { OnErr result (self.old.is_sure ≡ true
            → self.new.is_sure ≡ false
            → F.is_known self.old.folder ≡ true
            → HoldsText (active_text (entries_after self.old.next images.now self.old.entries.items))
            (F.files self.new.folder)) }
        ensures moments { IsSettledIfKnown (F.is_known self.old.folder) self.old.is_sure
            self.old.next (F.files self.old.folder) self.old.entries.items
            → F.is_known self.old.folder ≡ true
            → PassesStates (IsBeforeOrAfter images.now (F.files self.old.folder))
            (F.moments self.old.folder) (F.moments self.new.folder) }
    {
        if !self.is_sure || !are_apart(images) {
            return Err(StoreFault);
        }
        let Ok(number) = u32::try_from(self.next) else {
            return Err(StoreFault);
        };
        self.next += 1;
        let Ok(memory) = self.memory.with(images) else {
            return Err(StoreFault);
        };
        let Ok(entries) = entries_after(self.alloc, number, images, self.entries.as_slice()) else {
            return Err(StoreFault);
        };
        match put_images(
            self.alloc,
            &mut self.folder,
            number,
            images,
            entries.as_slice(),
        ) {
            Ok(()) => {
                self.memory = memory;
                self.entries = entries;
                Ok(())
            }
            Err(RenameFault::Unchanged) => Err(StoreFault),
            Err(RenameFault::Unsure) => {
                self.is_sure = false;
                Err(StoreFault)
            }
        }
    }
}

impl<F: Folder + Drop> Store for FolderStore<F> {
    ghost kept = { λ s. s.memory.images.items };

    fn keep(&mut self, images: &[Kept<'_>]) -> Result<(), StoreFault>
        ensures ok { OnOk result (self.new.memory.images.items ≡ kept_after self.old.memory.images.items images.now) }
        ensures err { OnErr result (self.new.memory.images.items ≡ self.old.memory.images.items) }
        ensures found { OnOk result (IsSettledIfKnown (F.is_known self.old.folder) self.old.is_sure
            self.old.next (F.files self.old.folder) self.old.entries.items
            → F.is_known self.old.folder ≡ true
            → IsAfter images.now (F.files self.old.folder) (F.files self.new.folder)) }
        ensures lasts { OnOk result (IsSettledIfKnown (F.is_known self.old.folder) self.old.is_sure
            self.old.next (F.stored self.old.folder) self.old.entries.items
            → F.is_known self.old.folder ≡ true
            → IsAfter images.now (F.stored self.old.folder) (F.lasting self.new.folder)) }
        ensures next { OnOk result (self.new.next ≡ self.old.next + 1) }
    {
        self.put(images)
    }
}
