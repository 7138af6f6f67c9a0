//! The calls of the system on the files of one folder.

ghost use Rattle.std.specs.Prelude.{◌≡◌, ◌∷◌, [], Bool, IfErr, IfOk, IfSome, List, OnErr, OnOk, Option, Some, map, option_map, true, ℕ};
ghost use Rattle.fw_store.specs.Folders.{ChangesOnlyFile, IsMoment, LastsApartFrom, LeavesFiles, NamesFiles, RemovesFile, RenamesFile, SettlesNames, WritesFile};

use crate::durable::Durable;
use crate::folder::FolderFault;
use std::alloc::Global;

/// The calls of the system on the files of one folder, of which `SyncedFolder` makes a `Folder`.
///
/// In contracts, if the content is known, `files`, `stored`, `lasting` and `moments` are those of
/// `Folder`, and so is `may_fail`. While a file is open, its name may have any beginning of its
/// bytes: a crash then has the effect of an error of `close`, so `moments` has no state for it.
pub trait FolderCalls {
    /// An open file.
    type File: Durable + Drop;

    ghost is_known: { Self → Bool };

    ghost may_fail: { Self → Bool };

    ghost files: { Self → List ℕ → Option (List ℕ) };

    ghost stored: { Self → List ℕ → Option (List ℕ) };

    ghost lasting: { Self → List ℕ → Option (List ℕ) };

    ghost moments: { Self → List (List ℕ → Option (List ℕ)) };

    /// Returns the bytes of a file, if it exists.
    ///
    /// # Errors
    /// The file can't be read, or memory can't be allocated.
    fn read(&self, alloc: Global, name: &[u8]) -> Result<Option<Vec<u8>>, FolderFault>
        ensures value { IfOk result (λ r. is_known self.now ≡ true → option_map (λ b. b.items) r ≡ files self.now name.now) }
        ensures fault { OnErr result (may_fail self.now ≡ true) };

    /// Opens an empty file. An existing file of this name loses its bytes.
    ///
    /// # Errors
    /// The file can't be opened. Then nothing is known of it.
    fn create(&mut self, name: &[u8]) -> Result<Self::File, FolderFault>
        ensures known { is_known self.new ≡ is_known self.old }
        ensures empty { IfOk result (λ file. is_known self.old ≡ true → Self.File.contents file ≡ Some []) }
        ensures only { is_known self.old ≡ true → ChangesOnlyFile (files self.old) (files self.new) name.now }
        ensures stays { is_known self.old ≡ true
            → ChangesOnlyFile (stored self.old) (stored self.new) name.now
            × ChangesOnlyFile (lasting self.old) (lasting self.new) name.now }
        ensures opened { OnOk result (is_known self.old ≡ true
            → (files self.new ≡ files self.old) × (moments self.new ≡ moments self.old)) }
        ensures moment { OnErr result (is_known self.old ≡ true
            → IsMoment (files self.old) (files self.new) (moments self.old) (moments self.new)) };

    /// Closes a file: its name has what was written, and on the disk what was synced.
    ///
    /// # Errors
    /// The file isn't known to be whole. Then nothing is known of it.
    fn close(&mut self, name: &[u8], file: Self::File) -> Result<(), FolderFault>
        ensures known { is_known self.new ≡ is_known self.old }
        ensures files { OnOk result (is_known self.old ≡ true
            → IfSome (Self.File.contents file) (λ bytes. WritesFile (files self.old) (files self.new)
            name.now bytes)) }
        ensures stored { OnOk result (is_known self.old ≡ true
            → IfSome (Self.File.on_disk file) (λ bytes. WritesFile (stored self.old)
            (stored self.new) name.now bytes)) }
        ensures only { is_known self.old ≡ true → ChangesOnlyFile (files self.old) (files self.new) name.now }
        ensures stays { is_known self.old ≡ true
            → ChangesOnlyFile (stored self.old) (stored self.new) name.now
            × ChangesOnlyFile (lasting self.old) (lasting self.new) name.now }
        ensures moment { OnOk result (is_known self.old ≡ true → moments self.new ≡ files self.new ∷ moments self.old) }
        ensures failed { OnErr result (is_known self.old ≡ true
            → IsMoment (files self.old) (files self.new) (moments self.old) (moments self.new)) };

    /// Renames a file, replacing the file with the new name, entirely or not at all.
    ///
    /// # Errors
    /// Nothing has changed.
    fn rename(&mut self, name: &[u8], place: &[u8]) -> Result<(), FolderFault>
        ensures known { is_known self.new ≡ is_known self.old }
        ensures ok { OnOk result (is_known self.old ≡ true
            → RenamesFile (files self.old) (files self.new) name.now place.now
            × RenamesFile (stored self.old) (stored self.new) name.now place.now) }
        ensures err { OnErr result (is_known self.old ≡ true
            → LeavesFiles (files self.old) (files self.new)
            × LeavesFiles (stored self.old) (stored self.new)
            × LeavesFiles (lasting self.old) (lasting self.new)) }
        ensures stays { is_known self.old ≡ true → LastsApartFrom (lasting self.old) (lasting self.new) name.now place.now }
        ensures moment { is_known self.old ≡ true
            → IsMoment (files self.old) (files self.new) (moments self.old) (moments self.new) };

    /// Removes a file.
    ///
    /// # Errors
    /// The file can't be removed. Then nothing is known of this file.
    fn remove(&mut self, name: &[u8]) -> Result<(), FolderFault>
        ensures known { is_known self.new ≡ is_known self.old }
        ensures fails { may_fail self.new ≡ may_fail self.old }
        ensures fault { OnErr result (may_fail self.old ≡ true) }
        ensures ok { OnOk result (is_known self.old ≡ true → RemovesFile (files self.old) (files self.new) name.now) }
        ensures others { is_known self.old ≡ true → ChangesOnlyFile (files self.old) (files self.new) name.now }
        ensures stays { is_known self.old ≡ true
            → ChangesOnlyFile (stored self.old) (stored self.new) name.now
            × ChangesOnlyFile (lasting self.old) (lasting self.new) name.now }
        ensures moment { is_known self.old ≡ true
            → IsMoment (files self.old) (files self.new) (moments self.old) (moments self.new) };

    /// Syncs the names of all files to the disk.
    ///
    /// # Errors
    /// Some names may be on the disk, and some not.
    fn sync_names(&mut self) -> Result<(), FolderFault>
        ensures known { is_known self.new ≡ is_known self.old }
        ensures lasts { OnOk result (is_known self.old ≡ true → LeavesFiles (stored self.old) (lasting self.new)) }
        ensures settles { is_known self.old ≡ true → SettlesNames (stored self.old) (lasting self.old) (lasting self.new) }
        ensures same { is_known self.old ≡ true
            → (files self.new ≡ files self.old) × (stored self.new ≡ stored self.old)
            × (moments self.new ≡ moments self.old) };

    /// Returns the names of the files.
    ///
    /// # Errors
    /// The names can't be read, or memory can't be allocated.
    fn names(&self, alloc: Global) -> Result<Vec<Vec<u8>>, FolderFault>
        ensures names { IfOk result (λ names. is_known self.now ≡ true
            → NamesFiles (map (λ name. name.items) names.items) (files self.now)) }
        ensures fault { OnErr result (may_fail self.now ≡ true) };
}
