//! Folders of files.

ghost use Rattle.std.specs.Prelude.{◌≡◌, ◌⊎◌, Bool, IfErr, IfOk, List, OnErr, OnOk, Option, map, option_map, true, ℕ};
ghost use Rattle.fw_store.specs.Folders.{ChangesOnlyFile, IsMoment, LeavesFiles, NamesFiles, RemovesFile, RenamesFile, RenamesInOrder, WritesFile};

use std::alloc::Global;
use thiserror::Error;

/// A call on a file failed.
#[derive(Clone, Copy, Debug, PartialEq, Eq, Error)]
#[error("Folder")]
pub struct FolderFault;

/// Why a file couldn't be renamed.
#[derive(Clone, Copy, Debug, PartialEq, Eq, Error)]
pub enum RenameFault {
    /// Nothing has changed.
    #[error("Unchanged")]
    Unchanged,
    /// The file may have its new name, and may lose it again in a crash.
    #[error("Unsure")]
    Unsure,
}

/// The files of one folder. A crash during a call leaves a state that an error of that call may
/// leave.
///
/// If the content is known, `files` are the bytes of each name, and `moments` are the states of the
/// files, one after each call that changed any, the last one first. `stored` are the bytes of each
/// name that are on the disk, and `lasting` those that a loss of power leaves, which depends on the
/// names that are on the disk. `may_fail` is whether reading or removing a file can fail.
pub trait Folder {
    ghost is_known: { Self → Bool };

    ghost may_fail: { Self → Bool };

    ghost files: { Self → List ℕ → Option (List ℕ) };

    ghost stored: { Self → List ℕ → Option (List ℕ) };

    ghost lasting: { Self → List ℕ → Option (List ℕ) };

    ghost moments: { Self → List (List ℕ → Option (List ℕ)) };

    /// Returns the bytes of a file, if it exists.
    ///
    /// # Errors
    /// The file can't be read, or memory can't be allocated.
    fn read(&self, alloc: Global, name: &[u8]) -> Result<Option<Vec<u8>>, FolderFault>
        ensures value { IfOk result (λ r. is_known self.now ≡ true → option_map (λ b. b.items) r ≡ files self.now name.now) }
        ensures fault { OnErr result (may_fail self.now ≡ true) };

    /// Writes a file and syncs its bytes to the disk. An existing file loses its bytes first.
    ///
    /// # Errors
    /// The file can't be written entirely. Then nothing is known of this file.
    fn write(&mut self, name: &[u8], bytes: &[u8]) -> Result<(), FolderFault>
        ensures known { is_known self.new ≡ is_known self.old }
        ensures ok { OnOk result (is_known self.old ≡ true → WritesFile (files self.old) (files self.new) name.now bytes.now) }
        ensures err { OnErr result (is_known self.old ≡ true → ChangesOnlyFile (files self.old) (files self.new) name.now) }
        ensures stored { OnOk result (is_known self.old ≡ true
            → WritesFile (stored self.old) (stored self.new) name.now bytes.now) }
        ensures stays { is_known self.old ≡ true
            → ChangesOnlyFile (stored self.old) (stored self.new) name.now
            × ChangesOnlyFile (lasting self.old) (lasting self.new) name.now }
        ensures moment { is_known self.old ≡ true
            → IsMoment (files self.old) (files self.new) (moments self.old) (moments self.new) };

    /// Renames a file, replacing the file with the new name, entirely or not at all, and syncs the
    /// names of all files to the disk. At a loss of power, the file has its new name only if each
    /// other file has its own.
    ///
    /// # Errors
    /// Nothing has changed, or the file may have its new name and a crash may undo it.
    fn rename(&mut self, name: &[u8], place: &[u8]) -> Result<(), RenameFault>
        ensures known { is_known self.new ≡ is_known self.old }
        ensures ok { OnOk result (is_known self.old ≡ true → RenamesFile (files self.old) (files self.new) name.now place.now) }
        ensures unchanged { IfErr result (λ e. e ≡ RenameFault.Unchanged
            → is_known self.old ≡ true
            → LeavesFiles (files self.old) (files self.new)) }
        ensures unsure { IfErr result (λ e. e ≡ RenameFault.Unsure
            → is_known self.old ≡ true
            → LeavesFiles (files self.old) (files self.new)
            ⊎ RenamesFile (files self.old) (files self.new) name.now place.now) }
        ensures stored { OnOk result (is_known self.old ≡ true
            → RenamesFile (stored self.old) (stored self.new) name.now place.now) }
        ensures lasts { OnOk result (is_known self.old ≡ true → LeavesFiles (stored self.new) (lasting self.new)) }
        ensures ordered { is_known self.old ≡ true
            → RenamesInOrder (stored self.old) (lasting self.old) (lasting self.new) name.now
            place.now }
        ensures moment { is_known self.old ≡ true
            → IsMoment (files self.old) (files self.new) (moments self.old) (moments self.new) };

    /// Removes a file.
    ///
    /// # Errors
    /// The file can't be removed. Then nothing is known of this file.
    fn remove(&mut self, name: &[u8]) -> Result<(), FolderFault>
        ensures known { is_known self.new ≡ is_known self.old }
        ensures fails { may_fail self.new ≡ may_fail self.old }
        ensures fault { OnErr result (may_fail self.old ≡ true) }
        ensures ok { OnOk result (is_known self.old ≡ true → RemovesFile (files self.old) (files self.new) name.now) }
        ensures stays { is_known self.old ≡ true
            → ChangesOnlyFile (stored self.old) (stored self.new) name.now
            × ChangesOnlyFile (lasting self.old) (lasting self.new) name.now }
        ensures others { is_known self.old ≡ true → ChangesOnlyFile (files self.old) (files self.new) name.now }
        ensures moment { is_known self.old ≡ true
            → IsMoment (files self.old) (files self.new) (moments self.old) (moments self.new) };

    /// Returns the names of the files.
    ///
    /// # Errors
    /// The names can't be read, or memory can't be allocated.
    fn names(&self, alloc: Global) -> Result<Vec<Vec<u8>>, FolderFault>
        ensures names { IfOk result (λ names. is_known self.now ≡ true
            → NamesFiles (map (λ name. name.items) names.items) (files self.now)) }
        ensures fault { OnErr result (may_fail self.now ≡ true) };
}
