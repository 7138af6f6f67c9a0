//! A folder in memory whose content, present and past, is known.

ghost use Rattle.std.specs.Prelude.{◌≡◌, ◌∷◌, ◌++◌, ◌+◌, ◌-◌, ◌<◌, ◌^◌, ◌⊎◌, [], IfErr, IfOk, List, None, OnErr, OnOk, Option, Some, length, map, option_map, take, true, ℕ};
ghost use Rattle.fw_store.specs.Folders.{ChangesOnlyFile, IsMoment, WritesFile, has_name};
ghost use Rattle.fw_store.specs.Changes.{ListsName, failure_of, files_after_change, files_of, may_remove, moved_to, name_after, removal_of, seen_by, states_of, unsure_changes};

use crate::folder::{Folder, FolderFault, RenameFault};
use std::alloc::{AllocError, Global};
use std::marker::Model;

/// The effect of a call that fails.
#[derive(Clone, Copy, PartialEq, Eq)]
pub enum Failing {
    /// No effect.
    Before,
    /// A file has half of its bytes. A file to rename isn't renamed. A file to remove is removed.
    Half,
    /// The whole effect.
    After,
}

/// The kind of a change of a file.
#[derive(Clone, Copy, PartialEq, Eq)]
pub enum Kind {
    /// The file has new bytes.
    Put,
    /// The file has a new name.
    Moved,
    /// The file is removed.
    Gone,
}

/// A change of one file.
#[derive(Drop)]
pub(crate) struct Change {
    kind: Kind,
    name: Vec<u8>,
    /// The file's bytes, or its new name.
    other: Vec<u8>,
}

impl Model for Change {
    ghost use Rattle.fw_store.specs.Changes.{ChangeOf};

    ghost Value = { ChangeOf };

    ghost view = { λ c. record { kind = c.kind; name = c.name.items; other = c.other.items } };
}

/// A folder in memory that began empty and records each change. The writing call with one given
/// number fails, and so does each for which memory can't be allocated, which changes nothing.
#[derive(Drop)]
pub struct KnownFolder {
    alloc: Global,
    pub(crate) changes: Vec<Change>,
    calls: u32,
    fails: u32,
    failing: Failing,
}

/// Returns a copy of bytes.
pub(crate) fn copied(alloc: Global, bytes: &[u8]) -> Result<Vec<u8>, AllocError>
    ensures { IfOk result (λ copy. copy.items ≡ bytes.now) }
{
    let mut copy = Vec::new(alloc);
    copy.extend_from_slice(bytes)?;
    Ok(copy)
}

/// Returns a change of a file.
pub(crate) fn change_of(
    alloc: Global,
    kind: Kind,
    name: &[u8],
    other: &[u8],
) -> Result<Change, AllocError>
    ensures { IfOk result (λ c. c ≡ record { kind = kind; name = name.now; other = other.now }) }
{
    let name = copied(alloc, name)?;
    let other = copied(alloc, other)?;
    Ok(Change { kind, name, other })
}

/// The effect of the last change on the file with a name.
enum Seen<'a> {
    /// The file has these bytes.
    Bytes(&'a [u8]),
    /// The file doesn't exist.
    Nothing,
    /// The file had this name before the change.
    Before(&'a [u8]),
}

/// Returns the effect of a change on the file with a name.
fn see<'a>(change: &'a Change, name: &'a [u8]) -> Seen<'a>
    ensures { (files : List ℕ → Option (List ℕ)) → files_after_change change.now files name.now ≡ seen_by result files }
{
    match change.kind {
        Kind::Put if change.name.as_slice() == name => Seen::Bytes(&change.other),
        Kind::Moved if change.other.as_slice() == name => Seen::Before(&change.name),
        Kind::Moved | Kind::Gone if change.name.as_slice() == name => Seen::Nothing,
        _ => Seen::Before(name),
    }
}

/// Returns the name of the file that a change may have created.
fn new_name(change: &Change) -> &[u8]
    ensures { result.now ≡ name_after change.now }
{
    match change.kind {
        Kind::Moved => &change.other,
        Kind::Put | Kind::Gone => &change.name,
    }
}

/// Returns whether a name is in the list.
fn is_listed(names: &[Vec<u8>], name: &[u8]) -> bool
    ensures { result ≡ has_name (map (λ n. n.items) names.now) name.now }
{
    for other in names {
        if other.as_slice() == name {
            return true;
        }
    }
    false
}

impl KnownFolder {
    /// Returns an empty folder. The call with the number `fails` fails as `failing` says; none does
    /// if the number is 0.
    pub fn new(alloc: Global, fails: u32, failing: Failing) -> KnownFolder
        ensures { result.changes.items ≡ [] }
    {
        KnownFolder {
            alloc,
            changes: Vec::new(alloc),
            calls: 0,
            fails,
            failing,
        }
    }

    /// Returns the number of changes. The folder has been in a state after each of them.
    pub fn count(&self) -> usize
        ensures { result ≡ length self.now.changes.items }
    {
        self.changes.len()
    }

    /// Returns the folder after the first `count` changes, or the present folder if there were
    /// fewer. None of its calls fails.
    ///
    /// # Errors
    /// `AllocError` if memory can't be allocated.
    pub fn after(&self, count: usize) -> Result<KnownFolder, AllocError>
        ensures { IfOk result (λ f. f.changes.items ≡ take count self.now.changes.items) }
    {
        let mut folder = KnownFolder::new(self.alloc, 0, Failing::Before);
        for place in 0..count.min(self.changes.len()) {
            let old = &self.changes[place];
            let copy = change_of(self.alloc, old.kind, &old.name, &old.other)?;
            folder.changes.push(copy)?;
        }
        Ok(folder)
    }

    /// Returns the bytes of a file, if it exists.
    pub fn bytes<'a>(&'a self, name: &'a [u8]) -> Option<&'a [u8]>
        ensures { option_map (λ b. b.now) result ≡ files_of self.now.changes.items name.now }
    {
        let mut wanted = name;
        for back in 0..self.changes.len() {
            match see(&self.changes[self.changes.len() - 1 - back], wanted) {
                Seen::Bytes(bytes) => return Some(bytes),
                Seen::Nothing => return None,
                Seen::Before(name) => wanted = name,
            }
        }
        None
    }

    /// Counts a call, and returns how it fails, if it does.
    fn counted(&mut self) -> Option<Failing>
        ensures changes { self.new.changes ≡ self.old.changes }
        ensures number { self.old.calls < 2 ^ 32 - 1 → self.new.calls ≡ self.old.calls + 1 }
        ensures failing { result ≡ failure_of self.new.calls self.new.fails self.new.failing }
        ensures same { (self.new.fails ≡ self.old.fails) × (self.new.failing ≡ self.old.failing) }
    {
        self.calls = self.calls.saturating_add(1);
        if self.calls == self.fails {
            Some(self.failing)
        } else {
            None
        }
    }

    /// Records a change.
    fn note(&mut self, kind: Kind, name: &[u8], other: &[u8]) -> Result<(), AllocError>
        ensures ok { OnOk result (self.new.changes.items ≡ self.old.changes.items
            ++ record { kind = kind; name = name.now; other = other.now } ∷ []) }
        ensures err { OnErr result (self.new.changes.items ≡ self.old.changes.items) }
        ensures calls { self.new.calls ≡ self.old.calls }
        ensures fails { self.new.fails ≡ self.old.fails }
        ensures failing { self.new.failing ≡ self.old.failing }
    {
        let change = match change_of(self.alloc, kind, name, other) {
            Ok(change) => change,
            Err(error) => return Err(error),
        };
        match self.changes.push(change) {
            Ok(()) => Ok(()),
            Err(_) => Err(AllocError),
        }
    }

    /// Appends a name to the list, if its file exists and the name isn't in the list.
    #[tactic(auto, using(crate::proofs::Listing::listing))]
    fn list(&self, alloc: Global, names: &mut Vec<Vec<u8>>, name: &[u8]) -> Result<(), AllocError>
        ensures { OnOk result (ListsName (files_of self.now.changes.items) name.now
            (map (λ n. n.items) names.old.items) (map (λ n. n.items) names.new.items)) }
    {
        if is_listed(names.as_slice(), name) || self.bytes(name).is_none() {
            return Ok(());
        }
        names.push(copied(alloc, name)?)?;
        Ok(())
    }

    /// Writes these bytes to a file.
    #[tactic(auto, using(crate::proofs::Changes::calling))]
    pub(crate) fn put(&mut self, name: &[u8], bytes: &[u8]) -> Result<(), FolderFault>
        ensures ok { OnOk result (WritesFile (files_of self.old.changes.items)
            (files_of self.new.changes.items) name.now bytes.now) }
        ensures only { ChangesOnlyFile (files_of self.old.changes.items) (files_of self.new.changes.items) name.now }
        ensures state { OnOk result (states_of self.new.changes.items
            ≡ files_of self.new.changes.items ∷ states_of self.old.changes.items) }
        ensures moment { IsMoment (files_of self.old.changes.items)
            (files_of self.new.changes.items) (states_of self.old.changes.items)
            (states_of self.new.changes.items) }
    {
        match self.note(Kind::Put, name, bytes) {
            Ok(()) => Ok(()),
            Err(_) => Err(FolderFault),
        }
    }

    /// Renames a file, or fails.
    fn give_or_fail(&mut self, name: &[u8], place: &[u8]) -> Result<(), RenameFault>
        ensures ok { OnOk result ((failure_of self.new.calls self.new.fails self.new.failing ≡ None)
            × (self.new.changes.items ≡ self.old.changes.items ++ moved_to name.now place.now ∷ [])) }
        ensures unchanged { IfErr result (λ e. e ≡ RenameFault.Unchanged
            → self.new.changes.items ≡ self.old.changes.items) }
        ensures unsure { IfErr result (λ e. e ≡ RenameFault.Unsure
            → Some self.new.changes.items
            ≡ unsure_changes (failure_of self.new.calls self.new.fails self.new.failing)
            self.old.changes.items (moved_to name.now place.now)) }
    {
        match self.counted() {
            None => {}
            Some(Failing::Before) => return Err(RenameFault::Unchanged),
            Some(Failing::Half) => return Err(RenameFault::Unsure),
            Some(Failing::After) => {
                return match self.note(Kind::Moved, name, place) {
                    Ok(()) => Err(RenameFault::Unsure),
                    Err(_) => Err(RenameFault::Unchanged),
                };
            }
        }
        match self.note(Kind::Moved, name, place) {
            Ok(()) => Ok(()),
            Err(_) => Err(RenameFault::Unchanged),
        }
    }

    /// Removes a file, or fails.
    fn drop_or_fail(&mut self, name: &[u8]) -> Result<(), FolderFault>
        ensures ok { OnOk result ((failure_of self.new.calls self.new.fails self.new.failing ≡ None)
            × (self.new.changes.items ≡ self.old.changes.items ++ removal_of name.now ∷ [])) }
        ensures err { OnErr result ((self.new.changes.items ≡ self.old.changes.items)
            ⊎ (may_remove (failure_of self.new.calls self.new.fails self.new.failing) ≡ true)
            × (self.new.changes.items ≡ self.old.changes.items ++ removal_of name.now ∷ [])) }
    {
        match self.counted() {
            None => {}
            Some(Failing::Before) => return Err(FolderFault),
            Some(_) => {
                let _ = self.note(Kind::Gone, name, &[]);
                return Err(FolderFault);
            }
        }
        match self.note(Kind::Gone, name, &[]) {
            Ok(()) => Ok(()),
            Err(_) => Err(FolderFault),
        }
    }
}

impl Folder for KnownFolder {
    ghost is_known = { λ f. true };

    ghost may_fail = { λ f. true };

    ghost files = { λ f. files_of f.changes.items };

    ghost stored = { λ f. files_of f.changes.items };

    ghost lasting = { λ f. files_of f.changes.items };

    ghost moments = { λ f. states_of f.changes.items };

    fn read(&self, alloc: Global, name: &[u8]) -> Result<Option<Vec<u8>>, FolderFault> {
        let Some(bytes) = self.bytes(name) else {
            return Ok(None);
        };
        match copied(alloc, bytes) {
            Ok(bytes) => Ok(Some(bytes)),
            Err(_) => Err(FolderFault),
        }
    }

    #[tactic(auto, using(crate::proofs::Changes::calling))]
    fn write(&mut self, name: &[u8], bytes: &[u8]) -> Result<(), FolderFault> {
        match self.counted() {
            None => return self.put(name, bytes),
            Some(Failing::Before) => return Err(FolderFault),
            Some(Failing::Half) => {
                let _ = self.put(name, &bytes[..bytes.len() / 2]);
            }
            Some(Failing::After) => {
                let _ = self.put(name, bytes);
            }
        }
        Err(FolderFault)
    }

    #[tactic(auto, using(crate::proofs::Changes::calling))]
    fn rename(&mut self, name: &[u8], place: &[u8]) -> Result<(), RenameFault> {
        self.give_or_fail(name, place)
    }

    #[tactic(auto, using(crate::proofs::Changes::calling))]
    fn remove(&mut self, name: &[u8]) -> Result<(), FolderFault> {
        self.drop_or_fail(name)
    }

    fn names(&self, alloc: Global) -> Result<Vec<Vec<u8>>, FolderFault> {
        let mut names = Vec::new(alloc);
        for change in &self.changes {
            match self.list(alloc, &mut names, new_name(change)) {
                Ok(()) => {}
                Err(_) => return Err(FolderFault),
            }
        }
        Ok(names)
    }
}
