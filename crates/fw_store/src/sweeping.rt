//! Unnamed files in a store's folder.

ghost use Rattle.std.specs.Prelude.{◌≡◌, IfOk, List, OnOk, false, map, true};
ghost use Rattle.fw_store.specs.Folders.{Files, PassesStates};
ghost use Rattle.fw_store.specs.Opening.{IsUntouched, is_ours as has_our_name};
ghost use Rattle.fw_store.specs.Strays.{ChangesOnlyStrays, SweepsName, SweepsNames, is_stray as is_unnamed, names_file};

use crate::entry::ImageEntry;
use crate::folder::Folder;
use crate::putting::{ACTIVE, ACTIVE_NEW};
use crate::reading::name as name_at;
use crate::writing::image_name;
use std::alloc::{AllocError, Global};

/// Returns whether a name is a store's name for a file, other than `active`.
#[tactic(auto, unfolding(crate::specs::Opening::is_ours))]
fn is_ours(alloc: Global, name: &[u8]) -> Result<bool, AllocError>
    ensures { IfOk result (λ b. b ≡ has_our_name name.now) }
{
    if name == ACTIVE_NEW {
        return Ok(true);
    }
    let Some(((key, number), _)) = name_at(name) else {
        return Ok(false);
    };
    let written = image_name(alloc, key, number)?;
    Ok(written.as_slice() == name)
}

/// Returns whether a line names a file.
fn is_named(alloc: Global, entries: &[ImageEntry], name: &[u8]) -> Result<bool, AllocError>
    ensures { IfOk result (λ b. b ≡ names_file entries.now name.now) }
{
    for entry in entries {
        let written = image_name(alloc, entry.key, entry.number)?;
        if written.as_slice() == name {
            return Ok(true);
        }
    }
    Ok(false)
}

/// Returns whether a file is one of this store that no line names.
#[tactic(auto, unfolding(crate::specs::Strays::is_stray))]
fn is_stray(alloc: Global, entries: &[ImageEntry], name: &[u8]) -> Result<bool, AllocError>
    ensures { IfOk result (λ b. b ≡ is_unnamed entries.now name.now) }
{
    if name == ACTIVE || !is_ours(alloc, name)? {
        return Ok(false);
    }
    Ok(!is_named(alloc, entries, name)?)
}

/// Removes a file if it is one of this store that no line names. A file that can't be removed
/// stays.
fn sweep_one<F: Folder>(
    alloc: Global,
    folder: &mut F,
    entries: &[ImageEntry],
    name: &[u8],
) -> Result<(), AllocError>
    ensures known { F.is_known folder.new ≡ F.is_known folder.old }
    ensures untouched { F.is_known folder.old ≡ true
        → (first : Files)
        → IsUntouched entries.now first (F.files folder.old)
        → IsUntouched entries.now first (F.files folder.new) }
    ensures moments { F.is_known folder.old ≡ true
        → (first : Files) (past : List Files)
        → IsUntouched entries.now first (F.files folder.old)
        → PassesStates (IsUntouched entries.now first) past (F.moments folder.old)
        → PassesStates (IsUntouched entries.now first) past (F.moments folder.new) }
    ensures fails { F.may_fail folder.new ≡ F.may_fail folder.old }
    ensures only { F.is_known folder.old ≡ true
        → ChangesOnlyStrays entries.now (F.files folder.old) (F.files folder.new) }
    ensures swept { OnOk result (F.is_known folder.old ≡ true
        → F.may_fail folder.old ≡ false
        → SweepsName entries.now name.now (F.files folder.old) (F.files folder.new)) }
    ensures stays { OnOk result (is_unnamed entries.now name.now ≡ false → folder.new ≡ folder.old) }
{
    match is_stray(alloc, entries, name) {
        Ok(true) => {}
        Ok(false) => return Ok(()),
        Err(error) => return Err(error),
    }
    let _ = folder.remove(name);
    Ok(())
}

/// Removes the files with these names that no line names. A file that can't be removed stays.
#[tactic(auto, using(crate::proofs::Swept::sweeping))]
pub(crate) fn sweep<F: Folder>(
    alloc: Global,
    folder: &mut F,
    entries: &[ImageEntry],
    names: &[Vec<u8>],
) -> Result<(), AllocError>
    ensures known { F.is_known folder.new ≡ F.is_known folder.old }
    ensures untouched { F.is_known folder.old ≡ true → IsUntouched entries.now (F.files folder.old) (F.files folder.new) }
    ensures moments { F.is_known folder.old ≡ true
        → PassesStates (IsUntouched entries.now (F.files folder.old)) (F.moments folder.old)
        (F.moments folder.new) }
    ensures only { F.is_known folder.old ≡ true
        → ChangesOnlyStrays entries.now (F.files folder.old) (F.files folder.new) }
    ensures swept { OnOk result (F.is_known folder.old ≡ true
        → F.may_fail folder.old ≡ false
        → SweepsNames entries.now (map (λ name. name.items) names.now) (F.files folder.old)
        (F.files folder.new)) }
{
    for name in names {
        match sweep_one(alloc, folder, entries, name) {
            Ok(()) => {}
            Err(error) => return Err(error),
        }
    }
    Ok(())
}
