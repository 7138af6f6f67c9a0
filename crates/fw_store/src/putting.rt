//! Writing images to a folder: their files first, and then the text that names them.

ghost use Rattle.std.specs.Prelude.{◌≡◌, ◌⊎◌, ◌^◌, ◌<◌, IfErr, IfOk, OnErr, OnOk, map, true};
ghost use Rattle.fd_core.specs.Banks.{HaveKeysOnce};
ghost use Rattle.fw_store.specs.Active.{active_text as text_of, image_name as name_of};
ghost use Rattle.fw_store.specs.Folders.{LeavesFiles, PassesStates};
ghost use Rattle.fw_store.specs.Keeping.{HoldsText, LeavesLowerFiles, WritesImages, IsKey, IsStoring, ReplacesActive, ReplacesOnDisk, IsStopped, FailsToReplaceActive, IsWriting, MayHaveReplaced};

use crate::entry::ImageEntry;
use crate::folder::{Folder, FolderFault, RenameFault};
use crate::store::Kept;
use crate::writing::{active_text, image_name};
use fwup_wire::Key;
use std::alloc::{AllocError, Global};

/// The name of the text that lists the active images.
pub(crate) const ACTIVE: &[u8] = b"active";

/// The name under which the text is written before it is renamed to `active`.
pub(crate) const ACTIVE_NEW: &[u8] = b"active.new";

/// Returns the name of an image's file with this number.
fn file_name(alloc: Global, key: Key, number: u32) -> Result<Vec<u8>, AllocError>
    ensures name { IfOk result (λ name. name.items ≡ name_of key number) }
    ensures key { IsKey key }
    ensures number { number < 2 ^ 32 }
{
    image_name(alloc, key, number)
}

/// Writes images to files with this number.
fn write_images<F: Folder>(
    alloc: Global,
    folder: &mut F,
    number: u32,
    images: &[Kept<'_>],
) -> Result<(), FolderFault>
    requires apart { HaveKeysOnce (map (λ k. k.key) images.now) }
    ensures known { F.is_known folder.new ≡ F.is_known folder.old }
    ensures ok { OnOk result (F.is_known folder.old ≡ true
        → IsWriting number images.now (F.files folder.old) (F.files folder.new)
        (F.moments folder.old) (F.moments folder.new)) }
    ensures stored { OnOk result (F.is_known folder.old ≡ true
        → IsStoring number images.now (F.stored folder.old) (F.stored folder.new)) }
    ensures err { OnErr result (F.is_known folder.old ≡ true
        → IsStopped number (F.files folder.old) (F.files folder.new) (F.moments folder.old)
        (F.moments folder.new)) }
{
    for image in images {
        let Ok(name) = file_name(alloc, image.key, number) else {
            return Err(FolderFault);
        };
        match folder.write(&name, image.bytes) {
            Ok(()) => {}
            Err(fault) => return Err(fault),
        }
    }
    Ok(())
}

/// Writes the text of the lines, and renames it to `active`.
#[tactic(auto, using(crate::proofs::Moments::putting))]
pub(crate) fn put_text<F: Folder>(folder: &mut F, text: &[u8]) -> Result<(), RenameFault>
    ensures known { F.is_known folder.new ≡ F.is_known folder.old }
    ensures ok { OnOk result (F.is_known folder.old ≡ true
        → ReplacesActive text.now (F.files folder.old) (F.files folder.new) (F.moments folder.old)
        (F.moments folder.new)) }
    ensures lasts { OnOk result (F.is_known folder.old ≡ true
        → ReplacesOnDisk text.now (F.stored folder.old) (F.lasting folder.new)) }
    ensures all { OnOk result (F.is_known folder.old ≡ true
        → LeavesFiles (F.stored folder.new) (F.lasting folder.new)) }
    ensures unchanged { IfErr result (λ e. e ≡ RenameFault.Unchanged
        → F.is_known folder.old ≡ true
        → FailsToReplaceActive (F.files folder.old) (F.files folder.new) (F.moments folder.old)
        (F.moments folder.new)) }
    ensures unsure { IfErr result (λ e. e ≡ RenameFault.Unsure
        → F.is_known folder.old ≡ true
        → FailsToReplaceActive (F.files folder.old) (F.files folder.new) (F.moments folder.old)
        (F.moments folder.new)
        ⊎ ReplacesActive text.now (F.files folder.old) (F.files folder.new) (F.moments folder.old)
        (F.moments folder.new)) }
    ensures whole { IfErr result (λ e. e ≡ RenameFault.Unsure
        → F.is_known folder.old ≡ true
        → HoldsText text.now (F.files folder.new)) }
{
    match folder.write(ACTIVE_NEW, text) {
        Ok(()) => folder.rename(ACTIVE_NEW, ACTIVE),
        Err(_) => Err(RenameFault::Unchanged),
    }
}

/// Writes images to files with this number, and then replaces `active` by the text of the lines.
/// From then on the images are active.
///
/// # Errors
/// `Unchanged`: the images that were active still are. `Unsure`: either those or the given images
/// are active.
#[tactic(auto, using(crate::proofs::Moments::coming))]
pub(crate) fn put_images<F: Folder>(
    alloc: Global,
    folder: &mut F,
    number: u32,
    images: &[Kept<'_>],
    entries: &[ImageEntry],
) -> Result<(), RenameFault>
    requires apart { HaveKeysOnce (map (λ k. k.key) images.now) }
    ensures known { F.is_known folder.new ≡ F.is_known folder.old }
    ensures ok { OnOk result (F.is_known folder.old ≡ true
        → WritesImages number images.now entries.now (F.files folder.old) (F.files folder.new)) }
    ensures lasts { OnOk result (F.is_known folder.old ≡ true
        → WritesImages number images.now entries.now (F.stored folder.old)
        (F.lasting folder.new)) }
    ensures all { OnOk result (F.is_known folder.old ≡ true
        → LeavesFiles (F.stored folder.new) (F.lasting folder.new)) }
    ensures unchanged { IfErr result (λ e. e ≡ RenameFault.Unchanged
        → F.is_known folder.old ≡ true
        → LeavesLowerFiles number (F.files folder.old) (F.files folder.new)) }
    ensures unsure { IfErr result (λ e. e ≡ RenameFault.Unsure
        → F.is_known folder.old ≡ true
        → MayHaveReplaced number images.now entries.now (F.files folder.old) (F.files folder.new)) }
    ensures whole { IfErr result (λ e. e ≡ RenameFault.Unsure
        → F.is_known folder.old ≡ true
        → HoldsText (text_of entries.now) (F.files folder.new)) }
    ensures moments { F.is_known folder.old ≡ true
        → PassesStates (MayHaveReplaced number images.now entries.now (F.files folder.old))
        (F.moments folder.old) (F.moments folder.new) }
{
    let Ok(text) = active_text(alloc, entries) else {
        return Err(RenameFault::Unchanged);
    };
    let Ok(()) = write_images(alloc, folder, number, images) else {
        return Err(RenameFault::Unchanged);
    };
    match put_text(folder, &text) {
        Ok(()) => Ok(()),
        Err(RenameFault::Unchanged) => Err(RenameFault::Unchanged),
        Err(RenameFault::Unsure) => Err(RenameFault::Unsure),
    }
}
