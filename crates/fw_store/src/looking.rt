//! The images that a folder keeps.

ghost use Rattle.std.specs.Prelude.{◌≡◌, ◌⊎◌, Err, IfErr, IfOk, Ok, Some, is_some, option_map, true};
ghost use Rattle.fw_store.specs.Active.{image_name as name_of};
ghost use Rattle.fw_store.specs.Folders.{active_name, image_by, images_of as images_by, lines_by};
ghost use Rattle.fw_store.specs.Kept.{kept_after};
ghost use Rattle.fw_store.specs.Opening.{found_in, has_foreign as names_foreign};

use crate::entry::ImageEntry;
use crate::faults::OpenFault;
use crate::folder::Folder;
use crate::memory::{MemStore, Stored, copied, find};
use crate::putting::ACTIVE;
use crate::reading::read_active;
use crate::store::Kept;
use crate::writing::image_name;
use fw_package::crc32;
use std::alloc::{AllocError, Global};

/// Returns the text of a folder's `active`, if there is such a file.
fn active_in<F: Folder>(alloc: Global, folder: &F) -> Result<Option<Vec<u8>>, OpenFault>
    ensures ok { IfOk result (λ r. F.is_known folder.now ≡ true
        → option_map (λ v. v.items) r ≡ F.files folder.now active_name) }
    ensures fault { IfErr result (λ e. (e ≡ OpenFault.Unreadable) × (F.may_fail folder.now ≡ true)) }
{
    match folder.read(alloc, ACTIVE) {
        Ok(found) => Ok(found),
        Err(_) => Err(OpenFault::Unreadable),
    }
}

/// Returns the lines of a folder's `active`, if it is the text of lines; no lines if there is no
/// such file.
fn lines<F: Folder>(alloc: Global, folder: &F) -> Result<Option<Vec<ImageEntry>>, OpenFault>
    ensures ok { IfOk result (λ r. F.is_known folder.now ≡ true
        → option_map (λ v. v.items) r ≡ lines_by (F.files folder.now active_name)) }
    ensures err { IfErr result (λ e. (e ≡ OpenFault.Unreadable) ⊎ (e ≡ OpenFault.Memory)) }
    ensures unread { IfErr result (λ e. e ≡ OpenFault.Unreadable → F.may_fail folder.now ≡ true) }
{
    let found = match active_in(alloc, folder) {
        Ok(found) => found,
        Err(fault) => return Err(fault),
    };
    let Some(text) = found else {
        return Ok(Some(Vec::new(alloc)));
    };
    match read_active(alloc, &text) {
        Ok(entries) => Ok(entries),
        Err(_) => Err(OpenFault::Memory),
    }
}

/// Returns the image of a line, if its bytes have the line's size and checksum.
fn checked(entry: &ImageEntry, bytes: Vec<u8>) -> Option<Stored>
    ensures { result ≡ image_by entry.now (Some bytes.items) }
{
    if bytes.len() as u64 == u64::from(entry.size) && crc32(&bytes) == entry.checksum {
        Some(Stored::new(entry.key, entry.label.copied(), bytes))
    } else {
        None
    }
}

/// Returns the image of a line, if it is there.
fn image<F: Folder>(
    alloc: Global,
    folder: &F,
    entry: &ImageEntry,
) -> Result<Option<Stored>, OpenFault>
    ensures ok { IfOk result (λ r. F.is_known folder.now ≡ true
        → r ≡ image_by entry.now (F.files folder.now (name_of entry.now.key entry.now.number))) }
    ensures err { IfErr result (λ e. (e ≡ OpenFault.Unreadable) ⊎ (e ≡ OpenFault.Memory)) }
    ensures unread { IfErr result (λ e. e ≡ OpenFault.Unreadable → F.may_fail folder.now ≡ true) }
{
    let Ok(name) = image_name(alloc, entry.key, entry.number) else {
        return Err(OpenFault::Memory);
    };
    match folder.read(alloc, &name) {
        Ok(Some(bytes)) => Ok(checked(entry, bytes)),
        Ok(None) => Ok(None),
        Err(_) => Err(OpenFault::Unreadable),
    }
}

/// Returns the images of lines, if each is there.
#[tactic(auto, using(crate::proofs::FoundImages::looking))]
fn images<F: Folder>(
    alloc: Global,
    folder: &F,
    entries: &[ImageEntry],
) -> Result<Option<Vec<Stored>>, OpenFault>
    ensures ok { IfOk result (λ r. F.is_known folder.now ≡ true
        → option_map (λ v. v.items) r ≡ images_by (F.files folder.now) entries.now) }
    ensures err { IfErr result (λ e. (e ≡ OpenFault.Unreadable) ⊎ (e ≡ OpenFault.Memory)) }
    ensures unread { IfErr result (λ e. e ≡ OpenFault.Unreadable → F.may_fail folder.now ≡ true) }
{
    let mut images = Vec::new(alloc);
    for entry in entries {
        match image(alloc, folder, entry) {
            Ok(Some(image)) => {
                let Ok(()) = images.push(image) else {
                    return Err(OpenFault::Memory);
                };
            }
            Ok(None) => return Ok(None),
            Err(fault) => return Err(fault),
        }
    }
    Ok(Some(images))
}

/// Returns whether a line is of a component that isn't in the list.
#[tactic(auto, using(crate::proofs::FoundImages::foreign))]
fn has_foreign(components: &[Kept<'_>], entries: &[ImageEntry]) -> bool
    ensures { result ≡ names_foreign components.now entries.now }
{
    for entry in entries {
        if find(components, entry.key).is_none() {
            return true;
        }
    }
    false
}

/// Borrows the images.
fn lent(alloc: Global, images: &[Stored]) -> Result<Vec<Kept<'_>>, AllocError>
    ensures { IfOk result (λ v. v.items ≡ images.now) }
{
    let mut lent = Vec::new(alloc);
    for image in images {
        lent.push(image.image())?;
    }
    Ok(lent)
}

/// Returns copies of images.
fn copies(alloc: Global, images: &[Kept<'_>]) -> Result<Vec<Stored>, AllocError>
    ensures { IfOk result (λ v. v.items ≡ images.now) }
{
    let mut copies = Vec::new(alloc);
    for image in images {
        copies.push(copied(alloc, image.key, image.label, image.bytes)?)?;
    }
    Ok(copies)
}

/// Returns a store of the images, with others replacing those of their components.
fn store_over(
    alloc: Global,
    components: &[Kept<'_>],
    stored: &[Stored],
) -> Result<MemStore, AllocError>
    ensures { IfOk result (λ s. s.images.items ≡ kept_after components.now stored.now) }
{
    let base = MemStore::with_all(alloc, copies(alloc, components)?);
    let stored = lent(alloc, stored)?;
    base.with(stored.as_slice())
}

/// Returns the lines of a folder, and the images that it keeps over those of a configuration.
pub(crate) fn look<F: Folder>(
    alloc: Global,
    folder: &F,
    components: &[Kept<'_>],
) -> Result<(Vec<ImageEntry>, MemStore), OpenFault>
    ensures ok { IfOk result (λ r. F.is_known folder.now ≡ true
        → found_in components.now (F.files folder.now) ≡ Ok r.1.images.items) }
    ensures lines { IfOk result (λ r. F.is_known folder.now ≡ true → lines_by (F.files folder.now active_name) ≡ Some r.0.items) }
    ensures there { IfOk result (λ r. F.is_known folder.now ≡ true → is_some (images_by (F.files folder.now) r.0.items) ≡ true) }
    ensures damaged { IfErr result (λ e. e ≡ OpenFault.Damaged
        → F.is_known folder.now ≡ true
        → found_in components.now (F.files folder.now) ≡ Err OpenFault.Damaged) }
    ensures foreign { IfErr result (λ e. e ≡ OpenFault.Foreign
        → F.is_known folder.now ≡ true
        → found_in components.now (F.files folder.now) ≡ Err OpenFault.Foreign) }
    ensures unread { IfErr result (λ e. e ≡ OpenFault.Unreadable → F.may_fail folder.now ≡ true) }
{
    let entries = match lines(alloc, folder) {
        Ok(Some(entries)) => entries,
        Ok(None) => return Err(OpenFault::Damaged),
        Err(fault) => return Err(fault),
    };
    if has_foreign(components, entries.as_slice()) {
        return Err(OpenFault::Foreign);
    }
    let stored = match images(alloc, folder, entries.as_slice()) {
        Ok(Some(stored)) => stored,
        Ok(None) => return Err(OpenFault::Damaged),
        Err(fault) => return Err(fault),
    };
    match store_over(alloc, components, stored.as_slice()) {
        Ok(store) => Ok((entries, store)),
        Err(_) => Err(OpenFault::Memory),
    }
}

/// Returns the images that a folder keeps over those of a configuration, which are used for
/// components of which it keeps none. The folder is only read, and the returned store lasts as long
/// as the program.
///
/// # Errors
/// `Damaged` and `Foreign` as `found_in` defines them; `Unreadable` if the folder can't be read;
/// `Memory` if memory can't be allocated.
pub fn read_store<F: Folder>(
    alloc: Global,
    folder: &F,
    components: &[Kept<'_>],
) -> Result<MemStore, OpenFault>
    ensures ok { IfOk result (λ s. F.is_known folder.now ≡ true
        → found_in components.now (F.files folder.now) ≡ Ok s.images.items) }
    ensures damaged { IfErr result (λ e. e ≡ OpenFault.Damaged
        → F.is_known folder.now ≡ true
        → found_in components.now (F.files folder.now) ≡ Err OpenFault.Damaged) }
    ensures foreign { IfErr result (λ e. e ≡ OpenFault.Foreign
        → F.is_known folder.now ≡ true
        → found_in components.now (F.files folder.now) ≡ Err OpenFault.Foreign) }
    ensures unread { IfErr result (λ e. e ≡ OpenFault.Unreadable → F.may_fail folder.now ≡ true) }
{
    match look(alloc, folder, components) {
        Ok((_, store)) => Ok(store),
        Err(fault) => Err(fault),
    }
}
