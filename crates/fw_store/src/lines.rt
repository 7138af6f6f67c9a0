//! The lines of images that are written to a folder.

ghost use Rattle.std.specs.Prelude.{◌≡◌, ◌++◌, ◌<◌, ◌≤◌, ◌^◌, ℕ, get_or, IfNone, IfOk, IfSome, None, OnOk, length, map, true};
ghost use Rattle.std.specs.List.{AllByRecursion};
ghost use Rattle.fd_core.specs.Banks.{HaveKeysOnce};
ghost use Rattle.fw_store.specs.Active.{IsImageEntry};
ghost use Rattle.fw_store.specs.Keeping.{entries_after as lines_after, entry_for as line_for, lines_left};

use crate::entry::ImageEntry;
use crate::memory::find;
use crate::store::{Kept, StoreFault};
use fw_package::crc32;
use fwup_wire::Key;
use std::alloc::{AllocError, Global};

/// Returns whether no component occurs twice among the images.
#[tactic(auto, using(crate::proofs::Left::has_none))]
pub(crate) fn are_apart(images: &[Kept<'_>]) -> bool
    ensures { result ≡ true → HaveKeysOnce (map (λ k. k.key) images.now) }
{
    match images {
        [] => true,
        [first, rest @ ..] => find(rest, first.key).is_none() && are_apart(rest),
    }
}

/// Returns the line of an image in a file with this number, if its size fits four bytes.
fn line_of(number: u32, image: &Kept<'_>) -> Option<ImageEntry>
    ensures line { IfSome result (λ e. e ≡ line_for number image.now) }
    ensures large { IfNone result (2 ^ 32 ≤ length image.now.image.bytes) }
{
    match u32::try_from(image.bytes.len()) {
        Ok(size) => Some(ImageEntry {
            key: image.key,
            label: image.label.copied(),
            number,
            size,
            checksum: crc32(image.bytes),
        }),
        Err(_) => None,
    }
}

/// Appends the lines of new images.
fn push_new(
    entries: &mut Vec<ImageEntry>,
    number: u32,
    images: &[Kept<'_>],
) -> Result<(), StoreFault>
    ensures { OnOk result (entries.new.items ≡ entries.old.items ++ map (line_for number) images.now) }
{
    for image in images {
        let Some(entry) = line_of(number, image) else {
            return Err(StoreFault);
        };
        let Ok(()) = entries.push(entry) else {
            return Err(StoreFault);
        };
    }
    Ok(())
}

/// Returns a copy of the line.
fn copied(entry: &ImageEntry) -> ImageEntry
    ensures { result ≡ entry.now }
{
    ImageEntry {
        key: entry.key,
        label: entry.label.copied(),
        number: entry.number,
        size: entry.size,
        checksum: entry.checksum,
    }
}

/// Appends the lines of components other than those of the images.
#[tactic(auto, using(crate::proofs::Left::leaving))]
fn push_left(
    entries: &mut Vec<ImageEntry>,
    images: &[Kept<'_>],
    old: &[ImageEntry],
) -> Result<(), StoreFault>
    ensures { OnOk result (entries.new.items ≡ entries.old.items ++ lines_left images.now old.now) }
{
    for entry in old {
        if find(images, entry.key).is_none() {
            let Ok(()) = entries.push(copied(entry)) else {
                return Err(StoreFault);
            };
        }
    }
    Ok(())
}

/// Proves that numbers have their widths.
fn number_widths(key: Key, stamp: u32, kind: u8, number: u32, size: u32, checksum: u32)
    ensures class { key.classification < 2 ^ 16 }
    ensures ident { key.identifier < 2 ^ 16 }
    ensures stamp { stamp < 2 ^ 32 }
    ensures kind { kind < 2 ^ 8 }
    ensures number { number < 2 ^ 32 }
    ensures size { size < 2 ^ 32 }
    ensures checksum { checksum < 2 ^ 32 }
{}

/// Proves that bytes have their width.
pub(crate) fn byte_widths(bytes: &[u8])
    ensures { (i : ℕ) → get_or bytes.now i 0 < 256 }
{}

/// Proves that the numbers of a line have their widths.
fn width(entry: &ImageEntry)
    ensures { IsImageEntry entry.now }
{
    let version = entry.label.version();
    byte_widths(version.text.bytes);
    number_widths(
        entry.key,
        version.stamp,
        version.text.text_type,
        entry.number,
        entry.size,
        entry.checksum,
    );
}

/// Proves that the numbers of each line have their widths.
#[tactic(auto, using(crate::proofs::Left::all_more))]
pub(crate) fn widths(entries: &[ImageEntry])
    ensures { AllByRecursion IsImageEntry entries.now }
{
    for entry in entries {
        width(entry);
    }
}

/// Returns the lines after the images were written to files with this number.
pub(crate) fn entries_after(
    alloc: Global,
    number: u32,
    images: &[Kept<'_>],
    old: &[ImageEntry],
) -> Result<Vec<ImageEntry>, StoreFault>
    ensures lines { IfOk result (λ v. v.items ≡ lines_after number images.now old.now) }
    ensures widths { IfOk result (λ v. AllByRecursion IsImageEntry v.items) }
{
    let mut entries = Vec::new(alloc);
    push_new(&mut entries, number, images)?;
    push_left(&mut entries, images, old)?;
    widths(entries.as_slice());
    Ok(entries)
}
