//! The text `active`, and the names of images' files.

ghost use Rattle.std.specs.Prelude.{◌≡◌, IfOk, OnOk, codes, string_bytes};
ghost use Rattle.fw_text.specs.Printing.{AppendsText};
ghost use Rattle.fw_store.specs.Active.{active_text as text_of, image_name as name_of, label_text, line_of, lines_text as lines_of};

use crate::entry::ImageEntry;
use fd_core::Label;
use fw_package::crc32;
use fw_text::{push_data, push_eight, push_number, push_words};
use fwup_wire::Key;
use std::alloc::{AllocError, Global};

/// Appends the name of an image's file.
#[tactic(auto, unfolding(crate::specs::Active::image_name))]
fn push_name(alloc: Global, text: &mut Vec<u8>, key: Key, number: u32) -> Result<(), AllocError>
    ensures { OnOk result (AppendsText text.old.items text.new.items (name_of key number)) }
{
    push_number(alloc, text, "", key.classification as usize)?;
    push_number(alloc, text, "-", key.identifier as usize)?;
    push_number(alloc, text, ".", number as usize)?;
    push_words(text, ".image")?;
    Ok(())
}

/// Appends a label, a space before each of its fields.
#[tactic(auto, unfolding(crate::specs::Active::label_text))]
fn push_label(alloc: Global, text: &mut Vec<u8>, label: &Label) -> Result<(), AllocError>
    ensures { OnOk result (AppendsText text.old.items text.new.items (label_text label.now)) }
{
    push_number(alloc, text, " ", label.stamp as usize)?;
    push_number(alloc, text, " ", label.text_type as usize)?;
    push_words(text, " ")?;
    push_data(alloc, text, label.text.as_slice())?;
    Ok(())
}

/// Appends an image's line.
#[tactic(auto, unfolding(crate::specs::Active::line_of))]
fn push_line(alloc: Global, text: &mut Vec<u8>, entry: &ImageEntry) -> Result<(), AllocError>
    ensures { OnOk result (AppendsText text.old.items text.new.items (line_of entry.now)) }
{
    push_number(alloc, text, "", entry.key.classification as usize)?;
    push_number(alloc, text, " ", entry.key.identifier as usize)?;
    push_label(alloc, text, &entry.label)?;
    push_words(text, " ")?;
    push_name(alloc, text, entry.key, entry.number)?;
    push_number(alloc, text, " ", entry.size as usize)?;
    push_eight(alloc, text, " ", entry.checksum)?;
    push_words(text, "\n")?;
    Ok(())
}

/// Returns the text of the images' lines.
#[tactic(auto, using(fw_text::proofs::Chains::telling))]
fn lines_text(alloc: Global, entries: &[ImageEntry]) -> Result<Vec<u8>, AllocError>
    ensures { IfOk result (λ text. text.items ≡ lines_of entries.now) }
{
    let mut text = Vec::new(alloc);
    for entry in entries {
        push_line(alloc, &mut text, entry)?;
    }
    Ok(text)
}

/// Returns the text of the images: one line for each, and one with the lines' CRC-32. `read_active`
/// reads it as exactly these images.
///
/// # Errors
/// `AllocError` if memory can't be allocated.
#[tactic(auto, unfolding(crate::specs::Active::lines_with_checksum))]
pub fn active_text(alloc: Global, entries: &[ImageEntry]) -> Result<Vec<u8>, AllocError>
    ensures { IfOk result (λ text. text.items ≡ text_of entries.now) }
{
    let mut text = lines_text(alloc, entries)?;
    let checksum = crc32(&text);
    push_eight(alloc, &mut text, "", checksum)?;
    push_words(&mut text, "\n")?;
    Ok(text)
}

/// Returns the name of an image's file.
///
/// # Errors
/// `AllocError` if memory can't be allocated.
pub fn image_name(alloc: Global, key: Key, number: u32) -> Result<Vec<u8>, AllocError>
    ensures { IfOk result (λ text. text.items ≡ name_of key number) }
{
    let mut text = Vec::new(alloc);
    push_name(alloc, &mut text, key, number)?;
    Ok(text)
}
