//! The inspection of a package with the SHA-256 of each component's image.

ghost use Rattle.std.specs.Prelude.{◌≡◌, ◌≢◌, ◌+◌, [], ◌∷◌, Err, IfErr, IfOk, IsOk, Ok, OnOk, codes, string_bytes};
ghost use Rattle.std.specs.Result.{result_map_both};
ghost use Rattle.json.specs.Token.{key, string};
ghost use Rattle.json.specs.Tree.{items_tokens, json_tokens};
ghost use Rattle.fw_package.specs.Lent.{component_seen, place_seen};
ghost use Rattle.fw_package.specs.Outlines.{its_place};
ghost use Rattle.fw_package.specs.Reading.{package_of};
ghost use Rattle.fw_text.specs.Printing.{AppendsText};
ghost use Rattle.fw_json.specs.Digests.{digest_digits, digested_component_value, digested_in, digested_text, digested_value, image_line, image_lines, word_and_digest};
ghost use Rattle.fw_json.specs.Values.{ReadsBack, line_of, numbered_items};
ghost use Rattle.fw_json.specs.Writing.{AppendsTokens};

use crate::fields::{close_array, close_object, line, open_array_field, push_word_field};
use crate::inspection::{push_component_members, push_heading, push_records};
use fw_package::{Component, Components, Package, Place};
use fw_text::{push_number, push_words};
use fwupd_base::{Form, InspectFault, inspect};
use json::Writer;
use sha2::{Digest, Sha256};
use std::alloc::{AllocError, Global};

/// The SHA-256 of bytes, in lower-case hexadecimal digits.
#[tactic(auto, unfolding(crate::specs::Digests::digest_digits))]
fn digest_digits(alloc: Global, bytes: &[u8]) -> Result<String, AllocError>
    ensures { IfOk result (λ digits. string_bytes digits ≡ digest_digits bytes.now) }
{
    hex::encode(alloc, Sha256::digest(bytes))
}

/// Appends a word, then the SHA-256 of bytes.
#[tactic(auto, unfolding(crate::specs::Digests::word_and_digest))]
pub(crate) fn push_digest(
    alloc: Global,
    text: &mut Vec<u8>,
    word: &str,
    bytes: &[u8],
) -> Result<(), AllocError>
    ensures { OnOk result (AppendsText text.old.items text.new.items (word_and_digest word.now bytes.now)) }
{
    let digits = digest_digits(alloc, bytes)?;
    push_words(text, word)?;
    push_words(text, &digits)?;
    Ok(())
}

/// Writes the key `sha256`, and the SHA-256 of bytes.
pub(crate) fn push_digest_field(
    alloc: Global,
    writer: &mut Writer,
    bytes: &[u8],
) -> Result<(), AllocError>
    ensures { OnOk result (AppendsTokens writer.old writer.new
        (key (codes "sha256") ∷ string (digest_digits bytes.now) ∷ [])) }
{
    let digits = digest_digits(alloc, bytes)?;
    push_word_field(writer, "sha256", &digits)
}

/// Appends the line of a component's image.
#[tactic(auto, unfolding(crate::specs::Digests::image_line))]
fn push_image(
    alloc: Global,
    text: &mut Vec<u8>,
    number: usize,
    contents: Component<'_>,
) -> Result<(), AllocError>
    ensures { OnOk result (AppendsText text.old.items text.new.items (image_line number (component_seen contents.entry))) }
{
    push_number(alloc, text, "image ", number)?;
    push_digest(alloc, text, " sha256 ", contents.image)?;
    push_words(text, "\n")?;
    Ok(())
}

/// Appends the lines of all images.
#[tactic(auto, using(fw_text::proofs::Chains::telling))]
fn push_images(
    alloc: Global,
    text: &mut Vec<u8>,
    mut components: Components<'_>,
) -> Result<(), AllocError>
    ensures { OnOk result (AppendsText text.old.items text.new.items (image_lines 1 components.entry)) }
{
    for number in 0..components.len() {
        let Some(contents) = components.next() else {
            unreachable!()
        };
        push_image(alloc, text, number + 1, contents)?;
    }
    Ok(())
}

/// The place of a component's image, with the component.
fn place_of(component: Component<'_>) -> Place<'_>
    ensures { place_seen result ≡ its_place (component_seen component.entry) }
{
    Place {
        classification: component.classification,
        identifier: component.identifier,
        stamp: component.stamp,
        options: component.options,
        method: component.method,
        offset: component.offset,
        size: component.image.len(),
        text: component.text,
    }
}

/// Writes a component, with the digest of its image.
fn push_component(
    alloc: Global,
    writer: &mut Writer,
    number: usize,
    contents: Component<'_>,
) -> Result<(), AllocError>
    ensures { OnOk result (AppendsTokens writer.old writer.new
        (json_tokens (digested_component_value number (component_seen contents.entry)))) }
{
    let place = place_of(contents);
    push_component_members(alloc, writer, number, &place)?;
    push_digest_field(alloc, writer, contents.image)?;
    close_object(writer)?;
    Ok(())
}

/// Writes all components, and ends the array.
#[tactic(auto, using(crate::proofs::Chains::telling))]
fn push_components(
    alloc: Global,
    writer: &mut Writer,
    mut components: Components<'_>,
) -> Result<(), AllocError>
    ensures { OnOk result (AppendsTokens writer.old writer.new
        (items_tokens (numbered_items digested_component_value 1 components.entry))) }
{
    for number in 0..components.len() {
        let Some(contents) = components.next() else {
            unreachable!()
        };
        push_component(alloc, writer, number + 1, contents)?;
    }
    close_array(writer)?;
    Ok(())
}

/// Writes a package.
fn push_package(
    alloc: Global,
    writer: &mut Writer,
    contents: &Package<'_>,
) -> Result<(), AllocError>
    ensures { OnOk result (AppendsTokens writer.old writer.new (json_tokens (digested_value contents.now))) }
{
    push_heading(
        alloc,
        writer,
        contents.header_size(),
        contents.release(),
        contents.version().bytes,
    )?;
    open_array_field(writer, "records")?;
    push_records(alloc, writer, contents.records())?;
    open_array_field(writer, "components")?;
    push_components(alloc, writer, contents.components())?;
    close_object(writer)?;
    Ok(())
}

/// The line of a package.
fn digested_line(alloc: Global, contents: &Package<'_>) -> Result<Vec<u8>, AllocError>
    ensures line { IfOk result (λ text. text.items ≡ line_of (digested_value contents.now)) }
    ensures reads_back { OnOk result (ReadsBack (digested_value contents.now)) }
{
    let mut writer = Writer::new(Vec::new(alloc));
    push_package(alloc, &mut writer, contents)?;
    line(writer)
}

/// Returns the inspection of a firmware package, with the SHA-256 of each component's image, as a
/// JSON value on one line. Without its line feed, the line decodes to that value.
///
/// # Errors
/// `Package`, with the first fault, if the bytes aren't a package; `Memory` only if memory is
/// refused.
pub fn inspect_digested_json(alloc: Global, bytes: &[u8]) -> Result<Vec<u8>, InspectFault>
    ensures line { IfOk result (λ text. result_map_both (λ p. line_of (digested_value p)) (λ e. e)
        (package_of bytes.now) ≡ Ok text.items) }
    ensures reads_back { OnOk result (IfOk (package_of bytes.now) (λ p. ReadsBack (digested_value p))) }
    ensures fault { IfErr result (λ e. e ≢ InspectFault.Memory
        → result_map_both (λ p. p) InspectFault.Package (package_of bytes.now) ≡ Err e) }
    ensures memory { IfErr result (λ e. e ≡ InspectFault.Memory → IsOk (package_of bytes.now)) }
{
    let contents = match Package::read(bytes) {
        Ok(contents) => contents,
        Err(fault) => return Err(InspectFault::Package(fault)),
    };
    let Ok(text) = digested_line(alloc, &contents) else {
        return Err(InspectFault::Memory);
    };
    Ok(text)
}

/// Returns the text of the inspection of a firmware package, followed by a line with the SHA-256 of
/// each component's image.
///
/// # Errors
/// `Package`, with the first fault, if the bytes aren't a package; `Memory` only if memory is
/// refused.
fn inspect_digested(alloc: Global, bytes: &[u8]) -> Result<Vec<u8>, InspectFault>
    ensures text { IfOk result (λ text. result_map_both digested_text (λ e. e) (package_of bytes.now) ≡ Ok text.items) }
    ensures fault { IfErr result (λ e. e ≢ InspectFault.Memory
        → result_map_both (λ p. p) InspectFault.Package (package_of bytes.now) ≡ Err e) }
    ensures memory { IfErr result (λ e. e ≡ InspectFault.Memory → IsOk (package_of bytes.now)) }
{
    let contents = match Package::read(bytes) {
        Ok(contents) => contents,
        Err(fault) => return Err(InspectFault::Package(fault)),
    };
    let Ok(mut text) = inspect(alloc, bytes) else {
        return Err(InspectFault::Memory);
    };
    let Ok(()) = push_images(alloc, &mut text, contents.components()) else {
        return Err(InspectFault::Memory);
    };
    Ok(text)
}

/// Returns the inspection of a firmware package, with the SHA-256 of each component's image, in a
/// format.
///
/// # Errors
/// `Package`, with the first fault, if the bytes aren't a package; `Memory` only if memory is
/// refused.
pub fn inspect_digested_in(alloc: Global, bytes: &[u8], form: Form) -> Result<Vec<u8>, InspectFault>
    ensures text { IfOk result (λ text. result_map_both (digested_in form) (λ e. e) (package_of bytes.now) ≡ Ok text.items) }
    ensures fault { IfErr result (λ e. e ≢ InspectFault.Memory
        → result_map_both (λ p. p) InspectFault.Package (package_of bytes.now) ≡ Err e) }
    ensures memory { IfErr result (λ e. e ≡ InspectFault.Memory → IsOk (package_of bytes.now)) }
{
    match form {
        Form::Text => inspect_digested(alloc, bytes),
        Form::Json => inspect_digested_json(alloc, bytes),
    }
}
