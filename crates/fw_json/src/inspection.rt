//! The inspection of a package as a JSON value.

ghost use Rattle.std.specs.Prelude.{◌≡◌, ◌≢◌, ◌+◌, ◌∷◌, Err, IfErr, IfOk, IsOk, List, OnOk, Ok, ℕ};
ghost use Rattle.std.specs.Result.{result_map_both};
ghost use Rattle.json.specs.Token.{begin_object};
ghost use Rattle.json.specs.Tree.{items_tokens, json_tokens};
ghost use Rattle.fw_package.specs.Lent.{place_seen, record_seen};
ghost use Rattle.fw_package.specs.Outlines.{IsBeginning};
ghost use Rattle.fw_package.specs.Package.{descriptor_of};
ghost use Rattle.fw_package.specs.Reading.{package_of};
ghost use Rattle.fw_json.specs.Inspections.{component_members, component_value, descriptor_value, heading_members, inspection_value, outline_value, record_value, use_value};
ghost use Rattle.fw_json.specs.Values.{ReadsBack, field_tokens, numbered_items, items, line_of};
ghost use Rattle.fw_json.specs.Writing.{AppendsTokens};

use crate::fields::{
    close_array, close_object, line, open_array_field, open_object, push_digits_field, push_next,
    push_number_field, push_text_field, push_word_field,
};
use fw_package::{ComponentPlaces, Descriptor, Descriptors, Outline, Place, Record, Records, Uses};
use fwupd_base::{InspectFault, beginning_of};
use json::Writer;
use std::alloc::{AllocError, Global};

/// Writes a descriptor.
#[tactic(auto, unfolding(crate::specs::Inspections::descriptor_value))]
pub(crate) fn push_descriptor(
    alloc: Global,
    writer: &mut Writer,
    descriptor: Descriptor<'_>,
) -> Result<(), AllocError>
    ensures { OnOk result (AppendsTokens writer.old writer.new (json_tokens (descriptor_value (descriptor_of descriptor.entry)))) }
{
    open_object(writer)?;
    push_number_field(writer, "type", usize::from(descriptor.kind))?;
    push_digits_field(alloc, writer, "data", descriptor.bytes)?;
    close_object(writer)?;
    Ok(())
}

/// Writes the descriptors of a record, and ends the array.
#[tactic(auto, using(crate::proofs::Chains::telling))]
fn push_descriptors(
    alloc: Global,
    writer: &mut Writer,
    descriptors: Descriptors<'_>,
) -> Result<(), AllocError>
    ensures { OnOk result (AppendsTokens writer.old writer.new (items_tokens (items descriptor_value descriptors.entry))) }
{
    for descriptor in descriptors {
        push_descriptor(alloc, writer, descriptor)?;
    }
    close_array(writer)?;
    Ok(())
}

/// Writes the number of each component that a record uses, and ends the array.
#[tactic(auto, using(crate::proofs::Chains::telling))]
fn push_uses(alloc: Global, writer: &mut Writer, uses: Uses<'_>) -> Result<(), AllocError>
    ensures { OnOk result (AppendsTokens writer.old writer.new (items_tokens (items use_value uses.entry))) }
{
    for component in uses {
        push_next(alloc, writer, usize::from(component))?;
    }
    close_array(writer)?;
    Ok(())
}

/// Writes a record.
fn push_record(
    alloc: Global,
    writer: &mut Writer,
    number: usize,
    contents: Record<'_>,
) -> Result<(), AllocError>
    ensures { OnOk result (AppendsTokens writer.old writer.new (json_tokens (record_value number (record_seen contents.entry)))) }
{
    open_object(writer)?;
    push_number_field(writer, "number", number)?;
    push_number_field(writer, "flags", contents.flags as usize)?;
    push_text_field(alloc, writer, "set", contents.set_text.bytes)?;
    open_array_field(writer, "uses")?;
    push_uses(alloc, writer, contents.uses.iter())?;
    open_array_field(writer, "descriptors")?;
    push_descriptors(alloc, writer, contents.descriptors)?;
    close_object(writer)?;
    Ok(())
}

/// Writes all records, and ends the array.
#[tactic(auto, using(crate::proofs::Chains::telling))]
pub(crate) fn push_records(
    alloc: Global,
    writer: &mut Writer,
    mut records: Records<'_>,
) -> Result<(), AllocError>
    ensures { OnOk result (AppendsTokens writer.old writer.new (items_tokens (numbered_items record_value 1 records.entry))) }
{
    for number in 0..records.len() {
        let Some(contents) = records.next() else {
            unreachable!()
        };
        push_record(alloc, writer, number + 1, contents)?;
    }
    close_array(writer)?;
    Ok(())
}

/// Begins the object of a component, and writes the members of each component.
pub(crate) fn push_component_members(
    alloc: Global,
    writer: &mut Writer,
    number: usize,
    contents: &Place<'_>,
) -> Result<(), AllocError>
    ensures { OnOk result (AppendsTokens writer.old writer.new
        (begin_object ∷ field_tokens (component_members number (place_seen contents.now)))) }
{
    open_object(writer)?;
    push_number_field(writer, "number", number)?;
    push_number_field(
        writer,
        "classification",
        usize::from(contents.classification),
    )?;
    push_number_field(writer, "identifier", usize::from(contents.identifier))?;
    push_number_field(writer, "stamp", contents.stamp as usize)?;
    push_number_field(writer, "options", usize::from(contents.options))?;
    push_number_field(writer, "activation_methods", usize::from(contents.method))?;
    push_number_field(writer, "offset", contents.offset)?;
    push_number_field(writer, "size", contents.size)?;
    push_text_field(alloc, writer, "version", contents.text.bytes)?;
    Ok(())
}

/// Writes a component.
#[tactic(auto, unfolding(crate::specs::Inspections::component_members, crate::specs::Inspections::component_value))]
fn push_component(
    alloc: Global,
    writer: &mut Writer,
    number: usize,
    contents: Place<'_>,
) -> Result<(), AllocError>
    ensures { OnOk result (AppendsTokens writer.old writer.new (json_tokens (component_value number (place_seen contents.entry)))) }
{
    push_component_members(alloc, writer, number, &contents)?;
    close_object(writer)?;
    Ok(())
}

/// Writes all components, and ends the array.
#[tactic(auto, using(crate::proofs::Chains::telling))]
fn push_components(
    alloc: Global,
    writer: &mut Writer,
    mut components: ComponentPlaces<'_>,
) -> Result<(), AllocError>
    ensures { OnOk result (AppendsTokens writer.old writer.new (items_tokens (numbered_items component_value 1 components.entry))) }
{
    for number in 0..components.len() {
        let Some(contents) = components.next() else {
            unreachable!()
        };
        push_component(alloc, writer, number + 1, contents)?;
    }
    close_array(writer)?;
    Ok(())
}

/// Begins the object of a package, and writes its first members.
pub(crate) fn push_heading(
    alloc: Global,
    writer: &mut Writer,
    header_size: usize,
    release: &[u8],
    version: &[u8],
) -> Result<(), AllocError>
    ensures { OnOk result (AppendsTokens writer.old writer.new
        (begin_object ∷ field_tokens (heading_members header_size release.now version.now))) }
{
    open_object(writer)?;
    push_word_field(writer, "format", "fwupd-inspect/1")?;
    push_number_field(writer, "header_size", header_size)?;
    push_digits_field(alloc, writer, "release", release)?;
    push_text_field(alloc, writer, "version", version)?;
    Ok(())
}

/// Writes a package.
fn push_package(
    alloc: Global,
    writer: &mut Writer,
    contents: &Outline<'_>,
) -> Result<(), AllocError>
    ensures { OnOk result (AppendsTokens writer.old writer.new (json_tokens (outline_value contents.now))) }
{
    push_heading(
        alloc,
        writer,
        contents.header_size(),
        contents.release(),
        contents.version().bytes,
    )?;
    open_array_field(writer, "records")?;
    push_records(alloc, writer, contents.records())?;
    open_array_field(writer, "components")?;
    push_components(alloc, writer, contents.places())?;
    close_object(writer)?;
    Ok(())
}

/// The line of a package.
fn inspection(alloc: Global, contents: &Outline<'_>) -> Result<Vec<u8>, AllocError>
    ensures line { IfOk result (λ text. text.items ≡ line_of (outline_value contents.now)) }
    ensures reads_back { OnOk result (ReadsBack (outline_value contents.now)) }
{
    let mut writer = Writer::new(Vec::new(alloc));
    push_package(alloc, &mut writer, contents)?;
    line(writer)
}

/// Returns the inspection of a firmware package as a JSON value on one line: its records with their
/// descriptors, and its components. Without its line feed, the line decodes to that value.
///
/// # Errors
/// `Package`, with the first fault, if the bytes aren't a package; `Memory` only if memory is
/// refused.
pub fn inspect_json(alloc: Global, bytes: &[u8]) -> Result<Vec<u8>, InspectFault>
    ensures line { IfOk result (λ text. result_map_both (λ p. line_of (inspection_value p)) (λ e. e)
        (package_of bytes.now) ≡ Ok text.items) }
    ensures reads_back { OnOk result (IfOk (package_of bytes.now) (λ p. ReadsBack (inspection_value p))) }
    ensures fault { IfErr result (λ e. e ≢ InspectFault.Memory
        → result_map_both (λ p. p) InspectFault.Package (package_of bytes.now) ≡ Err e) }
    ensures memory { IfErr result (λ e. e ≡ InspectFault.Memory → IsOk (package_of bytes.now)) }
{
    inspect_json_beginning(alloc, beginning_of(bytes), bytes.len())
}

/// Returns the same for the firmware package in a file of `file_length` bytes. `beginning` is the
/// first 65,535 of them, or all if there are fewer.
///
/// # Errors
/// `Package`, with the first fault, if the file isn't a package; `Memory` only if memory is
/// refused.
pub fn inspect_json_beginning(
    alloc: Global,
    beginning: &[u8],
    file_length: usize,
) -> Result<Vec<u8>, InspectFault>
    ensures line { (file : List ℕ)
        → IsBeginning file beginning.now file_length
        → IfOk result (λ text. result_map_both (λ p. line_of (inspection_value p)) (λ e. e)
        (package_of file) ≡ Ok text.items) }
    ensures reads_back { (file : List ℕ)
        → IsBeginning file beginning.now file_length
        → OnOk result (IfOk (package_of file) (λ p. ReadsBack (inspection_value p))) }
    ensures fault { (file : List ℕ)
        → IsBeginning file beginning.now file_length
        → IfErr result (λ e. e ≢ InspectFault.Memory
        → result_map_both (λ p. p) InspectFault.Package (package_of file) ≡ Err e) }
    ensures memory { (file : List ℕ)
        → IsBeginning file beginning.now file_length
        → IfErr result (λ e. e ≡ InspectFault.Memory → IsOk (package_of file)) }
{
    let contents = match Outline::read(beginning, file_length) {
        Ok(contents) => contents,
        Err(fault) => return Err(InspectFault::Package(fault)),
    };
    let Ok(text) = inspection(alloc, &contents) else {
        return Err(InspectFault::Memory);
    };
    Ok(text)
}
