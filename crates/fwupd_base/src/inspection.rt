//! The output of `fwupd inspect`.

ghost use Rattle.std.specs.Prelude.{◌≡◌, ◌≢◌, ◌++◌, ◌+◌, IfErr, IfOk, IsOk, List, OnOk, length, ℕ};
ghost use Rattle.std.specs.List.{flat_map};
ghost use Rattle.std.specs.Result.{result_map_both};
ghost use Rattle.fw_text.specs.Printing.{AppendsText};
ghost use Rattle.fw_package.specs.Lent.{place_seen, record_seen};
ghost use Rattle.fw_package.specs.Outlines.{IsBeginning};
ghost use Rattle.fw_package.specs.Package.{descriptor_of};
ghost use Rattle.fw_package.specs.Reading.{package_of};
ghost use Rattle.fwupd_base.specs.Inspection.{component_line, components_text, descriptor_line, inspect_of, outline_text, package_line, record_line, records_text, record_text, use_text, uses_text};

use fw_package::{
    BEGINNING_SIZE, ComponentPlaces, Descriptor, Descriptors, Outline, PackageFault, Place, Record,
    Records, Uses,
};
use fw_text::{push_data, push_eight, push_four, push_number, push_quoted, push_words};
use std::alloc::{AllocError, Global};

/// Appends the package's line.
fn push_package(alloc: Global, text: &mut Vec<u8>, contents: &Outline<'_>) -> Result<(), AllocError>
    ensures { OnOk result (AppendsText text.old.items text.new.items (package_line contents.now)) }
{
    push_number(alloc, text, "package header ", contents.header_size())?;
    push_number(alloc, text, " records ", contents.record_count())?;
    push_number(alloc, text, " components ", contents.place_count())?;
    push_words(text, "\n")?;
    Ok(())
}

/// Appends a descriptor's line.
fn push_descriptor(
    alloc: Global,
    text: &mut Vec<u8>,
    descriptor: Descriptor<'_>,
) -> Result<(), AllocError>
    ensures { OnOk result (AppendsText text.old.items text.new.items (descriptor_line (descriptor_of descriptor.entry))) }
{
    push_four(alloc, text, "descriptor ", descriptor.kind)?;
    push_words(text, " ")?;
    push_data(alloc, text, descriptor.bytes)?;
    push_words(text, "\n")?;
    Ok(())
}

/// Appends the number of each component that a record uses.
#[tactic(auto, using(fw_text::proofs::Chains::telling))]
fn push_each_use(alloc: Global, text: &mut Vec<u8>, uses: Uses<'_>) -> Result<(), AllocError>
    ensures { OnOk result (AppendsText text.old.items text.new.items (flat_map use_text uses.entry)) }
{
    for component in uses {
        push_number(alloc, text, " ", usize::from(component) + 1)?;
    }
    Ok(())
}

/// Appends the numbers of the components that a record uses, or a dash.
#[tactic(auto, using(crate::proofs::Uses::uses_none, crate::proofs::Uses::uses_some))]
fn push_uses(alloc: Global, text: &mut Vec<u8>, uses: Uses<'_>) -> Result<(), AllocError>
    ensures { OnOk result (AppendsText text.old.items text.new.items (uses_text uses.entry)) }
{
    if uses.is_empty() {
        push_words(text, " -")?;
        return Ok(());
    }
    push_each_use(alloc, text, uses)?;
    Ok(())
}

/// Appends a record's line.
fn push_record_line(
    alloc: Global,
    text: &mut Vec<u8>,
    number: usize,
    contents: &Record<'_>,
) -> Result<(), AllocError>
    ensures { OnOk result (AppendsText text.old.items text.new.items (record_line number (record_seen contents.now))) }
{
    push_number(alloc, text, "record ", number)?;
    push_eight(alloc, text, " flags ", contents.flags)?;
    push_quoted(alloc, text, " set ", contents.set_text.bytes)?;
    push_words(text, " uses")?;
    push_uses(alloc, text, contents.uses.iter())?;
    push_words(text, "\n")?;
    Ok(())
}

/// Appends a component's line.
fn push_component(
    alloc: Global,
    text: &mut Vec<u8>,
    number: usize,
    contents: Place<'_>,
) -> Result<(), AllocError>
    ensures { OnOk result (AppendsText text.old.items text.new.items (component_line number (place_seen contents.entry))) }
{
    push_number(alloc, text, "component ", number)?;
    push_number(alloc, text, " class ", usize::from(contents.classification))?;
    push_number(alloc, text, " ident ", usize::from(contents.identifier))?;
    push_eight(alloc, text, " stamp ", contents.stamp)?;
    push_four(alloc, text, " options ", contents.options)?;
    push_number(alloc, text, " offset ", contents.offset)?;
    push_number(alloc, text, " size ", contents.size)?;
    push_quoted(alloc, text, " version ", contents.text.bytes)?;
    push_words(text, "\n")?;
    Ok(())
}

/// Appends the lines of a record's descriptors.
#[tactic(auto, using(fw_text::proofs::Chains::telling))]
fn push_descriptors(
    alloc: Global,
    text: &mut Vec<u8>,
    descriptors: Descriptors<'_>,
) -> Result<(), AllocError>
    ensures { OnOk result (AppendsText text.old.items text.new.items (flat_map descriptor_line descriptors.entry)) }
{
    for descriptor in descriptors {
        push_descriptor(alloc, text, descriptor)?;
    }
    Ok(())
}

/// Appends a record's line and the lines of its descriptors.
fn push_record(
    alloc: Global,
    text: &mut Vec<u8>,
    number: usize,
    contents: Record<'_>,
) -> Result<(), AllocError>
    ensures { OnOk result (AppendsText text.old.items text.new.items (record_text number (record_seen contents.entry))) }
{
    push_record_line(alloc, text, number, &contents)?;
    push_descriptors(alloc, text, contents.descriptors)?;
    Ok(())
}

/// Appends the lines of all records.
#[tactic(auto, using(fw_text::proofs::Chains::telling))]
fn push_records(
    alloc: Global,
    text: &mut Vec<u8>,
    mut records: Records<'_>,
) -> Result<(), AllocError>
    ensures { OnOk result (AppendsText text.old.items text.new.items (records_text 1 records.entry)) }
{
    for number in 0..records.len() {
        let Some(contents) = records.next() else {
            unreachable!()
        };
        push_record(alloc, text, number + 1, contents)?;
    }
    Ok(())
}

/// Appends the lines of all components.
#[tactic(auto, using(fw_text::proofs::Chains::telling))]
fn push_components(
    alloc: Global,
    text: &mut Vec<u8>,
    mut components: ComponentPlaces<'_>,
) -> Result<(), AllocError>
    ensures { OnOk result (AppendsText text.old.items text.new.items (components_text 1 components.entry)) }
{
    for number in 0..components.len() {
        let Some(contents) = components.next() else {
            unreachable!()
        };
        push_component(alloc, text, number + 1, contents)?;
    }
    Ok(())
}

/// The output of `fwupd inspect` for a package.
///
/// # Errors
/// `AllocError` if memory is refused.
fn inspection(alloc: Global, contents: &Outline<'_>) -> Result<Vec<u8>, AllocError>
    ensures { IfOk result (λ text. text.items ≡ outline_text contents.now) }
{
    let mut text = Vec::new(alloc);
    push_package(alloc, &mut text, contents)?;
    push_records(alloc, &mut text, contents.records())?;
    push_components(alloc, &mut text, contents.places())?;
    Ok(text)
}

/// Why a package can't be inspected.
#[derive(Clone, Copy, PartialEq, Eq)]
pub enum InspectFault {
    /// The bytes aren't a package.
    Package(PackageFault),
    /// Memory was refused.
    Memory,
}

/// Returns the part of a file that `inspect_beginning` takes: the first 65,535 bytes, or all if
/// there are fewer.
pub fn beginning_of(bytes: &[u8]) -> &[u8]
    ensures { IsBeginning bytes.now result.now (length bytes.now) }
{
    &bytes[..BEGINNING_SIZE.min(bytes.len())]
}

/// Returns the lines of a firmware package: the package, its records with their descriptors, and
/// its components.
///
/// # Errors
/// `Package`, with the first fault, if the bytes aren't a package; `Memory` only if memory is
/// refused.
pub fn inspect(alloc: Global, bytes: &[u8]) -> Result<Vec<u8>, InspectFault>
    ensures text { IfOk result (λ text. result_map_both inspect_of (λ e. e) (package_of bytes.now) ≡ Ok text.items) }
    ensures fault { IfErr result (λ e. e ≢ InspectFault.Memory
        → result_map_both (λ p. p) InspectFault.Package (package_of bytes.now) ≡ Err e) }
    ensures memory { IfErr result (λ e. e ≡ InspectFault.Memory → IsOk (package_of bytes.now)) }
{
    inspect_beginning(alloc, beginning_of(bytes), bytes.len())
}

/// Returns the lines of the firmware package in a file of `file_length` bytes. `beginning` is the
/// first 65,535 of them, or all if there are fewer.
///
/// # Errors
/// `Package`, with the first fault, if the file isn't a package; `Memory` only if memory is
/// refused.
pub fn inspect_beginning(
    alloc: Global,
    beginning: &[u8],
    file_length: usize,
) -> Result<Vec<u8>, InspectFault>
    ensures text { (file : List ℕ)
        → IsBeginning file beginning.now file_length
        → IfOk result (λ text. result_map_both inspect_of (λ e. e) (package_of file)
        ≡ Ok text.items) }
    ensures fault { (file : List ℕ)
        → IsBeginning file beginning.now file_length
        → IfErr result (λ e. e ≢ InspectFault.Memory
        → result_map_both (λ p. p) InspectFault.Package (package_of file) ≡ Err e) }
    ensures memory { (file : List ℕ)
        → IsBeginning file beginning.now file_length
        → IfErr result (λ e. e ≡ InspectFault.Memory → IsOk (package_of file)) }
{
    let contents = match Outline::read(beginning, file_length) {
        Ok(contents) => contents,
        Err(fault) => return Err(InspectFault::Package(fault)),
    };
    let Ok(text) = inspection(alloc, &contents) else {
        return Err(InspectFault::Memory);
    };
    Ok(text)
}
