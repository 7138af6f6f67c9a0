//! The warnings about the description of a package: it may say this, but that is nearly always a
//! mistake.

ghost use Rattle.std.specs.Prelude.{◌≡◌, ◌+◌, IfOk, OnOk, map};
ghost use Rattle.std.specs.List.{flat_map};
ghost use Rattle.fw_package.specs.Writing.{is_used};
ghost use Rattle.fw_text.specs.Printing.{AppendsText};
ghost use Rattle.fw_script.specs.PackageSpecs.{spec_component_of, spec_descriptor_of, spec_record_of, spec_seen};
ghost use Rattle.fwupd_clues.specs.Warnings.{bare_record_warning, component_warning, descriptor_warning, is_used_by_any, lengths_text, record_warning_head, record_warnings, standard_length, unused_warning, wanted_length, warnings_of_components, warnings_of_records, warnings_text};

use fw_script::{PackageSpec, SpecComponent, SpecDescriptor, SpecRecord};
use fw_text::{push_four, push_next, push_number, push_words};
use std::alloc::{AllocError, Global};

/// The length of a descriptor's data, in bytes, that DSP0267 1.0 gives its type, if it gives one.
#[tactic(auto, unfolding(crate::specs::Warnings::standard_length))]
fn standard_length(kind: u16) -> Option<usize>
    ensures { result ≡ standard_length kind }
{
    match kind {
        0x0000 => Some(2),
        0x0001 => Some(4),
        0x0002 => Some(16),
        0x0003 => Some(3),
        0x0004 => Some(4),
        0x0100 => Some(2),
        0x0101 => Some(2),
        0x0102 => Some(2),
        0x0103 => Some(1),
        0x0104 => Some(4),
        0x0105 => Some(4),
        _ => None,
    }
}

/// The length that a descriptor's data is to have, if it has another.
#[tactic(auto, unfolding(crate::specs::Warnings::wanted_length))]
fn wanted_length(descriptor: &SpecDescriptor) -> Option<usize>
    ensures { result ≡ wanted_length (spec_descriptor_of descriptor.now) }
{
    let wanted = standard_length(descriptor.kind)?;
    if descriptor.bytes.len() == wanted {
        return None;
    }
    Some(wanted)
}

/// Appends the beginning of a line about a record.
#[tactic(auto, unfolding(crate::specs::Warnings::record_warning_head))]
fn push_record_head(
    alloc: Global,
    text: &mut Vec<u8>,
    path: &str,
    number: usize,
) -> Result<(), AllocError>
    ensures { OnOk result (AppendsText text.old.items text.new.items (record_warning_head path.now number)) }
{
    push_words(text, path)?;
    push_number(alloc, text, ": record ", number)?;
    Ok(())
}

/// Appends the line of a record that has no descriptor.
#[tactic(auto, unfolding(crate::specs::Warnings::bare_record_warning))]
fn push_bare(alloc: Global, text: &mut Vec<u8>, path: &str, number: usize) -> Result<(), AllocError>
    ensures { OnOk result (AppendsText text.old.items text.new.items (bare_record_warning path.now number)) }
{
    push_record_head(alloc, text, path, number)?;
    push_words(text, " has no descriptor: it is for no device\n")?;
    Ok(())
}

/// Appends the end of a line about a descriptor: its type, and the two lengths.
fn push_lengths(
    alloc: Global,
    text: &mut Vec<u8>,
    descriptor: &SpecDescriptor,
    wanted: usize,
) -> Result<(), AllocError>
    ensures { OnOk result (AppendsText text.old.items text.new.items (lengths_text (spec_descriptor_of descriptor.now) wanted)) }
{
    let bytes = descriptor.bytes.as_slice();
    push_four(alloc, text, ": descriptor ", descriptor.kind)?;
    push_number(alloc, text, " has ", bytes.len())?;
    push_number(alloc, text, " bytes, and DSP0267 gives it ", wanted)?;
    push_words(text, "\n")?;
    Ok(())
}

/// Appends the warning about a descriptor of a record, if its data hasn't the length that its type
/// is given.
#[tactic(auto, unfolding(crate::specs::Warnings::descriptor_warning))]
fn push_descriptor(
    alloc: Global,
    text: &mut Vec<u8>,
    path: &str,
    number: usize,
    descriptor: &SpecDescriptor,
) -> Result<(), AllocError>
    ensures { OnOk result (AppendsText text.old.items text.new.items
        (descriptor_warning path.now number (spec_descriptor_of descriptor.now))) }
{
    let Some(wanted) = wanted_length(descriptor) else {
        return Ok(());
    };
    push_record_head(alloc, text, path, number)?;
    push_lengths(alloc, text, descriptor, wanted)?;
    Ok(())
}

/// Appends the warnings about the descriptors of a record.
#[tactic(auto, using(fw_text::proofs::Chains::telling))]
fn push_descriptors(
    alloc: Global,
    text: &mut Vec<u8>,
    path: &str,
    number: usize,
    descriptors: &[SpecDescriptor],
) -> Result<(), AllocError>
    ensures { OnOk result (AppendsText text.old.items text.new.items
        (flat_map (descriptor_warning path.now number) (map spec_descriptor_of descriptors.now))) }
{
    for descriptor in descriptors {
        push_descriptor(alloc, text, path, number, descriptor)?;
    }
    Ok(())
}

/// Appends the warnings about a record with these descriptors.
#[tactic(auto, unfolding(crate::specs::Warnings::record_warnings))]
fn push_record(
    alloc: Global,
    text: &mut Vec<u8>,
    path: &str,
    number: usize,
    descriptors: &[SpecDescriptor],
) -> Result<(), AllocError>
    ensures { OnOk result (AppendsText text.old.items text.new.items
        (record_warnings path.now number (map spec_descriptor_of descriptors.now))) }
{
    if descriptors.is_empty() {
        push_bare(alloc, text, path, number)?;
    } else {
        push_descriptors(alloc, text, path, number, descriptors)?;
    }
    Ok(())
}

/// Appends the warnings about all records.
#[tactic(auto, using(fw_text::proofs::Chains::telling))]
fn push_records(
    alloc: Global,
    text: &mut Vec<u8>,
    path: &str,
    records: &[SpecRecord],
) -> Result<(), AllocError>
    ensures { OnOk result (AppendsText text.old.items text.new.items
        (warnings_of_records path.now 1 (map spec_record_of records.now))) }
{
    for (place, record) in records.iter().enumerate() {
        push_record(alloc, text, path, place + 1, record.descriptors.as_slice())?;
    }
    Ok(())
}

/// Whether a component, counted from 0, is among these.
fn is_among(uses: &[u16], component: usize) -> bool
    ensures { result ≡ is_used uses.now component }
{
    for used in uses {
        if usize::from(*used) == component {
            return true;
        }
    }
    false
}

/// Whether any record uses a component, which is counted from 0.
fn is_used_by_any(records: &[SpecRecord], component: usize) -> bool
    ensures { result ≡ is_used_by_any (map spec_record_of records.now) component }
{
    for record in records {
        if is_among(record.uses.as_slice(), component) {
            return true;
        }
    }
    false
}

/// Appends the line of a component, counted from 0, that no record uses.
fn push_unused(
    alloc: Global,
    text: &mut Vec<u8>,
    path: &str,
    component: usize,
) -> Result<(), AllocError>
    ensures { OnOk result (AppendsText text.old.items text.new.items (unused_warning path.now (component + 1))) }
{
    push_words(text, path)?;
    push_next(alloc, text, ": component ", component)?;
    push_words(text, " is used by no record\n")?;
    Ok(())
}

/// Appends the warning about a component, counted from 0, if no record uses it.
#[tactic(auto, unfolding(crate::specs::Warnings::component_warning))]
fn push_component(
    alloc: Global,
    text: &mut Vec<u8>,
    path: &str,
    records: &[SpecRecord],
    component: usize,
) -> Result<(), AllocError>
    ensures { OnOk result (AppendsText text.old.items text.new.items
        (component_warning path.now (map spec_record_of records.now) component)) }
{
    if is_used_by_any(records, component) {
        return Ok(());
    }
    push_unused(alloc, text, path, component)?;
    Ok(())
}

/// Appends the warnings about all components.
#[tactic(auto, using(fw_text::proofs::Chains::telling))]
fn push_components(
    alloc: Global,
    text: &mut Vec<u8>,
    path: &str,
    records: &[SpecRecord],
    components: &[SpecComponent],
) -> Result<(), AllocError>
    ensures { OnOk result (AppendsText text.old.items text.new.items
        (warnings_of_components path.now (map spec_record_of records.now) 0 (map spec_component_of components.now))) }
{
    for (place, _) in components.iter().enumerate() {
        push_component(alloc, text, path, records, place)?;
    }
    Ok(())
}

/// Returns the warnings about a package description that is read from this path, a line each.
///
/// # Errors
/// `AllocError` if memory for the text is refused.
pub(crate) fn warnings(alloc: Global, path: &str, spec: &PackageSpec) -> Result<Vec<u8>, AllocError>
    ensures { IfOk result (λ text. text.items ≡ warnings_text path.now (spec_seen spec.now)) }
{
    let records = spec.records.as_slice();
    let mut text = Vec::new(alloc);
    push_records(alloc, &mut text, path, records)?;
    push_components(alloc, &mut text, path, records, spec.components.as_slice())?;
    Ok(text)
}
