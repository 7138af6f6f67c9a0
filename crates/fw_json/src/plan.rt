//! The plan of an update as a JSON value.

ghost use Rattle.std.specs.Prelude.{◌≡◌, ◌<◌, All, IfOk, OnOk, length, map, option_map};
ghost use Rattle.json.specs.Tree.{items_tokens, json_tokens};
ghost use Rattle.fw_package.specs.Choice.{plan_of, record_at};
ghost use Rattle.fw_package.specs.Lent.{component_seen, record_seen};
ghost use Rattle.fw_package.specs.Package.{descriptor_of};
ghost use Rattle.fw_script.specs.Seen.{component_of, device_of};
ghost use Rattle.fw_setup.specs.Nodes.{row_made};
ghost use Rattle.fw_json.specs.Inspections.{descriptor_value};
ghost use Rattle.fw_json.specs.Plans.{chosen_value, configured_value, lack_value, offer_items, offer_value, plan_value, planned_value, running_value, unmet_value};
ghost use Rattle.fw_json.specs.Values.{ReadsBack, numbered_items, items, line_of, optional_value};
ghost use Rattle.fw_json.specs.Writing.{AppendsTokens};

use crate::fields::{
    close_array, close_object, line, open_array_field, open_object, push_key, push_next_field,
    push_null, push_number_field, push_text_field, push_word_field,
};
use crate::inspection::push_descriptor;
use fw_package::{Component, Descriptor, Package, Record, Records};
use fw_script::{ComponentConfig, DeviceConfig};
use fw_setup::{
    component_word, first_lacked, key, known, passed, plan_word, running, sent_stamp, update_word,
};
use json::Writer;
use std::alloc::{AllocError, Global};

/// Writes a descriptor, or null.
fn push_lacked(
    alloc: Global,
    writer: &mut Writer,
    lacked: Option<Descriptor<'_>>,
) -> Result<(), AllocError>
    ensures { OnOk result (AppendsTokens writer.old writer.new
        (json_tokens (optional_value descriptor_value (option_map descriptor_of lacked.entry)))) }
{
    match lacked {
        Some(descriptor) => push_descriptor(alloc, writer, descriptor),
        None => push_null(writer),
    }
}

/// Writes why a record doesn't apply to a device: the descriptor that the device lacks, or null if
/// the record has no descriptors.
fn push_lack(
    alloc: Global,
    writer: &mut Writer,
    device: &[Descriptor<'_>],
    number: usize,
    contents: Record<'_>,
) -> Result<(), AllocError>
    ensures { OnOk result (AppendsTokens writer.old writer.new
        (json_tokens (lack_value (map descriptor_of device.now) number
        (record_seen contents.entry)))) }
{
    open_object(writer)?;
    push_number_field(writer, "record", number)?;
    push_key(writer, "descriptor")?;
    push_lacked(alloc, writer, first_lacked(device, contents.descriptors))?;
    close_object(writer)?;
    Ok(())
}

/// Writes, for each record, why it doesn't apply to a device, and ends the array.
#[tactic(auto, using(crate::proofs::Chains::telling))]
fn push_lacks(
    alloc: Global,
    writer: &mut Writer,
    device: &[Descriptor<'_>],
    mut records: Records<'_>,
) -> Result<(), AllocError>
    ensures { OnOk result (AppendsTokens writer.old writer.new
        (items_tokens (numbered_items (lack_value (map descriptor_of device.now)) 1
        records.entry))) }
{
    for number in 0..records.len() {
        let Some(contents) = records.next() else {
            unreachable!()
        };
        push_lack(alloc, writer, device, number + 1, contents)?;
    }
    close_array(writer)?;
    Ok(())
}

/// Writes the active image of a component.
fn push_running(
    alloc: Global,
    writer: &mut Writer,
    config: &ComponentConfig,
) -> Result<(), AllocError>
    ensures { OnOk result (AppendsTokens writer.old writer.new (json_tokens (running_value (row_made (component_of config.now))))) }
{
    open_object(writer)?;
    push_number_field(writer, "stamp", config.label.stamp() as usize)?;
    push_text_field(alloc, writer, "version", config.label.text.as_slice())?;
    close_object(writer)?;
    Ok(())
}

/// Writes the active image of a component, or null.
fn push_active(
    alloc: Global,
    writer: &mut Writer,
    active: Option<&ComponentConfig>,
) -> Result<(), AllocError>
    ensures { OnOk result (AppendsTokens writer.old writer.new
        (json_tokens (optional_value running_value (option_map (λ c. row_made (component_of c.now))
        active.entry)))) }
{
    match active {
        Some(config) => push_running(alloc, writer, config),
        None => push_null(writer),
    }
}

/// Writes a component that is offered to a device.
fn push_offer(
    alloc: Global,
    writer: &mut Writer,
    components: &[ComponentConfig],
    component: Component<'_>,
) -> Result<(), AllocError>
    ensures { OnOk result (AppendsTokens writer.old writer.new
        (json_tokens (offer_value (map row_made (map component_of components.now))
        (component_seen component.entry)))) }
{
    open_object(writer)?;
    push_number_field(
        writer,
        "classification",
        usize::from(component.classification),
    )?;
    push_number_field(writer, "identifier", usize::from(component.identifier))?;
    push_number_field(writer, "size", component.image.len())?;
    push_number_field(writer, "stamp", sent_stamp(component) as usize)?;
    push_text_field(alloc, writer, "version", component.text.bytes)?;
    push_key(writer, "active")?;
    push_active(alloc, writer, running(components, key(component)))?;
    push_word_field(
        writer,
        "word",
        component_word(component, passed(components, component)),
    )?;
    close_object(writer)?;
    Ok(())
}

/// Writes the listed components of a package, and ends the array.
#[tactic(auto, using(crate::proofs::Chains::telling))]
fn push_offers(
    alloc: Global,
    writer: &mut Writer,
    components: &[ComponentConfig],
    contents: &Package<'_>,
    numbers: &[usize],
) -> Result<(), AllocError>
    requires { All (λ n. n < length contents.now.components) numbers.now }
    ensures { OnOk result (AppendsTokens writer.old writer.new
        (items_tokens (offer_items contents.now (map row_made (map component_of components.now))
        numbers.now))) }
{
    for number in numbers {
        push_offer(alloc, writer, components, contents.component_at(*number))?;
    }
    close_array(writer)?;
    Ok(())
}

/// Writes a device to which no record applies.
fn push_unmet(
    alloc: Global,
    writer: &mut Writer,
    eid: u8,
    contents: &Package<'_>,
    device: &[Descriptor<'_>],
) -> Result<(), AllocError>
    ensures { OnOk result (AppendsTokens writer.old writer.new
        (json_tokens (unmet_value eid contents.now (map descriptor_of device.now)))) }
{
    open_object(writer)?;
    push_number_field(writer, "eid", usize::from(eid))?;
    push_key(writer, "record")?;
    push_null(writer)?;
    push_key(writer, "set")?;
    push_null(writer)?;
    push_word_field(writer, "word", "NoRecord")?;
    open_array_field(writer, "lacks")?;
    push_lacks(alloc, writer, device, contents.records())?;
    open_array_field(writer, "components")?;
    close_array(writer)?;
    close_object(writer)?;
    Ok(())
}

/// Writes a device with its record, and the listed components of the package.
fn push_chosen(
    alloc: Global,
    writer: &mut Writer,
    eid: u8,
    chosen: usize,
    word: &str,
    contents: &Package<'_>,
    components: &[ComponentConfig],
    numbers: &[usize],
) -> Result<(), AllocError>
    requires chosen { chosen < length contents.now.records }
    requires there { All (λ n. n < length contents.now.components) numbers.now }
    ensures { OnOk result (AppendsTokens writer.old writer.new
        (json_tokens (chosen_value eid chosen (record_at contents.now chosen) word.now
        (offer_items contents.now (map row_made (map component_of components.now)) numbers.now)))) }
{
    open_object(writer)?;
    push_number_field(writer, "eid", usize::from(eid))?;
    push_next_field(alloc, writer, "record", chosen)?;
    let set = contents.record_at(chosen).set_text;
    push_text_field(alloc, writer, "set", set.bytes)?;
    push_word_field(writer, "word", word)?;
    open_array_field(writer, "lacks")?;
    close_array(writer)?;
    open_array_field(writer, "components")?;
    push_offers(alloc, writer, components, contents, numbers)?;
    close_object(writer)?;
    Ok(())
}

/// Writes a device with its record, by the record's plan.
fn push_planned(
    alloc: Global,
    writer: &mut Writer,
    eid: u8,
    chosen: usize,
    contents: &Package<'_>,
    components: &[ComponentConfig],
) -> Result<(), AllocError>
    requires { chosen < length contents.now.records }
    ensures { OnOk result (AppendsTokens writer.old writer.new
        (json_tokens (planned_value eid chosen contents.now (map row_made
        (map component_of components.now)) (plan_of contents.now chosen)))) }
{
    let plan = match contents.plan(chosen) {
        Ok(plan) => plan,
        Err(fault) => {
            let word = plan_word(fault);
            return push_chosen(alloc, writer, eid, chosen, word, contents, components, &[]);
        }
    };
    let numbers = plan.as_slice();
    let word = update_word(components, contents, numbers);
    push_chosen(
        alloc, writer, eid, chosen, word, contents, components, numbers,
    )
}

/// Writes a device of a configuration.
fn push_device(
    alloc: Global,
    writer: &mut Writer,
    contents: &Package<'_>,
    device: &DeviceConfig,
) -> Result<(), AllocError>
    ensures { OnOk result (AppendsTokens writer.old writer.new
        (json_tokens (configured_value contents.now (device_of device.now)))) }
{
    let eid = device.endpoint.eid;
    let known = known(alloc, device.descriptors.lent())?;
    match contents.record_for(known.as_slice()) {
        None => push_unmet(alloc, writer, eid, contents, known.as_slice()),
        Some(chosen) => {
            let components = device.components.as_slice();
            push_planned(alloc, writer, eid, chosen, contents, components)
        }
    }
}

/// Writes the devices of a configuration, and ends the array.
#[tactic(auto, using(crate::proofs::Chains::telling))]
fn push_devices(
    alloc: Global,
    writer: &mut Writer,
    contents: &Package<'_>,
    devices: &[DeviceConfig],
) -> Result<(), AllocError>
    ensures { OnOk result (AppendsTokens writer.old writer.new
        (items_tokens (items (configured_value contents.now) (map device_of devices.now)))) }
{
    for device in devices {
        push_device(alloc, writer, contents, device)?;
    }
    close_array(writer)?;
    Ok(())
}

/// Writes the plan of an update for the devices.
fn push_plan(
    alloc: Global,
    writer: &mut Writer,
    number: usize,
    contents: &Package<'_>,
    devices: &[DeviceConfig],
) -> Result<(), AllocError>
    ensures { OnOk result (AppendsTokens writer.old writer.new
        (json_tokens (plan_value number contents.now (map device_of devices.now)))) }
{
    open_object(writer)?;
    push_word_field(writer, "format", "fwupd-plan/1")?;
    push_number_field(writer, "package", number)?;
    open_array_field(writer, "devices")?;
    push_devices(alloc, writer, contents, devices)?;
    close_object(writer)?;
    Ok(())
}

/// Returns the plan of an update with package `number` for each device, as a JSON value on one
/// line. Without its line feed, the line decodes to that value.
///
/// # Errors
/// `AllocError` if memory is refused.
pub fn plan_json(
    alloc: Global,
    number: usize,
    contents: &Package<'_>,
    devices: &[DeviceConfig],
) -> Result<Vec<u8>, AllocError>
    ensures line { IfOk result (λ text. text.items ≡ line_of (plan_value number contents.now (map device_of devices.now))) }
    ensures reads_back { OnOk result (ReadsBack (plan_value number contents.now (map device_of devices.now))) }
{
    let mut writer = Writer::new(Vec::new(alloc));
    push_plan(alloc, &mut writer, number, contents, devices)?;
    line(writer)
}
