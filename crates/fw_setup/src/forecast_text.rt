//! The text of an update's forecast.

ghost use Rattle.std.specs.Prelude.{◌≡◌, ◌<◌, ◌++◌, All, IfOk, OnOk, length, map, option_map};
ghost use Rattle.std.specs.List.{flat_map};
ghost use Rattle.fd_core.specs.Images.{row_of};
ghost use Rattle.fw_package.specs.Choice.{plan_of};
ghost use Rattle.fw_package.specs.Lent.{component_seen, record_seen};
ghost use Rattle.fw_package.specs.Package.{descriptor_of};
ghost use Rattle.fw_script.specs.Seen.{component_of, device_of};
ghost use Rattle.fw_text.specs.Printing.{AppendsText};
ghost use Rattle.ua_core.specs.Lent.{package_descriptor};
ghost use Rattle.fw_setup.specs.Forecasts.{active_text, chosen_line, configured_text, device_head, forecast_of, lack_line, lack_lines, no_record_line, offer_line, offer_lines, planned_text};
ghost use Rattle.fw_setup.specs.Nodes.{row_made};

use crate::foretold::{
    component_word, first_lacked, key, passed, plan_word, running, sent_stamp, update_word,
};
use fw_package::{Component, Descriptor, Package, Plan, Record, Records};
use fw_script::{ComponentConfig, DeviceConfig};
use fw_text::{push_data, push_eight, push_four, push_next, push_number, push_quoted, push_words};
use fwup_wire::DeviceDescriptors;
use std::alloc::{AllocError, Global};

/// The update that is forecast: its device, and the number of its package, from 1.
#[derive(Clone, Copy)]
struct Meant {
    number: usize,
    eid: u8,
}

/// Appends the head of a device's line.
fn push_head(alloc: Global, text: &mut Vec<u8>, meant: Meant) -> Result<(), AllocError>
    ensures { OnOk result (AppendsText text.old.items text.new.items (device_head meant.number meant.eid)) }
{
    push_number(alloc, text, "device ", usize::from(meant.eid))?;
    push_number(alloc, text, " package ", meant.number)?;
    Ok(())
}

/// Appends the line of a device for which there is no record.
fn push_no_record(alloc: Global, text: &mut Vec<u8>, meant: Meant) -> Result<(), AllocError>
    ensures { OnOk result (AppendsText text.old.items text.new.items (no_record_line meant.number meant.eid)) }
{
    push_head(alloc, text, meant)?;
    push_words(text, " record - set - NoRecord\n")?;
    Ok(())
}

/// Appends the line of a device with a record, and the outcome of its update.
fn push_chosen(
    alloc: Global,
    text: &mut Vec<u8>,
    meant: Meant,
    chosen: usize,
    contents: &Record<'_>,
    word: &str,
) -> Result<(), AllocError>
    ensures { OnOk result (AppendsText text.old.items text.new.items
        (chosen_line meant.number meant.eid chosen (record_seen contents.now) word.now)) }
{
    push_head(alloc, text, meant)?;
    push_next(alloc, text, " record ", chosen)?;
    push_quoted(alloc, text, " set ", contents.set_text.bytes)?;
    push_words(text, " ")?;
    push_words(text, word)?;
    push_words(text, "\n")?;
    Ok(())
}

/// Appends the reason why a record isn't for a device: the descriptor that it lacks, or that the
/// record has none.
fn push_lack(
    alloc: Global,
    text: &mut Vec<u8>,
    number: usize,
    lacked: Option<Descriptor<'_>>,
) -> Result<(), AllocError>
    ensures { OnOk result (AppendsText text.old.items text.new.items (lack_line number (option_map descriptor_of lacked.entry))) }
{
    push_number(alloc, text, "record ", number)?;
    let Some(descriptor) = lacked else {
        push_words(text, " has none\n")?;
        return Ok(());
    };
    push_four(alloc, text, " lacks descriptor ", descriptor.kind)?;
    push_words(text, " ")?;
    push_data(alloc, text, descriptor.bytes)?;
    push_words(text, "\n")?;
    Ok(())
}

/// Appends, for each record, the reason why it isn't for a device.
#[tactic(auto, using(fw_text::proofs::Chains::telling))]
fn push_lacks(
    alloc: Global,
    text: &mut Vec<u8>,
    device: &[Descriptor<'_>],
    mut records: Records<'_>,
) -> Result<(), AllocError>
    ensures { OnOk result (AppendsText text.old.items text.new.items (lack_lines (map descriptor_of device.now) 1 records.entry)) }
{
    for number in 0..records.len() {
        let Some(contents) = records.next() else {
            unreachable!()
        };
        push_lack(
            alloc,
            text,
            number + 1,
            first_lacked(device, contents.descriptors),
        )?;
    }
    Ok(())
}

/// Appends the running image of a component, or dashes.
fn push_active(
    alloc: Global,
    text: &mut Vec<u8>,
    active: Option<&ComponentConfig>,
) -> Result<(), AllocError>
    ensures { OnOk result (AppendsText text.old.items text.new.items
        (active_text (option_map (λ c. row_made (component_of c.now)) active.entry))) }
{
    let Some(config) = active else {
        push_words(text, " active - -")?;
        return Ok(());
    };
    push_eight(alloc, text, " active ", config.label.stamp())?;
    push_quoted(alloc, text, " ", config.label.text.as_slice())?;
    Ok(())
}

/// Appends a component's line.
fn push_offer(
    alloc: Global,
    text: &mut Vec<u8>,
    components: &[ComponentConfig],
    component: Component<'_>,
) -> Result<(), AllocError>
    ensures { OnOk result (AppendsText text.old.items text.new.items
        (offer_line (map row_made (map component_of components.now))
        (component_seen component.entry))) }
{
    push_number(
        alloc,
        text,
        "component ",
        usize::from(component.classification),
    )?;
    push_number(alloc, text, " ident ", usize::from(component.identifier))?;
    push_number(alloc, text, " size ", component.image.len())?;
    push_eight(alloc, text, " stamp ", sent_stamp(component))?;
    push_quoted(alloc, text, " version ", component.text.bytes)?;
    push_active(alloc, text, running(components, key(component)))?;
    push_words(text, " ")?;
    push_words(
        text,
        component_word(component, passed(components, component)),
    )?;
    push_words(text, "\n")?;
    Ok(())
}

/// Appends the lines of these components of a package.
fn push_offers(
    alloc: Global,
    text: &mut Vec<u8>,
    components: &[ComponentConfig],
    contents: &Package<'_>,
    numbers: &[usize],
) -> Result<(), AllocError>
    requires { All (λ n. n < length contents.now.components) numbers.now }
    ensures { OnOk result (AppendsText text.old.items text.new.items
        (offer_lines contents.now (map row_made (map component_of components.now)) numbers.now)) }
{
    for number in numbers {
        push_offer(alloc, text, components, contents.component_at(*number))?;
    }
    Ok(())
}

/// Appends the lines of a device with a record.
fn push_planned(
    alloc: Global,
    text: &mut Vec<u8>,
    meant: Meant,
    contents: &Package<'_>,
    components: &[ComponentConfig],
    chosen: usize,
) -> Result<(), AllocError>
    requires { chosen < length contents.now.records }
    ensures { OnOk result (AppendsText text.old.items text.new.items
        (planned_text meant.number meant.eid chosen contents.now
        (map row_made (map component_of components.now)) (plan_of contents.now chosen))) }
{
    let record = contents.record_at(chosen);
    let plan = match contents.plan(chosen) {
        Ok(plan) => plan,
        Err(fault) => {
            return push_chosen(alloc, text, meant, chosen, &record, plan_word(fault));
        }
    };
    let word = update_word(components, contents, plan.as_slice());
    push_chosen(alloc, text, meant, chosen, &record, word)?;
    push_offers(alloc, text, components, contents, plan.as_slice())?;
    Ok(())
}

/// Returns a device's descriptors in the form in which a package is searched for them.
///
/// # Errors
/// `AllocError` if memory for them is refused.
pub fn known<'a>(
    alloc: Global,
    descriptors: DeviceDescriptors<'a>,
) -> Result<Vec<Descriptor<'a>>, AllocError>
    ensures { IfOk result (λ known. map descriptor_of known.items ≡ map package_descriptor descriptors.entry) }
{
    let mut known = Vec::new(alloc);
    for descriptor in descriptors {
        known.push(Descriptor {
            kind: descriptor.kind,
            bytes: descriptor.bytes,
        })?;
    }
    Ok(known)
}

/// Appends the lines of a device.
fn push_device(
    alloc: Global,
    text: &mut Vec<u8>,
    number: usize,
    contents: &Package<'_>,
    device: &DeviceConfig,
) -> Result<(), AllocError>
    ensures { OnOk result (AppendsText text.old.items text.new.items (configured_text number contents.now (device_of device.now))) }
{
    let meant = Meant {
        number,
        eid: device.endpoint.eid,
    };
    let known = known(alloc, device.descriptors.lent())?;
    match contents.record_for(known.as_slice()) {
        None => {
            push_no_record(alloc, text, meant)?;
            push_lacks(alloc, text, known.as_slice(), contents.records())?;
        }
        Some(chosen) => {
            let components = device.components.as_slice();
            push_planned(alloc, text, meant, contents, components, chosen)?;
        }
    }
    Ok(())
}

/// Returns the forecast of an update of each of these devices with the package of this number.
///
/// # Errors
/// `AllocError` if memory for the text is refused.
pub fn forecast(
    alloc: Global,
    number: usize,
    contents: &Package<'_>,
    devices: &[DeviceConfig],
) -> Result<Vec<u8>, AllocError>
    ensures { IfOk result (λ text. text.items ≡ forecast_of number contents.now (map device_of devices.now)) }
{
    let mut text = Vec::new(alloc);
    for device in devices {
        push_device(alloc, &mut text, number, contents, device)?;
    }
    Ok(text)
}
