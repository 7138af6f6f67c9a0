//! The active images of a configuration's devices.

ghost use Rattle.std.specs.Prelude.{◌≡◌, [], ◌∷◌, IfOk, OnOk, codes, decimal, map};
ghost use Rattle.std.specs.List.{flat_map};
ghost use Rattle.json.specs.Token.{key, number, string};
ghost use Rattle.json.specs.Tree.{items_tokens, json_tokens};
ghost use Rattle.fw_script.specs.Seen.{component_of, device_of};
ghost use Rattle.fw_text.specs.Printing.{AppendsText, escaped_byte};
ghost use Rattle.fw_json.specs.Statuses.{component_status_line, component_status_value, device_status_text, device_status_value, label_text, status_in, status_text, status_value};
ghost use Rattle.fw_json.specs.Values.{ReadsBack, items, line_of};
ghost use Rattle.fw_json.specs.Writing.{AppendsTokens};

use crate::digests::{push_digest, push_digest_field};
use crate::fields::{
    close_array, close_object, line, open_array_field, open_object, push_number_field,
    push_text_field, push_word_field,
};
use fd_core::{BankComponent, Label};
use fw_script::{ComponentConfig, DeviceConfig};
use fw_text::{push_eight, push_number, push_quoted, push_words};
use fwupd_base::Form;
use json::Writer;
use std::alloc::{AllocError, Global};

/// Appends the stamp and the text of a label.
fn push_label(alloc: Global, text: &mut Vec<u8>, label: &Label) -> Result<(), AllocError>
    ensures { OnOk result (AppendsText text.old.items text.new.items (label_text label.now)) }
{
    push_eight(alloc, text, " stamp ", label.stamp())?;
    push_quoted(alloc, text, " version ", label.text.as_slice())?;
    Ok(())
}

/// Appends the line of a component.
fn push_component_line(
    alloc: Global,
    text: &mut Vec<u8>,
    config: &ComponentConfig,
) -> Result<(), AllocError>
    ensures { OnOk result (AppendsText text.old.items text.new.items (component_status_line (component_of config.now))) }
{
    let key = config.component.key;
    let image = config.image.as_slice();
    push_number(alloc, text, "component ", usize::from(key.classification))?;
    push_number(alloc, text, " ident ", usize::from(key.identifier))?;
    push_number(alloc, text, " size ", image.len())?;
    push_label(alloc, text, &config.label)?;
    push_digest(alloc, text, " sha256 ", image)?;
    push_words(text, "\n")?;
    Ok(())
}

/// Appends the lines of components.
fn push_component_lines(
    alloc: Global,
    text: &mut Vec<u8>,
    components: &[ComponentConfig],
) -> Result<(), AllocError>
    ensures { OnOk result (AppendsText text.old.items text.new.items
        (flat_map component_status_line (map component_of components.now))) }
{
    for config in components {
        push_component_line(alloc, text, config)?;
    }
    Ok(())
}

/// Appends the lines of a device.
#[tactic(auto, unfolding(crate::specs::Statuses::device_status_text))]
fn push_device_lines(
    alloc: Global,
    text: &mut Vec<u8>,
    device: &DeviceConfig,
) -> Result<(), AllocError>
    ensures { OnOk result (AppendsText text.old.items text.new.items (device_status_text (device_of device.now))) }
{
    push_number(alloc, text, "device ", usize::from(device.endpoint.eid))?;
    push_words(text, "\n")?;
    push_component_lines(alloc, text, device.components.as_slice())?;
    Ok(())
}

/// Returns the text of the active images of the devices.
fn status_text(alloc: Global, devices: &[DeviceConfig]) -> Result<Vec<u8>, AllocError>
    ensures { IfOk result (λ text. text.items ≡ status_text (map device_of devices.now)) }
{
    let mut text = Vec::new(alloc);
    for device in devices {
        push_device_lines(alloc, &mut text, device)?;
    }
    Ok(text)
}

/// Writes the key and the index of a component.
fn push_place(writer: &mut Writer, component: BankComponent) -> Result<(), AllocError>
    ensures { OnOk result (AppendsTokens writer.old writer.new
        (key (codes "classification") ∷ number (decimal component.key.classification)
        ∷ key (codes "identifier") ∷ number (decimal component.key.identifier)
        ∷ key (codes "index") ∷ number (decimal component.index) ∷ [])) }
{
    push_number_field(
        writer,
        "classification",
        usize::from(component.key.classification),
    )?;
    push_number_field(writer, "identifier", usize::from(component.key.identifier))?;
    push_number_field(writer, "index", usize::from(component.index))?;
    Ok(())
}

/// Writes the stamp and the text of a label.
fn push_label_fields(alloc: Global, writer: &mut Writer, label: &Label) -> Result<(), AllocError>
    ensures { OnOk result (AppendsTokens writer.old writer.new
        (key (codes "stamp") ∷ number (decimal label.now.stamp)
        ∷ key (codes "version") ∷ string (flat_map escaped_byte label.now.text) ∷ [])) }
{
    push_number_field(writer, "stamp", label.stamp() as usize)?;
    push_text_field(alloc, writer, "version", label.text.as_slice())?;
    Ok(())
}

/// Writes a component and its active image.
#[tactic(auto, unfolding(crate::specs::Statuses::component_status_value))]
fn push_component(
    alloc: Global,
    writer: &mut Writer,
    config: &ComponentConfig,
) -> Result<(), AllocError>
    ensures { OnOk result (AppendsTokens writer.old writer.new (json_tokens (component_status_value (component_of config.now)))) }
{
    open_object(writer)?;
    push_place(writer, config.component)?;
    push_number_field(writer, "size", config.image.len())?;
    push_label_fields(alloc, writer, &config.label)?;
    push_digest_field(alloc, writer, config.image.as_slice())?;
    close_object(writer)?;
    Ok(())
}

/// Writes components, and ends the array.
#[tactic(auto, using(crate::proofs::Chains::telling))]
fn push_components(
    alloc: Global,
    writer: &mut Writer,
    components: &[ComponentConfig],
) -> Result<(), AllocError>
    ensures { OnOk result (AppendsTokens writer.old writer.new
        (items_tokens (items component_status_value (map component_of components.now)))) }
{
    for config in components {
        push_component(alloc, writer, config)?;
    }
    close_array(writer)?;
    Ok(())
}

/// Writes a device and its components.
fn push_device(alloc: Global, writer: &mut Writer, device: &DeviceConfig) -> Result<(), AllocError>
    ensures { OnOk result (AppendsTokens writer.old writer.new (json_tokens (device_status_value (device_of device.now)))) }
{
    open_object(writer)?;
    push_number_field(writer, "eid", usize::from(device.endpoint.eid))?;
    open_array_field(writer, "components")?;
    push_components(alloc, writer, device.components.as_slice())?;
    close_object(writer)?;
    Ok(())
}

/// Writes devices, and ends the array.
#[tactic(auto, using(crate::proofs::Chains::telling))]
fn push_devices(
    alloc: Global,
    writer: &mut Writer,
    devices: &[DeviceConfig],
) -> Result<(), AllocError>
    ensures { OnOk result (AppendsTokens writer.old writer.new
        (items_tokens (items device_status_value (map device_of devices.now)))) }
{
    for device in devices {
        push_device(alloc, writer, device)?;
    }
    close_array(writer)?;
    Ok(())
}

/// Writes the value of the active images of the devices.
fn push_status(
    alloc: Global,
    writer: &mut Writer,
    devices: &[DeviceConfig],
) -> Result<(), AllocError>
    ensures { OnOk result (AppendsTokens writer.old writer.new (json_tokens (status_value (map device_of devices.now)))) }
{
    open_object(writer)?;
    push_word_field(writer, "format", "fwupd-status/1")?;
    open_array_field(writer, "devices")?;
    push_devices(alloc, writer, devices)?;
    close_object(writer)?;
    Ok(())
}

/// Returns the active images of the devices as a JSON value on one line. Without its line feed, the
/// line decodes to that value.
///
/// # Errors
/// `AllocError` if memory is refused.
pub fn status_json(alloc: Global, devices: &[DeviceConfig]) -> Result<Vec<u8>, AllocError>
    ensures line { IfOk result (λ text. text.items ≡ line_of (status_value (map device_of devices.now))) }
    ensures reads_back { OnOk result (ReadsBack (status_value (map device_of devices.now))) }
{
    let mut writer = Writer::new(Vec::new(alloc));
    push_status(alloc, &mut writer, devices)?;
    line(writer)
}

/// Returns the active image of each component of the devices, with its size, its version and its
/// SHA-256, in a format.
///
/// # Errors
/// `AllocError` if memory is refused.
pub fn status_in(alloc: Global, devices: &[DeviceConfig], form: Form) -> Result<Vec<u8>, AllocError>
    ensures { IfOk result (λ text. text.items ≡ status_in form (map device_of devices.now)) }
{
    match form {
        Form::Text => status_text(alloc, devices),
        Form::Json => status_json(alloc, devices),
    }
}
