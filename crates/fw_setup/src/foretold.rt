//! The forecast of an update: the components that a device would accept, and the cause if it would
//! accept none.

ghost use Rattle.std.specs.Prelude.{◌≡◌, ◌<◌, All, length, map, option_map};
ghost use Rattle.fd_core.specs.Images.{row_of};
ghost use Rattle.fw_package.specs.Choice.{is_among};
ghost use Rattle.fw_package.specs.Lent.{component_seen};
ghost use Rattle.fw_package.specs.Package.{descriptor_of};
ghost use Rattle.fw_script.specs.Seen.{component_of};
ghost use Rattle.ua_core.specs.Learn.{is_to_do};
ghost use Rattle.ua_core.specs.Lent.{is_forced, key_of, sent_stamp};
ghost use Rattle.fw_setup.specs.Forecasts.{component_word, first_lacked, is_any_updated, is_updated, passed, plan_word, update_word};
ghost use Rattle.fw_setup.specs.Nodes.{row_made};

use fd_core::{Key, stamp_restriction};
use fw_package::{Component, Descriptor, Descriptors, Package, PlanFault};
use fw_script::ComponentConfig;
use fwup_wire::NO_STAMP;
use fwup_wire::code::response::{
    COMPARISON_STAMP_IDENTICAL, COMPARISON_STAMP_LOWER, NO_RESTRICTION, NOT_SUPPORTED,
};

/// Returns a component's key.
pub fn key(component: Component<'_>) -> Key
    ensures { result ≡ key_of (component_seen component.entry) }
{
    Key {
        classification: component.classification,
        identifier: component.identifier,
    }
}

/// Returns a component's comparison stamp, as it is sent: option bit 1 says whether it is used.
pub fn sent_stamp(component: Component<'_>) -> u32
    ensures { result ≡ sent_stamp (component_seen component.entry) }
{
    if component.options / 2 % 2 == 1 {
        component.stamp
    } else {
        NO_STAMP
    }
}

/// Whether a component's update is forced: option bit 0.
fn is_forced(component: Component<'_>) -> bool
    ensures { result ≡ is_forced (component_seen component.entry) }
{
    component.options % 2 == 1
}

/// Returns the running image that a device has for a key, if it has a component with that key.
pub fn running(components: &[ComponentConfig], key: Key) -> Option<&ComponentConfig>
    ensures { option_map (λ c. row_made (component_of c.now)) result ≡ row_of (map row_made (map component_of components.now)) key }
{
    for config in components {
        if config.component.key == key {
            return Some(config);
        }
    }
    None
}

/// Returns a device's answer to a component that is passed: no restriction, or a restriction.
pub fn passed(components: &[ComponentConfig], component: Component<'_>) -> u8
    ensures { result ≡ passed (map row_made (map component_of components.now)) (component_seen component.entry) }
{
    match running(components, key(component)) {
        None => NOT_SUPPORTED,
        Some(config) => stamp_restriction(sent_stamp(component), config.label.stamp()),
    }
}

/// Whether a component is updated after the device answers this code.
fn is_to_do(component: Component<'_>, code: u8) -> bool
    ensures { result ≡ is_to_do (component_seen component.entry) code }
{
    code == NO_RESTRICTION
        || (code == COMPARISON_STAMP_IDENTICAL || code == COMPARISON_STAMP_LOWER)
            && is_forced(component)
}

/// Returns the outcome of a component after the device answers this code.
pub fn component_word(component: Component<'_>, code: u8) -> &'static str
    ensures { result.now ≡ component_word (component_seen component.entry) code }
{
    if code == NO_RESTRICTION {
        "update"
    } else if is_to_do(component, code) {
        "force"
    } else if code == COMPARISON_STAMP_IDENTICAL {
        "skip identical"
    } else if code == COMPARISON_STAMP_LOWER {
        "skip lower"
    } else {
        "skip unsupported"
    }
}

/// Whether a component is updated.
fn is_updated(components: &[ComponentConfig], component: Component<'_>) -> bool
    ensures { result ≡ is_updated (map row_made (map component_of components.now)) (component_seen component.entry) }
{
    is_to_do(component, passed(components, component))
}

/// Whether one of these components of a package is updated.
fn is_any_updated(components: &[ComponentConfig], contents: &Package<'_>, numbers: &[usize]) -> bool
    requires { All (λ n. n < length contents.now.components) numbers.now }
    ensures { result ≡ is_any_updated contents.now (map row_made (map component_of components.now)) numbers.now }
{
    for number in numbers {
        if is_updated(components, contents.component_at(*number)) {
            return true;
        }
    }
    false
}

/// Returns the outcome of an update with these components of a package.
pub fn update_word(
    components: &[ComponentConfig],
    contents: &Package<'_>,
    numbers: &[usize],
) -> &'static str
    requires { All (λ n. n < length contents.now.components) numbers.now }
    ensures { result.now ≡ update_word contents.now (map row_made (map component_of components.now)) numbers.now }
{
    if is_any_updated(components, contents, numbers) {
        "Update"
    } else {
        "NothingToUpdate"
    }
}

/// Returns the cause with which an update fails if its record can't be planned.
pub fn plan_word(fault: PlanFault) -> &'static str
    ensures { result.now ≡ plan_word fault }
{
    match fault {
        PlanFault::DuplicateComponent => "Plan:DuplicateComponent",
        PlanFault::TooManyComponents => "Plan:TooManyComponents",
        PlanFault::ImageTooLarge => "Plan:ImageTooLarge",
        PlanFault::TextTooLong => "Plan:TextTooLong",
    }
}

/// Whether this is one of the device's descriptors.
fn is_among(device: &[Descriptor<'_>], descriptor: Descriptor<'_>) -> bool
    ensures { result ≡ is_among (map descriptor_of device.now) (descriptor_of descriptor.entry) }
{
    for other in device {
        if descriptor == *other {
            return true;
        }
    }
    false
}

/// Returns the first of these descriptors that the device lacks, if it lacks one.
pub fn first_lacked<'a>(
    device: &[Descriptor<'_>],
    descriptors: Descriptors<'a>,
) -> Option<Descriptor<'a>>
    ensures { option_map descriptor_of result ≡ first_lacked (map descriptor_of device.now) descriptors.entry }
{
    for descriptor in descriptors {
        if !is_among(device, descriptor) {
            return Some(descriptor);
        }
    }
    None
}
