//! A checker of worlds. It knows the images of the packages and of the configuration, and nothing
//! of the update protocol.

ghost use Rattle.std.specs.Prelude.{[], ◌≡◌, ◌==◌, ◌&&◌, IfOk, map, option_map, true};
ghost use Rattle.std.specs.List.{list_all};
ghost use Rattle.fw_message.specs.Entries.{entry_of, event_of, keyed_image_of};
ghost use Rattle.fw_script.specs.Seen.{component_of, device_of};
ghost use Rattle.fw_steps.specs.Worlds.{site_for};
ghost use Rattle.fw_soak.specs.Checking.{applies, are_right, has_applied, is_clean, is_named_for, is_right, is_running, runs_it, runs_them, runs_what_it_may};
ghost use Rattle.fw_soak.specs.Checks.{AreLawfulEntries, IsClean, device_for, recorded_image, runs_after};

use crate::naming::is_named;
use fd_core::{Bank, Key};
use fw_message::{Entry, HistoryEvent, Image};
use fw_node::DeviceNode;
use fw_package::Package;
use fw_script::{ComponentConfig, DeviceConfig};
use fw_setup::{key, known};
use fw_world::World;
use std::alloc::{AllocError, Global};
use ua_core::Recorded;

/// A placeholder key for a missing component.
const NO_KEY: Key = Key {
    classification: 0,
    identifier: 0,
};

/// A component's image, borrowed.
#[derive(Clone, Copy)]
struct Lent<'a> {
    key: Key,
    bytes: &'a [u8],
}

/// The configuration of the device with this identifier.
fn device_for(devices: &[DeviceConfig], eid: u8) -> Option<&DeviceConfig>
    ensures { option_map (λ d. device_of d.now) result ≡ device_for (map device_of devices.now) eid }
{
    for device in devices {
        if device.endpoint.eid == eid {
            return Some(device);
        }
    }
    None
}

/// Whether some package has an image for the configured device that equals one it activated.
fn is_named_for(
    alloc: Global,
    packages: &[Package<'_>],
    devices: &[DeviceConfig],
    device: u8,
    image: &Image<'_>,
) -> Result<bool, AllocError>
    ensures { IfOk result (λ named. named ≡ is_named_for packages.now (keyed_image_of image.now)
        (device_for (map device_of devices.now) device)) }
{
    let Some(config) = device_for(devices, device) else {
        return Ok(false);
    };
    let known = known(alloc, config.descriptors.lent())?;
    Ok(is_named(
        packages,
        known.as_slice(),
        image.key,
        image.bytes.as_slice(),
    ))
}

/// The image of a package's component that the agent recorded, under its key. A missing component
/// has an empty image.
fn recorded_image<'a>(packages: &[Package<'a>], recorded: Recorded) -> Lent<'a>
    ensures { record { key = result.key; bytes = result.bytes.now } ≡ recorded_image packages.now recorded }
{
    if 1 <= recorded.package {
        if let Some(package) = packages.get(recorded.package - 1) {
            if recorded.component < package.component_count() {
                let component = package.component_at(recorded.component);
                return Lent {
                    key: key(component),
                    bytes: component.image,
                };
            }
        }
    }
    Lent {
        key: NO_KEY,
        bytes: &[],
    }
}

/// Whether an entry of the history is that `device` applied `image`.
fn applies(entry: &Entry<'_>, device: u8, image: Lent<'_>) -> bool
    ensures { result ≡ ((entry.now.device == device)
        && applies (record { key = image.entry.key; bytes = image.entry.bytes.now })
        (event_of entry.now.event)) }
{
    if entry.device != device {
        return false;
    }
    match &entry.event {
        HistoryEvent::Applied(applied) => image.key == applied.key
            && image.bytes == applied.bytes.as_slice(),
        _ => false,
    }
}

/// Whether a device applied an image.
fn has_applied(history: &[Entry<'_>], device: u8, image: Lent<'_>) -> bool
    ensures { result ≡ has_applied (map entry_of history.now) device
        (record { key = image.entry.key; bytes = image.entry.bytes.now }) }
{
    for entry in history {
        if applies(entry, device, image) {
            return true;
        }
    }
    false
}

/// Whether an entry of the history is lawful after the entries `before`.
fn is_right(
    alloc: Global,
    packages: &[Package<'_>],
    devices: &[DeviceConfig],
    before: &[Entry<'_>],
    entry: &Entry<'_>,
) -> Result<bool, AllocError>
    ensures { IfOk result (λ right. right ≡ is_right packages.now (map device_of devices.now)
        (map entry_of before.now) entry.now.device (event_of entry.now.event)) }
{
    match &entry.event {
        HistoryEvent::Applied(_) => Ok(true),
        HistoryEvent::Recorded(recorded) => {
            let image = recorded_image(packages, *recorded);
            Ok(has_applied(before, entry.device, image))
        }
        HistoryEvent::Activated(image) => is_named_for(
            alloc,
            packages,
            devices,
            entry.device,
            image,
        ),
    }
}

/// Whether every entry of a history is lawful.
fn are_right(
    alloc: Global,
    packages: &[Package<'_>],
    devices: &[DeviceConfig],
    history: &[Entry<'_>],
) -> Result<bool, AllocError>
    ensures { IfOk result (λ right. right ≡ are_right packages.now (map device_of devices.now) [] (map entry_of history.now)) }
{
    for (place, entry) in history.iter().enumerate() {
        if !is_right(alloc, packages, devices, &history[..place], entry)? {
            return Ok(false);
        }
    }
    Ok(true)
}

/// Returns whether a history is lawful, judged by the packages and the configured devices. Each
/// image that a device activated must equal, byte for byte, one that a package has for it. Each
/// component that the agent recorded as applied must have been applied by that device with the same
/// bytes.
///
/// # Errors
/// `AllocError` if memory is refused.
#[tactic(auto, using(crate::proofs::Checked::checked))]
pub fn is_right_history(
    alloc: Global,
    packages: &[Package<'_>],
    devices: &[DeviceConfig],
    history: &[Entry<'_>],
) -> Result<bool, AllocError>
    ensures sound { IfOk result (λ right. right ≡ true
        → AreLawfulEntries packages.now (map device_of devices.now) [] (map entry_of history.now)) }
    ensures complete { IfOk result (λ right. AreLawfulEntries packages.now
        (map device_of devices.now) [] (map entry_of history.now)
        → right ≡ true) }
{
    match are_right(alloc, packages, devices, history) {
        Ok(right) => Ok(right),
        Err(error) => Err(error),
    }
}

/// The active image of a device's component after a history: the last one activated, or the
/// configured one.
fn runs_after<'a>(history: &'a [Entry<'_>], device: u8, component: &'a ComponentConfig) -> &'a [u8]
    ensures { result.now ≡ runs_after (map entry_of history.now) device component.now.component.key component.now.image.items }
{
    let mut runs = component.image.as_slice();
    for entry in history {
        if entry.device == device {
            if let HistoryEvent::Activated(image) = &entry.event {
                if component.component.key == image.key {
                    runs = image.bytes.as_slice();
                }
            }
        }
    }
    runs
}

/// Whether the active image of a component is the last one activated, or the configured one. `eid`
/// is the device's identifier.
fn runs_it<B: Bank>(
    history: &[Entry<'_>],
    node: &DeviceNode<B>,
    eid: u8,
    component: &ComponentConfig,
) -> bool
    ensures { result ≡ runs_it (map entry_of history.now) eid node.now.half.core.device.rows (component_of component.now) }
{
    let may = runs_after(history, eid, component);
    match node.device().bank().active(component.component.key) {
        Some((_, bytes)) => bytes == may,
        None => false,
    }
}

/// Whether this holds for each component of a device.
fn runs_them<B: Bank>(
    history: &[Entry<'_>],
    node: &DeviceNode<B>,
    eid: u8,
    components: &[ComponentConfig],
) -> bool
    ensures { result ≡ list_all (runs_it (map entry_of history.now) eid
        node.now.half.core.device.rows) (map component_of components.now) }
{
    for component in components {
        if !runs_it(history, node, eid, component) {
            return false;
        }
    }
    true
}

/// Whether a device exists, and its active images are allowed.
#[tactic(auto, using(crate::proofs::Checked::runs_there))]
fn runs_what_it_may<B: Bank + Drop>(world: &World<'_, B>, device: &DeviceConfig) -> bool
    ensures { result ≡ runs_what_it_may world.now (device_of device.now) }
{
    let eid = device.endpoint.eid;
    match world.device(eid) {
        Some(node) => runs_them(world.history(), node, eid, device.components.as_slice()),
        None => false,
    }
}

/// Whether this holds for each device.
fn all_run<B: Bank + Drop>(world: &World<'_, B>, devices: &[DeviceConfig]) -> bool
    ensures { result ≡ list_all (runs_what_it_may world.now) (map device_of devices.now) }
{
    for device in devices {
        if !runs_what_it_may(world, device) {
            return false;
        }
    }
    true
}

/// Whether a world is clean.
fn answer<B: Bank + Drop>(
    alloc: Global,
    world: &World<'_, B>,
    packages: &[Package<'_>],
    devices: &[DeviceConfig],
) -> Result<bool, AllocError>
    ensures { IfOk result (λ clean. clean ≡ is_clean packages.now (map device_of devices.now) world.now) }
{
    if !are_right(alloc, packages, devices, world.history())? {
        return Ok(false);
    }
    Ok(all_run(world, devices))
}

/// Returns whether a world is clean, judged by the packages and the configured devices. Each image
/// that a device activated must equal, byte for byte, one that a package has for it. Each component
/// that the agent recorded as applied must have been applied by that device with the same bytes.
/// Each bank's active images must be the last ones activated, or the configured ones. The check
/// relies on no property that is proved of worlds.
///
/// # Errors
/// `AllocError` if memory is refused.
#[tactic(auto, using(crate::proofs::Checked::checked))]
pub fn is_clean<B: Bank + Drop>(
    alloc: Global,
    world: &World<'_, B>,
    packages: &[Package<'_>],
    devices: &[DeviceConfig],
) -> Result<bool, AllocError>
    ensures answer { IfOk result (λ clean. clean ≡ is_clean packages.now (map device_of devices.now) world.now) }
    ensures sound { IfOk result (λ clean. clean ≡ true → IsClean packages.now (map device_of devices.now) world.now) }
    ensures complete { IfOk result (λ clean. IsClean packages.now (map device_of devices.now) world.now → clean ≡ true) }
{
    match answer(alloc, world, packages, devices) {
        Ok(clean) => Ok(clean),
        Err(error) => Err(error),
    }
}
