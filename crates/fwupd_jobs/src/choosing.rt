//! The devices of a configuration that a run updates.

ghost use Rattle.std.specs.Prelude.{◌≡◌, IfErr, IfOk, IfSome, None, Some, false, map, true, ℕ};
ghost use Rattle.std.specs.List.{filter};
ghost use Rattle.fw_script.specs.Seen.{device_of};
ghost use Rattle.fw_script.specs.Whole.{AreWhole};
ghost use Rattle.fwupd_base.specs.DeviceSets.{has_eid};
ghost use Rattle.fwupd_base.specs.PackageChoices.{number_for};
ghost use Rattle.fwupd_nodes.specs.Setups.{AreChosen, AreConfigured, ChoiceFails, IsMissing, TellsMissing, has_device, have_packages};

use crate::numbering::is_numbered;
use fw_script::DeviceConfig;
use fwupd_base::{DeviceSet, PackageChoice};
use fwupd_watch::JobFault;
use fwupd_words::Order;

/// Whether a device has this endpoint identifier.
fn has_device(devices: &[DeviceConfig], eid: u8) -> bool
    ensures { result ≡ has_device (map device_of devices.now) eid }
{
    for device in devices {
        if device.endpoint.eid == eid {
            return true;
        }
    }
    false
}

/// Whether an endpoint identifier is in a set, and is that of no device.
fn is_missing(devices: &[DeviceConfig], set: &DeviceSet, eid: u8) -> bool
    ensures missing { result ≡ true → (has_eid set.now eid ≡ true)
        × (has_device (map device_of devices.now) eid ≡ false) }
    ensures there { result ≡ false → has_eid set.now eid ≡ true
        → has_device (map device_of devices.now) eid ≡ true }
{
    set.contains(eid) && !has_device(devices, eid)
}

/// The least endpoint identifier in a set that is that of no device, if there is one.
fn missing_device(devices: &[DeviceConfig], set: &DeviceSet) -> Option<u8>
    ensures missing { IfSome result (λ eid. IsMissing set.now (map device_of devices.now) eid) }
    ensures there { result ≡ None → AreConfigured (Some set.now) (map device_of devices.now) }
{
    for eid in 0..=255u8 {
        if is_missing(devices, set, eid) {
            return Some(eid);
        }
    }
    None
}

/// Removes the devices that aren't in a set.
fn keep_members(devices: &mut Vec<DeviceConfig>, set: DeviceSet)
    ensures { devices.new.items ≡ filter (λ d. has_eid set d.endpoint.eid) devices.old.items }
{
    devices.retain(|device| set.contains(device.endpoint.eid));
}

/// Returns the devices in a set, in their order; all devices if there is no set.
///
/// # Errors
/// `NoDevice` with the least endpoint identifier in the set that is that of no device.
fn chosen_devices(
    devices: Vec<DeviceConfig>,
    chosen: Option<DeviceSet>,
) -> Result<Vec<DeviceConfig>, JobFault>
    ensures chosen { IfOk result (λ ds. AreChosen chosen (map device_of devices.items) (map device_of ds.items)) }
    ensures whole { IfOk result (λ ds. (agent : ℕ)
        → AreWhole agent (map device_of devices.items)
        → AreWhole agent (map device_of ds.items)) }
    ensures fault { IfErr result (λ e. TellsMissing chosen (map device_of devices.items) e) }
{
    let mut devices = devices;
    let Some(set) = chosen else {
        return Ok(devices);
    };
    match missing_device(devices.as_slice(), &set) {
        Some(eid) => Err(JobFault::NoDevice(eid)),
        None => {
            keep_members(&mut devices, set);
            Ok(devices)
        }
    }
}

/// Whether each device has one of `count` packages.
fn have_packages(devices: &[DeviceConfig], packages: &PackageChoice, count: usize) -> bool
    ensures { result ≡ have_packages (number_for packages.now) count (map device_of devices.now) }
{
    for device in devices {
        if !is_numbered(count, packages.number_for(device.endpoint.eid)) {
            return false;
        }
    }
    true
}

/// Returns the devices of a run, in their order: those in its set, or all if it has none. Each has
/// one of `count` packages.
///
/// # Errors
/// `NoDevice` with the least endpoint identifier in the set that is that of no device; `NoPackage`
/// if a device's number isn't that of a package.
pub(crate) fn ordered_devices(
    devices: Vec<DeviceConfig>,
    order: &Order,
    count: usize,
) -> Result<Vec<DeviceConfig>, JobFault>
    ensures chosen { IfOk result (λ ds. AreChosen order.now.devices (map device_of devices.items) (map device_of ds.items)) }
    ensures whole { IfOk result (λ ds. (agent : ℕ)
        → AreWhole agent (map device_of devices.items)
        → AreWhole agent (map device_of ds.items)) }
    ensures numbered { IfOk result (λ ds. have_packages (number_for order.now.packages) count (map device_of ds.items) ≡ true) }
    ensures fault { IfErr result (λ e. ChoiceFails order.now.devices
        (number_for order.now.packages) count (map device_of devices.items) e) }
{
    let devices = match chosen_devices(devices, order.devices) {
        Ok(devices) => devices,
        Err(fault) => return Err(fault),
    };
    if !have_packages(devices.as_slice(), &order.packages, count) {
        return Err(JobFault::NoPackage);
    }
    Ok(devices)
}
