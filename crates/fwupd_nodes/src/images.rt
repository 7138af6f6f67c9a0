//! The configuration of a job, with the bytes of files in the places of images.

ghost use Rattle.std.specs.Prelude.{◌≡◌, ◌<◌, ◌≤◌, ◌==◌, ◌⊎◌, IfErr, IfOk, IfSome, OnOk, false, length, map, true};
ghost use Rattle.std.specs.List.{position};
ghost use Rattle.fd_core.specs.Codes.{longest_image};
ghost use Rattle.fd_core.specs.Images.{same_key};
ghost use Rattle.fw_script.specs.Seen.{component_of, config_seen, device_of};
ghost use Rattle.fw_script.specs.Whole.{AreWhole};
ghost use Rattle.fwupd_base.specs.ImageFiles.{config_source, image_file};
ghost use Rattle.fwupd_nodes.specs.Images.{components_imaged, device_imaged, devices_imaged, has_component};
ghost use Rattle.fwupd_nodes.specs.Setups.{ConfigFails, HaveImages, ImageFileFails, ImagesFail, IsConfigured, IsLongAt};
ghost use Rattle.fwupd_watch.specs.Files.{MayHold};

use crate::setups::{configuration, read_fault};
use fd_core::MAX_IMAGE;
use fw_script::{ComponentConfig, Config, DeviceConfig, has_key};
use fwup_wire::Key;
use fwupd_base::{ConfigSource, ImageFile};
use fwupd_watch::{Files, JobFault};
use std::alloc::Global;

/// The place of the first device with this endpoint identifier.
pub(crate) fn place_of(devices: &[DeviceConfig], eid: u8) -> Option<usize>
    ensures place { result ≡ position (λ d. d.endpoint.eid == eid) devices.now }
    ensures within { IfSome result (λ place. place < length devices.now) }
{
    devices.iter().position(|device| device.endpoint.eid == eid)
}

/// The place of the first component of a key.
fn component_place(components: &[ComponentConfig], key: Key) -> Option<usize>
    ensures place { result ≡ position (λ c. same_key c.component.key key) components.now }
    ensures within { IfSome result (λ place. place < length components.now) }
{
    components
        .iter()
        .position(|config| config.component.key == key)
}

/// Whether the component that an image names is there.
fn has_component(devices: &[DeviceConfig], image: &ImageFile<'_>) -> bool
    ensures { result ≡ has_component (map device_of devices.now) (image_file image.now) }
{
    let mut left = devices;
    while let [device, rest @ ..] = left {
        if device.endpoint.eid == image.eid {
            return has_key(device.components.as_slice(), image.key);
        }
        left = rest;
    }
    false
}

/// Puts bytes in the place of the image of the component of a key, if it is there.
fn put_component(components: &mut [ComponentConfig], key: Key, bytes: Vec<u8>)
    ensures { map component_of components.new
        ≡ components_imaged key bytes.items (map component_of components.old) }
{
    match component_place(components, key) {
        Some(place) => components[place].image = bytes,
        None => {}
    }
}

/// Puts bytes in the place of the image of a device's component of a key, if it is there.
fn put_in_device(device: &mut DeviceConfig, key: Key, bytes: Vec<u8>)
    ensures { device_of device.new ≡ device_imaged key bytes.items (device_of device.old) }
{
    put_component(device.components.as_mut_slice(), key, bytes)
}

/// Puts bytes in the place of the image of the component that an image names, if it is there.
fn put_image(devices: &mut [DeviceConfig], image: &ImageFile<'_>, bytes: Vec<u8>)
    ensures { map device_of devices.new
        ≡ devices_imaged (image_file image.now) bytes.items (map device_of devices.old) }
{
    match place_of(devices, image.eid) {
        Some(place) => put_in_device(&mut devices[place], image.key, bytes),
        None => {}
    }
}

/// The fault of a file at this path that is longer than an image may be.
fn long_fault(alloc: Global, path: &str) -> JobFault
    ensures { (result ≡ JobFault.Memory) ⊎ IsLongAt path.now result }
{
    match String::from_str(alloc, path) {
        Ok(name) => JobFault::LongImage(name),
        Err(_) => JobFault::Memory,
    }
}

/// The bytes of the image in the file of a path.
fn image_bytes<F: Files>(alloc: Global, files: &F, path: &str) -> Result<Vec<u8>, JobFault>
    ensures held { IfOk result (λ bytes. MayHold (F.holds files.now path.now) bytes.items) }
    ensures fits { IfOk result (λ bytes. length bytes.items ≤ longest_image) }
    ensures fault { IfErr result (λ e. (e ≡ JobFault.Memory) ⊎ ImageFileFails (F.holds files.now) path.now e) }
{
    let bytes = match files.contents(alloc, path) {
        Ok(bytes) => bytes,
        Err(fault) => return Err(read_fault(alloc, path, fault)),
    };
    if bytes.len() > MAX_IMAGE as usize {
        return Err(long_fault(alloc, path));
    }
    Ok(bytes)
}

/// Puts the bytes of files in the places of images, one after the other.
///
/// # Errors
/// The fault of the first image: `NoComponent` if no device has its component, the fault of its
/// file, or `LongImage`; or `Memory`.
fn put_images<F: Files>(
    alloc: Global,
    files: &F,
    images: &[ImageFile<'_>],
    devices: &mut Vec<DeviceConfig>,
) -> Result<(), JobFault>
    ensures images { OnOk result (HaveImages (F.holds files.now) (map image_file images.now)
        (map device_of devices.old.items) (map device_of devices.new.items)) }
    ensures fault { IfErr result (λ e. (e ≡ JobFault.Memory)
        ⊎ ImagesFail (F.holds files.now) (map image_file images.now)
        (map device_of devices.old.items) e) }
{
    let mut left = images;
    while let [image, rest @ ..] = left {
        if !has_component(devices.as_slice(), image) {
            let Key {
                classification,
                identifier,
            } = image.key;
            return Err(JobFault::NoComponent(image.eid, classification, identifier));
        }
        let bytes = match image_bytes(alloc, files, image.path) {
            Ok(bytes) => bytes,
            Err(fault) => return Err(fault),
        };
        put_image(devices.as_mut_slice(), image, bytes);
        left = rest;
    }
    Ok(())
}

/// Returns the configuration in a file, with the bytes of other files in the places of images.
///
/// # Errors
/// The file can't be read, the first fault of its text, and the fault of the first image:
/// `NoComponent` if no device has its component, the fault of its file, or `LongImage`; or
/// `Memory`.
pub fn configured<F: Files>(
    alloc: Global,
    files: &F,
    source: &ConfigSource<'_>,
) -> Result<Config, JobFault>
    ensures says { IfOk result (λ c. IsConfigured (F.holds files.now) (config_source source.now)
        (config_seen c)) }
    ensures whole { IfOk result (λ c. AreWhole c.agent.eid (map device_of c.devices.items)) }
    ensures fault { IfErr result (λ e. (e ≡ JobFault.Memory)
        ⊎ ConfigFails (F.holds files.now) (config_source source.now) e) }
{
    let mut config = match configuration(alloc, files, source.path) {
        Ok(config) => config,
        Err(fault) => return Err(fault),
    };
    match put_images(alloc, files, source.images.as_slice(), &mut config.devices) {
        Ok(()) => Ok(config),
        Err(fault) => Err(fault),
    }
}
