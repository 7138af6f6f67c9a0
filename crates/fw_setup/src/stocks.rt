//! The images that a store keeps, in place of the configured images.

ghost use Rattle.std.specs.Prelude.{◌≡◌, IfOk, OnOk, Some, map, option_map};
ghost use Rattle.fd_core.specs.Images.{key_of};
ghost use Rattle.fw_script.specs.Seen.{component_of, device_of};
ghost use Rattle.fw_setup.specs.Nodes.{row_made};
ghost use Rattle.fw_setup.specs.Stocks.{images_configured, component_with_kept, stocked_by, stocked_device};
ghost use Rattle.fw_store.specs.Kept.{image_for};

use fw_script::{ComponentConfig, DeviceConfig};
use fw_store::{Kept, Stored};
use fwup_wire::Key;
use std::alloc::{AllocError, Global};

/// Returns the configured image of each of these components, borrowed from it.
///
/// # Errors
/// `AllocError` if memory is refused.
pub fn configured_images<'a>(
    alloc: Global,
    components: &'a [ComponentConfig],
) -> Result<Vec<Kept<'a>>, AllocError>
    ensures { IfOk result (λ images. images.items ≡ images_configured (map component_of components.now)) }
{
    let mut images = Vec::new(alloc);
    for config in components {
        images.push(Kept {
            key: config.component.key,
            label: &config.label,
            bytes: &config.image,
        })?;
    }
    Ok(images)
}

/// Returns the keys of these components.
pub(crate) fn component_keys(
    alloc: Global,
    components: &[ComponentConfig],
) -> Result<Vec<Key>, AllocError>
    ensures { IfOk result (λ keys. keys.items ≡ map key_of (map row_made (map component_of components.now))) }
{
    let mut keys = Vec::new(alloc);
    for config in components {
        keys.push(config.component.key)?;
    }
    Ok(keys)
}

/// Replaces the image of a component.
fn replace(alloc: Global, config: &mut ComponentConfig, image: &Kept<'_>) -> Result<(), AllocError>
    ensures { OnOk result (component_of config.new ≡ stocked_by (component_of config.old) (Some image.now.image)) }
{
    let mut bytes = Vec::new(alloc);
    bytes.extend_from_slice(image.bytes)?;
    config.image = bytes;
    config.label = image.label.copied();
    Ok(())
}

/// Returns the image that is kept for a component, if there is one.
#[tactic(auto, using(crate::proofs::Stocking::finding))]
fn kept_for(images: &[Stored], key: Key) -> Option<Kept<'_>>
    ensures { option_map (λ k. k.image) result ≡ image_for images.now key }
{
    for stored in images {
        let image = stored.image();
        if image.key == key {
            return Some(image);
        }
    }
    None
}

/// Replaces a component's image by the image that is kept for it, if there is one.
fn stock_component(
    alloc: Global,
    config: &mut ComponentConfig,
    images: &[Stored],
) -> Result<(), AllocError>
    ensures { OnOk result (component_of config.new ≡ component_with_kept images.now (component_of config.old)) }
{
    match kept_for(images, config.component.key) {
        Some(image) => replace(alloc, config, &image),
        None => Ok(()),
    }
}

/// Replaces the images of components by those that are kept for them.
fn stock_all(
    alloc: Global,
    components: &mut [ComponentConfig],
    images: &[Stored],
) -> Result<(), AllocError>
    ensures { OnOk result (map component_of components.new
        ≡ map (component_with_kept images.now) (map component_of components.old)) }
{
    for config in components.iter_mut() {
        stock_component(alloc, config, images)?;
    }
    Ok(())
}

/// Replaces the configured images of a device's components by those that are kept for them.
///
/// # Errors
/// `AllocError` if memory is refused. Some images may be replaced then.
pub fn stock(alloc: Global, device: &mut DeviceConfig, images: &[Stored]) -> Result<(), AllocError>
    ensures { OnOk result (device_of device.new ≡ stocked_device images.now (device_of device.old)) }
{
    stock_all(alloc, device.components.as_mut_slice(), images)
}
