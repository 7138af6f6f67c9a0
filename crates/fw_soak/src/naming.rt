//! The image that a package has for a device.

ghost use Rattle.std.specs.Prelude.{◌≡◌, ◌<◌, All, filter, length, map, option_map};
ghost use Rattle.fw_package.specs.Choice.{component_at, has_key, image_for, sole_image};
ghost use Rattle.fw_package.specs.Lent.{component_seen};
ghost use Rattle.fw_package.specs.Package.{descriptor_of};
ghost use Rattle.fw_soak.specs.Naming.{is_named};

use fd_core::Key;
use fw_package::{Component, Descriptor, Package, Uses};

/// Whether a component has this key.
fn is_of(component: Component<'_>, key: Key) -> bool
    ensures { result ≡ has_key key.classification key.identifier (component_seen component.entry) }
{
    component.classification == key.classification && component.identifier == key.identifier
}

/// The image of the only component with a key among the given ones, or none if there is no such
/// component or more than one.
fn sole_image<'a>(package: &Package<'a>, uses: Uses<'_>, key: Key) -> Option<&'a [u8]>
    requires { All (λ n. n < length «package».now.components) uses }
    ensures { option_map (λ i. i.now) result
        ≡ sole_image (filter (has_key key.classification key.identifier)
        (map (component_at «package».now) uses.entry)) }
{
    let mut found = None;
    for number in uses {
        let component = package.component_at(usize::from(number));
        if is_of(component, key) {
            if found.is_some() {
                return None;
            }
            found = Some(component.image);
        }
    }
    found
}

/// The image that a package has for a device with these descriptors and a key.
fn image_for<'a>(
    package: &Package<'a>,
    descriptors: &[Descriptor<'_>],
    key: Key,
) -> Option<&'a [u8]>
    ensures { option_map (λ i. i.now) result
        ≡ image_for «package».now (map descriptor_of descriptors.now) key.classification
        key.identifier }
{
    let number = package.record_for(descriptors)?;
    let record = package.record_at(number);
    sole_image(package, record.uses, key)
}

/// Whether some package has exactly these bytes for a device with these descriptors and a key.
pub(crate) fn is_named(
    packages: &[Package<'_>],
    descriptors: &[Descriptor<'_>],
    key: Key,
    bytes: &[u8],
) -> bool
    ensures { result ≡ is_named packages.now (map descriptor_of descriptors.now) (record { key = key; bytes = bytes.now }) }
{
    for package in packages {
        if let Some(image) = image_for(package, descriptors, key) {
            if image == bytes {
                return true;
            }
        }
    }
    false
}
