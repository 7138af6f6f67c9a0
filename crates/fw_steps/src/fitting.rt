//! The parts of a world fit the fields of messages. Each value is read once, so that the range of
//! its type is known.

ghost use Rattle.std.specs.Prelude.{IfSome};
ghost use Rattle.std.specs.List.{AllByRecursion};
ghost use Rattle.fd_core.specs.Images.{active_of, row_of};
ghost use Rattle.fw_package.specs.Lent.{component_seen};
ghost use Rattle.fw_steps.specs.Widths.{HasPlannedWidths, HasComponentKeyWidths, HasDescriptorListWidths, HasImageWidths, HasKeyAndLabelWidths, HasKindWidth, HasPackageWidths, HavePackageWidths, HasWidthsAsNew};
ghost use Rattle.fwup_wire.specs.Lent.{device_descriptor_of};

use fd_core::{Bank, BankComponent as DeviceComponent, Device};
use fw_node::DeviceNode;
use fw_package::{Component, Components, Package};
use fwup_wire::{DescriptorList, DeviceDescriptor, DeviceDescriptors};

/// New devices fit the fields of messages.
pub(crate) fn devices_fit<B: Bank>(devices: &[DeviceNode<B>])
    ensures { AllByRecursion (λ n. HasWidthsAsNew n.half.core.device) devices.now }
{
    for node in devices {
        node_fits(node);
    }
}

/// A new device's node fits.
fn node_fits<B: Bank>(node: &DeviceNode<B>)
    ensures { HasWidthsAsNew node.now.half.core.device }
{
    device_fits(node.device());
}

/// A new device fits.
fn device_fits<B: Bank>(device: &Device<B>)
    ensures { HasWidthsAsNew device.now.device }
{
    descriptor_list_fits(device.descriptors());
    component_keys_fit(device.bank(), device.keys());
}

/// The keys of components fit, and the labels of their running images.
fn component_keys_fit<B: Bank>(bank: &B, components: &[DeviceComponent])
    ensures { AllByRecursion (HasKeyAndLabelWidths (B.rows bank.now)) components.now }
{
    for component in components {
        component_fits(bank, component);
    }
}

/// A component's key fits, and the label of its running image.
#[tactic(auto, using(crate::proofs::Fit::image_has_widths))]
fn component_fits<B: Bank>(bank: &B, component: &DeviceComponent)
    ensures { HasKeyAndLabelWidths (B.rows bank.now) component.now }
{
    key_fits(component);
    label_fits(bank, component);
}

/// A component's key fits.
fn key_fits(component: &DeviceComponent)
    ensures { HasComponentKeyWidths component.now }
{
    let _classification = component.key.classification;
    let _identifier = component.key.identifier;
}

/// The label of the running image fits.
#[tactic(auto, using(crate::proofs::Fit::image_has_widths))]
fn label_fits<B: Bank>(bank: &B, component: &DeviceComponent)
    ensures { IfSome (active_of (row_of (B.rows bank.now) component.now.key)) HasImageWidths }
{
    if let Some((label, _)) = bank.active(component.key) {
        let _stamp = label.stamp();
        let _version = label.version();
    }
}

/// Descriptors fit.
fn descriptor_list_fits(descriptors: &DescriptorList)
    ensures { HasDescriptorListWidths descriptors.now }
{
    let _room = descriptors.room();
    kinds_fit(descriptors.lent());
}

/// The types of descriptors fit.
fn kinds_fit(descriptors: DeviceDescriptors<'_>)
    ensures { AllByRecursion HasKindWidth descriptors.entry }
{
    for descriptor in descriptors {
        kind_fits(&descriptor);
    }
}

/// A descriptor's type fits.
fn kind_fits(descriptor: &DeviceDescriptor<'_>)
    ensures { HasKindWidth (device_descriptor_of descriptor.now) }
{
    let _kind = descriptor.kind;
}

/// The components of all packages fit.
pub(crate) fn packages_fit(packages: &[Package<'_>])
    ensures { HavePackageWidths packages.now }
{
    for package in packages {
        package_fits(package);
    }
}

/// The components of a package fit.
fn package_fits(lent: &Package<'_>)
    ensures { HasPackageWidths lent.now }
{
    package_components_fit(lent.components());
}

/// Components of a package fit.
fn package_components_fit(components: Components<'_>)
    ensures { AllByRecursion HasPlannedWidths components.entry }
{
    for component in components {
        package_component_fits(&component);
    }
}

/// A component of a package fits.
fn package_component_fits(component: &Component<'_>)
    ensures { HasPlannedWidths (component_seen component.now) }
{
    let _classification = component.classification;
    let _identifier = component.identifier;
    let _stamp = component.stamp;
}
