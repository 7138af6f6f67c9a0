//! A session's reading of its borrowed package. A component or a record that the package doesn't
//! have reads as one without bytes; a session with the package of its number never reads such a
//! one.

ghost use Rattle.std.specs.Prelude.{◌≡◌, ◌<◌, ◌≤◌, IfSome, length, map, take};
ghost use Rattle.std.specs.Result.{result_map_both};
ghost use Rattle.fw_package.specs.Choice.{component_at, plan_of, record_at, record_number};
ghost use Rattle.fw_package.specs.Lent.{component_seen};
ghost use Rattle.fw_package.specs.Package.{descriptor_of, text_of as package_text_of};
ghost use Rattle.fwup_wire.specs.Lent.{typed_text_of, version_of};
ghost use Rattle.ua_core.specs.Learn.{job_for, planned};
ghost use Rattle.ua_core.specs.Lent.{is_forced, key_of, no_package, package_at, sent_size, sent_text, sent_version, package_descriptor};

use crate::planned::UpdateJob;
use crate::plans::unlearnt;
use crate::state::Cause;
use fw_package::{Component, Descriptor, Package};
use fwup_wire::{DeviceDescriptors, Key, NO_STAMP, TypedText, Version};
use std::marker::Model;

/// The package that a session borrows, if there is one.
#[derive(Drop)]
pub struct Lent<'a> {
    package: Option<&'a Package<'a>>,
}

impl<'a> Model for Lent<'a> {
    ghost use Rattle.fw_package.specs.Package.{PackageText};
    ghost use Rattle.ua_core.specs.Lent.{borrowed_package};

    ghost Value = { PackageText };

    ghost view = { λ l. borrowed_package l.package };
}

/// The most bytes of a text in a message. A plan has no longer text.
const TEXT_LIMIT: usize = 200;

/// The most descriptors of a device: their number is sent as one byte.
const DESCRIPTOR_LIMIT: usize = 255;

/// The descriptor that fills the places after the last one.
const NO_DESCRIPTOR: Descriptor<'static> = Descriptor {
    kind: 0,
    bytes: &[],
};

/// The component used if there is none.
const NO_COMPONENT: Component<'static> = Component {
    classification: 0,
    identifier: 0,
    stamp: 0,
    options: 0,
    method: 0,
    offset: 0,
    text: fw_package::Text {
        kind: 0,
        bytes: &[],
    },
    image: &[],
};

/// The text used if there is none.
const NO_TEXT: TypedText<'static> = TypedText {
    text_type: 0,
    bytes: &[],
};

impl<'a> Lent<'a> {
    /// Returns the given package.
    pub fn some(package: &'a Package<'a>) -> Lent<'a>
        ensures { result ≡ «package».now }
    {
        Lent {
            package: Some(package),
        }
    }

    /// Returns no package.
    pub fn none() -> Lent<'a>
        ensures { result ≡ no_package }
    {
        Lent { package: None }
    }

    /// Returns the package with this number, counted from 1; no package if there is none.
    pub fn of(packages: &'a [Package<'a>], number: usize) -> Lent<'a>
        ensures { result ≡ package_at packages.now number }
    {
        let Some(index) = number.checked_sub(1) else {
            return Lent::none();
        };
        match packages.get(index) {
            Some(package) => Lent::some(package),
            None => Lent::none(),
        }
    }

    /// Returns the record for the device with these descriptors, and its components, or the cause
    /// if there is nothing to send.
    pub(crate) fn job_for(&self, descriptors: &DeviceDescriptors<'_>) -> Result<UpdateJob, Cause>
        ensures { result_map_both (λ j. record { chosen = j.chosen; plan = j.plan.items }) (λ e. e)
            result ≡ job_for self.now descriptors.now }
    {
        let Some(package) = self.package else {
            return Err(Cause::NoRecord);
        };
        let Some(chosen) = record_for(package, descriptors) else {
            return Err(Cause::NoRecord);
        };
        planned(package, chosen)
    }

    /// Returns a component, found in one walk over the package's header.
    pub(crate) fn component(&self, number: usize) -> Component<'a>
        ensures { component_seen result ≡ component_at self.now number }
    {
        match self.package {
            Some(package) if number < package.component_count() => package.component_at(number),
            _ => NO_COMPONENT,
        }
    }

    /// Returns whether a component's update is forced: option bit 0.
    pub(crate) fn is_forced(&self, component: usize) -> bool
        ensures { result ≡ is_forced (component_at self.now component) }
    {
        forces(self.component(component))
    }

    /// Returns the image of a component.
    pub(crate) fn image(&self, component: usize) -> &'a [u8]
        ensures { result.now ≡ (component_at self.now component).image }
    {
        self.component(component).image
    }

    /// Returns the set text of a record.
    pub(crate) fn set_text(&self, number: usize) -> TypedText<'a>
        ensures value { typed_text_of result ≡ sent_text (record_at self.now number).set_text }
        ensures short { length result.bytes.now ≤ TEXT_LIMIT }
    {
        match self.package {
            Some(package) if number < package.record_count() => {
                as_sent(package.record_at(number).set_text)
            }
            _ => NO_TEXT,
        }
    }
}

/// Returns the number of the first record for the device with these descriptors.
fn record_for(package: &Package<'_>, descriptors: &DeviceDescriptors<'_>) -> Option<usize>
    ensures number { result ≡ record_number «package».now (map package_descriptor descriptors.now) }
    ensures there { IfSome result (λ n. n < length «package».now.records) }
{
    let known = known(descriptors);
    package.record_for(&known[..descriptors.len()])
}

/// Returns the components of a record, if there are some and they can be sent.
fn planned(package: &Package<'_>, chosen: usize) -> Result<UpdateJob, Cause>
    requires { chosen < length «package».now.records }
    ensures { result_map_both (λ j. record { chosen = j.chosen; plan = j.plan.items }) (λ e. e)
        result ≡ planned chosen (plan_of «package».now chosen) }
{
    let Ok(plan) = package.plan(chosen) else {
        return Err(Cause::Plan);
    };
    if plan.is_empty() {
        return Err(Cause::NothingToUpdate);
    }
    Ok(UpdateJob {
        chosen,
        plan: unlearnt(plan.as_slice()),
    })
}

/// Returns a device's descriptors in the form that a package takes, at the front of the array.
#[tactic(auto, using(crate::proofs::Known::known_step))]
fn known<'a>(descriptors: &DeviceDescriptors<'a>) -> [Descriptor<'a>; DESCRIPTOR_LIMIT]
    ensures { map descriptor_of (take (length descriptors.now) result) ≡ map package_descriptor descriptors.now }
{
    let mut known = [NO_DESCRIPTOR; DESCRIPTOR_LIMIT];
    let mut count = 0;
    let limit = descriptors.len();
    for descriptor in descriptors.iter() {
        known[count] = Descriptor {
            kind: descriptor.kind,
            bytes: descriptor.bytes,
        };
        count += 1;
    }
    known
}

/// Returns the key of a component.
pub(crate) fn key(component: Component<'_>) -> Key
    ensures { result ≡ key_of (component_seen component.entry) }
{
    Key {
        classification: component.classification,
        identifier: component.identifier,
    }
}

/// Returns a component's version, as it is sent: its stamp only if option bit 1 is set.
pub(crate) fn version<'a>(component: Component<'a>) -> Version<'a>
    ensures value { version_of result ≡ sent_version (component_seen component.entry) }
    ensures short { length result.text.bytes.now ≤ TEXT_LIMIT }
{
    Version {
        stamp: if component.options / 2 % 2 == 1 {
            component.stamp
        } else {
            NO_STAMP
        },
        text: as_sent(component.text),
    }
}

/// Returns whether a component's update is forced: option bit 0.
pub(crate) fn forces(component: Component<'_>) -> bool
    ensures { result ≡ is_forced (component_seen component.entry) }
{
    component.options % 2 == 1
}

/// Returns the size of a component's image in bytes, as it is sent.
pub(crate) fn size(component: Component<'_>) -> u32
    ensures { result ≡ sent_size (component_seen component.entry) }
{
    u32::try_from(component.image.len()).unwrap_or(u32::MAX)
}

/// Returns a text of a package, as it is sent: cut to the length that a message carries.
#[tactic(auto, using(std::proofs::lemmas::List::take_min))]
fn as_sent<'a>(text: fw_package::Text<'a>) -> TypedText<'a>
    ensures value { typed_text_of result ≡ sent_text (package_text_of text.entry) }
    ensures short { length result.bytes.now ≤ TEXT_LIMIT }
{
    TypedText {
        text_type: text.kind,
        bytes: &text.bytes[..TEXT_LIMIT.min(text.bytes.len())],
    }
}
