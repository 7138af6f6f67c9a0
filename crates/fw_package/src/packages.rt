//! A package, and reading one.

ghost use Rattle.std.specs.Prelude.{◌≡◌, ◌<◌, ◌≤◌, length, map, IfOk, IfErr, IfSome, All, nat_lt, ◌||◌};
ghost use Rattle.std.specs.List.Sorted.{IsStrictlyIncreasing};
ghost use Rattle.fw_package.specs.Choice.{component_at, has_large_image, has_long_text, has_twin, plan_of, record_at, record_number};
ghost use Rattle.fw_package.specs.Faults.{IsFirstPackageFault};
ghost use Rattle.fw_package.specs.Lent.{component_seen, record_seen};
ghost use Rattle.fw_package.specs.Package.{descriptor_of, text_of};
ghost use Rattle.fw_package.specs.Reading.{package_of};

use crate::components::{Component, Components};
use crate::contents::Contents;
use crate::fault::{PackageFault, PlanFault};
use crate::plans::Plan;
use crate::records::{Record, Records};
use crate::texts::{Descriptor, Text};
use crate::used::{KEY_LIMIT, Used};
use crate::uses::Uses;
use std::marker::Model;

/// The most bytes of an image that a device accepts.
const IMAGE_LIMIT: usize = 1_048_576;

/// The most bytes of a text that a message carries.
const TEXT_LIMIT: usize = 200;

/// A firmware update package: a view of its file's bytes, from which all values are borrowed. It
/// holds places and counts only; each call walks over the header again.
#[derive(Drop)]
pub struct Package<'a> {
    header_size: usize,
    release: &'a [u8],
    version: Text<'a>,
    records: Records<'a>,
    components: Components<'a>,
}

impl<'a> Model for Package<'a> {
    ghost use Rattle.std.specs.Prelude.{All, length, ◌≤◌};
    ghost use Rattle.fw_package.specs.Package.{PackageText, text_of};
    ghost use Rattle.fw_package.specs.Reading.{IsUsing};

    ghost Value = { PackageText };

    ghost view = { λ p. record {
      header_size = p.header_size;
      release = p.release.now;
      version = text_of p.version;
      records = p.records;
      components = p.components;
    } };

    ghost invariant = { λ p. All (IsUsing (length p.components)) p.records × (length p.components ≤ 2978) };
}

impl<'a> Package<'a> {
    ghost use Rattle.std.specs.Prelude.{IsOk};
    ghost use Rattle.fw_package.specs.Grammar.{IsPackage};
    ghost use Rattle.fw_package.specs.Package.{PackageText};

    /// Reads the package with these bytes.
    ///
    /// # Errors
    /// Bytes that are no package are refused with the first fault that holds.
    pub fn read(bytes: &'a [u8]) -> Result<Package<'a>, PackageFault>
        ensures found { IfOk result (λ p. IsPackage bytes.now p) }
        ensures only { (p : PackageText) → IsPackage bytes.now p → IsOk result }
        ensures value { IfOk result (λ p. package_of bytes.now ≡ Ok p) }
        ensures fault { IfErr result (λ e. IsFirstPackageFault bytes.now e) }
        ensures first { IfErr result (λ e. package_of bytes.now ≡ Err e) }
    {
        Package::read_parts(bytes)
    }

    /// Reads the header's contents and the components, in the order of their faults.
    #[tactic(auto, using(crate::proofs::Outlined::reading))]
    fn read_parts(bytes: &'a [u8]) -> Result<Package<'a>, PackageFault>
        ensures { result ≡ package_of bytes.now }
    {
        let contents = Contents::read(bytes)?;
        match Components::read(bytes, contents.components, contents.component_count) {
            Ok(components) => Ok(Package {
                header_size: contents.header_size,
                release: contents.release,
                version: contents.version,
                records: contents.records,
                components,
            }),
            Err(fault) => Err(fault),
        }
    }

    /// Returns the bytes of the header.
    pub fn header_size(&self) -> usize
        ensures { result ≡ self.now.header_size }
    {
        self.header_size
    }

    /// Returns the release time, a timestamp104 of DSP0240 in its encoded form, 13 bytes.
    pub fn release(&self) -> &'a [u8]
        ensures { result.now ≡ self.now.release }
    {
        self.release
    }

    /// Returns the version text of the whole package.
    pub fn version(&self) -> Text<'a>
        ensures { text_of result ≡ self.now.version }
    {
        self.version
    }

    /// Returns the number of records.
    pub fn record_count(&self) -> usize
        ensures { result ≡ length self.now.records }
    {
        self.records.len()
    }

    /// Returns the number of components.
    pub fn component_count(&self) -> usize
        ensures { result ≡ length self.now.components }
    {
        self.components.len()
    }

    /// Returns the records, in order.
    pub fn records(&self) -> Records<'a>
        ensures { result ≡ self.now.records }
    {
        self.records.iter()
    }

    /// Returns the components, in order.
    pub fn components(&self) -> Components<'a>
        ensures { result ≡ self.now.components }
    {
        self.components.iter()
    }

    /// Returns a record, by its number from 0.
    pub fn record_at(&self, number: usize) -> Record<'a>
        requires { number < length self.now.records }
        ensures value { record_seen result ≡ record_at self.now number }
        ensures rising { IsStrictlyIncreasing result.uses }
        ensures there { All (λ n. n < length self.now.components) result.uses }
    {
        let Some(record) = self.records.from(number).next() else {
            unreachable!()
        };
        record
    }

    /// Returns a component, by its number from 0.
    pub fn component_at(&self, number: usize) -> Component<'a>
        requires { number < length self.now.components }
        ensures { component_seen result ≡ component_at self.now number }
    {
        let Some(component) = self.components.from(number).next() else {
            unreachable!()
        };
        component
    }

    /// Returns the image of a component.
    pub fn image(&self, component: usize) -> &'a [u8]
        requires { component < length self.now.components }
        ensures { result.now ≡ (component_at self.now component).image }
    {
        self.component_at(component).image
    }

    /// Returns the number of the first record for the device with these descriptors: it has a
    /// descriptor, and each of its descriptors is one of the device's, with the same type and data.
    pub fn record_for(&self, descriptors: &[Descriptor<'_>]) -> Option<usize>
        ensures number { result ≡ record_number self.now (map descriptor_of descriptors.now) }
        ensures there { IfSome result (λ n. n < length self.now.records) }
    {
        self.records.iter().position_for(descriptors)
    }

    /// Returns the components to offer to a device of a record: those that the record uses.
    ///
    /// # Errors
    /// The first fault that holds.
    #[tactic(auto, unfolding(crate::specs::Choice::plan_of))]
    pub fn plan(&self, number: usize) -> Result<Plan, PlanFault>
        requires { number < length self.now.records }
        ensures value { result ≡ plan_of self.now number }
        ensures rising { IfOk result (λ numbers. IsStrictlyIncreasing numbers) }
        ensures there { IfOk result (λ numbers. All (λ n. n < length self.now.components) numbers) }
    {
        let record = self.record_at(number);
        if self.has_twin(&record.uses) {
            return Err(PlanFault::DuplicateComponent);
        }
        let Some(plan) = Plan::new(record.uses.iter()) else {
            return Err(PlanFault::TooManyComponents);
        };
        if self.has_large_image(&record.uses) {
            return Err(PlanFault::ImageTooLarge);
        }
        if self.has_long_text(&record) {
            return Err(PlanFault::TextTooLong);
        }
        Ok(plan)
    }

    /// Returns whether two of the components have the same key.
    fn has_twin(&self, uses: &Uses<'a>) -> bool
        requires rising { IsStrictlyIncreasing uses.now }
        requires there { All (λ n. n < length self.now.components) uses.now }
        ensures { result ≡ has_twin self.now uses.now }
    {
        self.used(uses).has_twin()
    }

    /// Returns whether a component's image is larger than a device accepts.
    fn has_large_image(&self, uses: &Uses<'a>) -> bool
        requires rising { IsStrictlyIncreasing uses.now }
        requires there { All (λ n. n < length self.now.components) uses.now }
        ensures { result ≡ has_large_image self.now uses.now }
    {
        self.used(uses).has_image_over(IMAGE_LIMIT)
    }

    /// Returns whether a record's set text, or the version text of one of its components, is longer
    /// than a message carries.
    fn has_long_text(&self, record: &Record<'a>) -> bool
        requires rising { IsStrictlyIncreasing «record».now.uses }
        requires there { All (λ n. n < length self.now.components) «record».now.uses }
        ensures { result ≡ (nat_lt TEXT_LIMIT (length «record».now.set_text.bytes.now)
            || has_long_text self.now «record».now.uses) }
    {
        record.set_text.bytes.len() > TEXT_LIMIT
            || self.used(&record.uses).has_text_over(TEXT_LIMIT)
    }

    /// Returns the components with these numbers, in one walk.
    fn used(&self, uses: &Uses<'a>) -> Used<'a>
        requires rising { IsStrictlyIncreasing uses.now }
        requires there { All (λ n. n < length self.now.components) uses.now }
        ensures value { result ≡ map (component_at self.now) uses.now }
        ensures few { length result ≤ KEY_LIMIT }
    {
        Used::new(&self.components, uses)
    }
}
