//! The sizes of a header's parts, and the tests that they fit.

ghost use Rattle.std.specs.Prelude.{◌≡◌, map};
ghost use Rattle.std.specs.List.{list_all, sum_by};
ghost use Rattle.fw_package.specs.Asked.{all_fits, are_uses as rise_below, asked_component_of, asked_package_of, asked_record_of, component_fits, component_size, descriptor_size, header_size, parts_fit, record_fits, record_size, refusal_of, text_fits, uses_fit};
ghost use Rattle.fw_package.specs.Package.{descriptor_of};
ghost use Rattle.fw_package.specs.Views.{capped_number};

use crate::asked::{AskedComponent, AskedFault, AskedPackage, AskedRecord};
use crate::bitmaps::{are_uses, bitmap_size};
use crate::descriptors::DESCRIPTOR_SIZE;
use crate::layout::{CHECKSUM_SIZE, COMPONENT_SIZE, COUNT_SIZE, FIXED_SIZE};
use crate::records::HEAD_SIZE;
use crate::texts::Descriptor;

/// The bytes of the record count.
const RECORD_COUNT_SIZE: usize = 1;

/// The most bytes of a text, and the most records and descriptors of a record: their numbers are
/// one byte.
const BYTE_LIMIT: usize = 255;

/// The most bytes of a header: its size is two bytes.
pub const HEADER_LIMIT: usize = 65_535;

/// The most bytes of a file: each offset and each size is four bytes.
const FILE_LIMIT: usize = 4_294_967_295;

/// Returns the first reason why a package can't be written, if there is one.
#[tactic(auto, unfolding(crate::specs::Asked::refusal_of))]
pub fn refusal(asked: &AskedPackage<'_>) -> Option<AskedFault>
    ensures { result ≡ refusal_of (asked_package_of asked.now) }
{
    if !uses_fit(asked.records, asked.components.len()) {
        return Some(AskedFault::Uses);
    }
    if !all_fits(asked) {
        return Some(AskedFault::Limit);
    }
    None
}

/// Returns whether each record uses components of the package.
fn uses_fit(records: &[AskedRecord<'_>], count: usize) -> bool
    ensures { result ≡ list_all (λ r. rise_below count 0 r.uses) (map asked_record_of records.now) }
{
    for record in records {
        if !are_uses(record.uses, count) {
            return false;
        }
    }
    true
}

/// Returns whether all lengths and numbers fit their fields.
fn all_fits(asked: &AskedPackage<'_>) -> bool
    ensures { result ≡ all_fits (asked_package_of asked.now) }
{
    let header = header_size(asked);
    parts_fit(asked)
        && header <= HEADER_LIMIT
        && images_size(asked.components).saturating_add(header) <= FILE_LIMIT
}

/// Returns whether the texts' lengths, the descriptors' numbers and the records' number each fit
/// one byte.
fn parts_fit(asked: &AskedPackage<'_>) -> bool
    ensures { result ≡ parts_fit (asked_package_of asked.now) }
{
    text_fits(asked.version)
        && asked.records.len() <= BYTE_LIMIT
        && records_fit(asked.records)
        && components_fit(asked.components)
}

/// Returns whether a text's length fits one byte.
fn text_fits(text: &[u8]) -> bool
    ensures { result ≡ text_fits text.now }
{
    text.len() <= BYTE_LIMIT
}

/// Returns whether each record's set text and descriptors can be counted in one byte.
fn records_fit(records: &[AskedRecord<'_>]) -> bool
    ensures { result ≡ list_all record_fits (map asked_record_of records.now) }
{
    for record in records {
        if !text_fits(record.set_text) || record.descriptors.len() > BYTE_LIMIT {
            return false;
        }
    }
    true
}

/// Returns whether the length of each component's version text fits one byte.
fn components_fit(components: &[AskedComponent<'_>]) -> bool
    ensures { result ≡ list_all component_fits (map asked_component_of components.now) }
{
    for component in components {
        if !text_fits(component.text) {
            return false;
        }
    }
    true
}

/// Returns the bytes of the header, or `usize::MAX` if there are more.
#[tactic(auto, using(crate::proofs::Measured::capped_header))]
pub fn header_size(asked: &AskedPackage<'_>) -> usize
    ensures { result ≡ capped_number (header_size (asked_package_of asked.now)) }
{
    let bitmap_size = bitmap_size(asked.components.len());
    let lists = records_size(asked.records, bitmap_size).saturating_add(components_size(
        asked.components,
    ));
    (FIXED_SIZE + RECORD_COUNT_SIZE + COUNT_SIZE + CHECKSUM_SIZE)
        .saturating_add(asked.version.len())
        .saturating_add(lists)
}

/// Returns the bytes of records with a bitmap of `bitmap_size` bytes, or the largest number.
fn records_size(records: &[AskedRecord<'_>], bitmap_size: usize) -> usize
    ensures { result ≡ capped_number (sum_by (record_size bitmap_size) (map asked_record_of records.now)) }
{
    let mut size = 0usize;
    for record in records {
        size = size.saturating_add(record_size(record, bitmap_size));
    }
    size
}

/// Returns the bytes of a record with a bitmap of `bitmap_size` bytes, or the largest number.
pub fn record_size(record: &AskedRecord<'_>, bitmap_size: usize) -> usize
    ensures { result ≡ capped_number (record_size bitmap_size (asked_record_of «record».now)) }
{
    let texts = record.set_text.len().saturating_add(bitmap_size);
    descriptors_size(record.descriptors)
        .saturating_add(texts)
        .saturating_add(HEAD_SIZE)
}

/// Returns the bytes of descriptors, or the largest number.
fn descriptors_size(descriptors: &[Descriptor<'_>]) -> usize
    ensures { result ≡ capped_number (sum_by descriptor_size (map descriptor_of descriptors.now)) }
{
    let mut size = 0usize;
    for descriptor in descriptors {
        size = size.saturating_add(DESCRIPTOR_SIZE.saturating_add(descriptor.bytes.len()));
    }
    size
}

/// Returns the bytes of components, or the largest number.
fn components_size(components: &[AskedComponent<'_>]) -> usize
    ensures { result ≡ capped_number (sum_by component_size (map asked_component_of components.now)) }
{
    let mut size = 0usize;
    for component in components {
        size = size.saturating_add(COMPONENT_SIZE.saturating_add(component.text.len()));
    }
    size
}

/// Returns the bytes of the images, or the largest number.
fn images_size(components: &[AskedComponent<'_>]) -> usize
    ensures { result ≡ capped_number (sum_by (λ c. c.size) (map asked_component_of components.now)) }
{
    let mut size = 0usize;
    for component in components {
        size = size.saturating_add(component.size);
    }
    size
}
