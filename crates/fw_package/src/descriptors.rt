//! The descriptors of a record, borrowed from its package's header.

ghost use Rattle.std.specs.Iterator.{YieldsFirstBy, item_count};
ghost use Rattle.std.specs.Prelude.{◌≡◌, ◌==◌, length, map, IfOk};
ghost use Rattle.std.specs.List.{list_all, list_any};
ghost use Rattle.std.specs.Result.{result_map_both};
ghost use Rattle.fw_package.specs.Choice.{is_among};
ghost use Rattle.fw_package.specs.Package.{descriptor_of};
ghost use Rattle.fw_package.specs.Records.{descriptor_split, descriptors_split, split_after};

use crate::fault::PackageFault;
use crate::numbers::u16_at;
use crate::texts::Descriptor;
use std::marker::Model;

/// The bytes of a descriptor before its data: type and size.
pub(crate) const DESCRIPTOR_SIZE: usize = 4;

/// The place of a descriptor's type.
const DESCRIPTOR_TYPE: usize = 0;

/// The place of a descriptor's size.
const DESCRIPTOR_LENGTH: usize = 2;

/// Consecutive descriptors. It is also an iterator over them.
#[derive(Drop)]
pub struct Descriptors<'a> {
    count: u8,
    rest: &'a [u8],
}

impl<'a> Model for Descriptors<'a> {
    ghost use Rattle.std.specs.Prelude.{List, IsOk};
    ghost use Rattle.fw_package.specs.Package.{DescriptorOf};
    ghost use Rattle.fw_package.specs.Records.{descriptors_split};
    ghost use Rattle.fw_package.specs.Views.{front_of};

    ghost Value = { List DescriptorOf };

    ghost view = { λ d. front_of (descriptors_split d.count d.rest.now) };

    ghost invariant = { λ d. IsOk (descriptors_split d.count d.rest.now) };
}

impl<'a> Descriptors<'a> {
    /// Reads `count` descriptors, and returns them with the bytes after them.
    ///
    /// # Errors
    /// `RecordLength` if the bytes end before the descriptors do.
    #[tactic(auto, using(crate::proofs::Lists::describing))]
    pub(crate) fn read(bytes: &'a [u8], count: u8) -> Result<(Self, &'a [u8]), PackageFault>
        ensures { result_map_both (λ p. (p.0, p.1.now)) (λ e. e) result ≡ descriptors_split count bytes.now }
    {
        let mut rest = bytes;
        for _descriptor in 0..count {
            let (_, after) = descriptor(rest)?;
            rest = after;
        }
        Ok((Descriptors { count, rest: bytes }, rest))
    }

    /// Returns whether no descriptor is left.
    #[tactic(auto, using(crate::proofs::Lists::descriptors_count))]
    pub(crate) fn is_empty(&self) -> bool
        ensures { result ≡ (length self.now == 0) }
    {
        self.count == 0
    }

    /// Returns whether all descriptors are the device's.
    pub(crate) fn are_among(self, device: &[Descriptor<'_>]) -> bool
        ensures { result ≡ list_all (is_among (map descriptor_of device.now)) self.entry }
    {
        for descriptor in self {
            if !is_among(descriptor, device) {
                return false;
            }
        }
        true
    }
}

impl<'a> Iterator for Descriptors<'a> {
    type Item = Descriptor<'a>;

    ghost next_gives = { YieldsFirstBy descriptor_of (λ left. left) };

    ghost remaining = { item_count (λ left. left) };

    #[tactic(auto, using(crate::proofs::Lists::descriptors_next))]
    fn next(&mut self) -> Option<Descriptor<'a>> {
        if self.count == 0 {
            return None;
        }
        let Ok((descriptor, rest)) = descriptor(self.rest) else {
            unreachable!()
        };
        *self = Descriptors {
            count: self.count - 1,
            rest,
        };
        Some(descriptor)
    }
}

/// Returns whether a descriptor is one of the device's.
fn is_among(descriptor: Descriptor<'_>, device: &[Descriptor<'_>]) -> bool
    ensures { result ≡ is_among (map descriptor_of device.now) (descriptor_of descriptor.entry) }
{
    for other in device {
        if descriptor == *other {
            return true;
        }
    }
    false
}

/// Returns the first descriptor, and the bytes after it.
#[tactic(auto, unfolding(crate::specs::Records::descriptor_split))]
fn descriptor(bytes: &[u8]) -> Result<(Descriptor<'_>, &[u8]), PackageFault>
    ensures { result_map_both (λ p. (descriptor_of p.0, p.1.now)) (λ e. e) result ≡ descriptor_split bytes.now }
{
    let (head, rest) = split(bytes, DESCRIPTOR_SIZE)?;
    let size = usize::from(u16_at(head, DESCRIPTOR_LENGTH));
    let (content, rest) = split(rest, size)?;
    let descriptor = Descriptor {
        kind: u16_at(head, DESCRIPTOR_TYPE),
        bytes: content,
    };
    Ok((descriptor, rest))
}

/// Returns the first `size` bytes, and the bytes after them.
pub(crate) fn split(bytes: &[u8], size: usize) -> Result<(&[u8], &[u8]), PackageFault>
    ensures value { result_map_both (λ p. (p.0.now, p.1.now)) (λ e. e) result ≡ split_after size bytes.now }
    ensures front { IfOk result (λ p. length p.0.now ≡ size) }
{
    if bytes.len() < size {
        return Err(PackageFault::RecordLength);
    }
    Ok(bytes.split_at(size))
}
