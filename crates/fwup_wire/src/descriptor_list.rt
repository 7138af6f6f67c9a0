//! Builds lists of descriptors.

ghost use Rattle.std.proofs.Common.{rules};
ghost use Rattle.std.specs.Cmp.Lexicographic.{pointwise};
ghost use Rattle.std.specs.Cmp.Rules.{comparing};
ghost use Rattle.std.specs.Ordering.{eq_of_both, on};
ghost use Rattle.std.specs.Prelude.{IsTrue, [], ◌↔◌, ◌+◌, ◌++◌, ◌==◌, ◌≡◌, ◌≤◌, ◌∷◌, length};
ghost use Rattle.fwup_wire.specs.Descriptors.{HasDescriptorWidths, descriptor_bytes, descriptor_size, descriptors_bytes};
ghost use Rattle.fwup_wire.specs.Lent.{device_descriptor_of};

use crate::descriptors::DeviceDescriptors;
use crate::values::DeviceDescriptor;
use arrayvec::ArrayVec;
use byteorder::{ByteOrder, LittleEndian};
use std::marker::Model;

/// The most bytes of descriptors in an answer to QueryDeviceIdentifiers: the longest answer without
/// its code, their length and their number.
pub const MAX_DESCRIPTOR_BYTES: usize = 246;

/// The descriptors of a device, as they are sent.
#[derive(Drop)]
pub struct DescriptorList {
    count: u8,
    bytes: ArrayVec<u8, MAX_DESCRIPTOR_BYTES>,
}

impl Model for DescriptorList {
    ghost use Rattle.std.specs.Prelude.{List, [], length, unwrap_or, ◌*◌, ◌≤◌};
    ghost use Rattle.fwup_wire.specs.Descriptors.{HoldsDescriptors, descriptors_in};
    ghost use Rattle.fwup_wire.specs.Values.{DeviceDescriptorOf};

    ghost Value = { List DeviceDescriptorOf };

    ghost view = { λ d. unwrap_or (descriptors_in d.count d.bytes.items) [] };

    ghost invariant = { λ d. HoldsDescriptors d.count d.bytes.items
        (unwrap_or (descriptors_in d.count d.bytes.items) [])
        × (4 * d.count ≤ length d.bytes.items) };
}

/// Two lists are equal if they are as long and are sent as the same bytes.
impl PartialEq for DescriptorList {
    ghost eq = { eq_of_both (on length ◌==◌) (on descriptors_bytes (pointwise ◌==◌)) };

    ghost laws = { Prim.search (comparing, rules) };

    fn eq(&self, other: &DescriptorList) -> bool
        ensures entries { IsTrue result ↔ (self.now ≡ other.now) }
        ensures bytes { result ≡ eq_of_both (on length ◌==◌) (on descriptors_bytes (pointwise ◌==◌)) self.now other.now }
    {
        self.lent() == other.lent()
    }
}

impl Eq for DescriptorList {
    ghost laws = { Prim.search (comparing, rules) };
}

impl DescriptorList {
    /// Returns an empty list.
    pub fn new() -> Self
        ensures { result ≡ [] }
    {
        DescriptorList {
            count: 0,
            bytes: ArrayVec::new(),
        }
    }

    /// Returns the number of bytes that are left for descriptors.
    pub fn room(&self) -> usize
        ensures { result + length (descriptors_bytes self.now) ≡ 246 }
    {
        self.bytes.remaining_capacity()
    }

    /// Appends a descriptor.
    pub fn push(&mut self, descriptor: &DeviceDescriptor<'_>)
        requires { length (descriptors_bytes self.old) + descriptor_size (device_descriptor_of descriptor.now) ≤ 246 }
        ensures { self.new ≡ self.old ++ device_descriptor_of descriptor.now ∷ [] }
    {
        put_descriptor(&mut self.bytes, descriptor);
        self.count += 1;
    }

    /// Borrows the descriptors.
    pub fn lent(&self) -> DeviceDescriptors<'_>
        ensures { result ≡ self.now }
    {
        DeviceDescriptors::known(self.count, self.bytes.as_slice())
    }
}

/// Appends a descriptor as it is sent: its type, its length and its data.
fn put_descriptor(out: &mut ArrayVec<u8, MAX_DESCRIPTOR_BYTES>, descriptor: &DeviceDescriptor<'_>)
    requires { length out.old.items + descriptor_size (device_descriptor_of descriptor.now) ≤ 246 }
    ensures bytes { out.new.items ≡ out.old.items ++ descriptor_bytes (device_descriptor_of descriptor.now) }
    ensures widths { HasDescriptorWidths (device_descriptor_of descriptor.now) }
{
    let mut head = [0; 4];
    LittleEndian::write_u16(&mut head, descriptor.kind);
    LittleEndian::write_u16(&mut head[2..], descriptor.bytes.len() as u16);
    let _ = out.try_extend_from_slice(&head);
    let _ = out.try_extend_from_slice(descriptor.bytes);
}
