//! The worked device.

ghost use Rattle.std.specs.Prelude.{IfOk};
ghost use Rattle.fd_core.specs.Components.{HasComponents};

use arrayvec::ArrayVec;
use fd_core::{BankComponent, Device, Key, Label, MemBank};
use fwup_wire::{DescriptorList, DeviceDescriptor, TypedText, Version};
use mctp_wire::Unit;
use std::alloc::{AllocError, Global};

/// The agent's endpoint identifier.
pub const AGENT: u8 = 8;

/// The device's endpoint identifier.
pub const DEVICE: u8 = 9;

/// The device's component.
pub const KEY: Key = Key {
    classification: 10,
    identifier: 1,
};

/// The device at this transmission unit: descriptor 0000 with data 34 12, and component (10, 1)
/// with stamp 1, text `1.0` and image AA.
pub fn device(alloc: Global, unit: Unit) -> Result<Device<MemBank>, AllocError>
    ensures { IfOk result (λ d. HasComponents d.device) }
{
    let label = Label::new(&Version {
        stamp: 1,
        text: TypedText {
            text_type: 1,
            bytes: b"1.0",
        },
    });
    let mut bank = MemBank::new(alloc);
    let Ok(()) = bank.add(KEY, &label, &[0xAA]) else {
        return Err(AllocError);
    };
    let mut components = ArrayVec::new();
    components.push(BankComponent { key: KEY, index: 0 });
    let mut descriptors = DescriptorList::new();
    descriptors.push(&DeviceDescriptor {
        kind: 0,
        bytes: &[0x34, 0x12],
    });
    Ok(Device::new(unit, descriptors, components, bank))
}
