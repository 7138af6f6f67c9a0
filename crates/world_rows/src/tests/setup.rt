//! The worlds of the worked devices with their agent.

ghost use Rattle.std.specs.Prelude.{◌≡◌, IfOk};
ghost use Rattle.std.specs.List.{AllByRecursion};
ghost use Rattle.exch_lane.specs.Lanes.{IsEid};
ghost use Rattle.fd_core.specs.Components.{HasComponents};
ghost use Rattle.fd_core.specs.States.{Phase};
ghost use Rattle.fw_message.specs.Laws.{IsUnapplied};
ghost use Rattle.fw_steps.specs.Opening.{AreNewNodes, IsNewNode};

use arrayvec::ArrayVec;
use fd_core::{BankComponent, Device, Key, Label, MemBank};
use fw_node::DeviceNode;
use fw_package::Package;
use fw_world::{Step, StepFault, World};
use fwup_wire::{DescriptorList, DeviceDescriptor, TypedText, Version};
use mctp_ctl::Endpoint;
use mctp_wire::Unit;
use std::alloc::{AllocError, Global};
use uuid::Uuid;

/// The worked device's endpoint identifier.
pub const DEVICE: u8 = 9;

/// The devices' first component: stamp 1, `1.0`, image AA.
pub const KEY: Key = Key {
    classification: 10,
    identifier: 1,
};

/// The second and the third component of a device with more than one.
const SECOND: Key = Key {
    classification: 10,
    identifier: 2,
};

const THIRD: Key = Key {
    classification: 10,
    identifier: 3,
};

/// A world of the tests.
pub type Small<'a> = World<'a, MemBank>;

/// An endpoint without a UUID.
fn endpoint(eid: u8) -> Endpoint
    ensures { result.eid ≡ eid }
{
    Endpoint {
        eid,
        uuid: Uuid::nil(),
    }
}

/// The worked device's descriptors: type 0, data 34 12.
fn descriptors() -> DescriptorList {
    let mut descriptors = DescriptorList::new();
    descriptors.push(&DeviceDescriptor {
        kind: 0,
        bytes: &[0x34, 0x12],
    });
    descriptors
}

/// The label with stamp 1 and text `1.0`.
fn label() -> Label {
    Label::new(&Version {
        stamp: 1,
        text: TypedText {
            text_type: 1,
            bytes: b"1.0",
        },
    })
}

/// A device of `count` components, 1 to 3: (10, 1) to (10, 3).
fn device(alloc: Global, unit: Unit, count: usize) -> Result<Device<MemBank>, AllocError>
    ensures unit { IfOk result (λ d. d.device.unit ≡ unit) }
    ensures components { IfOk result (λ d. HasComponents d.device) }
    ensures idle { IfOk result (λ d. d.device.phase ≡ Phase.Idle) }
    ensures unapplied { IfOk result (λ d. AllByRecursion IsUnapplied d.device.rows) }
{
    let mut bank = MemBank::new(alloc);
    let mut components = ArrayVec::new();
    let Ok(()) = bank.add(KEY, &label(), &[0xAA]) else {
        return Err(AllocError);
    };
    components.push(BankComponent { key: KEY, index: 0 });
    if count == 1 {
        return Ok(Device::new(unit, descriptors(), components, bank));
    }
    let Ok(()) = bank.add(SECOND, &label(), &[0xAA]) else {
        return Err(AllocError);
    };
    components.push(BankComponent {
        key: SECOND,
        index: 1,
    });
    if count == 2 {
        return Ok(Device::new(unit, descriptors(), components, bank));
    }
    let Ok(()) = bank.add(THIRD, &label(), &[0xAA]) else {
        return Err(AllocError);
    };
    components.push(BankComponent {
        key: THIRD,
        index: 2,
    });
    Ok(Device::new(unit, descriptors(), components, bank))
}

/// The node of such a device.
#[tactic(auto, using(crate::proofs::Opening::new_node))]
fn node(
    alloc: Global,
    unit: Unit,
    eid: u8,
    components: usize,
) -> Result<DeviceNode<MemBank>, AllocError>
    requires { IsEid eid }
    ensures new { IfOk result (IsNewNode unit 8) }
    ensures unit { IfOk result (λ n. n.half.unit ≡ unit) }
    ensures eid { IfOk result (λ n. n.endpoint.eid ≡ eid) }
{
    let device = device(alloc, unit, components)?;
    Ok(DeviceNode::new(endpoint(eid), 8, device))
}

/// The nodes of such devices, 1 to 3: 9 to 11.
fn nodes(
    alloc: Global,
    unit: Unit,
    devices: usize,
    components: usize,
) -> Result<Vec<DeviceNode<MemBank>>, AllocError>
    ensures { IfOk result (λ ns. AreNewNodes 8 ns.items) }
{
    let mut nodes = Vec::new(alloc);
    nodes.push(node(alloc, unit, DEVICE, components)?)?;
    if devices == 1 {
        return Ok(nodes);
    }
    nodes.push(node(alloc, unit, 10, components)?)?;
    if devices == 2 {
        return Ok(nodes);
    }
    nodes.push(node(alloc, unit, 11, components)?)?;
    Ok(nodes)
}

/// Creates the world of the agent 8 and 1 to 3 equal devices, of 1 to 3 components each, on a
/// network with this transmission unit.
pub fn world<'a>(
    alloc: Global,
    unit: Unit,
    packages: &'a [Package<'a>],
    devices: usize,
    components: usize,
) -> Result<Small<'a>, AllocError> {
    World::new(
        alloc,
        endpoint(8),
        nodes(alloc, unit, devices, components)?,
        packages,
    )
}

/// `World::step`; its contract isn't needed in the proofs of the tests.
pub fn step(world: &mut Small<'_>, step: &Step) -> Result<(), StepFault> {
    world.step(step)
}
