//! Worlds of worked devices.

ghost use Rattle.fd_core.specs.Components.{HasComponents};

use crate::worked::{AGENT, device};
use fd_core::{Device, Key, MemBank};
use fw_message::{MessageStepFault, MessageWorld};
use fw_package::Package;
use mctp_wire::Unit;
use std::alloc::Global;

/// An identifier without a node.
pub const NOBODY: u8 = 11;

/// The second component of a device with two.
pub const SECOND: Key = Key {
    classification: 10,
    identifier: 2,
};

/// A world of the tests.
pub type Small<'a> = MessageWorld<'a, MemBank>;

/// Adds a worked device with this identifier, at the unit of 64 bytes, to a world without it.
pub fn join(alloc: Global, world: &mut Small<'_>, eid: u8) -> Result<(), MessageStepFault> {
    join_at(alloc, world, eid, Unit::U64)
}

/// The same at this transmission unit.
pub fn join_at(
    alloc: Global,
    world: &mut Small<'_>,
    eid: u8,
    unit: Unit,
) -> Result<(), MessageStepFault> {
    let Ok(device) = device(alloc, unit) else {
        return Err(MessageStepFault::Memory);
    };
    add(world, eid, device)
}

/// Adds a device to a world without a node of its identifier.
fn add(world: &mut Small<'_>, eid: u8, device: Device<MemBank>) -> Result<(), MessageStepFault>
    requires { HasComponents device.device }
{
    if eid == world.agent() || world.device(eid).is_some() {
        return Err(MessageStepFault::NoSuchNode);
    }
    world.add(eid, device)
}

/// The world of the agent without devices.
pub fn opening<'a>(alloc: Global, packages: &'a [Package<'a>]) -> Small<'a> {
    MessageWorld::new(alloc, AGENT, packages)
}
