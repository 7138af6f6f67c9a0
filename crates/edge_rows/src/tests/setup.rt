//! The worlds of the worked devices with their agent, and observations of them.

ghost use Rattle.std.specs.Prelude.{◌≡◌, IfOk};
ghost use Rattle.std.specs.List.{AllByRecursion};
ghost use Rattle.exch_lane.specs.Lanes.{IsEid};
ghost use Rattle.fd_core.specs.Components.{HasComponents};
ghost use Rattle.fd_core.specs.States.{Phase};
ghost use Rattle.fw_message.specs.Laws.{IsUnapplied};
ghost use Rattle.fw_steps.specs.Opening.{AreNewNodes, IsNewNode};

use crate::tests::packages::is_image;
use arrayvec::ArrayVec;
use fd_core::{Bank, BankComponent, Device, FailBank, Key, Label, MemBank, State};
use fw_edge::{Driven, EdgeFault, Link, drive};
use fw_node::DeviceNode;
use fw_package::Package;
use fw_world::{HistoryEvent, Step, StepFault, World};
use fwup_wire::{DescriptorList, DeviceDescriptor, TypedText, Version};
use mctp_ctl::Endpoint;
use mctp_wire::Unit;
use std::alloc::{AllocError, Global};
use ua_core::SessionState;
use uuid::Uuid;

/// The worked device's endpoint identifier.
pub const DEVICE: u8 = 9;

/// The devices' component.
pub const KEY: Key = Key {
    classification: 10,
    identifier: 1,
};

/// A world of the tests.
pub type Small<'a> = World<'a, FailBank>;

/// An endpoint without a UUID.
fn endpoint(eid: u8) -> Endpoint
    ensures { result.eid ≡ eid }
{
    Endpoint {
        eid,
        uuid: Uuid::nil(),
    }
}

/// The worked device's descriptors: type 0, data 34 12.
fn descriptors() -> DescriptorList {
    let mut descriptors = DescriptorList::new();
    descriptors.push(&DeviceDescriptor {
        kind: 0,
        bytes: &[0x34, 0x12],
    });
    descriptors
}

/// The label with stamp 1 and text `1.0`.
fn label() -> Label {
    Label::new(&Version {
        stamp: 1,
        text: TypedText {
            text_type: 1,
            bytes: b"1.0",
        },
    })
}

/// The worked device: component (10, 1), stamp 1, `1.0`, image AA, over a bank whose `call`-th call
/// that can fail does; at 0 none does.
fn device(alloc: Global, unit: Unit, call: u64) -> Result<Device<FailBank>, AllocError>
    ensures unit { IfOk result (λ d. d.device.unit ≡ unit) }
    ensures components { IfOk result (λ d. HasComponents d.device) }
    ensures idle { IfOk result (λ d. d.device.phase ≡ Phase.Idle) }
    ensures unapplied { IfOk result (λ d. AllByRecursion IsUnapplied d.device.rows) }
{
    let mut bank = MemBank::new(alloc);
    let Ok(()) = bank.add(KEY, &label(), &[0xAA]) else {
        return Err(AllocError);
    };
    let mut components = ArrayVec::new();
    components.push(BankComponent { key: KEY, index: 0 });
    let bank = FailBank::new(bank, call);
    Ok(Device::new(unit, descriptors(), components, bank))
}

/// The node of such a device.
#[tactic(auto, using(crate::proofs::Opening::new_node))]
fn node(alloc: Global, unit: Unit, eid: u8, call: u64) -> Result<DeviceNode<FailBank>, AllocError>
    requires { IsEid eid }
    ensures new { IfOk result (IsNewNode unit 8) }
    ensures unit { IfOk result (λ n. n.half.unit ≡ unit) }
    ensures eid { IfOk result (λ n. n.endpoint.eid ≡ eid) }
{
    let device = device(alloc, unit, call)?;
    Ok(DeviceNode::new(endpoint(eid), 8, device))
}

/// The nodes of one such device or of three: 9 to 11.
fn nodes(
    alloc: Global,
    unit: Unit,
    devices: usize,
    call: u64,
) -> Result<Vec<DeviceNode<FailBank>>, AllocError>
    ensures { IfOk result (λ ns. AreNewNodes 8 ns.items) }
{
    let mut nodes = Vec::new(alloc);
    nodes.push(node(alloc, unit, DEVICE, call)?)?;
    if devices == 1 {
        return Ok(nodes);
    }
    nodes.push(node(alloc, unit, 10, call)?)?;
    nodes.push(node(alloc, unit, 11, call)?)?;
    Ok(nodes)
}

/// Creates the world of the agent 8 and one device or three on a network with this transmission
/// unit; one call of each bank fails, or at 0 none.
pub fn world<'a>(
    alloc: Global,
    unit: Unit,
    packages: &'a [Package<'a>],
    devices: usize,
    call: u64,
) -> Result<Small<'a>, AllocError> {
    World::new(
        alloc,
        endpoint(8),
        nodes(alloc, unit, devices, call)?,
        packages,
    )
}

/// `World::step`; its contract isn't needed in the proofs of the tests.
pub fn step(world: &mut Small<'_>, step: &Step) -> Result<(), StepFault> {
    world.step(step)
}

/// Starts the update of a device, and returns whether that was taken.
pub fn start(world: &mut Small<'_>, device: u8) -> bool {
    step(world, &Step::Start(device, 1)).is_ok()
}

/// `drive`, over as many links as there are devices; its contract isn't needed in the proofs of the
/// tests.
pub fn driven<L: Link>(
    world: &mut Small<'_>,
    links: &mut [L],
    turns: u32,
    steps: &mut Vec<Step>,
) -> Result<Driven, EdgeFault> {
    if links.len() != world.device_count() {
        return Err(EdgeFault::Step);
    }
    drive(world, links, turns, steps)
}

/// Drives a world over its links, and drops the steps.
pub fn driven_over<L: Link>(
    alloc: Global,
    world: &mut Small<'_>,
    links: &mut [L],
    turns: u32,
) -> Option<Driven> {
    let mut steps = Vec::new(alloc);
    driven(world, links, turns, &mut steps).ok()
}

/// Returns whether a device and its session are in these states, and this number of packets was
/// sent between it and the agent.
pub fn stands(
    world: &Small<'_>,
    device: u8,
    session: SessionState,
    state: State,
    sent: usize,
) -> bool {
    match (
        world.agent().session(device),
        world.device(device),
        world.packets(device),
    ) {
        (Some(s), Some(d), Some(packets)) => {
            s.state() == session && d.device().state() == state && packets.len() == sent
        }
        _ => false,
    }
}

/// The active image of a device.
fn image_of<'w>(world: &'w Small<'_>, device: u8) -> &'w [u8] {
    let Some(node) = world.device(device) else {
        return &[];
    };
    match node.device().bank().active(KEY) {
        Some((_, image)) => image,
        None => &[],
    }
}

/// Returns whether a device's active image is AA, the first one.
pub fn runs_first(world: &Small<'_>, device: u8) -> bool {
    image_of(world, device) == [0xAA].as_slice()
}

/// Returns whether a device's active image is the worked one.
pub fn is_updated(world: &Small<'_>, device: u8) -> bool {
    is_image(image_of(world, device))
}

/// Returns whether the history is these letters: A image applied, R recorded, V activated.
pub fn tells(world: &Small<'_>, story: &[u8]) -> bool {
    let history = world.history();
    for (entry, letter) in history.iter().zip(story) {
        if letter_of(&entry.event) != *letter {
            return false;
        }
    }
    history.len() == story.len()
}

/// The letter of an event.
fn letter_of(event: &HistoryEvent<'_>) -> u8 {
    match event {
        HistoryEvent::Applied(_) => b'A',
        HistoryEvent::Recorded(_) => b'R',
        HistoryEvent::Activated(_) => b'V',
    }
}
