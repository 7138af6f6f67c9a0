//! Nodes of the worked device, and how cases run on them.

use crate::worked::{AGENT, DEVICE, device};
use fd_core::MemBank;
use fw_node::{DeviceNode, Outbox};
use mctp_ctl::Endpoint;
use mctp_wire::Unit;
use std::alloc::{AllocError, Global};
use uuid::Uuid;

/// An event at a node: a packet, or a number of ticks in which it sends nothing.
#[derive(Clone, Copy)]
pub enum Event<'a> {
    /// This packet arrives, and these bytes are sent back, or nothing.
    Packet(&'a [u8], &'a [u8]),
    /// This number of ticks passes, and nothing is sent.
    Quiet(usize),
}

/// The node of the worked device, on a network of this transmission unit.
pub fn device_node(alloc: Global, unit: Unit) -> Result<DeviceNode<MemBank>, AllocError> {
    let device = device(alloc, unit)?;
    Ok(DeviceNode::new(endpoint(DEVICE), AGENT, device))
}

/// An endpoint without a UUID.
pub fn endpoint(eid: u8) -> Endpoint {
    Endpoint {
        eid,
        uuid: Uuid::nil(),
    }
}

/// Whether an outbox holds only this packet, or nothing if there are no bytes.
fn holds(outbox: &mut Outbox, packet: &[u8]) -> bool {
    match outbox.pop() {
        Some(sent) => sent.as_slice() == packet && outbox.pop().is_none(),
        None => packet.is_empty(),
    }
}

/// Delivers a packet to a device's node, and returns whether it sends this one back.
fn device_answers(
    alloc: Global,
    node: &mut DeviceNode<MemBank>,
    bytes: &[u8],
    answer: &[u8],
) -> bool {
    let Ok(mut outbox) = Outbox::new(alloc) else {
        return false;
    };
    node.on_packet(bytes, &mut outbox);
    holds(&mut outbox, answer)
}

/// Passes a tick of a device's node, and returns whether it sends nothing.
fn device_is_quiet(alloc: Global, node: &mut DeviceNode<MemBank>) -> bool {
    let Ok(mut outbox) = Outbox::new(alloc) else {
        return false;
    };
    node.on_tick(&mut outbox);
    outbox.is_empty()
}

/// Passes `ticks` ticks of it, and returns whether it sends nothing.
fn device_stays_quiet(alloc: Global, node: &mut DeviceNode<MemBank>, ticks: usize) -> bool {
    for _ in 0..ticks {
        if !device_is_quiet(alloc, node) {
            return false;
        }
    }
    true
}

/// Takes the event of a case, and returns whether the device's node does as expected.
fn device_does(alloc: Global, node: &mut DeviceNode<MemBank>, event: &Event<'_>) -> bool {
    match event {
        Event::Packet(bytes, answer) => device_answers(alloc, node, bytes, answer),
        Event::Quiet(ticks) => device_stays_quiet(alloc, node, *ticks),
    }
}

/// The number of the first case, from 1, that fails on a device's node; 0 if none does.
pub fn device_fails(alloc: Global, events: &[Event<'_>]) -> usize {
    let Ok(mut node) = device_node(alloc, Unit::U64) else {
        return 1;
    };
    for (number, event) in events.iter().enumerate() {
        if !device_does(alloc, &mut node, event) {
            return number + 1;
        }
    }
    0
}
