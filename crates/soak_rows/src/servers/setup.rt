//! The worked device and its agent, each by itself.

ghost use Rattle.std.specs.Prelude.{IfOk};
ghost use Rattle.fd_core.specs.Components.{HasComponents};

use crate::worked::endpoint;
use arrayvec::ArrayVec;
use fd_core::{BankComponent, Device, Key, Label, MemBank};
use fw_node::DeviceNode;
use fw_package::Package;
use fw_serve::{AgentFilter, DeviceFilter, FilterOptions, Front};
use fwup_wire::{DescriptorList, DeviceDescriptor, TypedText, Version};
use fwupd_base::LineServer;
use mctp_wire::Unit;
use std::alloc::{AllocError, Global};

/// The worked device: descriptor 0000 with data 34 12, and component (10, 1) with stamp 1, text
/// `1.0` and image AA.
fn device(alloc: Global) -> Result<Device<MemBank>, AllocError>
    ensures { IfOk result (λ d. HasComponents d.device) }
{
    let key = Key {
        classification: 10,
        identifier: 1,
    };
    let label = Label::new(&Version {
        stamp: 1,
        text: TypedText {
            text_type: 1,
            bytes: b"1.0",
        },
    });
    let mut bank = MemBank::new(alloc);
    let Ok(()) = bank.add(key, &label, &[0xAA]) else {
        return Err(AllocError);
    };
    let mut components = ArrayVec::new();
    components.push(BankComponent { key, index: 0 });
    let mut descriptors = DescriptorList::new();
    descriptors.push(&DeviceDescriptor {
        kind: 0,
        bytes: &[0x34, 0x12],
    });
    Ok(Device::new(Unit::U64, descriptors, components, bank))
}

/// The options of a filter without a front.
fn closed(auto: bool) -> FilterOptions {
    FilterOptions { auto, front: None }
}

/// The options of a filter with the front of an endpoint.
pub fn open(eid: u8) -> FilterOptions {
    let front = Front {
        unit: Unit::U64,
        endpoint: endpoint(eid),
    };
    FilterOptions {
        auto: false,
        front: Some(front),
    }
}

/// The worked device 9 of the agent 8, as a server of lines.
pub fn device_filter(alloc: Global, auto: bool) -> Result<DeviceFilter<MemBank>, AllocError> {
    device_with(alloc, closed(auto))
}

/// The same with these options.
pub fn device_with(
    alloc: Global,
    options: FilterOptions,
) -> Result<DeviceFilter<MemBank>, AllocError> {
    let device = device(alloc)?;
    let node = DeviceNode::new(endpoint(9), 8, device);
    DeviceFilter::new(alloc, node, options)
}

/// The agent 8 of the device 9, as a server of lines.
pub fn agent_filter<'p>(
    alloc: Global,
    packages: &'p [Package<'p>],
    auto: bool,
) -> Result<AgentFilter<'p>, AllocError> {
    agent_with(alloc, packages, closed(auto))
}

/// The same with these options.
pub fn agent_with<'p>(
    alloc: Global,
    packages: &'p [Package<'p>],
    options: FilterOptions,
) -> Result<AgentFilter<'p>, AllocError> {
    AgentFilter::new(alloc, Unit::U64, endpoint(8), &[9], packages, options)
}

/// Serves a line, and returns what it prints.
pub fn served<S: LineServer>(
    alloc: Global,
    server: &mut S,
    line: &[u8],
) -> Result<Vec<u8>, AllocError> {
    let mut bytes = Vec::with_capacity(alloc, line.len())?;
    let mut text = Vec::with_capacity(alloc, 512)?;
    server.serve(line, &mut bytes, &mut text)?;
    Ok(text)
}

/// Returns whether each line prints its text.
pub fn serves_all<S: LineServer>(
    alloc: Global,
    server: &mut S,
    lines: &[(&str, &str)],
) -> Result<bool, AllocError> {
    for (line, text) in lines {
        let printed = served(alloc, server, line.as_bytes())?;
        if printed.as_slice() != text.as_bytes() {
            return Ok(false);
        }
    }
    Ok(true)
}
