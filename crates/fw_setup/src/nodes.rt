//! Builds the nodes that a configuration describes.

ghost use Rattle.std.specs.Prelude.{◌≡◌, ◌≤◌, IfOk, length, map};
ghost use Rattle.std.specs.List.{AllByRecursion};
ghost use Rattle.fd_core.specs.Components.{HasComponents};
ghost use Rattle.fw_script.specs.Seen.{component_of, device_of};
ghost use Rattle.fw_script.specs.Whole.{AreWhole, IsDevice};
ghost use Rattle.fw_steps.specs.Opening.{AreNewNodes, IsNewNode, IsOpeningWorld, new_world};
ghost use Rattle.fw_setup.specs.Nodes.{device_made, node_made, nodes_made};

use crate::banks::{Banks, BanksFault, MemBanks};
use arrayvec::ArrayVec;
use fd_core::{Bank, BankComponent, Device, MAX_COMPONENTS, MemBank};
use fw_node::DeviceNode;
use fw_package::Package;
use fw_script::{ComponentConfig, DeviceConfig};
use fw_world::World;
use fwup_wire::DescriptorList;
use mctp_ctl::Endpoint;
use mctp_wire::Unit;
use std::alloc::{AllocError, Global};

/// Returns the list of these components.
fn component_list(components: &[ComponentConfig]) -> ArrayVec<BankComponent, MAX_COMPONENTS>
    requires { length components.now ≤ 3 }
    ensures { result.items ≡ map (λ c. c.component) (map component_of components.now) }
{
    let mut list = ArrayVec::new();
    for config in components {
        list.push(config.component);
    }
    list
}

/// Returns the same descriptors.
fn same_descriptors(descriptors: &DescriptorList) -> DescriptorList
    ensures { result ≡ descriptors.now }
{
    let _room = descriptors.room();
    let mut same = DescriptorList::new();
    for descriptor in descriptors.lent() {
        same.push(&descriptor);
    }
    same
}

/// Creates a device of the configuration, in a network with this transmission unit.
#[tactic(auto, using(crate::proofs::Making::keys_made))]
fn device<B: Bank + Drop, M: Banks<B>>(
    alloc: Global,
    unit: Unit,
    config: &DeviceConfig,
    banks: &mut M,
) -> Result<Device<B>, BanksFault>
    requires { IsDevice (device_of config.now) }
    ensures is { IfOk result (λ d. d ≡ device_made unit (device_of config.now)) }
    ensures components { IfOk result (λ d. HasComponents d.device) }
{
    let components = component_list(config.components.as_slice());
    let descriptors = same_descriptors(&config.descriptors);
    let bank = banks.make(alloc, config.endpoint.eid, config.components.as_slice())?;
    Ok(Device::new(unit, descriptors, components, bank))
}

/// Creates the node of a device of the configuration, in a network with this transmission unit,
/// before its first packet. Its agent has the endpoint identifier `agent`.
///
/// # Errors
/// The fault of the device's bank, or `Memory` if memory for it is refused.
#[tactic(auto, using(crate::proofs::Making::new_made))]
pub fn device_node<B: Bank + Drop, M: Banks<B>>(
    alloc: Global,
    unit: Unit,
    agent: u8,
    config: &DeviceConfig,
    banks: &mut M,
) -> Result<DeviceNode<B>, BanksFault>
    requires { IsDevice (device_of config.now) }
    ensures is { IfOk result (λ n. n ≡ node_made unit agent (device_of config.now)) }
    ensures new { IfOk result (IsNewNode unit agent) }
    ensures components { IfOk result (λ n. HasComponents n.half.core.device) }
{
    let device = device(alloc, unit, config, banks)?;
    Ok(DeviceNode::new(config.endpoint, agent, device))
}

/// Creates the nodes of these devices, in their order.
fn node_all<B: Bank + Drop, M: Banks<B>>(
    alloc: Global,
    unit: Unit,
    agent: u8,
    devices: &[DeviceConfig],
    banks: &mut M,
) -> Result<Vec<DeviceNode<B>>, BanksFault>
    requires { AllByRecursion IsDevice (map device_of devices.now) }
    ensures is { IfOk result (λ ns. ns.items ≡ nodes_made unit agent (map device_of devices.now)) }
    ensures new { IfOk result (λ ns. AllByRecursion (IsNewNode unit agent) ns.items) }
{
    let mut nodes = Vec::new(alloc);
    for config in devices {
        let node = device_node(alloc, unit, agent, config, banks)?;
        let Ok(()) = nodes.push(node) else {
            return Err(BanksFault::Memory);
        };
    }
    Ok(nodes)
}

/// Creates the nodes of a configuration's devices, in their order.
///
/// # Errors
/// The fault of a device's bank, or `Memory` if memory for the nodes is refused.
#[tactic(auto, using(crate::proofs::Making::nodes_new))]
fn nodes<B: Bank + Drop, M: Banks<B>>(
    alloc: Global,
    unit: Unit,
    agent: u8,
    devices: &[DeviceConfig],
    banks: &mut M,
) -> Result<Vec<DeviceNode<B>>, BanksFault>
    requires { AreWhole agent (map device_of devices.now) }
    ensures is { IfOk result (λ ns. ns.items ≡ nodes_made unit agent (map device_of devices.now)) }
    ensures new { IfOk result (λ ns. AreNewNodes agent ns.items) }
{
    match node_all(alloc, unit, agent, devices, banks) {
        Ok(nodes) => Ok(nodes),
        Err(fault) => Err(fault),
    }
}

/// Creates the world of a configuration's nodes, in a network with its transmission unit, before
/// its first step, with a bank from `banks` for each device.
///
/// # Errors
/// The fault of a device's bank, or `Memory` if memory for the world is refused.
pub fn opening_world_over<'a, B: Bank + Drop, M: Banks<B>>(
    alloc: Global,
    unit: Unit,
    agent: Endpoint,
    devices: &[DeviceConfig],
    packages: &'a [Package<'a>],
    banks: &mut M,
) -> Result<World<'a, B>, BanksFault>
    requires { AreWhole agent.eid (map device_of devices.now) }
    ensures made { IfOk result (λ w. w ≡ new_world agent (nodes_made unit agent.eid (map device_of devices.now)) packages.now) }
    ensures opens { IfOk result (λ w. IsOpeningWorld w) }
{
    let nodes = nodes(alloc, unit, agent.eid, devices, banks)?;
    match World::new(alloc, agent, nodes, packages) {
        Ok(world) => Ok(world),
        Err(_) => Err(BanksFault::Memory),
    }
}

/// The same with banks in memory.
///
/// # Errors
/// `AllocError` if memory for it is refused.
pub fn opening_world<'a>(
    alloc: Global,
    unit: Unit,
    agent: Endpoint,
    devices: Vec<DeviceConfig>,
    packages: &'a [Package<'a>],
) -> Result<World<'a, MemBank>, AllocError>
    requires { AreWhole agent.eid (map device_of devices.items) }
    ensures made { IfOk result (λ w. w ≡ new_world agent (nodes_made unit agent.eid (map device_of devices.items)) packages.now) }
    ensures opens { IfOk result (λ w. IsOpeningWorld w) }
{
    match opening_world_over(alloc, unit, agent, &devices, packages, &mut MemBanks) {
        Ok(world) => Ok(world),
        Err(_) => Err(AllocError),
    }
}
