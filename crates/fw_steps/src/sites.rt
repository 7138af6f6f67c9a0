//! The nodes of all devices in the world, in their order.

ghost use Rattle.std.specs.Prelude.{[], ◌≡◌, ◌≤◌, ◌<◌, ◌+◌, ◌⊎◌, IfErr, IfOk, IfSome, None, OnErr, OnOk, Some, ℕ, length, map, option_map, slice_get, true};
ghost use Rattle.std.specs.List.{AllByRecursion, list_all};
ghost use Rattle.fd_core.specs.Components.{HasComponents};
ghost use Rattle.fw_message.specs.Entries.{entry_of};
ghost use Rattle.fw_steps.specs.Opening.{new_site, unit_of};
ghost use Rattle.fw_steps.specs.Steps.{may_site_beat, verdict_fault};
ghost use Rattle.fw_steps.specs.Replays.{adds_entry};
ghost use Rattle.fw_steps.specs.Sites.{HaveRoom, NotesPacketAtPlace, NotesVerdictAtPlace, HasFullSite, sites_of};
ghost use Rattle.fw_steps.specs.Worlds.{place_for, place_of, post, posts, site_for, site_after_tick, site_restarts};

use crate::site::Site;
use crate::step::StepFault;
use fd_core::{Bank, Verdict};
use fw_message::Entry;
use fw_node::{DeviceNode, Outbox};
use fw_package::Package;
use mctp_wire::{RawPacket, Unit};
use std::alloc::{AllocError, Global};

/// Returns the endpoint identifiers of these nodes, in their order.
pub(crate) fn eids_of<B: Bank>(
    alloc: Global,
    nodes: &[DeviceNode<B>],
) -> Result<Vec<u8>, AllocError>
    ensures { IfOk result (λ eids. eids.items ≡ map (λ n. n.endpoint.eid) nodes.now) }
{
    let mut eids = Vec::new(alloc);
    for node in nodes {
        eids.push(node.eid())?;
    }
    Ok(eids)
}

/// Returns the transmission unit of the first of these nodes.
pub(crate) fn unit_of<B: Bank>(nodes: &[DeviceNode<B>]) -> Unit
    ensures { result ≡ unit_of nodes.now }
{
    match nodes {
        [node, ..] => node.unit(),
        [] => Unit::U64,
    }
}

/// Creates the sites of these nodes, without packets.
pub(crate) fn new_sites<'a, B: Bank + Drop>(
    alloc: Global,
    nodes: Vec<DeviceNode<B>>,
) -> Result<Vec<Site<'a, B>>, AllocError>
    requires { AllByRecursion (λ n. HasComponents n.half.core.device) nodes.items }
    ensures { IfOk result (λ sites. sites_of sites.items ≡ map new_site nodes.items) }
{
    let mut nodes = nodes;
    let mut sites = Vec::new(alloc);
    while !nodes.is_empty() {
        let node = nodes.remove(0);
        let Ok(()) = sites.push(Site::new(alloc, node)) else {
            return Err(AllocError);
        };
    }
    Ok(sites)
}

/// Returns the place of the device with this identifier.
pub(crate) fn place_of<B: Bank>(sites: &[Site<'_, B>], eid: u8) -> Option<usize>
    ensures place { result ≡ place_of (sites_of sites.now) eid }
    ensures within { IfSome result (λ place. place < length sites.now) }
{
    for (place, site) in sites.iter().enumerate() {
        if site.eid() == eid {
            return Some(place);
        }
    }
    None
}

/// Returns the site of the device with this identifier.
#[tactic(auto, using(crate::proofs::Places::at_place))]
pub(crate) fn site_for<'s, 'a, B: Bank>(
    sites: &'s [Site<'a, B>],
    eid: u8,
) -> Option<&'s Site<'a, B>>
    ensures { option_map (λ s. s.now.site) result ≡ site_for (sites_of sites.now) eid }
{
    let Some(place) = place_of(sites, eid) else {
        return None;
    };
    Some(&sites[place])
}

/// Makes room for `count` packets at each device.
pub(crate) fn make_room<B: Bank>(sites: &mut [Site<'_, B>], count: u16) -> Result<(), AllocError>
    ensures room { OnOk result (HaveRoom count sites.new) }
    ensures lacked { OnErr result (HasFullSite count sites.old) }
    ensures same { sites_of sites.new ≡ sites_of sites.old }
    ensures count { length sites.new ≡ length sites.old }
{
    for site in sites.iter_mut() {
        match site.make_room(count) {
            Ok(()) => {}
            Err(error) => return Err(error),
        }
    }
    Ok(())
}

/// Appends each packet that the agent sent to those of the device that it is for, dated `now`.
/// There must be room for them.
pub(crate) fn post_all<B: Bank>(sites: &mut [Site<'_, B>], now: u32, outbox: &mut Outbox)
    requires room { HaveRoom 128 sites.old }
    requires few { length outbox.old ≤ 64 }
    ensures sites { sites_of sites.new ≡ posts now (sites_of sites.old) outbox.old }
    ensures room { HaveRoom 64 sites.new }
    ensures outbox { outbox.new ≡ [] }
    ensures count { length sites.new ≡ length sites.old }
{
    while let Some(packet) = outbox.pop() {
        post(sites, now, packet);
    }
}

/// Appends a packet that the agent sent to those of the device that it is for. There must be room
/// for it.
#[tactic(auto, using(crate::proofs::Places::post_nowhere))]
fn post<B: Bank>(sites: &mut [Site<'_, B>], now: u32, packet: RawPacket)
    requires { HaveRoom 1 sites.old }
    ensures sites { sites_of sites.new ≡ post now (sites_of sites.old) packet.items }
    ensures room { (n : ℕ) → HaveRoom (n + 1) sites.old → HaveRoom n sites.new }
    ensures count { length sites.new ≡ length sites.old }
{
    let Some(place) = place_for(sites, packet.as_slice()) else {
        return;
    };
    sites[place].post(now, packet);
}

/// Returns the place of the device that a packet is for, from the packet's second byte (DSP0236).
fn place_for<B: Bank>(sites: &[Site<'_, B>], packet: &[u8]) -> Option<usize>
    ensures place { result ≡ place_for (sites_of sites.now) packet.now }
    ensures within { IfSome result (λ place. place < length sites.now) }
{
    let [_, dest, ..] = packet else {
        return None;
    };
    place_of(sites, *dest)
}

/// A unit of time passes, which all devices but `missed` count as a tick. The packets that they
/// send are dated `now`.
pub(crate) fn pass_all<B: Bank>(
    sites: &mut [Site<'_, B>],
    missed: &[u8],
    now: u32,
    outbox: &mut Outbox,
)
    requires room { HaveRoom 64 sites.old }
    requires outbox { outbox.old ≡ [] }
    ensures sites { sites_of sites.new ≡ map (site_after_tick missed.now now) (sites_of sites.old) }
    ensures outbox { outbox.new ≡ [] }
    ensures count { length sites.new ≡ length sites.old }
{
    for site in sites.iter_mut() {
        site.pass(missed, now, outbox);
    }
}

/// Whether each device that misses a tick may miss it.
pub(crate) fn may_all_beat<B: Bank>(sites: &[Site<'_, B>], missed: &[u8]) -> bool
    ensures { result ≡ list_all (may_site_beat missed.now) (sites_of sites.now) }
{
    for site in sites {
        if !site.may_beat(missed) {
            return false;
        }
    }
    true
}

/// The node at a place handles the bytes of a packet. The packets that it sends are dated `now`,
/// and the images that it activates are noted.
pub(crate) fn deliver_at<'a, B: Bank>(
    sites: &mut [Site<'a, B>],
    place: usize,
    alloc: Global,
    packages: &'a [Package<'a>],
    now: u32,
    bytes: &[u8],
    outbox: &mut Outbox,
    history: &mut Vec<Entry<'a>>,
) -> Result<(), AllocError>
    requires place { place < length sites.old }
    requires outbox { outbox.old ≡ [] }
    ensures heard { OnOk result (NotesPacketAtPlace now (sites_of sites.old) place bytes.now
        (sites_of sites.new) (map entry_of history.old.items) (map entry_of history.new.items)) }
    ensures same { OnErr result (sites_of sites.new ≡ sites_of sites.old) }
    ensures unnoted { OnErr result (map entry_of history.new.items ≡ map entry_of history.old.items) }
    ensures outbox { outbox.new ≡ [] }
    ensures count { length sites.new ≡ length sites.old }
{
    match sites[place].deliver(alloc, packages, now, bytes, outbox, history) {
        Ok(()) => {}
        Err(error) => return Err(error),
    }
    Ok(())
}

/// The node at a place handles a verdict. The image that it applies is noted.
pub(crate) fn judge_at<'a, B: Bank>(
    sites: &mut [Site<'a, B>],
    place: usize,
    alloc: Global,
    packages: &'a [Package<'a>],
    verdict: Verdict,
    history: &mut Vec<Entry<'a>>,
) -> Result<(), StepFault>
    requires place { place < length sites.old }
    ensures judged { OnOk result (NotesVerdictAtPlace (sites_of sites.old) place verdict
        (sites_of sites.new) (map entry_of history.old.items) (map entry_of history.new.items)) }
    ensures may { OnOk result (verdict_fault verdict (slice_get (sites_of sites.old) place) ≡ None) }
    ensures refused { IfErr result (λ e. (verdict_fault verdict
        (slice_get (sites_of sites.old) place) ≡ Some e)
        ⊎ ((e ≡ StepFault.Memory)
        × (adds_entry verdict ≡ true)
        × (verdict_fault verdict (slice_get (sites_of sites.old) place) ≡ None))) }
    ensures same { OnErr result (sites_of sites.new ≡ sites_of sites.old) }
    ensures unnoted { OnErr result (map entry_of history.new.items ≡ map entry_of history.old.items) }
    ensures count { length sites.new ≡ length sites.old }
{
    match sites[place].judge(alloc, packages, verdict, history) {
        Ok(()) => {}
        Err(fault) => return Err(fault),
    }
    Ok(())
}

/// Restarts the node at a place.
#[tactic(auto, using(crate::proofs::Places::restart_there))]
pub(crate) fn restart_at<B: Bank>(sites: &mut [Site<'_, B>], place: usize)
    requires { place < length sites.old }
    ensures sites { sites_of sites.new ≡ site_restarts (sites_of sites.old) (Some place) (slice_get (sites_of sites.old) place) }
    ensures count { length sites.new ≡ length sites.old }
{
    sites[place].restart();
}
