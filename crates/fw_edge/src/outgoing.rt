//! Writes packets of a world to its links.

ghost use Rattle.std.specs.Prelude.{◌≡◌, ◌≤◌, ◌<◌, ◌+◌, ◌-◌, IfErr, OnOk, length, map, slice_get};
ghost use Rattle.fw_edge.specs.Ledgers.{NoCountFalls, packet_counts};
ghost use Rattle.fw_edge.specs.Links.{end_of, links_at};
ghost use Rattle.fw_edge.specs.Outcomes.{LinkWriteErr, LinkWriteOk, LinksWriteErr, LinksWriteOk};
ghost use Rattle.fw_edge.specs.Outgoing.{LinkTakesAll, LinkTakesPair, WritesOut};
ghost use Rattle.fw_steps.specs.Worlds.{packets_at};

use crate::driving::EdgeFault;
use crate::link::Link;
use fd_core::Bank;
use fw_world::{SentPackets, Side, World};
use mctp_wire::{MAX_PACKET, RawPacket};

/// The end of a device's link at which a packet is sent: that of its source, which is its third
/// byte (DSP0236).
fn end_of(packet: &[u8], device: u8) -> Side
    ensures { result ≡ end_of packet.now device }
{
    let [_, _, source, ..] = packet else {
        return Side::Agent;
    };
    if *source == device {
        return Side::Device;
    }
    Side::Agent
}

/// Replaces the content of a packet.
fn put(packet: &mut RawPacket, bytes: &[u8])
    requires { length bytes.now ≤ MAX_PACKET }
    ensures { packet.new.items ≡ bytes.now }
{
    packet.clear();
    let _ = packet.try_extend_from_slice(bytes);
}

/// Writes packets of a pair to its link, each at the end of its source.
fn write_each<L: Link>(link: &mut L, packets: &SentPackets<'_>, device: u8) -> Result<(), EdgeFault>
    ensures took { OnOk result (LinkTakesAll device (L.taken link.old) (map (λ p. p.bytes) packets.now) (L.taken link.new)) }
    ensures wrote { OnOk result (LinkWriteOk L.tally L.gave (length packets.now) link.old link.new) }
    ensures refused { IfErr result (λ e. LinkWriteErr L.tally e (length packets.now) link.old link.new) }
{
    let mut packet = RawPacket::new();
    for place in 0..packets.len() {
        let Some(sent) = packets.get(place) else {
            unreachable!()
        };
        put(&mut packet, sent.bytes);
        match link.send(end_of(sent.bytes, device), &packet) {
            Ok(()) => {}
            Err(_) => return Err(EdgeFault::Frame),
        }
    }
    Ok(())
}

/// The number of packets sent in the pair of the device at `place`.
pub(crate) fn sent_at<B: Bank + Drop>(world: &World<'_, B>, place: usize) -> usize
    ensures { result ≡ length (packets_at (slice_get world.now.sites place)) }
{
    match world.packets_at(place) {
        Some(packets) => packets.len(),
        None => 0,
    }
}

/// Writes the packets of the pair of the device at `place` after the first `written` to its link.
#[tactic(auto, using(crate::proofs::Taking::took_written))]
fn write_at<B: Bank + Drop, L: Link>(
    world: &World<'_, B>,
    place: usize,
    link: &mut L,
    written: usize,
) -> Result<(), EdgeFault>
    ensures took { OnOk result (LinkTakesPair (slice_get world.now.sites place) written (L.taken link.old) (L.taken link.new)) }
    ensures wrote { OnOk result (LinkWriteOk L.tally L.gave (length
        (packets_at (slice_get world.now.sites place)) - written) link.old link.new) }
    ensures refused { IfErr result (λ e. LinkWriteErr L.tally e
        (length (packets_at (slice_get world.now.sites place)) - written) link.old link.new) }
{
    let (Some(node), Some(packets)) = (world.device_at(place), world.packets_at(place)) else {
        return Ok(());
    };
    if packets.len() <= written {
        return Ok(());
    }
    match write_each(link, &packets.behind(written), node.eid()) {
        Ok(()) => Ok(()),
        Err(fault) => Err(fault),
    }
}

/// Writes each packet that isn't written yet to the link of its pair, in configured order and
/// ascending numbers. `written[i]` is the number of packets that link i has taken; afterwards it is
/// the number of all packets of the pair.
pub(crate) fn write_out<B: Bank + Drop, L: Link>(
    world: &World<'_, B>,
    links: &mut [L],
    written: &mut [usize],
) -> Result<(), EdgeFault>
    requires each { length written.old ≡ length links.old }
    requires within { NoCountFalls written.old (packet_counts world.now.sites) }
    ensures out { OnOk result (WritesOut world.now (links_at written.old (map L.taken links.old)
        (map L.gave links.old)) (links_at written.new (map L.taken links.new)
        (map L.gave links.new))) }
    ensures wrote { OnOk result (LinksWriteOk L.tally written.old written.new links.old links.new) }
    ensures refused { IfErr result (λ e. LinksWriteErr L.tally e links.old links.new) }
    ensures links { length links.new ≡ length links.old }
    ensures written { length written.new ≡ length written.old }
{
    for place in 0..links.len() {
        match write_at(world, place, &mut links[place], written[place]) {
            Ok(()) => {}
            Err(fault) => return Err(fault),
        }
        written[place] = sent_at(world, place);
    }
    Ok(())
}
