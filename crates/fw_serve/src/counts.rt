//! The number of packets that the agent sent to each of its devices.

ghost use Rattle.std.specs.Prelude.{◌≡◌, ◌++◌, IfOk, OnOk, map, slice_get};
ghost use Rattle.fw_steps.specs.Alone.{is_for};
ghost use Rattle.fw_serve.specs.Agents.{count_of_half, count_with, counts_with, new_counts};

use fw_node::AgentNode;
use fw_script::SentCount;
use std::alloc::{AllocError, Global};

/// Returns the counts of an agent that has sent nothing.
pub(crate) fn counts_for(alloc: Global, devices: &[u8]) -> Result<Vec<SentCount>, AllocError>
    ensures { IfOk result (λ counts. counts.items ≡ new_counts devices.now) }
{
    let mut counts = Vec::new(alloc);
    for device in devices {
        counts.push(SentCount {
            device: *device,
            count: 0,
        })?;
    }
    Ok(counts)
}

/// Appends the count of the device at a place, which is 0.
#[tactic(auto, using(crate::proofs::NodeCounts::half_found))]
fn push_count(
    counts: &mut Vec<SentCount>,
    agent: &AgentNode,
    place: usize,
) -> Result<(), AllocError>
    ensures { OnOk result (counts.new.items ≡ counts.old.items ++ count_of_half (slice_get agent.now.halves place)) }
{
    match agent.session_at(place) {
        Some((device, _)) => {
            counts.push(SentCount { device, count: 0 })?;
            Ok(())
        }
        None => Ok(()),
    }
}

/// Returns the counts of an agent with a node that has sent nothing.
#[tactic(auto, using(crate::proofs::NodeCounts::places))]
pub(crate) fn counts_of(alloc: Global, agent: &AgentNode) -> Result<Vec<SentCount>, AllocError>
    ensures { IfOk result (λ counts. counts.items ≡ new_counts (map (λ h. h.peer) agent.now.halves)) }
{
    let mut counts = Vec::new(alloc);
    for place in 0..agent.device_count() {
        push_count(&mut counts, agent, place)?;
    }
    Ok(counts)
}

/// Whether a packet is for this endpoint, from its second byte (DSP0236).
fn is_for(eid: u8, packet: &[u8]) -> bool
    ensures { result ≡ is_for eid packet.now }
{
    match packet {
        [_, dest, ..] => *dest == eid,
        _ => false,
    }
}

/// Counts a packet for its device.
fn count_at(sent: &mut SentCount, packet: &[u8])
    ensures { sent.new ≡ count_with packet.now sent.old }
{
    if is_for(sent.device, packet) {
        sent.count = sent.count.saturating_add(1);
    }
}

/// Counts a packet for its device.
pub(crate) fn count_packet(counts: &mut [SentCount], packet: &[u8])
    ensures { counts.new ≡ counts_with counts.old packet.now }
{
    for sent in counts.iter_mut() {
        count_at(sent, packet);
    }
}
