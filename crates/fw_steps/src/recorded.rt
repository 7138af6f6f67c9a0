//! The record that the agent makes for a packet.

ghost use Rattle.std.specs.Prelude.{[], ◌≡◌, ◌≤◌, ◌+◌, ◌++◌, IfSome, None, map, option_to_list};
ghost use Rattle.std.specs.Vec.{vec_capacity, vec_len};
ghost use Rattle.fw_message.specs.Entries.{entry_of};
ghost use Rattle.fw_message.specs.Headline.{EntryOf};
ghost use Rattle.fw_message.specs.Worlds.{noted_of};
ghost use Rattle.fw_node.specs.Agents.{agent_on_packet, any_packet, half_for};
ghost use Rattle.fw_steps.specs.Worlds.{record_count_of, record_after, recorded_from, sender_of};

use fw_message::{Entry, HistoryEvent};
use fw_node::{AgentNode, Outbox};
use fw_package::Package;
use mctp_wire::Unit;
use ua_core::Recorded;

/// The agent handles the bytes of a packet. The component that it records is noted. There must be
/// room for that entry.
#[tactic(auto, using(crate::proofs::Recording::noted_behind))]
pub fn deliver_and_record<'p>(
    agent: &mut AgentNode,
    packages: &'p [Package<'p>],
    bytes: &[u8],
    now: u32,
    outbox: &mut Outbox,
    history: &mut Vec<Entry<'_>>,
)
    requires outbox { outbox.old ≡ [] }
    requires room { vec_len history.old + 1 ≤ vec_capacity history.old }
    ensures after { agent.new ≡ (agent_on_packet packages.now agent.old bytes.now now).agent }
    ensures sent { outbox.new ≡ (agent_on_packet packages.now agent.old bytes.now now).sent }
    ensures history { map entry_of history.new.items
        ≡ map entry_of history.old.items
        ++ recorded_from agent.old agent.new (sender_of (any_packet bytes.now)) }
{
    let sender = sender_of(bytes);
    let made = records_with(agent, sender);
    agent.on_packet(packages, bytes, now, outbox);
    let recorded = recorded(agent, sender, made);
    note_recorded(history, sender, recorded);
}

/// The sender of a packet.
fn sender_of(bytes: &[u8]) -> Option<u8>
    ensures { result ≡ sender_of (any_packet bytes.now) }
{
    match mctp_wire::decode(Unit::U128, bytes) {
        Ok(packet) => Some(packet.head.source),
        Err(_) => None,
    }
}

/// Returns the number of records of the session with a device.
fn records_with(agent: &AgentNode, device: Option<u8>) -> usize
    ensures { IfSome device (λ d. result ≡ record_count_of (half_for agent.now d)) }
{
    let Some(device) = device else {
        return 0;
    };
    match agent.session(device) {
        Some(session) => session.records().len(),
        None => 0,
    }
}

/// Returns the record after the first `made` of the session with a device.
fn recorded(agent: &AgentNode, device: Option<u8>, made: usize) -> Option<Recorded>
    ensures { IfSome device (λ d. result ≡ record_after made (half_for agent.now d)) }
{
    let session = agent.session(device?)?;
    session.records().get(made).copied()
}

/// Notes that the agent recorded a component of a device, if it did. There must be room for the
/// entry.
fn note_recorded(history: &mut Vec<Entry<'_>>, device: Option<u8>, recorded: Option<Recorded>)
    requires { vec_len history.old + 1 ≤ vec_capacity history.old }
    ensures some { IfSome device (λ d. map entry_of history.new.items
        ≡ map entry_of history.old.items
        ++ map (λ r. noted_of d (EntryOf.Recording r)) (option_to_list recorded)) }
    ensures none { device ≡ None → map entry_of history.new.items ≡ map entry_of history.old.items }
{
    let (Some(device), Some(recorded)) = (device, recorded) else {
        return;
    };
    let _ = history.push(Entry {
        device,
        event: HistoryEvent::Recorded(recorded),
    });
}
