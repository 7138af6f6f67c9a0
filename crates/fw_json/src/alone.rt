//! The reports of nodes alone as JSON values.

ghost use Rattle.std.specs.Prelude.{◌≡◌, IfOk, OnOk, map, option_map};
ghost use Rattle.json.specs.Tree.{items_tokens, json_tokens};
ghost use Rattle.fw_message.specs.Entries.{entry_of};
ghost use Rattle.fw_json.specs.Alone.{agent_alone_value, device_alone_value, counted_value, node_value, session_value};
ghost use Rattle.fw_json.specs.Values.{ReadsBack, items, line_of};
ghost use Rattle.fw_json.specs.Writing.{AppendsTokens};

use crate::fields::{
    close_array, close_object, line, open_array_field, open_object, push_flag_field, push_key,
    push_number_field, push_optional_word_field, push_word_field,
};
use crate::report::{
    cause_word, push_agent, push_all_running, push_history, push_log, session_word,
};
use fd_core::Bank;
use fw_node::{AgentNode, DeviceNode};
use fw_script::{SentCount, session_of, state_name};
use fw_world::Entry;
use json::Writer;
use std::alloc::{AllocError, Global};
use ua_core::SessionState;

/// Writes a device's node.
fn push_node<B: Bank>(
    alloc: Global,
    writer: &mut Writer,
    node: &DeviceNode<B>,
) -> Result<(), AllocError>
    ensures { OnOk result (AppendsTokens writer.old writer.new (json_tokens (node_value node.now))) }
{
    open_object(writer)?;
    push_number_field(writer, "eid", usize::from(node.eid()))?;
    push_flag_field(writer, "up", !node.is_deaf())?;
    push_word_field(writer, "state", state_name(node.device().state()))?;
    open_array_field(writer, "active")?;
    push_all_running(alloc, writer, node.device())?;
    close_object(writer)?;
    Ok(())
}

/// Writes a device's node and its history.
fn push_device_alone<B: Bank>(
    alloc: Global,
    writer: &mut Writer,
    node: &DeviceNode<B>,
    history: &[Entry<'_>],
) -> Result<(), AllocError>
    ensures { OnOk result (AppendsTokens writer.old writer.new
        (json_tokens (device_alone_value node.now (map entry_of history.now)))) }
{
    open_object(writer)?;
    push_word_field(writer, "format", "fwupd-device/1")?;
    push_key(writer, "device")?;
    push_node(alloc, writer, node)?;
    open_array_field(writer, "history")?;
    push_history(alloc, writer, history)?;
    close_object(writer)?;
    Ok(())
}

/// Returns the report of a device alone as a JSON value on one line: the device's node with its
/// active images, and the history. Without its line feed, the line decodes to that value.
///
/// # Errors
/// `AllocError` if memory is refused.
pub fn device_json<B: Bank>(
    alloc: Global,
    node: &DeviceNode<B>,
    history: &[Entry<'_>],
) -> Result<Vec<u8>, AllocError>
    ensures line { IfOk result (λ text. text.items
        ≡ line_of (device_alone_value node.now (map entry_of history.now))) }
    ensures reads_back { OnOk result (ReadsBack (device_alone_value node.now (map entry_of history.now))) }
{
    let mut writer = Writer::new(Vec::new(alloc));
    push_device_alone(alloc, &mut writer, node, history)?;
    line(writer)
}

/// Writes the session with a device, and the number of packets sent to the device.
fn push_session(
    writer: &mut Writer,
    device: u8,
    session: Option<SessionState>,
    sent: usize,
) -> Result<(), AllocError>
    ensures { OnOk result (AppendsTokens writer.old writer.new (json_tokens (session_value device session sent))) }
{
    open_object(writer)?;
    push_number_field(writer, "eid", usize::from(device))?;
    push_optional_word_field(writer, "session", session_word(session))?;
    push_optional_word_field(writer, "cause", cause_word(session))?;
    push_number_field(writer, "sent", sent)?;
    close_object(writer)?;
    Ok(())
}

/// Writes the sessions with these devices, and ends the array.
#[tactic(auto, using(crate::proofs::Chains::telling))]
fn push_sessions(
    writer: &mut Writer,
    agent: &AgentNode,
    counts: &[SentCount],
) -> Result<(), AllocError>
    ensures { OnOk result (AppendsTokens writer.old writer.new
        (items_tokens (items (counted_value agent.now) counts.now))) }
{
    for sent in counts {
        let session = session_of(agent, sent.device);
        push_session(writer, sent.device, session, sent.count)?;
    }
    close_array(writer)?;
    Ok(())
}

/// Writes the agent: its time, node, sessions, event log and history.
fn push_agent_alone(
    alloc: Global,
    writer: &mut Writer,
    now: u32,
    agent: &AgentNode,
    counts: &[SentCount],
    answer: Option<&[u8]>,
    history: &[Entry<'_>],
) -> Result<(), AllocError>
    ensures { OnOk result (AppendsTokens writer.old writer.new
        (json_tokens (agent_alone_value now agent.now counts.now
        (option_map (λ a. a.now) answer.entry) (map entry_of history.now)))) }
{
    open_object(writer)?;
    push_word_field(writer, "format", "fwupd-agent/1")?;
    push_number_field(writer, "now", now as usize)?;
    push_key(writer, "agent")?;
    push_agent(writer, agent)?;
    open_array_field(writer, "sessions")?;
    push_sessions(writer, agent, counts)?;
    push_key(writer, "log")?;
    push_log(alloc, writer, agent.log().len(), answer)?;
    open_array_field(writer, "history")?;
    push_history(alloc, writer, history)?;
    close_object(writer)?;
    Ok(())
}

/// Returns the report of the agent alone as a JSON value on one line: the time, the agent's node,
/// its sessions, the event log, and the history. Without its line feed, the line decodes to that
/// value.
///
/// # Errors
/// `AllocError` if memory is refused.
pub fn agent_json(
    alloc: Global,
    now: u32,
    agent: &AgentNode,
    counts: &[SentCount],
    answer: Option<&[u8]>,
    history: &[Entry<'_>],
) -> Result<Vec<u8>, AllocError>
    ensures line { IfOk result (λ text. text.items
        ≡ line_of (agent_alone_value now agent.now counts.now
        (option_map (λ a. a.now) answer.entry) (map entry_of history.now))) }
    ensures reads_back { OnOk result (ReadsBack (agent_alone_value now agent.now counts.now
        (option_map (λ a. a.now) answer.entry) (map entry_of history.now))) }
{
    let mut writer = Writer::new(Vec::new(alloc));
    push_agent_alone(alloc, &mut writer, now, agent, counts, answer, history)?;
    line(writer)
}
