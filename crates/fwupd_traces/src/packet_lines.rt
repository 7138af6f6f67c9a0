//! Lines of a trace of hexadecimal digits.

ghost use Rattle.std.specs.Prelude.{◌≡◌, OnOk};
ghost use Rattle.exch_lane.specs.Steps.{sent_at};
ghost use Rattle.fw_text.specs.Printing.{AppendsText};
ghost use Rattle.fwupd_traces.specs.PacketLines.{device_in, is_to_agent, trace_line, way_of};

use fw_text::{push_number, push_words};
use std::alloc::{AllocError, Global};

/// The node whose process is traced, with its endpoint identifier.
#[derive(Clone, Copy)]
pub enum TracedNode {
    /// The agent.
    Agent(u8),
    /// A device.
    Device(u8),
}

/// The device of a packet that a node sends or receives: that node, if it is a device. If it is the
/// agent, the other of the packet's two ends, by its second and third byte; 0 if it is shorter.
pub fn device_of_packet(node: TracedNode, bytes: &[u8]) -> u8
    ensures { result ≡ device_in node bytes.now }
{
    let agent = match node {
        TracedNode::Device(device) => return device,
        TracedNode::Agent(agent) => agent,
    };
    match bytes {
        [_, dest, source, ..] => { if *source == agent { *dest } else { *source } }
        _ => 0,
    }
}

/// Whether a packet goes to the agent: its third byte, which is its source, is the device.
pub fn is_to_agent(device: u8, bytes: &[u8]) -> bool
    ensures { result ≡ is_to_agent device bytes.now }
{
    match bytes {
        [_, _, source, ..] => *source == device,
        _ => false,
    }
}

/// The direction of a packet.
fn way(device: u8, bytes: &[u8]) -> &'static str
    ensures { result.now ≡ way_of device bytes.now }
{
    if is_to_agent(device, bytes) {
        " to-agent "
    } else {
        " to-device "
    }
}

/// Appends a packet's line: the unit of time in which it was sent, the device of its pair,
/// `to-device` or `to-agent`, and the packet in upper-case digits.
///
/// # Errors
/// `AllocError` if memory is refused; the text's content is unspecified then.
#[tactic(auto, unfolding(crate::specs::PacketLines::trace_line))]
pub fn push_packet_line(
    alloc: Global,
    text: &mut Vec<u8>,
    device: u8,
    unit: u32,
    bytes: &[u8],
) -> Result<(), AllocError>
    ensures { OnOk result (AppendsText text.old.items text.new.items (trace_line device (sent_at unit bytes.now))) }
{
    push_number(alloc, text, "", unit as usize)?;
    push_number(alloc, text, " ", usize::from(device))?;
    push_words(text, way(device, bytes))?;
    push_words(text, &hex::encode_upper(alloc, bytes)?)?;
    push_words(text, "\n")?;
    Ok(())
}
