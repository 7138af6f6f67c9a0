//! Reads a line to a device or to the agent.

ghost use Rattle.std.specs.Prelude.{◌≡◌, ◌≢◌, [], IfSome, map, option_map};
ghost use Rattle.std.specs.Char.{is_ascii_hexdigit};
ghost use Rattle.std.specs.List.{list_all};
ghost use Rattle.fw_script.specs.Faults.{AnswersUnlessMemory};
ghost use Rattle.fw_serve.specs.Lines.{agent_fields_line, agent_line_of, agent_line_seen, agent_word_of, call_line, device_fields_line, device_line_of, device_line_seen, device_word_of, packet_of_line, verdict_line_of};

use fd_core::Verdict;
use fw_script::{
    Directive, MAX_FIELDS, ScriptCause, directive_of, fields_after, first_word, is_skipped,
    read_step, read_ticks, read_verdict,
};
use fw_world::Step;
use hex::FromHexError;
use std::alloc::Global;

/// The first word of a line to a device.
#[derive(Clone, Copy, PartialEq, Eq)]
enum DeviceWord {
    Tick,
    Verdict,
    Restart,
    Report,
}

/// The first word of a line to the agent.
#[derive(Clone, Copy, PartialEq, Eq)]
enum AgentWord {
    Tick,
    Start,
    Cancel,
    Activate,
    Sel,
    Restart,
    Report,
}

/// A line to a device.
#[derive(Drop)]
pub enum DeviceLine {
    /// A packet arrives: its bytes.
    Packet(Vec<u8>),
    /// A number of ticks.
    Ticks(u64),
    /// A verdict on the image that the device has written.
    Verdict(Verdict),
    /// The device restarts.
    Restart,
    /// The report of the device is asked for.
    Report,
}

/// A line to the agent.
#[derive(Drop)]
pub enum AgentLine {
    /// A packet arrives: its bytes.
    Packet(Vec<u8>),
    /// A number of ticks.
    Ticks(u64),
    /// A call of the operator: `Start`, `Cancel`, `Activate` or `Sel`.
    Call(Step),
    /// The agent restarts.
    Restart,
    /// The report of the agent is asked for.
    Report,
}

/// The word of a line to a device, if this is one.
fn device_word(name: &[u8]) -> Option<DeviceWord>
    ensures { result ≡ device_word_of name.now }
{
    match directive_of(name) {
        Some(Directive::Tick) => return Some(DeviceWord::Tick),
        Some(Directive::Verdict) => return Some(DeviceWord::Verdict),
        Some(Directive::Restart) => return Some(DeviceWord::Restart),
        _ => {}
    }
    if name == b"report".as_slice() {
        Some(DeviceWord::Report)
    } else {
        None
    }
}

/// The word of a line to the agent, if this is one.
fn agent_word(name: &[u8]) -> Option<AgentWord>
    ensures { result ≡ agent_word_of name.now }
{
    match directive_of(name) {
        Some(Directive::Tick) => return Some(AgentWord::Tick),
        Some(Directive::Start) => return Some(AgentWord::Start),
        Some(Directive::Cancel) => return Some(AgentWord::Cancel),
        Some(Directive::Activate) => return Some(AgentWord::Activate),
        Some(Directive::Sel) => return Some(AgentWord::Sel),
        Some(Directive::Restart) => return Some(AgentWord::Restart),
        _ => {}
    }
    if name == b"report".as_slice() {
        Some(AgentWord::Report)
    } else {
        None
    }
}

/// Whether a line is hexadecimal digits only.
fn is_digits(line: &[u8]) -> bool
    ensures { result ≡ list_all is_ascii_hexdigit line.now }
{
    line.iter().all(|byte| byte.is_ascii_hexdigit())
}

/// Decodes a line of digits.
#[tactic(auto, unfolding(crate::specs::Lines::packet_of_line))]
fn packet(alloc: Global, line: &[u8]) -> Result<Vec<u8>, ScriptCause>
    ensures { AnswersUnlessMemory (λ v. v.items) result (packet_of_line line.now) }
{
    if !is_digits(line) {
        return Err(ScriptCause::Directive);
    }
    match hex::decode(alloc, line) {
        Ok(bytes) => Ok(bytes),
        Err(FromHexError::OutOfMemory) => Err(ScriptCause::Memory),
        Err(_) => Err(ScriptCause::Hex),
    }
}

/// Parses the fields of a verdict: its word.
fn verdict(fields: &[&[u8]]) -> Result<Verdict, ScriptCause>
    ensures { result ≡ verdict_line_of (map (λ f. f.now) fields.now) }
{
    match fields {
        [word] => read_verdict(word),
        _ => Err(ScriptCause::Fields),
    }
}

/// Parses the fields of a line to a device.
fn device_fields(word: DeviceWord, fields: &[&[u8]]) -> Result<DeviceLine, ScriptCause>
    ensures { AnswersUnlessMemory device_line_seen result
        (device_fields_line word (map (λ f. f.now) fields.now)) }
{
    match word {
        DeviceWord::Tick => match read_ticks(fields) {
            Ok(count) => Ok(DeviceLine::Ticks(count)),
            Err(cause) => Err(cause),
        },
        DeviceWord::Verdict => match verdict(fields) {
            Ok(verdict) => Ok(DeviceLine::Verdict(verdict)),
            Err(cause) => Err(cause),
        },
        DeviceWord::Restart => match fields {
            [] => Ok(DeviceLine::Restart),
            _ => Err(ScriptCause::Fields),
        },
        DeviceWord::Report => match fields {
            [] => Ok(DeviceLine::Report),
            _ => Err(ScriptCause::Fields),
        },
    }
}

/// Reads a line to a device. `None` if the line is skipped.
///
/// # Errors
/// The first of the line's faults in the order of `ScriptCause`; `Memory` if memory is refused.
#[tactic(auto, unfolding(crate::specs::Lines::device_line_of))]
pub fn read_device_line(alloc: Global, line: &[u8]) -> Result<Option<DeviceLine>, ScriptCause>
    ensures { AnswersUnlessMemory (option_map device_line_seen) result (device_line_of line.now) }
{
    if is_skipped(line) {
        return Ok(None);
    }
    let (name, rest) = first_word(line);
    let Some(word) = device_word(name) else {
        return match packet(alloc, line) {
            Ok(bytes) => Ok(Some(DeviceLine::Packet(bytes))),
            Err(cause) => Err(cause),
        };
    };
    let Some(fields) = fields_after::<MAX_FIELDS>(rest) else {
        return Err(ScriptCause::Fields);
    };
    match device_fields(word, fields.as_slice()) {
        Ok(line) => Ok(Some(line)),
        Err(cause) => Err(cause),
    }
}

/// Parses the fields of a call of the operator.
fn call(alloc: Global, directive: Directive, fields: &[&[u8]]) -> Result<AgentLine, ScriptCause>
    requires { directive ≢ Directive.Tick }
    ensures { AnswersUnlessMemory agent_line_seen result (call_line directive (map (λ f. f.now) fields.now)) }
{
    match read_step(alloc, directive, fields) {
        Ok(step) => Ok(AgentLine::Call(step)),
        Err(cause) => Err(cause),
    }
}

/// Parses the fields of a line to the agent.
fn agent_fields(alloc: Global, word: AgentWord, fields: &[&[u8]]) -> Result<AgentLine, ScriptCause>
    ensures { AnswersUnlessMemory agent_line_seen result (agent_fields_line word (map (λ f. f.now) fields.now)) }
{
    match word {
        AgentWord::Tick => match read_ticks(fields) {
            Ok(count) => Ok(AgentLine::Ticks(count)),
            Err(cause) => Err(cause),
        },
        AgentWord::Start => call(alloc, Directive::Start, fields),
        AgentWord::Cancel => call(alloc, Directive::Cancel, fields),
        AgentWord::Activate => call(alloc, Directive::Activate, fields),
        AgentWord::Sel => call(alloc, Directive::Sel, fields),
        AgentWord::Restart => match fields {
            [] => Ok(AgentLine::Restart),
            _ => Err(ScriptCause::Fields),
        },
        AgentWord::Report => match fields {
            [] => Ok(AgentLine::Report),
            _ => Err(ScriptCause::Fields),
        },
    }
}

/// Reads a line to the agent. `None` if the line is skipped.
///
/// # Errors
/// The first of the line's faults in the order of `ScriptCause`; `Memory` if memory is refused.
#[tactic(auto, unfolding(crate::specs::Lines::agent_line_of))]
pub fn read_agent_line(alloc: Global, line: &[u8]) -> Result<Option<AgentLine>, ScriptCause>
    ensures { AnswersUnlessMemory (option_map agent_line_seen) result (agent_line_of line.now) }
{
    if is_skipped(line) {
        return Ok(None);
    }
    let (name, rest) = first_word(line);
    let Some(word) = agent_word(name) else {
        return match packet(alloc, line) {
            Ok(bytes) => Ok(Some(AgentLine::Packet(bytes))),
            Err(cause) => Err(cause),
        };
    };
    let Some(fields) = fields_after::<MAX_FIELDS>(rest) else {
        return Err(ScriptCause::Fields);
    };
    match agent_fields(alloc, word, fields.as_slice()) {
        Ok(line) => Ok(Some(line)),
        Err(cause) => Err(cause),
    }
}
