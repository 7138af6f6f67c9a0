//! Schedules: the steps of a world, one line each.

ghost use Rattle.std.specs.Prelude.{◌≡◌, ◌≢◌, ◌≤◌, ◌<◌, ◌+◌, ◌++◌, ◌∷◌, [], Err, IfErr, IfOk, Ok, OnOk, Some, length, map, option_map};
ghost use Rattle.std.specs.List.{repeat};
ghost use Rattle.fw_script.specs.Faults.{AnswersUnlessMemory, ReadsAs};
ghost use Rattle.fw_script.specs.ScheduleLines.{all_steps, line_steps, steps_if_any};
ghost use Rattle.fw_script.specs.Schedules.{delivery as delivery_of, directive_of as directive_named, eids_from, has_twice as stands_twice, only_eid_of, place_of as place_in, request_step as step_of_request, script_of, step_of, steps_named, steps_of, steps_of_directive, ticks_of, verdict_of, with_eid as with_eid_of, with_line};
ghost use Rattle.fw_script.specs.Lines.{fields_in, words_from};
ghost use Rattle.fw_script.specs.Seen.{seen_eids};
ghost use Rattle.fw_steps.specs.Worlds.{full_tick};

use crate::faults::{ScriptCause, ScriptFault, both};
use crate::lines::{MAX_FIELDS, fields_after, first_line, first_word, is_skipped};
use crate::schedule_lines::{ScheduleLine, steps_of_all};
use crate::values::{bytes, eid, number_in};
use fd_core::Verdict;
use fw_world::{LogRequest, Missed, Step};
use std::alloc::Global;

/// The most bytes of an event log request.
const MAX_REQUEST: usize = 64;

/// The most ticks of a line.
const MAX_TICKS: u64 = 1000;

/// The most nodes that miss a tick.
const MAX_MISSED: usize = 17;

/// The first word of a line.
#[derive(Clone, Copy, PartialEq, Eq)]
pub enum Directive {
    /// `tick`: ticks that all nodes count.
    Tick,
    /// `miss`: a tick that nodes miss.
    Miss,
    /// `deliver`: a packet is delivered.
    Deliver,
    /// `start`: an update of a device starts.
    Start,
    /// `cancel`: the update of a device is cancelled.
    Cancel,
    /// `activate`: a device activates its images.
    Activate,
    /// `verdict`: a verdict on an image.
    Verdict,
    /// `restart`: a node restarts.
    Restart,
    /// `sel`: a request to the event log.
    Sel,
}

/// Returns the directive with this word, if there is one.
#[tactic(auto, unfolding(crate::specs::Schedules::directive_of))]
pub fn directive_of(word: &[u8]) -> Option<Directive>
    ensures { result ≡ directive_named word.now }
{
    if word == b"tick".as_slice() {
        Some(Directive::Tick)
    } else if word == b"miss".as_slice() {
        Some(Directive::Miss)
    } else if word == b"deliver".as_slice() {
        Some(Directive::Deliver)
    } else if word == b"start".as_slice() {
        Some(Directive::Start)
    } else if word == b"cancel".as_slice() {
        Some(Directive::Cancel)
    } else if word == b"activate".as_slice() {
        Some(Directive::Activate)
    } else if word == b"verdict".as_slice() {
        Some(Directive::Verdict)
    } else if word == b"restart".as_slice() {
        Some(Directive::Restart)
    } else if word == b"sel".as_slice() {
        Some(Directive::Sel)
    } else {
        None
    }
}

/// Parses the word of a verdict.
#[tactic(auto, unfolding(crate::specs::Schedules::verdict_of))]
pub fn read_verdict(word: &[u8]) -> Result<Verdict, ScriptCause>
    ensures { result ≡ verdict_of word.now }
{
    if word == b"verify-ok".as_slice() {
        Ok(Verdict::VerifyOk)
    } else if word == b"verify-fail".as_slice() {
        Ok(Verdict::VerifyFail)
    } else if word == b"apply-ok".as_slice() {
        Ok(Verdict::ApplyOk)
    } else if word == b"apply-fail".as_slice() {
        Ok(Verdict::ApplyFail)
    } else {
        Err(ScriptCause::Number)
    }
}

/// The number of a packet or a package.
fn place(word: &[u8]) -> Result<usize, ScriptCause>
    ensures { result ≡ place_in word.now }
{
    match number_in(word, 0, u64::MAX) {
        Ok(number) => Ok(number as usize),
        Err(cause) => Err(cause),
    }
}

/// Parses the fields of a line of ticks: their number, 1 if it is left out.
pub fn read_ticks(fields: &[&[u8]]) -> Result<u64, ScriptCause>
    ensures { result ≡ ticks_of (map (λ f. f.now) fields.now) }
{
    match fields {
        [] => Ok(1),
        [count] => number_in(count, 1, MAX_TICKS),
        _ => Err(ScriptCause::Fields),
    }
}

/// The step that delivers packet `number` of a pair to a node.
fn delivery(pair: &[u8], number: &[u8], node: &[u8]) -> Result<Step, ScriptCause>
    ensures { result ≡ delivery_of pair.now number.now node.now }
{
    match both(eid(pair), both(place(number), eid(node))) {
        Ok((pair, (number, node))) => Ok(Step::Deliver(pair, number, node)),
        Err(cause) => Err(cause),
    }
}

/// The step that delivers a packet.
fn deliver(fields: &[&[u8]]) -> Result<Step, ScriptCause>
    ensures { result ≡ step_of Directive.Deliver (map (λ f. f.now) fields.now) }
{
    match fields {
        [pair, number, node] => delivery(pair, number, node),
        _ => Err(ScriptCause::Fields),
    }
}

/// The step that starts an update.
fn start(fields: &[&[u8]]) -> Result<Step, ScriptCause>
    ensures { result ≡ step_of Directive.Start (map (λ f. f.now) fields.now) }
{
    let [device, number] = fields else {
        return Err(ScriptCause::Fields);
    };
    match both(eid(device), place(number)) {
        Ok((device, number)) => Ok(Step::Start(device, number)),
        Err(cause) => Err(cause),
    }
}

/// The step of a verdict.
fn verdict_step(fields: &[&[u8]]) -> Result<Step, ScriptCause>
    ensures { result ≡ step_of Directive.Verdict (map (λ f. f.now) fields.now) }
{
    let [device, word] = fields else {
        return Err(ScriptCause::Fields);
    };
    match both(eid(device), read_verdict(word)) {
        Ok((device, verdict)) => Ok(Step::Verdict(device, verdict)),
        Err(cause) => Err(cause),
    }
}

/// The line's only field, an endpoint identifier.
fn only_eid(fields: &[&[u8]]) -> Result<u8, ScriptCause>
    ensures { result ≡ only_eid_of (map (λ f. f.now) fields.now) }
{
    match fields {
        [node] => eid(node),
        _ => Err(ScriptCause::Fields),
    }
}

/// Parses `word` as an endpoint identifier and appends it.
fn with_eid(eids: Result<Missed, ScriptCause>, word: &[u8]) -> Result<Missed, ScriptCause>
    requires { IfOk eids (λ e. length e.items < 17) }
    ensures value { seen_eids result ≡ with_eid_of (seen_eids eids) word.now }
    ensures more { IfOk result (λ new. IfOk eids (λ old. length new.items ≡ length old.items + 1)) }
{
    match both(eids, eid(word)) {
        Ok((mut eids, eid)) => {
            eids.push(eid);
            Ok(eids)
        }
        Err(cause) => Err(cause),
    }
}

/// Parses words as endpoint identifiers, at most 17.
fn eids(words: &[&[u8]]) -> Result<Missed, ScriptCause>
    requires { length words.now ≤ 17 }
    ensures { seen_eids result ≡ eids_from (Ok []) (map (λ f. f.now) words.now) }
{
    let mut eids = Ok(Missed::new());
    for word in words {
        eids = with_eid(eids, word);
    }
    eids
}

/// Whether an identifier occurs twice.
fn has_twice(eids: &[u8]) -> bool
    ensures { result ≡ stands_twice eids.now }
{
    let mut left = eids;
    while let [first, rest @ ..] = left {
        if rest.contains(first) {
            return true;
        }
        left = rest;
    }
    false
}

/// The tick that the listed nodes miss, 1 to 17 of them.
fn miss(fields: &[&[u8]]) -> Result<Step, ScriptCause>
    ensures { result ≡ step_of Directive.Miss (map (λ f. f.now) fields.now) }
{
    if fields.is_empty() || fields.len() > MAX_MISSED {
        return Err(ScriptCause::Fields);
    }
    match eids(fields) {
        Ok(missed) => {
            if has_twice(missed.as_slice()) {
                return Err(ScriptCause::Duplicate);
            }
            Ok(Step::Tick(missed))
        }
        Err(cause) => Err(cause),
    }
}

/// The step of an event log request with these bytes.
fn request_step(bytes: &[u8]) -> Result<Step, ScriptCause>
    ensures { result ≡ step_of_request (Ok bytes.now) }
{
    if bytes.len() > MAX_REQUEST {
        return Err(ScriptCause::Limit);
    }
    let mut request = LogRequest::new();
    let _ = request.try_extend_from_slice(bytes);
    Ok(Step::Sel(request))
}

/// The step of an event log request.
fn sel(alloc: Global, fields: &[&[u8]]) -> Result<Step, ScriptCause>
    ensures { AnswersUnlessMemory (λ s. s) result (step_of Directive.Sel (map (λ f. f.now) fields.now)) }
{
    let [digits] = fields else {
        return Err(ScriptCause::Fields);
    };
    match bytes(alloc, digits) {
        Ok(bytes) => request_step(&bytes),
        Err(cause) => Err(cause),
    }
}

/// Parses the fields of a line that is a single step, of a directive other than `Tick`.
pub fn read_step(alloc: Global, directive: Directive, fields: &[&[u8]]) -> Result<Step, ScriptCause>
    requires { directive ≢ Directive.Tick }
    ensures { AnswersUnlessMemory (λ s. s) result (step_of directive (map (λ f. f.now) fields.now)) }
{
    match directive {
        Directive::Tick => Err(ScriptCause::Fields),
        Directive::Deliver => deliver(fields),
        Directive::Start => start(fields),
        Directive::Cancel => match only_eid(fields) {
            Ok(eid) => Ok(Step::Cancel(eid)),
            Err(cause) => Err(cause),
        },
        Directive::Activate => match only_eid(fields) {
            Ok(eid) => Ok(Step::Activate(eid)),
            Err(cause) => Err(cause),
        },
        Directive::Verdict => verdict_step(fields),
        Directive::Restart => match only_eid(fields) {
            Ok(eid) => Ok(Step::Restart(eid)),
            Err(cause) => Err(cause),
        },
        Directive::Miss => miss(fields),
        Directive::Sel => sel(alloc, fields),
    }
}

/// The content of a line, by its directive and fields.
fn said(alloc: Global, directive: Directive, fields: &[&[u8]]) -> Result<ScheduleLine, ScriptCause>
    ensures { AnswersUnlessMemory line_steps result (steps_of_directive directive (map (λ f. f.now) fields.now)) }
{
    if let Directive::Tick = directive {
        return match read_ticks(fields) {
            Ok(count) => Ok(ScheduleLine::Ticks(count)),
            Err(cause) => Err(cause),
        };
    }
    match read_step(alloc, directive, fields) {
        Ok(step) => Ok(ScheduleLine::Step(step)),
        Err(cause) => Err(cause),
    }
}

/// The tick that the nodes listed after the first word miss.
fn missed(rest: Option<&[u8]>) -> Result<ScheduleLine, ScriptCause>
    ensures { AnswersUnlessMemory line_steps result (steps_named (Some Directive.Miss)
        (fields_in 17 (words_from (option_map (λ r. r.now) rest.entry)))) }
{
    let Some(fields) = fields_after::<MAX_MISSED>(rest) else {
        return Err(ScriptCause::Fields);
    };
    match miss(fields.as_slice()) {
        Ok(step) => Ok(ScheduleLine::Step(step)),
        Err(cause) => Err(cause),
    }
}

/// The content of a line, or none if the line is skipped.
#[tactic(auto, unfolding(crate::specs::Schedules::steps_of))]
fn line_of(alloc: Global, line: &[u8]) -> Result<Option<ScheduleLine>, ScriptCause>
    ensures { AnswersUnlessMemory steps_if_any result (steps_of line.now) }
{
    if is_skipped(line) {
        return Ok(None);
    }
    let (name, rest) = first_word(line);
    let Some(directive) = directive_of(name) else {
        return Err(ScriptCause::Directive);
    };
    let line = if let Directive::Miss = directive {
        missed(rest)
    } else {
        let Some(fields) = fields_after::<MAX_FIELDS>(rest) else {
            return Err(ScriptCause::Fields);
        };
        said(alloc, directive, fields.as_slice())
    };
    match line {
        Ok(line) => Ok(Some(line)),
        Err(cause) => Err(cause),
    }
}

/// Appends the content of a line, if there is some.
///
/// # Errors
/// `Memory` if memory is refused.
#[tactic(auto, using(crate::proofs::AllSteps::all_more, crate::proofs::AllSteps::none_more))]
fn push_line(lines: &mut Vec<ScheduleLine>, line: Option<ScheduleLine>) -> Result<(), ScriptCause>
    ensures ok { OnOk result (all_steps lines.new.items ≡ all_steps lines.old.items ++ steps_if_any line) }
    ensures err { IfErr result (λ e. e ≡ ScriptCause.Memory) }
{
    let Some(line) = line else {
        return Ok(());
    };
    match lines.push(line) {
        Ok(()) => Ok(()),
        Err(_) => Err(ScriptCause::Memory),
    }
}

/// Reads a line and appends its content.
fn read_line(alloc: Global, text: &[u8], lines: &mut Vec<ScheduleLine>) -> Result<(), ScriptCause>
    ensures { AnswersUnlessMemory (λ _. all_steps lines.new.items) result
        (with_line (all_steps lines.old.items) (steps_of text.now)) }
{
    match line_of(alloc, text) {
        Ok(line) => push_line(lines, line),
        Err(cause) => Err(cause),
    }
}

/// Reads a schedule line by line: `tick N` is kept as a count. `miss EID ..` is a tick that the
/// listed nodes miss.
///
/// Work and memory are linear in the text, whatever the numbers of ticks.
///
/// # Errors
/// The first invalid line, with its first fault in the order of `ScriptCause`; `Memory` if memory
/// is refused.
#[tactic(auto, using(crate::proofs::Steps::before_nothing, crate::proofs::Steps::steps_read, crate::proofs::Steps::fault_read))]
pub fn read_lines(alloc: Global, text: &[u8]) -> Result<Vec<ScheduleLine>, ScriptFault>
    ensures { ReadsAs (λ lines. all_steps lines.items) result (script_of text.now) }
{
    let mut lines = Vec::new(alloc);
    let mut rest = text;
    let mut line = 0;
    while !rest.is_empty() {
        let (first, after) = first_line(rest);
        line += 1;
        match read_line(alloc, first, &mut lines) {
            Ok(()) => {}
            Err(cause) => return Err(ScriptFault { line, cause }),
        }
        rest = after;
    }
    Ok(lines)
}

/// Reads a schedule: its steps in order; `tick N` is N steps, and `miss EID ..` is a tick that the
/// listed nodes miss.
///
/// Work is linear in the text and its steps.
///
/// # Errors
/// The first invalid line, with its first fault in the order of `ScriptCause`; `Memory` if memory
/// is refused.
pub fn read_schedule(alloc: Global, text: &[u8]) -> Result<Vec<Step>, ScriptFault>
    ensures { ReadsAs (λ steps. steps.items) result (script_of text.now) }
{
    let lines = read_lines(alloc, text)?;
    match steps_of_all(alloc, lines) {
        Ok(steps) => Ok(steps),
        Err(_) => Err(ScriptFault {
            line: 0,
            cause: ScriptCause::Memory,
        }),
    }
}
