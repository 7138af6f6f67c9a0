//! Reads a configuration line by line.

ghost use Rattle.std.specs.Prelude.{◌≡◌, IfErr, IfOk, OnOk, length, map, string_bytes};
ghost use Rattle.std.specs.List.{list_any};
ghost use Rattle.std.specs.Result.{result_map_both};
ghost use Rattle.fw_script.specs.Faults.{AnswersUnlessMemory, ReadsAs};
ghost use Rattle.fw_script.specs.Configs.{after_line, agent_line, draft_with_device, component_line, config_of, descriptor_line, device_line, directive_of as directive_named, devices_of, device_with_component_words, config_of_draft, in_device, is_bare, is_device as has_device, draft_after_directive, may_choose, node_of, empty_draft, package_line, path_of, unit_line, unit_or, uses_eid};
ghost use Rattle.fw_script.specs.Seen.{config_seen, device_of};
ghost use Rattle.fw_script.specs.Whole.{AreWhole};

use crate::config::{Config, DeviceConfig, Numbers, read_numbers, read_unit};
use crate::faults::{ScriptCause, ScriptFault, both};
use crate::lines::{MAX_FIELDS, fields_after, first_line, first_word, is_skipped};
use crate::values::{eid, uuid};
use mctp_ctl::Endpoint;
use mctp_wire::Unit;
use std::alloc::Global;
use std::marker::Model;

/// The largest number of devices.
const MAX_DEVICES: usize = 16;

/// The first word of a line.
#[derive(Clone, Copy, PartialEq, Eq)]
enum Directive {
    Agent,
    Unit,
    Device,
    Descriptor,
    Component,
    Package,
}

/// The directive with this word, if there is one.
#[tactic(auto, unfolding(crate::specs::Configs::directive_of))]
fn directive_of(word: &[u8]) -> Option<Directive>
    ensures { result ≡ directive_named word.now }
{
    if word == b"agent".as_slice() {
        Some(Directive::Agent)
    } else if word == b"unit".as_slice() {
        Some(Directive::Unit)
    } else if word == b"device".as_slice() {
        Some(Directive::Device)
    } else if word == b"descriptor".as_slice() {
        Some(Directive::Descriptor)
    } else if word == b"component".as_slice() {
        Some(Directive::Component)
    } else if word == b"package".as_slice() {
        Some(Directive::Package)
    } else {
        None
    }
}

/// A node's endpoint identifier and UUID.
fn read_node(eid_word: &[u8], uuid_word: &[u8]) -> Result<Endpoint, ScriptCause>
    ensures { result ≡ node_of eid_word.now uuid_word.now }
{
    match both(eid(eid_word), uuid(uuid_word)) {
        Ok((eid, uuid)) => Ok(Endpoint { eid, uuid }),
        Err(cause) => Err(cause),
    }
}

/// The path that a word is.
fn path_text(word: &[u8]) -> Result<&str, ScriptCause>
    ensures { result_map_both (λ p. p.now) (λ e. e) result ≡ path_of word.now }
{
    match str::from_utf8(word) {
        Ok(path) => Ok(path),
        Err(_) => Err(ScriptCause::Number),
    }
}

/// A file's path.
pub(crate) fn read_path(alloc: Global, word: &[u8]) -> Result<String, ScriptCause>
    ensures { AnswersUnlessMemory (λ path. string_bytes path) result (path_of word.now) }
{
    match path_text(word) {
        Ok(path) => match String::from_str(alloc, path) {
            Ok(path) => Ok(path),
            Err(_) => Err(ScriptCause::Memory),
        },
        Err(cause) => Err(cause),
    }
}

/// Whether a device has this identifier.
fn is_device(devices: &[DeviceConfig], eid: u8) -> bool
    ensures { result ≡ has_device (map device_of devices.now) eid }
{
    for device in devices {
        if device.endpoint.eid == eid {
            return true;
        }
    }
    false
}

/// Whether any device has no component.
fn is_any_bare(devices: &[DeviceConfig]) -> bool
    ensures { result ≡ list_any is_bare (map device_of devices.now) }
{
    for device in devices {
        if device.components.is_empty() {
            return true;
        }
    }
    false
}

/// The unit of the unit's line, or the baseline without one (DSP0236, section 8.3).
fn chosen(unit: Option<Unit>) -> Unit
    ensures { result ≡ unit_or unit }
{
    match unit {
        Some(unit) => unit,
        None => Unit::U64,
    }
}

/// The result of the lines read so far.
#[derive(Drop)]
struct Draft {
    agent: Option<Endpoint>,
    unit: Option<Unit>,
    /// The devices before the last.
    done: Vec<DeviceConfig>,
    /// The last device, which the following lines describe.
    last: Option<DeviceConfig>,
    packages: Vec<String>,
}

impl Model for Draft {
    ghost use Rattle.std.specs.Prelude.{map, option_map, string_bytes};
    ghost use Rattle.fw_script.specs.Configs.{DraftOf};
    ghost use Rattle.fw_script.specs.Seen.{device_of};

    ghost Value = { DraftOf };

    ghost view = { λ d. record {
      agent = d.agent;
      unit = d.unit;
      done = map device_of d.done.items;
      last = option_map device_of d.last;
      packages = map (λ p. string_bytes p) d.packages.items;
    } };
}

impl Draft {
    /// Creates the draft before the first line.
    fn new(alloc: Global) -> Draft
        ensures { result ≡ empty_draft }
    {
        Draft {
            agent: None,
            unit: None,
            done: Vec::new(alloc),
            last: None,
            packages: Vec::new(alloc),
        }
    }

    /// Whether a node has this identifier.
    fn has_node(&self, eid: u8) -> bool
        ensures { result ≡ uses_eid self.now eid }
    {
        if let Some(agent) = &self.agent
            && agent.eid == eid
        {
            return true;
        }
        if let Some(last) = &self.last
            && last.endpoint.eid == eid
        {
            return true;
        }
        is_device(self.done.as_slice(), eid)
    }

    /// The number of devices.
    fn device_count(&self) -> usize
        ensures { result ≡ length (devices_of self.now) }
    {
        match &self.last {
            Some(_) => self.done.len() + 1,
            None => self.done.len(),
        }
    }

    /// Applies the agent's line.
    fn set_agent(&mut self, fields: &[&[u8]]) -> Result<(), ScriptCause>
        ensures { result_map_both (λ _. self.new) (λ e. e) result ≡ agent_line self.old (map (λ f. f.now) fields.now) }
    {
        let [eid, uuid] = fields else {
            return Err(ScriptCause::Fields);
        };
        if self.agent.is_some() {
            return Err(ScriptCause::Order);
        }
        match read_node(eid, uuid) {
            Ok(agent) => {
                self.agent = Some(agent);
                Ok(())
            }
            Err(cause) => Err(cause),
        }
    }

    /// Whether the unit's line is allowed here.
    fn may_choose(&self) -> bool
        ensures { result ≡ may_choose self.now }
    {
        self.agent.is_some()
            && self.unit.is_none()
            && self.device_count() == 0
            && self.packages.is_empty()
    }

    /// Applies the unit's line.
    fn set_unit(&mut self, fields: &[&[u8]]) -> Result<(), ScriptCause>
        ensures { result_map_both (λ _. self.new) (λ e. e) result ≡ unit_line self.old (map (λ f. f.now) fields.now) }
    {
        let [bytes] = fields else {
            return Err(ScriptCause::Fields);
        };
        if !self.may_choose() {
            return Err(ScriptCause::Order);
        }
        match read_unit(bytes) {
            Ok(unit) => {
                self.unit = Some(unit);
                Ok(())
            }
            Err(cause) => Err(cause),
        }
    }

    /// Begins a device.
    fn begin(&mut self, alloc: Global, endpoint: Endpoint) -> Result<(), ScriptCause>
        ensures ok { OnOk result (self.new ≡ draft_with_device self.old endpoint) }
        ensures err { IfErr result (λ e. e ≡ ScriptCause.Memory) }
    {
        if let Some(device) = self.last.take() {
            let Ok(()) = self.done.push(device) else {
                return Err(ScriptCause::Memory);
            };
        }
        self.last = Some(DeviceConfig::new(alloc, endpoint));
        Ok(())
    }

    /// Applies a device's line.
    fn add_device(&mut self, alloc: Global, fields: &[&[u8]]) -> Result<(), ScriptCause>
        ensures { AnswersUnlessMemory (λ _. self.new) result (device_line self.old (map (λ f. f.now) fields.now)) }
    {
        let [eid, uuid] = fields else {
            return Err(ScriptCause::Fields);
        };
        if self.agent.is_none() || !self.packages.is_empty() {
            return Err(ScriptCause::Order);
        }
        let endpoint = read_node(eid, uuid)?;
        if self.has_node(endpoint.eid) {
            return Err(ScriptCause::Duplicate);
        }
        if self.device_count() >= MAX_DEVICES {
            return Err(ScriptCause::Limit);
        }
        self.begin(alloc, endpoint)
    }

    /// Applies a descriptor's line.
    fn add_descriptor(&mut self, alloc: Global, fields: &[&[u8]]) -> Result<(), ScriptCause>
        ensures { AnswersUnlessMemory (λ _. self.new) result (descriptor_line self.old (map (λ f. f.now) fields.now)) }
    {
        let [kind, bytes] = fields else {
            return Err(ScriptCause::Fields);
        };
        if !self.packages.is_empty() {
            return Err(ScriptCause::Order);
        }
        match &mut self.last {
            Some(device) => device.describe(alloc, kind, bytes),
            None => Err(ScriptCause::Order),
        }
    }

    /// Adds a component to the last device.
    fn extend_last(
        &mut self,
        alloc: Global,
        numbers: Result<Numbers, ScriptCause>,
        label: &[u8],
        image: &[u8],
    ) -> Result<(), ScriptCause>
        ensures { AnswersUnlessMemory (λ _. self.new) result
            (in_device self.old (device_with_component_words numbers label.now image.now)) }
    {
        if !self.packages.is_empty() {
            return Err(ScriptCause::Order);
        }
        match &mut self.last {
            Some(device) => device.extend(alloc, numbers, label, image),
            None => Err(ScriptCause::Order),
        }
    }

    /// Applies a component's line.
    fn add_component(&mut self, alloc: Global, fields: &[&[u8]]) -> Result<(), ScriptCause>
        ensures { AnswersUnlessMemory (λ _. self.new) result (component_line self.old (map (λ f. f.now) fields.now)) }
    {
        let [class, ident, index, stamp, label, image] = fields else {
            return Err(ScriptCause::Fields);
        };
        let numbers = read_numbers(class, ident, index, stamp);
        self.extend_last(alloc, numbers, label, image)
    }

    /// Applies a package's line.
    fn add_package(&mut self, alloc: Global, fields: &[&[u8]]) -> Result<(), ScriptCause>
        ensures { AnswersUnlessMemory (λ _. self.new) result (package_line self.old (map (λ f. f.now) fields.now)) }
    {
        let [path] = fields else {
            return Err(ScriptCause::Fields);
        };
        if self.agent.is_none() {
            return Err(ScriptCause::Order);
        }
        let path = read_path(alloc, path)?;
        let Ok(()) = self.packages.push(path) else {
            return Err(ScriptCause::Memory);
        };
        Ok(())
    }

    /// Applies a directive and its fields.
    fn say(
        &mut self,
        alloc: Global,
        directive: Directive,
        fields: &[&[u8]],
    ) -> Result<(), ScriptCause>
        ensures { AnswersUnlessMemory (λ _. self.new) result
            (draft_after_directive self.old directive (map (λ f. f.now) fields.now)) }
    {
        match directive {
            Directive::Agent => self.set_agent(fields),
            Directive::Unit => self.set_unit(fields),
            Directive::Device => self.add_device(alloc, fields),
            Directive::Descriptor => self.add_descriptor(alloc, fields),
            Directive::Component => self.add_component(alloc, fields),
            Directive::Package => self.add_package(alloc, fields),
        }
    }

    /// Applies a line.
    #[tactic(auto, unfolding(crate::specs::Configs::after_line))]
    fn take_line(&mut self, alloc: Global, line: &[u8]) -> Result<(), ScriptCause>
        ensures { AnswersUnlessMemory (λ _. self.new) result (after_line self.old line.now) }
    {
        if is_skipped(line) {
            return Ok(());
        }
        let (name, rest) = first_word(line);
        let Some(directive) = directive_of(name) else {
            return Err(ScriptCause::Directive);
        };
        let Some(fields) = fields_after::<MAX_FIELDS>(rest) else {
            return Err(ScriptCause::Fields);
        };
        self.say(alloc, directive, fields.as_slice())
    }

    /// Returns the configuration after the last line.
    #[tactic(auto, unfolding(crate::specs::Configs::config_of_draft))]
    fn finish(self) -> Result<Config, ScriptCause>
        ensures { AnswersUnlessMemory config_seen result (config_of_draft self) }
    {
        let Draft {
            agent,
            unit,
            done,
            last,
            packages,
        } = self;
        let Some(agent) = agent else {
            return Err(ScriptCause::Missing);
        };
        let mut devices = done;
        if let Some(last) = last {
            let Ok(()) = devices.push(last) else {
                return Err(ScriptCause::Memory);
            };
        }
        if devices.is_empty() || is_any_bare(devices.as_slice()) {
            return Err(ScriptCause::Missing);
        }
        Ok(Config {
            agent,
            unit: chosen(unit),
            devices,
            packages,
        })
    }
}

/// Reads a configuration.
///
/// Work is linear in the text.
///
/// # Errors
/// The first invalid line, with its first fault in the order of `ScriptCause`; `Missing`, at the
/// line after the last, if there is no agent, no device, or a device without a component; `Memory`
/// if memory is refused.
#[tactic(auto, using(crate::proofs::Whole::config_whole))]
pub fn read_config(alloc: Global, text: &[u8]) -> Result<Config, ScriptFault>
    ensures reads { ReadsAs config_seen result (config_of text.now) }
    ensures whole { IfOk result (λ c. AreWhole c.agent.eid (map device_of c.devices.items)) }
{
    match read_lines(alloc, text) {
        Ok(config) => Ok(config),
        Err(fault) => Err(fault),
    }
}

/// Reads the lines of a configuration, one after the other.
fn read_lines(alloc: Global, text: &[u8]) -> Result<Config, ScriptFault>
    ensures { ReadsAs config_seen result (config_of text.now) }
{
    let mut draft = Draft::new(alloc);
    let mut rest = text;
    let mut line = 0;
    while !rest.is_empty() {
        let (first, after) = first_line(rest);
        line += 1;
        match draft.take_line(alloc, first) {
            Ok(()) => {}
            Err(cause) => return Err(ScriptFault { line, cause }),
        }
        rest = after;
    }
    match draft.finish() {
        Ok(config) => Ok(config),
        Err(cause) => Err(ScriptFault {
            line: line + 1,
            cause,
        }),
    }
}
