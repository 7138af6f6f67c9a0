//! Reads a package description line by line.

ghost use Rattle.std.specs.Prelude.{◌≡◌, IfErr, OnOk, length, map, nat_lt};
ghost use Rattle.std.specs.List.{list_all};
ghost use Rattle.fw_script.specs.Faults.{AnswersUnlessMemory, ReadsAs};
ghost use Rattle.fw_script.specs.PackageSpecs.{after_spec_line, spec_draft_with_record, choices_of, component_line, descriptor_line, spec_draft_with_component, has_begun as has_said, is_past as is_past_of, spec_draft_after_directive, empty_spec_draft, package_spec_of, past_line as past_line_of, record_line, record_read, records_of, release_line, spec_directive_of, spec_finished, spec_numbers_of, spec_record_of, spec_seen, record_with_descriptor, version_line};

use crate::config::read_key;
use crate::faults::{ScriptCause, ScriptFault, both};
use crate::lines::{first_line, first_word, is_skipped};
use crate::package_spec::{PackageSpec, SpecComponent, SpecDescriptor, SpecNumbers, SpecRecord};
use crate::release_times::release;
use crate::spec_fields::{all_fields, package_text, text_and_path, text_and_uses};
use crate::values::{kind, number_u16, number_u32, with_bytes};
use std::alloc::Global;
use std::marker::Model;

/// The largest number of records.
const MAX_RECORDS: usize = 255;

/// The largest number of descriptors of a record.
const MAX_DESCRIPTORS: usize = 255;

/// The first word of a line.
#[derive(Clone, Copy, PartialEq, Eq)]
enum Directive {
    Version,
    Release,
    Record,
    Descriptor,
    Component,
}

/// The directive with this word, if there is one.
#[tactic(auto, unfolding(crate::specs::PackageSpecs::spec_directive_of))]
fn directive_of(word: &[u8]) -> Option<Directive>
    ensures { result ≡ spec_directive_of word.now }
{
    if word == b"version".as_slice() {
        Some(Directive::Version)
    } else if word == b"release".as_slice() {
        Some(Directive::Release)
    } else if word == b"record".as_slice() {
        Some(Directive::Record)
    } else if word == b"descriptor".as_slice() {
        Some(Directive::Descriptor)
    } else if word == b"component".as_slice() {
        Some(Directive::Component)
    } else {
        None
    }
}

/// A component's stamp, options and activation methods.
#[tactic(auto, unfolding(crate::specs::PackageSpecs::choices_of))]
fn read_choices(
    stamp: &[u8],
    options: &[u8],
    method: &[u8],
) -> Result<(u32, (u16, u16)), ScriptCause>
    ensures { result ≡ choices_of stamp.now options.now method.now }
{
    both(
        number_u32(stamp),
        both(number_u16(options), number_u16(method)),
    )
}

/// The numbers of a component's line.
#[tactic(auto, unfolding(crate::specs::PackageSpecs::spec_numbers_of))]
fn read_spec_numbers(
    class: &[u8],
    ident: &[u8],
    stamp: &[u8],
    options: &[u8],
    method: &[u8],
) -> Result<SpecNumbers, ScriptCause>
    ensures { result ≡ spec_numbers_of class.now ident.now stamp.now options.now method.now }
{
    match both(read_key(class, ident), read_choices(stamp, options, method)) {
        Ok((key, (stamp, (options, method)))) => Ok(SpecNumbers {
            key,
            stamp,
            options,
            method,
        }),
        Err(cause) => Err(cause),
    }
}

/// Whether each component number, counted from 0, is below `count`.
fn are_there(uses: &[u16], count: usize) -> bool
    ensures { result ≡ list_all (λ k. nat_lt k count) uses.now }
{
    for number in uses {
        if usize::from(*number) >= count {
            return false;
        }
    }
    true
}

/// The line of the first record that uses a component, counted from 0, not below `count`.
fn past_line(records: &[SpecRecord], count: usize) -> Option<usize>
    ensures { result ≡ past_line_of count (map spec_record_of records.now) }
{
    for said in records {
        if said.is_past(count) {
            return Some(said.line);
        }
    }
    None
}

impl SpecRecord {
    /// Whether it uses a component, counted from 0, whose number isn't below `count`.
    #[tactic(auto, unfolding(crate::specs::PackageSpecs::is_past))]
    fn is_past(&self, count: usize) -> bool
        ensures { result ≡ is_past_of count (spec_record_of self.now) }
    {
        !are_there(self.uses.as_slice(), count)
    }

    /// Adds the descriptor of a line.
    #[tactic(auto, unfolding(crate::specs::PackageSpecs::record_with_descriptor))]
    fn tell(&mut self, alloc: Global, word: &[u8], digits: &[u8]) -> Result<(), ScriptCause>
        ensures { AnswersUnlessMemory (λ _. spec_record_of self.new) result
            (record_with_descriptor word.now digits.now (spec_record_of self.old)) }
    {
        let (kind, bytes) = with_bytes(alloc, kind(word), digits)?;
        if self.descriptors.len() >= MAX_DESCRIPTORS {
            return Err(ScriptCause::Limit);
        }
        let Ok(()) = self.descriptors.push(SpecDescriptor { kind, bytes }) else {
            return Err(ScriptCause::Memory);
        };
        Ok(())
    }
}

/// The result of the lines read so far.
#[derive(Drop)]
struct SpecDraft {
    version: Option<Vec<u8>>,
    release: Option<[u8; 13]>,
    /// The records before the last.
    done: Vec<SpecRecord>,
    /// The last record, which the following lines describe.
    last: Option<SpecRecord>,
    components: Vec<SpecComponent>,
}

impl Model for SpecDraft {
    ghost use Rattle.std.specs.Prelude.{map, option_map};
    ghost use Rattle.fw_script.specs.PackageSpecs.{SpecDraftOf, spec_component_of, spec_record_of};

    ghost Value = { SpecDraftOf };

    ghost view = { λ d. record {
      version = option_map (λ v. v.items) d.version;
      release = d.release;
      done = map spec_record_of d.done.items;
      last = option_map spec_record_of d.last;
      components = map spec_component_of d.components.items;
    } };
}

impl SpecDraft {
    /// Creates the draft before the first line.
    fn new(alloc: Global) -> SpecDraft
        ensures { result ≡ empty_spec_draft }
    {
        SpecDraft {
            version: None,
            release: None,
            done: Vec::new(alloc),
            last: None,
            components: Vec::new(alloc),
        }
    }

    /// Whether there is a record or a component.
    fn has_begun(&self) -> bool
        ensures { result ≡ has_said self.now }
    {
        self.last.is_some() || !self.components.is_empty()
    }

    /// The number of records.
    fn record_count(&self) -> usize
        ensures { result ≡ length (records_of self.now) }
    {
        match &self.last {
            Some(_) => self.done.len() + 1,
            None => self.done.len(),
        }
    }

    /// Applies the version's line.
    fn set_version(&mut self, alloc: Global, fields: &[&[u8]]) -> Result<(), ScriptCause>
        ensures { AnswersUnlessMemory (λ _. self.new) result (version_line self.old (map (λ f. f.now) fields.now)) }
    {
        let [word] = fields else {
            return Err(ScriptCause::Fields);
        };
        if self.version.is_some() || self.has_begun() {
            return Err(ScriptCause::Order);
        }
        match package_text(alloc, word) {
            Ok(text) => {
                self.version = Some(text);
                Ok(())
            }
            Err(cause) => Err(cause),
        }
    }

    /// Applies the release time's line.
    fn set_release(&mut self, fields: &[&[u8]]) -> Result<(), ScriptCause>
        ensures { AnswersUnlessMemory (λ _. self.new) result (release_line self.old (map (λ f. f.now) fields.now)) }
    {
        let [word] = fields else {
            return Err(ScriptCause::Fields);
        };
        if self.release.is_some() || self.has_begun() {
            return Err(ScriptCause::Order);
        }
        match release(word) {
            Ok(bytes) => {
                self.release = Some(bytes);
                Ok(())
            }
            Err(cause) => Err(cause),
        }
    }

    /// Begins a record.
    fn begin(&mut self, said: SpecRecord) -> Result<(), ScriptCause>
        ensures ok { OnOk result (self.new ≡ spec_draft_with_record self.old (spec_record_of said)) }
        ensures err { IfErr result (λ e. e ≡ ScriptCause.Memory) }
    {
        if let Some(before) = self.last.take() {
            let Ok(()) = self.done.push(before) else {
                return Err(ScriptCause::Memory);
            };
        }
        self.last = Some(said);
        Ok(())
    }

    /// Applies a record's line.
    fn add_record(
        &mut self,
        alloc: Global,
        line: usize,
        fields: &[&[u8]],
    ) -> Result<(), ScriptCause>
        ensures { AnswersUnlessMemory (λ _. self.new) result (record_line line self.old (map (λ f. f.now) fields.now)) }
    {
        let [flags, text, uses @ ..] = fields else {
            return Err(ScriptCause::Fields);
        };
        if uses.is_empty() {
            return Err(ScriptCause::Fields);
        }
        if !self.components.is_empty() {
            return Err(ScriptCause::Order);
        }
        let said = read_record(alloc, line, flags, text, uses)?;
        if self.record_count() >= MAX_RECORDS {
            return Err(ScriptCause::Limit);
        }
        self.begin(said)
    }

    /// Applies a descriptor's line.
    fn add_descriptor(&mut self, alloc: Global, fields: &[&[u8]]) -> Result<(), ScriptCause>
        ensures { AnswersUnlessMemory (λ _. self.new) result (descriptor_line self.old (map (λ f. f.now) fields.now)) }
    {
        let [kind, bytes] = fields else {
            return Err(ScriptCause::Fields);
        };
        if !self.components.is_empty() {
            return Err(ScriptCause::Order);
        }
        match &mut self.last {
            Some(said) => said.tell(alloc, kind, bytes),
            None => Err(ScriptCause::Order),
        }
    }

    /// Adds a component.
    #[tactic(auto, unfolding(crate::specs::PackageSpecs::spec_draft_with_component))]
    fn extend(
        &mut self,
        alloc: Global,
        numbers: Result<SpecNumbers, ScriptCause>,
        text: &[u8],
        path: &[u8],
    ) -> Result<(), ScriptCause>
        ensures { AnswersUnlessMemory (λ _. self.new) result (spec_draft_with_component numbers text.now path.now self.old) }
    {
        let (numbers, (text, path)) = match (numbers, text_and_path(alloc, text, path)) {
            (Ok(numbers), Ok(parts)) => (numbers, parts),
            (Ok(_), Err(cause)) => return Err(cause),
            (Err(_), Err(ScriptCause::Memory)) => return Err(ScriptCause::Memory),
            (Err(cause), Ok(_)) => return Err(cause),
            (Err(cause), Err(other)) => return Err(cause.earlier(other)),
        };
        let component = SpecComponent {
            numbers,
            text,
            path,
        };
        let Ok(()) = self.components.push(component) else {
            return Err(ScriptCause::Memory);
        };
        Ok(())
    }

    /// Applies a component's line.
    fn add_component(&mut self, alloc: Global, fields: &[&[u8]]) -> Result<(), ScriptCause>
        ensures { AnswersUnlessMemory (λ _. self.new) result (component_line self.old (map (λ f. f.now) fields.now)) }
    {
        let [class, ident, stamp, options, method, text, path] = fields else {
            return Err(ScriptCause::Fields);
        };
        let numbers = read_spec_numbers(class, ident, stamp, options, method);
        self.extend(alloc, numbers, text, path)
    }

    /// Applies a directive and its fields.
    fn say(
        &mut self,
        alloc: Global,
        line: usize,
        directive: Directive,
        fields: &[&[u8]],
    ) -> Result<(), ScriptCause>
        ensures { AnswersUnlessMemory (λ _. self.new) result
            (spec_draft_after_directive line self.old directive (map (λ f. f.now) fields.now)) }
    {
        match directive {
            Directive::Version => self.set_version(alloc, fields),
            Directive::Release => self.set_release(fields),
            Directive::Record => self.add_record(alloc, line, fields),
            Directive::Descriptor => self.add_descriptor(alloc, fields),
            Directive::Component => self.add_component(alloc, fields),
        }
    }

    /// Applies line `number`.
    #[tactic(auto, unfolding(crate::specs::PackageSpecs::after_spec_line))]
    fn take_line(&mut self, alloc: Global, number: usize, line: &[u8]) -> Result<(), ScriptCause>
        ensures { AnswersUnlessMemory (λ _. self.new) result (after_spec_line number self.old line.now) }
    {
        if is_skipped(line) {
            return Ok(());
        }
        let (name, rest) = first_word(line);
        let Some(directive) = directive_of(name) else {
            return Err(ScriptCause::Directive);
        };
        let fields = all_fields(alloc, rest)?;
        self.say(alloc, number, directive, fields.as_slice())
    }

    /// Returns the description after the last line, with the number of the next line.
    #[tactic(auto, unfolding(crate::specs::PackageSpecs::spec_finished))]
    fn finish(self, alloc: Global, next_line: usize) -> Result<PackageSpec, ScriptFault>
        ensures { ReadsAs spec_seen result (spec_finished next_line self) }
    {
        let SpecDraft {
            version,
            release,
            done,
            last,
            components,
        } = self;
        let mut records = done;
        if let Some(last) = last {
            let Ok(()) = records.push(last) else {
                return Err(ScriptFault {
                    line: next_line,
                    cause: ScriptCause::Memory,
                });
            };
        }
        if let Some(line) = past_line(records.as_slice(), components.len()) {
            return Err(ScriptFault {
                line,
                cause: ScriptCause::Range,
            });
        }
        Ok(PackageSpec {
            release: release.unwrap_or([0; 13]),
            version: match version {
                Some(text) => text,
                None => Vec::new(alloc),
            },
            records,
            components,
            next_line,
        })
    }
}

/// The record of line `line`.
#[tactic(auto, unfolding(crate::specs::PackageSpecs::record_read))]
fn read_record(
    alloc: Global,
    line: usize,
    flags: &[u8],
    text: &[u8],
    uses: &[&[u8]],
) -> Result<SpecRecord, ScriptCause>
    ensures { AnswersUnlessMemory spec_record_of result (record_read line flags.now text.now (map (λ w. w.now) uses.now)) }
{
    match (number_u32(flags), text_and_uses(alloc, text, uses)) {
        (Ok(flags), Ok((set_text, uses))) => Ok(SpecRecord {
            line,
            flags,
            set_text,
            descriptors: Vec::new(alloc),
            uses,
        }),
        (Ok(_), Err(cause)) => Err(cause),
        (Err(_), Err(ScriptCause::Memory)) => Err(ScriptCause::Memory),
        (Err(cause), Ok(_)) => Err(cause),
        (Err(cause), Err(other)) => Err(cause.earlier(other)),
    }
}

/// Reads a package description.
///
/// Work is linear in the text.
///
/// # Errors
/// The first invalid line, with its first fault in the order of `ScriptCause`; if there is none,
/// `Range` at the line of the first record that uses a component that doesn't exist; `Memory` if
/// memory is refused.
pub fn read_package_spec(alloc: Global, text: &[u8]) -> Result<PackageSpec, ScriptFault>
    ensures { ReadsAs spec_seen result (package_spec_of text.now) }
{
    let mut draft = SpecDraft::new(alloc);
    let mut rest = text;
    let mut line = 0;
    while !rest.is_empty() {
        let (first, after) = first_line(rest);
        line += 1;
        match draft.take_line(alloc, line, first) {
            Ok(()) => {}
            Err(cause) => return Err(ScriptFault { line, cause }),
        }
        rest = after;
    }
    draft.finish(alloc, line + 1)
}
