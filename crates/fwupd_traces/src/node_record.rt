//! Writes the calls of a process's node as lines that the node's filter reads.

ghost use Rattle.std.specs.Prelude.{[], ◌≡◌, ◌⊎◌, ◌<◌, ◌++◌, ◌-◌, ◌+◌, ◌^◌, IfErr, IfOk, None, OnOk, codes, nat_le};
ghost use Rattle.std.specs.Io.KnownBytes.{Appends};
ghost use Rattle.exch_lane.specs.Steps.{sent_at};
ghost use Rattle.fw_text.specs.Printing.{AppendsText};
ghost use Rattle.fw_process.specs.Processes.{deed_with};
ghost use Rattle.fwupd_traces.specs.Records.{HasRecordedPacket, HasRecordedUnits, IsRecordFault, RecordsPacket, RecordsUnits, advanced_held, advanced_text, beginning_of, came_held, came_text, came_unit, deed_held, deed_text, digits_line, start_line, starts_text, ticks_line};

use crate::observed_line::PacketObserver;
use crate::process_watch::WatchFault;
use fw_text::{push_number, push_words};
use mctp_wire::RawPacket;
use std::alloc::{AllocError, Global};
use std::io::{BufWriter, Write};
use std::marker::Model;

/// The number of units after its own in which a packet is received (`fw_process`).
const LIFE: u32 = 8;

/// The number of units that a process makes up for by turns. If it is behind by more, it restarts.
const MOST_BEHIND: u32 = 40;

/// How far ahead, in units, a stamp is followed.
const MOST_AHEAD: u32 = 1 << 20;

/// The most ticks that are held back.
const MOST_HELD: u32 = 960;

/// The updates that an agent's process starts at its beginning; a device's starts none.
#[derive(Clone, Copy)]
pub struct Starts<'a> {
    /// The number of the package, from 1.
    pub number: usize,
    /// The endpoint identifiers of the devices, in order.
    pub eids: &'a [u8],
}

/// Appends a line of ticks, or nothing for 0.
#[tactic(auto, unfolding(crate::specs::Records::ticks_line))]
fn push_ticks(alloc: Global, text: &mut Vec<u8>, count: u32) -> Result<(), AllocError>
    ensures { OnOk result (AppendsText text.old.items text.new.items (ticks_line count)) }
{
    if count == 0 {
        return Ok(());
    }
    push_number(alloc, text, "tick ", count as usize)?;
    push_words(text, "\n")?;
    Ok(())
}

/// Appends the line of a packet.
#[tactic(auto, unfolding(crate::specs::Records::digits_line))]
fn push_packet(alloc: Global, text: &mut Vec<u8>, bytes: &[u8]) -> Result<(), AllocError>
    ensures { OnOk result (AppendsText text.old.items text.new.items (digits_line bytes.now)) }
{
    push_words(text, &hex::encode_upper(alloc, bytes)?)?;
    push_words(text, "\n")?;
    Ok(())
}

/// Appends the line of the start of an update.
#[tactic(auto, unfolding(crate::specs::Records::start_line))]
fn push_start(alloc: Global, text: &mut Vec<u8>, number: usize, eid: u8) -> Result<(), AllocError>
    ensures { OnOk result (AppendsText text.old.items text.new.items (start_line number eid)) }
{
    push_number(alloc, text, "start ", usize::from(eid))?;
    push_number(alloc, text, " ", number)?;
    push_words(text, "\n")?;
    Ok(())
}

/// Appends the lines of the beginning: a restart, and then the start of each update.
#[tactic(auto, using(fw_text::proofs::Chains::telling))]
fn push_starts(
    alloc: Global,
    text: &mut Vec<u8>,
    number: usize,
    eids: &[u8],
) -> Result<(), AllocError>
    ensures { OnOk result (AppendsText text.old.items text.new.items (starts_text number eids.now)) }
{
    for eid in eids {
        push_start(alloc, text, number, *eid)?;
    }
    Ok(())
}

/// Appends a restart, after the ticks that were held back.
#[tactic(auto, using(fw_text::proofs::Chains::adds_more))]
fn push_restart(alloc: Global, text: &mut Vec<u8>, held: u32) -> Result<(), AllocError>
    ensures { OnOk result (AppendsText text.old.items text.new.items (ticks_line held ++ codes "restart\n")) }
{
    push_ticks(alloc, text, held)?;
    push_words(text, "restart\n")?;
    Ok(())
}

/// Appends a packet, after the ticks that were held back.
#[tactic(auto, using(fw_text::proofs::Chains::adds_more))]
fn push_received(
    alloc: Global,
    text: &mut Vec<u8>,
    held: u32,
    bytes: &[u8],
) -> Result<(), AllocError>
    ensures { OnOk result (AppendsText text.old.items text.new.items (ticks_line held ++ digits_line bytes.now)) }
{
    push_ticks(alloc, text, held)?;
    push_packet(alloc, text, bytes)?;
    Ok(())
}

/// Whether a process makes up for this number of units by turns.
fn is_made_up(units: u32) -> bool
    ensures { result ≡ nat_le units 40 }
{
    units <= MOST_BEHIND
}

/// Whether this number of ticks is held back.
fn is_held(ticks: u32) -> bool
    ensures { result ≡ nat_le ticks 960 }
{
    ticks <= MOST_HELD
}

/// Whether a stamp is followed, in a unit.
fn is_followed(unit: u32, stamp: u32) -> bool
    ensures { result ≡ nat_le stamp (unit + 2 ^ 20) }
{
    stamp <= unit.saturating_add(MOST_AHEAD)
}

/// Whether a packet with this stamp is received in a unit.
fn is_timely(unit: u32, stamp: u32) -> bool
    ensures { result ≡ nat_le (unit - stamp) 8 }
{
    unit.saturating_sub(stamp) <= LIFE
}

/// The beginning of a record.
fn beginning(alloc: Global, starts: Starts<'_>) -> Result<Vec<u8>, AllocError>
    ensures { IfOk result (λ text. text.items ≡ beginning_of starts.entry.number starts.entry.eids.now) }
{
    let mut text = Vec::new(alloc);
    push_words(&mut text, "restart\n")?;
    push_starts(alloc, &mut text, starts.number, starts.eids)?;
    Ok(text)
}

/// Writes the calls of a process's node as lines that its filter reads: what the filter prints for
/// them, with `--auto`, is what the process sent. Adjacent ticks share a line, so the record is
/// complete after `end`. After its first fault it writes nothing.
#[derive(Drop)]
pub struct NodeRecord<W: Write + Drop> {
    alloc: Global,
    writer: BufWriter<W>,
    /// The unit that the process is in.
    unit: u32,
    /// The number of its latest ticks that aren't written.
    held: u32,
    /// The first fault, if any.
    fault: Option<WatchFault>,
}

impl<W: Write + Drop> Model for NodeRecord<W> {
    ghost use Rattle.std.specs.Io.Buffered.{writer_buffer, writer_contents};
    ghost use Rattle.std.specs.Prelude.{◌≤◌};
    ghost use Rattle.fwupd_traces.specs.Records.{NodeRecordOf};

    ghost Value = { NodeRecordOf };

    ghost view = { λ r. record {
      unit = r.unit;
      held = r.held;
      text = writer_contents W.contents r.writer;
      behind = writer_buffer r.writer;
      fault = r.fault;
    } };

    ghost invariant = { λ r. r.held ≤ 960 };
}

impl<W: Write + Drop> NodeRecord<W> {
    /// Creates the record of a process that begins with a restart, and then with these starts of
    /// updates.
    ///
    /// # Errors
    /// `Record` if they can't be written, and `Memory`.
    pub fn new(alloc: Global, starts: Starts<'_>, writer: W) -> Result<NodeRecord<W>, WatchFault>
        ensures unit { IfOk result (λ r. r.unit ≡ 0) }
        ensures held { IfOk result (λ r. r.held ≡ 0) }
        ensures whole { IfOk result (λ r. r.fault ≡ None) }
        ensures text { IfOk result (λ r. Appends (W.contents writer) r.text
            (beginning_of starts.entry.number starts.entry.eids.now)) }
        ensures fault { IfErr result (λ e. (e ≡ WatchFault.Memory) ⊎ (e ≡ WatchFault.Record)) }
    {
        let Ok(mut writer) = BufWriter::new(alloc, writer) else {
            return Err(WatchFault::Memory);
        };
        let Ok(text) = beginning(alloc, starts) else {
            return Err(WatchFault::Memory);
        };
        match writer.write_all(&text) {
            Ok(()) => {}
            Err(_) => return Err(WatchFault::Record),
        }
        Ok(NodeRecord {
            alloc,
            writer,
            unit: 0,
            held: 0,
            fault: None,
        })
    }

    /// Goes on by a number of units, and appends what isn't held back: ticks, or a restart if there
    /// are too many.
    fn advance(&mut self, text: &mut Vec<u8>, units: u32) -> Result<(), AllocError>
        requires { self.old.unit + units < 2 ^ 32 }
        ensures text { OnOk result (AppendsText text.old.items text.new.items (advanced_text self.old.held units)) }
        ensures held { OnOk result (self.new.held ≡ advanced_held self.old.held units) }
        ensures unit { self.new.unit ≡ self.old.unit + units }
        ensures written { self.new.text ≡ self.old.text }
        ensures fault { self.new.fault ≡ self.old.fault }
    {
        let (alloc, held) = (self.alloc, self.held);
        self.unit += units;
        self.held = 0;
        if !is_made_up(units) {
            return push_restart(alloc, text, held);
        }
        if !is_held(held + units) {
            return push_ticks(alloc, text, held + units);
        }
        self.held = held + units;
        Ok(())
    }

    /// A packet is received, if it is timely.
    fn receive_timely(
        &mut self,
        text: &mut Vec<u8>,
        stamp: u32,
        bytes: &[u8],
    ) -> Result<(), AllocError>
        ensures text { OnOk result (AppendsText text.old.items text.new.items
            (deed_text self.old.held (deed_with self.old.unit (sent_at stamp bytes.now)))) }
        ensures held { OnOk result (self.new.held ≡ deed_held self.old.held (deed_with self.old.unit (sent_at stamp bytes.now))) }
        ensures unit { self.new.unit ≡ self.old.unit }
        ensures written { self.new.text ≡ self.old.text }
        ensures fault { self.new.fault ≡ self.old.fault }
    {
        let (alloc, held) = (self.alloc, self.held);
        if !is_timely(self.unit, stamp) {
            return Ok(());
        }
        self.held = 0;
        push_received(alloc, text, held, bytes)
    }

    /// A packet came: it is received, if it is timely, after the units up to its stamp.
    #[tactic(auto, using(fw_text::proofs::Chains::adds_more, fw_text::proofs::Chains::adds_none))]
    fn accept(&mut self, text: &mut Vec<u8>, stamp: u32, bytes: &[u8]) -> Result<(), AllocError>
        ensures text { OnOk result (AppendsText text.old.items text.new.items
            (came_text self.old (sent_at stamp bytes.now))) }
        ensures held { OnOk result (self.new.held ≡ came_held self.old (sent_at stamp bytes.now)) }
        ensures unit { OnOk result (self.new.unit ≡ came_unit self.old (sent_at stamp bytes.now)) }
        ensures written { self.new.text ≡ self.old.text }
        ensures fault { self.new.fault ≡ self.old.fault }
    {
        let unit = self.unit;
        if !is_followed(unit, stamp) {
            return Ok(());
        }
        match self.advance(text, stamp.saturating_sub(unit)) {
            Ok(()) => {}
            Err(error) => return Err(error),
        }
        self.receive_timely(text, stamp, bytes)
    }

    /// Writes lines.
    fn write(&mut self, text: &[u8]) -> Result<(), WatchFault>
        ensures text { OnOk result (Appends self.old.text self.new.text text.now) }
        ensures kind { IfErr result (λ e. e ≡ WatchFault.Record) }
        ensures held { self.new.held ≡ self.old.held }
        ensures unit { self.new.unit ≡ self.old.unit }
        ensures fault { self.new.fault ≡ self.old.fault }
    {
        match self.writer.write_all(text) {
            Ok(()) => Ok(()),
            Err(_) => Err(WatchFault::Record),
        }
    }

    /// Goes on to a unit, if the process isn't there.
    fn go_to(&mut self, unit: u32) -> Result<(), WatchFault>
        ensures records { OnOk result (HasRecordedUnits self.old unit self.new) }
        ensures kind { IfErr result (λ e. IsRecordFault self.old e self.new) }
        ensures fault { self.new.fault ≡ self.old.fault }
    {
        let mut text = Vec::new(self.alloc);
        let units = unit.saturating_sub(self.unit);
        let Ok(()) = self.advance(&mut text, units) else {
            return Err(WatchFault::Memory);
        };
        self.write(&text)
    }

    /// A packet came, with this stamp.
    fn take(&mut self, stamp: u32, bytes: &[u8]) -> Result<(), WatchFault>
        ensures records { OnOk result (HasRecordedPacket self.old (sent_at stamp bytes.now) self.new) }
        ensures kind { IfErr result (λ e. IsRecordFault self.old e self.new) }
        ensures fault { self.new.fault ≡ self.old.fault }
    {
        let mut text = Vec::new(self.alloc);
        let Ok(()) = self.accept(&mut text, stamp, bytes) else {
            return Err(WatchFault::Memory);
        };
        self.write(&text)
    }

    /// Writes the ticks that are held back, and puts all that is written into the file.
    fn finish(&mut self) -> Result<(), WatchFault>
        ensures text { OnOk result (Appends self.old.text self.new.text (ticks_line self.old.held)) }
        ensures filed { OnOk result (self.new.behind ≡ []) }
        ensures kind { IfErr result (λ e. IsRecordFault self.old e self.new) }
        ensures held { OnOk result (self.new.held ≡ 0) }
        ensures unit { self.new.unit ≡ self.old.unit }
        ensures fault { self.new.fault ≡ self.old.fault }
    {
        let mut text = Vec::new(self.alloc);
        let Ok(()) = push_ticks(self.alloc, &mut text, self.held) else {
            return Err(WatchFault::Memory);
        };
        self.held = 0;
        match self.write(&text) {
            Ok(()) => {}
            Err(fault) => return Err(fault),
        }
        match self.writer.flush() {
            Ok(()) => Ok(()),
            Err(_) => Err(WatchFault::Record),
        }
    }
}

impl<W: Write + Drop> PacketObserver for NodeRecord<W> {
    ghost use Rattle.fwupd_traces.specs.Records.{EndsRecord, RecordsPacket, RecordsUnits};

    ghost receives = { λ s p t. RecordsPacket s p t };

    ghost sends = { λ s p t. t ≡ s };

    ghost begins = { λ s unit t. t ≡ record s { unit = unit } };

    ghost begins_round = { λ s unit t. RecordsUnits s unit t };

    ghost ends = { λ s r t. EndsRecord s r t };

    fn begin(&mut self, unit: u32) {
        self.unit = unit;
    }

    fn begin_round(&mut self, unit: u32) {
        if self.fault.is_some() {
            return;
        }
        match self.go_to(unit) {
            Ok(()) => {}
            Err(fault) => self.fault = Some(fault),
        }
    }

    fn receive(&mut self, stamp: u32, packet: &RawPacket) {
        if self.fault.is_some() {
            return;
        }
        match self.take(stamp, packet.as_slice()) {
            Ok(()) => {}
            Err(fault) => self.fault = Some(fault),
        }
    }

    fn send(&mut self, _unit: u32, _packet: &RawPacket) {}

    fn end(&mut self) -> Result<(), WatchFault> {
        match self.fault {
            Some(fault) => Err(fault),
            None => self.finish(),
        }
    }
}
