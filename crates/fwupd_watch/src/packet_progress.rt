//! Shows the progress of a process on a terminal, by the packets of its line.

ghost use Rattle.std.specs.Io.KnownBytes.{Appends};
ghost use Rattle.std.specs.List.{list_any};
ghost use Rattle.std.specs.Prelude.{[], ◌∷◌, ◌==◌, ◌≡◌, ◌⊎◌, IfNone, IfOk, IfSome, None, OnOk, false, if◌then◌else◌, is_some, length, option_map, slice_get, true, vec_capacity, ◌++◌, ◌≤◌};
ghost use Rattle.fw_text.specs.Printing.{AppendsText};
ghost use Rattle.fwupd_watch.specs.Processes.{done_text, latest_line, load_line};
ghost use Rattle.fwupd_watch.specs.Refreshes.{shown_after, text_if_due, update_due};
ghost use Rattle.fwupd_watch.specs.Terminals.{erasure_of};

use crate::loads::{Event, Load, event_in, push_load};
use crate::refresh::Refresh;
use crate::terminal::{Terminal, erase_line};
use fw_text::{push_number, push_words};
use fwupd_traces::{PacketObserver, WatchFault};
use mctp_wire::RawPacket;
use std::alloc::{AllocError, Global};
use std::io::{self, ErrorKind, Write};
use std::time::Instant;

/// The number of endpoint identifiers.
const EIDS: usize = 256;

/// Adds a device to those that are done, unless it is one of them.
fn add_done(done: &mut Vec<u8>, device: u8)
    ensures same { list_any (λ d. d == device) done.old.items ≡ true → done.new.items ≡ done.old.items }
    ensures added { list_any (λ d. d == device) done.old.items ≡ false
        → (done.new.items ≡ done.old.items ++ device ∷ [])
        ⊎ ((done.new.items ≡ done.old.items) × (vec_capacity done.old ≤ length done.old.items)) }
{
    if !done.contains(&device) {
        let _ = done.push(device);
    }
}

/// Appends a carriage return, and for the agent, the number of its devices that are done, and of
/// all of them.
fn push_done(
    alloc: Global,
    line: &mut Vec<u8>,
    done: Option<(usize, usize)>,
) -> Result<(), AllocError>
    ensures { OnOk result (AppendsText line.old.items line.new.items (done_text done)) }
{
    let Some((done, all)) = done else {
        return push_words(line, "\r");
    };
    push_number(alloc, line, "\r", done)?;
    push_number(alloc, line, "/", all)?;
    push_words(line, " done, ")?;
    Ok(())
}

/// The line of a device that loads an image. For the agent, the number of its devices that are
/// done, and of all of them, is before it.
///
/// # Errors
/// `AllocError` if memory is refused.
fn load_line(
    alloc: Global,
    done: Option<(usize, usize)>,
    load: &Load,
) -> Result<Vec<u8>, AllocError>
    ensures { IfOk result (λ line. line.items ≡ load_line done load.now) }
{
    let mut line = Vec::new(alloc);
    push_done(alloc, &mut line, done)?;
    push_load(alloc, &mut line, load)?;
    push_words(&mut line, "        ")?;
    Ok(line)
}

/// Shows on standard error the image that was requested last, at most ten times a second; for the
/// agent, also how many of its devices activated theirs.
#[derive(Drop)]
pub struct PacketProgress<'a> {
    terminal: Terminal<'a>,
    /// The number of the agent's devices. `None` for a device.
    all: Option<usize>,
    /// The image that each device loads, by its endpoint identifier.
    loads: Vec<Option<Load>>,
    /// The devices that activated their images.
    done: Vec<u8>,
    /// The image that was requested last.
    latest: Option<Load>,
    refresh: Refresh,
}

impl<'a> PacketProgress<'a> {
    /// Creates the progress of the agent, with the number of its devices, or of a device. It shows
    /// nothing yet.
    ///
    /// # Errors
    /// `AllocError` if memory is refused.
    pub fn new(terminal: Terminal<'a>, all: Option<usize>) -> Result<PacketProgress<'a>, AllocError>
        ensures all { IfOk result (λ p. p.all ≡ all) }
        ensures none { IfOk result (λ p. (p.done.items ≡ []) × (p.latest ≡ None) × (p.refresh.shown ≡ None)) }
        ensures places { IfOk result (λ p. length p.loads.items ≡ 256) }
        ensures room { IfOk result (λ p. 256 ≤ vec_capacity p.done) }
    {
        let alloc = terminal.runtime().alloc();
        let mut loads = Vec::new(alloc);
        loads.resize(EIDS, None)?;
        Ok(PacketProgress {
            terminal,
            all,
            loads,
            done: Vec::with_capacity(alloc, EIDS)?,
            latest: None,
            refresh: Refresh::new(),
        })
    }

    /// A packet came or is sent.
    fn note(&mut self, packet: &[u8]) {
        match event_in(packet) {
            Some(Event::Offers(load)) => {
                if let Some(place) = self.loads.get_mut(usize::from(load.device)) {
                    *place = Some(load);
                }
            }
            Some(Event::Asks(device, end)) => self.note_asked(device, end),
            Some(Event::Activates(device)) => add_done(&mut self.done, device),
            None => {}
        }
    }

    /// A device requested bytes of its image up to an end.
    fn note_asked(&mut self, device: u8, end: u32)
        ensures latest { IfSome (slice_get self.old.loads.items device)
            (λ place. IfSome place (λ load. self.new.latest ≡ Some (record load { asked = end }))) }
    {
        if let Some(Some(load)) = self.loads.get_mut(usize::from(device)) {
            load.asked = end;
            self.latest = Some(*load);
        }
    }

    /// For the agent, the number of its devices that are done, and of all of them.
    fn done(&self) -> Option<(usize, usize)>
        ensures { result ≡ option_map (λ all. (length self.now.done.items, all)) self.now.all }
    {
        match self.all {
            Some(all) => Some((self.done.len(), all)),
            None => None,
        }
    }

    /// Shows the image that was requested last on a writer, if one was requested since the last
    /// update, and the display is due for an update at `now`.
    fn show_on<W: Write>(&mut self, writer: &mut W, now: Option<Instant>) -> io::Result<()>
        ensures text { OnOk result (Appends (W.contents writer.old) (W.contents writer.new)
            (text_if_due (update_due self.old.refresh.shown now) (latest_line
            (option_map (λ all. (length self.old.done.items, all)) self.old.all) self.old.latest))) }
        ensures shown { OnOk result (self.new.refresh.shown
            ≡ (if is_some self.old.latest then shown_after self.old.refresh.shown (update_due self.old.refresh.shown now)
            else self.old.refresh.shown)) }
        ensures latest { OnOk result (IfNone (update_due self.old.refresh.shown now) (self.new.latest ≡ self.old.latest)) }
        ensures none { OnOk result (IfSome (update_due self.old.refresh.shown now) (λ _. self.new.latest ≡ None)) }
    {
        let (Some(load), Some(now)) = (self.latest, self.refresh.due(now)) else {
            return Ok(());
        };
        let Ok(line) = load_line(self.terminal.runtime().alloc(), self.done(), &load) else {
            return Err(io::Error::from(ErrorKind::OutOfMemory));
        };
        self.latest = None;
        self.refresh.note(now);
        writer.write_all(&line)
    }

    /// Erases the progress line on a writer, if one is shown.
    fn erase_on<W: Write>(&mut self, writer: &mut W) -> io::Result<()>
        ensures erased { OnOk result (Appends (W.contents writer.old) (W.contents writer.new)
            (erasure_of (is_some self.old.refresh.shown))) }
        ensures none { self.new.refresh.shown ≡ None }
    {
        erase_line(writer, self.refresh.take())
    }
}

impl<'a> PacketObserver for PacketProgress<'a> {
    ghost use Rattle.fwupd_watch.specs.Processes.{EndsProgress};

    ghost receives = { λ s p t. Prim.Unit {0} };

    ghost sends = { λ s p t. Prim.Unit {0} };

    ghost begins = { λ s unit t. Prim.Unit {0} };

    ghost begins_round = { λ s unit t. Prim.Unit {0} };

    ghost ends = { λ s r t. EndsProgress s r t };

    fn begin(&mut self, _unit: u32) {}

    fn begin_round(&mut self, _unit: u32) {
        let mut stderr = self.terminal.runtime().stderr();
        let _ = self.show_on(&mut stderr, self.terminal.now());
    }

    fn receive(&mut self, _stamp: u32, packet: &RawPacket) {
        self.note(packet.as_slice());
    }

    fn send(&mut self, _unit: u32, packet: &RawPacket) {
        self.note(packet.as_slice());
    }

    fn end(&mut self) -> Result<(), WatchFault> {
        let mut stderr = self.terminal.runtime().stderr();
        let _ = self.erase_on(&mut stderr);
        Ok(())
    }
}
