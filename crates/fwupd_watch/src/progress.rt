//! Shows the progress of a run on a terminal.

ghost use Rattle.std.specs.Io.KnownBytes.{Appends};
ghost use Rattle.std.specs.Prelude.{[], ◌++◌, ◌<◌, ◌&&◌, ◌==◌, ◌≡◌, ◌⊎◌, IfNone, IfSome, None, OnOk, Some, if◌then◌else◌, length, slice_get};
ghost use Rattle.fwupd_watch.specs.Progress.{display, end_asked, first_after, latest_end, first_left, firsts_left, lines_for, lines_of, load_in, loads_at, pace_at};
ghost use Rattle.fwupd_watch.specs.Refreshes.{update_due};
ghost use Rattle.fwupd_watch.specs.Terminals.{display_erasure};
ghost use Rattle.mctp_wire.specs.Packet.{packet_of};
ghost use Rattle.mctp_wire.specs.declared.unit.Unit.TheVariants.{U128};

use crate::loads::{Event, Load, event_in};
use crate::progress_text::{ProgressLine, display, display_erasure, pace_since};
use crate::refresh::Refresh;
use crate::terminal::Terminal;
use arrayvec::ArrayVec;
use fd_core::Bank;
use fw_world::{SentPackets, World};
use std::io::{self, ErrorKind, Write};
use std::time::Instant;

/// How many of the latest packets are searched for the device's last RequestFirmwareData.
const LATEST: usize = 16;

/// The most devices of a run.
const DEVICES: usize = 16;

/// The first display of an image.
#[derive(Clone, Copy)]
struct FirstDisplay {
    load: Load,
    time: Instant,
}

/// Shows on standard error the progress of each device that loads an image, at most ten times a
/// second.
#[derive(Drop)]
pub struct ProgressDisplay<'a> {
    terminal: Terminal<'a>,
    /// The first display of the image that each device loads, by the device's place.
    firsts: [Option<FirstDisplay>; DEVICES],
    /// The number of lines that are drawn.
    drawn: usize,
    refresh: Refresh,
}

/// The end of the bytes that a packet requests, if it is a device's RequestFirmwareData (DSP0267).
fn asked_by(packet: &[u8], device: u8) -> Option<u32>
    ensures { result ≡ end_asked device (packet_of U128 packet.now) }
{
    match event_in(packet) {
        Some(Event::Asks(source, end)) if source == device => Some(end),
        _ => None,
    }
}

/// The end of the bytes of its image that a device requested last, by the latest packets of its
/// pair; 0 if it requested none in them.
fn asked(packets: &SentPackets<'_>, device: u8) -> u32
    ensures { result ≡ latest_end device packets.now }
{
    let latest = packets.behind(packets.len().saturating_sub(LATEST));
    let mut end = 0;
    for place in 0..latest.len() {
        let Some(packet) = latest.get(place) else {
            unreachable!()
        };
        end = asked_by(packet.bytes, device).unwrap_or(end);
    }
    end
}

/// The image that the device at a place loads, if it loads one.
fn load_at<B: Bank + Drop>(world: &World<'_, B>, place: usize) -> Option<Load>
    ensures { result ≡ load_in (slice_get world.now.sites place) }
{
    let (Some(node), Some(packets)) = (world.device_at(place), world.packets_at(place)) else {
        return None;
    };
    let Some((key, size)) = node.device().staged() else {
        return None;
    };
    let device = node.eid();
    Some(Load {
        device,
        key,
        asked: asked(&packets, device),
        size,
    })
}

/// The images that the devices load, by place.
fn loads_of<B: Bank + Drop>(world: &World<'_, B>) -> [Option<Load>; DEVICES]
    ensures { result ≡ loads_at world.now.sites 16 }
{
    let mut loads = [None; DEVICES];
    for place in 0..DEVICES {
        loads[place] = load_at(world, place);
    }
    loads
}

/// The line of an image that is shown at a time. If it isn't the image of the first display, this
/// is its first one.
fn line_at(first: &mut Option<FirstDisplay>, load: Load, now: Instant) -> ProgressLine
    ensures line { result ≡ record { load = load; pace = pace_at first.old load now } }
    ensures first { first.new ≡ first_after first.old load now }
{
    let pace = match first {
        Some(first) => {
            let passed = now.duration_since(first.time).as_nanos();
            pace_since(first.load, load, u64::try_from(passed).unwrap_or(u64::MAX))
        }
        None => None,
    };
    if pace.is_none() {
        *first = Some(FirstDisplay { load, time: now });
    }
    ProgressLine { load, pace }
}

/// Appends the line of the image that a device loads, if it loads one.
fn push_line_at(
    lines: &mut ArrayVec<ProgressLine, DEVICES>,
    first: &mut Option<FirstDisplay>,
    load: Option<Load>,
    now: Instant,
)
    requires { length lines.old.items < 16 }
    ensures lines { lines.new.items ≡ lines.old.items ++ lines_for first.old load now }
    ensures first { first.new ≡ first_left first.old load now }
{
    match load {
        Some(load) => lines.push(line_at(first, load, now)),
        None => *first = None,
    }
}

/// The lines of the images that devices load, at a time.
fn lines_at(
    firsts: &mut [Option<FirstDisplay>; DEVICES],
    loads: &[Option<Load>; DEVICES],
    now: Instant,
) -> ArrayVec<ProgressLine, DEVICES>
    ensures lines { result.items ≡ lines_of firsts.old loads.now now }
    ensures firsts { firsts.new ≡ firsts_left firsts.old loads.now now }
{
    let mut lines = ArrayVec::new();
    for place in 0..DEVICES {
        let mut first = firsts[place];
        push_line_at(&mut lines, &mut first, loads[place], now);
        firsts[place] = first;
    }
    lines
}

impl<'a> ProgressDisplay<'a> {
    /// Creates a display that shows nothing yet.
    pub fn new(terminal: Terminal<'a>) -> ProgressDisplay<'a>
        ensures drawn { result.drawn ≡ 0 }
        ensures none { result.refresh.shown ≡ None }
    {
        ProgressDisplay {
            terminal,
            firsts: [None; DEVICES],
            drawn: 0,
            refresh: Refresh::new(),
        }
    }

    /// Draws lines on a writer at `now`, in place of those that are drawn. It does nothing if there
    /// are none, and none are drawn.
    fn draw_on<W: Write>(
        &mut self,
        writer: &mut W,
        lines: &[ProgressLine],
        now: Instant,
    ) -> io::Result<()>
        ensures text { OnOk result (Appends (W.contents writer.old) (W.contents writer.new) (display self.old.drawn lines.now)) }
        ensures drawn { OnOk result (self.new.drawn ≡ length lines.now) }
        ensures shown { self.new.refresh.shown ≡ (if self.old.drawn == 0 && length lines.now == 0
            then self.old.refresh.shown else Some now) }
        ensures firsts { self.new.firsts ≡ self.old.firsts }
    {
        if lines.is_empty() && self.drawn == 0 {
            return Ok(());
        }
        self.refresh.note(now);
        let Ok(text) = display(self.terminal.runtime().alloc(), self.drawn, lines) else {
            return Err(io::Error::from(ErrorKind::OutOfMemory));
        };
        self.drawn = lines.len();
        writer.write_all(&text)
    }

    /// Shows the progress after a turn on a writer, if the display is due for an update at `now`.
    fn see_on<B: Bank + Drop, W: Write>(
        &mut self,
        writer: &mut W,
        world: &World<'_, B>,
        now: Option<Instant>,
    ) -> io::Result<()>
        ensures early { IfNone (update_due self.old.refresh.shown now)
            (OnOk result (Appends (W.contents writer.old) (W.contents writer.new) [])
            × (self.new.drawn ≡ self.old.drawn)
            × (self.new.refresh.shown ≡ self.old.refresh.shown)
            × (self.new.firsts ≡ self.old.firsts)) }
        ensures due { OnOk result (IfSome (update_due self.old.refresh.shown now)
            (λ time. (self.new.refresh.shown ≡ Some time)
            ⊎ ((self.new.drawn ≡ 0) × (self.new.refresh.shown ≡ self.old.refresh.shown)))) }
        ensures text { OnOk result (IfSome (update_due self.old.refresh.shown now)
            (λ time. Appends (W.contents writer.old) (W.contents writer.new)
            (display self.old.drawn (lines_of self.old.firsts (loads_at world.now.sites 16) time)))) }
        ensures drawn { OnOk result (IfSome (update_due self.old.refresh.shown now)
            (λ time. self.new.drawn ≡ length (lines_of self.old.firsts (loads_at world.now.sites 16) time))) }
        ensures firsts { IfSome (update_due self.old.refresh.shown now)
            (λ time. self.new.firsts ≡ firsts_left self.old.firsts (loads_at world.now.sites 16) time) }
    {
        let Some(now) = self.refresh.due(now) else {
            return Ok(());
        };
        let loads = loads_of(world);
        let lines = lines_at(&mut self.firsts, &loads, now);
        self.draw_on(writer, lines.as_slice(), now)
    }

    /// Shows the progress after a turn, if the display is due for an update.
    pub fn see<B: Bank + Drop>(&mut self, world: &World<'_, B>) {
        let mut stderr = self.terminal.runtime().stderr();
        let _ = self.see_on(&mut stderr, world, self.terminal.now());
    }

    /// Erases on a writer the lines that are drawn.
    fn erase_on<W: Write>(&mut self, writer: &mut W) -> io::Result<()>
        ensures erased { OnOk result (Appends (W.contents writer.old) (W.contents writer.new) (display_erasure self.old.drawn)) }
        ensures drawn { self.new.drawn ≡ 0 }
        ensures none { self.new.refresh.shown ≡ None }
    {
        let drawn = self.drawn;
        self.drawn = 0;
        let _ = self.refresh.take();
        let Ok(text) = display_erasure(self.terminal.runtime().alloc(), drawn) else {
            return Err(io::Error::from(ErrorKind::OutOfMemory));
        };
        writer.write_all(&text)
    }

    /// Erases the lines that are drawn.
    pub fn end(&mut self)
        ensures drawn { self.new.drawn ≡ 0 }
        ensures none { self.new.refresh.shown ≡ None }
    {
        let mut stderr = self.terminal.runtime().stderr();
        let _ = self.erase_on(&mut stderr);
    }
}
