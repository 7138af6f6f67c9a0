//! A link over a byte stream.

ghost use Rattle.std.specs.Prelude.{[], ◌≡◌, ◌≢◌, ◌+◌, ◌∷◌, IfErr, IfOk, IfSome, None, Ok, OnErr, OnOk, false, is_some, length, true};
ghost use Rattle.std.specs.Io.KnownBytes.{Consumes, Keeps};
ghost use Rattle.fw_edge.specs.Frames.{IsSize, ReadStops, WriteStops, frames_of};
ghost use Rattle.fw_edge.specs.Links.{AsksForFrame, FailsCall, ReadsFrameAt, SendsPacket, WritesFrameAt};

use crate::frame::{Frame, FrameFault, read_frame_into, write_frame_from};
use crate::link::Link;
use crate::tally::Tally;
use fw_world::Side;
use fwupd_base::HeldBack;
use mctp_wire::{RawPacket, Unit};
use std::io::Read;

/// A link whose ends are byte streams, such as sockets: a frame written at one end is read at the
/// other. It reads only if a frame that it wrote is still on the way, so it never blocks on an
/// empty stream. Before a read it flushes the other end's stream, so a stream may hold back many
/// frames.
#[derive(Drop)]
pub struct StreamLink<S: Read + HeldBack + Drop> {
    unit: Unit,
    agent: S,
    device: S,
    /// The number of frames on the way to the agent.
    up: u64,
    /// The number of frames on the way to the device.
    down: u64,
    tally: Tally,
    /// The buffer of written frames.
    frame: Frame,
}

/// Flushes a stream.
fn flush<S: HeldBack>(stream: &mut S) -> Result<(), FrameFault>
    ensures out { OnOk result (S.held stream.new ≡ []) }
    ensures kept { Keeps (S.contents stream.old) (S.contents stream.new) }
    ensures fault { IfErr result (λ e. e ≡ FrameFault.Io) }
{
    match stream.push_out() {
        Ok(()) => Ok(()),
        Err(_) => Err(FrameFault::Io),
    }
}

/// Reads a frame as `read_frame_into` does, from the stream at one end of a link. `_other` is the
/// stream at the other end, and must hold nothing back: the frame may else never come.
fn read_flushed<S: Read + HeldBack>(
    unit: Unit,
    stream: &mut S,
    _other: &S,
    packet: &mut RawPacket,
) -> Result<(), FrameFault>
    requires out { S.held _other.now ≡ [] }
    ensures ok { OnOk result (Consumes (S.remaining stream.old) (S.remaining stream.new) (frames_of (packet.new.items ∷ []))) }
    ensures size { OnOk result (IsSize unit (length packet.new.items)) }
    ensures fault { IfErr result (λ e. ReadStops unit e (S.remaining stream.old) (S.remaining stream.new)) }
{
    read_frame_into(unit, stream, packet)
}

impl<S: Read + HeldBack + Drop> StreamLink<S> {
    /// Creates the link between these two ends, with no frame on the way, in a network with this
    /// transmission unit.
    pub fn new(unit: Unit, agent: S, device: S) -> StreamLink<S>
        ensures unit { result.unit ≡ unit }
        ensures agent { result.agent ≡ agent }
        ensures device { result.device ≡ device }
        ensures up { result.up ≡ 0 }
        ensures down { result.down ≡ 0 }
        ensures failures { result.tally.failures ≡ 0 }
        ensures sent { result.tally.sent ≡ 0 }
        ensures asked { result.tally.asked ≡ 0 }
        ensures given { result.tally.given ≡ 0 }
    {
        StreamLink {
            unit,
            agent,
            device,
            up: 0,
            down: 0,
            tally: Tally::new(),
            frame: Frame::new(),
        }
    }

    /// Writes the frame of a packet at an end; it is then on the way to the other end, whose stream
    /// is unchanged.
    fn write(&mut self, side: Side, packet: &RawPacket) -> Result<(), FrameFault>
        ensures tally { self.new.tally ≡ self.old.tally }
        ensures unit { self.new.unit ≡ self.old.unit }
        ensures agent { side ≡ Side.Agent
            → OnOk result (WritesFrameAt (S.contents self.old.agent) (S.contents self.new.agent)
            self.old.down self.new.down packet.now.items) }
        ensures device { side ≡ Side.Device
            → OnOk result (WritesFrameAt (S.contents self.old.device) (S.contents self.new.device)
            self.old.up self.new.up packet.now.items) }
        ensures agent_fault { side ≡ Side.Agent
            → IfErr result (λ e. (self.new.down ≡ self.old.down)
            × WriteStops self.old.unit e (S.contents self.old.agent) (S.contents self.new.agent)
            packet.now.items) }
        ensures device_fault { side ≡ Side.Device
            → IfErr result (λ e. (self.new.up ≡ self.old.up)
            × WriteStops self.old.unit e (S.contents self.old.device) (S.contents self.new.device)
            packet.now.items) }
        ensures not_device { side ≡ Side.Agent → (self.new.device ≡ self.old.device) × (self.new.up ≡ self.old.up) }
        ensures not_agent { side ≡ Side.Device → (self.new.agent ≡ self.old.agent) × (self.new.down ≡ self.old.down) }
    {
        match side {
            Side::Agent => {
                write_frame_from(self.unit, &mut self.agent, packet, &mut self.frame)?;
                self.down = self.down.saturating_add(1);
            }
            Side::Device => {
                write_frame_from(self.unit, &mut self.device, packet, &mut self.frame)?;
                self.up = self.up.saturating_add(1);
            }
        }
        Ok(())
    }

    /// Reads a frame at an end, if one is on the way there, and replaces the content of `packet` by
    /// its packet. Returns whether there was one; if not, the streams and the packet are unchanged.
    /// The other end's stream is flushed before, and nothing else is written there. After a failed
    /// flush or read the frame no longer counts as on the way, and the streams' contents are
    /// unreliable.
    fn read(&mut self, side: Side, packet: &mut RawPacket) -> Result<bool, FrameFault>
        ensures tally { self.new.tally ≡ self.old.tally }
        ensures unit { self.new.unit ≡ self.old.unit }
        ensures no_up { side ≡ Side.Agent → self.old.up ≡ 0 → (result ≡ Ok false) × (self.new ≡ self.old) }
        ensures no_down { side ≡ Side.Device → self.old.down ≡ 0 → (result ≡ Ok false) × (self.new ≡ self.old) }
        ensures agent { side ≡ Side.Agent
            → IfOk result (λ came. came ≡ true
            → ReadsFrameAt (S.remaining self.old.agent) (S.remaining self.new.agent) self.old.up
            self.new.up packet.new.items) }
        ensures device { side ≡ Side.Device
            → IfOk result (λ came. came ≡ true
            → ReadsFrameAt (S.remaining self.old.device) (S.remaining self.new.device) self.old.down
            self.new.down packet.new.items) }
        ensures none { IfOk result (λ came. came ≡ false → packet.new.items ≡ packet.old.items) }
        ensures some_up { side ≡ Side.Agent → self.old.up ≢ 0 → result ≢ Ok false }
        ensures some_down { side ≡ Side.Device → self.old.down ≢ 0 → result ≢ Ok false }
        ensures agent_fault { side ≡ Side.Agent
            → IfErr result (λ e. (self.old.up ≡ self.new.up + 1)
            × ReadStops self.old.unit e (S.remaining self.old.agent) (S.remaining self.new.agent)) }
        ensures device_fault { side ≡ Side.Device
            → IfErr result (λ e. (self.old.down ≡ self.new.down + 1)
            × ReadStops self.old.unit e (S.remaining self.old.device)
            (S.remaining self.new.device)) }
        ensures not_device { side ≡ Side.Agent
            → Keeps (S.contents self.old.device) (S.contents self.new.device)
            × (self.new.down ≡ self.old.down) }
        ensures not_agent { side ≡ Side.Device
            → Keeps (S.contents self.old.agent) (S.contents self.new.agent)
            × (self.new.up ≡ self.old.up) }
    {
        match side {
            Side::Agent => {
                let Some(left) = self.up.checked_sub(1) else {
                    return Ok(false);
                };
                self.up = left;
                flush(&mut self.device)?;
                read_flushed(self.unit, &mut self.agent, &self.device, packet)?;
            }
            Side::Device => {
                let Some(left) = self.down.checked_sub(1) else {
                    return Ok(false);
                };
                self.down = left;
                flush(&mut self.agent)?;
                read_flushed(self.unit, &mut self.device, &self.agent, packet)?;
            }
        }
        Ok(true)
    }
}

impl<S: Read + HeldBack + Drop> Link for StreamLink<S> {
    ghost tally = { λ l. l.tally };

    fn send(&mut self, side: Side, packet: &RawPacket) -> Result<(), FrameFault>
        ensures ok { OnOk result (SendsPacket self.old.tally self.new.tally) }
        ensures err { OnErr result (FailsCall self.old.tally self.new.tally) }
        ensures unit { self.new.unit ≡ self.old.unit }
        ensures agent { side ≡ Side.Agent
            → OnOk result (WritesFrameAt (S.contents self.old.agent) (S.contents self.new.agent)
            self.old.down self.new.down packet.now.items) }
        ensures device { side ≡ Side.Device
            → OnOk result (WritesFrameAt (S.contents self.old.device) (S.contents self.new.device)
            self.old.up self.new.up packet.now.items) }
        ensures agent_fault { side ≡ Side.Agent
            → IfErr result (λ e. (self.new.down ≡ self.old.down)
            × WriteStops self.old.unit e (S.contents self.old.agent) (S.contents self.new.agent)
            packet.now.items) }
        ensures device_fault { side ≡ Side.Device
            → IfErr result (λ e. (self.new.up ≡ self.old.up)
            × WriteStops self.old.unit e (S.contents self.old.device) (S.contents self.new.device)
            packet.now.items) }
        ensures not_device { side ≡ Side.Agent → (self.new.device ≡ self.old.device) × (self.new.up ≡ self.old.up) }
        ensures not_agent { side ≡ Side.Device → (self.new.agent ≡ self.old.agent) × (self.new.down ≡ self.old.down) }
    {
        match self.write(side, packet) {
            Ok(()) => {
                self.tally.send();
                Ok(())
            }
            Err(fault) => {
                self.tally.fail();
                Err(fault)
            }
        }
    }

    fn receive(&mut self, side: Side) -> Result<Option<RawPacket>, FrameFault>
        ensures ok { IfOk result (λ p. AsksForFrame (is_some p) self.old.tally self.new.tally) }
        ensures err { OnErr result (FailsCall self.old.tally self.new.tally) }
        ensures unit { self.new.unit ≡ self.old.unit }
        ensures no_up { side ≡ Side.Agent
            → self.old.up ≡ 0
            → (result ≡ Ok None)
            × (self.new.agent ≡ self.old.agent)
            × (self.new.device ≡ self.old.device)
            × (self.new.up ≡ self.old.up)
            × (self.new.down ≡ self.old.down) }
        ensures no_down { side ≡ Side.Device
            → self.old.down ≡ 0
            → (result ≡ Ok None)
            × (self.new.agent ≡ self.old.agent)
            × (self.new.device ≡ self.old.device)
            × (self.new.up ≡ self.old.up)
            × (self.new.down ≡ self.old.down) }
        ensures agent { side ≡ Side.Agent
            → IfOk result (λ p. IfSome p (λ q. ReadsFrameAt (S.remaining self.old.agent)
            (S.remaining self.new.agent) self.old.up self.new.up q.items)) }
        ensures device { side ≡ Side.Device
            → IfOk result (λ p. IfSome p (λ q. ReadsFrameAt (S.remaining self.old.device)
            (S.remaining self.new.device) self.old.down self.new.down q.items)) }
        ensures some_up { side ≡ Side.Agent → self.old.up ≢ 0 → result ≢ Ok None }
        ensures some_down { side ≡ Side.Device → self.old.down ≢ 0 → result ≢ Ok None }
        ensures agent_fault { side ≡ Side.Agent
            → IfErr result (λ e. (self.old.up ≡ self.new.up + 1)
            × ReadStops self.old.unit e (S.remaining self.old.agent) (S.remaining self.new.agent)) }
        ensures device_fault { side ≡ Side.Device
            → IfErr result (λ e. (self.old.down ≡ self.new.down + 1)
            × ReadStops self.old.unit e (S.remaining self.old.device)
            (S.remaining self.new.device)) }
        ensures not_device { side ≡ Side.Agent
            → Keeps (S.contents self.old.device) (S.contents self.new.device)
            × (self.new.down ≡ self.old.down) }
        ensures not_agent { side ≡ Side.Device
            → Keeps (S.contents self.old.agent) (S.contents self.new.agent)
            × (self.new.up ≡ self.old.up) }
    {
        let mut packet = RawPacket::new();
        match self.receive_into(side, &mut packet) {
            Ok(true) => Ok(Some(packet)),
            Ok(false) => Ok(None),
            Err(fault) => Err(fault),
        }
    }

    fn receive_into(&mut self, side: Side, packet: &mut RawPacket) -> Result<bool, FrameFault>
        ensures ok { IfOk result (λ came. AsksForFrame came self.old.tally self.new.tally) }
        ensures none { IfOk result (λ came. came ≡ false → packet.new.items ≡ packet.old.items) }
        ensures err { OnErr result (FailsCall self.old.tally self.new.tally) }
        ensures unit { self.new.unit ≡ self.old.unit }
        ensures no_up { side ≡ Side.Agent
            → self.old.up ≡ 0
            → (result ≡ Ok false)
            × (self.new.agent ≡ self.old.agent)
            × (self.new.device ≡ self.old.device)
            × (self.new.up ≡ self.old.up)
            × (self.new.down ≡ self.old.down) }
        ensures no_down { side ≡ Side.Device
            → self.old.down ≡ 0
            → (result ≡ Ok false)
            × (self.new.agent ≡ self.old.agent)
            × (self.new.device ≡ self.old.device)
            × (self.new.up ≡ self.old.up)
            × (self.new.down ≡ self.old.down) }
        ensures agent { side ≡ Side.Agent
            → IfOk result (λ came. came ≡ true
            → ReadsFrameAt (S.remaining self.old.agent) (S.remaining self.new.agent) self.old.up
            self.new.up packet.new.items) }
        ensures device { side ≡ Side.Device
            → IfOk result (λ came. came ≡ true
            → ReadsFrameAt (S.remaining self.old.device) (S.remaining self.new.device) self.old.down
            self.new.down packet.new.items) }
        ensures some_up { side ≡ Side.Agent → self.old.up ≢ 0 → result ≢ Ok false }
        ensures some_down { side ≡ Side.Device → self.old.down ≢ 0 → result ≢ Ok false }
        ensures agent_fault { side ≡ Side.Agent
            → IfErr result (λ e. (self.old.up ≡ self.new.up + 1)
            × ReadStops self.old.unit e (S.remaining self.old.agent) (S.remaining self.new.agent)) }
        ensures device_fault { side ≡ Side.Device
            → IfErr result (λ e. (self.old.down ≡ self.new.down + 1)
            × ReadStops self.old.unit e (S.remaining self.old.device)
            (S.remaining self.new.device)) }
        ensures not_device { side ≡ Side.Agent
            → Keeps (S.contents self.old.device) (S.contents self.new.device)
            × (self.new.down ≡ self.old.down) }
        ensures not_agent { side ≡ Side.Device
            → Keeps (S.contents self.old.agent) (S.contents self.new.agent)
            × (self.new.up ≡ self.old.up) }
    {
        match self.read(side, packet) {
            Ok(came) => {
                self.tally.ask(came);
                Ok(came)
            }
            Err(fault) => {
                self.tally.fail();
                Err(fault)
            }
        }
    }

    fn failures(&self) -> u64 {
        self.tally.failures
    }

    fn sent(&self) -> u64 {
        self.tally.sent
    }

    fn asked(&self) -> u64 {
        self.tally.asked
    }

    fn given(&self) -> u64 {
        self.tally.given
    }
}
