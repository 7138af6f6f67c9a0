//! An agent and a device on perfect links, and observations of them.

use crate::nodes::setup::{device_node, endpoint};
use crate::worked::{AGENT, DEVICE, KEY};
use fd_core::{Bank, MemBank, Progress, State, Verdict};
use fw_node::{AgentNode, DeviceNode, Outbox};
use fw_package::Package;
use mctp_wire::{RawPacket, Unit};
use std::alloc::{AllocError, Global};
use ua_core::SessionState;

/// A fault of the links: in the device's answers and requests of one command, one byte of the
/// packet is replaced by this one.
#[derive(Clone, Copy)]
pub struct Fault {
    pub command: u8,
    pub place: usize,
    pub value: u8,
}

impl Fault {
    /// Applies the fault to a packet.
    fn put(&self, packet: &mut RawPacket) {
        if packet.get(1) != Some(&AGENT) || packet.get(7) != Some(&self.command) {
            return;
        }
        if let Some(byte) = packet.get_mut(self.place) {
            *byte = self.value;
        }
    }
}

/// The agent, its first device, all packets sent so far, the number of those delivered, and the
/// time.
#[derive(Drop)]
pub struct Bench<'p> {
    alloc: Global,
    packages: &'p [Package<'p>],
    pub agent: AgentNode,
    pub device: DeviceNode<MemBank>,
    pub packets: Vec<RawPacket>,
    pub delivered: usize,
    pub now: u32,
    pub fault: Option<Fault>,
}

/// Appends the packets of an outbox to those sent before.
fn collect(packets: &mut Vec<RawPacket>, outbox: &mut Outbox) -> Result<(), AllocError> {
    for _ in 0..64 {
        let Some(packet) = outbox.pop() else {
            return Ok(());
        };
        packets.push(packet)?;
    }
    Ok(())
}

/// Delivers a packet to a device.
fn device_hears(
    alloc: Global,
    device: &mut DeviceNode<MemBank>,
    bytes: &[u8],
    packets: &mut Vec<RawPacket>,
) -> Result<(), AllocError> {
    let mut outbox = Outbox::new(alloc)?;
    device.on_packet(bytes, &mut outbox);
    collect(packets, &mut outbox)
}

/// A tick of a device.
fn device_ticks(
    alloc: Global,
    device: &mut DeviceNode<MemBank>,
    packets: &mut Vec<RawPacket>,
) -> Result<(), AllocError> {
    let mut outbox = Outbox::new(alloc)?;
    device.on_tick(&mut outbox);
    collect(packets, &mut outbox)
}

/// The verdict that a device waits for, if it waits for one.
fn verdict_of(device: &DeviceNode<MemBank>) -> Option<Verdict> {
    match (device.device().state(), device.device().progress()) {
        (State::Verify, Some(Progress::InProgress)) => Some(Verdict::VerifyOk),
        (State::Apply, Some(Progress::InProgress)) => Some(Verdict::ApplyOk),
        _ => None,
    }
}

impl<'p> Bench<'p> {
    /// Creates the agent of the worked device, and that device, at time 0, on a network with this
    /// transmission unit.
    pub fn new(
        alloc: Global,
        unit: Unit,
        packages: &'p [Package<'p>],
    ) -> Result<Bench<'p>, AllocError> {
        let device = device_node(alloc, unit)?;
        Ok(Bench {
            alloc,
            packages,
            agent: AgentNode::new(alloc, unit, endpoint(AGENT), &[DEVICE])?,
            device,
            packets: Vec::new(alloc),
            delivered: 0,
            now: 0,
            fault: None,
        })
    }

    /// Starts an update of the worked device with the first package, and returns whether it
    /// started.
    pub fn start(&mut self) -> bool {
        if self.agent.session(DEVICE).is_none() {
            return false;
        }
        self.agent.start(self.packages, DEVICE, 1, self.now).is_ok()
    }

    /// Returns the state of the worked device's session.
    pub fn session(&self) -> SessionState {
        match self.agent.session(DEVICE) {
            Some(session) => session.state(),
            None => SessionState::Idle,
        }
    }

    /// Returns whether the session is done, and the device's active image is the one of `size`
    /// bytes: byte i is i modulo 256.
    pub fn is_updated(&self, size: usize) -> bool {
        let image = match self.device.device().bank().active(KEY) {
            Some((_, image)) => image,
            None => return false,
        };
        for (place, byte) in image.iter().enumerate() {
            if usize::from(*byte) != place % 256 {
                return false;
            }
        }
        self.session() == SessionState::Done && image.len() == size
    }

    /// A tick of all nodes, the agent's first.
    pub fn tick(&mut self) -> Result<(), AllocError> {
        self.now = self.now.saturating_add(1);
        let mut outbox = Outbox::new(self.alloc)?;
        self.agent.on_tick(self.packages, self.now, &mut outbox);
        collect(&mut self.packets, &mut outbox)?;
        device_ticks(self.alloc, &mut self.device, &mut self.packets)
    }

    /// Passes `count` ticks, in which nothing is delivered.
    pub fn ticks(&mut self, count: usize) -> Result<(), AllocError> {
        for _ in 0..count {
            self.tick()?;
        }
        Ok(())
    }

    /// Delivers the bytes of a packet to the agent, or else to the device.
    pub fn hand_over(&mut self, bytes: &[u8]) -> Result<(), AllocError> {
        if bytes.get(1) == Some(&AGENT) {
            let mut outbox = Outbox::new(self.alloc)?;
            self.agent
                .on_packet(self.packages, bytes, self.now, &mut outbox);
            return collect(&mut self.packets, &mut outbox);
        }
        device_hears(self.alloc, &mut self.device, bytes, &mut self.packets)
    }

    /// Delivers a packet, and returns whether these bytes are sent back, or nothing if there are
    /// none.
    pub fn answers(&mut self, bytes: &[u8], answer: &[u8]) -> Result<bool, AllocError> {
        let before = self.packets.len();
        self.hand_over(bytes)?;
        match self.packets.get(before) {
            Some(packet) => {
                Ok(packet.as_slice() == answer && self.packets.len() == before.saturating_add(1))
            }
            None => Ok(answer.is_empty()),
        }
    }

    /// Returns the device's state.
    pub fn state(&self) -> State {
        self.device.device().state()
    }

    /// Returns whether the device's active image is the first one, AA.
    pub fn runs_first(&self) -> bool {
        match self.device.device().bank().active(KEY) {
            Some((_, image)) => image == [0xAA].as_slice(),
            None => false,
        }
    }

    /// The next undelivered packet, with the fault of the links in it.
    fn next(&mut self) -> Option<RawPacket> {
        let packet = self.packets.get(self.delivered)?;
        let mut bytes = RawPacket::new();
        let _ = bytes.try_extend_from_slice(packet.as_slice());
        self.delivered = self.delivered.saturating_add(1);
        if let Some(fault) = self.fault {
            fault.put(&mut bytes);
        }
        Some(bytes)
    }

    /// Delivers each packet, until none is left.
    pub fn deliver(&mut self) -> Result<(), AllocError> {
        for _ in 0..256 {
            let Some(bytes) = self.next() else {
                return Ok(());
            };
            self.hand_over(bytes.as_slice())?;
        }
        Ok(())
    }

    /// Takes the verdicts and the activation that are due.
    fn decide(&mut self) {
        if let Some(verdict) = verdict_of(&self.device) {
            let _ = self.device.verdict(verdict);
        }
        let _ = self.agent.activate(self.packages, DEVICE, self.now);
    }

    /// Takes `count` turns: a tick, all packets, then what is due.
    pub fn turns(&mut self, count: usize) -> Result<(), AllocError> {
        for _ in 0..count {
            self.tick()?;
            self.deliver()?;
            self.decide();
        }
        Ok(())
    }

    /// Returns whether the log's second and last record is that the update with package 1 failed at
    /// this time for this cause.
    pub fn noted_failure(&mut self, time: u8, cause: u8) -> bool {
        let reply = self.agent.request(0x43, &[0, 0, 2, 0, 0, 0xFF], self.now);
        let want = [0xC1, time, 0, 0, 0, 0, 0, 0, 4, DEVICE, 1, 0, cause, 0];
        self.agent.log().len() == 2 && reply.get(5..) == Some(want.as_slice())
    }
}
