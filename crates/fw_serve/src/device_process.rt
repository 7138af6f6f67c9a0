//! A device as a process of its own.

ghost use Rattle.std.specs.Prelude.{[], ◌≡◌, IfOk, OnOk};
ghost use Rattle.fd_core.specs.Components.{HasComponents};
ghost use Rattle.fw_steps.specs.Alone.{is_for};
ghost use Rattle.fw_serve.specs.Serving.{device_report};

use crate::device::ServedDevice;
use crate::texts::clear;
use fd_core::Bank;
use fw_node::{DeviceNode, Outbox};
use fw_process::{Line, ProcessNode, send_all};
use std::alloc::{AllocError, Global};
use std::marker::Model;

/// A device as a process of its own: it gives the verdict that it waits for at the end of each
/// unit.
#[derive(Drop)]
pub struct DeviceProcess<B: Bank + Drop> {
    /// The device.
    device: ServedDevice<B>,
    /// The unit that it is in.
    unit: u32,
    /// The packets that the node sends in a call.
    outbox: Outbox,
}

impl<B: Bank + Drop> Model for DeviceProcess<B> {
    ghost use Rattle.fw_serve.specs.Processes.{DeviceProcessOf};

    ghost Value = { DeviceProcessOf };

    ghost view = { λ p. record { unit = p.unit; device = p.device } };
}

impl<B: Bank + Drop> DeviceProcess<B> {
    /// Creates the process of a device's node, with an empty history, in unit 0.
    ///
    /// # Errors
    /// `AllocError` if memory for it is refused.
    pub fn new(alloc: Global, node: DeviceNode<B>) -> Result<DeviceProcess<B>, AllocError>
        requires { HasComponents node.half.core.device }
        ensures { IfOk result (λ p. p ≡ record { unit = 0; device = record { node = node; history = [] } }) }
    {
        let outbox = Outbox::new(alloc)?;
        Ok(DeviceProcess {
            device: ServedDevice::new(alloc, node),
            unit: 0,
            outbox,
        })
    }

    /// Whether a packet is for the device, from its second byte (DSP0236).
    fn is_for(&self, packet: &[u8]) -> bool
        ensures { result ≡ is_for self.now.device.node.endpoint.eid packet.now }
    {
        match packet {
            [_, dest, ..] => *dest == self.device.node().eid(),
            _ => false,
        }
    }

    /// Returns the report of the device as text: its node, and the history.
    ///
    /// # Errors
    /// `AllocError` if memory is refused.
    pub fn report(&self) -> Result<Vec<u8>, AllocError>
        ensures { IfOk result (λ text. text.items ≡ device_report self.now.device) }
    {
        self.device.report()
    }
}

impl<B: Bank + Drop> ProcessNode for DeviceProcess<B> {
    ghost use Rattle.std.specs.Prelude.{false};
    ghost use Rattle.fw_serve.specs.Processes.{DeviceDoes};

    ghost does = { λ s d t sent. DeviceDoes s d t sent };

    ghost unit = { λ s. s.unit };

    ghost is_over = { λ s. false };

    fn unit(&self) -> u32 {
        self.unit
    }

    fn is_over(&self) -> bool {
        false
    }

    #[tactic(auto, using(crate::proofs::Processes::device_receives, crate::proofs::Processes::device_ignores))]
    fn receive<L: Line>(
        &mut self,
        line: &mut L,
        stamp: u32,
        packet: &[u8],
    ) -> Result<(), AllocError> {
        if !self.is_for(packet) {
            return Ok(());
        }
        clear(&mut self.outbox);
        match self.device.on_packet(packet, &mut self.outbox) {
            Ok(()) => {}
            Err(error) => return Err(error),
        }
        send_all(line, self.unit, &mut self.outbox);
        Ok(())
    }

    #[tactic(auto, using(crate::proofs::Processes::device_turns))]
    fn turn<L: Line>(&mut self, line: &mut L) -> Result<(), AllocError> {
        clear(&mut self.outbox);
        match self.device.turn(true, &mut self.outbox) {
            Ok(()) => {}
            Err(error) => return Err(error),
        }
        self.unit += 1;
        send_all(line, self.unit, &mut self.outbox);
        Ok(())
    }

    fn miss(&mut self, units: u32) {
        self.device.restart();
        self.unit += units;
    }
}
