//! A device, the agent's session for it, and the cells between them.

ghost use Rattle.std.specs.Prelude.{◌≡◌, None, option_map};
ghost use Rattle.fw_message.specs.Nodes.{cell_of};
ghost use Rattle.fd_core.specs.Components.{HasComponents};
ghost use Rattle.fw_message.specs.WorldLaws.{new_node};

use crate::cell::CellContent;
use crate::side::Way;
use fd_core::{Bank, Device};
use fw_package::Package;
use std::alloc::Global;
use std::marker::Model;
use ua_core::Session;

mod adding;
mod asking;
mod calling;
mod quiet;
mod serving;
mod stepping;
mod waiting;

/// A device, the agent's session for it, and the two cells: one for the agent's commands to the
/// device, one for the device's commands to the agent.
#[derive(Drop)]
pub struct Pair<'a, B: Bank> {
    /// The device's endpoint identifier.
    eid: u8,
    /// The device.
    device: Device<B>,
    /// The agent's session for it.
    session: Session,
    /// The agent's command to the device, with its answer if it was taken; none between exchanges.
    down: Option<CellContent<'a>>,
    /// The device's command to the agent, likewise.
    up: Option<CellContent<'a>>,
}

impl<'a, B: Bank> Model for Pair<'a, B> {
    ghost use Rattle.fw_message.specs.Nodes.{CountedOf};
    ghost use Rattle.fd_core.specs.Components.{HasComponents};

    ghost Value = { CountedOf };

    ghost view = { λ p. record {
      node = record {
        eid = p.eid;
        pair = record { device = p.device.device; session = p.session.session; down = p.down; up = p.up };
      };
      faults = p.device.faults;
    } };

    ghost invariant = { λ p. HasComponents p.device.device };
}

impl<'a, B: Bank> Pair<'a, B> {
    /// Creates the pair of a device that starts now, and a new session with its transmission unit.
    #[tactic(auto, using(fd_core::proofs::Components::restart_components))]
    pub fn new(alloc: Global, eid: u8, device: Device<B>) -> Pair<'a, B>
        requires { HasComponents device.device }
        ensures node { result.node ≡ new_node eid device.device }
        ensures faults { result.faults ≡ device.faults }
    {
        let mut device = device;
        let unit = device.unit();
        device.restart();
        Pair {
            eid,
            device,
            session: Session::new(alloc, unit),
            down: None,
            up: None,
        }
    }

    /// The device's endpoint identifier.
    pub fn eid(&self) -> u8
        ensures { result ≡ self.now.node.eid }
    {
        self.eid
    }

    /// The device.
    pub fn device(&self) -> &Device<B>
        ensures device { result.now.device ≡ self.now.node.pair.device }
        ensures faults { result.now.faults ≡ self.now.faults }
    {
        &self.device
    }

    /// Returns the content of the cell of a way.
    pub fn cell(&self, way: Way) -> Option<&CellContent<'a>>
        ensures { option_map (λ h. h.now) result ≡ cell_of self.now.node.pair way }
    {
        match way {
            Way::Down => self.down.as_ref(),
            Way::Up => self.up.as_ref(),
        }
    }

    /// The agent's session for the device.
    pub fn session(&self) -> &Session
        ensures { result.now.session ≡ self.now.node.pair.session }
    {
        &self.session
    }
}
