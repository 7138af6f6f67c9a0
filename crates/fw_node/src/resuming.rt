//! What the agent keeps over a restart.

ghost use Rattle.std.specs.Prelude.{◌≡◌, IfOk, map};
ghost use Rattle.fw_node.specs.AgentViews.{half_in};
ghost use Rattle.fw_node.specs.Resumed.{resumed_half, session_kept};

use crate::half::Half;
use mctp_wire::Unit;
use std::alloc::{AllocError, Global};
use ua_core::{Recorded, Session};

/// What the agent's session with a device keeps over a restart.
#[derive(Drop)]
pub struct KeptSession {
    /// The device's endpoint identifier.
    pub device: u8,
    /// The number of the package that the session was last started with, 0 before the first start.
    pub package: usize,
    /// The components that the device applied, in order.
    pub records: Vec<Recorded>,
}

/// The halves with kept sessions, in their order.
pub(crate) fn halves_of(
    alloc: Global,
    unit: Unit,
    own: u8,
    sessions: &[KeptSession],
) -> Result<Vec<Half<Session>>, AllocError>
    ensures { IfOk result (λ halves. map (half_in 0) halves.items
        ≡ map (resumed_half unit own) (map session_kept sessions.now)) }
{
    let mut halves = Vec::new(alloc);
    for kept in sessions {
        let session = Session::resumed(alloc, unit, kept.package, kept.records.as_slice())?;
        halves.push(Half::new(unit, own, kept.device, session))?;
    }
    Ok(halves)
}
