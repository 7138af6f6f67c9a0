//! The front of a node by itself, which answers what discovery requests.

ghost use Rattle.std.specs.Prelude.{◌≡◌, option_map};
ghost use Rattle.fw_serve.specs.Fronts.{answer_in_front};

use mctp_ctl::Endpoint;
use mctp_wire::{RawPacket, Unit};

/// The front of a node: it answers what discovery by other software requests, and the node doesn't
/// see these packets.
#[derive(Clone, Copy)]
pub struct Front {
    /// The transmission unit of the node's network.
    pub unit: Unit,
    /// The node's endpoint.
    pub endpoint: Endpoint,
}

/// What the server of a node does beside the lines' calls.
#[derive(Clone, Copy)]
pub struct FilterOptions {
    /// Whether what is due at the end of each turn is given: for a device the verdict that it waits
    /// for, for the agent the activation of each device whose session is ready.
    pub auto: bool,
    /// The front of the node, if there is one.
    pub front: Option<Front>,
}

/// Returns the answer of the front, if there is one, to the bytes of a packet.
pub(crate) fn front_answer(front: Option<Front>, bytes: &[u8]) -> Option<RawPacket>
    ensures { option_map (λ p. p.items) result ≡ answer_in_front front bytes.now }
{
    let Some(front) = front else {
        return None;
    };
    mctp_front::front(front.unit, &front.endpoint, bytes)
}
