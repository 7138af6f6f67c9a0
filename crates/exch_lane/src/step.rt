//! The steps of a lane.

use pldm_base::Reply;
use thiserror::Error;

/// An end of a lane.
#[derive(Clone, Copy, PartialEq, Eq)]
pub enum End {
    /// The node that sends requests and receives their replies.
    Asker,
    /// The node that receives requests and sends their replies.
    Taker,
}

/// A step of a lane.
#[derive(PartialEq, Eq, Drop)]
pub enum LaneStep {
    /// The asker begins a request of PLDM type 5 (firmware update) with this command and request
    /// data.
    Begin(u8, Reply),
    /// The asker abandons its open request.
    Abandon,
    /// The packet with this number, counted from 1 in the order of sending, is delivered to an end.
    /// If it completes a new request, the taker answers with these bytes: a completion code and the
    /// fields after it.
    Deliver(usize, End, Reply),
    /// A unit of time passes: whether the asker counts it, and whether the taker does. An end that
    /// doesn't count it misses it.
    Tick(bool, bool),
    /// An end restarts, and is deaf and silent for 40 ticks.
    Restart(End),
}

/// Why a step isn't taken.
#[derive(Clone, Copy, Debug, PartialEq, Eq, Error)]
pub enum LaneFault {
    /// The step isn't allowed now. Begin: the asker is deaf, or no request may begin. Begin and
    /// Deliver: the request data or the reply are longer than a message of the transmission unit
    /// holds after its header. Abandon: no request is open. Tick: time has reached its end, or an
    /// end misses the tick that counted fewer than 8 since its last missed one.
    #[error("NotNow")]
    NotNow,
    /// No packet with this number was sent.
    #[error("NoSuchPacket")]
    NoSuchPacket,
    /// The packet was sent more than 8 units of time ago.
    #[error("Dead")]
    Dead,
    /// There is no memory for the step's additions. Abandon and Restart add nothing, and never fail
    /// with this.
    #[error("Memory")]
    Memory,
}
