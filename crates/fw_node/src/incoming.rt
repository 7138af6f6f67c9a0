//! The content of a packet for a node.

use pldm_exch::Received;

/// The content of a peer's packet for one of a node's ends. Its message is written elsewhere.
#[derive(Clone, Copy)]
pub(crate) enum Incoming {
    /// For the end that asks: the answer to the open request, which is of this command.
    Learnt(u8),
    /// For the end that answers.
    Brought(Received),
}
