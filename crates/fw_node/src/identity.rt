//! The identity of a node.

use mctp_ctl::Endpoint;
use pldm_base::Tid;

/// The identity of a node on its network: its endpoint, and its terminus identifier.
#[derive(Drop)]
pub(crate) struct Identity {
    pub(crate) endpoint: Endpoint,
    pub(crate) tid: Tid,
}
