//! The state between the agent and a device depends on no other device.

ghost use Rattle.fw_steps.specs.Cases.{AgreementSeesThePair};
ghost use Rattle.fw_steps.specs.Counts.{CountsNeedCalls};
ghost use Rattle.fw_steps.specs.Isolation.{DevicesAreIsolated};

use crate::links::{links_are_lanes, links_are_messages};

/// If steps reach two worlds that agree in a device, and each takes more steps, of which the same
/// concern that device, then both worlds agree in it again, if no call of its bank failed.
pub fn devices_are_isolated()
    ensures law { DevicesAreIsolated }
{
    exch_lane::lane_is_a_cell();
    links_are_lanes();
    links_are_messages();
}

/// Worlds that agree in a device have the same packages and the same time, the same node of it,
/// except for its bank's count of failures, the same half of the agent for it, the same packets
/// between the two, the same history of it, and the same clocks of both.
pub fn agreement_sees_the_pair()
    ensures law { AgreementSeesThePair }
{}

/// A count of failures changes only if a bank is called: a step in which no device calls its bank
/// leaves each count.
pub fn counts_need_calls()
    ensures law { CountsNeedCalls }
{
    exch_lane::lane_is_a_cell();
    links_are_lanes();
    links_are_messages();
}
