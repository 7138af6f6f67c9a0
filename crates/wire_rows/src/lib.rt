//! Tests of what is on the wire: packets, frames, messages, PLDM headers, base commands and fronts;
//! exchanges and lanes; and the commands, answers and packages of updates. `tests/program` tests
//! the built program for the rest: packets that are refused, each control message and base command,
//! and files that aren't packages.
#![tactic(auto)]

#[cfg(test)]
mod answers;
#[cfg(test)]
mod assembly;
#[cfg(test)]
mod base_commands;
#[cfg(test)]
mod commands;
#[cfg(test)]
mod cutting;
#[cfg(test)]
mod exchanges;
#[cfg(test)]
mod front;
#[cfg(test)]
mod headers;
#[cfg(test)]
mod lane_runs;
#[cfg(test)]
mod lanes;
#[cfg(test)]
mod messages;
#[cfg(test)]
mod packages;
#[cfg(test)]
mod packets;
#[cfg(test)]
mod serial;
