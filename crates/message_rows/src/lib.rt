//! Tests of the nodes, and of the world over whole messages.
#![tactic(auto)]

#[cfg(test)]
mod messages;
#[cfg(test)]
mod nodes;
#[cfg(test)]
mod packages;
#[cfg(test)]
mod worked;
