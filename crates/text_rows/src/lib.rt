//! Tests of texts: configurations, schedules and reports; and the lines of packets.
#![tactic(auto)]

#[cfg(test)]
mod scripts;
#[cfg(test)]
mod traces;
