//! Tests of nodes by themselves, and of soaks.
#![tactic(auto)]

#[cfg(test)]
mod servers;
#[cfg(test)]
mod soaks;
#[cfg(test)]
mod worked;
