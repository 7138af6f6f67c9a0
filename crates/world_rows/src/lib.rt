//! Tests of the packet world.
#![tactic(auto)]

#[cfg(test)]
mod tests;
