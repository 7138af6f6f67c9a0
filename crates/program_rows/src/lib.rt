//! Tests of the programs over byte readers and writers.
#![tactic(auto)]

#[cfg(test)]
mod tests;
