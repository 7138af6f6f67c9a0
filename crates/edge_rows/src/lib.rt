//! Tests of frames, links and runs over them.
#![tactic(auto)]

#[cfg(test)]
mod tests;
