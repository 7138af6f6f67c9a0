//! Tests of banks over a store, and of stores.
#![tactic(auto)]

#[cfg(test)]
mod agents;
#[cfg(test)]
mod banks;
#[cfg(test)]
mod failing;
#[cfg(test)]
mod keepers;
#[cfg(test)]
mod lasting;
#[cfg(test)]
mod packages;
