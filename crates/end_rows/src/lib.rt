//! Tests of the device, the session and the event log.
#![tactic(auto)]

#[cfg(test)]
mod device;
#[cfg(test)]
mod log;
#[cfg(test)]
mod session;
