//! Tests of frames, links and runs.

mod alike;
mod failures;
mod frames;
mod hearing;
mod links;
mod packages;
mod rough;
mod runs;
mod setup;
mod silence;
mod stories;
mod trials;
mod units;
