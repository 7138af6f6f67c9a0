//! The worked update, worlds side by side, and random schedules.

mod clocks;
mod dice;
mod headers;
mod isolation;
mod kept;
mod memory;
mod packages;
mod random;
mod replays;
mod seeing;
mod setup;
mod steps;
mod watch;
