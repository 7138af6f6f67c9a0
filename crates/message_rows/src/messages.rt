//! The world over whole messages.

mod cases;
mod endings;
mod losses;
mod refusals;
mod seeing;
mod setup;
mod steps;
