//! Tests of the session.

mod calls;
mod cases;
mod packages;
mod resuming;
mod situations;
mod table;
mod updates;
