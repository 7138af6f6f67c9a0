//! Tests of soaks and of their checker.

mod histories;
mod runs;
