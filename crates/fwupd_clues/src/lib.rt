//! Why a job failed, in words for a person: the line of a text in which the fault is, and what is
//! wrong with it. Warnings about the description of a package.
#![tactic(auto)]

mod clue_lines;
mod clue_texts;
mod clues;
mod explaining;
mod identifiers;
mod reasons;
mod unwritten;
mod warnings;

pub use explaining::{explain, warn};
