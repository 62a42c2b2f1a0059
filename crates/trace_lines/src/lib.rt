//! Prints the entries of a transcript.
#![tactic(auto)]

mod entries;
mod lines;
mod stations;
mod words;

pub use lines::Lines;
