//! What changed in a router from one tick to the next, line by line.
#![tactic(auto)]

mod known;
mod lines;

pub use known::Known;
