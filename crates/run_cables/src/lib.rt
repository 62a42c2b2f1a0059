//! The cables of a run over frozen tables, of an image of either version.
#![tactic(auto)]

mod wiring;

pub use wiring::Wiring;
