//! Laws of a router that runs over a capture.
#![tactic(auto)]

mod laws;

pub use laws::{carried, kept, one_run, passed_once, unheard};
