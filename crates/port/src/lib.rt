//! One port of a station, on a cable of which nothing else is known.
#![tactic(auto)]

mod port;

pub use port::{Port, Waits};
