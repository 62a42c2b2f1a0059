//! The stations of an internet file before its first tick, and their seats on its cables.
#![tactic(auto)]

mod plans;
mod seats;

pub use plans::{plans_of, stations_of, zones_of};
pub use seats::{nodes_in, ranges_of, router_at, routers_in, seats_of};
