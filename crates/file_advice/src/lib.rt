//! Words for the faults of internet files and tables files, and for the actions of a play that were
//! refused.
#![tactic(auto)]

mod found;
mod lines;
mod must;
mod sentence;
mod settled;
mod shown;
mod telling;
mod undone;

pub use settled::{write_other_zones, write_shared_tries};
pub use telling::{Format, write};
pub use undone::write_undone;
