//! Words for the bad line of a script, and for the steps of a run that were refused.
#![tactic(auto)]

mod bad_line;
mod command;
mod lines;
mod shown;
mod undone;

pub use bad_line::write_bad_line;
pub use undone::write_undone;
