//! The trace of a script over frozen tables: carries out each step, prints the entries that it adds,
//! and gives the run at its end, of which a capture can be written.
#![tactic(auto)]

mod capturing;
mod playing;
mod printing;
mod refusals;
mod scenery;
mod trace;

pub use capturing::capture_traced;
pub use refusals::Refusals;
pub use trace::{Traced, trace_script};
