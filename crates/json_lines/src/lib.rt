//! The lines of `atalk` as JSON: one object for each line that a command prints, and for what it
//! notes and why it was refused (docs/FORMATS.md). It promises only to return.
#![tactic(auto)]

mod members;
mod objects;
mod refusals;
mod told_answers;
mod writer;

pub use refusals::{note, refusal};
pub use told_answers::{NamedService, ToldRange, echo, range, service, silence, zone};
pub use writer::JsonLines;
