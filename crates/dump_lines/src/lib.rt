//! The lines of a transcript's entries with numbers for stations, for the programs that print whole
//! transcripts.
#![tactic(auto)]

mod lines;

pub use lines::{number_of, put_entry};
