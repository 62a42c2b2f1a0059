//! The tables of an internet as the text of a tables file.
#![tactic(auto)]

mod entries;
mod printing;
mod values;

pub use printing::print_tables;
