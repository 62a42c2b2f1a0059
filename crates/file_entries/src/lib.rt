//! The entries of files in TOML: values, tables with exact keys, lists of them, and their faults.
#![tactic(auto)]

pub mod bytes;
mod documents;
pub mod entries;
mod faults;
pub mod fields;
mod judge;
pub mod key;
mod place;
pub mod value;
mod why;

pub use documents::document;
pub use faults::{Fault, Faults, MAX_FAULTS, Refused};
pub use judge::{Judge, may_begin_text, stays_false};
pub use place::Place;
pub use why::{Rising, Why, Words};
