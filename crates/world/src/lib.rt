//! Live worlds: the internet of an internet file, tick by tick, until its tables are frozen.
#![tactic(auto)]

mod acting;
mod beginning;
mod laws;
mod losing;
mod phases;
mod scheduling;
mod seen;
mod station_ticks;
mod taking;
mod tick;
mod world;

pub use laws::{frozen_as_is_read_back, frozen_is_read_back};
pub use world::{MAX_ENTRIES, MAX_TAKES, World};
