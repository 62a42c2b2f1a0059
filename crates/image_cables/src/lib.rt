//! The live cables of an image: each station's seats, with their addresses and the mappings that the
//! image has for them.
#![tactic(auto)]

mod building;
mod hardware;
mod mappers;
mod ranges;

pub use building::cables_of;
