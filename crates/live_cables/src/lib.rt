//! Cables on which stations find each other by AARP, and where frames may be lost.
#![tactic(auto)]

mod answer;
mod beginning;
mod giving;
mod holding;
mod laws;
mod live;
mod losing;
mod neighbours;
mod passing;
mod putting;
mod taking;

pub use laws::{losses_then, nothing_plays, plays_then};
pub use live::LiveCables;
