//! Live nodes: end nodes that choose their address, and learn their router and zone, tick by tick.
#![tactic(auto)]

mod choosing;
mod hearing;
mod learning;
mod live;
mod question;
mod requests;
mod silence;

pub use live::LiveNode;
