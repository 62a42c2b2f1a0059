//! End nodes: the datagrams that a node sends, answers and receives.
#![tactic(auto)]

mod asking;
mod hearing;
mod laws;
mod lists;
mod lookups;
mod node;
mod receive;
mod repeats;
mod sending;
mod setters;
mod ways;

pub use laws::node_stays;
pub use node::{Datagram, EndNode, MAX_RECEIVED};
