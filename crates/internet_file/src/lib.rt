//! Internet files, in TOML: a network, and what happens in it in each tick.
#![tactic(auto)]

mod action;
mod cable;
mod loss;
mod names;
mod node;
mod parts;
mod plan;
mod port;
mod reading;
mod router;
mod service;
mod top;

pub use action::{Action, Do};
pub use cable::Cable;
pub use loss::Loss;
pub use node::Node;
pub use plan::Plan;
pub use port::Port;
pub use reading::read;
pub use router::Router;
