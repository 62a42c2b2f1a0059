//! Routers: where they forward datagrams, and which requests they answer.
#![tactic(auto)]

mod arp;
mod course;
mod hand;
mod handled;
mod hearing;
mod laws;
mod learnt;
mod lists;
mod names;
mod receive;
mod request;
mod router;
mod setters;
mod step;
mod ways;
mod zones;

pub use course::{Course, Ending, Step};
pub use hand::Hand;
pub use laws::{forwarding_keeps_the_body, tables_stay};
pub use receive::Reaction;
pub use router::{Router, own_at};
