//! Runs over the frozen tables of an internet that passes the audit.
#![tactic(auto)]

mod frozen;
mod laws;
mod order;
mod orders;
mod steps;

pub use events::Event;
pub use frozen::Frozen;
pub use laws::{
    every_datagram_is_heard, promises_hold, promises_hold_with_resolution,
    the_conditions_can_be_met, the_examples_of_conditions, the_headline, what_a_yes_promises,
    what_a_yes_promises_with_resolution,
};
