//! Laws: a legal transcript allows everything that the stations of an internet that passes the
//! audit do.
#![tactic(auto)]

mod requests;
mod takes;

pub use requests::{
    agreement_excludes, broadcast_requests_expand, forward_requests_are_looked_up, hands_agree,
    legs_are_of_made_datagrams,
};
pub use takes::{nodes_takes_are_legal, routers_takes_are_legal, sendings_are_legal};
