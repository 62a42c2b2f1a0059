//! Laws: what the stations of an internet that passes the audit do over live cables is a legal
//! transcript with resolution.
#![tactic(auto)]

mod laws;

pub use laws::{fresh_cables_keep, nodes_takes_resolve, routers_takes_resolve, sendings_resolve};
