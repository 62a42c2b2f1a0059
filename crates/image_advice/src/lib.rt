//! Explains an audit or an invalid image to a person at a terminal: of a no the rule that is broken,
//! the place that breaks it, the parts with which it was compared, and what to change; of a yes what
//! it doesn't cover, and why its tables may still change. It writes only to standard error, and
//! promises only to return.
#![tactic(auto)]

mod beside;
mod fault;
mod finding;
mod item;
mod joined;
mod no;
mod place;
mod rule;
mod stations;
mod unsettled;
mod yes;

pub use fault::{explain_flaw, explain_kind};
pub use no::explain_no;
pub use unsettled::write_unsettled;
pub use yes::write_yes;
