//! Live routers: they choose their addresses, and learn and age their tables, tick by tick.
#![tactic(auto)]

mod addresses;
mod asked;
mod joined;
mod live;
mod passing;
mod received;
mod sent;
mod tables;
mod taught;

pub use live::LiveRouter;
