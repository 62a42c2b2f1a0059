//! The events of a run over frozen tables.
#![tactic(auto)]

mod event;

pub use event::Event;
