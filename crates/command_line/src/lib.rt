//! The command line of `atalk`: the job that its arguments ask for, and the exit status of each
//! result.
#![tactic(auto)]

mod arguments;
mod exit;
mod exit_status;
mod help;
mod syntax;

pub use arguments::{Job, Request, Route, Source, Station, read_arguments};
pub use exit::{Exit, Outcome, exit_of};
pub use exit_status::status;
