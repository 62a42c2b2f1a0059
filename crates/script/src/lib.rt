//! Scripts: the steps of a run, one step in each line.
#![tactic(auto)]

mod feed;
mod laws;
mod line;
mod name;
mod open_line;
mod reader;
mod reading;
mod request;
mod send;
mod step;
mod word;
mod words;

pub use feed::ScriptFeed;
pub use laws::scripts_have_no_bad_line;
pub use reading::read;
pub use step::Step;
