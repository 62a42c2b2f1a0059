//! What a station that asks was told, line by line. It promises only to return.
#![tactic(auto)]

mod answers;
mod heard;
mod line;
mod log;
mod objects;
mod seen;
mod shown;
mod words;

pub use answers::{Answers, Style};
pub use log::Log;
