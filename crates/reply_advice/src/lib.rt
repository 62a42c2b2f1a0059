//! Explains to a person what the replies say that stations received, names that were found, stations
//! that answer an echo, and zone lists; and which questions got no reply, and why, where the tables
//! tell it. It looks through a run over frozen tables or the world of a play, and promises only to
//! return.
#![tactic(auto)]

mod answers;
mod deliveries;
mod frames;
mod gathering;
mod line;
mod log;
mod nearest;
mod open_questions;
mod play;
mod question;
mod reason;
mod replies;
mod reply;
mod run;
mod said;
mod sentence;
mod shown;
mod stations;
mod told;

pub use replies::Replies;
pub use told::Unanswered;
