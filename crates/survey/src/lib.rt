//! A station that takes an address on a cable that it doesn't own, and asks: a survey of all that
//! routers hold, or one question.
#![tactic(auto)]

mod agenda;
mod answering;
mod asker;
mod few;
mod hearing;
mod hearing_agenda;
mod known;
mod laws;
mod question;
mod seat;
mod slots;
mod ticking;
mod writing;
mod zone_names;

pub use agenda::{Aim, First, Pattern, Place, Turn};
pub use asker::{Asker, Stage};
pub use known::{Ranged, Routered, Zoned};
pub use laws::unheard;
pub use question::{ASKING, Question, Sought, Wanted};
pub use seat::Seat;
pub use slots::{Open, Told};
pub use zone_names::{ZoneNames, zones_in};
