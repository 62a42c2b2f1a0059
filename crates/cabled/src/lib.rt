//! Routers with their ports on cables that they don't own: what they put for each frame that they
//! hear, and in each tick; and what any such station has in common with them.
#![tactic(auto)]

mod acting;
mod asked;
mod cabled_router;
mod dressing;
mod hearing;
mod peers;
mod put;
mod puts;
mod ticking;
mod told;

pub use acting::Cabled;
pub use cabled_router::{CabledRouter, heard_at};
pub use dressing::send;
pub use peers::Peers;
pub use put::{Carried, Put};
pub use puts::Puts;
pub use ticking::ask_each;
pub use told::{hear_question, hear_response};
