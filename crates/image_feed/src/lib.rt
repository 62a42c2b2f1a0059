//! Images that come in pieces: each part is read as soon as its bytes are there, and they are not
//! kept.
#![tactic(auto)]

mod cable;
mod count;
mod cut;
mod feed;
mod front;
mod growth;
mod head;
mod heading;
mod lists;
mod mappings;
mod names;
mod node;
mod port;
mod router;
mod several;
mod stop;
mod tables;
mod whole;

pub use feed::{Feed, MAX_PIECE};
pub use whole::read;
