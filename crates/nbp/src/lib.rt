//! NBP, the names of services: packets, matching of names and patterns, the names registered on a
//! node, and a router's expansion of requests.
#![tactic(auto)]

mod expansion;
mod laws;
mod matching;
mod names;
mod packet;
mod tuple;

pub use expansion::{Ask, expand};
pub use laws::{
    functions_leave_the_key, requests_have_one_tuple, trailing_bytes_leave_the_key, written_is_read,
};
pub use matching::matches;
pub use names::{Named, Names};
pub use packet::{Function, Packet, Tuples, write};
pub use tuple::{Tuple, TupleView};
