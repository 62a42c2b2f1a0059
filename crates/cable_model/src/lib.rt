//! Cables and what happens on them: which stations receive a frame, and which frames are pending.
#![tactic(auto)]

mod cables;
mod due;
mod earliest;
mod ending;
mod entry;
mod hearing;
mod held;
mod holding;
mod kept;
mod laws;
mod leaving;
mod log;
mod outcome;
mod outlet;
mod pendings;
mod putting;
mod resolve;
mod room;
mod route;
mod seat;
mod seating;
mod seats;
mod taking;
mod waiting;

pub use cables::{Cables, MAX_FRAME};
pub use entry::{Entry, How};
pub use kept::PACKET_LEN;
pub use laws::{held_rooms_are_enough, known_rooms_are_enough, taking_ends_one_pair};
pub use resolve::{Found, HeldBy, Resolve};
pub use room::{Room, Rooms};
pub use seat::Seat;
pub use seats::Seats;
pub use station::{DropCause, Kind};
pub use taking::PendingFrame;
