//! A router, or another station with ports on cables that it doesn't own, that runs over a capture: it
//! hears the frames of one that comes in pieces, and writes what it puts as another.
#![tactic(auto)]

mod cable;
mod called;
mod counting;
mod interfaces;
mod printing;
mod routing;
mod stream;
mod watch;

pub use cable::Cable;
pub use called::Called;
pub use routing::Routing;
pub use stream::Stream;
pub use watch::Watch;
