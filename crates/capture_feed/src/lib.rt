//! Captures that come in pieces, block by block: in the pcapng format, and classic ones.
#![tactic(auto)]

mod clock;
mod feed;
mod kept;
mod laws;
mod listener;
mod passing;
mod reading;
mod taking;

pub use clock::Clock;
pub use feed::Feed;
pub use laws::first_block_comes;
pub use listener::Listen;
pub use passing::{Last, Passing};

// Types of the arguments and the results.
pub use at_base::Error;
pub use pcapng::{Block, Fault, Forms};
