//! Captures of transcripts: each frame that was put on a cable, as a packet that Wireshark reads.
#![tactic(auto)]

mod capture;
mod head;
mod losses;
mod packets;
mod said;
mod ticks;

pub use capture::{capture_play, capture_run};
pub use head::Extent;
pub use said::Said;
