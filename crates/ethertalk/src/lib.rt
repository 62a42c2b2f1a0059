//! Frames of EtherTalk: datagrams and AARP packets on an Ethernet, read in place and written.
#![tactic(auto)]

mod fault;
mod frame;
mod laws;
mod reading;
mod target;
mod writing;

pub use fault::Fault;
pub use frame::{Frame, HEADERS_LEN, MAX_BYTES};
pub use laws::written_is_read;
pub use target::link_for;
pub use writing::put_frame;
