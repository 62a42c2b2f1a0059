//! AARP: the choice of a port's address, and the mapping of addresses to hardware addresses.
#![tactic(auto)]

mod addresses;
mod chooser;
mod held;
mod laws;
mod listing;
mod mapper;
mod packet;
mod waiting;

pub use addresses::Addresses;
pub use chooser::{Care, Chooser, are_on};
pub use held::Held;
pub use laws::{by_address_is_the_same, written_is_read};
pub use mapper::Mapper;
pub use packet::{Function, PACKET_LEN, Packet};
pub use waiting::Asks;
