//! The blocks of a capture file: in the pcapng format, which is printed and read, and in the classic
//! one, which is read.
#![tactic(auto)]

mod block;
mod blocks;
mod classic;
mod fault;
mod fields;
mod form;
mod head;
mod interface;
mod item;
mod laws;
mod names;
mod options;
mod order;
mod packet;
mod printing;
mod reading_laws;
mod section;
mod times;

pub use block::{Block, Seen};
pub use fault::Fault;
pub use form::{Began, Forms};
pub use head::{HEAD_LEN, Head, MAX_BLOCK};
pub use interface::{Interface, MAX_INTERFACES};
pub use item::{Fraction, Item};
pub use laws::{interface_is_read, packet_is_read, section_is_read};
pub use options::Described;
pub use order::Order;
pub use packet::{Packet, recall_fits};
pub use printing::{print_heartbeat, print_interface, print_packet, print_section};
pub use reading_laws::{
    header_is_opened, heartbeat_is_heard, interface_is_described, packet_is_seen, record_is_seen,
    section_begins,
};
pub use section::Section;
