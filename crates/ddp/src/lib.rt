//! Datagrams: a reader that borrows, a writer, the checksum and the hop count.
#![tactic(auto)]

mod header;
mod hops;
mod laws;
mod view;
mod writer;

pub use header::{HEADER_LEN, Header, MAX_LEN, kind, socket};
pub use hops::set_hops;
pub use laws::{
    hops_leave_the_body, padding_leaves_the_body, set_hops_are_read, set_hops_are_spelled,
    value_agrees_with_bytes, written_has_no_hops, written_is_read,
};
pub use view::View;
pub use writer::write;
