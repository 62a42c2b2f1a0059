//! The readers of parts and of their fields, for images that come in pieces.

pub use crate::context::Context;
pub use crate::count::CountSize;
pub use crate::flaw::Fault;
pub use crate::input::{
    address_at, byte_within, count_within, hardware_at, index_at, magic_at, name_at, rising_at,
    u16_at, wrong,
};
pub use crate::item::{FlatItem, Item};
pub use crate::node::own_router_at;
pub use crate::passing::look_through;
