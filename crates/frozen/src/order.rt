//! A datagram that an event makes a node send.

use ddp::Header;
use station::Next;

/// A datagram that a node is to put on its cable, without its data.
#[derive(Clone, Copy, Debug)]
pub struct Order {
    /// The node's station number.
    pub station: u16,
    /// The node's cable.
    pub cable: u8,
    /// The next receiver of the datagram.
    pub next: Next,
    /// The datagram's header.
    pub header: Header,
}
