//! Where a router sends datagrams for a network.

use at_base::Addr;

/// Where a router sends datagrams for a network. Ports are counted from 0.
///
/// Inside AppleTalk, the chapters on DDP and RTMP.
#[derive(Clone, Copy, Debug, PartialEq, Eq)]
pub enum Hand {
    /// To their target: this port is on the network's own cable.
    Here(u8),
    /// On this port, to the router with this address.
    On(u8, Addr),
    /// Nowhere: the router has no usable row for the network.
    Nowhere,
}
