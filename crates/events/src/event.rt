//! The events of a run.

use at_base::{Addr, Bytes};
use nbp::Tuple;

/// An event: a node sends a datagram or a request, or a station takes a frame.
#[derive(Debug, Drop)]
pub enum Event {
    /// The node with this address sends a datagram.
    Send {
        node: Addr,
        /// The address of the router on its cable that the datagram goes to; `None` for the node's
        /// own router.
        via: Option<Addr>,
        target: Addr,
        target_socket: u8,
        source_socket: u8,
        /// The DDP type of the datagram.
        kind: u8,
        /// Whether the datagram has a checksum.
        summed: bool,
        payload: Bytes,
    },
    /// The node with this address asks a router for names: it sends a broadcast request.
    Request {
        node: Addr,
        /// The address of the router on its cable that it asks; `None` for the node's own router.
        via: Option<Addr>,
        id: u8,
        /// The name that it asks for: only the object, the type and the zone are used.
        name: Tuple,
    },
    /// The station with this address takes the frame with this stamp.
    Take {
        stamp: u32,
        station: Addr,
    },
}
