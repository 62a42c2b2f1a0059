//! Datagrams that wait for a hardware address.

use at_base::{Addr, Bytes};

/// A datagram that waits until the hardware address of its next station is known.
#[derive(Debug, Drop)]
pub struct Held {
    /// The station that the datagram goes to next, on the port's cable.
    pub next: Addr,
    /// The number of requests for that address, 1 to 10. `Mapper::hold` sets it.
    pub asked: u8,
    /// The stamp under which the datagram's wait was recorded, if it was.
    pub stamp: Option<u32>,
    /// The datagram.
    pub bytes: Bytes,
}
