//! NBP requests that a router received.

use nbp::Tuple;

/// An NBP request: whether its datagram carried a checksum, its ID, and its first tuple.
#[derive(Clone, Copy, Debug)]
pub struct Request {
    pub summed: bool,
    pub id: u8,
    pub tuple: Tuple,
}
