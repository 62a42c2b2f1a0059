//! The logs in which questions are looked for.

use cable_model::Entry;
use frozen::Frozen;
use rtmp::{RouteTable, Routes};
use world::World;

/// What happened among stations, in order.
pub(crate) trait Log {
    /// The entries of the transcript.
    fn entries(&self) -> &[Entry];

    /// The datagram with a number that entries name.
    fn datagram(&self, number: u32) -> &[u8];
}

impl<T: RouteTable> Log for Frozen<T> {
    fn entries(&self) -> &[Entry] {
        self.transcript()
    }

    fn datagram(&self, number: u32) -> &[u8] {
        self.bytes(number)
    }
}

impl Log for World<Routes> {
    fn entries(&self) -> &[Entry] {
        self.transcript()
    }

    fn datagram(&self, number: u32) -> &[u8] {
        self.bytes(number)
    }
}
