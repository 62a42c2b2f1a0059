//! The replies that were received in a run or in a play.

use crate::deliveries::Deliveries;
use crate::play::gather_world;
use crate::run::gather_run;
use crate::sentence::write_delivery;
use frozen::Frozen;
use rtmp::{RouteTable, Routes};
use std::alloc::Global;
use std::io;
use std::io::Write;
use world::World;

/// The replies that were received in a run or in a play: the first 100, and the number of the
/// others.
#[derive(Drop)]
pub struct Replies {
    deliveries: Deliveries,
}

impl Replies {
    /// Those that the stations of a run received, in the order in which they took them. If memory
    /// runs out, those before.
    pub fn of_run<T: RouteTable>(alloc: Global, run: &Frozen<T>) -> Replies {
        let mut deliveries = Deliveries::new(alloc);
        let _ = gather_run(alloc, &mut deliveries, run);
        Replies { deliveries }
    }

    /// Those among the last 64 datagrams of each node of a play, node by node, the oldest first. If
    /// memory runs out, those before.
    pub fn of_world(alloc: Global, world: &World<Routes>) -> Replies {
        let mut deliveries = Deliveries::new(alloc);
        let _ = gather_world(alloc, &mut deliveries, world);
        Replies { deliveries }
    }

    /// Writes a line for each reply, in the order in which they were received, at most 100, and then
    /// how many more there are. The reply to a lookup has a line for each name. It writes in small
    /// pieces, so the writer is best a buffered one.
    pub fn write<W: Write>(&self, writer: &mut W) -> io::Result<()> {
        for delivery in self.deliveries.first() {
            write_delivery(writer, delivery)?;
        }
        match self.deliveries.more() {
            0 => Ok(()),
            1 => writeln!(writer, "and 1 more reply"),
            more => writeln!(writer, "and {more} more replies"),
        }
    }
}
