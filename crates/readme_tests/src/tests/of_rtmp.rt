//! The example of the README of `rtmp`.

use at_base::{Addr, Error, Range};
use rtmp::{PlainTable, RouteTable};
use std::alloc::Global;

/// The port and the next router on the way to a network, at a router between the cables 10-19 and
/// 20-29 that has heard of 30-39 from 20.2.
fn way_to(alloc: Global, net: u16) -> Result<Option<(u8, Addr)>, Error> {
    let mut table = PlainTable::empty(alloc)?;
    table.direct(Range::new(10, 19)?, 0)?;
    table.direct(Range::new(20, 29)?, 1)?;
    table.hear(Range::new(30, 39)?, 0, Addr { net: 20, node: 2 }, 1)?;
    Ok(table.row_for(net).map(|row| (row.port, row.next)))
}

/// Whether there are ways to the network that was heard of and to the router's own, and none to
/// another.
pub(super) fn the_way_is_found(alloc: Global) -> Result<bool, Error> {
    let far = way_to(alloc, 35)? == Some((1, Addr { net: 20, node: 2 }));
    let near = way_to(alloc, 15)? == Some((0, Addr::NONE));
    Ok(far && near && way_to(alloc, 40)?.is_none())
}
