//! The example of the README of `cabled`.

use at_base::{Addr, Error, Hw, Name, Range};
use cabled::{CabledRouter, Peers, Puts};
use rtmp::Routes;
use station::PortPlan;
use std::alloc::Global;
use zip_zones::ZoneTable;

/// How many packets a router with one port, on the cable 10-19, puts in its first 71 ticks, if
/// nobody else is there.
fn put_alone(alloc: Global, peers: Peers) -> Result<usize, Error> {
    let range = Range::new(10, 19)?;
    let plan = PortPlan {
        range,
        hw: Hw([2, 0, 0, 0, 0, 1]),
        tries: &[Addr { net: 10, node: 1 }],
        own: None,
    };
    let mut zones = ZoneTable::new(alloc)?;
    zones.set(range, &[Name::new(b"Red")?])?;
    let mut router = CabledRouter::<Routes>::new(alloc, &[plan], zones, peers)?;
    let mut puts = Puts::new(alloc);
    for _tick in 0..71 {
        router.tick(&mut puts)?;
    }
    Ok(puts.as_slice().len())
}

/// Whether a router of a play probes and sends routing data, and one on a real cable listens first.
pub(super) fn a_router_probes(alloc: Global) -> Result<bool, Error> {
    Ok(put_alone(alloc, Peers::Played)? == 11 && put_alone(alloc, Peers::Real)? == 10)
}
