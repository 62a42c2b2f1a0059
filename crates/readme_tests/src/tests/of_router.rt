//! The example of the README of `router`.

use at_base::{Addr, Error, Hw, Range};
use router::{Hand, Router};
use rtmp::{RouteTable, Routes};
use station::PortPlan;
use std::alloc::Global;
use zip_zones::ZoneTable;

/// What a router with one port, on the cable 10-19, does with datagrams for a network.
fn handed(alloc: Global, net: u16) -> Result<Hand, Error> {
    let range = Range::new(10, 19)?;
    let plan = PortPlan {
        range,
        hw: Hw([2, 0, 0, 0, 0, 1]),
        tries: &[],
        own: Some(Addr { net: 10, node: 1 }),
    };
    let mut routes = Routes::empty(alloc)?;
    routes.direct(range, 0)?;
    let router = Router::new(alloc, &[plan], routes, ZoneTable::new(alloc)?)?;
    Ok(router.hand(net))
}

/// Whether a datagram for the router's cable goes out there, and one for another network nowhere.
pub(super) fn a_router_hands_on(alloc: Global) -> Result<bool, Error> {
    Ok(handed(alloc, 12)? == Hand::Here(0) && handed(alloc, 30)? == Hand::Nowhere)
}
