//! The example of the README of `learning`.

use at_base::{Error, Range};
use learning::{Query, forget, learn_routes, queries};
use rtmp::{DataPacket, Nonextended, RouteTable, Routes};
use std::alloc::Global;
use zip_zones::ZoneTable;

/// What a router with a port on 10-19 asks for, after router 10.2 has said there that 20-29 is its
/// other cable.
fn asked(alloc: Global, packet: &DataPacket<'_>) -> Result<Vec<Query>, Error> {
    let cable = Range::new(10, 19)?;
    let mut routes = Routes::empty(alloc)?;
    routes.direct(cable, 0)?;
    let mut zones = ZoneTable::new(alloc)?;
    learn_routes(&mut routes, cable, 0, packet, Nonextended::Skipped)?;
    forget(&mut routes, &mut zones);
    queries(alloc, &routes, &zones)
}

/// Routing data of router 10.2: its range 10-19, and 20-29 at distance 0.
const SAID: [u8; 16] = [
    0, 10, 8, 2, 0, 10, 0x80, 0, 19, 0x82, 0, 20, 0x80, 0, 29, 0x82,
];

/// Whether 10.2 is asked for the list of 20-29.
pub(super) fn a_router_asks_its_neighbour(alloc: Global) -> Result<bool, Error> {
    let packet = DataPacket::read(&SAID)?;
    let query = Query {
        port: 0,
        next: at_base::Addr { net: 10, node: 2 },
        start: 20,
    };
    Ok(asked(alloc, &packet)?.as_slice() == [query].as_slice())
}
