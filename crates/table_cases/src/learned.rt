//! A router's learning and aging of its tables.

use crate::routes::nonextended;
use case_words::{Answer, Stop, Words};
use learning::{Query, forget, learn_routes, learn_zones, queries};
use rtmp::{DataPacket, RouteTable};
use std::alloc::{AllocError, Global};
use zip_zones::{Packet, ZoneTable};

/// Learns from routing data that was received on a port.
fn hear_routes<T: RouteTable>(alloc: Global, routes: &mut T, mut words: Words<'_>) -> Answer {
    let port = words.named("port")?;
    words.expect("on")?;
    let range = words.range()?;
    let nonextended = nonextended(&mut words);
    let bytes = words.bytes(alloc)?;
    let packet = DataPacket::read(bytes.as_slice())?;
    learn_routes(routes, range, port, &packet, nonextended)?;
    Ok(())
}

/// Learns from a ZIP packet.
fn hear_zones<T: RouteTable>(
    alloc: Global,
    routes: &T,
    zones: &mut ZoneTable,
    mut words: Words<'_>,
) -> Answer {
    let bytes = words.bytes(alloc)?;
    learn_zones(zones, routes, Packet::read(bytes.as_slice())?)?;
    Ok(())
}

fn put_query(text: &mut String, query: &Query) -> Result<(), AllocError> {
    let (start, next, port) = (query.start, query.next, query.port);
    writeln!(text, "{start} from {next} by port {port}")
}

/// Appends the router's queries: for which networks, and to whom.
fn put_queries<T: RouteTable>(
    alloc: Global,
    routes: &T,
    zones: &ZoneTable,
    text: &mut String,
) -> Answer {
    let queries = queries(alloc, routes, zones)?;
    if queries.is_empty() {
        writeln!(text, "none")?;
    }
    for query in queries.iter() {
        put_query(text, query)?;
    }
    Ok(())
}

/// Carries out a command that changes or reads both tables.
pub(crate) fn act<T: RouteTable>(
    alloc: Global,
    routes: &mut T,
    zones: &mut ZoneTable,
    mut words: Words<'_>,
    text: &mut String,
) -> Answer {
    match words.word() {
        "routes" => hear_routes(alloc, routes, words),
        "zones" => hear_zones(alloc, routes, zones, words),
        "forget" => {
            forget(routes, zones);
            Ok(())
        }
        "queries" => put_queries(alloc, routes, zones, text),
        _ => Err(Stop::Unclear),
    }
}
