//! Prints the parts of an image, each as a line, with ranges, addresses and zones as people write
//! them.

use at_base::{Hw, Name};
use std::io;
use table_image::{Cable, Mapping, Node, Port, Row, ZoneList};

/// The part with this number, counted from 1.
pub(crate) fn at<T>(parts: &[T], number: u32) -> Option<&T> {
    match number.checked_sub(1) {
        Some(index) => parts.get(index as usize),
        None => None,
    }
}

fn show_zone(rt: &impl Eprint, zone: &Name) -> io::Result<()> {
    match std::str::from_utf8(zone.as_slice()) {
        Ok(text) => eprint!(rt; " {text:?}"),
        Err(_) => eprint!(rt; " ?"),
    }
}

fn show_zones(rt: &impl Eprint, zones: &[Name]) -> io::Result<()> {
    for zone in zones {
        show_zone(rt, zone)?;
    }
    eprintln!(rt; "")
}

/// Prints a cable: its range and its zones.
pub(crate) fn show_cable(rt: &impl Eprint, number: usize, cable: &Cable) -> io::Result<()> {
    eprint!(rt; "  cable {number}: {}-{}, zones", cable.start, cable.end)?;
    show_zones(rt, cable.zones.as_slice())
}

fn show_hardware(rt: &impl Eprint, hardware: &Hw) -> io::Result<()> {
    eprint!(rt; ", hardware address")?;
    for (index, byte) in hardware.as_slice().iter().enumerate() {
        let mark = if index == 0 { ' ' } else { ':' };
        eprint!(rt; "{mark}{byte:02X}")?;
    }
    eprintln!(rt; "")
}

/// Prints a port: its address, its cable and its hardware address.
pub(crate) fn show_port(
    rt: &impl Eprint,
    router: usize,
    number: usize,
    port: &Port,
) -> io::Result<()> {
    let cable = u32::from(port.cable) + 1;
    eprint!(rt;
        "  router {router} port {number}: {} on cable {cable}",
        port.address
    )?;
    show_hardware(rt, &port.hardware)
}

/// Prints a node: its address, its cable and its hardware address.
pub(crate) fn show_node(rt: &impl Eprint, number: usize, node: &Node) -> io::Result<()> {
    let cable = u32::from(node.cable) + 1;
    eprint!(rt; "  node {number}: {} on cable {cable}", node.address)?;
    show_hardware(rt, &node.hardware)
}

/// Prints a mapping: its address and its hardware address.
pub(crate) fn show_mapping(rt: &impl Eprint, mapping: &Mapping) -> io::Result<()> {
    eprint!(rt; "  mapping of {}", mapping.address)?;
    show_hardware(rt, &mapping.hardware)
}

/// Prints a node with its address, its cable, its zone and its router.
pub(crate) fn show_service(rt: &impl Eprint, number: usize, node: &Node) -> io::Result<()> {
    let cable = u32::from(node.cable) + 1;
    eprint!(rt; "  node {number}: {} on cable {cable}, zone", node.address)?;
    show_zone(rt, &node.zone)?;
    match node.router {
        Some(router) => eprintln!(rt; ", router {router}"),
        None => eprintln!(rt; ", no router"),
    }
}

/// Prints that a cable doesn't have the zone.
pub(crate) fn show_no_zone(rt: &impl Eprint, number: usize, zone: &Name) -> io::Result<()> {
    eprint!(rt; "  cable {number} has no zone")?;
    show_zone(rt, zone)?;
    eprintln!(rt; "")
}

/// Prints a zone list: its range and its zones.
pub(crate) fn show_list(
    rt: &impl Eprint,
    router: usize,
    number: usize,
    list: &ZoneList,
) -> io::Result<()> {
    let state = if list.complete {
        "complete"
    } else {
        "not complete"
    };
    eprint!(rt;
        "  router {router} list {number}: {}-{}, {state}, zones",
        list.start, list.end
    )?;
    show_zones(rt, list.zones.as_slice())
}

/// Prints a row of a routing table.
pub(crate) fn show_row(
    rt: &impl Eprint,
    router: usize,
    number: usize,
    row: &Row,
) -> io::Result<()> {
    let port = u32::from(row.port) + 1;
    eprint!(rt;
        "  router {router} row {number}: {}-{}, distance {}, port {port}, ",
        row.start, row.end, row.distance
    )?;
    if row.next.is_none() {
        eprintln!(rt; "direct, {:?}", row.state)
    } else {
        eprintln!(rt; "next router {}, {:?}", row.next, row.state)
    }
}
