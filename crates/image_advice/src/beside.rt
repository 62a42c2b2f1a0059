//! Shows the parts of an image with which a place is compared.

use crate::item::{show_cable, show_mapping, show_no_zone, show_node, show_port, show_row};
use at_base::{Addr, Hw};
use std::io;
use table_image::{Image, Mapping, Node, Router, Row, ZoneList};

/// Shows the stations before a station that have its address or its hardware address: the ports
/// before port `until.1` of router `until.0`, and the first `nodes` nodes.
pub(crate) fn show_earlier_stations(
    rt: &impl Eprint,
    image: &Image,
    address: Addr,
    hardware: &Hw,
    until: (usize, usize),
    nodes: usize,
) -> io::Result<()> {
    for (index, router) in image.routers().iter().enumerate() {
        for (place, port) in router.ports.as_slice().iter().enumerate() {
            let is_earlier = index + 1 < until.0 || index + 1 == until.0 && place + 1 < until.1;
            if is_earlier && (port.address == address || port.hardware == *hardware) {
                show_port(rt, index + 1, place + 1, port)?;
            }
        }
    }
    for (index, node) in image.nodes().iter().take(nodes).enumerate() {
        if node.address == address || node.hardware == *hardware {
            show_node(rt, index + 1, node)?;
        }
    }
    Ok(())
}

/// Shows the cables that share a network with the row.
pub(crate) fn show_overlaps(rt: &impl Eprint, image: &Image, row: &Row) -> io::Result<()> {
    let mut found = false;
    for (index, cable) in image.cables().iter().enumerate() {
        if cable.start <= row.end && row.start <= cable.end {
            found = true;
            show_cable(rt, index + 1, cable)?;
        }
    }
    if found {
        return Ok(());
    }
    eprintln!(rt; "  no cable has a network of {}-{}", row.start, row.end)
}

/// Shows the cable of the row, and the router's port on it.
pub(crate) fn show_home(
    rt: &impl Eprint,
    image: &Image,
    router: &Router,
    r: usize,
    row: &Row,
) -> io::Result<()> {
    for (index, cable) in image.cables().iter().enumerate() {
        if cable.start != row.start {
            continue;
        }
        show_cable(rt, index + 1, cable)?;
        let mut found = false;
        for (place, port) in router.ports.as_slice().iter().enumerate() {
            if port.cable as usize == index {
                found = true;
                show_port(rt, r, place + 1, port)?;
            }
        }
        if !found {
            eprintln!(rt; "  router {r} has no port on this cable")?;
        }
    }
    Ok(())
}

/// Shows the ports that have the address of the row's next router.
pub(crate) fn show_next(rt: &impl Eprint, image: &Image, r: usize, row: &Row) -> io::Result<()> {
    let mut found = false;
    for (index, router) in image.routers().iter().enumerate() {
        for (place, port) in router.ports.as_slice().iter().enumerate() {
            if port.address == row.next {
                found = true;
                show_port(rt, index + 1, place + 1, port)?;
                if index + 1 == r {
                    eprintln!(rt; "  which is the same router")?;
                }
            }
        }
    }
    if found {
        return Ok(());
    }
    eprintln!(rt; "  no router has a port with the address {}", row.next)
}

/// Shows the row of the next router for the same range.
pub(crate) fn show_step(rt: &impl Eprint, image: &Image, row: &Row) -> io::Result<()> {
    for (index, router) in image.routers().iter().enumerate() {
        let mut ports = router.ports.as_slice().iter();
        if !ports.any(|port| port.address == row.next) {
            continue;
        }
        let mut found = false;
        for (place, other) in router.rows.as_slice().iter().enumerate() {
            if other.start == row.start && other.end == row.end {
                found = true;
                show_row(rt, index + 1, place + 1, other)?;
            }
        }
        if !found {
            eprintln!(rt; "  router {} has no row for this range", index + 1)?;
        }
    }
    Ok(())
}

/// Shows the cable with the zone list's range.
pub(crate) fn show_cable_of_list(
    rt: &impl Eprint,
    image: &Image,
    list: &ZoneList,
) -> io::Result<()> {
    for (index, cable) in image.cables().iter().enumerate() {
        if cable.start == list.start && cable.end == list.end {
            return show_cable(rt, index + 1, cable);
        }
    }
    eprintln!(rt; "  no cable has the range {}-{}", list.start, list.end)
}

/// Shows the stations that have the address of a node's router, if no router has a port with it on
/// the node's cable.
pub(crate) fn show_own_router(
    rt: &impl Eprint,
    image: &Image,
    cable: u8,
    address: Addr,
) -> io::Result<()> {
    for router in image.routers() {
        let mut ports = router.ports.as_slice().iter();
        if ports.any(|port| port.cable == cable && port.address == address) {
            return Ok(());
        }
    }
    let mut found = false;
    for (index, router) in image.routers().iter().enumerate() {
        for (place, port) in router.ports.as_slice().iter().enumerate() {
            if port.address == address {
                found = true;
                show_port(rt, index + 1, place + 1, port)?;
            }
        }
    }
    for (index, node) in image.nodes().iter().enumerate() {
        if node.address == address {
            found = true;
            show_node(rt, index + 1, node)?;
        }
    }
    if found {
        return Ok(());
    }
    eprintln!(rt; "  no router has a port with the address {address}")
}

/// Reports that the node's cable doesn't have the node's zone, if it doesn't.
pub(crate) fn show_own_zone(rt: &impl Eprint, image: &Image, node: &Node) -> io::Result<()> {
    let Some(cable) = image.cables().get(node.cable as usize) else {
        return Ok(());
    };
    let mut zones = cable.zones.as_slice().iter();
    if zones.any(|zone| node.zone.same(zone)) {
        return Ok(());
    }
    show_no_zone(rt, node.cable as usize + 1, &node.zone)
}

/// Whether a port has the mapping's addresses, and is on the cable.
fn has_port(image: &Image, cable: u8, mapping: &Mapping) -> bool {
    for router in image.routers() {
        let mut ports = router.ports.as_slice().iter();
        if ports.any(|port| {
            port.cable == cable
                && port.address == mapping.address
                && port.hardware == mapping.hardware
        }) {
            return true;
        }
    }
    false
}

/// Whether a node has the mapping's addresses, and is on the cable.
fn has_node(image: &Image, cable: u8, mapping: &Mapping) -> bool {
    image.nodes().iter().any(|node| {
        node.cable == cable && node.address == mapping.address && node.hardware == mapping.hardware
    })
}

/// Whether a port or a node has the address or the hardware address.
fn has_either(image: &Image, mapping: &Mapping) -> bool {
    for router in image.routers() {
        let mut ports = router.ports.as_slice().iter();
        if ports.any(|port| port.address == mapping.address || port.hardware == mapping.hardware) {
            return true;
        }
    }
    image.nodes().iter().any(|node| node.address == mapping.address
        || node.hardware == mapping.hardware)
}

/// Shows the first of the mappings that isn't of a station on the cable, and the stations that have
/// its address or its hardware address.
pub(crate) fn show_false_mapping(
    rt: &impl Eprint,
    image: &Image,
    cable: u8,
    mappings: &[Mapping],
) -> io::Result<()> {
    for mapping in mappings {
        if has_port(image, cable, mapping) || has_node(image, cable, mapping) {
            continue;
        }
        show_mapping(rt, mapping)?;
        if !has_either(image, mapping) {
            return eprintln!(rt; "  no station has either of these");
        }
        let until = (image.routers().len() + 1, 1);
        let nodes = image.nodes().len();
        return show_earlier_stations(rt, image, mapping.address, &mapping.hardware, until, nodes);
    }
    Ok(())
}
