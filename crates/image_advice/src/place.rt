//! Shows the place that breaks a rule, and the parts with which it was compared.

use crate::beside::{
    show_cable_of_list, show_earlier_stations, show_false_mapping, show_home, show_next,
    show_overlaps, show_own_router, show_own_zone, show_step,
};
use crate::item::{at, show_cable, show_list, show_node, show_port, show_row, show_service};
use at_base::Place;
use std::io;
use table_image::{Image, Node, Row};

/// Shows the place, and the parts with which it was compared.
pub(crate) fn explain_place(
    rt: &impl Eprint,
    image: &Image,
    rule: u8,
    place: Place,
) -> io::Result<()> {
    match place {
        Place::Cable(k) => {
            show_cable_of(rt, image, k.saturating_sub(1))?;
            show_cable_of(rt, image, k)
        }
        Place::Port(r, p) => explain_port(rt, image, rule, r, p),
        Place::Node(k) => explain_node(rt, image, rule, k),
        Place::Row(r, k) => explain_row(rt, image, rule, r, k),
        Place::Missing(r, k) => {
            let missing = if rule == 8 { "zone list" } else { "row" };
            eprintln!(rt; "  router {r} has no {missing} for")?;
            show_cable_of(rt, image, k)
        }
        Place::List(r, k) => explain_list(rt, image, r, k),
    }
}

/// Shows the cable with this number, counted from 1, if there is one.
fn show_cable_of(rt: &impl Eprint, image: &Image, number: u32) -> io::Result<()> {
    match at(image.cables(), number) {
        Some(cable) => show_cable(rt, number as usize, cable),
        None => Ok(()),
    }
}

fn explain_port(rt: &impl Eprint, image: &Image, rule: u8, r: u32, p: u32) -> io::Result<()> {
    let Some(router) = at(image.routers(), r) else {
        return Ok(());
    };
    let Some(port) = at(router.ports.as_slice(), p) else {
        return Ok(());
    };
    show_port(rt, r as usize, p as usize, port)?;
    show_cable_of(rt, image, u32::from(port.cable).saturating_add(1))?;
    if rule == 10 {
        return show_false_mapping(rt, image, port.cable, port.mappings.as_slice());
    }
    let earlier = (p as usize).saturating_sub(1);
    for (index, other) in router.ports.as_slice().iter().take(earlier).enumerate() {
        if other.cable == port.cable {
            show_port(rt, r as usize, index + 1, other)?;
        }
    }
    let until = (r as usize, p as usize);
    show_earlier_stations(rt, image, port.address, &port.hardware, until, 0)
}

fn explain_node(rt: &impl Eprint, image: &Image, rule: u8, k: u32) -> io::Result<()> {
    let Some(node) = at(image.nodes(), k) else {
        return Ok(());
    };
    if rule == 9 {
        return explain_service(rt, image, k, node);
    }
    show_node(rt, k as usize, node)?;
    show_cable_of(rt, image, u32::from(node.cable) + 1)?;
    if rule == 10 {
        return show_false_mapping(rt, image, node.cable, node.mappings.as_slice());
    }
    let until = (image.routers().len() + 1, 1);
    let nodes = (k as usize).saturating_sub(1);
    show_earlier_stations(rt, image, node.address, &node.hardware, until, nodes)
}

/// Shows a node with a wrong router or zone: its cable, the stations that have its router's
/// address, and its zone.
fn explain_service(rt: &impl Eprint, image: &Image, k: u32, node: &Node) -> io::Result<()> {
    show_service(rt, k as usize, node)?;
    show_cable_of(rt, image, u32::from(node.cable) + 1)?;
    if let Some(address) = node.router {
        show_own_router(rt, image, node.cable, address)?;
    }
    show_own_zone(rt, image, node)
}

fn explain_row(rt: &impl Eprint, image: &Image, rule: u8, r: u32, k: u32) -> io::Result<()> {
    let Some(router) = at(image.routers(), r) else {
        return Ok(());
    };
    let Some(row) = at(router.rows.as_slice(), k) else {
        return Ok(());
    };
    show_row(rt, r as usize, k as usize, row)?;
    match rule {
        3 => show_overlaps(rt, image, row),
        4 => show_home(rt, image, router, r as usize, row),
        6 => {
            show_cable_of_port(rt, image, router.ports.as_slice(), row)?;
            show_next(rt, image, r as usize, row)
        }
        7 => show_step(rt, image, row),
        _ => Ok(()),
    }
}

fn explain_list(rt: &impl Eprint, image: &Image, r: u32, k: u32) -> io::Result<()> {
    let Some(router) = at(image.routers(), r) else {
        return Ok(());
    };
    let Some(list) = at(router.lists.as_slice(), k) else {
        return Ok(());
    };
    show_list(rt, r as usize, k as usize, list)?;
    show_cable_of_list(rt, image, list)
}

/// Shows the cable of the row's port.
fn show_cable_of_port(
    rt: &impl Eprint,
    image: &Image,
    ports: &[table_image::Port],
    row: &Row,
) -> io::Result<()> {
    match ports.get(row.port as usize) {
        Some(port) => show_cable_of(rt, image, u32::from(port.cable).saturating_add(1)),
        None => Ok(()),
    }
}
