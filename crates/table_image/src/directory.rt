//! The stations of each cable, to be found by an address or by a hardware address.

ghost use Rattle.std.specs.Prelude.{◌≡◌, ◌≤◌, ◌-◌, ◌∷◌, ◌++◌, [], ℕ, find, length, map};
ghost use Rattle.std.specs.Prelude.{IfOk, OnOk};
ghost use Rattle.table_image.specs.Directory.{byte_cables, directory, has_address, has_hardware};
ghost use Rattle.table_image.specs.Directory.{on_cable as places_of_cable, places_from, places_on};
ghost use Rattle.table_image.specs.Seats.{node_seats, port_seat, router_seats, seats};

use crate::image::Image;
use crate::listed::Listed;
use crate::node::Node;
use crate::port::Port;
use crate::router::Router;
use at_base::{Addr, Hw};
use std::alloc::{AllocError, Global};
use std::marker::Model;

/// The number of cables that a byte can name.
const CABLES: usize = 256;

/// A station's addresses on a cable.
#[derive(Clone, Copy, Debug, PartialEq, Eq)]
pub struct Place {
    /// The address.
    pub address: Addr,
    /// The hardware address.
    pub hardware: Hw,
}

/// Whether the place has the address.
fn is_at(place: &Place, addr: Addr) -> bool
    ensures { result ≡ has_address addr place.now }
{
    place.address.net == addr.net && place.address.node == addr.node
}

/// Whether the place has the hardware address.
fn is_of(place: &Place, hw: &Hw) -> bool
    ensures { result ≡ has_hardware hw.now place.now }
{
    place.hardware.same(hw)
}

/// The first of these places that has the address.
fn with_address(places: &[Place], addr: Addr) -> Option<Place>
    ensures { result ≡ find (has_address addr) places.now }
{
    for place in places {
        if is_at(place, addr) {
            return Some(*place);
        }
    }
    None
}

/// The first of these places that has the hardware address.
fn with_hardware(places: &[Place], hw: &Hw) -> Option<Place>
    ensures { result ≡ find (has_hardware hw.now) places.now }
{
    for place in places {
        if is_of(place, hw) {
            return Some(*place);
        }
    }
    None
}

/// Appends the places of a router's ports that are on the cable.
fn put_ports(row: &mut Vec<Place>, ports: &[Port], cable: u8) -> Result<(), AllocError>
    ensures { OnOk result ((router : ℕ) → row.new.items
        ≡ row.old.items ++ places_on cable (map (port_seat router) ports.now)) }
{
    match ports {
        [] => Ok(()),
        [port, rest @ ..] => {
            if port.cable == cable {
                row.push(Place {
                    address: port.address,
                    hardware: port.hardware,
                })?;
            }
            put_ports(row, rest, cable)
        }
    }
}

/// Appends the places of routers on the cable.
fn put_routers(row: &mut Vec<Place>, routers: &[Router], cable: u8) -> Result<(), AllocError>
    ensures { OnOk result ((from : ℕ) → row.new.items
        ≡ row.old.items ++ places_on cable (router_seats from routers.now)) }
{
    match routers {
        [] => Ok(()),
        [router, rest @ ..] => {
            put_ports(row, router.ports.as_slice(), cable)?;
            put_routers(row, rest, cable)
        }
    }
}

/// Appends the places of those nodes that are on the cable.
fn put_nodes(row: &mut Vec<Place>, nodes: &[Node], cable: u8) -> Result<(), AllocError>
    ensures { OnOk result ((from : ℕ) → row.new.items
        ≡ row.old.items ++ places_on cable (node_seats from nodes.now)) }
{
    match nodes {
        [] => Ok(()),
        [node, rest @ ..] => {
            if node.cable == cable {
                row.push(Place {
                    address: node.address,
                    hardware: node.hardware,
                })?;
            }
            put_nodes(row, rest, cable)
        }
    }
}

/// The places on a cable.
fn row_of(alloc: Global, image: &Image, cable: u8) -> Result<Listed<Place>, AllocError>
    ensures { IfOk result (λ row. row ≡ places_on cable (seats image.now)) }
{
    let mut row = Vec::new(alloc);
    put_routers(&mut row, image.routers(), cable)?;
    put_nodes(&mut row, image.nodes(), cable)?;
    Ok(Listed::from_vec(row))
}

/// Appends the places on a cable.
fn push_row(rows: &mut Vec<Listed<Place>>, row: Listed<Place>) -> Result<(), AllocError>
    ensures { OnOk result (rows.new.items ≡ rows.old.items ++ row ∷ []) }
{
    if rows.push(row).is_err() {
        return Err(AllocError);
    }
    Ok(())
}

/// Appends the places on the cables from `from` on.
fn put_rows(
    alloc: Global,
    rows: &mut Vec<Listed<Place>>,
    image: &Image,
    from: usize,
) -> Result<(), AllocError>
    requires few { from ≤ 256 }
    ensures { OnOk result (rows.new.items
        ≡ rows.old.items ++ places_from (seats image.now) from (byte_cables - from)) }
{
    if from == CABLES {
        return Ok(());
    }
    let row = row_of(alloc, image, from as u8)?;
    push_row(rows, row)?;
    put_rows(alloc, rows, image, from + 1)
}

/// The places on each cable.
#[tactic(auto, using(crate::proofs::Places::rows_all, crate::proofs::Places::rows_count))]
fn rows_of(alloc: Global, image: &Image) -> Result<Vec<Listed<Place>>, AllocError>
    ensures rows { IfOk result (λ rows. rows.items ≡ directory image.now) }
    ensures count { IfOk result (λ rows. length rows.items ≡ 256) }
{
    let mut rows = Vec::with_capacity(alloc, CABLES)?;
    put_rows(alloc, &mut rows, image, 0)?;
    Ok(rows)
}

/// The stations of each cable of an internet, so that a search looks at one cable only.
#[derive(Debug, Drop)]
pub struct Directory {
    rows: Vec<Listed<Place>>,
}

impl Model for Directory {
    ghost use Rattle.std.specs.Prelude.{◌≡◌, List, length};
    ghost use Rattle.table_image.specs.declared.directory.Place.{Place};

    ghost Value = { List (List Place) };

    ghost view = { λ d. d.rows.items };

    ghost invariant = { λ d. length d.rows.items ≡ 256 };
}

impl Directory {
    /// The stations of each cable of an internet. Error: no memory.
    pub fn of(alloc: Global, image: &Image) -> Result<Directory, AllocError>
        ensures { IfOk result (λ d. d ≡ directory image.now) }
    {
        let rows = rows_of(alloc, image)?;
        Ok(Directory { rows })
    }

    /// The places on a cable.
    fn on_cable(&self, cable: u8) -> &[Place]
        ensures { result.now ≡ places_of_cable self.now cable }
    {
        self.rows[usize::from(cable)].as_slice()
    }

    /// The first station on the cable that has the address. Allocates nothing.
    pub fn find(&self, cable: u8, addr: Addr) -> Option<Place>
        ensures { result ≡ find (has_address addr) (places_of_cable self.now cable) }
    {
        with_address(self.on_cable(cable), addr)
    }

    /// The first station on the cable that has the hardware address. Allocates nothing.
    pub fn holder(&self, cable: u8, hw: &Hw) -> Option<Place>
        ensures { result ≡ find (has_hardware hw.now) (places_of_cable self.now cable) }
    {
        with_hardware(self.on_cable(cable), hw)
    }
}
