//! Where the stations of an internet are.

ghost use Rattle.std.specs.Prelude.{◌≡◌, ◌+◌, ◌≤◌, is_some, length, map, position};
ghost use Rattle.std.specs.Prelude.{IfOk, IsOkUnless};
ghost use Rattle.at_base.specs.Address as address_spec;
ghost use Rattle.at_base.specs.Range.{is_between};
ghost use Rattle.audit.specs.Routing.{owner};
ghost use Rattle.table_image.specs.Seats.{node_seats, port_seat, router_seats, seat_at, seats};
ghost use Rattle.image_stations.specs.Finding as spec;
ghost use Rattle.image_stations.specs.Finding.{spot_in};
ghost use Rattle.legal_runs.specs.Legs.{found_at};

use at_base::{Addr, Error, Hw};
use cable_model::{Found, HeldBy, Resolve};
use std::alloc::Global;
use std::marker::Model;
use table_image::{Cable, Directory, Image, Node, Port, Router};

/// A station on a cable. Stations and cables are numbered from 0.
#[derive(Clone, Copy, Debug, PartialEq, Eq)]
pub struct Spot {
    /// The station.
    pub station: u16,
    /// The cable.
    pub cable: u8,
    /// The hardware address of the station there.
    pub hardware: Hw,
}

/// Whether two addresses are equal.
fn same_address(a: Addr, b: Addr) -> bool
    ensures { result ≡ address_spec.same_address a b }
{
    a.net == b.net && a.node == b.node
}

/// Whether no cable is named, or this one is.
fn is_named(named: Option<u8>, cable: u8) -> bool
    ensures { result ≡ spec.is_named named cable }
{
    match named {
        None => true,
        Some(named) => cable == named,
    }
}

/// The first of a router's ports that has the address.
fn among_ports(router: u16, ports: &[Port], cable: Option<u8>, addr: Addr) -> Option<Spot>
    ensures { result ≡ spot_in (map (port_seat router) ports.now) cable addr }
{
    match ports {
        [] => None,
        [port, rest @ ..] => {
            if is_named(cable, port.cable) && same_address(port.address, addr) {
                Some(Spot {
                    station: router,
                    cable: port.cable,
                    hardware: port.hardware,
                })
            } else {
                among_ports(router, rest, cable, addr)
            }
        }
    }
}

/// The first port with the address, among the ports of routers that are numbered from `from` on.
#[tactic(auto, using(crate::proofs::Finding::found_first))]
fn among_routers(from: u16, routers: &[Router], cable: Option<u8>, addr: Addr) -> Option<Spot>
    requires few { from + length routers.now ≤ 200 }
    ensures { result ≡ spot_in (router_seats from routers.now) cable addr }
{
    match routers {
        [] => None,
        [router, rest @ ..] => {
            match among_ports(from, router.ports.as_slice(), cable, addr) {
                Some(spot) => Some(spot),
                None => among_routers(from + 1, rest, cable, addr),
            }
        }
    }
}

/// The first node with the address, among nodes whose stations are numbered from `from` on.
fn among_nodes(from: u16, nodes: &[Node], cable: Option<u8>, addr: Addr) -> Option<Spot>
    requires few { from + length nodes.now ≤ 400 }
    ensures { result ≡ spot_in (node_seats from nodes.now) cable addr }
{
    match nodes {
        [] => None,
        [node, rest @ ..] => {
            if is_named(cable, node.cable) && same_address(node.address, addr) {
                Some(Spot {
                    station: from,
                    cable: node.cable,
                    hardware: node.hardware,
                })
            } else {
                among_nodes(from + 1, rest, cable, addr)
            }
        }
    }
}

/// The first station that has the address, on this cable if one is named.
#[tactic(auto, using(crate::proofs::Finding::found_first, crate::proofs::Finding::found_later))]
fn spot_of(image: &Image, cable: Option<u8>, addr: Addr) -> Option<Spot>
    ensures { result ≡ spot_in (seats image.now) cable addr }
{
    let routers = image.routers();
    match among_routers(0, routers, cable, addr) {
        Some(spot) => Some(spot),
        None => among_nodes(routers.len() as u16, image.nodes(), cable, addr),
    }
}

/// The cable whose range holds the network.
fn home_of(cables: &[Cable], net: u16) -> Option<usize>
    ensures { result ≡ position (λ c. is_between c.start c.end net) cables.now }
{
    cables.iter().position(|c| c.start <= net && net <= c.end)
}

/// An internet and the places of its stations.
#[derive(Debug, Drop)]
pub struct Whereabouts {
    image: Image,
    directory: Directory,
}

impl Model for Whereabouts {
    ghost use Rattle.std.specs.Prelude.{◌≡◌};
    ghost use Rattle.table_image.specs.Directory.{directory as directory_of};
    ghost use Rattle.table_image.specs.Internet.{Internet};

    ghost Value = { Internet };

    ghost view = { λ w. w.image };

    ghost invariant = { λ w. w.directory ≡ directory_of w.image };
}

impl Whereabouts {
    /// The places of the stations of the image's internet. Error: `Memory`.
    pub fn of(alloc: Global, image: Image) -> Result<Whereabouts, Error>
        ensures ok { IfOk result (λ places. places ≡ image) }
        ensures refused { IsOkUnless result Error.Memory }
    {
        let directory = Directory::of(alloc, &image)?;
        Ok(Whereabouts { image, directory })
    }

    /// The image. Allocates nothing.
    pub fn image(&self) -> &Image
        ensures { result.now ≡ self.now }
    {
        &self.image
    }

    /// Whether a router has a port with the address on the cable. Allocates nothing.
    #[tactic(auto, using(crate::proofs::Finding::router_spot))]
    pub fn has_router(&self, cable: u8, addr: Addr) -> bool
        ensures { result ≡ is_some (owner self.now cable addr) }
    {
        let routers = self.image().routers();
        match spot_of(self.image(), Some(cable), addr) {
            Some(spot) => (spot.station as usize) < routers.len(),
            None => false,
        }
    }

    /// The first station that has the address. Allocates nothing.
    pub fn station(&self, addr: Addr) -> Option<u16>
        ensures { result ≡ spec.station_at self.now addr }
    {
        spot_of(self.image(), None, addr).map(|spot| spot.station)
    }

    /// Finds the station that has the address on a cable, among the stations of that cable only.
    fn find_on(&self, cable: u8, addr: Addr) -> Found
        ensures { result ≡ found_at (seat_at self.now cable addr) }
    {
        match self.directory.find(cable, addr) {
            Some(place) => Found::At(place.hardware),
            None => Found::Nobody,
        }
    }
}

impl Resolve for &Whereabouts {
    ghost use Rattle.std.specs.Prelude.{◌≡◌, None};
    ghost use Rattle.legal_runs.specs.Legs.{places_of};

    ghost finds = { λ w. (places_of w.now).finds };

    ghost lists = { λ w. (places_of w.now).lists };

    ghost holds = { λ w _ _ _ held after. (held ≡ record { shed = None; ask = None }) × (after ≡ w) };

    fn find(&self, cable: u8, addr: Addr) -> Found {
        self.find_on(cable, addr)
    }

    fn listed(&self, net: u16) -> bool {
        home_of(self.image().cables(), net).is_some()
    }

    // Every lookup is answered, so that no datagram is held.
    fn hold(&mut self, _cable: u8, _next: Addr, _stamp: u32) -> HeldBy {
        HeldBy {
            shed: None,
            ask: None,
        }
    }
}
