//! The addresses of an internet's stations.

ghost use Rattle.std.specs.Prelude.{◌≡◌, ◌==◌, ◌++◌, IfOk, OnOk, Some, find, map, slice_get};
ghost use Rattle.table_image.specs.declared.node.Node.{Node as NodeValue};
ghost use Rattle.table_image.specs.declared.router.Router.{Router as RouterValue};
ghost use Rattle.trace_lines.specs.Stations as spec;

use at_base::{Addr, Hw};
use std::alloc::{AllocError, Global};
use std::marker::Model;
use table_image::{Directory, Image, Listed, Node, Port, Router};

/// The address of a router's port, and its cable.
#[derive(Clone, Copy)]
pub(crate) struct PortAddress {
    pub(crate) cable: u8,
    pub(crate) address: Addr,
}

/// The addresses of an internet's stations.
#[derive(Drop)]
pub(crate) struct Stations {
    /// The addresses of each router's ports.
    routers: Vec<Listed<PortAddress>>,
    /// The addresses of the nodes.
    nodes: Vec<Addr>,
    /// The places on each cable, so that a hardware address is searched for on one cable only.
    directory: Directory,
}

impl Model for Stations {
    ghost use Rattle.trace_lines.specs.Stations.{Addresses};

    ghost Value = { Addresses };

    ghost view = { λ s. record {
      routers = s.routers.items;
      nodes = s.nodes.items;
      directory = s.directory;
    } };
}

/// Appends the addresses of ports.
fn put_ports(addresses: &mut Vec<PortAddress>, ports: &[Port]) -> Result<(), AllocError>
    ensures { OnOk result
        (addresses.new.items ≡ addresses.old.items ++ map spec.port_address ports.now) }
{
    match ports {
        [] => Ok(()),
        [port, rest @ ..] => {
            addresses.push(PortAddress {
                cable: port.cable,
                address: port.address,
            })?;
            put_ports(addresses, rest)
        }
    }
}

/// The addresses of ports.
fn port_addresses(alloc: Global, ports: &[Port]) -> Result<Listed<PortAddress>, AllocError>
    ensures { IfOk result (λ addresses. addresses ≡ map spec.port_address ports.now) }
{
    let mut addresses = Vec::with_capacity(alloc, ports.len())?;
    put_ports(&mut addresses, ports)?;
    Ok(Listed::from_vec(addresses))
}

/// Appends the addresses of each router's ports.
fn put_routers(
    alloc: Global,
    all: &mut Vec<Listed<PortAddress>>,
    routers: &[Router],
) -> Result<(), AllocError>
    ensures { OnOk result (all.new.items
        ≡ all.old.items ++ map (λ (r : RouterValue). map spec.port_address r.ports) routers.now) }
{
    match routers {
        [] => Ok(()),
        [router, rest @ ..] => {
            let addresses = port_addresses(alloc, router.ports.as_slice())?;
            if all.push(addresses).is_err() {
                return Err(AllocError);
            }
            put_routers(alloc, all, rest)
        }
    }
}

/// Appends the addresses of nodes.
fn put_nodes(addresses: &mut Vec<Addr>, nodes: &[Node]) -> Result<(), AllocError>
    ensures { OnOk result (addresses.new.items
        ≡ addresses.old.items ++ map (λ (n : NodeValue). n.address) nodes.now) }
{
    match nodes {
        [] => Ok(()),
        [node, rest @ ..] => {
            addresses.push(node.address)?;
            put_nodes(addresses, rest)
        }
    }
}

/// The address of the first of a router's ports that is on a cable, and 0.0 if none is.
fn on_cable(ports: &[PortAddress], cable: u8) -> Addr
    ensures { result ≡ spec.of_port (find (λ p. p.cable == cable) ports.now) }
{
    match ports {
        [] => Addr::NONE,
        [port, rest @ ..] => {
            if port.cable == cable {
                port.address
            } else {
                on_cable(rest, cable)
            }
        }
    }
}

/// The address of a router's port on a cable, and 0.0 where it has none there.
fn port_on(ports: &Listed<PortAddress>, cable: u8) -> Addr
    ensures { result ≡ spec.on_cable (Some ports.now) cable }
{
    on_cable(ports.as_slice(), cable)
}

/// The address of a router's first port, and 0.0 if it has none.
fn first_of(ports: &[PortAddress]) -> Addr
    ensures { result ≡ spec.of_port (slice_get ports.now 0) }
{
    match ports.first() {
        Some(port) => port.address,
        None => Addr::NONE,
    }
}

impl Stations {
    /// The stations of the image's internet.
    pub(crate) fn new(alloc: Global, image: &Image) -> Result<Stations, AllocError>
        ensures { IfOk result (λ s. s ≡ spec.addresses_of image.now) }
    {
        let mut routers = Vec::with_capacity(alloc, image.routers().len())?;
        put_routers(alloc, &mut routers, image.routers())?;
        let mut nodes = Vec::with_capacity(alloc, image.nodes().len())?;
        put_nodes(&mut nodes, image.nodes())?;
        let directory = Directory::of(alloc, image)?;
        Ok(Stations {
            routers,
            nodes,
            directory,
        })
    }

    /// The address of the node with this index, and 0.0 if there is none.
    fn of_node(&self, node: usize) -> Addr
        ensures { result ≡ spec.of_node (slice_get self.now.nodes node) }
    {
        match self.nodes.get(node) {
            Some(address) => *address,
            None => Addr::NONE,
        }
    }

    /// The address of a station on a cable: that of the router's port there, or of the node.
    pub(crate) fn address_on(&self, station: u16, cable: u8) -> Addr
        ensures { result ≡ spec.address_on self.now station cable }
    {
        let station = usize::from(station);
        if station < self.routers.len() {
            port_on(&self.routers[station], cable)
        } else {
            self.of_node(station - self.routers.len())
        }
    }

    /// The address of the station that has a hardware address on a cable, and 0.0 if none has it.
    pub(crate) fn holder(&self, cable: u8, hw: &Hw) -> Addr
        ensures { result ≡ spec.holder self.now cable hw.now }
    {
        match self.directory.holder(cable, hw) {
            Some(place) => place.address,
            None => Addr::NONE,
        }
    }

    /// The address of a station if no cable is named: that of the router's first port, or of the
    /// node.
    pub(crate) fn address_of(&self, station: u16) -> Addr
        ensures { result ≡ spec.address_of self.now station }
    {
        let station = usize::from(station);
        if station < self.routers.len() {
            first_of(self.routers[station].as_slice())
        } else {
            self.of_node(station - self.routers.len())
        }
    }
}
