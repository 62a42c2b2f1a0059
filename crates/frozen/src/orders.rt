//! The datagrams that events make nodes send, and the router to which each goes.

ghost use Rattle.std.specs.Prelude.{◌≡◌, ◌<◌, ◌≤◌, cond, length, slice_get, Some};
ghost use Rattle.std.specs.Prelude.{IfOk, IfSome, IsOkUnless};
ghost use Rattle.at_base.specs.Address as address_spec;
ghost use Rattle.at_base.specs.Text.{is_only};
ghost use Rattle.end_node.specs.Lookups as lookups_spec;
ghost use Rattle.frozen.specs.Orders as spec;
ghost use Rattle.station.specs.Lawful.{IsNext};
ghost use Rattle.at_base.specs.Limits.{max_data};

use crate::order::Order;
use at_base::limits::MAX_DATA;
use at_base::{Addr, Bytes, Error, Name, Text32, What};
use ddp::{Header, kind as types, socket as sockets};
use image_stations::Whereabouts;
use nbp::{Function, Tuple};
use station::Next;
use station::ways::EVERY_NODE;
use std::alloc::Global;
use table_image::{Image, Node};

/// The socket to which replies to a node's request for names are sent.
const REPLIES: u8 = 253;

/// Whether two addresses are equal.
fn same_address(a: Addr, b: Addr) -> bool
    ensures { result ≡ address_spec.same_address a b }
{
    a.net == b.net && a.node == b.node
}

/// The index of the node that has the address.
pub fn node_at(nodes: &[Node], addr: Addr) -> Option<usize>
    ensures place { result ≡ spec.node_at nodes.now addr }
    ensures inside { IfSome result (λ k. k < length nodes.now) }
{
    nodes.iter().position(|n| same_address(n.address, addr))
}

/// The node's own router, if it has one.
fn own_router(router: Option<Addr>) -> Result<Addr, Error>
    ensures { result ≡ spec.own_router router }
{
    match router {
        Some(addr) => Ok(addr),
        None => Err(Error::NoRouter),
    }
}

/// The router that a node sends through.
fn router_for(places: &Whereabouts, node: &Node, via: Option<Addr>) -> Result<Addr, Error>
    ensures { result ≡ spec.router_for places.now node.now via }
{
    match via {
        None => own_router(node.router),
        Some(via) => {
            if places.has_router(node.cable, via) {
                Ok(via)
            } else {
                Err(Error::NoSuch(What::Router))
            }
        }
    }
}

/// The next receiver of a datagram that a node sends.
fn next_for(
    places: &Whereabouts,
    node: &Node,
    via: Option<Addr>,
    target: Addr,
) -> Result<Next, Error>
    ensures value { result ≡ spec.next_for places.now node.now via target }
    ensures next { IfOk result IsNext }
{
    if target.net == 0 {
        if target.node == EVERY_NODE {
            Ok(Next::All)
        } else {
            Err(Error::NoSuch(What::Station))
        }
    } else {
        match router_for(places, node, via) {
            Ok(router) => Ok(Next::Station(router)),
            Err(error) => Err(error),
        }
    }
}

/// The order for node `k` to send `len` bytes of data.
fn sent_at(
    places: &Whereabouts,
    k: usize,
    via: Option<Addr>,
    header: Header,
    len: usize,
) -> Result<Order, Error>
    requires { k < length places.now.nodes }
    ensures value { result ≡ spec.sent_at places.now k (slice_get places.now.nodes k) via header len }
    ensures next { IfOk result (λ o. IsNext o.next) }
    ensures short { IfOk result (λ o. len ≤ max_data) }
{
    let image = places.image();
    let node = &image.nodes()[k];
    match next_for(places, node, via, header.target) {
        Err(error) => Err(error),
        Ok(_) if len > MAX_DATA => Err(Error::TooLong),
        Ok(next) => Ok(Order {
            station: (image.routers().len() + k) as u16,
            cable: node.cable,
            next,
            header: Header {
                source: node.address,
                ..header
            },
        }),
    }
}

/// The order for the node with an address to send `len` bytes of data.
pub fn send_order(
    places: &Whereabouts,
    node: Addr,
    via: Option<Addr>,
    header: Header,
    len: usize,
) -> Result<Order, Error>
    ensures value { result ≡ spec.send_order places.now node via header len }
    ensures next { IfOk result (λ o. IsNext o.next) }
    ensures short { IfOk result (λ o. len ≤ max_data) }
{
    let Some(k) = node_at(places.image().nodes(), node) else {
        return Err(Error::NoSuch(What::Node));
    };
    sent_at(places, k, via, header, len)
}

/// The order for node `k` to ask a router for names.
fn asked_at(places: &Whereabouts, k: usize, via: Option<Addr>) -> Result<Order, Error>
    requires { k < length places.now.nodes }
    ensures value { result ≡ spec.asked_at places.now k (slice_get places.now.nodes k) via }
    ensures next { IfOk result (λ o. IsNext o.next) }
{
    let image = places.image();
    let node = &image.nodes()[k];
    match router_for(places, node, via) {
        Err(error) => Err(error),
        Ok(router) => Ok(Order {
            station: (image.routers().len() + k) as u16,
            cable: node.cable,
            next: Next::Station(router),
            header: Header {
                summed: false,
                target: router,
                source: node.address,
                target_socket: sockets::NAMES,
                source_socket: REPLIES,
                kind: types::NBP,
            },
        }),
    }
}

/// The order for the node with an address to ask a router for names.
pub fn ask_order(places: &Whereabouts, node: Addr, via: Option<Addr>) -> Result<Order, Error>
    ensures value { result ≡ spec.ask_order places.now node via }
    ensures next { IfOk result (λ o. IsNext o.next) }
{
    match node_at(places.image().nodes(), node) {
        Some(k) => asked_at(places, k, via),
        None => Err(Error::NoSuch(What::Node)),
    }
}

/// Whether the zone of a request means the zone of the node that asks: it is empty or "*".
fn is_any(zone: &[u8]) -> bool
    ensures { result ≡ lookups_spec.is_any zone.now }
{
    zone.is_empty() || is_star(zone)
}

/// Whether the text is exactly "*".
fn is_star(text: &[u8]) -> bool
    ensures { result ≡ is_only 42 text.now }
{
    match text {
        [byte] => *byte == b'*',
        _ => false,
    }
}

/// The zone of a node, as a text.
fn text_of(zone: &Name) -> Text32
    ensures { result ≡ zone.now }
{
    Text32::new(zone.as_slice()).unwrap()
}

/// The zone that a node asks for.
fn zone_for(own: &Name, zone: &Text32) -> Text32
    ensures { result ≡ (cond (lookups_spec.is_any zone.now) own.now zone.now) }
{
    if is_any(zone.as_slice()) {
        text_of(own)
    } else {
        *zone
    }
}

/// The data of a node's request for names. Error: `Memory`.
fn data_at(alloc: Global, node: &Node, id: u8, name: &Tuple) -> Result<Bytes, Error>
    ensures ok { IfOk result (λ bytes. bytes ≡ spec.data_at (Some node.now) id name.now) }
    ensures short { IfOk result (λ bytes. length bytes ≤ max_data) }
    ensures refused { IsOkUnless result Error.Memory }
{
    let tuple = Tuple {
        at: node.address,
        socket: REPLIES,
        enumerator: 0,
        object: name.object,
        kind: name.kind,
        zone: zone_for(&node.zone, &name.zone),
    };
    nbp::write(alloc, Function::BroadcastRequest, id, &tuple)
}

/// The data of the request for names of the node with an address. Error: `Memory`.
pub fn ask_data(
    alloc: Global,
    image: &Image,
    node: Addr,
    id: u8,
    name: &Tuple,
) -> Result<Bytes, Error>
    ensures ok { IfOk result (λ bytes. bytes ≡ spec.ask_data image.now node id name.now) }
    ensures short { IfOk result (λ bytes. length bytes ≤ max_data) }
    ensures refused { IsOkUnless result Error.Memory }
{
    let nodes = image.nodes();
    match node_at(nodes, node) {
        Some(k) => data_at(alloc, &nodes[k], id, name),
        None => Ok(Bytes::from_vec(Vec::new(alloc))),
    }
}
