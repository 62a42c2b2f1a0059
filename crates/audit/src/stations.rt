//! Rule C2: each station has an address of its cable, and no other station has one of its
//! addresses.

ghost use Rattle.std.specs.Prelude.{◌≡◌, ◌<◌, ◌≤◌, ◌==◌, ℕ, suc, false, Some, IfNone, IfSome};
ghost use Rattle.std.specs.Prelude.{length, slice_get, take};
ghost use Rattle.std.specs.List.{list_any};
ghost use Rattle.at_base.specs.Address as address_spec;
ghost use Rattle.audit.specs.Firsts.{FirstNumber, FirstPlace};
ghost use Rattle.audit.specs.Seen.{HasSeenBelow};
ghost use Rattle.audit.specs.Rules as spec;
ghost use Rattle.audit.specs.Rules.{c2};

use crate::places::from_one;
use crate::seen::Seen;
use at_base::{Addr, Hw, Place};
use table_image::{Image, Node, Port, Router};

/// Whether the addresses are equal.
pub(crate) fn same_address(a: Addr, b: Addr) -> bool
    ensures { result ≡ address_spec.same_address a b }
{
    a.net == b.net && a.node == b.node
}

/// Whether the hardware addresses are equal.
pub(crate) fn same_hardware(a: &Hw, b: &Hw) -> bool
    ensures { result ≡ spec.same_hardware a.now b.now }
{
    // The last byte first: it usually differs between hardware addresses of the same manufacturer.
    a.0[5] == b.0[5] && a.0 == b.0
}

fn has_bad_address(image: &Image, cable: u8, address: Addr, hardware: &Hw) -> bool
    ensures { result ≡ spec.bad_address image.now cable address hardware.now }
{
    let in_range = match image.cables().get(cable as usize) {
        Some(c) => c.start <= address.net && address.net <= c.end,
        None => false,
    };
    !in_range || address.node == 0 || 253 < address.node || hardware.0[0] % 2 == 1
}

fn router_has(address: Addr, hardware: &Hw, router: &Router) -> bool
    ensures { result ≡ spec.router_has address hardware.now router.now }
{
    router.ports.as_slice().iter().any(|p| same_address(address, p.address)
        || same_hardware(hardware, &p.hardware))
}

fn one_router_has(address: Addr, hardware: &Hw, routers: &[Router]) -> bool
    ensures { result ≡ list_any (spec.router_has address hardware.now) routers.now }
{
    routers
        .iter()
        .any(|router| router_has(address, hardware, router))
}

fn node_has(address: Addr, hardware: &Hw, node: &Node) -> bool
    ensures { result ≡ spec.node_has address hardware.now node.now }
{
    same_address(address, node.address) || same_hardware(hardware, &node.hardware)
}

fn one_node_has(address: Addr, hardware: &Hw, nodes: &[Node]) -> bool
    ensures { result ≡ list_any (spec.node_has address hardware.now) nodes.now }
{
    nodes.iter().any(|node| node_has(address, hardware, node))
}

fn one_port_is_on(cable: u8, ports: &[Port]) -> bool
    ensures { result ≡ list_any (λ q. q.cable == cable) ports.now }
{
    ports.iter().any(|q| q.cable == cable)
}

fn earlier_router_has(image: &Image, seen: &Seen, r: usize, address: Addr, hardware: &Hw) -> bool
    requires seen { HasSeenBelow seen.now image.now.routers r }
    requires within { r ≤ length image.now.routers }
    ensures { result ≡ list_any (spec.router_has address hardware.now) (take r image.now.routers) }
{
    if !seen.may_have(address, hardware) {
        return false;
    }
    one_router_has(address, hardware, &image.routers()[..r])
}

fn is_bad_port(image: &Image, seen: &Seen, r: usize, p: usize, router: &Router, port: &Port) -> bool
    requires seen { HasSeenBelow seen.now image.now.routers r }
    requires router { r ≤ length image.now.routers }
    requires port { p ≤ length router.now.ports }
    ensures { result ≡ spec.bad_port image.now r p router.now port.now }
{
    has_bad_address(image, port.cable, port.address, &port.hardware)
        || earlier_router_has(image, seen, r, port.address, &port.hardware)
        || one_port_is_on(port.cable, &router.ports.as_slice()[..p])
}

fn a_router_has(image: &Image, seen: &Seen, address: Addr, hardware: &Hw) -> bool
    requires { HasSeenBelow seen.now image.now.routers (length image.now.routers) }
    ensures { result ≡ list_any (spec.router_has address hardware.now) image.now.routers }
{
    earlier_router_has(image, seen, image.routers().len(), address, hardware)
}

fn is_bad_node(image: &Image, seen: &Seen, k: usize, node: &Node) -> bool
    requires seen { HasSeenBelow seen.now image.now.routers (length image.now.routers) }
    requires node { k ≤ length image.now.nodes }
    ensures { result ≡ spec.bad_node image.now k node.now }
{
    has_bad_address(image, node.cable, node.address, &node.hardware)
        || a_router_has(image, seen, node.address, &node.hardware)
        || one_node_has(node.address, &node.hardware, &image.nodes()[..k])
}

fn first_port(image: &Image, seen: &Seen, r: usize, router: &Router) -> Option<usize>
    requires seen { HasSeenBelow seen.now image.now.routers r }
    requires at { slice_get image.now.routers r ≡ Some router.now }
    ensures first { FirstNumber (λ p. c2 image.now (Place.Port (suc r) (suc p))) result }
    ensures low { IfSome result (λ p. p < length router.now.ports) }
{
    for (p, port) in router.ports.as_slice().iter().enumerate() {
        if is_bad_port(image, seen, r, p, router, port) {
            return Some(p);
        }
    }
    None
}

fn bad_port(image: &Image, seen: &mut Seen) -> Option<Place>
    ensures seen { IfNone result
        (HasSeenBelow seen.new image.now.routers (length image.now.routers)) }
    ensures none { IfNone result ((r p : ℕ) → c2 image.now (Place.Port (suc r) (suc p)) ≡ false) }
    ensures found { IfSome result (λ place. FirstPlace (c2 image.now) (Some place)) }
{
    for (r, router) in image.routers().iter().enumerate() {
        if let Some(p) = first_port(image, seen, r, router) {
            return Some(Place::Port(from_one(r), from_one(p)));
        }
        seen.add_ports(router.ports.as_slice());
    }
    None
}

fn first_node(image: &Image, seen: &Seen) -> Option<usize>
    requires { HasSeenBelow seen.now image.now.routers (length image.now.routers) }
    ensures first { FirstNumber (λ k. c2 image.now (Place.Node (suc k))) result }
    ensures low { IfSome result (λ k. k < 200) }
{
    for (k, node) in image.nodes().iter().enumerate() {
        if is_bad_node(image, seen, k, node) {
            return Some(k);
        }
    }
    None
}

/// The first port or node that breaks rule C2, if any.
pub(crate) fn bad_station(image: &Image) -> Option<Place>
    ensures { FirstPlace (c2 image.now) result }
{
    let mut seen = Seen::new();
    match bad_port(image, &mut seen) {
        Some(place) => Some(place),
        None => first_node(image, &seen).map(|k| Place::Node(from_one(k))),
    }
}
