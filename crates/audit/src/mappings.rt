//! Rule C10: each mapping of a port or a node is the address and the hardware address of a station
//! on its cable.

ghost use Rattle.std.specs.Prelude.{◌≡◌, ◌<◌, ℕ, suc, false, Some, None, IfNone, IfSome, IsTrue};
ghost use Rattle.std.specs.Prelude.{length, slice_get};
ghost use Rattle.std.specs.List.{list_any};
ghost use Rattle.table_image.specs.Seats.{seats};
ghost use Rattle.audit.specs.Firsts.{FirstNumber, FirstPlace};
ghost use Rattle.audit.specs.Mapped as mapped_spec;
ghost use Rattle.audit.specs.Places.{on};
ghost use Rattle.audit.specs.Rules.{c10, is_false, is_mapped};

use crate::places::from_one;
use crate::station_hints::{Owner, StationHints};
use crate::stations::{same_address, same_hardware};
use at_base::Place;
use table_image::{Image, Mapping, Node, Port, Router};

fn is_port(cable: u8, mapping: &Mapping, port: &Port) -> bool
    ensures { result ≡ mapped_spec.is_port cable mapping.now port.now }
{
    port.cable == cable
        && same_address(mapping.address, port.address)
        && same_hardware(&mapping.hardware, &port.hardware)
}

fn is_node(cable: u8, mapping: &Mapping, node: &Node) -> bool
    ensures { result ≡ mapped_spec.is_node cable mapping.now node.now }
{
    node.cable == cable
        && same_address(mapping.address, node.address)
        && same_hardware(&mapping.hardware, &node.hardware)
}

fn is_port_at(cable: u8, mapping: &Mapping, router: &Router, p: u8) -> bool
    ensures { result ≡ on (slice_get router.now.ports p) (mapped_spec.is_port cable mapping.now) }
{
    match router.ports.as_slice().get(p as usize) {
        Some(port) => is_port(cable, mapping, port),
        None => false,
    }
}

// Whether the port or the node that the hint names has the mapping's addresses.
fn is_owner(image: &Image, cable: u8, mapping: &Mapping, owner: Owner) -> bool
    ensures { IsTrue result → IsTrue (list_any (is_mapped cable mapping.now) (seats image.now)) }
{
    match owner {
        Owner::Port(r, p) => match image.routers().get(r as usize) {
            Some(router) => is_port_at(cable, mapping, router, p),
            None => false,
        },
        Owner::Node(k) => match image.nodes().get(k as usize) {
            Some(node) => is_node(cable, mapping, node),
            None => false,
        },
    }
}

fn is_hinted(image: &Image, hints: Option<&StationHints>, cable: u8, mapping: &Mapping) -> bool
    ensures { IsTrue result → IsTrue (list_any (is_mapped cable mapping.now) (seats image.now)) }
{
    match hints.and_then(|hints| hints.owner(mapping.address)) {
        Some(owner) => is_owner(image, cable, mapping, owner),
        None => false,
    }
}

fn one_port_is(cable: u8, mapping: &Mapping, router: &Router) -> bool
    ensures { result ≡ list_any (mapped_spec.is_port cable mapping.now) router.now.ports }
{
    router
        .ports
        .as_slice()
        .iter()
        .any(|port| is_port(cable, mapping, port))
}

fn one_router_is(cable: u8, mapping: &Mapping, routers: &[Router]) -> bool
    ensures { result
        ≡ list_any (λ router. list_any (mapped_spec.is_port cable mapping.now) router.ports) routers.now }
{
    routers
        .iter()
        .any(|router| one_port_is(cable, mapping, router))
}

fn one_node_is(cable: u8, mapping: &Mapping, nodes: &[Node]) -> bool
    ensures { result ≡ list_any (mapped_spec.is_node cable mapping.now) nodes.now }
{
    nodes.iter().any(|node| is_node(cable, mapping, node))
}

// Whether a station on the cable has both addresses of the mapping, by looking at all of them.
fn is_found(image: &Image, cable: u8, mapping: &Mapping) -> bool
    ensures { result ≡ list_any (is_mapped cable mapping.now) (seats image.now) }
{
    one_router_is(cable, mapping, image.routers()) || one_node_is(cable, mapping, image.nodes())
}

fn is_true(image: &Image, hints: Option<&StationHints>, cable: u8, mapping: &Mapping) -> bool
    ensures { result ≡ list_any (is_mapped cable mapping.now) (seats image.now) }
{
    is_hinted(image, hints, cable, mapping) || is_found(image, cable, mapping)
}

fn one_is_false(
    image: &Image,
    hints: Option<&StationHints>,
    cable: u8,
    mappings: &[Mapping],
) -> bool
    ensures { result ≡ list_any (is_false image.now cable) mappings.now }
{
    mappings
        .iter()
        .any(|mapping| !is_true(image, hints, cable, mapping))
}

fn first_port(
    image: &Image,
    hints: Option<&StationHints>,
    r: usize,
    router: &Router,
) -> Option<usize>
    requires { slice_get image.now.routers r ≡ Some router.now }
    ensures first { FirstNumber (λ p. c10 image.now (Place.Port (suc r) (suc p))) result }
    ensures low { IfSome result (λ p. p < length router.now.ports) }
{
    for (p, port) in router.ports.as_slice().iter().enumerate() {
        if one_is_false(image, hints, port.cable, port.mappings.as_slice()) {
            return Some(p);
        }
    }
    None
}

fn bad_port(image: &Image, hints: Option<&StationHints>) -> Option<Place>
    ensures none { IfNone result ((r p : ℕ) → c10 image.now (Place.Port (suc r) (suc p)) ≡ false) }
    ensures found { IfSome result (λ place. FirstPlace (c10 image.now) (Some place)) }
{
    for (r, router) in image.routers().iter().enumerate() {
        if let Some(p) = first_port(image, hints, r, router) {
            return Some(Place::Port(from_one(r), from_one(p)));
        }
    }
    None
}

fn first_node(image: &Image, hints: Option<&StationHints>) -> Option<usize>
    ensures first { FirstNumber (λ k. c10 image.now (Place.Node (suc k))) result }
    ensures low { IfSome result (λ k. k < 200) }
{
    for (k, node) in image.nodes().iter().enumerate() {
        if one_is_false(image, hints, node.cable, node.mappings.as_slice()) {
            return Some(k);
        }
    }
    None
}

// Whether a port or a node has a mapping.
fn has_mappings(image: &Image) -> bool {
    let has_port = |router: &Router| {
        router
            .ports
            .as_slice()
            .iter()
            .any(|port| !port.mappings.as_slice().is_empty())
    };
    image.routers().iter().any(has_port)
        || image
            .nodes()
            .iter()
            .any(|node| !node.mappings.as_slice().is_empty())
}

fn first_bad(image: &Image, hints: Option<&StationHints>) -> Option<Place>
    ensures { FirstPlace (c10 image.now) result }
{
    match bad_port(image, hints) {
        Some(place) => Some(place),
        None => first_node(image, hints).map(|k| Place::Node(from_one(k))),
    }
}

// It is a function of its own, since each call of a function pays for the size of its locals.
#[inline(never)]
fn first_bad_by_hints(image: &Image) -> Option<Place>
    ensures { FirstPlace (c10 image.now) result }
{
    let hints = StationHints::of(image);
    first_bad(image, Some(&hints))
}

/// The first port or node that breaks rule C10, if any.
pub(crate) fn bad_mapping(image: &Image) -> Option<Place>
    ensures { FirstPlace (c10 image.now) result }
{
    // Hints are made only where they are needed.
    if has_mappings(image) {
        first_bad_by_hints(image)
    } else {
        first_bad(image, None)
    }
}
