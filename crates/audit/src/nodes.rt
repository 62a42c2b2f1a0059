//! Rule C9: the router of each node is a router on its cable, and the node's zone is one of its
//! cable's.

ghost use Rattle.std.specs.Prelude.{◌≡◌, ◌<◌, suc, None, IfSome};
ghost use Rattle.std.specs.List.{list_any};
ghost use Rattle.at_base.specs.Text.{same_name};
ghost use Rattle.audit.specs.Firsts.{FirstNumber, FirstPlace};
ghost use Rattle.audit.specs.Rules as spec;
ghost use Rattle.audit.specs.Rules.{c2, c9};

use crate::next::Hints;
use crate::places::from_one;
use at_base::{Name, Place};
use table_image::{Image, Node};

// Whether the node has a router that isn't a router's port on its cable. A node without a router
// may be on a cable that has one.
fn has_bad_router(image: &Image, hints: &Hints, node: &Node) -> bool
    requires { FirstPlace (c2 image.now) None }
    ensures { result ≡ spec.has_bad_router image.now node.now }
{
    match node.router {
        Some(address) => hints.owner(image, node.cable, address).is_none(),
        None => false,
    }
}

fn is_among(zones: &[Name], name: &Name) -> bool
    ensures { result ≡ list_any (same_name name.now) zones.now }
{
    zones.iter().any(|zone| name.same(zone))
}

fn has_its_zone(image: &Image, node: &Node) -> bool
    ensures { result ≡ spec.has_its_zone image.now node.now }
{
    match image.cables().get(node.cable as usize) {
        Some(cable) => is_among(cable.zones.as_slice(), &node.zone),
        None => false,
    }
}

fn is_unserved(image: &Image, hints: &Hints, node: &Node) -> bool
    requires { FirstPlace (c2 image.now) None }
    ensures { result ≡ spec.bad_service image.now node.now }
{
    has_bad_router(image, hints, node) || !has_its_zone(image, node)
}

fn first_node(image: &Image, hints: &Hints) -> Option<usize>
    requires { FirstPlace (c2 image.now) None }
    ensures first { FirstNumber (λ k. c9 image.now (Place.Node (suc k))) result }
    ensures low { IfSome result (λ k. k < 200) }
{
    for (k, node) in image.nodes().iter().enumerate() {
        if is_unserved(image, hints, node) {
            return Some(k);
        }
    }
    None
}

/// The first node that breaks rule C9, if any.
pub(crate) fn unserved_node(image: &Image, hints: &Hints) -> Option<Place>
    requires { FirstPlace (c2 image.now) None }
    ensures { FirstPlace (c9 image.now) result }
{
    first_node(image, hints).map(|k| Place::Node(from_one(k)))
}
