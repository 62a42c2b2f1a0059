//! What an image tells of networks, stations, zones and names.

use crate::question::Sought;
use at_base::{Addr, Name};
use nbp::matches;
use table_image::{Image, Node};

/// Whether a cable has this network.
pub(crate) fn has_network(image: &Image, net: u16) -> bool {
    let mut cables = image.cables().iter();
    cables.any(|cable| cable.start <= net && net <= cable.end)
}

/// Whether a router has a port with this address.
pub(crate) fn has_port(image: &Image, address: Addr) -> bool {
    let mut routers = image.routers().iter();
    routers.any(|router| {
        let mut ports = router.ports.as_slice().iter();
        ports.any(|port| port.address == address)
    })
}

/// Whether a node has this address.
pub(crate) fn has_node(image: &Image, address: Addr) -> bool {
    let mut nodes = image.nodes().iter();
    nodes.any(|node| node.address == address)
}

/// Whether a cable has this zone.
pub(crate) fn has_zone(image: &Image, zone: &[u8]) -> bool {
    let mut cables = image.cables().iter();
    cables.any(|cable| {
        let mut zones = cable.zones.as_slice().iter();
        zones.any(|name| name.as_slice().eq_ignore_ascii_case(zone))
    })
}

/// Whether this means the asker's own zone.
pub(crate) fn is_own(zone: &[u8]) -> bool {
    match zone {
        [] | [b'*'] => true,
        _ => false,
    }
}

/// Where a name is.
#[derive(Drop)]
pub(crate) enum Found {
    /// In the zone that was asked for.
    Asked,
    /// On this node, counted from 0, whose zone is another one.
    Elsewhere(usize, Name),
    /// On no node.
    Nowhere,
}

/// Whether a name of a node is one that is sought.
fn has_name(node: &Node, sought: &Sought) -> bool {
    let mut names = node.names.as_slice().iter();
    names.any(|name| {
        matches(sought.object.as_slice(), name.object.as_slice())
            && matches(sought.kind.as_slice(), name.kind.as_slice())
    })
}

/// Whether a node with this index, from 0, asks for names in the zone of another node.
fn asks_zone_of(image: &Image, asker: usize, sought: &Sought, node: &Node) -> bool {
    let zone = sought.zone.as_slice();
    if is_own(zone) {
        return match image.nodes().get(asker) {
            Some(asking) => asking.zone.same(&node.zone),
            None => true,
        };
    }
    node.zone.as_slice().eq_ignore_ascii_case(zone)
}

/// Where the name is that a node asks for, by the nodes of an image. A node in the zone that was
/// asked for comes before one elsewhere.
pub(crate) fn find_name(image: &Image, asker: usize, sought: &Sought) -> Found {
    let mut found = Found::Nowhere;
    for (index, node) in image.nodes().iter().enumerate() {
        if has_name(node, sought) {
            if asks_zone_of(image, asker, sought, node) {
                return Found::Asked;
            }
            found = match found {
                Found::Nowhere => Found::Elsewhere(index, node.zone),
                before => before,
            };
        }
    }
    found
}
