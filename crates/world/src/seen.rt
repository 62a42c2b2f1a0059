//! Reads the nodes of a world.

ghost use Rattle.std.specs.Prelude.{◌≡◌, slice_get, Some, option_copied};
ghost use Rattle.world.specs.Seen as spec;

use end_node::EndNode;
use live_node::LiveNode;
use live_router::LiveRouter;
use rtmp::RouteTable;
use station::Member;

/// The node, if the station is a node.
fn node_of<T: RouteTable>(station: &Member<LiveRouter<T>, LiveNode>) -> Option<&EndNode>
    ensures { option_copied result ≡ spec.node_of (Some station.now) }
{
    match station {
        Member::Node(node) => Some(node.node()),
        Member::Router(_) => None,
    }
}

/// The node at an index of stations, if it is a node. Allocates nothing.
pub fn node_by<T: RouteTable>(
    stations: &[Member<LiveRouter<T>, LiveNode>],
    index: usize,
) -> Option<&EndNode>
    ensures { option_copied result ≡ spec.node_of (slice_get stations.now index) }
{
    match stations.get(index) {
        Some(station) => node_of(station),
        None => None,
    }
}
