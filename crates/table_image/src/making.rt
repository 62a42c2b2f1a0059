//! Checks of the parts of which an image is made.

ghost use Rattle.std.specs.Prelude.{◌≡◌, ◌^◌, ◌<◌, ◌&&◌, IsTrue, IfErr};
ghost use Rattle.std.specs.List.{list_all};
ghost use Rattle.table_image.specs.Internet.{internet};
ghost use Rattle.table_image.specs.Short.{short_cable, short_list, short_port, short_router};
ghost use Rattle.table_image.specs.Short.{is_short, short_node};
ghost use Rattle.table_image.specs.Spelling.{image_spelling};
ghost use Rattle.table_image.specs.Checking.{Checks};

use crate::cable::Cable;
use crate::checking::check_counted;
use crate::context::Context;
use crate::count::CountSize;
use crate::flaw::Flaw;
use crate::listed::Listed;
use crate::node::Node;
use crate::port::Port;
use crate::router::Router;
use crate::sizes::HEAD_SIZE;
use crate::version::Version;
use crate::zone_list::ZoneList;
use at_base::limits::{
    MAX_CABLES, MAX_LISTS, MAX_NAMES, MAX_NODES, MAX_PORTS, MAX_ROUTERS, MAX_ROWS,
};

fn lists_are_short(version: Version, lists: &[ZoneList]) -> bool
    ensures { result ≡ list_all (short_list version) lists.now }
{
    let limit = version.zone_limit();
    lists.iter().all(|list| list.zones.len() <= limit)
}

fn ports_are_short(version: Version, ports: &[Port]) -> bool
    ensures { result ≡ list_all (short_port version) ports.now }
{
    let limit = version.mapping_limit();
    ports.iter().all(|port| port.mappings.len() <= limit)
}

fn cables_are_short(version: Version, cables: &[Cable]) -> bool
    ensures { result ≡ list_all (short_cable version) cables.now }
{
    let limit = version.zone_limit();
    cables.iter().all(|cable| cable.zones.len() <= limit)
}

fn router_is_short(version: Version, router: &Router) -> bool
    ensures { result ≡ short_router version router.now }
{
    router.ports.len() <= MAX_PORTS
        && router.rows.len() <= MAX_ROWS
        && router.lists.len() <= MAX_LISTS
        && ports_are_short(version, router.ports.as_slice())
        && lists_are_short(version, router.lists.as_slice())
}

fn routers_are_short(version: Version, routers: &[Router]) -> bool
    ensures { result ≡ list_all (short_router version) routers.now }
{
    routers
        .iter()
        .all(|router| router_is_short(version, router))
}

fn node_is_short(version: Version, node: &Node) -> bool
    ensures { result ≡ short_node version node.now }
{
    node.names.len() <= MAX_NAMES && node.mappings.len() <= version.mapping_limit()
}

fn nodes_are_short(version: Version, nodes: &[Node]) -> bool
    ensures { result ≡ list_all (short_node version) nodes.now }
{
    nodes.iter().all(|node| node_is_short(version, node))
}

/// Whether each list is within its limit in an image of this version.
pub(crate) fn are_short(
    version: Version,
    cables: &Listed<Cable>,
    routers: &Listed<Router>,
    nodes: &Listed<Node>,
) -> bool
    ensures { result ≡ is_short (internet version cables.now routers.now nodes.now) }
{
    cables.len() <= MAX_CABLES
        && routers.len() <= MAX_ROUTERS
        && nodes.len() <= MAX_NODES
        && cables_are_short(version, cables.as_slice())
        && routers_are_short(version, routers.as_slice())
        && nodes_are_short(version, nodes.as_slice())
}

/// Checks the parts, with the same result as reading them if they were written in order: the length
/// of the image, or the first flaw.
pub(crate) fn check_parts(
    version: Version,
    cables: &Listed<Cable>,
    routers: &Listed<Router>,
    nodes: &Listed<Node>,
) -> Result<usize, Flaw>
    requires { IsTrue (is_short (internet version cables.now routers.now nodes.now)) }
    ensures checked { Checks image_spelling
        (internet version cables.now routers.now nodes.now) 0 result }
    ensures near { IfErr result (λ m. m.place < 2 ^ 32) }
{
    let context = Context::nothing(version);
    let end = match check_counted(CountSize::One, MAX_CABLES, context, HEAD_SIZE, cables) {
        Ok(end) => end,
        Err(flaw) => return Err(flaw),
    };
    let context = context.with_cables(cables.len());
    match check_counted(CountSize::One, MAX_ROUTERS, context, end, routers) {
        Ok(end) => check_counted(CountSize::One, MAX_NODES, context, end, nodes),
        Err(flaw) => Err(flaw),
    }
}
