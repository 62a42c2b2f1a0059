//! Builds the stations of an internet, each with the tables that the image has for it.

ghost use Rattle.std.specs.Prelude.{IfOk, IsOkUnless, OnOk, length, ◌+◌, ◌<◌, ◌≤◌};
ghost use Rattle.audit.specs.Rules.{Passes};
ghost use Rattle.image_stations.specs.Building.{AreFirst};
ghost use Rattle.image_stations.specs.Holders.{AreFresh, HoldStations};

use crate::nodes::node_of;
use crate::routers::router_of;
use at_base::Error;
use end_node::EndNode;
use router::Router;
use rtmp::RouteTable;
use station::Member;
use std::alloc::Global;
use table_image::Image;

/// Appends the router with this index.
#[tactic(auto, using(crate::proofs::Pushed::with_next))]
fn put_router<T: RouteTable>(
    stations: &mut Vec<Member<Router<T>, EndNode>>,
    image: &Image,
    index: u8,
) -> Result<(), Error>
    requires passes { Passes image.now }
    requires there { index < length image.now.routers }
    requires first { AreFirst image.now index stations.old.items }
    requires fresh { AreFresh stations.old.items }
    ensures put { OnOk result (AreFirst image.now (index + 1) stations.new.items) }
    ensures fresh { OnOk result (AreFresh stations.new.items) }
    ensures refused { IsOkUnless result Error.Memory }
{
    let router = router_of(*stations.allocator(), image, index)?;
    stations.push(Member::Router(router))?;
    Ok(())
}

/// Appends the routers with indexes from `from` on.
fn put_routers<T: RouteTable>(
    stations: &mut Vec<Member<Router<T>, EndNode>>,
    image: &Image,
    from: u8,
) -> Result<(), Error>
    requires passes { Passes image.now }
    requires within { from ≤ length image.now.routers }
    requires first { AreFirst image.now from stations.old.items }
    requires fresh { AreFresh stations.old.items }
    ensures put { OnOk result
        (AreFirst image.now (length image.now.routers) stations.new.items) }
    ensures fresh { OnOk result (AreFresh stations.new.items) }
    ensures refused { IsOkUnless result Error.Memory }
{
    if (from as usize) < image.routers().len() {
        put_router(stations, image, from)?;
        put_routers(stations, image, from + 1)
    } else {
        Ok(())
    }
}

/// Appends the node with this index.
#[tactic(auto, using(crate::proofs::Pushed::with_next, crate::proofs::Pushed::node_fresh))]
fn put_node<T: RouteTable>(
    stations: &mut Vec<Member<Router<T>, EndNode>>,
    image: &Image,
    index: u8,
) -> Result<(), Error>
    requires passes { Passes image.now }
    requires there { index < length image.now.nodes }
    requires first { AreFirst image.now (length image.now.routers + index) stations.old.items }
    requires fresh { AreFresh stations.old.items }
    ensures put { OnOk result
        (AreFirst image.now (length image.now.routers + index + 1) stations.new.items) }
    ensures fresh { OnOk result (AreFresh stations.new.items) }
    ensures refused { IsOkUnless result Error.Memory }
{
    let node = node_of(*stations.allocator(), image, index)?;
    stations.push(Member::Node(node))?;
    Ok(())
}

/// Appends the nodes with indexes from `from` on.
fn put_nodes<T: RouteTable>(
    stations: &mut Vec<Member<Router<T>, EndNode>>,
    image: &Image,
    from: u8,
) -> Result<(), Error>
    requires passes { Passes image.now }
    requires within { from ≤ length image.now.nodes }
    requires first { AreFirst image.now (length image.now.routers + from) stations.old.items }
    requires fresh { AreFresh stations.old.items }
    ensures put { OnOk result (HoldStations image.now stations.new.items) }
    ensures fresh { OnOk result (AreFresh stations.new.items) }
    ensures refused { IsOkUnless result Error.Memory }
{
    if (from as usize) < image.nodes().len() {
        put_node(stations, image, from)?;
        put_nodes(stations, image, from + 1)
    } else {
        Ok(())
    }
}

/// The stations of an image that passes the audit: its routers, then its nodes. Error: `Memory`.
#[tactic(auto, using(crate::proofs::Pushed::none_first))]
pub fn stations_of<T: RouteTable>(
    alloc: Global,
    image: &Image,
) -> Result<Vec<Member<Router<T>, EndNode>>, Error>
    requires passes { Passes image.now }
    ensures ok { IfOk result (λ stations. HoldStations image.now stations.items) }
    // They have received nothing yet.
    ensures fresh { IfOk result (λ stations. AreFresh stations.items) }
    ensures refused { IsOkUnless result Error.Memory }
{
    let mut stations = Vec::new(alloc);
    put_routers(&mut stations, image, 0)?;
    put_nodes(&mut stations, image, 0)?;
    Ok(stations)
}
