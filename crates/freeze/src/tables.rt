//! The cables, routers and nodes of an image, for those of a plan.

ghost use Rattle.std.specs.Prelude.{◌≡◌, ◌∷◌, ◌++◌, ◌-◌, ℕ, [], length, map};
ghost use Rattle.std.specs.Prelude.{IfOk, IsOkUnless, IsTrue, OnOk};
ghost use Rattle.std.specs.List.{AllByRecursion as Each, list_all, list_any};
ghost use Rattle.at_base.specs.Spelling.{IsValue};
ghost use Rattle.freeze.specs.Frozen as spec;
ghost use Rattle.freeze.specs.Frozen.{frozen_nodes, frozen_of, frozen_routers};
ghost use Rattle.freeze.specs.Frozen.{has_long_list, is_long};
ghost use Rattle.freeze.specs.Valid.{AreFew, AreNodes, AreRouters, HavePorts, IsNotInV1};
ghost use Rattle.freeze.specs.Valid.{is_node_on, is_on};
ghost use Rattle.internet_file.specs.Sound.{is_cable};
ghost use Rattle.planned_stations.specs.Planning.{is_low_node, is_low_port, is_low_router};
ghost use Rattle.planned_stations.specs.Planning.{ports_of};
ghost use Rattle.table_image.specs.Spelling.{cable_spelling};
ghost use Rattle.table_image.specs.declared.version.Version.{Version as VersionValue};

use crate::cables::freeze_cable;
use crate::mappings::{after, first_of};
use crate::nodes::freeze_node;
use crate::routers::freeze_router;
use aarp::Mapper;
use at_base::Error;
use internet_file::{Cable, Node, Port, Router};
use live_node::LiveNode;
use live_router::LiveRouter;
use rtmp::RouteTable;
use station::Member;
use std::alloc::Global;
use table_image::Version;

/// Appends cables, as in the plan.
fn put_cables(frozen: &mut Vec<table_image::Cable>, cables: &[Cable]) -> Result<(), Error>
    ensures put { OnOk result
        (frozen.new.items ≡ frozen.old.items ++ map frozen_of cables.now) }
    ensures valid { OnOk result ((v : VersionValue) → IsTrue (list_all is_cable cables.now)
        → IsNotInV1 v (list_any (λ c. is_long (length c.zones)) cables.now)
        → Each (λ c. IsValue (cable_spelling v) c) frozen.old.items
        → Each (λ c. IsValue (cable_spelling v) c) frozen.new.items) }
    ensures refused { IsOkUnless result Error.Memory }
{
    match cables {
        [] => Ok(()),
        [cable, rest @ ..] => {
            let alloc = *frozen.allocator();
            frozen.push(freeze_cable(alloc, cable.range, cable.zones.as_slice())?)?;
            put_cables(frozen, rest)
        }
    }
}

/// The cables of a plan. Error: `Memory`.
pub(crate) fn cables_of(alloc: Global, cables: &[Cable]) -> Result<Vec<table_image::Cable>, Error>
    ensures ok { IfOk result (λ frozen. frozen.items ≡ map frozen_of cables.now) }
    ensures valid { (v : VersionValue) → IsTrue (list_all is_cable cables.now)
        → IsNotInV1 v (list_any (λ c. is_long (length c.zones)) cables.now)
        → IfOk result (λ frozen. Each (λ c. IsValue (cable_spelling v) c) frozen.items) }
    ensures refused { IsOkUnless result Error.Memory }
{
    let mut frozen = Vec::with_capacity(alloc, cables.len())?;
    put_cables(&mut frozen, cables)?;
    Ok(frozen)
}

/// Appends the indexes, from 0, of the cables of ports.
fn put_indexes(indexes: &mut Vec<u8>, ports: &[Port]) -> Result<(), Error>
    requires { IsTrue (list_all is_low_port ports.now) }
    ensures put { OnOk result
        (indexes.new.items ≡ indexes.old.items ++ map (λ p. p.cable - 1) ports.now) }
    ensures refused { IsOkUnless result Error.Memory }
{
    match ports {
        [] => Ok(()),
        [port, rest @ ..] => {
            indexes.push(port.cable.saturating_sub(1) as u8)?;
            put_indexes(indexes, rest)
        }
    }
}

/// The indexes, from 0, of the cables of a router's ports.
pub(crate) fn indexes_of(alloc: Global, router: &Router) -> Result<Vec<u8>, Error>
    requires { IsTrue (is_low_router router.now) }
    ensures ok { IfOk result (λ indexes. indexes.items ≡ spec.cables_by router.now) }
    ensures refused { IsOkUnless result Error.Memory }
{
    let mut indexes = Vec::new(alloc);
    put_indexes(&mut indexes, router.port.as_slice())?;
    Ok(indexes)
}

/// Appends the router of a station, if it is a router, on the cables of the plan, with the mappers
/// of its seats.
fn put_router<T: RouteTable>(
    frozen: &mut Vec<table_image::Router>,
    version: Version,
    planned: &Router,
    station: &Member<LiveRouter<T>, LiveNode>,
    mappers: &[Mapper],
) -> Result<(), Error>
    requires { IsTrue (is_low_router planned.now) }
    ensures put { OnOk result (frozen.new.items ≡ frozen.old.items
        ++ frozen_routers version (planned.now ∷ []) (station.now ∷ []) mappers.now) }
    ensures valid { OnOk result ((count : ℕ) → IsTrue (is_on count planned.now)
        → ports_of station.now ≡ length planned.now.port
        → IsNotInV1 version (has_long_list station.now) → AreFew mappers.now
        → AreRouters version count frozen.old.items
        → AreRouters version count frozen.new.items) }
    ensures refused { IsOkUnless result Error.Memory }
{
    match station {
        Member::Router(router) => {
            let alloc = *frozen.allocator();
            let cables = indexes_of(alloc, planned)?;
            let cables = cables.as_slice();
            let router = freeze_router(alloc, version, router.router(), cables, mappers)?;
            frozen.push(router)?;
            Ok(())
        }
        Member::Node(_) => Ok(()),
    }
}

/// Appends the routers among stations. The n-th planned router has the cables of the n-th station,
/// and each of its ports has one of the seats, in order.
fn put_routers<T: RouteTable>(
    frozen: &mut Vec<table_image::Router>,
    version: Version,
    planned: &[Router],
    stations: &[Member<LiveRouter<T>, LiveNode>],
    mappers: &[Mapper],
) -> Result<(), Error>
    requires { IsTrue (list_all is_low_router planned.now) }
    ensures put { OnOk result (frozen.new.items ≡ frozen.old.items
        ++ frozen_routers version planned.now stations.now mappers.now) }
    ensures valid { OnOk result ((count : ℕ) → IsTrue (list_all (is_on count) planned.now)
        → HavePorts planned.now stations.now
        → IsNotInV1 version (list_any has_long_list stations.now) → AreFew mappers.now
        → AreRouters version count frozen.old.items
        → AreRouters version count frozen.new.items) }
    ensures refused { IsOkUnless result Error.Memory }
{
    match planned {
        [] => Ok(()),
        [router, rest @ ..] => match stations {
            [] => Ok(()),
            [station, others @ ..] => {
                put_router(frozen, version, router, station, mappers)?;
                let mappers = after(mappers, router.port.len());
                put_routers(frozen, version, rest, others, mappers)
            }
        },
    }
}

/// The routers among stations. Error: `Memory`.
pub(crate) fn routers_of<T: RouteTable>(
    alloc: Global,
    version: Version,
    planned: &[Router],
    stations: &[Member<LiveRouter<T>, LiveNode>],
    mappers: &[Mapper],
) -> Result<Vec<table_image::Router>, Error>
    requires { IsTrue (list_all is_low_router planned.now) }
    ensures ok { IfOk result (λ frozen. frozen.items
        ≡ frozen_routers version planned.now stations.now mappers.now) }
    ensures valid { (count : ℕ) → IsTrue (list_all (is_on count) planned.now)
        → HavePorts planned.now stations.now
        → IsNotInV1 version (list_any has_long_list stations.now) → AreFew mappers.now
        → IfOk result (λ frozen. AreRouters version count frozen.items) }
    ensures refused { IsOkUnless result Error.Memory }
{
    let mut frozen = Vec::with_capacity(alloc, planned.len())?;
    put_routers(&mut frozen, version, planned, stations, mappers)?;
    Ok(frozen)
}

/// Appends the node of a station, if it is a node, on the cable of the plan, with the mapper of the
/// first seat.
fn put_node<T: RouteTable>(
    frozen: &mut Vec<table_image::Node>,
    version: Version,
    planned: &Node,
    station: &Member<LiveRouter<T>, LiveNode>,
    mappers: &[Mapper],
) -> Result<(), Error>
    requires { IsTrue (is_low_node planned.now) }
    ensures put { OnOk result (frozen.new.items ≡ frozen.old.items
        ++ frozen_nodes version (planned.now ∷ []) (station.now ∷ []) mappers.now) }
    ensures valid { OnOk result ((count : ℕ) → IsTrue (is_node_on count planned.now)
        → AreFew mappers.now
        → AreNodes version count frozen.old.items → AreNodes version count frozen.new.items) }
    ensures refused { IsOkUnless result Error.Memory }
{
    match station {
        Member::Node(node) => {
            let cable = planned.cable.saturating_sub(1) as u8;
            let alloc = *frozen.allocator();
            let node = freeze_node(alloc, version, node.node(), cable, first_of(mappers))?;
            frozen.push(node)?;
            Ok(())
        }
        Member::Router(_) => Ok(()),
    }
}

/// Appends the nodes among stations. The n-th planned node has the cable of the n-th station, and
/// the n-th of the seats.
fn put_nodes<T: RouteTable>(
    frozen: &mut Vec<table_image::Node>,
    version: Version,
    planned: &[Node],
    stations: &[Member<LiveRouter<T>, LiveNode>],
    mappers: &[Mapper],
) -> Result<(), Error>
    requires { IsTrue (list_all is_low_node planned.now) }
    ensures put { OnOk result (frozen.new.items ≡ frozen.old.items
        ++ frozen_nodes version planned.now stations.now mappers.now) }
    ensures valid { OnOk result ((count : ℕ) → IsTrue (list_all (is_node_on count) planned.now)
        → AreFew mappers.now
        → AreNodes version count frozen.old.items → AreNodes version count frozen.new.items) }
    ensures refused { IsOkUnless result Error.Memory }
{
    match planned {
        [] => Ok(()),
        [node, rest @ ..] => match stations {
            [] => Ok(()),
            [station, others @ ..] => {
                put_node(frozen, version, node, station, mappers)?;
                put_nodes(frozen, version, rest, others, after(mappers, 1))
            }
        },
    }
}

/// The nodes among stations. Error: `Memory`.
pub(crate) fn nodes_of<T: RouteTable>(
    alloc: Global,
    version: Version,
    planned: &[Node],
    stations: &[Member<LiveRouter<T>, LiveNode>],
    mappers: &[Mapper],
) -> Result<Vec<table_image::Node>, Error>
    requires { IsTrue (list_all is_low_node planned.now) }
    ensures ok { IfOk result (λ frozen. frozen.items
        ≡ frozen_nodes version planned.now stations.now mappers.now) }
    ensures valid { (count : ℕ) → IsTrue (list_all (is_node_on count) planned.now)
        → AreFew mappers.now → IfOk result (λ frozen. AreNodes version count frozen.items) }
    ensures refused { IsOkUnless result Error.Memory }
{
    let mut frozen = Vec::with_capacity(alloc, planned.len())?;
    put_nodes(&mut frozen, version, planned, stations, mappers)?;
    Ok(frozen)
}
