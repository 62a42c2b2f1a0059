//! Makes the stations of a plan.

ghost use Rattle.std.specs.Prelude.{◌≡◌, ◌<◌, ◌≤◌, ◌+◌, ◌++◌, [], List, length, map};
ghost use Rattle.std.specs.Prelude.{IfOk, IsOkUnless, IsTrue, OnOk};
ghost use Rattle.std.specs.List.{list_all};
ghost use Rattle.aarp.specs.Choosing.{begun};
ghost use Rattle.station.specs.declared.member.Member.TheVariants as MemberValue;
ghost use Rattle.internet_file.specs.Sound.{is_cable, is_node, is_port, is_router};
ghost use Rattle.internet_file.specs.Stations as spec;
ghost use Rattle.internet_file.specs.Stations.{are_apart};
ghost use Rattle.live_node.specs.Living.{LivingNode};
ghost use Rattle.planned_stations.specs.Beginning.{AreBegun, AreNodesBegun, IsNodeBegun, are_free};
ghost use Rattle.planned_stations.specs.Beginning.{is_free, port_begun, range_of, router_begun};
ghost use Rattle.planned_stations.specs.Beginning.{with_cable, with_cables};
ghost use Rattle.planned_stations.specs.Planning.{planned_ports, ports_of};
ghost use Rattle.station.specs.Ports.{is_planned, planned};
ghost use Rattle.at_base.specs.Limits.{max_lists};

use at_base::Error;
use internet_file::{Cable, Node, Plan, Port, Router};
use live_node::LiveNode;
use live_router::LiveRouter;
use rtmp::RouteTable;
use station::{Member, PortPlan};
use std::alloc::Global;
use zip_zones::ZoneTable;

/// The plan of a router's port.
fn plan_of<'a>(cables: &[Cable], port: &'a Port) -> PortPlan<'a>
    requires { IsTrue (is_port cables.now port.now) }
    ensures good { IsTrue (is_planned result) }
    ensures begins { planned result ≡ port_begun cables.now port.now }
    ensures hardware { result.hw ≡ port.now.hardware }
{
    PortPlan {
        range: cables[port.cable as usize - 1].range,
        hw: port.hardware,
        tries: port.tries.as_slice(),
        own: None,
    }
}

/// Appends the plans of a router's ports.
fn put_plans<'a>(
    plans: &mut Vec<PortPlan<'a>>,
    cables: &[Cable],
    ports: &'a [Port],
) -> Result<(), Error>
    requires { IsTrue (list_all (is_port cables.now) ports.now) }
    ensures number { OnOk result
        (length plans.new.items ≡ length plans.old.items + length ports.now) }
    ensures hardware { OnOk result (map (λ p. p.hw) plans.new.items
        ≡ map (λ p. p.hw) plans.old.items ++ map (λ p. p.hardware) ports.now) }
    ensures good { OnOk result (IsTrue (list_all is_planned plans.old.items)
        → IsTrue (list_all is_planned plans.new.items)) }
    ensures begins { OnOk result (map planned plans.new.items
        ≡ map planned plans.old.items ++ map (port_begun cables.now) ports.now) }
    ensures refused { IsOkUnless result Error.Memory }
{
    match ports {
        [] => Ok(()),
        [port, rest @ ..] => {
            if plans.push(plan_of(cables, port)).is_err() {
                return Err(Error::Memory);
            }
            put_plans(plans, cables, rest)
        }
    }
}

/// Enters the zones of a port's cable into a table that has no network of that cable. Error:
/// `Memory`.
fn put_zones(zones: &mut ZoneTable, cables: &[Cable], port: &Port) -> Result<(), Error>
    requires there { IsTrue (is_port cables.now port.now) }
    requires cables { IsTrue (list_all is_cable cables.now) }
    requires free { IsTrue (is_free zones.old (spec.cable_at cables.now port.now.cable)) }
    requires room { length zones.old < max_lists }
    ensures put { OnOk result
        (zones.new ≡ with_cable zones.old (spec.cable_at cables.now port.now.cable)) }
    ensures refused { IsOkUnless result Error.Memory }
{
    let cable = &cables[port.cable as usize - 1];
    zones.set(cable.range, cable.zones.as_slice())
}

/// Enters the zones of the cables of ports into a table that has no network of those cables. Error:
/// `Memory`.
fn put_all_zones(zones: &mut ZoneTable, cables: &[Cable], ports: &[Port]) -> Result<(), Error>
    requires there { IsTrue (list_all (is_port cables.now) ports.now) }
    requires cables { IsTrue (list_all is_cable cables.now) }
    requires apart { IsTrue (are_apart cables.now ports.now) }
    requires free { IsTrue (are_free cables.now zones.old ports.now) }
    requires room { length zones.old + length ports.now ≤ max_lists }
    ensures put { OnOk result (zones.new ≡ with_cables cables.now zones.old ports.now) }
    ensures refused { IsOkUnless result Error.Memory }
{
    match ports {
        [] => Ok(()),
        [port, rest @ ..] => {
            put_zones(zones, cables, port)?;
            put_all_zones(zones, cables, rest)
        }
    }
}

/// The plans of a router's ports, in order. The caller ensures that each port is on one of the cables.
/// Error: `Memory`.
pub fn plans_of<'a>(
    alloc: Global,
    cables: &[Cable],
    ports: &'a [Port],
) -> Result<Vec<PortPlan<'a>>, Error>
    requires { IsTrue (list_all (is_port cables.now) ports.now) }
    ensures good { IfOk result (λ plans. IsTrue (list_all is_planned plans.items)) }
    ensures begins { IfOk result (λ plans.
        map planned plans.items ≡ map (port_begun cables.now) ports.now) }
    ensures hardware { IfOk result (λ plans.
        map (λ p. p.hw) plans.items ≡ map (λ p. p.hardware) ports.now) }
    ensures number { IfOk result (λ plans. length plans.items ≡ length ports.now) }
    ensures refused { IsOkUnless result Error.Memory }
{
    let mut plans = Vec::new(alloc);
    put_plans(&mut plans, cables, ports)?;
    Ok(plans)
}

/// The zones of the cables of a router's ports: what its zone table has before the first tick. The
/// caller ensures that the cables and the router are those of a plan. Error: `Memory`.
pub fn zones_of(alloc: Global, cables: &[Cable], router: &Router) -> Result<ZoneTable, Error>
    requires sound { IsTrue (is_router cables.now router.now) }
    requires cables { IsTrue (list_all is_cable cables.now) }
    ensures ok { IfOk result (λ zones. zones ≡ with_cables cables.now [] router.now.port) }
    ensures refused { IsOkUnless result Error.Memory }
{
    let mut zones = ZoneTable::new(alloc)?;
    put_all_zones(&mut zones, cables, router.port.as_slice())?;
    Ok(zones)
}

/// A router of the plan, before the first tick.
fn router_of<T: RouteTable>(
    alloc: Global,
    cables: &[Cable],
    router: &Router,
) -> Result<LiveRouter<T>, Error>
    requires sound { IsTrue (is_router cables.now router.now) }
    requires cables { IsTrue (list_all is_cable cables.now) }
    ensures ok { IfOk result (λ live. live ≡ router_begun cables.now router.now) }
    ensures refused { IsOkUnless result Error.Memory }
{
    let plans = plans_of(alloc, cables, router.port.as_slice())?;
    let zones = zones_of(alloc, cables, router)?;
    LiveRouter::new(alloc, plans.as_slice(), zones)
}

/// The plan of a node's port.
fn node_plan<'a>(cables: &[Cable], node: &'a Node) -> PortPlan<'a>
    requires { IsTrue (is_node cables.now node.now) }
    ensures good { IsTrue (is_planned result) }
    ensures begins { planned result
        ≡ begun (range_of (spec.cable_at cables.now node.now.cable)) node.now.tries node.now.hardware }
{
    PortPlan {
        range: cables[node.cable as usize - 1].range,
        hw: node.hardware,
        tries: node.tries.as_slice(),
        own: None,
    }
}

/// A node of the plan, before the first tick.
fn node_of(alloc: Global, cables: &[Cable], node: &Node) -> Result<LiveNode, Error>
    requires { IsTrue (is_node cables.now node.now) }
    ensures ok { IfOk result (λ live. IsNodeBegun cables.now node.now live) }
    ensures refused { IsOkUnless result Error.Memory }
{
    let plan = node_plan(cables, node);
    LiveNode::new(alloc, &plan, node.zone, node.name.copy()?)
}

/// Appends the routers of the plan.
fn put_routers<T: RouteTable>(
    stations: &mut Vec<Member<LiveRouter<T>, LiveNode>>,
    cables: &[Cable],
    routers: &[Router],
) -> Result<(), Error>
    requires sound { IsTrue (list_all (is_router cables.now) routers.now) }
    requires cables { IsTrue (list_all is_cable cables.now) }
    ensures put { OnOk result (stations.new.items ≡ stations.old.items
        ++ map (λ r. MemberValue.Router (router_begun cables.now r)) routers.now) }
    ensures refused { IsOkUnless result Error.Memory }
{
    match routers {
        [] => Ok(()),
        [router, rest @ ..] => {
            let router = router_of(*stations.allocator(), cables, router)?;
            stations.push(Member::Router(router))?;
            put_routers(stations, cables, rest)
        }
    }
}

/// Appends the nodes of the plan.
fn put_nodes<T: RouteTable>(
    stations: &mut Vec<Member<LiveRouter<T>, LiveNode>>,
    cables: &[Cable],
    nodes: &[Node],
) -> Result<(), Error>
    requires { IsTrue (list_all (is_node cables.now) nodes.now) }
    ensures put { OnOk result ((lives : List LivingNode) × AreNodesBegun cables.now nodes.now lives
        × (stations.new.items ≡ stations.old.items ++ map MemberValue.Node lives)) }
    ensures refused { IsOkUnless result Error.Memory }
{
    match nodes {
        [] => Ok(()),
        [node, rest @ ..] => {
            let node = node_of(*stations.allocator(), cables, node)?;
            stations.push(Member::Node(node))?;
            put_nodes(stations, cables, rest)
        }
    }
}

/// The stations of a plan before the first tick. Error: `Memory`.
fn stations_begun<T: RouteTable>(
    alloc: Global,
    plan: &Plan,
) -> Result<Vec<Member<LiveRouter<T>, LiveNode>>, Error>
    ensures ok { IfOk result (λ stations. AreBegun plan.now stations.items) }
    ensures refused { IsOkUnless result Error.Memory }
{
    let mut stations = Vec::new(alloc);
    put_routers(&mut stations, plan.cables(), plan.routers())?;
    put_nodes(&mut stations, plan.cables(), plan.nodes())?;
    Ok(stations)
}

/// The stations of a plan, in order: the routers, then the nodes. Their ports haven't chosen
/// addresses yet; routers have no routes, and know the zones of their cables. Error: `Memory`.
pub fn stations_of<T: RouteTable>(
    alloc: Global,
    plan: &Plan,
) -> Result<Vec<Member<LiveRouter<T>, LiveNode>>, Error>
    ensures begun { IfOk result (λ stations. AreBegun plan.now stations.items) }
    ensures ports { IfOk result
        (λ stations. map ports_of stations.items ≡ planned_ports plan.now) }
    ensures refused { IsOkUnless result Error.Memory }
{
    let stations = stations_begun(alloc, plan)?;
    Ok(stations)
}
