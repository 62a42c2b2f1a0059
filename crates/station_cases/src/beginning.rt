//! Stations made from plans.

ghost use Rattle.std.specs.Prelude.{◌≡◌, IfOk, IsTrue, length, nat_le, nat_lt};
ghost use Rattle.std.specs.List.{list_all};
ghost use Rattle.aarp.specs.Choosing.{is_on};
ghost use Rattle.station.specs.Ports.{is_planned};

use crate::plan::{Plan, PlannedPort};
use at_base::{Addr, Error, Name, Range};
use cabled::{CabledRouter, Peers};
use case_words::Stop;
use end_node::EndNode;
use live_node::LiveNode;
use live_router::LiveRouter;
use nbp::Names;
use router::Router;
use rtmp::{RouteTable, Row};
use station::PortPlan;
use std::alloc::Global;
use zip_zones::ZoneTable;

/// Whether a station of the cable may have the address.
fn may_have(range: Range, addr: Addr) -> bool
    ensures { result ≡ is_on range addr }
{
    range.holds(addr.net) && 1 <= addr.node && addr.node <= 253
}

/// Whether a station of the port's cable may have the port's addresses.
fn is_sound(plan: &PortPlan<'_>) -> bool
    ensures { result ≡ is_planned plan.now }
{
    match plan.own {
        Some(own) => may_have(plan.range, own),
        None => aarp::are_on(plan.range, plan.tries),
    }
}

fn are_sound(plans: &[PortPlan<'_>]) -> bool
    ensures { result ≡ list_all is_planned plans.now }
{
    plans.iter().all(is_sound)
}

fn are_near(rows: &[Row]) -> bool
    ensures { result ≡ list_all (λ r. nat_le r.distance 31) rows.now }
{
    rows.iter().all(|row| row.distance <= 31)
}

/// Whether the port of each row is below a number.
fn are_below(rows: &[Row], number: usize) -> bool
    ensures { result ≡ list_all (λ r. nat_lt r.port number) rows.now }
{
    rows.iter().all(|row| (row.port as usize) < number)
}

/// Whether each row's port is one of the ports.
fn are_seated(rows: &[Row], plans: &[PortPlan<'_>]) -> bool
    ensures { result ≡ list_all (λ r. nat_lt r.port (length plans.now)) rows.now }
{
    are_below(rows, plans.len())
}

fn plans_of<'a>(alloc: Global, ports: &'a [PlannedPort]) -> Result<Vec<PortPlan<'a>>, Stop> {
    let mut plans = Vec::new(alloc);
    for port in ports {
        if plans.push(port.plan()).is_err() {
            return Err(Stop::Refused(Error::Memory));
        }
    }
    Ok(plans)
}

/// A routing table of these rows.
fn table_of<T: RouteTable>(alloc: Global, rows: &[Row]) -> Result<T, Stop>
    requires { IsTrue (list_all (λ r. nat_le r.distance 31) rows.now) }
    ensures { IfOk result (λ table. T.rows table ≡ rows.now) }
{
    let mut table = T::empty(alloc)?;
    table.load(rows)?;
    Ok(table)
}

/// A router with these ports, rows and zone lists.
fn router_by<T: RouteTable>(
    alloc: Global,
    plans: &[PortPlan<'_>],
    rows: &[Row],
    zones: ZoneTable,
) -> Result<Router<T>, Stop> {
    if !are_sound(plans) {
        return Err(Stop::Unclear);
    }
    if !are_near(rows) {
        return Err(Stop::Unclear);
    }
    if !are_seated(rows, plans) {
        return Err(Stop::Unclear);
    }
    let routes: T = table_of(alloc, rows)?;
    Ok(Router::new(alloc, plans, routes, zones)?)
}

/// The router of a plan.
pub(crate) fn router_of<T: RouteTable>(alloc: Global, plan: &Plan) -> Result<Router<T>, Stop> {
    let plans = plans_of(alloc, plan.ports.as_slice())?;
    let zones = plan.zones(alloc)?;
    router_by(alloc, plans.as_slice(), plan.rows.as_slice(), zones)
}

fn live_router_by<T: RouteTable>(
    alloc: Global,
    plans: &[PortPlan<'_>],
    zones: ZoneTable,
) -> Result<LiveRouter<T>, Stop> {
    if !are_sound(plans) {
        return Err(Stop::Unclear);
    }
    Ok(LiveRouter::new(alloc, plans, zones)?)
}

/// The live router of a plan. It has no rows before it learns some.
pub(crate) fn live_router_of<T: RouteTable>(
    alloc: Global,
    plan: &Plan,
) -> Result<LiveRouter<T>, Stop> {
    let plans = plans_of(alloc, plan.ports.as_slice())?;
    let zones = plan.zones(alloc)?;
    live_router_by(alloc, plans.as_slice(), zones)
}

fn cabled_router_by<T: RouteTable>(
    alloc: Global,
    plans: &[PortPlan<'_>],
    zones: ZoneTable,
    peers: Peers,
) -> Result<CabledRouter<T>, Stop> {
    if !are_sound(plans) {
        return Err(Stop::Unclear);
    }
    Ok(CabledRouter::new(alloc, plans, zones, peers)?)
}

/// The router of a plan, with its ports on cables.
pub(crate) fn cabled_router_of<T: RouteTable>(
    alloc: Global,
    plan: &Plan,
    peers: Peers,
) -> Result<CabledRouter<T>, Stop> {
    let plans = plans_of(alloc, plan.ports.as_slice())?;
    let zones = plan.zones(alloc)?;
    cabled_router_by(alloc, plans.as_slice(), zones, peers)
}

fn node_by(
    alloc: Global,
    port: &PortPlan<'_>,
    zone: Name,
    router: Option<Addr>,
    names: Names,
) -> Result<EndNode, Stop> {
    if !is_sound(port) {
        return Err(Stop::Unclear);
    }
    Ok(EndNode::new(alloc, port, zone, router, names)?)
}

/// The node of a plan.
pub(crate) fn node_of(alloc: Global, plan: &Plan) -> Result<EndNode, Stop> {
    let names = plan.names(alloc)?;
    match (plan.ports.as_slice(), plan.zone) {
        ([port], Some(zone)) => node_by(alloc, &port.plan(), zone, plan.router, names),
        _ => Err(Stop::Unclear),
    }
}

fn live_node_by(
    alloc: Global,
    port: &PortPlan<'_>,
    zone: Name,
    names: Names,
) -> Result<LiveNode, Stop> {
    if !is_sound(port) {
        return Err(Stop::Unclear);
    }
    Ok(LiveNode::new(alloc, port, zone, names)?)
}

/// The live node of a plan. It has no router before it learns one.
pub(crate) fn live_node_of(alloc: Global, plan: &Plan) -> Result<LiveNode, Stop> {
    let names = plan.names(alloc)?;
    match (plan.ports.as_slice(), plan.zone) {
        ([port], Some(zone)) => live_node_by(alloc, &port.plan(), zone, names),
        _ => Err(Stop::Unclear),
    }
}
