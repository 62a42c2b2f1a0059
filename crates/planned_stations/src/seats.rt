//! The seats of a plan's stations on its cables.

ghost use Rattle.std.specs.Prelude.{◌≡◌, ◌≤◌, ◌+◌, ◌++◌, length, map, option_map, slice_get, IfOk, IfSome, IsOkUnless, IsTrue};
ghost use Rattle.std.specs.Prelude.{OnOk};
ghost use Rattle.std.specs.List.{list_all};
ghost use Rattle.internet_file.specs.Sound.{is_router};
ghost use Rattle.planned_stations.specs.Planning.{is_low_node, is_low_port, is_low_router};
ghost use Rattle.planned_stations.specs.Seating.{node_seats, plan_seats, port_seats, router_seats};
ghost use Rattle.at_base.specs.Limits.{max_ports};

use at_base::{Error, Range};
use cable_model::Seat;
use internet_file::{Cable, Node, Plan, Port, Router};
use std::alloc::Global;

/// Appends the seats of a router's ports, which are numbered from `from` on.
fn put_ports(seats: &mut Vec<Seat>, station: u16, from: u8, ports: &[Port]) -> Result<(), Error>
    requires low { IsTrue (list_all is_low_port ports.now) }
    requires few { from + length ports.now ≤ max_ports }
    ensures put { OnOk result
        (seats.new.items ≡ seats.old.items ++ port_seats station from ports.now) }
    ensures refused { IsOkUnless result Error.Memory }
{
    match ports {
        [] => Ok(()),
        [port, rest @ ..] => {
            seats.push(Seat {
                cable: port.cable.saturating_sub(1) as u8,
                station,
                port: from,
                hw: port.hardware,
                group: None,
            })?;
            put_ports(seats, station, from + 1, rest)
        }
    }
}

/// Appends the seats of routers that are numbered from `from` on.
fn put_routers(seats: &mut Vec<Seat>, from: u16, routers: &[Router]) -> Result<(), Error>
    requires low { IsTrue (list_all is_low_router routers.now) }
    requires few { from + length routers.now ≤ 400 }
    ensures put { OnOk result
        (seats.new.items ≡ seats.old.items ++ router_seats from routers.now) }
    ensures refused { IsOkUnless result Error.Memory }
{
    match routers {
        [] => Ok(()),
        [router, rest @ ..] => {
            put_ports(seats, from, 0, router.port.as_slice())?;
            put_routers(seats, from + 1, rest)
        }
    }
}

/// Appends the seats of nodes whose stations are numbered from `from` on.
fn put_nodes(seats: &mut Vec<Seat>, from: u16, nodes: &[Node]) -> Result<(), Error>
    requires low { IsTrue (list_all is_low_node nodes.now) }
    requires few { from + length nodes.now ≤ 400 }
    ensures put { OnOk result
        (seats.new.items ≡ seats.old.items ++ node_seats from nodes.now) }
    ensures refused { IsOkUnless result Error.Memory }
{
    match nodes {
        [] => Ok(()),
        [node, rest @ ..] => {
            seats.push(Seat {
                cable: node.cable.saturating_sub(1) as u8,
                station: from,
                port: 0,
                hw: node.hardware,
                group: Some(node.zone.group()),
            })?;
            put_nodes(seats, from + 1, rest)
        }
    }
}

/// The routers of a plan, at most 200, whose cable numbers are at most 200.
pub fn routers_in(plan: &Plan) -> &[Router]
    ensures value { result.now ≡ plan.now.routers }
    ensures few { length result.now ≤ 200 }
    ensures low { IsTrue (list_all is_low_router result.now) }
    ensures sound { IsTrue (list_all (is_router plan.now.cables) result.now) }
{
    plan.routers()
}

/// The router with this index, if there is one.
fn found(routers: &[Router], index: usize) -> Option<&Router>
    ensures { option_map (λ r. r.now) result ≡ slice_get routers.now index }
{
    routers.get(index)
}

/// The router of a plan with this index, from 0, if there is one. It has 1 to 16 ports, each on a cable
/// of the plan.
pub fn router_at(plan: &Plan, index: usize) -> Option<&Router>
    ensures value { option_map (λ r. r.now) result ≡ slice_get plan.now.routers index }
    ensures sound { IfSome result (λ r. IsTrue (is_router plan.now.cables r.now)) }
    ensures low { IfSome result (λ r. IsTrue (is_low_router r.now)) }
{
    found(routers_in(plan), index)
}

/// The nodes of a plan, at most 200, whose cable numbers are at most 200.
pub fn nodes_in(plan: &Plan) -> &[Node]
    ensures value { result.now ≡ plan.now.nodes }
    ensures few { length result.now ≤ 200 }
    ensures low { IsTrue (list_all is_low_node result.now) }
{
    plan.nodes()
}

/// The seats of all stations of a plan, in order. Error: `Memory`.
pub fn seats_of(alloc: Global, plan: &Plan) -> Result<Vec<Seat>, Error>
    ensures ok { IfOk result (λ seats. seats.items ≡ plan_seats plan.now) }
    ensures refused { IsOkUnless result Error.Memory }
{
    let routers = routers_in(plan);
    let mut seats = Vec::new(alloc);
    put_routers(&mut seats, 0, routers)?;
    put_nodes(&mut seats, routers.len() as u16, nodes_in(plan))?;
    Ok(seats)
}

/// The ranges of a plan's cables. Error: `Memory`.
pub fn ranges_of(alloc: Global, cables: &[Cable]) -> Result<Vec<Range>, Error>
    ensures ok { IfOk result (λ ranges. ranges.items ≡ map (λ c. c.range) cables.now) }
    ensures refused { IsOkUnless result Error.Memory }
{
    Ok(cables.iter().map(|cable| cable.range).collect(alloc)?)
}
