//! The seats of an internet's stations on its cables.

ghost use Rattle.std.specs.Prelude.{◌≡◌, ◌++◌, ◌==◌, ◌≤◌, ◌<◌, ◌+◌, length, map, position};
ghost use Rattle.std.specs.Prelude.{IfOk, IfSome, IsOkUnless, OnOk};
ghost use Rattle.std.specs.List.{AllByRecursion as Each};
ghost use Rattle.std.specs.Option.{unwrap_or};
ghost use Rattle.legal_runs.specs.Stations.{cable_seats};
ghost use Rattle.image_stations.specs.Seating.{node_seat, node_seats_from, router_seat, seats_from};
ghost use Rattle.at_base.specs.Limits.{max_ports};

use at_base::Error;
use cable_model::Seat;
use std::alloc::Global;
use table_image::{Image, Node, Port, Router};

/// The first of these ports that is on the cable.
fn port_on(ports: &[Port], cable: u8) -> Option<usize>
    ensures place { result ≡ position (λ p. p.cable == cable) ports.now }
    ensures inside { IfSome result (λ port. port < length ports.now) }
{
    ports.iter().position(|p| p.cable == cable)
}

/// The index of the first of these ports that is on the cable, and 0 if none is.
fn number_on(ports: &[Port], cable: u8) -> u8
    requires { length ports.now ≤ max_ports }
    ensures { result ≡ unwrap_or (position (λ p. p.cable == cable) ports.now) 0 }
{
    match port_on(ports, cable) {
        Some(port) => port as u8,
        None => 0,
    }
}

/// The seat of a router's port. `port` is one of `ports`.
fn seat_by(router: u16, ports: &[Port], port: &Port) -> Seat
    requires { length ports.now ≤ max_ports }
    ensures { result ≡ router_seat router ports.now port.now }
{
    Seat {
        cable: port.cable,
        station: router,
        port: number_on(ports, port.cable),
        hw: port.hardware,
        group: None,
    }
}

/// Appends the seats of some of a router's ports.
fn put_ports(seats: &mut Vec<Seat>, router: u16, ports: &[Port], some: &[Port]) -> Result<(), Error>
    requires { length ports.now ≤ max_ports }
    ensures put { OnOk result (seats.new.items
        ≡ seats.old.items ++ map (router_seat router ports.now) some.now) }
    ensures refused { IsOkUnless result Error.Memory }
{
    match some {
        [] => Ok(()),
        [port, rest @ ..] => {
            seats.push(seat_by(router, ports, port))?;
            put_ports(seats, router, ports, rest)
        }
    }
}

/// Appends the seats of routers whose stations are numbered from `from` on.
fn put_routers(seats: &mut Vec<Seat>, from: u16, routers: &[Router]) -> Result<(), Error>
    requires few { from + length routers.now ≤ 200 }
    requires ports { Each (λ router. length router.ports ≤ max_ports) routers.now }
    ensures put { OnOk result (seats.new.items ≡ seats.old.items ++ seats_from from routers.now) }
    ensures refused { IsOkUnless result Error.Memory }
{
    match routers {
        [] => Ok(()),
        [router, rest @ ..] => {
            let ports = router.ports.as_slice();
            put_ports(seats, from, ports, ports)?;
            put_routers(seats, from + 1, rest)
        }
    }
}

/// The seat of a node.
fn seat_of(station: u16, node: &Node) -> Seat
    ensures { result ≡ node_seat station node.now }
{
    Seat {
        cable: node.cable,
        station,
        port: 0,
        hw: node.hardware,
        group: Some(node.zone.group()),
    }
}

/// Appends the seats of nodes whose stations are numbered from `from` on.
fn put_nodes(seats: &mut Vec<Seat>, from: u16, nodes: &[Node]) -> Result<(), Error>
    requires few { from + length nodes.now ≤ 400 }
    ensures put { OnOk result (seats.new.items ≡ seats.old.items ++ node_seats_from from nodes.now) }
    ensures refused { IsOkUnless result Error.Memory }
{
    match nodes {
        [] => Ok(()),
        [node, rest @ ..] => {
            seats.push(seat_of(from, node))?;
            put_nodes(seats, from + 1, rest)
        }
    }
}

/// The seats of all stations of an internet, in order: of the routers, then of the nodes. Error:
/// `Memory`.
#[tactic(auto, using(crate::proofs::Seating::seats_are, crate::proofs::Seating::few_ports))]
pub fn seats_of(alloc: Global, image: &Image) -> Result<Vec<Seat>, Error>
    ensures ok { IfOk result (λ seats. seats.items ≡ cable_seats image.now) }
    ensures refused { IsOkUnless result Error.Memory }
{
    let mut seats = Vec::new(alloc);
    let routers = image.routers();
    put_routers(&mut seats, 0, routers)?;
    put_nodes(&mut seats, routers.len() as u16, image.nodes())?;
    Ok(seats)
}
