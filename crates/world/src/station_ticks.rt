//! Advances the stations of a world by a tick.

ghost use Rattle.std.specs.Prelude.{◌≡◌, ◌↔◌, ◌≤◌, ℕ, fold, length, map, slice_get};
ghost use Rattle.std.specs.Prelude.{IfErr, OnErr, OnOk, Some};
ghost use Rattle.station.specs.declared.member.Member.{Member as MemberValue};
ghost use Rattle.live_cables.specs.Living.{PassesInPart};
ghost use Rattle.live_cables.specs.Steps.{HasNoRoom};
ghost use Rattle.live_node.specs.Living.{LivingNode};
ghost use Rattle.live_router.specs.Living.{Living};
ghost use Rattle.planned_stations.specs.Planning.{ports_of};
ghost use Rattle.world.specs.Doing as spec;
ghost use Rattle.world.specs.Doing.{own_in, settled_own};
ghost use Rattle.world.specs.Going.{Did, GoesOn};
ghost use Rattle.world.specs.Passing.{AreAged, HasPassed, HasTicked, HavePassed, IsAged};
ghost use Rattle.world.specs.Received.{got};
ghost use Rattle.world.specs.Stopping.{ArePassing, MayTick, StopsAt, StopsPassing};

use at_base::{Addr, Error};
use live_cables::LiveCables;
use live_node::LiveNode;
use live_router::LiveRouter;
use rtmp::RouteTable;
use station::{Member, Outputs, Station};
use std::alloc::Global;

/// The settled address of a station's port.
fn own_of<T: RouteTable>(station: &Member<LiveRouter<T>, LiveNode>, port: u8) -> Option<Addr>
    ensures { result ≡ own_in station.now port }
{
    match station {
        Member::Router(router) => router.router().own(port),
        Member::Node(node) => node.node().own(),
    }
}

/// Sets the settled addresses of a station's seats, whose indexes start at `seat`.
fn settle<T: RouteTable>(
    station: &Member<LiveRouter<T>, LiveNode>,
    wires: &mut LiveCables,
    seat: usize,
)
    requires { seat ≤ 102000 }
    ensures own { wires.new.own ≡ settled_own station.now seat (ports_of station.now) wires.old.own }
    ensures others { wires.new ≡ record wires.old { own = wires.new.own } }
{
    for port in 0..station.ports() {
        wires.set_own(seat + port as usize, own_of(station, port));
    }
}

/// AARP gave up on an address: a router poisons the rows through it.
fn give_up<T: RouteTable>(station: &mut Member<LiveRouter<T>, LiveNode>, addr: Addr)
    ensures without { station.new ≡ spec.given_up station.old addr }
    ensures ports { ports_of station.new ≡ ports_of station.old }
    ensures got { got station.new ≡ got station.old }
{
    match station {
        Member::Router(router) => router.give_up(addr),
        Member::Node(_) => {}
    }
}

/// AARP gave up on addresses: a router poisons the rows through them.
fn give_up_all<T: RouteTable>(station: &mut Member<LiveRouter<T>, LiveNode>, addrs: &[Addr])
    ensures without { station.new ≡ fold spec.given_up station.old addrs.now }
    ensures ports { ports_of station.new ≡ ports_of station.old }
    ensures got { got station.new ≡ got station.old }
{
    match addrs {
        [] => {}
        [addr, rest @ ..] => {
            give_up(station, *addr);
            give_up_all(station, rest);
        }
    }
}

/// Advances the mappings of one of a station's seats by a tick. Errors: `Full`, `Memory`.
fn age_mappings<T: RouteTable>(
    station: &mut Member<LiveRouter<T>, LiveNode>,
    wires: &mut LiveCables,
    seat: usize,
) -> Result<(), Error>
    ensures ports { ports_of station.new ≡ ports_of station.old }
    ensures got { got station.new ≡ got station.old }
    ensures aged { OnOk result (IsAged seat station.old station.new wires.old wires.new) }
    ensures stopped { OnErr result (station.new ≡ station.old) }
    ensures part { OnErr result (PassesInPart seat wires.old wires.new) }
    ensures full { IfErr result (λ e. (e ≡ Error.Full) ↔ HasNoRoom 1 wires.new.cabling) }
    ensures did { Did (GoesOn 0 wires.old wires.new) 5 wires.old wires.new result }
{
    if wires.is_idle(seat) {
        return Ok(());
    }
    match wires.pass(seat) {
        Ok(given_up) => {
            give_up_all(station, given_up.as_slice());
            Ok(())
        }
        Err(error) => Err(error),
    }
}

/// Advances the mappings of a station's `ports` seats, from index `seat` on, by a tick. Errors:
/// `Full`, `Memory`.
fn age_all_mappings<T: RouteTable>(
    station: &mut Member<LiveRouter<T>, LiveNode>,
    wires: &mut LiveCables,
    seat: usize,
    ports: u8,
) -> Result<(), Error>
    requires { seat ≤ 102000 }
    ensures ports { ports_of station.new ≡ ports_of station.old }
    ensures got { got station.new ≡ got station.old }
    ensures aged { OnOk result (AreAged seat ports station.old station.new wires.old wires.new) }
    ensures stopped { IfErr result (λ e.
        StopsAt e seat ports station.old station.new wires.old wires.new) }
    ensures did { Did (GoesOn 0 wires.old wires.new) 5 wires.old wires.new result }
{
    for port in 0..ports {
        match age_mappings(station, wires, seat + port as usize) {
            Ok(()) => {}
            Err(error) => return Err(error),
        }
    }
    Ok(())
}

/// Advances a station by a tick, and sends its outputs. Errors: `Full`, `Memory`.
fn tick<T: RouteTable>(
    alloc: Global,
    station: &mut Member<LiveRouter<T>, LiveNode>,
    wires: &mut LiveCables,
    number: u16,
    seat: usize,
) -> Result<(), Error>
    requires { seat ≤ 102000 }
    ensures ports { ports_of station.new ≡ ports_of station.old }
    ensures got { got station.new ≡ got station.old }
    ensures ticked { OnOk result
        (HasTicked number seat station.old station.new wires.old wires.new) }
    ensures stopped { IfErr result (λ e.
        MayTick e number seat station.old station.new wires.old wires.new) }
    ensures did { Did (GoesOn 0 wires.old wires.new) 5 wires.old wires.new result }
{
    let mut outputs = match Outputs::new(alloc) {
        Ok(outputs) => outputs,
        Err(error) => return Err(error),
    };
    match station.tick(&mut outputs) {
        Ok(()) => {}
        Err(error) => return Err(error),
    }
    settle(station, wires, seat);
    wires.give(number, &mut outputs)
}

/// Advances a station by a tick, and then the mappings of its seats, whose indexes start at `seat`.
/// Errors: `Full`, `Memory`.
fn tick_station<T: RouteTable>(
    alloc: Global,
    station: &mut Member<LiveRouter<T>, LiveNode>,
    wires: &mut LiveCables,
    number: u16,
    seat: usize,
) -> Result<(), Error>
    requires { seat ≤ 102000 }
    ensures ports { ports_of station.new ≡ ports_of station.old }
    ensures got { got station.new ≡ got station.old }
    ensures passed { OnOk result
        (HasPassed number seat station.old station.new wires.old wires.new) }
    ensures stopped { IfErr result (λ e.
        StopsPassing e number seat station.old station.new wires.old wires.new) }
    ensures did { Did (GoesOn 0 wires.old wires.new) 5 wires.old wires.new result }
{
    match tick(alloc, station, wires, number, seat) {
        Ok(()) => {}
        Err(error) => return Err(error),
    }
    let ports = station.ports();
    age_all_mappings(station, wires, seat, ports)
}

/// The number of ports of the station at an index, and 0 if there is none.
fn ports_at<T: RouteTable>(stations: &[Member<LiveRouter<T>, LiveNode>], index: usize) -> usize
    ensures few { result ≤ 255 }
    ensures value { (m : MemberValue Living LivingNode) → slice_get stations.now index ≡ Some m
        → result ≡ ports_of m }
{
    match stations.get(index) {
        Some(station) => station.ports() as usize,
        None => 0,
    }
}

/// Advances all stations by a tick. Errors: `Full`, `Memory`.
pub fn tick_all<T: RouteTable>(
    alloc: Global,
    stations: &mut Vec<Member<LiveRouter<T>, LiveNode>>,
    wires: &mut LiveCables,
) -> Result<(), Error>
    requires { length stations.old.items ≤ 400 }
    ensures ports { map ports_of stations.new.items ≡ map ports_of stations.old.items }
    ensures got { map got stations.new.items ≡ map got stations.old.items }
    ensures passed { OnOk result ((seats : ℕ) × HavePassed (length stations.old.items) seats
        stations.old.items stations.new.items wires.old wires.new) }
    ensures stopped { IfErr result (λ e.
        ArePassing e stations.old.items stations.new.items wires.old wires.new) }
    ensures did { Did (GoesOn 0 wires.old wires.new) 5 wires.old wires.new result }
{
    let mut seat = 0;
    for index in 0..stations.len() {
        let station = &mut stations[index];
        match tick_station(alloc, station, wires, index as u16, seat) {
            Ok(()) => {}
            Err(error) => return Err(error),
        }
        seat += ports_at(stations, index);
    }
    Ok(())
}
