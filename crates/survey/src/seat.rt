//! The choice of an address by a station that asks.

ghost use Rattle.std.specs.Prelude.{◌≡◌, ◌==◌, ◌≤◌, IfOk, IfSome, IsOkUnless, IsTrue, option_map};
ghost use Rattle.aarp.specs.Choosing.{settled};
ghost use Rattle.rtmp.specs.Data.{routing_in};
ghost use Rattle.station.specs.Ports.{has};
ghost use Rattle.survey.specs.Asking as spec;

use aarp::{Care, Chooser, Packet};
use at_base::{Addr, Error, Hw, Range};
use ddp::{View, kind, socket};
use rtmp::DataPacket;
use station::Link;
use station::ways::{EVERY_NODE, is_to};
use std::alloc::Global;

/// A station's choice of an address on a cable, and the router that last told the cable's range.
#[derive(Drop)]
pub struct Seat {
    pub choice: Chooser,
    pub router: Addr,
}

/// The address that a station tries first.
fn first_try(range: Range, hw: Hw) -> Addr
    ensures value { result ≡ spec.first_try range hw }
    ensures inside { (1 ≤ result.node) × (result.node ≤ 253) }
{
    let Hw(bytes) = hw;
    let number = u16::from_be_bytes([bytes[4], bytes[5]]);
    Addr {
        net: range.start(),
        node: (number % 253) as u8 + 1,
    }
}

/// A choice of an address on a cable of a range, of which a router told. Error: `Memory`.
pub(crate) fn seat_on(alloc: Global, hw: Hw, range: Range, router: Addr) -> Result<Seat, Error>
    ensures ok { IfOk result (λ seat. seat ≡ spec.seat_on hw range router) }
    ensures refused { IsOkUnless result Error.Memory }
{
    let care = Care {
        listens: false,
        one_goes_on: true,
    };
    let tries = [first_try(range, hw)];
    let choice = Chooser::careful(alloc, range, &tries, hw, care)?;
    Ok(Seat { choice, router })
}

/// The station's address, if it has one.
pub(crate) fn own_of(seat: &Option<Seat>) -> Option<Addr>
    ensures { result ≡ spec.own_of seat.now }
{
    match seat {
        Some(seat) => seat.choice.settled(),
        None => None,
    }
}

/// Whether a network is of the station's cable, as far as it knows.
fn is_near(seat: &Option<Seat>, net: u16) -> bool
    ensures { result ≡ spec.is_near seat.now net }
{
    match seat {
        Some(seat) => seat.choice.range().holds(net),
        None => false,
    }
}

/// Whether this is the station's address.
fn is_own(seat: &Option<Seat>, target: Addr) -> bool
    ensures { result ≡ has target (spec.own_of seat.now) }
{
    match own_of(seat) {
        Some(own) => target == own,
        None => false,
    }
}

/// Whether a datagram in a frame of this link is for the station.
pub(crate) fn takes(seat: &Option<Seat>, link: Link, view: &View<'_>) -> bool
    ensures { result ≡ spec.takes seat.now link view.now }
{
    let target = view.target();
    match link {
        Link::Own => is_own(seat, target),
        Link::All => { target.node == EVERY_NODE && (target.net == 0 || is_near(seat, target.net)) }
        Link::Group(_) => false,
    }
}
