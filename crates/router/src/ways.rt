//! The ways of the datagrams that a router makes.

ghost use Rattle.std.specs.Prelude.{◌≡◌, ℕ, length};
ghost use Rattle.router.specs.Holding as holding_spec;
ghost use Rattle.router.specs.Holding.{IsHandIn};
ghost use Rattle.router.specs.Ways as ways_spec;
ghost use Rattle.router.specs.Ways.{way_by};
ghost use Rattle.station.specs.Made.{IsWayIn};
ghost use Rattle.station.specs.Ports as ports_spec;

use crate::course::has;
use crate::hand::Hand;
use crate::router::{Router, own_at};
use aarp::Chooser;
use at_base::Addr;
use ddp::{Header, View};
use rtmp::RouteTable;
use station::ways::{reply_header, straight, way_from};
use station::{Next, Way};

/// Whether one of the ports has this address.
fn have(target: Addr, ports: &[Chooser]) -> bool
    ensures { result ≡ ports_spec.have target ports.now }
{
    ports.iter().any(|port| has(target, port.settled()))
}

/// Whether the router replies to this address: its network and node aren't 0, and it isn't an
/// address of the router's own.
pub(crate) fn is_answered(ports: &[Chooser], target: Addr) -> bool
    ensures { result ≡ ways_spec.is_answered ports.now target }
{
    target.net != 0 && target.node != 0 && !have(target, ports)
}

/// The way of a reply with this header. Its source is `own`, the address of the port on which the
/// datagram ended; it may leave on another port. `None` without a route or a source.
fn reply_way(hand: Hand, own: Option<Addr>, header: Header) -> Option<Way>
    ensures value { result ≡ way_by hand (λ leaving. own) header }
    ensures inside { (n : ℕ) → IsHandIn n hand → IsWayIn n result }
{
    match hand {
        Hand::Nowhere => None,
        Hand::Here(port) => way_from(own, port, straight(header.target), header),
        Hand::On(port, router) => way_from(own, port, Next::Station(router), header),
    }
}

/// The way of a request that the router makes, with this header. Its source is the address of the
/// port on which it leaves. `None` without a route or if that port has no address.
pub(crate) fn request_way(ports: &[Chooser], hand: Hand, header: Header) -> Option<Way>
    ensures value { result ≡ way_by hand (holding_spec.own_at ports.now) header }
    ensures inside { (n : ℕ) → IsHandIn n hand → IsWayIn n result }
{
    match hand {
        Hand::Nowhere => None,
        Hand::Here(port) => {
            let own = own_at(ports, port);
            way_from(own, port, straight(header.target), header)
        }
        Hand::On(port, router) => {
            let own = own_at(ports, port);
            way_from(own, port, Next::Station(router), header)
        }
    }
}

impl<T: RouteTable> Router<T> {
    /// The way of the reply to a datagram that ended on a port. `None` if the router doesn't reply
    /// to the datagram's source, has no route to it, or the port has no address. Allocates nothing.
    ///
    /// Inside AppleTalk, the chapter on DDP.
    pub fn way_back(&self, port: u8, view: &View<'_>) -> Option<Way>
        ensures value { result ≡ ways_spec.way_back self.now port view.now }
        ensures inside { IsWayIn (length self.now.ports) result }
    {
        let target = view.source();
        if !is_answered(self.ports.as_slice(), target) {
            return None;
        }
        let header = reply_header(view, target);
        reply_way(self.hand(target.net), self.own(port), header)
    }
}
