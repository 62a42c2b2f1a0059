//! The ways of a node's datagrams.

ghost use Rattle.std.specs.Prelude.{◌≡◌, IfSome};
ghost use Rattle.end_node.specs.Ways as spec;
ghost use Rattle.station.specs.Lawful.{IsNext};
ghost use Rattle.station.specs.Made.{IsWayIn};

use crate::node::EndNode;
use at_base::Addr;
use ddp::{Header, View};
use station::ways::{reply_header, straight, way_from};
use station::{Next, Way};

/// The router as the next station, if there is one.
pub(crate) fn to_router(router: Option<Addr>) -> Option<Next>
    ensures value { result ≡ spec.to_router router }
    ensures next { IfSome result IsNext }
{
    match router {
        Some(router) => Some(Next::Station(router)),
        None => None,
    }
}

impl EndNode {
    /// Whether the target is on the node's cable: its network is in the range, and its node isn't
    /// 0.
    fn is_near(&self, target: Addr) -> bool
        ensures { result ≡ spec.is_near self.now target }
    {
        self.port.range().holds(target.net) && target.node != 0
    }

    /// The next station of a datagram for this target. `None` if it has to go to a router and the
    /// node has none.
    pub(crate) fn next_to(&self, target: Addr) -> Option<Next>
        ensures value { result ≡ spec.next_to self.now target }
        ensures next { IfSome result IsNext }
    {
        if self.is_near(target) {
            Some(straight(target))
        } else {
            to_router(self.router)
        }
    }

    /// The way of a reply with this header. `None` if the target's network is 0, the node has no
    /// address, or the reply has to go to a router and the node has none.
    pub(crate) fn reply_way(&self, header: Header) -> Option<Way>
        ensures value { result ≡ spec.reply_way self.now header }
        ensures inside { IsWayIn 1 result }
    {
        if header.target.net == 0 {
            return None;
        }
        match self.next_to(header.target) {
            Some(next) => way_from(self.own(), 0, next, header),
            None => None,
        }
    }

    /// The way of the reply to a datagram, if there is one.
    pub(crate) fn way_back(&self, view: &View<'_>) -> Option<Way>
        ensures value { result ≡ spec.way_back self.now view.now }
        ensures inside { IsWayIn 1 result }
    {
        self.reply_way(reply_header(view, view.source()))
    }
}
