//! The setters that a live router uses to change a router's tables and the addresses of its ports.

ghost use Rattle.std.specs.Prelude.{◌≡◌, ◌<◌, ◌≤◌, length, map, nat_lt, IsTrue};
ghost use Rattle.std.specs.List.{list_all};
ghost use Rattle.aarp.specs.Choosing.{minded};
ghost use Rattle.atp.specs.Responding.{ticked};
ghost use Rattle.rtmp.specs.Routes.{poisoned};
ghost use Rattle.at_base.specs.Limits.{max_ports};
ghost use Rattle.router.specs.Resolution.{ports_told};

use crate::router::Router;
use aarp::{Care, Chooser};
use at_base::{Addr, Range};
use rtmp::RouteTable;
use std::alloc::Global;
use zip_zones::ZoneTable;

/// From now on each choice minds the other stations with this care.
fn mind_all(ports: &mut [Chooser], care: Care)
    ensures { ports.new ≡ map (minded care) ports.old }
{
    for port in ports.iter_mut() {
        port.mind(care);
    }
}

impl<T: RouteTable> Router<T> {
    /// The allocator that the router uses.
    pub fn allocator(&self) -> Global {
        *self.ports.allocator()
    }

    /// The choices of the ports' addresses, in the order of the ports.
    pub fn ports_now(&self) -> &[Chooser]
        ensures value { result.now ≡ self.now.ports }
        ensures few { length result.now ≤ max_ports }
        ensures seated { IsTrue (list_all (λ r. nat_lt r.port (length self.now.ports)) self.now.routes) }
    {
        self.ports.as_slice()
    }

    /// Replaces the routing table. The caller ensures that each row's port is one of the ports.
    /// Allocates nothing.
    pub fn set_routes(&mut self, routes: T)
        requires { IsTrue (list_all (λ r. nat_lt r.port (length self.old.ports)) (T.rows routes)) }
        ensures { self.new ≡ record self.old { routes = T.rows routes } }
    {
        self.routes = routes;
    }

    /// Replaces the zone table. Allocates nothing.
    pub fn set_zones(&mut self, zones: ZoneTable)
        ensures { self.new ≡ record self.old { zones = zones } }
    {
        self.zones = zones;
    }

    /// Replaces the choices of the ports' addresses. The caller ensures that there is one for each
    /// port. Allocates nothing.
    pub fn set_ports(&mut self, ports: Vec<Chooser>)
        requires { length ports.items ≡ length self.old.ports }
        ensures { self.new ≡ record self.old { ports = ports.items } }
    {
        self.ports = ports;
    }

    /// From now on the choices of the ports' addresses mind the other stations with this care, as
    /// those that begin do. Allocates nothing.
    ///
    /// This project's own.
    pub fn mind(&mut self, care: Care)
        ensures { self.new ≡ record self.old {
          ports = map (minded care) self.old.ports;
        } }
    {
        mind_all(self.ports.as_mut_slice(), care);
    }

    /// Handles the range that routing data tells of a port's cable: a port that listens before its
    /// first probe begins to probe, or never does. Allocates nothing.
    ///
    /// This project's own.
    pub fn hear_range(&mut self, port: u8, range: Range)
        requires { port < length self.old.ports }
        ensures { self.new ≡ record self.old { ports = ports_told self.old.ports port range } }
    {
        self.ports[port as usize].hear_range(range);
    }

    /// Advances the exactly-once requests by one tick. Allocates nothing.
    ///
    /// Inside AppleTalk, the chapter on ATP.
    pub fn pass_requests(&mut self)
        ensures { self.new ≡ record self.old { requests = ticked self.old.requests } }
    {
        self.responder.tick();
    }

    /// Handles the loss of the router with this address: the rows that go through it become bad.
    /// Allocates nothing.
    ///
    /// Inside AppleTalk, the chapter on RTMP.
    pub fn poison(&mut self, next: Addr)
        ensures { self.new ≡ record self.old { routes = poisoned next self.old.routes } }
    {
        self.routes.poison(next);
    }
}
