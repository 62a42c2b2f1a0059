//! The setters that a live node uses to change its address, its router and its zone.

ghost use Rattle.std.specs.Prelude.{◌≡◌};

use crate::node::EndNode;
use aarp::Chooser;
use at_base::{Addr, Name};
use std::alloc::Global;

impl EndNode {
    /// The allocator that the node uses.
    pub fn allocator(&self) -> Global {
        *self.received.allocator()
    }

    /// The choice of the port's address.
    pub fn port_now(&self) -> &Chooser
        ensures { result.now ≡ self.now.port }
    {
        &self.port
    }

    /// Replaces the choice of the port's address. Allocates nothing.
    pub fn set_port(&mut self, port: Chooser)
        ensures { self.new ≡ record self.old { port = port } }
    {
        self.port = port;
    }

    /// Sets the address of the router, or that there is none. Allocates nothing.
    pub fn set_router(&mut self, router: Option<Addr>)
        ensures { self.new ≡ record self.old { router = router } }
    {
        self.router = router;
    }

    /// Sets the zone. Allocates nothing.
    pub fn set_zone(&mut self, zone: Name)
        ensures { self.new ≡ record self.old { zone = zone } }
    {
        self.zone = zone;
    }
}
