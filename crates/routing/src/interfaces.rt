//! The ports of a section's interfaces.

ghost use Rattle.std.specs.Prelude.{◌≡◌, []};
ghost use Rattle.routing.specs.Called as spec;

use pcapng::MAX_INTERFACES;
use std::marker::Model;

/// For each interface of the section, by its number, the port whose cable it is, if it is one.
#[derive(Debug, Drop)]
pub(crate) struct InterfacePorts {
    items: [Option<u8>; MAX_INTERFACES],
    len: usize,
}

impl Model for InterfacePorts {
    ghost use Rattle.std.specs.Prelude.{◌≤◌, ℕ, List, Option, take};
    ghost use Rattle.pcapng.specs.Sections.{max_interfaces};

    ghost Value = { List (Option ℕ) };

    ghost view = { λ a. take a.len a.items };

    ghost invariant = { λ a. a.len ≤ max_interfaces };
}

impl InterfacePorts {
    /// No interfaces.
    pub(crate) fn new() -> InterfacePorts
        ensures { result ≡ [] }
    {
        InterfacePorts {
            items: [None; MAX_INTERFACES],
            len: 0,
        }
    }

    /// A section begins: it has no interfaces yet.
    pub(crate) fn clear(&mut self)
        ensures { self.new ≡ [] }
    {
        self.len = 0;
    }

    /// One interface more; at most 256 are counted.
    pub(crate) fn add(&mut self, port: Option<u8>)
        ensures { self.new ≡ spec.with_port self.old port }
    {
        if self.len < MAX_INTERFACES {
            self.items[self.len] = port;
            self.len += 1;
        }
    }

    /// The port whose cable the interface with this number is, if it is one.
    pub(crate) fn port(&self, index: u32) -> Option<u8>
        ensures { result ≡ spec.port_at self.now index }
    {
        match self.items[..self.len].get(index as usize) {
            Some(port) => *port,
            None => None,
        }
    }
}
