//! The interfaces of a section.

ghost use Rattle.std.specs.Prelude.{◌≡◌, ◌<◌, ◌≤◌, [], ◌∷◌, ◌++◌, length, slice_get};
ghost use Rattle.pcapng.specs.Packets.{time_on};
ghost use Rattle.pcapng.specs.Sections.{max_interfaces};

use crate::times::time_of;
use std::marker::Model;

/// The most interfaces of a section.
pub const MAX_INTERFACES: usize = 256;

/// What the times and the packets of an interface are read by.
#[derive(Clone, Copy, Debug, PartialEq, Eq)]
pub struct Interface {
    /// Whether its packets are Ethernet frames (link type 1).
    pub ethernet: bool,
    /// The unit of its times: ten to the power of minus this number of seconds, or from 128 on two
    /// to the power of minus this number less 128.
    pub resolution: u8,
    /// The seconds that are added to its times, in two's complement.
    pub offset: u64,
}

impl Interface {
    /// An interface without options: its times are in microseconds.
    pub(crate) const fn plain(ethernet: bool) -> Interface
        ensures { result ≡ record { ethernet = ethernet; resolution = 6; offset = 0 } }
    {
        Interface {
            ethernet,
            resolution: 6,
            offset: 0,
        }
    }

    /// The time that is so many of its units, in microseconds from the beginning of 1970.
    pub(crate) fn time(self, units: u64) -> u64
        ensures { result ≡ time_on self units }
    {
        time_of(units, self.resolution, self.offset)
    }
}

/// At most 256 interfaces, by their numbers.
#[derive(Debug, Drop)]
pub(crate) struct Interfaces {
    items: [Interface; MAX_INTERFACES],
    len: usize,
}

impl Model for Interfaces {
    ghost use Rattle.std.specs.Prelude.{◌≤◌, List, take};
    ghost use Rattle.pcapng.specs.Sections.{max_interfaces};
    ghost use Rattle.pcapng.specs.declared.interface.Interface.{Interface as InterfaceValue};

    ghost Value = { List InterfaceValue };

    ghost view = { λ a. take a.len a.items };

    ghost invariant = { λ a. a.len ≤ max_interfaces };
}

impl Interfaces {
    /// None.
    pub(crate) fn new() -> Interfaces
        ensures { result ≡ [] }
    {
        Interfaces {
            items: [Interface::plain(false); MAX_INTERFACES],
            len: 0,
        }
    }

    /// The interfaces, in order.
    pub(crate) fn as_slice(&self) -> &[Interface]
        ensures value { result.now ≡ self.now }
        ensures few { length self.now ≤ max_interfaces }
    {
        &self.items[..self.len]
    }

    /// None any more.
    pub(crate) fn clear(&mut self)
        ensures { self.new ≡ [] }
    {
        self.len = 0;
    }

    /// One more.
    pub(crate) fn push(&mut self, interface: Interface)
        requires { length self.old < max_interfaces }
        ensures { self.new ≡ self.old ++ interface ∷ [] }
    {
        self.items[self.len] = interface;
        self.len += 1;
    }
}
