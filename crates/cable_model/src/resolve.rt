//! Resolution of addresses on a cable to hardware addresses.

ghost use Rattle.std.specs.Prelude.{◌≡◌};

use crate::kept::PACKET_LEN;
use at_base::{Addr, Hw};

/// The result of looking up an address on a cable.
#[derive(Clone, Copy, Debug, PartialEq, Eq)]
pub enum Found {
    /// A station has the address, with this hardware address.
    At(Hw),
    /// No station on the cable has the address.
    Nobody,
    /// The hardware address isn't known yet.
    Later,
}

/// What holding a datagram leads to.
#[derive(Clone, Copy, Debug)]
pub struct HeldBy {
    /// The stamp of the datagram that is let go to make room, if there is one.
    pub shed: Option<u32>,
    /// The AARP request for the address, where one is to go out.
    pub ask: Option<[u8; PACKET_LEN]>,
}

/// Resolves addresses on cables for a station, knows which networks belong to a cable, and holds
/// datagrams until an address is resolved.
pub trait Resolve {
    ghost use Rattle.std.specs.Prelude.{Bool, ℕ};
    ghost use Rattle.at_base.specs.declared.address.Addr.{Addr as AddrValue};
    ghost use Rattle.cable_model.specs.declared.resolve.Found.{Found as FoundValue};
    ghost use Rattle.cable_model.specs.declared.resolve.HeldBy.{HeldBy as HeldByValue};

    // The result of looking up an address on a cable.
    ghost finds: { Self → ℕ → AddrValue → FoundValue };

    // Whether the network belongs to a cable.
    ghost lists: { Self → ℕ → Bool };

    // What holding a datagram with a stamp, for an address on a cable, leads to.
    ghost holds: { Self → ℕ → AddrValue → ℕ → HeldByValue → Self → Type 0 };

    /// Looks up an address on a cable. Allocates nothing.
    fn find(&self, cable: u8, addr: Addr) -> Found
        ensures { result ≡ finds self.now cable addr };

    /// Whether the network belongs to a cable. Allocates nothing.
    fn listed(&self, net: u16) -> bool
        ensures { result ≡ lists self.now net };

    /// Holds the datagram with this stamp, whose next station has this address on the cable, which
    /// isn't resolved yet. Allocates nothing.
    fn hold(&mut self, cable: u8, next: Addr, stamp: u32) -> HeldBy
        ensures { holds self.old cable next stamp result self.new };
}
