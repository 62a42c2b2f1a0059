//! The rules of the audit, by name.

ghost use Rattle.std.specs.Prelude.{◌≡◌};
ghost use Rattle.audit.specs.Rules.{number_of};

use at_base::{Fault, Place};

/// The greatest distance, in routers, that a row may have: the hop count of a datagram has four
/// bits, and a router drops a datagram with 15 hops.
///
/// Inside AppleTalk, the chapter on RTMP.
pub const MAX_DISTANCE: u8 = 14;

/// A rule of the audit.
#[derive(Clone, Copy, Debug, PartialEq, Eq)]
pub enum Rule {
    /// C1: the ranges of the cables are valid and rising, and each cable has zones, none of them
    /// twice.
    CablesInOrder,
    /// C2: each port and node has an address of its cable, and no two stations have the same.
    StationsAddressed,
    /// C3: each row is usable and for a cable, and each router has a row for each cable.
    RowsCoverCables,
    /// C4: the rows of a router's own cables are direct, with distance 0, and no others are.
    DirectRowsDirect,
    /// C5: no distance is above `MAX_DISTANCE`.
    DistancesFit,
    /// C6: the next router of each row that isn't direct is another router on the same cable.
    NextRoutersExist,
    /// C7: the next router of each row that isn't direct is one router nearer.
    DistancesFall,
    /// C8: each zone list is complete and has the zones of its cable, and each router has a list
    /// for each cable.
    ZoneListsAgree,
    /// C9: the router of each node is a router on its cable, and the node's zone is one of its
    /// cable's.
    NodesServed,
    /// C10: each mapping of a port or a node is the address and the hardware address of a station on
    /// its cable.
    MappingsTrue,
}

impl Rule {
    /// The number of the rule in a fault and in the verdict line: 3 for C3.
    pub fn number(self) -> u8
        ensures { result ≡ number_of self }
    {
        match self {
            Rule::CablesInOrder => 1,
            Rule::StationsAddressed => 2,
            Rule::RowsCoverCables => 3,
            Rule::DirectRowsDirect => 4,
            Rule::DistancesFit => 5,
            Rule::NextRoutersExist => 6,
            Rule::DistancesFall => 7,
            Rule::ZoneListsAgree => 8,
            Rule::NodesServed => 9,
            Rule::MappingsTrue => 10,
        }
    }

    pub(crate) fn broken_at(self, place: Place) -> Fault
        ensures { result ≡ record { rule = number_of self; place = place } }
    {
        let rule = self.number();
        Fault { rule, place }
    }
}
