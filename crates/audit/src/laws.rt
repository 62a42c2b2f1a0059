//! Laws of internets that pass the audit, for contracts and proofs of other crates. Each law is the
//! contract of a function that does nothing.

ghost use Rattle.std.specs.Prelude.{List, Some, [], length, slice_get, ℕ, ◌<◌, ◌∷◌, ◌≡◌, ◌≢◌, ◌≤◌};
ghost use Rattle.table_image.specs.Internet.{Internet};
ghost use Rattle.table_image.specs.Bounds.{IsBounded};
ghost use Rattle.audit.specs.Routing.{Nowhere, home, hand, distance};
ghost use Rattle.audit.specs.Example.{three_cables, pointing_at_each_other};
ghost use Rattle.audit.specs.Example.{same_addresses, same_hardware_addresses};
ghost use Rattle.audit.specs.Example.{knowing, knows_itself, wrong_hardware, other_cable};
ghost use Rattle.audit.specs.Mapped.{MappingsAreTrue};
ghost use Rattle.audit.specs.Rules.{Keeps, Passes};
ghost use Rattle.audit.specs.Served.{IsServed};
ghost use Rattle.table_image.specs.declared.node.Node.{Node};
ghost use Rattle.audit.specs.Walks.{IsWalk, WalksHome, Steps, HasPort, SeatsAreUnique};
ghost use Rattle.table_image.specs.Seats.{Seat, seats};
ghost use Rattle.audit.specs.Walks.{AreDifferent, IsAddressed};
ghost use Rattle.audit.specs.ZoneLists.{ZonesAgree};

/// One walk home: from each router, a datagram to a network that a cable has takes exactly one walk
/// over the tables. The walk ends at that cable, visits no router twice, and has at most 15
/// routers.
pub fn one_walk_home()
    ensures { (i : Internet) → Passes i → WalksHome i }
{}

/// For a datagram to a network that a cable has, each router puts it on that cable, if it has a
/// port there, or hands it on to a next router that is one nearer, over another cable on which both
/// have a port.
pub fn each_step()
    ensures { (i : Internet) (r n c : ℕ)
        → Passes i → r < length i.routers → home i n ≡ Some c → Steps i n c r }
{}

/// Each cable is at most 14 routers away from each router, by that router's table. So the hop count
/// of a datagram, which is at most 15, is large enough.
pub fn distances_fit()
    ensures { (i : Internet) (r n c : ℕ)
        → Passes i → r < length i.routers → home i n ≡ Some c → distance i r n ≤ 14 }
{}

/// A router drops a datagram to a network that no cable has.
pub fn unlisted_is_nowhere()
    ensures { (i : Internet) (r n : ℕ)
        → Passes i → r < length i.routers → home i n ≡ None → hand i r n ≡ Nowhere }
{}

/// No two stations have the same address, no router has an address twice, no two stations on a
/// cable have the same hardware address, and no station has two seats on a cable.
pub fn seats_are_unique()
    ensures { (i : Internet) → Passes i → SeatsAreUnique i }
{}

/// The zone table of each router has a zone for exactly the cables that have it, by rising range.
/// Each of its zone lists is complete, and has the range and the zones of the cable with the list's
/// number.
pub fn zone_lists_agree()
    ensures { (i : Internet) → Passes i → IsBounded i → ZonesAgree i }
{}

/// The router of each node, if it has one, is a router's port on the node's cable, and that cable
/// has the node's zone, ignoring case.
pub fn nodes_are_served()
    ensures { (i : Internet) (k : ℕ) (node : Node)
        → Passes i → slice_get i.nodes k ≡ Some node → IsServed i node }
{}

/// Each mapping of a port or a node is the address and the hardware address of one station on its
/// cable.
pub fn mappings_are_true()
    ensures { (i : Internet) → Passes i → MappingsAreTrue i }
{}

/// Each seat has an address of its cable, with a node number of 1 to 253, and the hardware address
/// of one station, not of a group.
pub fn seats_are_addressed()
    ensures { (i : Internet) (k : ℕ) (s : Seat)
        → Passes i → slice_get (seats i) k ≡ Some s → IsAddressed i s }
{}

/// An example that passes: two routers join three cables, with a node on the first and a printer on
/// the last. A datagram from the first router to the last cable goes through the second router.
pub fn the_example_passes()
    ensures passes { Passes three_cables }
    ensures walk { IsWalk three_cables 30 0 (1 ∷ []) 2 }
{}

/// If each of two routers has the other as the next router for a cable, a datagram to that cable
/// loops, and no walk ends. The tables of this example keep every rule but C7.
pub fn loops_have_no_walk()
    ensures no_walk { (rest : List ℕ) (c : ℕ) → ¬ IsWalk pointing_at_each_other 30 0 rest c }
    ensures no_walk_home { ¬ WalksHome pointing_at_each_other }
    ensures no_step { ¬ Steps pointing_at_each_other 30 2 0 }
    ensures listed { home pointing_at_each_other 30 ≡ Some 2 }
    ensures others { (rule : ℕ) → rule ≢ 7 → Keeps pointing_at_each_other rule }
{}

/// Examples that the definitions in the laws exclude: a walk that returns to a router, a port on a
/// cable where the router has none, two ports with the same address, and two ports on a cable with
/// the same hardware address; a mapping with another's hardware address, and the right mapping of a
/// station on another cable. A mapping of the owner's own address is none of these.
pub fn words_exclude()
    ensures routers { ¬ AreDifferent (0 ∷ 1 ∷ 0 ∷ []) }
    ensures ports { ¬ HasPort pointing_at_each_other 1 2 }
    ensures addresses { ¬ SeatsAreUnique same_addresses }
    ensures hardware { ¬ SeatsAreUnique same_hardware_addresses }
    ensures mapping { ¬ MappingsAreTrue (knowing wrong_hardware) }
    ensures cable { ¬ MappingsAreTrue (knowing other_cable) }
    ensures own { Passes (knowing knows_itself) }
{}
