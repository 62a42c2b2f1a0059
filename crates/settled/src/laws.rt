//! Laws of internets that pass the audit and are settled. Each is the contract of a function that
//! does nothing.

ghost use Rattle.std.specs.Prelude.{◌≡◌, ◌∷◌, ℕ, List, [], Some, true, false, map, slice_get};
ghost use Rattle.at_base.specs.declared.error.Place.{Place};
ghost use Rattle.audit.specs.Firsts.{FirstPlace};
ghost use Rattle.audit.specs.Rules.{Passes};
ghost use Rattle.learning.specs.Queries.{queries_of};
ghost use Rattle.rtmp.specs.declared.state.State.TheVariants.{Suspect, Bad};
ghost use Rattle.settled.specs.Examples.{long_way, ring, short_way};
ghost use Rattle.settled.specs.Exchange.{AreMoments, Tables, with_tables};
ghost use Rattle.settled.specs.Moved.{IsMovedTo};
ghost use Rattle.settled.specs.Offers.{IsOfferedByNext};
ghost use Rattle.settled.specs.Settling.{changes, IsSettled};
ghost use Rattle.table_image.specs.Bounds.{IsBounded};
ghost use Rattle.table_image.specs.Internet.{Internet};
ghost use Rattle.table_image.specs.RouteRows.{route_row};
ghost use Rattle.table_image.specs.Rows.{is_direct};
ghost use Rattle.image_zones.specs.ZoneMaps.{zone_map};
ghost use Rattle.table_image.specs.declared.router.Router.{Router};
ghost use Rattle.table_image.specs.declared.row.Row.{Row};

/// The next router of each row that isn't direct has a port on the cable of the row's port, and
/// offers the row's range there, one nearer than the row.
pub fn next_routers_offer()
    ensures { (i : Internet) (r k : ℕ) (router : Router) (row : Row) → Passes i → IsSettled i
        → slice_get i.routers r ≡ Some router → slice_get router.rows k ≡ Some row
        → is_direct row ≡ false → IsOfferedByNext i router row }
{}

/// An internet passes as before where rows became others: each keeps its range and its distance, is
/// usable, and leads to another router that is one nearer.
pub fn what_moves_passes()
    ensures { (before after : Internet) → Passes before → IsMovedTo before after → Passes after }
{}

/// So it stays settled, too.
pub fn what_moves_is_settled()
    ensures { (before after : Internet)
        → Passes before → IsSettled before → IsMovedTo before after → IsSettled after }
{}

/// Routers of an internet that passes and is settled hear routing data of each other, as they send
/// it from their rows now or sent it from earlier ones, or age their rows while all that aren't
/// direct are Good: after any list of such steps the internet with their rows passes and is
/// settled, and each row has its range and its distance as before.
pub fn routing_data_keep_distances()
    ensures { (i : Internet) (now : Tables) (past : List Tables)
        → Passes i → IsSettled i → IsBounded i → AreMoments i (now ∷ past)
        → Passes (with_tables i now) × IsSettled (with_tables i now)
        × IsMovedTo i (with_tables i now) }
{}

/// In an internet that passes, no router asks another one for a zone list.
pub fn nobody_asks_for_zones()
    ensures { (i : Internet) (r : ℕ) (router : Router) → Passes i
        → slice_get i.routers r ≡ Some router
        → queries_of (map route_row router.rows) (zone_map router.lists) ≡ [] }
{}

/// In a ring of four cables a router that reaches the cable across by two routers may change: the
/// next one round the other way offers it at 0. By one router it stays, while that row is Suspect
/// too, and where it is Bad it may change. With the long way and with the short one the ring passes.
pub fn the_examples_are_judged()
    ensures long { FirstPlace (changes (ring long_way)) (Some (Place.Row 1 3)) }
    ensures short { IsSettled (ring (short_way Suspect)) }
    ensures bad { changes (ring (short_way Bad)) (Place.Row 1 3) ≡ true }
    ensures pass { Passes (ring long_way) × Passes (ring (short_way Suspect)) }
{}
