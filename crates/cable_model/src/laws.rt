//! Laws of pending frames and of room, for the crates that use this one. Each law is the contract of a function
//! that does nothing.

ghost use Rattle.std.specs.Prelude.{◌≡◌, ◌≤◌, ◌&&◌, ◌==◌, ◌++◌, ◌+◌, ℕ, Bool, List, [], ◌∷◌};
ghost use Rattle.std.specs.Prelude.{Contains};
ghost use Rattle.cable_model.specs.declared.seat.Seat.{Seat as SeatValue};
ghost use Rattle.cable_model.specs.Pending.{Pair, pending};
ghost use Rattle.cable_model.specs.Rooms.{held_rooms, known_rooms};
ghost use Rattle.cable_model.specs.Transcript.{ArePutOnce, Entry, Took, count, one};

use crate::room::Rooms;

/// A station that takes a pending frame ends the pair of both, and no other pair: for any test of
/// pairs, the number of pending pairs that pass it falls by one if this pair passes, else it is
/// unchanged. Stations have at most one seat on a cable, and no two frames have the same stamp.
pub fn taking_ends_one_pair()
    ensures { (seats : List SeatValue) (test : Pair → Bool) (t : List Entry) (p : Pair)
        → ((cable station : ℕ)
        → count (λ s. s.cable == cable && s.station == station) seats ≤ 1)
        → ArePutOnce t → Contains (pending seats t) p
        → count test (pending seats (t ++ Took p.frame.stamp p.seat.station ∷ [])) + one (test p)
        ≡ count test (pending seats t) }
{}

/// The room where the hardware address of every station is known is that of a take's and a send's
/// entries.
pub fn known_rooms_are_enough() -> Rooms
    ensures { result ≡ known_rooms }
{
    Rooms::KNOWN
}

/// So is the room where datagrams may be held.
pub fn held_rooms_are_enough() -> Rooms
    ensures { result ≡ held_rooms }
{
    Rooms::HELD
}
