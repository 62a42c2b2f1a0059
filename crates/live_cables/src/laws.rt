//! Laws of entries on cables where frames are lost, for use by other crates. The functions do
//! nothing: each law is the function's ensures clause.

ghost use Rattle.std.specs.Prelude.{◌++◌, Bool, IsTrue, List, [], ℕ};
ghost use Rattle.cable_model.specs.declared.seat.Seat.{Seat as SeatValue};
ghost use Rattle.cable_model.specs.Transcript.{ArePutOnce, Entry};
ghost use Rattle.live_cables.specs.Playing.{IsPlayed, are_lost};

/// If `a` may follow `t`, all losses of `a` happened, and `b` may follow both, then `a` followed by
/// `b` may follow `t`. No two frames have the same stamp.
pub fn plays_then()
    ensures { (seats : List SeatValue) (losing : ℕ → Bool) (t a b : List Entry)
        → ArePutOnce (t ++ (a ++ b)) → IsPlayed seats losing t a
        → IsTrue (are_lost seats losing t a) → IsPlayed seats losing (t ++ a) b
        → IsPlayed seats losing t (a ++ b) }
{}

/// If all losses of each of two parts happened, all losses of the whole did.
pub fn losses_then()
    ensures { (seats : List SeatValue) (losing : ℕ → Bool) (t a b : List Entry)
        → ArePutOnce (t ++ (a ++ b)) → IsTrue (are_lost seats losing t a)
        → IsTrue (are_lost seats losing (t ++ a) b) → IsTrue (are_lost seats losing t (a ++ b)) }
{}

/// No entries may follow any transcript, and all their losses happened.
pub fn nothing_plays()
    ensures { (seats : List SeatValue) (losing : ℕ → Bool) (t : List Entry)
        → IsPlayed seats losing t [] × IsTrue (are_lost seats losing t []) }
{}
