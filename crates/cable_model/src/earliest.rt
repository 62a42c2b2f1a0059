//! The first pending frame.

ghost use Rattle.std.specs.Prelude.{◌≡◌, [], IfNone, IfSome, List};
ghost use Rattle.cable_model.specs.Books.{IsBook, said};
ghost use Rattle.cable_model.specs.Outcomes.{IsLeast};
ghost use Rattle.cable_model.specs.Pending.{pending};
ghost use Rattle.cable_model.specs.declared.seat.Seat.{Seat as SeatValue};

use crate::log::Log;

/// The least stamp of a pending frame, and the least station that this frame is pending for.
pub fn first_pair(log: &Log) -> Option<(u32, u16)>
    ensures some { (seats : List SeatValue) → IsBook seats log.now → IfSome result (λ pair.
        IsLeast (pending seats (said log.now)) pair.0 pair.1) }
    ensures none { (seats : List SeatValue) → IsBook seats log.now
        → IfNone result (pending seats (said log.now) ≡ []) }
{
    match log.due.first() {
        Some(due) => Some((due.stamp, due.station)),
        None => None,
    }
}
