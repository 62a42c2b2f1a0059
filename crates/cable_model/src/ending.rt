//! Frames that are taken or lost.

ghost use Rattle.std.specs.Prelude.{◌≡◌, ◌<◌, ◌+◌, [], ◌∷◌, List, Contains, IfSome, OnSome, is_some, true};
ghost use Rattle.std.specs.Prelude.{vec_len};
ghost use Rattle.std.specs.List.{list_any};
ghost use Rattle.cable_model.specs.Books.{Grows, HasRoom, IsBook, IsDue, Uses, pair_at, said};
ghost use Rattle.cable_model.specs.Outcomes.{has_stamp, is_named};
ghost use Rattle.cable_model.specs.Pending.{pending};
ghost use Rattle.cable_model.specs.declared.seat.Seat.{Seat as SeatValue};
ghost use Rattle.cable_model.specs.Transcript.{Lost, Took, has_put};
ghost use Rattle.cable_model.specs.Waits.{is_at};

use crate::due::Due;
use crate::entry::Entry;
use crate::log::Log;

/// The pair with this stamp and this station in a log, if it is pending.
pub fn find_pair(log: &Log, stamp: u32, station: u16) -> Option<Due>
    ensures value { (seats : List SeatValue) → IsBook seats log.now → is_some result
        ≡ list_any (is_named stamp station) (pending seats (said log.now)) }
    ensures due { (seats : List SeatValue) → IsBook seats log.now
        → IfSome result (λ d. IsDue seats (said log.now) d) }
    ensures pending { (seats : List SeatValue) → IsBook seats log.now → IfSome result
        (λ d. Contains (pending seats (said log.now)) (pair_at seats (said log.now) d)) }
    ensures of_it { IfSome result (λ d. is_at stamp station d ≡ true) }
    ensures put { (seats : List SeatValue) → IsBook seats log.now
        → OnSome result (list_any (has_put stamp) (said log.now) ≡ true) }
{
    log.due.find(stamp, station)
}

/// One of the pairs of the frame with this stamp in a log, if it is pending for any station.
pub fn find_frame(log: &Log, stamp: u32) -> Option<Due>
    ensures value { (seats : List SeatValue) → IsBook seats log.now → is_some result
        ≡ list_any (has_stamp stamp) (pending seats (said log.now)) }
    ensures due { (seats : List SeatValue) → IsBook seats log.now
        → IfSome result (λ d. IsDue seats (said log.now) d) }
    ensures pending { (seats : List SeatValue) → IsBook seats log.now → IfSome result
        (λ d. Contains (pending seats (said log.now)) (pair_at seats (said log.now) d)) }
    ensures of_it { IfSome result (λ d. stamp ≡ d.stamp) }
    ensures put { (seats : List SeatValue) → IsBook seats log.now
        → OnSome result (list_any (has_put stamp) (said log.now) ≡ true) }
{
    log.due.of_frame(stamp)
}

/// Adds the entry that a station took a frame, and removes the pair of both.
pub fn took(log: &mut Log, stamp: u32, station: u16)
    requires room { HasRoom log.old 1 0 0 0 }
    requires put { list_any (has_put stamp) (said log.old) ≡ true }
    ensures grows { Grows log.old log.new (Took stamp station ∷ []) [] }
    ensures book { (seats : List SeatValue) → IsBook seats log.old → IsBook seats log.new }
    ensures kept { log.new.kept ≡ log.old.kept }
    ensures waiting { log.new.waiting ≡ log.old.waiting }
    ensures next_stamp { log.new.next_stamp ≡ log.old.next_stamp }
    ensures one { vec_len log.new.lines ≡ vec_len log.old.lines + 1 }
    ensures uses { Uses log.old log.new 1 0 0 0 }
{
    log.lines.push_reserved(Entry::Took { stamp, station });
    log.due.remove(stamp, station);
}

/// Adds the entry that a frame was lost or a held datagram given up, and removes all its pairs or
/// the datagram.
pub fn lost(log: &mut Log, stamp: u32)
    requires room { HasRoom log.old 1 0 0 0 }
    requires earlier { stamp < log.old.next_stamp }
    ensures grows { Grows log.old log.new (Lost stamp ∷ []) [] }
    ensures book { (seats : List SeatValue) → IsBook seats log.old → IsBook seats log.new }
    ensures kept { log.new.kept ≡ log.old.kept }
    ensures waiting { log.new.waiting ≡ log.old.waiting }
    ensures next_stamp { log.new.next_stamp ≡ log.old.next_stamp }
    ensures one { vec_len log.new.lines ≡ vec_len log.old.lines + 1 }
    ensures uses { Uses log.old log.new 1 0 0 0 }
{
    log.lines.push_reserved(Entry::Lost { stamp });
    log.due.remove_frame(stamp);
    log.holdings.remove_frame(stamp);
}
