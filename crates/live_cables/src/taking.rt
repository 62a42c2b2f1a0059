//! A station takes a frame.

ghost use Rattle.std.specs.Prelude.{◌≡◌, ◌⊎◌, ◌↔◌, false, IfErr, OnErr, OnOk, Some};
ghost use Rattle.std.specs.List.{list_any};
ghost use Rattle.cable_model.specs.Outcomes.{AreSeatsOf, is_named};
ghost use Rattle.cable_model.specs.Rooms.{held_rooms};
ghost use Rattle.live_cables.specs.Finding.{seat_by};
ghost use Rattle.live_cables.specs.Holding.{AreFew};
ghost use Rattle.live_cables.specs.Putting.{IsAnswer};
ghost use Rattle.live_cables.specs.Steps.{HasNoRoom, Takes, most_taken};
ghost use Rattle.live_cables.specs.Taking.{IsTakenIn};
ghost use Rattle.cable_model.specs.Logs.{pending_on};

use crate::answer::{Answer, answer_in};
use crate::neighbours::Neighbours;
use at_base::Error;
use cable_model::Cables;
use station::Station as Taker;

/// The content of the frame that a station is about to take, if the frame is an AARP response.
fn answer_of(cables: &Cables, stamp: u32, station: u16) -> Option<Answer>
    ensures { IsAnswer cables.now stamp station result }
{
    match cables.heard(stamp, station) {
        Some(heard) => answer_in(&heard),
        None => None,
    }
}

/// A station takes a frame with a response, which is learnt at a seat; then the datagrams that were
/// held for its source are put on the cable. Errors as for `take`.
fn take_answer<S: Taker>(
    cables: &mut Cables,
    near: &mut Neighbours,
    seat: usize,
    answer: Answer,
    stamp: u32,
    station: u16,
    taker: &mut S,
) -> Result<(), Error>
    requires seats { AreSeatsOf cables.old.seats station (S.ports_of taker.old) }
    requires rooms { cables.old.rooms ≡ held_rooms }
    requires few { AreFew near.old.maps }
    requires answer { IsAnswer cables.old stamp station (Some answer) }
    requires seat { seat_by near.old.seats station answer.port ≡ Some seat }
    ensures taken { OnOk result (IsTakenIn stamp station (S.ports_of taker.old)
        (λ h added. S.hears taker.old h added taker.new) (cables.old, near.old) (cables.new, near.new)) }
    ensures takes { OnOk result (Takes cables.old cables.new stamp station
        (λ h added. S.hears taker.old h added taker.new)) }
    ensures few { AreFew near.new.maps }
    ensures ports_stay { S.ports_of taker.new ≡ S.ports_of taker.old }
    ensures not_pending { (result ≡ Err Error.NotPending) ↔ (list_any (is_named stamp station)
        (pending_on cables.old) ≡ false) }
    ensures full { (result ≡ Err Error.Full) → HasNoRoom most_taken cables.old }
    ensures refused { IfErr result (λ e. (e ≡ Error.NotPending) ⊎ (e ≡ Error.Full)
        ⊎ (e ≡ Error.Memory)) }
    ensures kept { OnErr result (cables.new ≡ cables.old) }
    ensures near_stays { OnErr result (near.new ≡ near.old) }
    ensures taker_stays { OnErr result (taker.new ≡ taker.old) }
{
    // The transcript tells the prover that the frame which was heard is the one that is taken.
    let _len = cables.transcript().len();
    let is_new = match near.meet(seat, answer) {
        Ok(is_new) => is_new,
        Err(error) => return Err(error),
    };
    match cables.take(stamp, station, taker, near) {
        Ok(()) => {
            near.learn(seat, answer);
            near.release(cables, seat, answer);
            Ok(())
        }
        Err(error) => {
            if is_new {
                near.forget(seat, answer.source);
            }
            Err(error)
        }
    }
}

/// A station takes a frame, and its outputs go onto its cables, or are held; an AARP response is
/// learnt, and the datagrams that were held for its source are put on the cable. The station is the
/// one that looks up and holds.
///
/// Errors: `NotPending`, `Full`, `Memory`. After an error nothing has changed: what was known
/// before is known again.
pub fn take<S: Taker>(
    cables: &mut Cables,
    near: &mut Neighbours,
    stamp: u32,
    station: u16,
    taker: &mut S,
) -> Result<(), Error>
    requires seats { AreSeatsOf cables.old.seats station (S.ports_of taker.old) }
    requires rooms { cables.old.rooms ≡ held_rooms }
    requires few { AreFew near.old.maps }
    ensures taken { OnOk result (IsTakenIn stamp station (S.ports_of taker.old)
        (λ h added. S.hears taker.old h added taker.new) (cables.old, near.old) (cables.new, near.new)) }
    ensures takes { OnOk result (Takes cables.old cables.new stamp station
        (λ h added. S.hears taker.old h added taker.new)) }
    ensures few { AreFew near.new.maps }
    ensures ports_stay { S.ports_of taker.new ≡ S.ports_of taker.old }
    ensures not_pending { (result ≡ Err Error.NotPending) ↔ (list_any (is_named stamp station)
        (pending_on cables.old) ≡ false) }
    ensures full { (result ≡ Err Error.Full) → HasNoRoom most_taken cables.old }
    ensures refused { IfErr result (λ e. (e ≡ Error.NotPending) ⊎ (e ≡ Error.Full)
        ⊎ (e ≡ Error.Memory)) }
    ensures kept { OnErr result (cables.new ≡ cables.old) }
    ensures near_stays { OnErr result (near.new ≡ near.old) }
    ensures taker_stays { OnErr result (taker.new ≡ taker.old) }
{
    let Some(answer) = answer_of(cables, stamp, station) else {
        return cables.take(stamp, station, taker, near);
    };
    match near.index_by(station, answer.port) {
        Some(seat) => take_answer(cables, near, seat, answer, stamp, station, taker),
        None => cables.take(stamp, station, taker, near),
    }
}
