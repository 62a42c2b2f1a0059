//! Sends a station's outputs of a tick.

ghost use Rattle.std.specs.Prelude.{IfErr, IsOk, OnErr, OnOk, [], ◌≡◌, ◌≤◌, ◌⊎◌, ◌↔◌, option_and_then};
ghost use Rattle.std.specs.Prelude.{slice_get};
ghost use Rattle.std.specs.List.{AllByRecursion};
ghost use Rattle.cable_model.specs.Rooms.{held_rooms};
ghost use Rattle.live_cables.specs.Finding.{seat_by};
ghost use Rattle.live_cables.specs.Holding.{KnowsSame};
ghost use Rattle.live_cables.specs.Putting.{AreGiven, AreGivenUpTo, IsGiven, first_room, room_of};
ghost use Rattle.live_cables.specs.Steps.{HasNoRoom, IsSendable, Puts};

use crate::neighbours::Neighbours;
use crate::putting::{put, send};
use at_base::Error;
use cable_model::{Cables, Seat};
use station::{Kind, Output, Outputs};

/// The seat of a station's port.
fn seat_of(near: &Neighbours, station: u16, port: u8) -> Option<Seat>
    ensures { result ≡ option_and_then (slice_get near.now.seats) (seat_by near.now.seats station port) }
{
    match near.index_by(station, port) {
        Some(index) => near.seat(index),
        None => None,
    }
}

/// Sends an output of a station. Outputs that a station doesn't make in a tick are ignored. Errors,
/// in this order: `Full`, `Memory`; nothing changes then.
fn give(
    cables: &mut Cables,
    near: &mut Neighbours,
    station: u16,
    output: Output,
) -> Result<(), Error>
    requires sendable { IsSendable output }
    requires seats { near.old.seats ≡ cables.old.seats }
    requires rooms { cables.old.rooms ≡ held_rooms }
    ensures given { OnOk result (IsGiven station output (cables.old, near.old) (cables.new, near.new)) }
    ensures puts { Puts cables.old cables.new }
    ensures near { KnowsSame near.old near.new }
    ensures rooms { cables.new.rooms ≡ held_rooms }
    ensures full { (result ≡ Err Error.Full) ↔ ((1 ≤ room_of near.old.seats station output)
        × HasNoRoom (room_of near.old.seats station output) cables.old) }
    ensures ignored { room_of near.old.seats station output ≡ 0
        → IsOk result × (cables.new ≡ cables.old) }
    ensures kept { OnErr result (cables.new ≡ cables.old) }
    ensures near_stays { OnErr result (near.new ≡ near.old) }
    ensures refused { IfErr result (λ e. (e ≡ Error.Full) ⊎ (e ≡ Error.Memory)) }
{
    match output {
        Output::Made { port, next, bytes } => match seat_of(near, station, port) {
            Some(seat) => send(cables, near, seat, next, bytes),
            None => Ok(()),
        },
        Output::Wire { port, to, bytes } => match seat_of(near, station, port) {
            Some(seat) => put(cables, seat, to, Kind::Aarp, bytes),
            None => Ok(()),
        },
        _ => Ok(()),
    }
}

/// Sends the outputs of a station, the oldest first. Errors, output by output: `Full`, `Memory`; the
/// first of them are sent then.
pub fn give_all(
    cables: &mut Cables,
    near: &mut Neighbours,
    station: u16,
    outputs: &mut Outputs,
) -> Result<(), Error>
    requires sendable { AllByRecursion IsSendable outputs.old.items }
    requires seats { near.old.seats ≡ cables.old.seats }
    requires rooms { cables.old.rooms ≡ held_rooms }
    ensures given { OnOk result (AreGiven station outputs.old.items (cables.old, near.old) (cables.new, near.new)) }
    ensures part { IfErr result (λ e. AreGivenUpTo e station outputs.old.items outputs.new.items
        (cables.old, near.old) (cables.new, near.new)) }
    ensures puts { Puts cables.old cables.new }
    ensures near { KnowsSame near.old near.new }
    ensures rooms { cables.new.rooms ≡ held_rooms }
    ensures full { (result ≡ Err Error.Full) → HasNoRoom 5 cables.new }
    ensures no_room { 1 ≤ first_room near.old.seats station outputs.old.items
        → HasNoRoom (first_room near.old.seats station outputs.old.items) cables.old
        → result ≡ Err Error.Full }
    ensures memory { result ≡ Err Error.Memory → HasNoRoom 1 cables.new → ⊥ }
    ensures refused { IfErr result (λ e. (e ≡ Error.Full) ⊎ (e ≡ Error.Memory)) }
    ensures emptied { OnOk result (outputs.new.items ≡ []) }
{
    let output = match outputs.pop() {
        Some(output) => output,
        None => return Ok(()),
    };
    match give(cables, near, station, output) {
        Ok(()) => {}
        Err(error) => return Err(error),
    }
    give_all(cables, near, station, outputs)
}
