//! Frames that a seat's station puts on its cable.

ghost use Rattle.std.specs.Prelude.{◌≡◌, ◌<◌, ◌≤◌, ◌+◌, ◌⊎◌, ◌↔◌, None, true, length};
ghost use Rattle.std.specs.Prelude.{IfErr, IsOk, IsSome, OnErr, OnOk, slice_get};
ghost use Rattle.cable_model.specs.Outcomes.{is_seated};
ghost use Rattle.cable_model.specs.Rooms.{held_rooms};
ghost use Rattle.live_cables.specs.Holding.{KnowsSame};
ghost use Rattle.live_cables.specs.Putting.{IsAsked, IsMade, IsPut};
ghost use Rattle.live_cables.specs.Steps.{HasNoRoom, Puts};
ghost use Rattle.station.specs.Lawful.{IsNext};

use crate::neighbours::Neighbours;
use at_base::{Addr, Bytes, Error, Hw};
use cable_model::{Cables, Seat};
use station::{Kind, Next};
use std::alloc::Global;

/// The result for an error of the cables: `Full` and `Memory` stay errors, and every other error
/// means that there is nothing to do.
pub fn stop(error: Error) -> Result<(), Error>
    ensures refused { IfErr result (λ e. (e ≡ Error.Full) ⊎ (e ≡ Error.Memory)) }
    ensures full { (result ≡ Err Error.Full) ↔ (error ≡ Error.Full) }
    ensures memory { (result ≡ Err Error.Memory) ↔ (error ≡ Error.Memory) }
    ensures long { error ≡ Error.TooLong → IsOk result }
{
    match error {
        Error::Full => Err(Error::Full),
        Error::Memory => Err(Error::Memory),
        _ => Ok(()),
    }
}

/// Puts a frame on the cable of a seat, unless it is too long for a frame. Errors, in this order:
/// `Full`, `Memory`.
pub fn put(cables: &mut Cables, seat: Seat, to: Hw, kind: Kind, bytes: Bytes) -> Result<(), Error>
    ensures put { OnOk result (IsPut seat to kind bytes cables.old cables.new) }
    ensures rooms { cables.new.rooms ≡ cables.old.rooms }
    ensures full { (result ≡ Err Error.Full)
        ↔ ((is_seated cables.old.seats seat.cable seat.station ≡ true) × (length bytes ≤ 599)
        × HasNoRoom 1 cables.old) }
    ensures long { is_seated cables.old.seats seat.cable seat.station ≡ true → 599 < length bytes
        → IsOk result × (cables.new ≡ cables.old) }
    ensures memory { result ≡ Err Error.Memory → HasNoRoom 1 cables.new → ⊥ }
    ensures kept { OnErr result (cables.new ≡ cables.old) }
    ensures puts { Puts cables.old cables.new }
    ensures refused { IfErr result (λ e. (e ≡ Error.Full) ⊎ (e ≡ Error.Memory)) }
{
    match cables.put(seat.cable, seat.station, to, kind, bytes) {
        Ok(_) => Ok(()),
        Err(error) => stop(error),
    }
}

/// Sends a datagram that a seat's station made. It is held if the hardware address of its next
/// station isn't known. Errors, in this order: `Full`, `Memory`; nothing changes then.
pub fn send(
    cables: &mut Cables,
    near: &mut Neighbours,
    seat: Seat,
    next: Next,
    bytes: Bytes,
) -> Result<(), Error>
    requires next { IsNext next }
    requires rooms { cables.old.rooms ≡ held_rooms }
    ensures made { OnOk result (IsMade seat next bytes (cables.old, near.old) (cables.new, near.new)) }
    ensures full { (result ≡ Err Error.Full)
        ↔ ((is_seated cables.old.seats seat.cable seat.station ≡ true) × (length bytes ≤ 599)
        × HasNoRoom 5 cables.old) }
    ensures long { is_seated cables.old.seats seat.cable seat.station ≡ true → 599 < length bytes
        → IsOk result × (cables.new ≡ cables.old) }
    ensures memory { result ≡ Err Error.Memory → HasNoRoom 5 cables.new → ⊥ }
    ensures kept { OnErr result (cables.new ≡ cables.old) }
    ensures near { KnowsSame near.old near.new }
    ensures near_stays { OnErr result (near.new ≡ near.old) }
    ensures puts { Puts cables.old cables.new }
    ensures rooms { cables.new.rooms ≡ held_rooms }
    ensures refused { IfErr result (λ e. (e ≡ Error.Full) ⊎ (e ≡ Error.Memory)) }
{
    match cables.send(seat.station, seat.cable, next, bytes, near) {
        Ok(()) => Ok(()),
        Err(error) => stop(error),
    }
}

/// Sends an AARP request for an address on the cable of a seat; `limit` is the limit of the cables.
/// Errors, in this order: `Full`, `Memory`.
pub fn ask(
    alloc: Global,
    cables: &mut Cables,
    near: &Neighbours,
    limit: u32,
    index: usize,
    addr: Addr,
) -> Result<(), Error>
    requires { limit ≡ cables.old.limit }
    ensures asked { OnOk result (IsAsked (slice_get near.now.seats index)
        (slice_get near.now.own index) addr cables.old cables.new) }
    ensures full { (result ≡ Err Error.Full) → HasNoRoom 1 cables.old }
    ensures memory { result ≡ Err Error.Memory → HasNoRoom 1 cables.new → ⊥ }
    ensures no_room { IsSome (slice_get near.now.seats index) → HasNoRoom 1 cables.old
        → result ≡ Err Error.Full }
    // Nobody asks where there is no seat.
    ensures nobody { slice_get near.now.seats index ≡ None
        → IsOk result × (cables.new ≡ cables.old) }
    ensures rooms { cables.new.rooms ≡ cables.old.rooms }
    ensures kept { OnErr result (cables.new ≡ cables.old) }
    ensures puts { Puts cables.old cables.new }
    ensures refused { IfErr result (λ e. (e ≡ Error.Full) ⊎ (e ≡ Error.Memory)) }
{
    let Some(seat) = near.seat(index) else {
        return Ok(());
    };
    let Some(packet) = near.request(index, addr) else {
        return Ok(());
    };
    // Too little room is an error before too little memory for the bytes.
    if cables.transcript().len() >= limit as usize {
        return Err(Error::Full);
    }
    match Bytes::copy(alloc, &packet) {
        Ok(bytes) => put(cables, seat, Hw::ALL, Kind::Aarp, bytes),
        Err(_) => Err(Error::Memory),
    }
}
