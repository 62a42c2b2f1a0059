//! Requests that are sent again.

ghost use Rattle.std.specs.Prelude.{◌≡◌, ◌≤◌, ◌<◌, ◌⊎◌, ℕ, IfErr, IsOk, IsSome, None, OnErr, OnOk, length, slice_get, take};
ghost use Rattle.live_cables.specs.Putting.{AreAsked};
ghost use Rattle.live_cables.specs.Steps.{HasNoRoom, Puts};

use crate::neighbours::Neighbours;
use crate::putting::ask;
use at_base::{Addr, Error};
use cable_model::Cables;
use std::alloc::Global;

/// Sends an AARP request for each of the addresses on the cable of a seat; `limit` is the limit of
/// the cables. Errors, one by one: `Full`, `Memory`; the first of them are sent then.
pub fn ask_all(
    alloc: Global,
    cables: &mut Cables,
    near: &Neighbours,
    limit: u32,
    seat: usize,
    addrs: &[Addr],
) -> Result<(), Error>
    requires { limit ≡ cables.old.limit }
    ensures asked { OnOk result (AreAsked (slice_get near.now.seats seat)
        (slice_get near.now.own seat) addrs.now cables.old cables.new) }
    ensures part { OnErr result ((n : ℕ) × (n < length addrs.now)
        × AreAsked (slice_get near.now.seats seat)
        (slice_get near.now.own seat) (take n addrs.now) cables.old cables.new) }
    ensures rooms { cables.new.rooms ≡ cables.old.rooms }
    ensures puts { Puts cables.old cables.new }
    ensures full { (result ≡ Err Error.Full) → HasNoRoom 1 cables.new }
    ensures memory { result ≡ Err Error.Memory → HasNoRoom 1 cables.new → ⊥ }
    ensures no_room { IsSome (slice_get near.now.seats seat) → 1 ≤ length addrs.now
        → HasNoRoom 1 cables.old → result ≡ Err Error.Full }
    ensures nobody { slice_get near.now.seats seat ≡ None
        → IsOk result × (cables.new ≡ cables.old) }
    ensures refused { IfErr result (λ e. (e ≡ Error.Full) ⊎ (e ≡ Error.Memory)) }
{
    match addrs {
        [] => Ok(()),
        [addr, rest @ ..] => {
            match ask(alloc, cables, near, limit, seat, *addr) {
                Ok(()) => {}
                Err(error) => return Err(error),
            }
            ask_all(alloc, cables, near, limit, seat, rest)
        }
    }
}
