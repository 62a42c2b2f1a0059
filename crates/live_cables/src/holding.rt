//! Held datagrams that go out, or are given up.

ghost use Rattle.std.specs.Prelude.{◌≡◌, ◌≤◌, ◌<◌, ◌+◌, ◌⊎◌, ℕ, IfErr, OnErr, OnOk, Some, filter, length, map, not, take};
ghost use Rattle.aarp.specs.Mapping.{is_for};
ghost use Rattle.cable_model.specs.Logs.{Adds, transcript};
ghost use Rattle.cable_model.specs.Outgoing.{let_go};
ghost use Rattle.live_cables.specs.Holding.{AreReleased, AreShed, IsReleased};
ghost use Rattle.live_cables.specs.Steps.{HasNoRoom, Puts};

use aarp::Mapper;
use at_base::{Addr, Error, Hw};
use cable_model::Cables;

/// Puts the frames of the datagrams that are held for an address on their cables, oldest first, and
/// takes them out. The caller ensures that the cables have room for an entry for each of them.
pub fn release(cables: &mut Cables, mapper: &mut Mapper, addr: Addr, hw: Hw)
    requires { length (filter (is_for addr) mapper.old.held) ≤ cables.old.spare }
    ensures released { AreReleased hw (map (λ h. h.stamp) (filter (is_for addr) mapper.old.held))
        cables.old cables.new }
    ensures left { mapper.new ≡ record mapper.old {
      held = filter (λ h. not (is_for addr h)) mapper.old.held;
    } }
    ensures puts { Puts cables.old cables.new }
{
    let Some(held) = mapper.release(addr) else {
        return;
    };
    put_one(cables, held.stamp, hw);
    release(cables, mapper, addr, hw)
}

/// Puts the frame of the datagram that is held with this stamp on its cable, if there is one. The
/// caller ensures that the cables have room for an entry.
fn put_one(cables: &mut Cables, stamp: Option<u32>, hw: Hw)
    requires { 1 ≤ cables.old.spare }
    ensures released { IsReleased hw stamp cables.old cables.new }
    ensures spare { cables.old.spare ≤ cables.new.spare + 1 }
    ensures puts { Puts cables.old cables.new }
{
    if let Some(stamp) = stamp {
        let _put = cables.put_held(stamp, hw);
    }
}

/// Gives up the datagram that is held with this stamp, if there is one. Errors, in this order:
/// `Full`, `Memory`; nothing changes then.
fn shed_one(cables: &mut Cables, stamp: u32) -> Result<(), Error>
    ensures shed { OnOk result (Adds cables.old cables.new (let_go (transcript cables.old) (Some stamp))) }
    ensures full { (result ≡ Err Error.Full) → HasNoRoom 1 cables.new }
    ensures memory { result ≡ Err Error.Memory → HasNoRoom 1 cables.new → ⊥ }
    ensures kept { OnErr result (cables.new ≡ cables.old) }
    ensures refused { IfErr result (λ e. (e ≡ Error.Full) ⊎ (e ≡ Error.Memory)) }
{
    match cables.room(1) {
        Ok(()) => {}
        Err(error) => return Err(error),
    }
    let _shed = cables.shed(stamp);
    Ok(())
}

/// Gives up the datagrams that are held with these stamps, in order. Errors, one by one: `Full`,
/// `Memory`; the first of them are given up then.
pub fn shed_all(cables: &mut Cables, stamps: &[u32]) -> Result<(), Error>
    ensures shed { OnOk result (AreShed stamps.now cables.old cables.new) }
    ensures part { (n : ℕ) × AreShed (take n stamps.now) cables.old cables.new
        × OnErr result (n < length stamps.now) }
    ensures full { (result ≡ Err Error.Full) → HasNoRoom 1 cables.new }
    ensures memory { result ≡ Err Error.Memory → HasNoRoom 1 cables.new → ⊥ }
    ensures refused { IfErr result (λ e. (e ≡ Error.Full) ⊎ (e ≡ Error.Memory)) }
{
    match stamps {
        [] => Ok(()),
        [stamp, rest @ ..] => {
            match shed_one(cables, *stamp) {
                Ok(()) => {}
                Err(error) => return Err(error),
            }
            shed_all(cables, rest)
        }
    }
}
