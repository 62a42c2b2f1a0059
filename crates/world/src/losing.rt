//! The cables that lose frames in a tick.

ghost use Rattle.std.specs.Prelude.{◌≡◌, ◌||◌, ◌≤◌, ℕ, length, IfOk, IsOkUnless, IsTrue, OnErr};
ghost use Rattle.std.specs.List.{list_all, list_any};
ghost use Rattle.live_cables.specs.Steps.{loses_by};
ghost use Rattle.world.specs.Losing as spec;
ghost use Rattle.world.specs.Losing.{is_lossy, loses_at, loses_in, marked};

use at_base::Error;
use internet_file::{Loss, Plan};
use std::alloc::Global;

/// Whether the loss includes a tick.
fn is_on(loss: &Loss, now: u32) -> bool
    ensures { result ≡ spec.is_on now loss.now }
{
    loss.first <= now && now <= loss.last
}

/// Whether one of the losses includes a tick.
fn any_is_on(losses: &[Loss], now: u32) -> bool
    ensures { result ≡ list_any (spec.is_on now) losses.now }
{
    losses.iter().any(|loss| is_on(loss, now))
}

/// Marks the cable of a loss, if the loss includes a tick.
fn mark(losing: &mut Vec<bool>, loss: &Loss, now: u32)
    requires from { 1 ≤ loss.now.cable }
    requires to { loss.now.cable ≤ length losing.old.items }
    ensures { losing.new.items ≡ marked now loss.now losing.old.items }
{
    if is_on(loss, now) {
        losing[loss.cable as usize - 1] = true;
    }
}

/// Marks the cables of those losses that include a tick.
fn mark_all(losing: &mut Vec<bool>, losses: &[Loss], now: u32)
    requires { IsTrue (list_all (is_lossy (length losing.old.items)) losses.now) }
    ensures { (cable : ℕ) → loses_by losing.new.items cable
        ≡ (loses_by losing.old.items cable || loses_in now losses.now cable) }
{
    for index in 0..losses.len() {
        mark(losing, &losses[index], now);
    }
}

/// For each of `cables` cables, whether it loses frames in a tick; an empty list if none does.
/// Error: `Memory`.
fn losing_by(alloc: Global, cables: usize, losses: &[Loss], now: u32) -> Result<Vec<bool>, Error>
    requires { IsTrue (list_all (is_lossy cables) losses.now) }
    ensures losing { IfOk result
        (λ losing. (cable : ℕ) → loses_by losing.items cable ≡ loses_in now losses.now cable) }
    ensures refused { IsOkUnless result Error.Memory }
    // Where no loss includes the tick, no memory is needed.
    ensures none { OnErr result (IsTrue (list_any (spec.is_on now) losses.now)) }
{
    let mut losing = Vec::new(alloc);
    if !any_is_on(losses, now) {
        return Ok(losing);
    }
    losing.resize(cables, false)?;
    mark_all(&mut losing, losses, now);
    Ok(losing)
}

/// For each cable of a plan, whether it loses frames in a tick; an empty list if none does. Error:
/// `Memory`.
pub fn losing_at(alloc: Global, plan: &Plan, now: u32) -> Result<Vec<bool>, Error>
    ensures losing { IfOk result
        (λ losing. (cable : ℕ) → loses_by losing.items cable ≡ loses_at plan.now now cable) }
    ensures refused { IsOkUnless result Error.Memory }
    ensures none { OnErr result (IsTrue (list_any (spec.is_on now) plan.now.losses)) }
{
    losing_by(alloc, plan.cables().len(), plan.losses(), now)
}
