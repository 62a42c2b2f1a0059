//! The order of the actions.

ghost use Rattle.std.specs.Prelude.{◌≡◌, IfOk, IsOkUnless};
ghost use Rattle.world.specs.Scheduling as spec;
ghost use Rattle.world.specs.Scheduling.{IsSchedule, tick_or_0};

use at_base::Error;
use internet_file::Action;
use std::alloc::Global;

/// The tick of the action at an index.
fn tick_of(actions: &[Action], index: u32) -> u32
    ensures { result ≡ tick_or_0 actions.now index }
{
    match actions.get(index as usize) {
        Some(action) => action.at,
        None => 0,
    }
}

/// The sort key of the action at an index: by its tick, then by its index in the file.
fn turn_of(actions: &[Action], index: u32) -> u64
    ensures { result ≡ spec.turn_of actions.now index }
{
    u64::from(tick_of(actions, index)) * 4_294_967_296 + u64::from(index)
}

/// The indices of the actions, sorted by tick and then by the order of the file, the last action
/// first. Error: `Memory`.
pub(crate) fn schedule_of(alloc: Global, actions: &[Action]) -> Result<Vec<u32>, Error>
    ensures all { IfOk result (λ schedule. IsSchedule actions.now schedule.items) }
    ensures refused { IsOkUnless result Error.Memory }
{
    let Ok(len) = u32::try_from(actions.len()) else {
        return Err(Error::Memory);
    };
    let mut indices: Vec<u32> = (0..len).collect(alloc)?;
    indices.sort_unstable_by_key(
        |index: &u32| -> u64
            ensures { result ≡ spec.turn_of actions.entry.now index.now }
        { turn_of(actions, *index) },
    );
    indices.reverse();
    Ok(indices)
}
