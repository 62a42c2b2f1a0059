//! The ticks of a play.

ghost use Rattle.std.specs.Prelude.{◌≡◌, ◌<◌, ◌⊎◌, ◌+◌, ◌-◌, ◌++◌, ◌∷◌, [], None, IfErr, IfOk, OnOk};
ghost use Rattle.std.specs.Prelude.{IsOkUnless, length};
ghost use Rattle.playing.specs.Lives as spec;
ghost use Rattle.playing.specs.Lives.{Fills, HasLived, Lives};
ghost use Rattle.world.specs.Worlds.{IsWorld};

use crate::progress::Progress;
use at_base::Error;
use internet_file::Plan;
use rtmp::Routes;
use std::alloc::Global;
use world::World;

/// A world, and how many entries each of its ticks added to the transcript.
#[derive(Drop)]
pub(crate) struct Lived {
    pub(crate) world: World<Routes>,
    pub(crate) counts: Vec<u32>,
}

/// A fact for the prover: the properties of a world. Does nothing.
pub(crate) fn recall_lived(world: &World<Routes>)
    ensures { IsWorld world.now }
{
    let _entries = world.transcript();
}

/// Carries out the next tick. Errors: `Full`, `Memory`.
fn play_tick(world: &mut World<Routes>) -> Result<(), Error>
    requires unstopped { world.old.stopped ≡ None }
    ensures plan { world.new.plan ≡ world.old.plan }
    ensures now { OnOk result (world.new.now ≡ world.old.now + 1) }
    ensures going { OnOk result (world.new.stopped ≡ None) }
    ensures lived { OnOk result ((old : Lives world.old) → (new : Lives world.new)
        × (spec.counts world.new new ≡ spec.counts world.old old
        ++ (length world.new.wires.cabling.lines - length world.old.wires.cabling.lines) ∷ [])) }
    ensures full { (result ≡ Err Error.Full) → Lives world.old
        → world.old.now < world.old.plan.ticks → Fills world.old.plan }
    ensures refused { IfErr result (λ e. (e ≡ Error.Full) ⊎ (e ≡ Error.Memory)) }
{
    let ticked = world.tick();
    // Only the prover needs this call: it shows the properties of the world.
    recall_lived(world);
    ticked
}

/// Notes how many entries a tick added to the transcript, by the numbers of entries before and after
/// it. Error: `Memory`.
fn note_tick(counts: &mut Vec<u32>, before: usize, after: usize) -> Result<(), Error>
    ensures noted { OnOk result (counts.new.items ≡ counts.old.items ++ (after - before) ∷ []) }
    ensures refused { IsOkUnless result Error.Memory }
{
    // A transcript has at most 4,000,000 entries, so a count always holds their number.
    match u32::try_from(after.saturating_sub(before)) {
        Ok(count) => counts.push(count)?,
        Err(_) => return Err(Error::Memory),
    }
    Ok(())
}

/// Carries out the next tick, and notes how many entries it added. Errors: `Full`, `Memory`.
fn play_next(world: &mut World<Routes>, counts: &mut Vec<u32>) -> Result<(), Error>
    requires unstopped { world.old.stopped ≡ None }
    ensures plan { world.new.plan ≡ world.old.plan }
    ensures now { OnOk result (world.new.now ≡ world.old.now + 1) }
    ensures going { OnOk result (world.new.stopped ≡ None) }
    ensures lived { OnOk result
        (HasLived world.old counts.old.items → HasLived world.new counts.new.items) }
    ensures full { (result ≡ Err Error.Full) → Lives world.old
        → world.old.now < world.old.plan.ticks → Fills world.old.plan }
    ensures refused { IfErr result (λ e. (e ≡ Error.Full) ⊎ (e ≡ Error.Memory)) }
{
    let before = world.transcript().len();
    match play_tick(world) {
        Ok(()) => note_tick(counts, before, world.transcript().len()),
        Err(error) => Err(error),
    }
}

/// Carries out all ticks of the plan, and notes how many entries each added. Errors: `Full`,
/// `Memory`.
fn play_ticks<P: Progress>(
    world: &mut World<Routes>,
    progress: &mut P,
    counts: &mut Vec<u32>,
) -> Result<(), Error>
    requires unstopped { world.old.stopped ≡ None }
    requires fresh { world.old.now ≡ 0 }
    ensures plan { world.new.plan ≡ world.old.plan }
    ensures whole { OnOk result (world.new.now ≡ world.old.plan.ticks) }
    ensures going { OnOk result (world.new.stopped ≡ None) }
    ensures lived { OnOk result
        (HasLived world.old counts.old.items → HasLived world.new counts.new.items) }
    ensures full { (result ≡ Err Error.Full) → HasLived world.old counts.old.items
        → Fills world.old.plan }
    ensures refused { IfErr result (λ e. (e ≡ Error.Full) ⊎ (e ≡ Error.Memory)) }
{
    for _tick in 0..world.plan().ticks() {
        match play_next(world, counts) {
            Ok(()) => {}
            Err(error) => return Err(error),
        }
        progress.passed(world);
    }
    Ok(())
}

/// The world of a plan, before its first tick. Error: `Memory`.
fn begin(alloc: Global, plan: Plan) -> Result<World<Routes>, Error>
    ensures plan { IfOk result (λ w. w.plan ≡ plan) }
    ensures fresh { IfOk result (λ w. (w.now ≡ 0) × (w.stopped ≡ None)) }
    ensures lived { IfOk result (λ w. HasLived w []) }
    ensures refused { IsOkUnless result Error.Memory }
{
    World::<Routes>::new(alloc, plan)
}

/// Carries out a plan to its last tick. Errors: `Full`, `Memory`.
pub(crate) fn play_plan<P: Progress>(
    alloc: Global,
    plan: Plan,
    progress: &mut P,
) -> Result<Lived, Error>
    ensures plan { IfOk result (λ l. l.world.plan ≡ plan) }
    ensures whole { IfOk result (λ l. l.world.now ≡ l.world.plan.ticks) }
    ensures going { IfOk result (λ l. l.world.stopped ≡ None) }
    ensures lived { IfOk result (λ l. HasLived l.world l.counts.items) }
    ensures full { (result ≡ Err Error.Full) → Fills plan }
    ensures refused { IfErr result (λ e. (e ≡ Error.Full) ⊎ (e ≡ Error.Memory)) }
{
    let mut world = match begin(alloc, plan) {
        Ok(world) => world,
        Err(error) => return Err(error),
    };
    let mut counts = Vec::new(alloc);
    match play_ticks(&mut world, progress, &mut counts) {
        Ok(()) => Ok(Lived { world, counts }),
        Err(error) => Err(error),
    }
}
