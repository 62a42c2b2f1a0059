//! A play, from the plan of its file to its end.

ghost use Rattle.std.specs.Prelude.{◌≡◌, ◌⊎◌, ◌↔◌, Some, true, IfErr, IfOk};
ghost use Rattle.playing.specs.Lives.{Fills, Outgrows};
ghost use Rattle.playing.specs.Plays.{IsPlay, frozen_for};
ghost use Rattle.world.specs.Frozen.{needs_version_2};

use crate::progress::Progress;
use crate::ticking::{Lived, play_plan, recall_lived};
use at_base::Error;
use audit::{Verdict, audit};
use internet_file::Plan;
use rtmp::Routes;
use std::alloc::Global;
use table_image::{Image, Version};
use world::World;

/// A play at its end.
#[derive(Drop)]
pub struct Played {
    /// The world after its last tick.
    pub world: World<Routes>,
    /// How many entries each tick added to the transcript.
    pub counts: Vec<u32>,
    /// The image of the tables.
    pub image: Image,
    /// The verdict on the image.
    pub verdict: Verdict,
}

/// The image of a world's tables, in the version that is asked for if one is. Errors: `Full` for
/// version 1 where the tables need version 2; `Memory`.
fn freeze(world: &World<Routes>, version: Option<Version>) -> Result<Image, Error>
    ensures frozen { IfOk result (λ image. image ≡ frozen_for version world.now) }
    ensures full { (result ≡ Err Error.Full)
        ↔ ((version ≡ Some Version.V1) × (needs_version_2 world.now ≡ true)) }
    ensures refused { IfErr result (λ e. (e ≡ Error.Full) ⊎ (e ≡ Error.Memory)) }
{
    match version {
        Some(version) => world.freeze_as(version),
        None => world.freeze(),
    }
}

/// Carries out a plan to its last tick, freezes the tables into an image, and audits it. The image
/// has the version that is asked for; if none is, it has version 1 unless the tables need version 2.
///
/// Errors: `Full` if the transcript has no room for all entries, and if version 1 is asked for
/// though the tables need version 2; `Memory`.
pub fn play<P: Progress>(
    alloc: Global,
    plan: Plan,
    progress: &mut P,
    version: Option<Version>,
) -> Result<Played, Error>
    ensures played { IfOk result (IsPlay version plan) }
    ensures refused { IfErr result (λ e. (e ≡ Error.Full) ⊎ (e ≡ Error.Memory)) }
    // The error is `Full` only if one of the plan's ticks was stopped for lack of room, or if
    // version 1 was asked for and the tables after the last tick need version 2.
    ensures full { (result ≡ Err Error.Full) → Fills plan ⊎ Outgrows version plan }
{
    let lived = match play_plan(alloc, plan, progress) {
        Ok(lived) => lived,
        Err(error) => return Err(error),
    };
    // Only the prover needs this call: it shows the properties of the world.
    recall_lived(&lived.world);
    let image = match freeze(&lived.world, version) {
        Ok(image) => image,
        Err(error) => return Err(error),
    };
    let verdict = audit(&image);
    let Lived { world, counts } = lived;
    Ok(Played {
        world,
        counts,
        image,
        verdict,
    })
}
