//! Worlds that have run from their beginning.

ghost use Rattle.std.specs.Prelude.{◌≡◌, ◌⊎◌, ◌↔◌, IfErr, IfOk, IsOkUnless, OnOk, Some, true};
ghost use Rattle.lasting.specs.Begun.{HasRun, IsNextTick};
ghost use Rattle.table_image.specs.Bounds.{IsBounded};
ghost use Rattle.table_image.specs.declared.version.Version.TheVariants.{V1};
ghost use Rattle.world.specs.Ended.{Over, Stops, Ticked};
ghost use Rattle.world.specs.Frozen.{frozen_as, needs_version_2};

use at_base::Error;
use internet_file::Plan;
use rtmp::RouteTable;
use std::alloc::Global;
use table_image::{Image, Version};
use world::World;

/// A world of a plan before its first tick: it has run from its beginning. Error: `Memory`.
pub fn begin<T: RouteTable>(alloc: Global, plan: Plan) -> Result<World<T>, Error>
    ensures ran { IfOk result (λ w. HasRun w) }
    ensures refused { IsOkUnless result Error.Memory }
{
    World::new(alloc, plan)
}

/// Carries out a world's next tick. A world that has run from its beginning has done so after a tick
/// that answers Ok. Errors: those of `World::tick`.
pub fn go_on<T: RouteTable>(world: &mut World<T>) -> Result<(), Error>
    ensures next { OnOk result (IsNextTick world.old world.new) }
    ensures ran { HasRun world.old → OnOk result (HasRun world.new) }
    ensures over { Over world.old world.new result }
    ensures stops { Stops world.old world.new result }
    ensures ticked { Ticked world.old world.new result }
    ensures refused { IfErr result (λ e.
        (world.old.stopped ≡ Some e) ⊎ (e ≡ Error.Full) ⊎ (e ≡ Error.Memory)) }
{
    world.tick()
}

/// A fact for the prover: every image is within the limits. Does nothing.
fn recall_bounded(image: &Image)
    ensures { IsBounded image.now }
{
    let _routers = image.routers();
}

/// The image of a world's current tables, in version 1. Its tables are within the limits of an image.
/// Errors: those of `World::freeze_as`.
pub fn frozen<T: RouteTable>(world: &World<T>) -> Result<Image, Error>
    ensures image { IfOk result (λ image. image ≡ frozen_as V1 world.now) }
    ensures bounded { IfOk result (λ image. IsBounded (frozen_as V1 world.now)) }
    ensures full { (result ≡ Err Error.Full) ↔ (needs_version_2 world.now ≡ true) }
    ensures refused { IfErr result (λ e. (e ≡ Error.Full) ⊎ (e ≡ Error.Memory)) }
{
    match world.freeze_as(Version::V1) {
        Ok(image) => {
            recall_bounded(&image);
            Ok(image)
        }
        Err(error) => Err(error),
    }
}
