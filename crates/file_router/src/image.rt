//! The image of a router's tables.

ghost use Rattle.std.specs.Prelude.{◌≡◌, IfOk, IsOkUnless, IsTrue, length};
ghost use Rattle.freeze.specs.Alone.{alone};
ghost use Rattle.internet_file.specs.Sound.{is_router};
ghost use Rattle.planned_stations.specs.Planning.{is_low_router};

use at_base::Error;
use cabled::CabledRouter;
use freeze::image_of_one;
use internet_file::{Plan, Router};
use rtmp::Routes;
use std::alloc::Global;
use table_image::Image;

/// The image of a plan's cables and of a router that runs on them alone, as it is now: without
/// mappings. The caller ensures that it is this router of the plan. Error: `Memory`.
pub fn image_of(
    alloc: Global,
    plan: &Plan,
    planned: &Router,
    router: &CabledRouter<Routes>,
) -> Result<Image, Error>
    requires sound { IsTrue (is_router plan.now.cables planned.now) }
    requires low { IsTrue (is_low_router planned.now) }
    requires ports { length planned.now.port ≡ length router.now.living.router.ports }
    ensures ok { IfOk result (λ image. image ≡ alone plan.now planned.now router.now.living.router) }
    ensures refused { IsOkUnless result Error.Memory }
{
    image_of_one(alloc, plan, planned, router.router().router())
}
