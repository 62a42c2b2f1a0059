//! The image of one router of a plan, without the other stations.

ghost use Rattle.std.specs.Prelude.{◌≡◌, ◌∷◌, [], ℕ, IfOk, IsOkUnless, IsTrue, length};
ghost use Rattle.freeze.specs.Alone as spec;
ghost use Rattle.freeze.specs.Frozen.{cables_by, is_long};
ghost use Rattle.freeze.specs.Freezing.{frozen_router};
ghost use Rattle.freeze.specs.Valid.{AreRouters, IsNotInV1, is_on};
ghost use Rattle.internet_file.specs.Sound.{is_router};
ghost use Rattle.planned_stations.specs.Planning.{is_low_router};
ghost use Rattle.zip_zones.specs.Zones.{most_names};

use crate::image::{cables_by, recall_sound};
use crate::needs::{has_long_cable, is_long};
use crate::routers::freeze_router;
use crate::tables::indexes_of;
use at_base::Error;
use internet_file::Plan;
use router::Router;
use rtmp::RouteTable;
use std::alloc::Global;
use table_image::{Image, Version};

/// The version that an image of the plan's cables and of this router needs.
fn version_for<T: RouteTable>(plan: &Plan, router: &Router<T>) -> Version
    ensures { result ≡ spec.version_for plan.now router.now }
{
    if has_long_cable(plan.cables()) || is_long(router.zones().most_names()) {
        Version::V2
    } else {
        Version::V1
    }
}

/// The list of one router.
fn router_in<T: RouteTable>(
    alloc: Global,
    version: Version,
    planned: &internet_file::Router,
    router: &Router<T>,
) -> Result<Vec<table_image::Router>, Error>
    requires low { IsTrue (is_low_router planned.now) }
    ensures ok { IfOk result (λ frozen. frozen.items
        ≡ frozen_router version (cables_by planned.now) router.now [] ∷ []) }
    ensures valid { (count : ℕ) → IsTrue (is_on count planned.now)
        → length planned.now.port ≡ length router.now.ports
        → IsNotInV1 version (is_long (most_names router.now.zones))
        → IfOk result (λ frozen. AreRouters version count frozen.items) }
    ensures refused { IsOkUnless result Error.Memory }
{
    let cables = indexes_of(alloc, planned)?;
    let frozen = freeze_router(alloc, version, router, cables.as_slice(), &[])?;
    let mut routers = Vec::with_capacity(alloc, 1)?;
    routers.push(frozen)?;
    Ok(routers)
}

/// The image of the cables of a plan and of one router, which is that of the plan with the contents
/// that it has now: without nodes, without other routers, and without mappings. It is of version 2
/// where a cable or a zone list has more than 64 names, and else of version 1. The caller ensures that
/// the router is one of the plan, with its ports. Error: `Memory`.
pub fn image_of_one<T: RouteTable>(
    alloc: Global,
    plan: &Plan,
    planned: &internet_file::Router,
    router: &Router<T>,
) -> Result<Image, Error>
    requires sound { IsTrue (is_router plan.now.cables planned.now) }
    requires low { IsTrue (is_low_router planned.now) }
    requires ports { length planned.now.port ≡ length router.now.ports }
    ensures ok { IfOk result (λ image. image ≡ spec.alone plan.now planned.now router.now) }
    ensures refused { IsOkUnless result Error.Memory }
{
    recall_sound(plan);
    let version = version_for(plan, router);
    let cables = cables_by(alloc, plan)?;
    let routers = router_in(alloc, version, planned, router)?;
    Image::make(version, cables, routers, Vec::new(alloc))
}
