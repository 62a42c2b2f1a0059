//! Laws of frozen worlds.

ghost use Rattle.std.specs.Prelude.{◌≡◌, ◌⊎◌, ◌↔◌, true, IfErr, IfOk, IsOkUnless};
ghost use Rattle.at_base.specs.Spelling.{Spells};
ghost use Rattle.table_image.specs.Spelling.{image_spelling};
ghost use Rattle.world.specs.Frozen as spec;

use crate::world::World;
use at_base::{Bytes, Error};
use image_feed::read;
use rtmp::RouteTable;
use std::alloc::Global;
use table_image::{Image, Version, write};

/// The bytes of an image, and the image that is read from them: the same image. Error: `Memory`.
fn read_back(alloc: Global, image: &Image) -> Result<(Bytes, Image), Error>
    ensures bytes { IfOk result (λ x. Spells image_spelling x.0 image.now) }
    ensures same { IfOk result (λ x. x.1 ≡ image.now) }
    ensures refused { IsOkUnless result Error.Memory }
{
    let bytes = write(alloc, image)?;
    let again = read(alloc, bytes.as_slice())?;
    Ok((bytes, again))
}

/// The bytes of the image of a world's current tables, and the image that is read from them: the
/// same image. Error: `Memory`.
pub fn frozen_is_read_back<T: RouteTable>(
    alloc: Global,
    world: &World<T>,
) -> Result<(Bytes, Image), Error>
    ensures bytes { IfOk result (λ x. Spells image_spelling x.0 (spec.frozen world.now)) }
    ensures same { IfOk result (λ x. x.1 ≡ spec.frozen world.now) }
    ensures refused { IsOkUnless result Error.Memory }
{
    let image = world.freeze()?;
    read_back(alloc, &image)
}

/// The same in a version of the format. Errors: those of `World::freeze_as`.
pub fn frozen_as_is_read_back<T: RouteTable>(
    alloc: Global,
    world: &World<T>,
    version: Version,
) -> Result<(Bytes, Image), Error>
    ensures bytes { IfOk result
        (λ x. Spells image_spelling x.0 (spec.frozen_as version world.now)) }
    ensures same { IfOk result (λ x. x.1 ≡ spec.frozen_as version world.now) }
    ensures full { (result ≡ Err Error.Full)
        ↔ ((version ≡ Version.V1) × (spec.needs_version_2 world.now ≡ true)) }
    ensures refused { IfErr result (λ e. (e ≡ Error.Full) ⊎ (e ≡ Error.Memory)) }
{
    let image = match world.freeze_as(version) {
        Ok(image) => image,
        Err(error) => return Err(error),
    };
    read_back(alloc, &image)
}
