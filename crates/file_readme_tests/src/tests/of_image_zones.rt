//! The example of the README of `image_zones`.

use super::three_cables::IMAGE;
use at_base::{Error, Name};
use image_feed::read;
use image_zones::zones_of;
use std::alloc::Global;
use table_image::Image;

/// How many cables router 0 of the image lists for a zone.
fn listed(alloc: Global, image: &Image, zone: &Name) -> Result<usize, Error> {
    let table = zones_of(alloc, image, 0)?;
    Ok(table.cables_of(zone)?.len())
}

/// Whether the cables of a zone are counted.
pub(super) fn cables_are_counted(alloc: Global) -> Result<bool, Error> {
    let image = read(alloc, &IMAGE)?;
    let blue = listed(alloc, &image, &Name::new(b"Blue")?)?;
    let green = listed(alloc, &image, &Name::new(b"Green")?)?;
    Ok(blue == 2 && green == 0)
}
