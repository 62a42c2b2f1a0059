//! The example of the README of `audit`.

use super::three_cables::IMAGE;
use at_base::Error;
use audit::{Verdict, audit};
use image_feed::read;
use std::alloc::Global;
use table_image::Image;

/// Through how many routers the longest way of the image leads, if its tables keep every rule.
fn longest_way(image: &Image) -> Option<u8> {
    match audit(image) {
        Verdict::Yes(summary) => Some(summary.greatest),
        Verdict::No(_) => None,
    }
}

/// Whether the longest way is told of an image that passes, and of no other.
pub(super) fn the_longest_way_is_told(alloc: Global) -> Result<bool, Error> {
    // With distance 15 in the first router's row for 30-39.
    let mut far = IMAGE;
    far[86] = 15;
    let passes = longest_way(&read(alloc, &IMAGE)?) == Some(1);
    Ok(passes && longest_way(&read(alloc, &far)?) == None)
}
