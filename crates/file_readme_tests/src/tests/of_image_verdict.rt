//! The example of the README of `image_verdict`.

use super::three_cables::IMAGE;
use at_base::Error;
use image_verdict::audit_bytes;
use std::alloc::Global;

/// The verdict line of the image that the bytes are, or why they are none.
fn report(alloc: Global, bytes: &[u8]) -> Result<String, Error> {
    match audit_bytes(alloc, bytes) {
        Ok(verdict) => verdict.line(alloc),
        Err(Error::BadImage(place, cause)) => {
            let line = format!(in alloc; "no image: {cause:?} at byte {place}")?;
            Ok(line)
        }
        Err(error) => Err(error),
    }
}

/// Whether an image that passes, one that breaks a rule and bytes that are none are told apart.
pub(super) fn images_are_reported(alloc: Global) -> Result<bool, Error> {
    // With distance 15 in the first router's row for 30-39.
    let mut far = IMAGE;
    far[86] = 15;
    let yes = "yes: 3 cables, 2 routers, 2 nodes, 6 rows, greatest distance 1";
    let passes = report(alloc, &IMAGE)?.as_str() == yes;
    let is_far = report(alloc, &far)?.as_str() == "no: C5 router 1 row 3";
    let is_cut = report(alloc, b"ATIM")?.as_str() == "no image: Cut at byte 4";
    Ok(passes && is_far && is_cut)
}
