//! The example of the README of `table_image`.

use super::three_cables::IMAGE;
use at_base::Error;
use image_feed::read;
use std::alloc::Global;
use table_image::Row;

/// A row as a line: its networks, its distance, and its next router, if it has one.
fn line_of(alloc: Global, row: &Row) -> Result<String, Error> {
    let (start, end, distance, next) = (row.start, row.end, row.distance, row.next);
    if row.is_direct() {
        return Ok(format!(in alloc; "{start}-{end} direct")?);
    }
    Ok(format!(in alloc; "{start}-{end} distance {distance} by {next}")?)
}

/// The rows of a router of the image that the bytes spell, each as a line.
fn lines_of(alloc: Global, bytes: &[u8], router: usize) -> Result<Vec<String>, Error> {
    let image = read(alloc, bytes)?;
    let mut lines = Vec::new(alloc);
    if let Some(router) = image.routers().get(router) {
        for row in &router.rows {
            lines.push(line_of(alloc, row)?)?;
        }
    }
    Ok(lines)
}

/// Whether the rows of the first of two routers between three cables are printed.
pub(super) fn rows_are_printed(alloc: Global) -> Result<bool, Error> {
    match lines_of(alloc, &IMAGE, 0)?.as_slice() {
        [first, second, third] => Ok(
            first.as_str() == "10-19 direct"
                && second.as_str() == "20-29 direct"
                && third.as_str() == "30-39 distance 1 by 20.2",
        ),
        _ => Ok(false),
    }
}
