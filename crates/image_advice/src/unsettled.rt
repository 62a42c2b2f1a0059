//! Tells who offers the range of a row nearer, where tables that pass may still change.

use crate::item::at;
use at_base::Place;
use settled::{Offer, nearer_offer};
use std::io;
use std::io::Write;
use table_image::{Image, Row};

/// Writes who offers the range of the row at this place nearer, and what follows, a line; nothing
/// where nobody does.
pub fn write_unsettled<W: Write>(writer: &mut W, image: &Image, place: Place) -> io::Result<()> {
    let Place::Row(r, k) = place else {
        return Ok(());
    };
    let Some(router) = at(image.routers(), r) else {
        return Ok(());
    };
    match (at(router.rows.as_slice(), k), nearer_offer(image, place)) {
        (Some(row), Some(offer)) => write_offer(writer, r, row, &offer),
        _ => Ok(()),
    }
}

/// Writes who offers the range of a row of router `r`, and what follows.
fn write_offer<W: Write>(writer: &mut W, r: u32, row: &Row, offer: &Offer) -> io::Result<()> {
    writeln!(
        writer,
        "router {r}: {}-{} at distance {} by {}, and router {} offers it at {} on cable {}: router \
         {r} takes that way within 10 seconds, and these tables change",
        row.start, row.end, row.distance, row.next, offer.router, offer.distance, offer.cable
    )
}
