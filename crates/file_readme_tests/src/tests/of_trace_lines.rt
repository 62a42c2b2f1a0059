//! The example of the README of `trace_lines`.

use super::three_cables::IMAGE;
use at_base::{Bytes, Error, Hw};
use cable_model::{Cables, Entry, Rooms};
use std::alloc::{AllocError, Global};
use table_image::Image;
use trace_lines::Lines;

/// The lines of all that happened on these cables.
fn trace(alloc: Global, image: &Image, cables: &Cables) -> Result<Vec<u8>, AllocError> {
    let mut lines = Lines::new(alloc, image)?;
    let mut text = Vec::new(alloc);
    for entry in cables.transcript() {
        let bytes = match *entry {
            Entry::Sent { bytes, .. }
            | Entry::Put { bytes, .. }
            | Entry::Reached { bytes, .. }
            | Entry::Dropped { bytes, .. }
            | Entry::Hold { bytes, .. } => cables.bytes(bytes),
            Entry::Took { .. } | Entry::Lost { .. } => &[],
        };
        lines.append(&mut text, entry, bytes)?;
    }
    Ok(text)
}

/// The seat of node 10.7 on the first cable.
const SEAT: cable_model::Seat = cable_model::Seat {
    cable: 0,
    station: 2,
    port: 0,
    hw: Hw([0x02, 0x00, 0x00, 0x00, 0x00, 0x05]),
    group: None,
};

/// Whether these are the lines of a frame from the node to itself, which is lost.
fn is_traced(alloc: Global, image: &Image, cables: &mut Cables) -> Result<bool, Error> {
    let bytes = Bytes::copy(alloc, &[0x0A, 0xF0])?;
    cables.put(0, 2, SEAT.hw, cable_model::Kind::Aarp, bytes)?;
    cables.lose(0)?;
    let want = b"put 0 cable 1 10.7 to 10.7 0AF0\nlost 0\n";
    Ok(trace(alloc, image, cables)?.as_slice() == want.as_slice())
}

/// Whether a frame that is lost is printed.
pub(super) fn a_lost_frame_is_printed(alloc: Global) -> Result<bool, Error> {
    let image = image_feed::read(alloc, IMAGE.as_slice())?;
    let found = match Cables::new(alloc, &[SEAT], 2, Rooms::KNOWN) {
        Ok(mut cables) => {
            let found = is_traced(alloc, &image, &mut cables);
            drop(cables);
            found
        }
        Err(error) => Err(error),
    };
    drop(image);
    found
}
