//! The example of the README of `cable_model`.

use at_base::{Bytes, Error, Hw};
use cable_model::{Cables, Kind, Rooms};
use std::alloc::Global;

/// A station puts a frame on cable 0, which is lost. The result is how many are still to hear it.
fn put_and_lose(cables: &mut Cables, station: u16, to: Hw, bytes: Bytes) -> Result<usize, Error> {
    let stamp = cables.put(0, station, to, Kind::Ddp, bytes)?;
    cables.lose(stamp)?;
    Ok(cables.pending_count())
}

/// A router and a node on the cable.
const SEATS: [cable_model::Seat; 2] = [
    cable_model::Seat {
        cable: 0,
        station: 0,
        port: 0,
        hw: Hw([2, 0, 0, 0, 0, 1]),
        group: None,
    },
    cable_model::Seat {
        cable: 0,
        station: 2,
        port: 0,
        hw: Hw([2, 0, 0, 0, 0, 5]),
        group: None,
    },
];

/// Whether the node's frame to all is pending for nobody once it is lost.
pub(super) fn nobody_hears_what_is_lost(alloc: Global) -> Result<bool, Error> {
    let bytes = Bytes::copy(alloc, b"ping")?;
    let mut cables = Cables::new(alloc, &SEATS, 2, Rooms::KNOWN)?;
    let count = put_and_lose(&mut cables, 2, Hw::ALL, bytes);
    drop(cables);
    Ok(count? == 0)
}
