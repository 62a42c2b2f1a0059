//! The example of the README of `zip_zones`.

use at_base::{Error, Name, Range};
use std::alloc::Global;
use zip_zones::ZoneTable;

/// The ranges with zone Blue, at a router that knows the zones of 10-19 and has heard one of the two
/// zones of 20-29.
fn blue(alloc: Global) -> Result<Vec<Range>, Error> {
    let mut zones = ZoneTable::new(alloc)?;
    zones.set(
        Range::new(10, 19)?,
        &[Name::new(b"Red")?, Name::new(b"Blue")?],
    )?;
    zones.add(Range::new(20, 29)?, 2, &Name::new(b"Green")?)?;
    zones.cables_of(&Name::new(b"blue")?)
}

/// Whether Blue is found on the cable of which all zones are known.
pub(super) fn the_cable_of_blue_is_found(alloc: Global) -> Result<bool, Error> {
    let ranges = [Range::new(10, 19)?];
    Ok(blue(alloc)?.as_slice() == ranges.as_slice())
}
