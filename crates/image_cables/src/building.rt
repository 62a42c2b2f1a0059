//! The live cables of an image.

ghost use Rattle.std.specs.Prelude.{◌≡◌, [], IfOk, IsOkUnless, OnOk};
ghost use Rattle.audit.specs.Rules.{Passes};
ghost use Rattle.cable_model.specs.Rooms.{held_rooms};
ghost use Rattle.image_cables.specs.Settled.{cable_ranges, seat_addresses, seat_maps};
ghost use Rattle.legal_runs.specs.Stations.{cable_seats};
ghost use Rattle.resolved_runs.specs.Fitting.{SeatsFit};

use crate::hardware::recall_seats;
use crate::mappers::mappers_of;
use crate::ranges::{addresses_of, ranges_of};
use at_base::Error;
use image_stations::seats_of;
use live_cables::LiveCables;
use std::alloc::Global;
use table_image::Image;

/// Cables with the seats of an image that passes the audit, with an empty transcript and room for at
/// most `limit` entries. Each seat has its address, knows the mappings that the image has for it,
/// and holds nothing. No cable loses frames. The hardware address of each seat has six bytes. Error:
/// `Memory`.
pub fn cables_of(alloc: Global, image: &Image, limit: u32) -> Result<LiveCables, Error>
    requires { Passes image.now }
    ensures ok { IfOk result (λ live. live ≡ record {
      cabling = record {
        seats = cable_seats image.now;
        limit = limit;
        rooms = held_rooms;
        lines = [];
        kept = [];
        spare = 0;
      };
      own = seat_addresses image.now;
      maps = seat_maps image.now;
      ranges = cable_ranges image.now;
      losing = [];
    }) }
    ensures fits { OnOk result (SeatsFit image.now) }
    ensures refused { IsOkUnless result Error.Memory }
{
    recall_seats(image);
    let seats = seats_of(alloc, image)?;
    let own = addresses_of(alloc, image)?;
    let mappers = mappers_of(alloc, image)?;
    let ranges = ranges_of(alloc, image)?;
    LiveCables::settled(
        alloc,
        seats.as_slice(),
        own,
        mappers,
        ranges.as_slice(),
        limit,
    )
}
