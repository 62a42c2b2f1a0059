//! What the capture of a run has of its internet.

ghost use Rattle.std.specs.Prelude.{◌≡◌, ◌++◌, ◌≤◌, IfOk, IsOkUnless, OnOk, length, map};
ghost use Rattle.frozen_trace.specs.Captured as spec;
ghost use Rattle.legal_runs.specs.Stations.{cable_seats};

use at_base::Error;
use cable_model::Seats;
use captures::Extent;
use image_stations::seats_of;
use std::alloc::{AllocError, Global};
use table_image::{Cable, Image};

/// The ranges of the cables of an internet, and the seats of its stations on them.
#[derive(Drop)]
pub(crate) struct Scenery {
    pub(crate) cables: Vec<Extent>,
    pub(crate) seats: Seats,
}

/// The range of a cable.
fn extent_of(cable: &Cable) -> Extent
    ensures { result ≡ spec.extent_of cable.now }
{
    Extent {
        start: cable.start,
        end: cable.end,
    }
}

/// The ranges of cables. Error: out of memory.
fn extents_of(alloc: Global, cables: &[Cable]) -> Result<Vec<Extent>, Error>
    ensures ok { IfOk result (λ list. list.items ≡ map spec.extent_of cables.now) }
    ensures refused { IsOkUnless result Error.Memory }
{
    Ok(cables.iter().map(extent_of).collect(alloc)?)
}

/// The cables of an image, at most 200.
fn cables_in(image: &Image) -> &[Cable]
    ensures value { result.now ≡ image.now.cables }
    ensures few { length result.now ≤ 200 }
{
    image.cables()
}

impl Scenery {
    /// The ranges and the seats of an image. Error: `Memory`.
    pub(crate) fn of(alloc: Global, image: &Image) -> Result<Scenery, Error>
        ensures cables { IfOk result (λ s. s.cables.items ≡ map spec.extent_of image.now.cables) }
        ensures few { IfOk result (λ s. length s.cables.items ≤ 200) }
        ensures seats { IfOk result (λ s. s.seats ≡ cable_seats image.now) }
        ensures refused { IsOkUnless result Error.Memory }
    {
        let cables = extents_of(alloc, cables_in(image))?;
        let seats = seats_of(alloc, image)?;
        let seats = Seats::of(alloc, seats.as_slice())?;
        Ok(Scenery { cables, seats })
    }
}
