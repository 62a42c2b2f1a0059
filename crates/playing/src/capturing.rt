//! The capture of a play.

ghost use Rattle.std.specs.Prelude.{◌≡◌, ◌<◌, ◌≤◌, ◌^◌, ◌++◌, IfOk, IsOkUnless, OnOk, length, map};
ghost use Rattle.std.specs.Prelude.{[]};
ghost use Rattle.std.specs.Io.KnownBytes.{Appends};
ghost use Rattle.playing.specs.Captured as captured_spec;
ghost use Rattle.playing.specs.Captured.{world_capture};
ghost use Rattle.playing.specs.Lives.{HasLived};
ghost use Rattle.text.specs.Writing.{Prints};

use crate::playing::Played;
use at_base::Error;
use cable_model::Seats;
use captures::{Extent, Said};
use internet_file::{Cable, Plan};
use planned_stations::seats_of;
use rtmp::Routes;
use std::alloc::{AllocError, Global};
use std::io::Write;
use text::Output;
use world::World;

/// The bytes that the entries of a world name.
#[derive(Drop)]
struct WorldBytes<'a> {
    world: &'a World<Routes>,
}

impl Said for WorldBytes<'_> {
    ghost kept = { λ b. b.world.now.wires.cabling.kept };

    fn bytes(&self, number: u32) -> &[u8] {
        self.world.bytes(number)
    }
}

/// The range of a cable.
fn extent_of(cable: &Cable) -> Extent
    ensures { result ≡ captured_spec.extent_of cable.now }
{
    Extent {
        start: cable.range.start(),
        end: cable.range.end(),
    }
}

/// The ranges of cables. Error: `Memory`.
fn extents_of(alloc: Global, cables: &[Cable]) -> Result<Vec<Extent>, Error>
    ensures ok { IfOk result (λ list. list.items ≡ map captured_spec.extent_of cables.now) }
    ensures refused { IsOkUnless result Error.Memory }
{
    Ok(cables.iter().map(extent_of).collect(alloc)?)
}

/// The cables of a plan, at most 200.
fn cables_in(plan: &Plan) -> &[Cable]
    ensures value { result.now ≡ plan.now.cables }
    ensures few { length result.now ≤ 200 }
{
    plan.cables()
}

/// Writes the capture of a world whose ticks added so many entries. Errors: `Memory`; `WriteFault`,
/// only if the writer failed.
fn write_capture<C: Write>(
    alloc: Global,
    world: &World<Routes>,
    counts: &[u32],
    capture: &mut Output<C>,
) -> Result<(), Error>
    requires short { length counts.now < 2 ^ 32 }
    ensures written { OnOk result (Appends (C.contents capture.old.writer)
        (C.contents capture.new.writer) (capture.old.text.items
        ++ world_capture world.now counts.now)) }
    ensures prints { Prints capture.old.faults capture.new.faults result }
    ensures empty { OnOk result (capture.new.text.items ≡ []) }
{
    let plan = world.plan();
    let seats = seats_of(alloc, plan)?;
    let seats = Seats::of(alloc, seats.as_slice())?;
    let cables = extents_of(alloc, cables_in(plan))?;
    let entries = world.transcript();
    let said = WorldBytes { world };
    captures::capture_play(capture, cables.as_slice(), &seats, counts, &said, entries)
}

/// Writes the capture of a play: each frame that was put on a cable, as `captures::capture_play`
/// says. Errors: `Memory`; `WriteFault`, only if the writer failed. After `Memory` a part of it may
/// have been written.
pub fn capture_play<C: Write>(
    alloc: Global,
    played: &Played,
    capture: &mut Output<C>,
) -> Result<(), Error>
    requires lived { HasLived played.now.world played.now.counts.items }
    requires whole { played.now.world.now ≡ played.now.world.plan.ticks }
    ensures written { OnOk result (Appends (C.contents capture.old.writer)
        (C.contents capture.new.writer) (capture.old.text.items
        ++ world_capture played.now.world played.now.counts.items)) }
    ensures prints { Prints capture.old.faults capture.new.faults result }
    ensures empty { OnOk result (capture.new.text.items ≡ []) }
{
    // Only the prover needs this call: the number of ticks fits a `u32`.
    let _ticks = played.world.plan().ticks();
    write_capture(alloc, &played.world, played.counts.as_slice(), capture)
}
