//! The capture of what was traced.

ghost use Rattle.std.specs.Prelude.{◌≡◌, ◌++◌, [], OnOk};
ghost use Rattle.std.specs.Io.KnownBytes.{Appends};
ghost use Rattle.cable_model.specs.Logs.{transcript};
ghost use Rattle.frozen.specs.Runs.{cabling};
ghost use Rattle.frozen_trace.specs.Captured.{captured, traced_capture};
ghost use Rattle.text.specs.Writing.{Prints};

use crate::scenery::Scenery;
use crate::trace::Traced;
use at_base::Error;
use captures::{Said, capture_run};
use frozen::Frozen;
use rtmp::RouteTable;
use std::alloc::Global;
use std::io::Write;
use table_image::Image;
use text::Output;

/// The bytes that the entries of a run name.
#[derive(Drop)]
struct RunBytes<'a, T: RouteTable> {
    run: &'a Frozen<T>,
}

impl<T: RouteTable> Said for RunBytes<'_, T> {
    ghost kept = { λ b. (cabling b.run.now).kept };

    fn bytes(&self, number: u32) -> &[u8] {
        self.run.bytes(number)
    }
}

/// What keeps no bytes.
struct Nothing;

impl Said for Nothing {
    ghost kept = { λ _. [] };

    fn bytes(&self, _number: u32) -> &[u8] {
        &[]
    }
}

/// Writes the capture of a run.
fn capture_ran<T: RouteTable, C: Write>(
    alloc: Global,
    run: &Frozen<T>,
    capture: &mut Output<C>,
) -> Result<(), Error>
    ensures written { OnOk result (Appends (C.contents capture.old.writer)
        (C.contents capture.new.writer) (capture.old.text.items
        ++ captured run.now.internet (transcript (cabling run.now)))) }
    ensures prints { Prints capture.old.faults capture.new.faults result }
    ensures empty { OnOk result (capture.new.text.items ≡ []) }
{
    let scenery = Scenery::of(alloc, run.image())?;
    let said = RunBytes { run };
    let cables = scenery.cables.as_slice();
    capture_run(capture, cables, &scenery.seats, &said, run.transcript())
}

/// Writes a capture without packets.
fn capture_nothing<C: Write>(
    alloc: Global,
    image: &Image,
    capture: &mut Output<C>,
) -> Result<(), Error>
    ensures written { OnOk result (Appends (C.contents capture.old.writer)
        (C.contents capture.new.writer) (capture.old.text.items ++ captured image.now [])) }
    ensures prints { Prints capture.old.faults capture.new.faults result }
    ensures empty { OnOk result (capture.new.text.items ≡ []) }
{
    let scenery = Scenery::of(alloc, image)?;
    capture_run(
        capture,
        scenery.cables.as_slice(),
        &scenery.seats,
        &Nothing,
        &[],
    )
}

/// Writes the capture of what was traced: each frame that was put on a cable, as
/// `captures::capture_run` says, or none where the image fails the audit.
///
/// Errors: `Memory`; `WriteFault`, only if the writer failed.
pub fn capture_traced<T: RouteTable, C: Write>(
    alloc: Global,
    traced: &Traced<Frozen<T>>,
    capture: &mut Output<C>,
) -> Result<(), Error>
    ensures written { OnOk result (Appends (C.contents capture.old.writer)
        (C.contents capture.new.writer) (capture.old.text.items ++ traced_capture traced.now)) }
    ensures prints { Prints capture.old.faults capture.new.faults result }
    ensures empty { OnOk result (capture.new.text.items ≡ []) }
{
    match traced {
        Traced::Ran(run) => capture_ran(alloc, run, capture),
        Traced::No(image, _) => capture_nothing(alloc, image, capture),
    }
}
