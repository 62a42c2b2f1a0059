//! Runs a script over an image, and writes the trace, and its capture.

ghost use Rattle.std.specs.Prelude.{◌≡◌, ◌≢◌, ◌⊎◌, ◌++◌, ℕ, List, [], IfErr, IfOk, IfSome, OnOk};
ghost use Rattle.std.specs.Io.KnownBytes.{Appends, IsAtEnd};
ghost use Rattle.at_base.specs.Spelling.{Spells};
ghost use Rattle.commands.specs.Outputs.{Wrote, WroteTrace};
ghost use Rattle.commands.specs.Streams.{IsImageRefused, IsScriptRefused, ReadsImage, ReadsScript};
ghost use Rattle.commands.specs.Tracing.{IsTraceOf};
ghost use Rattle.frozen.specs.Runs.{Running};
ghost use Rattle.frozen_trace.specs.Captured.{traced_capture};
ghost use Rattle.frozen_trace.specs.declared.trace.Traced.{Traced as TracedValue};
ghost use Rattle.script.specs.Scripts.{IsScript};
ghost use Rattle.table_image.specs.Spelling.{image_spelling};

use crate::image_input::read_image;
use crate::refused::Refused;
use crate::script_input::read_steps;
use at_base::Error;
use frozen::Frozen;
use frozen_trace::{Refusals, Traced, capture_traced, trace_script};
use rtmp::Routes;
use std::alloc::Global;
use std::io::{Read, Write};
use text::Output;

/// Reads the whole image and then the whole script, runs the script over the frozen tables, and
/// writes its trace; if the image fails the audit, writes only the line of the verdict. Returns the
/// run, or the image with its fault, and notes the refused steps. Errors: `ReadFault`, `BadImage`, `BadScript`, `Memory`,
/// `WriteFault`.
pub fn run_frozen<I: Read, S: Read, W: Write>(
    alloc: Global,
    image: &mut I,
    script: &mut S,
    output: &mut Output<W>,
    refusals: &mut Refusals,
) -> Result<Traced<Frozen<Routes>>, Refused>
    // For readers whose bytes are known: they spell an image and a script, and the trace of the
    // script's steps over the image was written, after the text that was buffered.
    ensures printed { IfOk result (λ traced. IsTraceOf (I.remaining image.old)
        (S.remaining script.old) traced (W.contents output.old.writer) output.old.text.items
        (W.contents output.new.writer)) }
    ensures named { IfErr result (λ r. IsImageRefused r.error ⊎ IsScriptRefused r.error
        ⊎ (r.error ≡ Error.WriteFault)) }
    ensures image { ReadsImage (I.remaining image.old) (I.remaining image.new) result }
    ensures script { ReadsScript (I.remaining image.old) (I.remaining image.new)
        (S.remaining script.old) (S.remaining script.new) (script.new ≡ script.old) result }
    // Nothing is written before both were read to their ends, nor before an error other than
    // `WriteFault` and `Memory`.
    ensures begun { (output.new ≡ output.old)
        ⊎ (IsAtEnd (I.remaining image.new) × IsAtEnd (S.remaining script.new)) }
    ensures nothing_written { IfErr result (λ r. r.error ≢ Error.WriteFault
        → r.error ≢ Error.Memory → output.new ≡ output.old) }
    ensures wrote { Wrote output.old.faults output.new.faults result }
    ensures empty { OnOk result (output.new.text.items ≡ []) }
{
    let image = match read_image(alloc, image) {
        Ok(image) => image,
        Err(refused) => return Err(refused),
    };
    let steps = match read_steps(alloc, script) {
        Ok(steps) => steps,
        Err(refused) => return Err(refused),
    };
    match trace_script::<Routes, W>(alloc, image, steps.as_slice(), output, refusals) {
        Ok(traced) => Ok(traced),
        Err(error) => Err(Refused::of(error)),
    }
}

/// A trace as by `run_frozen`, whose capture is written with a second writer, after the trace.
/// Errors: `ReadFault`, `BadImage`, `BadScript`, `Memory`, `WriteFault`.
pub fn capture_run<I: Read, S: Read, W: Write, C: Write>(
    alloc: Global,
    image: &mut I,
    script: &mut S,
    output: &mut Output<W>,
    capture: &mut Output<C>,
    refusals: &mut Refusals,
) -> Result<Traced<Frozen<Routes>>, Refused>
    ensures printed { IfOk result (λ traced. IsTraceOf (I.remaining image.old)
        (S.remaining script.old) traced (W.contents output.old.writer) output.old.text.items
        (W.contents output.new.writer)
        × Appends (C.contents capture.old.writer) (C.contents capture.new.writer)
        (capture.old.text.items ++ traced_capture traced)) }
    ensures named { IfErr result (λ r. IsImageRefused r.error ⊎ IsScriptRefused r.error
        ⊎ (r.error ≡ Error.WriteFault)) }
    ensures image { ReadsImage (I.remaining image.old) (I.remaining image.new) result }
    ensures script { ReadsScript (I.remaining image.old) (I.remaining image.new)
        (S.remaining script.old) (S.remaining script.new) (script.new ≡ script.old) result }
    // Nothing is written before both were read to their ends.
    ensures begun { (output.new ≡ output.old)
        ⊎ (IsAtEnd (I.remaining image.new) × IsAtEnd (S.remaining script.new)) }
    // Nothing of the capture is written before the whole trace.
    ensures order { (capture.new ≡ capture.old) ⊎ ((traced : TracedValue Running)
        × IsTraceOf (I.remaining image.old) (S.remaining script.old) traced
        (W.contents output.old.writer) output.old.text.items (W.contents output.new.writer)) }
    ensures wrote { WroteTrace (output.new ≡ output.old) (capture.new ≡ capture.old)
        (output.new.text.items ≡ []) output.old.faults output.new.faults capture.old.faults
        capture.new.faults result }
    ensures empty { OnOk result ((output.new.text.items ≡ []) × (capture.new.text.items ≡ [])) }
{
    match run_frozen(alloc, image, script, output, refusals) {
        Ok(traced) => match capture_traced(alloc, &traced, capture) {
            Ok(()) => Ok(traced),
            Err(error) => Err(Refused::of(error)),
        },
        Err(refused) => Err(refused),
    }
}
