//! The trace of a script.

ghost use Rattle.std.specs.Prelude.{◌≡◌, ◌++◌, ◌∷◌, [], List, ℕ, IfOk, OnOk};
ghost use Rattle.std.specs.Io.KnownBytes.{Appends};
ghost use Rattle.audit.specs.Rules.{Passes};
ghost use Rattle.audit.specs.Verdicts.{verdict_line};
ghost use Rattle.audit.specs.declared.verdict.Verdict.TheVariants as VerdictValue;
ghost use Rattle.frozen_trace.specs.Captured.{HasTraced, is_ran};
ghost use Rattle.frozen_trace.specs.Traces.{StepsPrint, all_printed, pending_line};
ghost use Rattle.frozen.specs.Runs.{IsFrozen};
ghost use Rattle.text.specs.Writing.{Prints};

use crate::playing::play;
use crate::printing::print_pending;
use crate::refusals::Refusals;
use at_base::{Error, Fault};
use audit::{Verdict, audit};
use frozen::Frozen;
use rtmp::RouteTable;
use script::Step;
use std::alloc::Global;
use std::io::Write;
use table_image::Image;
use text::Output;
use trace_lines::Lines;

/// The greatest number of entries in a run.
const LIMIT: u32 = 4_000_000;

/// What a script leaves that was traced over the frozen tables of an image.
#[derive(Drop)]
pub enum Traced<R> {
    /// The run, after its last step.
    Ran(R),
    /// The image, which fails the audit, and the first fault that it has.
    No(Image, Fault),
}

impl<R> Traced<R> {
    /// Whether the image passes the audit.
    pub fn is_yes(&self) -> bool
        ensures { result ≡ is_ran self.now }
    {
        match self {
            Traced::Ran(_) => true,
            Traced::No(_, _) => false,
        }
    }
}

/// Carries out a script over the frozen tables of an image, and prints its trace: the lines of the
/// entries that each step adds, `refused N` for each step that has an error, and finally `pending
/// N`. Text is written in large pieces. If the image fails the audit, only the line of the audit's
/// verdict is printed. Returns the run, or the image with the fault, and notes the refused steps.
///
/// Errors: `Memory`; `WriteFault`, only if the writer failed. After an error, a part of the trace
/// may have been written.
pub fn trace_script<T: RouteTable, W: Write>(
    alloc: Global,
    image: Image,
    steps: &[Step],
    output: &mut Output<W>,
    refusals: &mut Refusals,
) -> Result<Traced<Frozen<T>>, Error>
    ensures traced { IfOk result (λ t. (text : List ℕ) × HasTraced image steps.now text t
        × Appends (W.contents output.old.writer) (W.contents output.new.writer)
        (output.old.text.items ++ text)) }
    ensures prints { Prints output.old.faults output.new.faults result }
    ensures empty { OnOk result (output.new.text.items ≡ []) }
{
    match audit(&image) {
        Verdict::Yes(_) => trace_image(alloc, image, steps, output, refusals),
        Verdict::No(fault) => match print_no(alloc, fault, output) {
            Ok(()) => Ok(Traced::No(image, fault)),
            Err(error) => Err(error),
        },
    }
}

/// Carries out a script over the frozen tables of an image that passes the audit, and prints its
/// trace.
fn trace_image<T: RouteTable, W: Write>(
    alloc: Global,
    image: Image,
    steps: &[Step],
    output: &mut Output<W>,
    refusals: &mut Refusals,
) -> Result<Traced<Frozen<T>>, Error>
    requires passes { Passes image }
    ensures traced { IfOk result (λ t. (text : List ℕ) × HasTraced image steps.now text t
        × Appends (W.contents output.old.writer) (W.contents output.new.writer)
        (output.old.text.items ++ text)) }
    ensures prints { Prints output.old.faults output.new.faults result }
    ensures empty { OnOk result (output.new.text.items ≡ []) }
{
    let mut lines = Lines::new(alloc, &image)?;
    // The image was judged: it isn't judged again.
    let mut run = Frozen::<T>::over(alloc, image, LIMIT)?;
    match trace_run(alloc, &mut run, steps, &mut lines, output, refusals) {
        Ok(()) => Ok(Traced::Ran(run)),
        Err(error) => Err(error),
    }
}

/// Prints the line of a no.
fn print_no<W: Write>(alloc: Global, fault: Fault, output: &mut Output<W>) -> Result<(), Error>
    ensures printed { OnOk result (Appends (W.contents output.old.writer)
        (W.contents output.new.writer)
        (output.old.text.items ++ (verdict_line (VerdictValue.No fault) ++ 10 ∷ []))) }
    ensures prints { Prints output.old.faults output.new.faults result }
    ensures empty { OnOk result (output.new.text.items ≡ []) }
{
    let line = Verdict::No(fault).line(alloc)?;
    output.flush()?;
    output.write_line(line.as_bytes())
}

/// Carries out a script over a run, and prints its trace.
fn trace_run<T: RouteTable, W: Write>(
    alloc: Global,
    run: &mut Frozen<T>,
    steps: &[Step],
    lines: &mut Lines,
    output: &mut Output<W>,
    refusals: &mut Refusals,
) -> Result<(), Error>
    requires known { lines.old ≡ all_printed run.old }
    ensures printed { OnOk result ((played : List ℕ) × StepsPrint run.old steps.now played run.new
        × Appends (W.contents output.old.writer) (W.contents output.new.writer)
        (output.old.text.items ++ played ++ pending_line run.new)) }
    ensures frozen { OnOk result (IsFrozen run.old × IsFrozen run.new) }
    ensures prints { Prints output.old.faults output.new.faults result }
    ensures empty { OnOk result (output.new.text.items ≡ []) }
{
    // Only the prover needs these reads: the run is over frozen tables, before and after.
    let _begun = run.image();
    play(alloc, run, steps, lines, output, refusals)?;
    print_pending(alloc, run, output)?;
    let _ended = run.image();
    output.flush()
}
