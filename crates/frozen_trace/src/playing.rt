//! Carries out the steps of a script, one at a time.

ghost use Rattle.std.specs.Prelude.{◌≡◌, List, ℕ, OnOk};
ghost use Rattle.text.specs.Going.{Goes};
ghost use Rattle.frozen_trace.specs.Traces.{StepPrints, StepsPrint, all_printed};
ghost use Rattle.script.specs.declared.step.Step.TheVariants as step;
ghost use Rattle.text.specs.Writing.{Prints};

use crate::printing::{print_from, refuse};
use crate::refusals::Refusals;
use at_base::Error;
use events::Event;
use frozen::Frozen;
use rtmp::RouteTable;
use script::Step;
use std::alloc::Global;
use std::io::Write;
use text::Output;
use trace_lines::Lines;

/// Carries out an event, and prints the entries that it adds, or its error.
fn play_event<T: RouteTable, W: Write>(
    alloc: Global,
    run: &mut Frozen<T>,
    event: &Event,
    lines: &mut Lines,
    output: &mut Output<W>,
    refusals: &mut Refusals,
) -> Result<(), Error>
    requires known { lines.old ≡ all_printed run.old }
    ensures played { OnOk result ((more : List ℕ)
        × StepPrints run.old (step.Event event.now) more run.new
        × Goes (W.contents output.old.writer) output.old.text.items more
        (W.contents output.new.writer) output.new.text.items) }
    ensures known { OnOk result (lines.new ≡ all_printed run.new) }
    ensures prints { Prints output.old.faults output.new.faults result }
{
    let before = run.transcript().len();
    match run.event(event) {
        Ok(()) => print_from(run, before, lines, output),
        Err(error) => {
            refusals.note(error);
            refuse(alloc, output, &error)
        }
    }
}

/// Takes at most `most` pending frames, and prints the entries that each take adds; after a take
/// that fails, prints its error and stops.
fn play_drain<T: RouteTable, W: Write>(
    alloc: Global,
    run: &mut Frozen<T>,
    most: u32,
    lines: &mut Lines,
    output: &mut Output<W>,
    refusals: &mut Refusals,
) -> Result<(), Error>
    requires known { lines.old ≡ all_printed run.old }
    ensures played { OnOk result ((more : List ℕ)
        × StepPrints run.old (step.Drain most) more run.new
        × Goes (W.contents output.old.writer) output.old.text.items more
        (W.contents output.new.writer) output.new.text.items) }
    ensures known { OnOk result (lines.new ≡ all_printed run.new) }
    ensures prints { Prints output.old.faults output.new.faults result }
{
    for _turn in 0..most {
        let before = run.transcript().len();
        match run.drain(1) {
            Ok(none_left) => {
                print_from(run, before, lines, output)?;
                if none_left {
                    return Ok(());
                }
            }
            Err(error) => {
                refusals.note(error);
                return refuse(alloc, output, &error);
            }
        }
    }
    Ok(())
}

/// Carries out a step.
fn play_step<T: RouteTable, W: Write>(
    alloc: Global,
    run: &mut Frozen<T>,
    step: &Step,
    lines: &mut Lines,
    output: &mut Output<W>,
    refusals: &mut Refusals,
) -> Result<(), Error>
    requires known { lines.old ≡ all_printed run.old }
    ensures played { OnOk result ((more : List ℕ)
        × StepPrints run.old step.now more run.new
        × Goes (W.contents output.old.writer) output.old.text.items more
        (W.contents output.new.writer) output.new.text.items) }
    ensures known { OnOk result (lines.new ≡ all_printed run.new) }
    ensures prints { Prints output.old.faults output.new.faults result }
{
    match step {
        Step::Event(event) => play_event(alloc, run, event, lines, output, refusals),
        Step::Drain(most) => play_drain(alloc, run, *most, lines, output, refusals),
    }
}

/// Carries out steps, one after the other, and notes those that are refused.
pub fn play<T: RouteTable, W: Write>(
    alloc: Global,
    run: &mut Frozen<T>,
    steps: &[Step],
    lines: &mut Lines,
    output: &mut Output<W>,
    refusals: &mut Refusals,
) -> Result<(), Error>
    requires known { lines.old ≡ all_printed run.old }
    ensures played { OnOk result ((more : List ℕ)
        × StepsPrint run.old steps.now more run.new
        × Goes (W.contents output.old.writer) output.old.text.items more
        (W.contents output.new.writer) output.new.text.items) }
    ensures prints { Prints output.old.faults output.new.faults result }
{
    for step in steps {
        refusals.begin();
        play_step(alloc, run, step, lines, output, refusals)?;
    }
    Ok(())
}
