//! Prints parts of a run.

ghost use Rattle.std.specs.Prelude.{◌≡◌, ◌≢◌, ◌≤◌, [], ◌∷◌, ◌++◌, drop, length, map, take};
ghost use Rattle.std.specs.Prelude.{OnOk};
ghost use Rattle.cable_model.specs.Logs as logs_spec;
ghost use Rattle.cable_model.specs.Logs.{entry_at};
ghost use Rattle.text.specs.Going.{Goes};
ghost use Rattle.frozen.specs.Runs.{cabling};
ghost use Rattle.frozen_trace.specs.Traces.{all_printed, cables_of, pending_line, refused_line};
ghost use Rattle.trace_lines.specs.Lines as lines_spec;
ghost use Rattle.trace_lines.specs.Lines.{IsNamed, with_cable, with_cables};
ghost use Rattle.trace_lines.specs.Stations.{addresses_of};
ghost use Rattle.text.specs.Writing.{Prints};

use at_base::Error;
use cable_model::Entry;
use frozen::Frozen;
use rtmp::RouteTable;
use std::alloc::Global;
use std::fmt::Write as _;
use std::io::Write;
use text::Output;
use trace_lines::Lines;

/// The longest line of an error or of the pending count, in bytes.
const MAX_LINE: usize = 32;

/// The bytes of the number that an entry of a run names, and no bytes if it names no number.
fn bytes_of<'a, T: RouteTable>(run: &'a Frozen<T>, entry: &Entry) -> &'a [u8]
    ensures { IsNamed (cabling run.now).kept entry.now result.now }
{
    match entry {
        Entry::Sent { bytes, .. }
        | Entry::Put { bytes, .. }
        | Entry::Reached { bytes, .. }
        | Entry::Dropped { bytes, .. }
        | Entry::Hold { bytes, .. } => run.bytes(*bytes),
        Entry::Took { .. } | Entry::Lost { .. } => &[],
    }
}

/// Prints an entry of a run.
fn print_entry<T: RouteTable, W: Write>(
    run: &Frozen<T>,
    entry: &Entry,
    lines: &mut Lines,
    output: &mut Output<W>,
) -> Result<(), Error>
    ensures gone { OnOk result (Goes (W.contents output.old.writer) output.old.text.items
        (lines_spec.line lines.old.addresses lines.old.cables (entry_at (cabling run.now).kept entry.now) ++ 10 ∷ [])
        (W.contents output.new.writer) output.new.text.items) }
    ensures further { OnOk result (lines.new ≡ record {
      addresses = lines.old.addresses;
      cables = with_cable lines.old.cables (entry_at (cabling run.now).kept entry.now);
    }) }
    ensures prints { Prints output.old.faults output.new.faults result }
{
    let bytes = bytes_of(run, entry);
    lines.append(&mut output.text, entry, bytes)?;
    output.pass_on()
}

/// Prints entries of a run.
fn print_entries<T: RouteTable, W: Write>(
    run: &Frozen<T>,
    entries: &[Entry],
    lines: &mut Lines,
    output: &mut Output<W>,
) -> Result<(), Error>
    ensures gone { OnOk result (Goes (W.contents output.old.writer) output.old.text.items
        (lines_spec.lines lines.old.addresses lines.old.cables
        (map (entry_at (cabling run.now).kept) entries.now))
        (W.contents output.new.writer) output.new.text.items) }
    ensures further { OnOk result (lines.new ≡ record {
      addresses = lines.old.addresses;
      cables = with_cables lines.old.cables
          (map (entry_at (cabling run.now).kept) entries.now);
    }) }
    ensures prints { Prints output.old.faults output.new.faults result }
{
    for entry in entries {
        print_entry(run, entry, lines, output)?;
    }
    Ok(())
}

/// Prints the entries of a run from index `from` on. All entries before it were printed.
pub fn print_from<T: RouteTable, W: Write>(
    run: &Frozen<T>,
    from: usize,
    lines: &mut Lines,
    output: &mut Output<W>,
) -> Result<(), Error>
    requires inside { from ≤ length (cabling run.now).lines }
    requires known { lines.old ≡ record {
      addresses = addresses_of run.now.internet;
      cables = cables_of (take from (logs_spec.transcript (cabling run.now)));
    } }
    ensures gone { OnOk result (Goes (W.contents output.old.writer) output.old.text.items
        (lines_spec.lines lines.old.addresses lines.old.cables (drop from (logs_spec.transcript (cabling run.now))))
        (W.contents output.new.writer) output.new.text.items) }
    ensures known { OnOk result (lines.new ≡ all_printed run.now) }
    ensures prints { Prints output.old.faults output.new.faults result }
{
    print_entries(run, &run.transcript()[from..], lines, output)
}

/// Prints a line.
fn end_line<W: Write>(output: &mut Output<W>, line: &str) -> Result<(), Error>
    ensures gone { OnOk result (Goes (W.contents output.old.writer) output.old.text.items
        (line.now ++ 10 ∷ []) (W.contents output.new.writer) output.new.text.items) }
    ensures prints { Prints output.old.faults output.new.faults result }
{
    output.text.extend_from_slice(line.as_bytes())?;
    output.text.push(b'\n')?;
    output.pass_on()
}

/// Prints the line of a step that has an error.
fn print_refusal<W: Write>(
    alloc: Global,
    output: &mut Output<W>,
    error: &Error,
) -> Result<(), Error>
    ensures gone { OnOk result (Goes (W.contents output.old.writer) output.old.text.items
        (refused_line error.now) (W.contents output.new.writer) output.new.text.items) }
    ensures prints { Prints output.old.faults output.new.faults result }
{
    let number = error.number();
    let mut line = String::with_capacity(alloc, MAX_LINE)?;
    write!(line, "refused {number}")?;
    end_line(output, &line)
}

/// Prints the line of a step that has an error. `Memory` isn't printed: it is returned.
pub fn refuse<W: Write>(alloc: Global, output: &mut Output<W>, error: &Error) -> Result<(), Error>
    ensures own { OnOk result (error.now ≢ Error.Memory) }
    ensures silent { error.now ≡ Error.Memory → output.new ≡ output.old }
    ensures gone { OnOk result (Goes (W.contents output.old.writer) output.old.text.items
        (refused_line error.now) (W.contents output.new.writer) output.new.text.items) }
    ensures prints { Prints output.old.faults output.new.faults result }
{
    match error {
        Error::Memory => Err(Error::Memory),
        other => print_refusal(alloc, output, other),
    }
}

/// Prints how many pairs are pending.
pub fn print_pending<T: RouteTable, W: Write>(
    alloc: Global,
    run: &Frozen<T>,
    output: &mut Output<W>,
) -> Result<(), Error>
    ensures gone { OnOk result (Goes (W.contents output.old.writer) output.old.text.items
        (pending_line run.now) (W.contents output.new.writer) output.new.text.items) }
    ensures prints { Prints output.old.faults output.new.faults result }
{
    let count = run.pending_count();
    let mut line = String::with_capacity(alloc, MAX_LINE)?;
    write!(line, "pending {count}")?;
    end_line(output, &line)
}
