//! Captures, from their first byte to their last.

ghost use Rattle.std.specs.Prelude.{◌≡◌, ◌≤◌, ◌<◌, ◌^◌, ◌++◌, [], OnOk, length, map};
ghost use Rattle.std.specs.Io.KnownBytes.{Appends};
ghost use Rattle.cable_model.specs.Logs.{entry_at};
ghost use Rattle.captures.specs.Packets.{play_capture, run_capture};
ghost use Rattle.text.specs.Writing.{Prints};

use crate::head::{Extent, print_head};
use crate::said::Said;
use crate::ticks::{print_tick, print_ticks};
use at_base::Error;
use cable_model::{Entry, Seats};
use std::io::Write;
use text::Output;

/// Writes the capture of a play after its last tick: each cable is an interface with its index, and
/// each frame that was put on a cable is a packet there, in the order of the transcript. Each tick
/// added as many of the entries as its count says; ticks are numbered from 1. A frame that was put
/// in tick t has the time of t fifths of a second, and a microsecond for each packet before it in
/// that tick; if the tick lost it, its packet has the comment `lost`.
///
/// Errors: `Memory`; `WriteFault`, only if the writer failed. After an error, a part of the capture
/// may have been written.
pub fn capture_play<S: Said, W: Write>(
    output: &mut Output<W>,
    cables: &[Extent],
    seats: &Seats,
    counts: &[u32],
    said: &S,
    entries: &[Entry],
) -> Result<(), Error>
    requires few { length cables.now ≤ 255 }
    requires short { length counts.now < 2 ^ 32 }
    ensures written { OnOk result (Appends (W.contents output.old.writer)
        (W.contents output.new.writer) (output.old.text.items
        ++ play_capture cables.now seats.now counts.now
        (map (entry_at (S.kept said.now)) entries.now))) }
    ensures prints { Prints output.old.faults output.new.faults result }
    ensures empty { OnOk result (output.new.text.items ≡ []) }
{
    print_head(output, cables)?;
    print_ticks(output, said, seats, 1, counts, entries)?;
    output.flush()
}

/// Writes the capture of a run in which no time passes: as that of a play, but each packet has the
/// time of a microsecond for each packet before it.
///
/// Errors: `Memory`; `WriteFault`, only if the writer failed. After an error, a part of the capture
/// may have been written.
pub fn capture_run<S: Said, W: Write>(
    output: &mut Output<W>,
    cables: &[Extent],
    seats: &Seats,
    said: &S,
    entries: &[Entry],
) -> Result<(), Error>
    requires few { length cables.now ≤ 255 }
    ensures written { OnOk result (Appends (W.contents output.old.writer)
        (W.contents output.new.writer) (output.old.text.items
        ++ run_capture cables.now seats.now (map (entry_at (S.kept said.now)) entries.now))) }
    ensures prints { Prints output.old.faults output.new.faults result }
    ensures empty { OnOk result (output.new.text.items ≡ []) }
{
    print_head(output, cables)?;
    print_tick(output, said, seats, 0, entries)?;
    output.flush()
}
