//! The packets of ticks.

ghost use Rattle.std.specs.Prelude.{◌≡◌, ◌+◌, ◌^◌, ◌≤◌, OnOk, drop, length, map, take};
ghost use Rattle.cable_model.specs.Logs.{entry_at};
ghost use Rattle.captures.specs.Packets.{tick_bytes, ticks_bytes};
ghost use Rattle.text.specs.Going.{Goes};
ghost use Rattle.text.specs.Writing.{Prints};

use crate::losses::losses_in;
use crate::packets::print_entries;
use crate::said::Said;
use at_base::Error;
use cable_model::{Entry, Seats};
use std::io::Write;
use text::Output;

/// The microseconds of a tick, which is a fifth of a second.
const TICK: u64 = 200_000;

/// Prints the packets of a tick, which added these entries. A packet of a frame that was lost has
/// the comment `lost`. The first packet is seen when the tick begins, a fifth of a second after the
/// tick before it, and each other one a microsecond after the one before.
pub(crate) fn print_tick<S: Said, W: Write>(
    output: &mut Output<W>,
    said: &S,
    seats: &Seats,
    tick: u64,
    entries: &[Entry],
) -> Result<(), Error>
    requires early { tick ≤ 2 ^ 32 }
    ensures gone { OnOk result (Goes (W.contents output.old.writer) output.old.text.items
        (tick_bytes seats.now tick (map (entry_at (S.kept said.now)) entries.now))
        (W.contents output.new.writer) output.new.text.items) }
    ensures prints { Prints output.old.faults output.new.faults result }
{
    let lost = losses_in(*output.text.allocator(), entries)?;
    let _len = entries.len();
    print_entries(output, said, seats, lost.as_slice(), entries, tick * TICK)
}

/// The first entries, as many as the count says.
fn first_of(entries: &[Entry], count: usize) -> &[Entry]
    ensures { result.now ≡ take count entries.now }
{
    if count < entries.len() {
        &entries[..count]
    } else {
        entries
    }
}

/// The entries after the first ones, of which there are as many as the count says.
fn after(entries: &[Entry], count: usize) -> &[Entry]
    ensures { result.now ≡ drop count entries.now }
{
    if count < entries.len() {
        &entries[count..]
    } else {
        &[]
    }
}

/// Prints the packets of ticks that follow one after the other, from this tick on: of the entries,
/// each tick added as many as its count says.
pub(crate) fn print_ticks<S: Said, W: Write>(
    output: &mut Output<W>,
    said: &S,
    seats: &Seats,
    tick: u64,
    counts: &[u32],
    entries: &[Entry],
) -> Result<(), Error>
    requires few { tick + length counts.now ≤ 2 ^ 32 }
    ensures gone { OnOk result (Goes (W.contents output.old.writer) output.old.text.items
        (ticks_bytes seats.now tick counts.now (map (entry_at (S.kept said.now)) entries.now))
        (W.contents output.new.writer) output.new.text.items) }
    ensures prints { Prints output.old.faults output.new.faults result }
{
    let mut left = entries;
    for k in 0..counts.len() {
        let count = counts[k] as usize;
        print_tick(output, said, seats, tick + k as u64, first_of(left, count))?;
        left = after(left, count);
    }
    Ok(())
}
