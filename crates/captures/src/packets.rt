//! The packets of entries.

ghost use Rattle.std.specs.Prelude.{◌≡◌, ◌+◌, ◌<◌, ◌≤◌, ◌^◌, IfOk, OnOk, length, map, take};
ghost use Rattle.cable_model.specs.Logs.{entry_at};
ghost use Rattle.captures.specs.Packets as spec;
ghost use Rattle.captures.specs.Packets.{entries_bytes, entry_bytes, time_after};
ghost use Rattle.ethertalk.specs.Frames.{max_bytes};
ghost use Rattle.text.specs.Going.{Goes};
ghost use Rattle.text.specs.Writing.{Prints};

use crate::losses::is_among;
use crate::said::Said;
use at_base::{Error, Hw};
use cable_model::{Entry, Seats};
use ethertalk::MAX_BYTES;
use pcapng::{Packet, print_packet};
use std::io::Write;
use text::Output;

/// The hardware address of a station on a cable, and one of zeros if it has no seat there.
fn hardware_on(seats: &Seats, cable: u8, station: u16) -> Hw
    ensures { result ≡ spec.hardware_on seats.now cable station }
{
    match seats.seat_on(cable, station) {
        Some(seat) => seat.hw,
        None => Hw([0; 6]),
    }
}

/// As many of the bytes as a frame of Ethernet holds.
fn front_of(bytes: &[u8]) -> &[u8]
    ensures front { result.now ≡ take max_bytes bytes.now }
    ensures few { length result.now ≤ max_bytes }
{
    if bytes.len() > MAX_BYTES {
        &bytes[..MAX_BYTES]
    } else {
        bytes
    }
}

/// Prints the packet of an entry, if it puts a frame, and returns when the next one is seen.
fn print_entry<S: Said, W: Write>(
    output: &mut Output<W>,
    said: &S,
    seats: &Seats,
    lost: &[u32],
    entry: &Entry,
    time: u64,
) -> Result<u64, Error>
    requires early { time + 1 < 2 ^ 64 }
    ensures gone { OnOk result (Goes (W.contents output.old.writer) output.old.text.items
        (entry_bytes (record { seats = seats.now; lost = lost.now }) time
        (entry_at (S.kept said.now) entry.now))
        (W.contents output.new.writer) output.new.text.items) }
    ensures later { IfOk result (λ t. t ≡ time_after time (entry_at (S.kept said.now) entry.now)) }
    ensures soon { IfOk result (λ t. t ≤ time + 1) }
    ensures prints { Prints output.old.faults output.new.faults result }
{
    match *entry {
        Entry::Put {
            stamp,
            cable,
            sender,
            to,
            kind,
            bytes,
        } => {
            let packet = Packet {
                interface: cable,
                time,
                to,
                from: hardware_on(seats, cable, sender),
                kind,
                lost: is_among(lost, stamp),
            };
            print_packet(output, &packet, front_of(said.bytes(bytes)))?;
            Ok(time + 1)
        }
        _ => Ok(time),
    }
}

/// Prints the packets of entries, of which the first is seen at this time.
pub(crate) fn print_entries<S: Said, W: Write>(
    output: &mut Output<W>,
    said: &S,
    seats: &Seats,
    lost: &[u32],
    entries: &[Entry],
    time: u64,
) -> Result<(), Error>
    requires early { time + length entries.now < 2 ^ 64 }
    ensures gone { OnOk result (Goes (W.contents output.old.writer) output.old.text.items
        (entries_bytes (record { seats = seats.now; lost = lost.now }) time
        (map (entry_at (S.kept said.now)) entries.now))
        (W.contents output.new.writer) output.new.text.items) }
    ensures prints { Prints output.old.faults output.new.faults result }
{
    let mut next = time;
    for entry in entries {
        next = print_entry(output, said, seats, lost, entry, next)?;
    }
    Ok(())
}
