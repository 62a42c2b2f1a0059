//! The example of the README of `captures`, and a capture of three ticks.

use at_base::{Bytes, Error, Hw};
use cable_model::{Cables, Entry, Kind, Rooms, Seat, Seats};
use captures::{Extent, Said, capture_play, capture_run};
use pcapng::{Packet, print_interface, print_packet, print_section};
use std::alloc::Global;
use std::io::Write;
use text::Output;

/// Writes the capture of a transcript over one cable.
fn capture<S: Said, W: Write>(
    alloc: Global,
    output: &mut Output<W>,
    seats: &[Seat],
    said: &S,
    entries: &[Entry],
) -> Result<(), Error> {
    let seats = Seats::of(alloc, seats)?;
    let cables = [Extent { start: 10, end: 19 }];
    capture_run(output, &cables, &seats, said, entries)
}

/// The bytes that the entries of cables name.
#[derive(Drop)]
struct Told<'a> {
    cables: &'a Cables,
}

impl Said for Told<'_> {
    ghost kept = { λ t. t.cables.now.kept };

    fn bytes(&self, number: u32) -> &[u8] {
        self.cables.bytes(number)
    }
}

/// The router on its first cable.
const ROUTER: Hw = Hw([2, 0, 0, 0, 0, 1]);

/// The router on its second cable.
const ROUTER_BEYOND: Hw = Hw([2, 0, 0, 0, 0, 2]);

/// The node on the first cable.
const NODE: Hw = Hw([2, 0, 0, 0, 0, 5]);

/// The node on the second cable.
const NODE_BEYOND: Hw = Hw([2, 0, 0, 0, 0, 6]);

/// A router on both cables, and a node on each.
const SEATS: [Seat; 4] = [
    Seat {
        cable: 0,
        station: 0,
        port: 0,
        hw: ROUTER,
        group: None,
    },
    Seat {
        cable: 1,
        station: 0,
        port: 1,
        hw: ROUTER_BEYOND,
        group: None,
    },
    Seat {
        cable: 0,
        station: 1,
        port: 0,
        hw: NODE,
        group: None,
    },
    Seat {
        cable: 1,
        station: 2,
        port: 0,
        hw: NODE_BEYOND,
        group: None,
    },
];

const DATAGRAM: [u8; 13] = [0, 13, 0, 0, 0, 10, 0, 10, 7, 5, 4, 254, 4];

/// The ranges of the cables.
const CABLES: [Extent; 2] = [Extent { start: 10, end: 19 }, Extent { start: 20, end: 29 }];

/// The packets of the capture of a play with three frames, where the first tick added one entry, the
/// second none, and the third the others: a node's frame to all, then two of the router's, of which
/// the first was lost.
const PACKETS: [Packet; 3] = [
    Packet {
        interface: 0,
        time: 200_000,
        to: Hw::ALL,
        from: NODE,
        kind: Kind::Ddp,
        lost: false,
    },
    Packet {
        interface: 1,
        time: 600_000,
        to: NODE_BEYOND,
        from: ROUTER_BEYOND,
        kind: Kind::Ddp,
        lost: true,
    },
    Packet {
        interface: 0,
        time: 600_001,
        to: NODE,
        from: ROUTER,
        kind: Kind::Aarp,
        lost: false,
    },
];

/// Prints what the capture of the play should be.
fn print_wanted(output: &mut Output<Vec<u8>>) -> Result<(), Error> {
    print_section(output)?;
    print_interface(output, 0, 10, 19)?;
    print_interface(output, 1, 20, 29)?;
    print_packet(output, &PACKETS[0], &DATAGRAM)?;
    print_packet(output, &PACKETS[1], &DATAGRAM)?;
    print_packet(output, &PACKETS[2], b"no AARP")?;
    output.flush()
}

/// Whether the capture of a play with these cables is the one wanted.
fn is_play_captured(alloc: Global, cables: &Cables, seats: &Seats) -> Result<bool, Error> {
    let mut wanted = Output::new(alloc, Vec::with_capacity(alloc, 600)?);
    let mut output = Output::new(alloc, Vec::with_capacity(alloc, 600)?);
    let said = Told { cables };
    let entries = cables.transcript();
    let captured = capture_play(&mut output, &CABLES, seats, &[1, 0, 3], &said, entries);
    match (captured, print_wanted(&mut wanted)) {
        (Ok(()), Ok(())) => Ok(output.writer == wanted.writer),
        (Err(error), _) | (_, Err(error)) => Err(error),
    }
}

/// The length of the capture of a run with these cables.
fn run_length(alloc: Global, cables: &Cables) -> Result<usize, Error> {
    let mut output = Output::new(alloc, Vec::with_capacity(alloc, 200)?);
    let said = Told { cables };
    match capture(alloc, &mut output, &SEATS, &said, cables.transcript()) {
        Ok(()) => Ok(output.writer.len()),
        Err(error) => Err(error),
    }
}

/// Whether the capture of a run with one frame, a node's to all, has the right length, and that of a
/// play with all three frames is the one wanted.
fn are_captured(alloc: Global, cables: &mut Cables, seats: &Seats) -> Result<bool, Error> {
    cables.put(0, 1, Hw::ALL, Kind::Ddp, Bytes::copy(alloc, &DATAGRAM)?)?;
    let length = run_length(alloc, cables)?;
    let lost = cables.put(1, 0, NODE_BEYOND, Kind::Ddp, Bytes::copy(alloc, &DATAGRAM)?)?;
    cables.put(0, 0, NODE, Kind::Aarp, Bytes::copy(alloc, b"no AARP")?)?;
    cables.lose(lost)?;
    Ok(length == 28 + 44 + 68 && is_play_captured(alloc, cables, seats)?)
}

/// Whether captures have times, sources and losses.
pub(super) fn a_run_and_a_play_are_captured(alloc: Global) -> Result<bool, Error> {
    let seats = Seats::of(alloc, &SEATS)?;
    let mut cables = Cables::new(alloc, &SEATS, 10, Rooms::KNOWN)?;
    let found = are_captured(alloc, &mut cables, &seats);
    drop(cables);
    found
}
