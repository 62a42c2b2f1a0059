//! The frame that a station takes, as it receives it.

ghost use Rattle.std.specs.Prelude.{◌≡◌, ◌<◌, slice_get};
ghost use Rattle.cable_model.specs.Books as spec;
ghost use Rattle.cable_model.specs.Books.{pair_at, said, seat_at};
ghost use Rattle.cable_model.specs.Outcomes.{heard_by};
ghost use Rattle.station.specs.Hearing.{hearing};

use crate::due::Due;
use crate::entry::Entry;
use crate::hearing::link_of;
use crate::log::Log;
use crate::seat::Seat;
use station::{Heard, Kind, Link};

/// The port of the seat with an index, or 0 past the end.
fn port_at(seats: &[Seat], index: usize) -> u8
    ensures { result ≡ (seat_at seats.now index).port }
{
    match seats.get(index) {
        None => 0,
        Some(seat) => seat.port,
    }
}

/// The frame as the seat's station receives it. It borrows the bytes.
pub fn heard_of<'a>(log: &'a Log, seats: &[Seat], due: Due) -> Heard<'a>
    ensures { hearing result ≡ heard_by (pair_at seats.now (said log.now) due) }
{
    let port = port_at(seats, due.seat);
    match log.lines.get(due.put as usize) {
        Some(
            Entry::Put {
                to,
                kind,
                bytes,
                ..
            },
        ) => Heard {
            port,
            link: link_of(to),
            kind: *kind,
            bytes: log.kept.get(*bytes),
        },
        _ => Heard {
            port,
            link: Link::Own,
            kind: Kind::Ddp,
            bytes: &[],
        },
    }
}

/// A frame that is pending.
#[derive(Clone, Copy, Debug)]
pub struct PendingFrame<'a> {
    /// The cable.
    pub cable: u8,
    /// Whether it has a datagram or an AARP packet.
    pub kind: Kind,
    /// Its bytes.
    pub bytes: &'a [u8],
}

/// The frame of a pair. It borrows the bytes.
pub fn frame_of(log: &Log, due: Due) -> PendingFrame<'_>
    ensures cable { result.cable ≡ (spec.frame_of (slice_get (said log.now) due.put)).cable }
    ensures kind { result.kind ≡ (spec.frame_of (slice_get (said log.now) due.put)).kind }
    ensures bytes { result.bytes.now ≡ (spec.frame_of (slice_get (said log.now) due.put)).bytes }
{
    match log.lines.get(due.put as usize) {
        Some(
            Entry::Put {
                cable,
                kind,
                bytes,
                ..
            },
        ) => PendingFrame {
            cable: *cable,
            kind: *kind,
            bytes: log.kept.get(*bytes),
        },
        _ => PendingFrame {
            cable: 0,
            kind: Kind::Ddp,
            bytes: &[],
        },
    }
}
