//! Putting frames on a cable.

ghost use Rattle.std.specs.Prelude.{◌≡◌, ◌<◌, ◌≤◌, ◌+◌, ◌&&◌, ◌==◌, [], ◌∷◌, ◌++◌, length, slice_get, filter, not, true};
ghost use Rattle.std.specs.Prelude.{vec_len, vec_capacity};
ghost use Rattle.cable_model.specs.Places.{widest};
ghost use Rattle.cable_model.specs.Order.{all_placed};
ghost use Rattle.cable_model.specs.Books.{Grows, HasRoom, IsBook, Uses, dues, said};
ghost use Rattle.cable_model.specs.Holdings.{is_open};
ghost use Rattle.cable_model.specs.declared.entry.Entry.TheVariants as line;
ghost use Rattle.station.specs.declared.heard.Kind.TheVariants.{Ddp};
ghost use Rattle.cable_model.specs.Logs.{bytes_at};
ghost use Rattle.cable_model.specs.Outcomes.{framed, is_for_as, link_of};
ghost use Rattle.cable_model.specs.Places.{due_at, dues_at};
ghost use Rattle.cable_model.specs.Waits.{due_key};

use crate::due::Due;
use crate::entry::Entry;
use crate::hearing::{self, is_for};
use crate::log::Log;
use crate::pendings::Pendings;
use crate::seat::Seat;
use crate::seats::{Seats, seat_at};
use at_base::Hw;
use station::{Kind, Link};

/// Adds the entry of a frame, with the pairs of the frame and all seats that receive it. A datagram
/// that was held with the frame's stamp is held no longer.
fn add_frame(
    log: &mut Log,
    seats: &Seats,
    stamp: u32,
    cable: u8,
    sender: u16,
    to: Hw,
    kind: Kind,
    bytes: u32,
)
    requires room { HasRoom log.old 1 0 0 (widest seats.now) }
    ensures lines { log.new.lines.items
        ≡ log.old.lines.items ++ line.Put stamp cable sender to kind bytes ∷ [] }
    ensures due { log.new.due.dues ≡ all_placed due_key log.old.due.dues
        (dues (λ s. s.cable == cable && is_for_as (link_of to) to sender s) stamp
        (length log.old.lines.items) 0 seats.now) }
    ensures holdings { log.new.holdings
        ≡ record log.old.holdings { dues = filter (λ d. not (stamp == d.stamp)) log.old.holdings.dues } }
    ensures kept { log.new.kept ≡ log.old.kept }
    ensures waiting { log.new.waiting ≡ log.old.waiting }
    ensures next_stamp { log.new.next_stamp ≡ log.old.next_stamp }
    ensures one { vec_len log.new.lines ≡ vec_len log.old.lines + 1 }
    ensures lines_room { vec_capacity log.new.lines ≡ vec_capacity log.old.lines }
    ensures few { length log.new.due.dues ≤ length log.old.due.dues + widest seats.now }
    ensures due_room { log.old.due.room ≤ log.new.due.room }
{
    let put = log.lines.len() as u32;
    log.lines.push_reserved(Entry::Put {
        stamp,
        cable,
        sender,
        to,
        kind,
        bytes,
    });
    log.holdings.remove_frame(stamp);
    add_dues(&mut log.due, seats, cable, sender, &to, stamp, put);
}

/// Puts a frame on a cable, for all stations that receive it there.
pub fn put(log: &mut Log, seats: &Seats, cable: u8, sender: u16, to: Hw, kind: Kind, bytes: u32)
    requires room { HasRoom log.old 1 0 0 (widest seats.now) }
    requires book { IsBook seats.now log.old }
    requires names { bytes < length log.old.kept.items }
    ensures grows { Grows log.old log.new
        (framed (record { stamp = log.old.next_stamp; cable = cable; station = sender }) to kind
        (bytes_at log.old.kept.items bytes) ∷ []) [] }
    ensures book { IsBook seats.now log.new }
    ensures kept { log.new.kept ≡ log.old.kept }
    ensures waiting { log.new.waiting ≡ log.old.waiting }
    ensures next_stamp { log.new.next_stamp ≡ log.old.next_stamp + 1 }
    ensures one { vec_len log.new.lines ≡ vec_len log.old.lines + 1 }
    ensures uses { Uses log.old log.new 1 0 0 (widest seats.now) }
{
    let stamp = log.next_stamp;
    add_frame(log, seats, stamp, cable, sender, to, kind, bytes);
    log.next_stamp += 1;
}

/// A datagram that is held, as it is stored.
#[derive(Clone, Copy, Debug)]
pub struct HeldLine {
    /// The stamp of its frame.
    pub stamp: u32,
    /// The cable.
    pub cable: u8,
    /// The station that holds it.
    pub station: u16,
    /// The number of its bytes.
    pub bytes: u32,
}

/// Puts the frame of a held datagram on its cable.
pub fn put_held(log: &mut Log, seats: &Seats, held: HeldLine, to: Hw)
    requires room { HasRoom log.old 1 0 0 (widest seats.now) }
    requires book { IsBook seats.now log.old }
    requires names { held.bytes < length log.old.kept.items }
    requires held { is_open (said log.old) held.stamp ≡ true }
    ensures grows { Grows log.old log.new
        (framed (record { stamp = held.stamp; cable = held.cable; station = held.station }) to Ddp
        (bytes_at log.old.kept.items held.bytes) ∷ []) [] }
    ensures book { IsBook seats.now log.new }
    ensures kept { log.new.kept ≡ log.old.kept }
    ensures waiting { log.new.waiting ≡ log.old.waiting }
    ensures next_stamp { log.new.next_stamp ≡ log.old.next_stamp }
    ensures one { vec_len log.new.lines ≡ vec_len log.old.lines + 1 }
    ensures lines_room { vec_capacity log.new.lines ≡ vec_capacity log.old.lines }
    ensures few { length log.new.due.dues ≤ length log.old.due.dues + widest seats.now }
    ensures due_room { log.old.due.room ≤ log.new.due.room }
{
    add_frame(
        log,
        seats,
        held.stamp,
        held.cable,
        held.station,
        to,
        Kind::Ddp,
        held.bytes,
    );
}

/// Adds the pair of a frame and the seat with an index, if the frame is for the seat's station.
fn add_due(
    due: &mut Pendings,
    seats: &[Seat],
    seat: usize,
    sender: u16,
    to: &Hw,
    link: Link,
    stamp: u32,
    put: u32,
)
    requires room { length due.old.dues + 1 ≤ due.old.room }
    ensures added { due.new.dues ≡ all_placed due_key due.old.dues
        (due_at (is_for_as link to.now sender) (slice_get seats.now seat) stamp put seat) }
    ensures few { length due.new.dues ≤ length due.old.dues + 1 }
    ensures capacity { due.old.room ≤ due.new.room }
{
    let Some(s) = seat_at(seats, seat) else {
        return;
    };
    if is_for(&s, sender, to, link) {
        due.add(Due {
            stamp,
            station: s.station,
            put,
            seat,
        });
    }
}

/// Adds the pairs of a frame and those of the seats with these indices whose stations the frame is
/// for.
fn add_those(
    due: &mut Pendings,
    seats: &[Seat],
    indices: &[usize],
    sender: u16,
    to: &Hw,
    link: Link,
    stamp: u32,
    put: u32,
)
    requires room { length due.old.dues + length indices.now ≤ due.old.room }
    ensures added { due.new.dues ≡ all_placed due_key due.old.dues
        (dues_at (is_for_as link to.now sender) seats.now stamp put indices.now) }
    ensures few { length due.new.dues ≤ length due.old.dues + length indices.now }
    ensures capacity { due.old.room ≤ due.new.room }
{
    match indices {
        [] => {}
        [seat, rest @ ..] => {
            add_due(due, seats, *seat, sender, to, link, stamp, put);
            add_those(due, seats, rest, sender, to, link, stamp, put);
        }
    }
}

/// Adds the pairs of a frame and all seats that receive it.
fn add_dues(
    due: &mut Pendings,
    seats: &Seats,
    cable: u8,
    sender: u16,
    to: &Hw,
    stamp: u32,
    put: u32,
)
    requires room { length due.old.dues + widest seats.now ≤ due.old.room }
    ensures added { due.new.dues ≡ all_placed due_key due.old.dues
        (dues (λ s. s.cable == cable && is_for_as (link_of to.now) to.now sender s) stamp put 0
        seats.now) }
    ensures few { length due.new.dues ≤ length due.old.dues + widest seats.now }
    ensures capacity { due.old.room ≤ due.new.room }
{
    let link = hearing::link_of(to);
    let indices = seats.on(cable);
    add_those(due, seats.as_slice(), indices, sender, to, link, stamp, put);
}
