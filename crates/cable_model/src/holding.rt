//! Datagrams that are held until a hardware address is known.

ghost use Rattle.std.specs.Prelude.{◌≡◌, ◌<◌, ◌≤◌, ◌+◌, ◌⊎◌, [], ◌∷◌, ◌++◌, List, ℕ, Option, length};
ghost use Rattle.std.specs.Prelude.{IfSome, IfNone, false, is_some, slice_get, true, vec_len};
ghost use Rattle.cable_model.specs.Places.{widest};
ghost use Rattle.cable_model.specs.Books.{Grows, HasRoom, HoldsMore, IsBook, IsHeldLine, IsSameButWaiting, IsStored, Settles};
ghost use Rattle.cable_model.specs.Books.{Tells, Uses, held as held_in, line_of, said};
ghost use Rattle.cable_model.specs.Holdings.{is_open};
ghost use Rattle.cable_model.specs.Logs.{bytes_at};
ghost use Rattle.cable_model.specs.Outgoing.{IsHeldBy, asked, asked_bytes, held_entry, if_open, losses};
ghost use Rattle.cable_model.specs.Outcomes.{held_at};
ghost use Rattle.cable_model.specs.Transcript.{Entry as EntryValue};
ghost use Rattle.cable_model.specs.declared.seat.Seat.{Seat as SeatValue};

use crate::due::Due;
use crate::ending::lost;
use crate::entry::Entry;
use crate::kept::PACKET_LEN;
use crate::log::Log;
use crate::putting::{HeldLine, put};
use crate::resolve::Resolve;
use crate::seats::Seats;
use crate::waiting::Waiting;
use at_base::Hw;
use station::Kind;

/// The stored place of the held datagram with this stamp.
fn find_held(log: &Log, stamp: u32) -> Option<Due>
    ensures value { (seats : List SeatValue) → IsBook seats log.now
        → is_some result ≡ is_open (said log.now) stamp }
    ensures some { (seats : List SeatValue) → IsBook seats log.now
        → IfSome result (λ d. IsStored (said log.now) stamp d) }
    ensures none { (seats : List SeatValue) → IsBook seats log.now
        → IfNone result (is_open (said log.now) stamp ≡ false) }
{
    log.holdings.of_frame(stamp)
}

/// The datagram that an entry holds.
fn hold_of(line: &Entry) -> Option<HeldLine>
    ensures { result ≡ line_of line.now }
{
    match line {
        Entry::Hold {
            stamp,
            cable,
            station,
            bytes,
            ..
        } => Some(HeldLine {
            stamp: *stamp,
            cable: *cable,
            station: *station,
            bytes: *bytes,
        }),
        _ => None,
    }
}

/// The entry with an index.
fn line_at(log: &Log, index: usize) -> Option<Entry>
    ensures { result ≡ slice_get log.now.lines.items index }
{
    log.lines.get(index).copied()
}

/// The held datagram with this stamp.
pub fn held_line(log: &Log, stamp: u32) -> Option<HeldLine>
    ensures some { (seats : List SeatValue) → IsBook seats log.now
        → IfSome result (λ l. IsHeldLine log.now stamp l) }
    ensures none { (seats : List SeatValue) → IsBook seats log.now
        → IfNone result (is_open (said log.now) stamp ≡ false) }
{
    let Some(due) = find_held(log, stamp) else {
        return None;
    };
    match line_at(log, due.put as usize) {
        Some(line) => hold_of(&line),
        None => None,
    }
}

/// Whether a datagram is held with this stamp.
pub fn is_held(log: &Log, stamp: u32) -> bool
    ensures value { (seats : List SeatValue) → IsBook seats log.now
        → result ≡ is_open (said log.now) stamp }
    ensures earlier { (seats : List SeatValue) → IsBook seats log.now
        → result ≡ true → stamp < log.now.next_stamp }
{
    find_held(log, stamp).is_some()
}

/// The stamp, if a datagram is held with it.
fn if_held(log: &Log, stamp: Option<u32>) -> Option<u32>
    ensures value { (seats : List SeatValue) → IsBook seats log.now
        → result ≡ if_open (said log.now) stamp }
    ensures earlier { (seats : List SeatValue) → IsBook seats log.now
        → IfSome result (λ s. s < log.now.next_stamp) }
{
    match stamp {
        Some(stamp) => {
            if is_held(log, stamp) {
                Some(stamp)
            } else {
                None
            }
        }
        None => None,
    }
}

/// Adds the entry that a station holds a datagram.
fn add_hold(log: &mut Log, station: u16, waiting: Waiting)
    requires room { HasRoom log.old 1 0 0 0 }
    requires holdings { length log.old.holdings.dues + 1 ≤ log.old.holdings.room }
    requires names { waiting.bytes < length log.old.kept.items }
    ensures tells { Tells log.old log.new
        (held_entry log.old.next_stamp station (held_at log.old.kept.items waiting) ∷ []) }
    ensures book { (seats : List SeatValue) → IsBook seats log.old → IsBook seats log.new }
    ensures kept { log.new.kept ≡ log.old.kept }
    ensures waiting { log.new.waiting ≡ log.old.waiting }
    ensures next_stamp { log.new.next_stamp ≡ log.old.next_stamp + 1 }
    ensures one { vec_len log.new.lines ≡ vec_len log.old.lines + 1 }
    ensures held { HoldsMore log.old log.new }
{
    let stamp = log.next_stamp;
    let put = log.lines.len() as u32;
    log.lines.push_reserved(Entry::Hold {
        stamp,
        cable: waiting.cable,
        station,
        next: waiting.next,
        bytes: waiting.bytes,
    });
    log.next_stamp += 1;
    log.holdings.add(Due {
        stamp,
        station,
        put,
        seat: 0,
    });
}

/// Adds the entry that a held datagram was let go, if there is one.
fn give_up(log: &mut Log, stamp: Option<u32>)
    requires room { HasRoom log.old 1 0 0 0 }
    requires earlier { IfSome stamp (λ s. s < log.old.next_stamp) }
    ensures tells { Tells log.old log.new (losses stamp) }
    ensures book { (seats : List SeatValue) → IsBook seats log.old → IsBook seats log.new }
    ensures kept { log.new.kept ≡ log.old.kept }
    ensures waiting { log.new.waiting ≡ log.old.waiting }
    ensures next_stamp { log.new.next_stamp ≡ log.old.next_stamp }
    ensures uses { Uses log.old log.new 1 0 0 0 }
{
    if let Some(stamp) = stamp {
        lost(log, stamp);
    }
}

/// Puts a request for an address on a cable, if there is one.
fn ask(log: &mut Log, seats: &Seats, cable: u8, station: u16, packet: Option<[u8; PACKET_LEN]>)
    requires room { HasRoom log.old 1 1 0 (widest seats.now) }
    requires book { IsBook seats.now log.old }
    ensures tells { Tells log.old log.new
        (asked (record { stamp = log.old.next_stamp; cable = cable; station = station }) packet) }
    ensures book { IsBook seats.now log.new }
    ensures stored { log.new.kept.items ≡ log.old.kept.items ++ asked_bytes packet }
    ensures waiting { log.new.waiting ≡ log.old.waiting }
    ensures uses { Uses log.old log.new 1 1 0 (widest seats.now) }
    ensures named { length log.new.kept.items + vec_len log.old.lines
        ≤ length log.old.kept.items + vec_len log.new.lines }
{
    let Some(packet) = packet else {
        return;
    };
    let number = keep_packet(log, packet);
    put(log, seats, cable, station, Hw::ALL, Kind::Aarp, number);
}

/// Stores an AARP packet, and returns its number.
fn keep_packet(log: &mut Log, packet: [u8; PACKET_LEN]) -> u32
    requires room { HasRoom log.old 0 1 0 0 }
    ensures grows { (seats : List SeatValue) → IsBook seats log.old → Grows log.old log.new [] [] }
    ensures book { (seats : List SeatValue) → IsBook seats log.old → IsBook seats log.new }
    ensures within { result < length log.new.kept.items }
    ensures bytes { bytes_at log.new.kept.items result ≡ packet }
    ensures stored { log.new.kept.items ≡ log.old.kept.items ++ packet ∷ [] }
    ensures next_stamp { log.new.next_stamp ≡ log.old.next_stamp }
    ensures waiting { log.new.waiting ≡ log.old.waiting }
    ensures lines { log.new.lines ≡ log.old.lines }
    ensures one { length log.new.kept.items ≡ length log.old.kept.items + 1 }
    ensures uses { Uses log.old log.new 0 1 0 0 }
{
    let number = log.kept.len() as u32;
    log.kept.push_packet(packet);
    number
}

/// Takes out the datagram that is to be held.
fn take_waiting(log: &mut Log) -> Option<Waiting>
    requires { vec_len log.old.waiting ≤ 1 }
    ensures some { IfSome result (λ w. log.old.waiting.items ≡ w ∷ []) }
    ensures none { IfNone result (log.old.waiting.items ≡ []) }
    ensures idle { log.new.waiting.items ≡ [] }
    ensures book { (seats : List SeatValue) → IsBook seats log.old → IsBook seats log.new }
    ensures same { IsSameButWaiting log.old log.new }
{
    log.waiting.pop()
}

/// Holds the datagram of an output that can't go out yet, if there is one, and asks for the
/// address.
pub fn settle<R: Resolve>(log: &mut Log, seats: &Seats, resolver: &mut R, station: u16)
    requires room { (log.old.waiting.items ≡ [])
        ⊎ (HasRoom log.old 3 1 0 (widest seats.now) × (length log.old.holdings.dues + 1 ≤ log.old.holdings.room)) }
    requires book { IsBook seats.now log.old }
    requires few { vec_len log.old.waiting ≤ 1 }
    ensures settled { (es : List EntryValue) × (ks : List (List ℕ)) × Tells log.old log.new es
        × (log.new.kept.items ≡ log.old.kept.items ++ ks)
        × IsHeldBy R.holds station (said log.old) (held_in log.old) resolver.old es ks resolver.new }
    ensures idle { log.new.waiting.items ≡ [] }
    ensures book { IsBook seats.now log.new }
    ensures used { Settles log.old log.new (widest seats.now) }
{
    let Some(waiting) = take_waiting(log) else {
        return;
    };
    let by = resolver.hold(waiting.cable, waiting.next, log.next_stamp);
    let gone = if_held(log, by.shed);
    add_hold(log, station, waiting);
    give_up(log, gone);
    ask(log, seats, waiting.cable, station, by.ask);
}
