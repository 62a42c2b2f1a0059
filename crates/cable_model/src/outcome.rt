//! The entries of a station's outputs.

ghost use Rattle.std.specs.Prelude.{◌≡◌, ◌⊎◌, ◌≤◌, ◌+◌, ◌*◌, ℕ, [], ◌∷◌, ◌++◌, List, cond, length, vec_len};
ghost use Rattle.cable_model.specs.Places.{widest};
ghost use Rattle.cable_model.specs.Books.{Grows, HasHeldRoom, HasRoom, IsBook, Tells, Uses, said};
ghost use Rattle.cable_model.specs.Outcomes.{Places, entries_of, framed};
ghost use Rattle.cable_model.specs.Outcomes.{goes_nowhere, held_next, held_of, leg, stored_of};
ghost use Rattle.cable_model.specs.Outgoing.{GoOut, IsAnswering};
ghost use Rattle.cable_model.specs.Transcript.{Dropped, Entry as EntryValue, Reached, Sent};
ghost use Rattle.cable_model.specs.Ways.{all_lines, all_spare, is_nowhere_way, lines_for, sender_at, spare_for};
ghost use Rattle.cable_model.specs.declared.entry.How.TheVariants.{Own};
ghost use Rattle.cable_model.specs.declared.seat.Seat.{Seat as SeatValue};
ghost use Rattle.ddp.specs.Bodies.{body};
ghost use Rattle.station.specs.declared.heard.Kind.TheVariants.{Aarp};

use crate::entry::{Entry, How};
use crate::holding::settle;
use crate::leaving::leave;
use crate::log::{Log, keep, note};
use crate::outlet::Outlet;
use crate::putting::put;
use crate::resolve::{Found, Resolve};
use crate::route::{Route, way_of};
use crate::seating::exit_by;
use crate::seats::Seats;
use at_base::{Bytes, Hw};
use station::{DropCause, Kind, Next, Output, Outputs};

/// Sends a datagram that a station made.
pub fn sent<R: Resolve>(
    log: &mut Log,
    seats: &Seats,
    resolver: &R,
    exit: Outlet,
    next: Next,
    bytes: Bytes,
)
    requires room { HasRoom log.old 3 1 1 (widest seats.now) }
    requires book { IsBook seats.now log.old }
    ensures grows { let places : Places = record { finds = R.finds resolver.now; lists = R.lists resolver.now } in
        Grows log.old log.new
        (Sent exit.station (body bytes) ∷ leg places (sender_at exit log.old.next_stamp) next bytes)
        (held_next places exit.cable next bytes) }
    ensures stored { log.new.kept.items ≡ log.old.kept.items ++ bytes ∷ [] }
    ensures book { IsBook seats.now log.new }
    ensures uses { Uses log.old log.new 3 1 1 (widest seats.now) }
    ensures named { length log.new.kept.items + vec_len log.old.lines
        ≤ length log.old.kept.items + vec_len log.new.lines }
{
    let way = way_of(resolver, exit.cable, next, bytes.as_slice());
    let number = keep(log, bytes);
    note(
        log,
        Entry::Sent {
            station: exit.station,
            bytes: number,
        },
    );
    leave(log, seats, exit, way, number);
}

/// Sends a datagram that a router forwards. If no station has its next address, no entry names it,
/// and its bytes aren't stored.
fn passed<R: Resolve>(
    log: &mut Log,
    seats: &Seats,
    resolver: &R,
    exit: Outlet,
    next: Next,
    bytes: Bytes,
)
    requires room { HasRoom log.old 2 1 1 (widest seats.now) }
    requires book { IsBook seats.now log.old }
    ensures grows { let places : Places = record { finds = R.finds resolver.now; lists = R.lists resolver.now } in
        Grows log.old log.new (leg places (sender_at exit log.old.next_stamp) next bytes)
        (held_next places exit.cable next bytes) }
    ensures stored { let places : Places = record { finds = R.finds resolver.now; lists = R.lists resolver.now } in
        log.new.kept.items ≡ log.old.kept.items
        ++ cond (goes_nowhere places exit.cable next bytes) [] (bytes ∷ []) }
    ensures book { IsBook seats.now log.new }
    ensures uses { Uses log.old log.new 2 1 1 (widest seats.now) }
    ensures named { length log.new.kept.items + vec_len log.old.lines
        ≤ length log.old.kept.items + vec_len log.new.lines + 1 }
{
    let way = way_of(resolver, exit.cable, next, bytes.as_slice());
    if is_nowhere(way) {
        return;
    }
    let number = keep(log, bytes);
    leave(log, seats, exit, way, number);
}

/// Whether a datagram on this route adds no entry and doesn't wait.
fn is_nowhere(way: Route) -> bool
    ensures { result ≡ is_nowhere_way way }
{
    match way {
        Route::Other(_, found) => match found {
            Found::Nobody => true,
            _ => false,
        },
        _ => false,
    }
}

/// Adds the entry that a router keeps a datagram.
fn own(log: &mut Log, exit: Outlet, bytes: Bytes)
    requires room { HasRoom log.old 2 1 0 0 }
    ensures grows { (seats : List SeatValue) → IsBook seats log.old
        → Grows log.old log.new (Reached exit.cable exit.station Own (body bytes) ∷ []) [] }
    ensures stored { log.new.kept.items ≡ log.old.kept.items ++ bytes ∷ [] }
    ensures book { (seats : List SeatValue) → IsBook seats log.old → IsBook seats log.new }
    ensures uses { Uses log.old log.new 2 1 0 0 }
    ensures named { length log.new.kept.items + vec_len log.old.lines
        ≤ length log.old.kept.items + vec_len log.new.lines + 1 }
{
    let number = keep(log, bytes);
    note(
        log,
        Entry::Reached {
            cable: exit.cable,
            station: exit.station,
            how: How::Own,
            bytes: number,
        },
    );
}

/// Adds the entry that a router drops a datagram.
fn dropped(log: &mut Log, router: u16, cause: DropCause, bytes: Bytes)
    requires room { HasRoom log.old 2 1 0 0 }
    ensures grows { (seats : List SeatValue) → IsBook seats log.old
        → Grows log.old log.new (Dropped router cause (body bytes) ∷ []) [] }
    ensures stored { log.new.kept.items ≡ log.old.kept.items ++ bytes ∷ [] }
    ensures book { (seats : List SeatValue) → IsBook seats log.old → IsBook seats log.new }
    ensures uses { Uses log.old log.new 2 1 0 0 }
    ensures named { length log.new.kept.items + vec_len log.old.lines
        ≤ length log.old.kept.items + vec_len log.new.lines + 1 }
{
    let number = keep(log, bytes);
    note(
        log,
        Entry::Dropped {
            router,
            cause,
            bytes: number,
        },
    );
}

/// Puts an AARP packet of a station on a cable.
fn wire(log: &mut Log, seats: &Seats, exit: Outlet, to: Hw, bytes: Bytes)
    requires room { HasRoom log.old 3 1 0 (widest seats.now) }
    requires book { IsBook seats.now log.old }
    ensures grows { Grows log.old log.new
        (framed (sender_at exit log.old.next_stamp) to Aarp bytes ∷ []) [] }
    ensures stored { log.new.kept.items ≡ log.old.kept.items ++ bytes ∷ [] }
    ensures book { IsBook seats.now log.new }
    ensures uses { Uses log.old log.new 3 1 0 (widest seats.now) }
    ensures named { length log.new.kept.items + vec_len log.old.lines
        ≤ length log.old.kept.items + vec_len log.new.lines }
{
    let number = keep(log, bytes);
    put(log, seats, exit.cable, exit.station, to, Kind::Aarp, number);
}

/// Adds the entries of an output.
fn add<R: Resolve>(log: &mut Log, seats: &Seats, resolver: &R, station: u16, output: Output)
    requires room { HasRoom log.old (lines_for output) 1 1 (widest seats.now) }
    requires book { IsBook seats.now log.old }
    ensures grows { let places : Places = record { finds = R.finds resolver.now; lists = R.lists resolver.now } in
        Grows log.old log.new (entries_of places seats.now station log.old.next_stamp output)
        (held_of places seats.now station output) }
    ensures stored { let places : Places = record { finds = R.finds resolver.now; lists = R.lists resolver.now } in
        log.new.kept.items ≡ log.old.kept.items ++ stored_of places seats.now station output }
    ensures book { IsBook seats.now log.new }
    ensures uses { Uses log.old log.new (lines_for output) 1 1 (widest seats.now) }
    ensures named { length log.new.kept.items + vec_len log.old.lines
        ≤ length log.old.kept.items + vec_len log.new.lines + spare_for output }
{
    match output {
        Output::Made { port, next, bytes } => {
            sent(
                log,
                seats,
                resolver,
                exit_by(seats, station, port),
                next,
                bytes,
            )
        }
        Output::Passed { port, next, bytes } => {
            passed(
                log,
                seats,
                resolver,
                exit_by(seats, station, port),
                next,
                bytes,
            )
        }
        Output::Kept { port, bytes } => own(log, exit_by(seats, station, port), bytes),
        Output::Dropped { cause, bytes } => dropped(log, station, cause, bytes),
        Output::Wire { port, to, bytes } => {
            wire(log, seats, exit_by(seats, station, port), to, bytes)
        }
    }
}

/// Adds the entries of outputs, one after another, and empties the queue. A datagram that can't go
/// out yet is held.
pub fn add_all<R: Resolve>(
    log: &mut Log,
    seats: &Seats,
    resolver: &mut R,
    station: u16,
    outputs: &mut Outputs,
)
    requires room { HasRoom log.old (all_lines outputs.old.items) (length outputs.old.items)
        (length outputs.old.items) (length outputs.old.items * widest seats.now) }
    requires more { let places : Places = record { finds = R.finds resolver.old; lists = R.lists resolver.old } in
        IsAnswering places ⊎ HasHeldRoom log.old outputs.old.items (widest seats.now) }
    requires book { IsBook seats.now log.old }
    requires idle { log.old.waiting.items ≡ [] }
    ensures out { (es : List EntryValue) × (ks : List (List ℕ)) × Tells log.old log.new es
        × (log.new.kept.items ≡ log.old.kept.items ++ ks)
        × GoOut (λ r. record { finds = R.finds r; lists = R.lists r }) R.holds seats.now station (said log.old)
        outputs.old.items resolver.old es ks resolver.new }
    ensures book { IsBook seats.now log.new }
    ensures few { vec_len log.new.lines ≤ vec_len log.old.lines + all_lines outputs.old.items + 2 * length outputs.old.items }
    ensures few_known { let places : Places = record { finds = R.finds resolver.old; lists = R.lists resolver.old } in
        IsAnswering places → vec_len log.new.lines ≤ vec_len log.old.lines + all_lines outputs.old.items }
    ensures named { length log.new.kept.items + vec_len log.old.lines
        ≤ length log.old.kept.items + vec_len log.new.lines + all_spare outputs.old.items }
    ensures steady { log.new.next_stamp + vec_len log.old.lines ≤ log.old.next_stamp + vec_len log.new.lines }
    ensures idle { log.new.waiting.items ≡ [] }
    ensures none { outputs.new.items ≡ [] }
    ensures unchanged { outputs.old.items ≡ [] → log.new ≡ log.old }
{
    while let Some(output) = outputs.pop() {
        add(log, seats, resolver, station, output);
        settle(log, seats, resolver, station);
    }
}
