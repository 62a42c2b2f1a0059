//! Putting datagrams on a cable.

ghost use Rattle.std.specs.Prelude.{◌≡◌, ◌<◌, [], ◌∷◌, List, length};
ghost use Rattle.cable_model.specs.Places.{widest};
ghost use Rattle.cable_model.specs.Books.{Grows, HasRoom, IsBook, Uses};
ghost use Rattle.cable_model.specs.Logs.{bytes_at};
ghost use Rattle.cable_model.specs.Outcomes.{held_by};
ghost use Rattle.cable_model.specs.Outcomes as spec;
ghost use Rattle.cable_model.specs.Transcript.{Reached};
ghost use Rattle.cable_model.specs.Ways.{sender_at, way_entries, way_held};
ghost use Rattle.cable_model.specs.declared.resolve.Found.TheVariants.{Later};
ghost use Rattle.cable_model.specs.declared.seat.Seat.{Seat as SeatValue};
ghost use Rattle.cable_model.specs.declared.route.Route.TheVariants.{All};
ghost use Rattle.ddp.specs.Bodies.{body};

use crate::entry::{Entry, How};
use crate::log::{self, Log, note};
use crate::outlet::Outlet;
use crate::putting::put;
use crate::resolve::Found;
use crate::route::Route;
use crate::seats::Seats;
use crate::waiting::Waiting;
use at_base::{Addr, Hw};
use station::Kind;

/// Adds the entry that a datagram reached the cable.
fn reached(log: &mut Log, exit: Outlet, how: How, bytes: u32)
    requires room { HasRoom log.old 1 0 0 0 }
    requires names { bytes < length log.old.kept.items }
    ensures grows { Grows log.old log.new
        (Reached exit.cable exit.station how (body (bytes_at log.old.kept.items bytes)) ∷ []) [] }
    ensures book { (seats : List SeatValue) → IsBook seats log.old → IsBook seats log.new }
    ensures kept { log.new.kept ≡ log.old.kept }
    ensures waiting { log.new.waiting ≡ log.old.waiting }
    ensures next_stamp { log.new.next_stamp ≡ log.old.next_stamp }
    ensures uses { Uses log.old log.new 1 0 0 0 }
{
    note(
        log,
        Entry::Reached {
            cable: exit.cable,
            station: exit.station,
            how,
            bytes,
        },
    );
}

/// Sends a datagram to the station that it is addressed to.
fn to_target(log: &mut Log, seats: &Seats, exit: Outlet, addr: Addr, found: Found, bytes: u32)
    requires room { HasRoom log.old 2 0 1 (widest seats.now) }
    requires book { IsBook seats.now log.old }
    requires names { bytes < length log.old.kept.items }
    ensures grows { Grows log.old log.new
        (spec.to_target (sender_at exit log.old.next_stamp) (bytes_at log.old.kept.items bytes) found)
        (held_by found exit.cable addr (bytes_at log.old.kept.items bytes)) }
    ensures book { IsBook seats.now log.new }
    ensures kept { log.new.kept ≡ log.old.kept }
    ensures uses { Uses log.old log.new 2 0 1 (widest seats.now) }
{
    match found {
        Found::At(hw) => {
            reached(log, exit, How::Station, bytes);
            put(log, seats, exit.cable, exit.station, hw, Kind::Ddp, bytes);
        }
        Found::Nobody => reached(log, exit, How::Absent, bytes),
        Found::Later => {
            reached(log, exit, How::Held, bytes);
            wait(log, exit, addr, bytes);
        }
    }
}

/// Sends a datagram to another station than the one that it is addressed to.
fn to_other(log: &mut Log, seats: &Seats, exit: Outlet, addr: Addr, found: Found, bytes: u32)
    requires room { HasRoom log.old 1 0 1 (widest seats.now) }
    requires book { IsBook seats.now log.old }
    requires names { bytes < length log.old.kept.items }
    ensures grows { Grows log.old log.new
        (spec.to_other (sender_at exit log.old.next_stamp) (bytes_at log.old.kept.items bytes) found)
        (held_by found exit.cable addr (bytes_at log.old.kept.items bytes)) }
    ensures book { IsBook seats.now log.new }
    ensures kept { log.new.kept ≡ log.old.kept }
    ensures uses { Uses log.old log.new 1 0 1 (widest seats.now) }
{
    match found {
        Found::At(hw) => put(log, seats, exit.cable, exit.station, hw, Kind::Ddp, bytes),
        Found::Nobody => {}
        Found::Later => wait(log, exit, addr, bytes),
    }
}

/// Lets a datagram wait for the hardware address of its next station.
fn wait(log: &mut Log, exit: Outlet, next: Addr, bytes: u32)
    requires room { HasRoom log.old 0 0 1 0 }
    requires names { bytes < length log.old.kept.items }
    ensures grows { Grows log.old log.new []
        (held_by Later exit.cable next (bytes_at log.old.kept.items bytes)) }
    ensures book { (seats : List SeatValue) → IsBook seats log.old → IsBook seats log.new }
    ensures kept { log.new.kept ≡ log.old.kept }
    ensures uses { Uses log.old log.new 0 0 1 0 }
{
    let waiting = Waiting {
        cable: exit.cable,
        next,
        bytes,
    };
    log::wait(log, waiting);
}

/// Sends a datagram to all stations of the cable.
fn to_all(log: &mut Log, seats: &Seats, exit: Outlet, listed: bool, bytes: u32)
    requires room { HasRoom log.old 2 0 0 (widest seats.now) }
    requires book { IsBook seats.now log.old }
    requires names { bytes < length log.old.kept.items }
    ensures grows { Grows log.old log.new
        (way_entries (sender_at exit log.old.next_stamp) (bytes_at log.old.kept.items bytes) (All listed)) [] }
    ensures book { IsBook seats.now log.new }
    ensures kept { log.new.kept ≡ log.old.kept }
    ensures uses { Uses log.old log.new 2 0 0 (widest seats.now) }
{
    if listed {
        reached(log, exit, How::All, bytes);
        put(
            log,
            seats,
            exit.cable,
            exit.station,
            Hw::ALL,
            Kind::Ddp,
            bytes,
        );
    } else {
        put(
            log,
            seats,
            exit.cable,
            exit.station,
            Hw::ALL,
            Kind::Ddp,
            bytes,
        );
    }
}

/// Sends a datagram on a route of the cable.
pub fn leave(log: &mut Log, seats: &Seats, exit: Outlet, way: Route, bytes: u32)
    requires room { HasRoom log.old 2 0 1 (widest seats.now) }
    requires book { IsBook seats.now log.old }
    requires names { bytes < length log.old.kept.items }
    ensures grows { Grows log.old log.new
        (way_entries (sender_at exit log.old.next_stamp) (bytes_at log.old.kept.items bytes) way)
        (way_held exit.cable (bytes_at log.old.kept.items bytes) way) }
    ensures book { IsBook seats.now log.new }
    ensures kept { log.new.kept ≡ log.old.kept }
    ensures uses { Uses log.old log.new 2 0 1 (widest seats.now) }
{
    match way {
        Route::Target(addr, found) => to_target(log, seats, exit, addr, found, bytes),
        Route::Other(addr, found) => to_other(log, seats, exit, addr, found, bytes),
        Route::All(listed) => to_all(log, seats, exit, listed, bytes),
        Route::Group(group) => {
            let to = Hw::zone(group);
            put(log, seats, exit.cable, exit.station, to, Kind::Ddp, bytes);
        }
    }
}
