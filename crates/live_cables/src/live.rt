//! Live cables.

ghost use Rattle.std.specs.Prelude.{◌≡◌, ◌⊎◌, ◌↔◌, ◌==◌, ◌&&◌, ◌+◌, ◌<◌, ◌≤◌, [], IfErr, IfOk, IfNone, IfSome};
ghost use Rattle.std.specs.Prelude.{false, length, nat_lt, slice_set, true, IsTrue, OnErr, OnOk, ℕ};
ghost use Rattle.std.specs.List.{list_any};
ghost use Rattle.aarp.specs.Mapping as mapping_spec;
ghost use Rattle.aarp.specs.Mapping.{to_ask};
ghost use Rattle.at_base.specs.declared.error.What.TheVariants.{Cable, Station};
ghost use Rattle.cable_model.specs.Books.{HasOneSeat};
ghost use Rattle.cable_model.specs.Logs as logs_spec;
ghost use Rattle.cable_model.specs.Logs.{bytes_at, pending_on};
ghost use Rattle.cable_model.specs.Outcomes.{AreSeatsOf, IsLeast, has_cable, is_named, is_seated};
ghost use Rattle.cable_model.specs.Transcript.{ArePutOnce};
ghost use Rattle.live_cables.specs.Finding.{held_at};
ghost use Rattle.live_cables.specs.Holding.{AreFew};
ghost use Rattle.live_cables.specs.Living.{GivesInPart, GivesOut, IsSentOver, IsTakenBy, PassesFor, PassesInPart};
ghost use Rattle.live_cables.specs.Living.{IsLossRefused, AddsAllowed, PlaysOn, TakesIn, TakesStill, happened};
ghost use Rattle.live_cables.specs.Putting.{first_room};
ghost use Rattle.live_cables.specs.Steps.{HasNoRoom, most_taken};
ghost use Rattle.station.specs.Lawful.{AreLawful, IsNext};

use crate::giving::give_all;
use crate::holding::shed_all;
use crate::losing::lose_from;
use crate::neighbours::Neighbours;
use crate::passing::ask_all;
use crate::taking::take;
use aarp::{Addresses, Mapper};
use at_base::{Addr, Bytes, Error};
use cable_model::{Cables, Entry, Rooms};
use station::{Next, Outputs, Station as Taker};
use std::alloc::Global;
use std::marker::Model;

/// Cables on which stations find each other by AARP, and where frames may be lost.
#[derive(Drop)]
pub struct LiveCables {
    pub(crate) cables: Cables,
    pub(crate) near: Neighbours,
    // Whether each cable loses the frames that are put on it in this tick.
    pub(crate) losing: Vec<bool>,
    // The greatest number of entries.
    pub(crate) limit: u32,
    pub(crate) alloc: Global,
}

impl Model for LiveCables {
    ghost use Rattle.std.specs.Prelude.{◌≡◌, length};
    ghost use Rattle.cable_model.specs.Rooms.{held_rooms};
    ghost use Rattle.live_cables.specs.Holding.{AreFew};
    ghost use Rattle.live_cables.specs.Living.{Wires};

    ghost Value = { Wires };

    ghost view = { λ c. record {
      cabling = c.cables;
      own = c.near.own;
      maps = c.near.maps;
      ranges = c.near.ranges;
      losing = c.losing.items;
    } };

    ghost invariant = { λ c. (c.near.seats ≡ c.cables.seats)
        × (length c.near.own ≡ length c.cables.seats)
        × (length c.near.maps ≡ length c.cables.seats)
        × (c.cables.rooms ≡ held_rooms)
        × AreFew c.near.maps
        × (c.limit ≡ c.cables.limit) };
}

/// A fact for the prover: no two frames have the same stamp. Does nothing.
fn recall_once(cables: &Cables)
    ensures { ArePutOnce (logs_spec.transcript cables.now) }
{
    let _len = cables.transcript().len();
}

impl LiveCables {
    /// The transcript, in order. Allocates nothing.
    pub fn transcript(&self) -> &[Entry]
        ensures value { result.now ≡ self.now.cabling.lines }
        ensures once { ArePutOnce (happened self.now) }
        ensures one_seat { HasOneSeat self.now.cabling.seats }
    {
        self.cables.transcript()
    }

    /// The bytes with a number that entries name; empty for any other number. Allocates nothing.
    pub fn bytes(&self, number: u32) -> &[u8]
        ensures { result.now ≡ bytes_at self.now.cabling.kept number }
    {
        self.cables.bytes(number)
    }

    /// The lowest pending stamp, and the lowest station for which it is pending. Allocates nothing.
    pub fn first(&self) -> Option<(u32, u16)>
        ensures some { IfSome result (λ pair.
            IsLeast (pending_on self.now.cabling) pair.0 pair.1) }
        ensures none { IfNone result (pending_on self.now.cabling ≡ []) }
    {
        self.cables.first()
    }

    /// The number of pending pairs of a frame and a station. Allocates nothing.
    pub fn pending_count(&self) -> usize
        ensures { result ≡ length (pending_on self.now.cabling) }
    {
        self.cables.pending_count()
    }

    /// The mappers of the seats, in the order of the seats. Allocates nothing.
    pub fn mappers(&self) -> &[Mapper]
        ensures value { result.now ≡ self.now.maps }
        ensures few { AreFew self.now.maps }
        ensures each { length self.now.maps ≡ length self.now.cabling.seats }
    {
        self.near.mappers()
    }

    /// Sets for each cable whether it loses the frames that are put on it from now on. Cables past
    /// the end of the list lose nothing.
    pub fn set_losing(&mut self, losing: Vec<bool>)
        ensures { self.new ≡ record self.old { losing = losing.items } }
    {
        self.losing = losing;
    }

    /// Sets the settled address of a seat, or that it has none. Does nothing if there is no such
    /// seat.
    pub fn set_own(&mut self, seat: usize, own: Option<Addr>)
        ensures { self.new ≡ record self.old { own = slice_set self.old.own seat own } }
    {
        self.near.set_own(seat, own);
    }

    /// Sends what a station made in a tick or at its user's request. A datagram to a station whose
    /// hardware address isn't known is held, and an AARP request is sent for the address. Outputs
    /// of other kinds are ignored.
    ///
    /// Errors, output by output and frame by frame: `Full`, `Memory`. After an error, the first
    /// outputs are sent and the rest is left in the queue, without the output that was refused; or
    /// all of them are sent, and not all frames that were to be lost are lost.
    pub fn give(&mut self, station: u16, outputs: &mut Outputs) -> Result<(), Error>
        requires lawful { (n : ℕ) × AreLawful n outputs.old.items }
        ensures plays { AddsAllowed self.old self.new }
        ensures given { OnOk result
            (GivesOut station outputs.old.items self.old self.new) }
        ensures part { IfErr result (λ e.
            GivesInPart e station outputs.old.items outputs.new.items self.old self.new) }
        ensures done { OnOk result (PlaysOn 0 self.old self.new) }
        ensures emptied { OnOk result (outputs.new.items ≡ []) }
        ensures full { (result ≡ Err Error.Full) → HasNoRoom 5 self.new.cabling }
        ensures no_room { 1 ≤ first_room self.old.cabling.seats station outputs.old.items
            → HasNoRoom (first_room self.old.cabling.seats station outputs.old.items)
            self.old.cabling → result ≡ Err Error.Full }
        ensures memory { result ≡ Err Error.Memory → HasNoRoom 1 self.new.cabling → ⊥ }
        ensures refused { IfErr result (λ e. (e ≡ Error.Full) ⊎ (e ≡ Error.Memory)) }
    {
        if outputs.is_empty() {
            return Ok(());
        }
        let from = self.cables.transcript().len();
        self.near.face(station);
        match give_all(&mut self.cables, &mut self.near, station, outputs) {
            Ok(()) => {}
            Err(error) => return Err(error),
        }
        lose_from(&mut self.cables, &self.losing, from)
    }

    /// A station sends a datagram that it made over one of its cables. It is held if the hardware
    /// address of its next station isn't known, and an AARP request is sent for the address. The
    /// caller must ensure that no cable loses frames.
    ///
    /// Errors, in this order: `NoSuch(Cable)` if the cable has no seat; `NoSuch(Station)` if the
    /// station has no seat on it; `TooLong` above 599 bytes; `Full` if there is room for fewer than
    /// 5 entries; `Memory`. After an error nothing has changed.
    pub fn send(&mut self, station: u16, cable: u8, next: Next, bytes: Bytes) -> Result<(), Error>
        requires next { IsNext next }
        requires none_lost { self.old.losing ≡ [] }
        ensures sent { OnOk result (IsSentOver station cable next bytes self.old self.new) }
        ensures no_cable { (result ≡ Err (Error.NoSuch Cable))
            ↔ (has_cable self.old.cabling.seats cable ≡ false) }
        ensures no_station { (result ≡ Err (Error.NoSuch Station))
            ↔ ((has_cable self.old.cabling.seats cable ≡ true)
            × (is_seated self.old.cabling.seats cable station ≡ false)) }
        ensures long { (result ≡ Err Error.TooLong)
            ↔ ((is_seated self.old.cabling.seats cable station ≡ true) × (599 < length bytes)) }
        ensures full { (result ≡ Err Error.Full)
            ↔ ((is_seated self.old.cabling.seats cable station ≡ true) × (length bytes ≤ 599)
            × HasNoRoom 5 self.old.cabling) }
        ensures refused { IfErr result (λ e. (e ≡ Error.NoSuch Cable) ⊎ (e ≡ Error.NoSuch Station)
            ⊎ (e ≡ Error.TooLong) ⊎ (e ≡ Error.Full) ⊎ (e ≡ Error.Memory)) }
        ensures kept { OnErr result (self.new ≡ self.old) }
    {
        self.near.face(station);
        self.cables
            .send(station, cable, next, bytes, &mut self.near)
    }

    /// Whether the limit leaves no room for so many further entries. Allocates nothing.
    fn has_no_room(&self, more: usize) -> bool
        requires { more ≤ most_taken }
        ensures { result ≡ nat_lt self.now.cabling.limit (length self.now.cabling.lines + more) }
    {
        (self.limit as usize) < self.cables.transcript().len() + more
    }

    /// Whether the frame with this stamp is pending for the station, and fewer entries are left
    /// than a take may need. Allocates nothing.
    fn is_full_for(&self, stamp: u32, station: u16) -> bool
        ensures { result ≡ (nat_lt self.now.cabling.limit (length self.now.cabling.lines + most_taken)
            && list_any (is_named stamp station) (pending_on self.now.cabling)) }
    {
        self.has_no_room(Rooms::HELD.take.lines) && self.cables.pending(stamp, station)
    }

    /// A station takes a frame that is pending for it, and its outputs go onto its cables. A
    /// datagram to a station whose hardware address isn't known is held, and an AARP request is
    /// sent for the address; an AARP response releases the datagrams that are held for its sender.
    /// The caller must ensure that the station's ports are those of its seats.
    ///
    /// Errors, in this order: `NotPending`; `Full` if there is room for fewer than 1,285 entries;
    /// `Memory`; nothing has changed then. If the frames that are to be lost can't be, `Full` or
    /// `Memory`: the take is done then, and not all of them are lost.
    pub fn take<S: Taker>(&mut self, stamp: u32, station: u16, taker: &mut S) -> Result<(), Error>
        requires { AreSeatsOf self.old.cabling.seats station (S.ports_of taker.old) }
        ensures plays { AddsAllowed self.old self.new }
        ensures taken { OnOk result (TakesIn stamp station (S.ports_of taker.old)
            (λ h added. S.hears taker.old h added taker.new) self.old self.new) }
        ensures done { OnOk result (PlaysOn 1 self.old self.new) }
        ensures heard { OnOk result (IsTakenBy self.old self.new stamp station
            (λ h added. S.hears taker.old h added taker.new)) }
        // Where the take is done, a loss needs room for one entry.
        ensures stopped { IfErr result (λ e. ((self.new ≡ self.old) × (taker.new ≡ taker.old))
            ⊎ (TakesIn stamp station (S.ports_of taker.old)
            (λ h added. S.hears taker.old h added taker.new) self.old self.new
            × IsLossRefused e self.old self.new)) }
        ensures still_taken { self.old.losing ≡ [] → OnOk result
            (TakesStill stamp station (S.ports_of taker.old)
            (λ h added. S.hears taker.old h added taker.new) self.old self.new) }
        ensures still_full { self.old.losing ≡ [] → (result ≡ Err Error.Full)
            ↔ ((list_any (is_named stamp station) (pending_on self.old.cabling) ≡ true)
            × HasNoRoom most_taken self.old.cabling) }
        ensures still_kept { self.old.losing ≡ []
            → OnErr result ((self.new ≡ self.old) × (taker.new ≡ taker.old)) }
        ensures ports_stay { S.ports_of taker.new ≡ S.ports_of taker.old }
        ensures not_pending { (result ≡ Err Error.NotPending) ↔ (list_any (is_named stamp station)
            (pending_on self.old.cabling) ≡ false) }
        ensures full { (result ≡ Err Error.Full) → HasNoRoom most_taken self.new.cabling }
        ensures no_room { list_any (is_named stamp station) (pending_on self.old.cabling) ≡ true
            → HasNoRoom most_taken self.old.cabling → result ≡ Err Error.Full }
        ensures memory { result ≡ Err Error.Memory → HasNoRoom 1 self.new.cabling → ⊥ }
        ensures refused { IfErr result (λ e. (e ≡ Error.NotPending) ⊎ (e ≡ Error.Full)
            ⊎ (e ≡ Error.Memory)) }
    {
        // Too little room is an error before too little memory to learn a response.
        if self.is_full_for(stamp, station) {
            return Err(Error::Full);
        }
        let from = self.cables.transcript().len();
        self.near.face(station);
        match take(&mut self.cables, &mut self.near, stamp, station, taker) {
            Ok(()) => {}
            Err(error) => return Err(error),
        }
        recall_once(&self.cables);
        lose_from(&mut self.cables, &self.losing, from)
    }

    /// Whether no datagram is held at a seat, so that a tick of its mappings changes nothing.
    /// Allocates nothing.
    pub fn is_idle(&self, seat: usize) -> bool
        ensures passes { IsTrue result → PassesFor seat self.now self.now }
        ensures done { IsTrue result → PlaysOn 0 self.now self.now }
        ensures given_up { IsTrue result → mapping_spec.given_up (held_at self.now.maps seat) ≡ [] }
        ensures value { result ≡ (length (held_at self.now.maps seat) == 0) }
    {
        self.near.is_idle(seat)
    }

    /// Advances the mappings of a seat by a tick: AARP requests without a response are sent again.
    /// Returns the addresses for which ten requests had no response; the datagrams that were held
    /// for them are given up.
    ///
    /// Errors, frame by frame: `Full`, `Memory`. After an error the mappings have advanced, and what
    /// was sent and lost before it stays so.
    pub fn pass(&mut self, seat: usize) -> Result<Addresses, Error>
        ensures plays { AddsAllowed self.old self.new }
        ensures passed { OnOk result (PassesFor seat self.old self.new) }
        ensures part { OnErr result (PassesInPart seat self.old self.new) }
        ensures done { OnOk result (PlaysOn 0 self.old self.new) }
        ensures given_up { IfOk result (λ addrs. addrs ≡ mapping_spec.given_up (held_at self.old.maps seat)) }
        ensures full { (result ≡ Err Error.Full) → HasNoRoom 1 self.new.cabling }
        ensures no_room { 1 ≤ length (to_ask (held_at self.old.maps seat))
            → HasNoRoom 1 self.old.cabling → result ≡ Err Error.Full }
        ensures memory { result ≡ Err Error.Memory → HasNoRoom 1 self.new.cabling → ⊥ }
        ensures refused { IfErr result (λ e. (e ≡ Error.Full) ⊎ (e ≡ Error.Memory)) }
    {
        let from = self.cables.transcript().len();
        let asks = self.near.tick(seat);
        match ask_all(
            self.alloc,
            &mut self.cables,
            &self.near,
            self.limit,
            seat,
            asks.ask.as_slice(),
        ) {
            Ok(()) => {}
            Err(error) => return Err(error),
        }
        match lose_from(&mut self.cables, &self.losing, from) {
            Ok(()) => {}
            Err(error) => return Err(error),
        }
        match shed_all(&mut self.cables, asks.shed.as_slice()) {
            Ok(()) => Ok(asks.given_up),
            Err(error) => Err(error),
        }
    }
}
