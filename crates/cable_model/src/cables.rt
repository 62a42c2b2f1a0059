//! Cables, their frames and their transcript.

ghost use Rattle.std.specs.Prelude.{◌≡◌, ◌⊎◌, ◌↔◌, ◌<◌, ◌≤◌, ◌+◌, [], ◌∷◌, ◌++◌};
ghost use Rattle.std.specs.Prelude.{true, false, length};
ghost use Rattle.std.specs.Prelude.{IfErr, IfNone, IfOk, IfSome, IsOkUnless, IsTrue, OnErr, OnOk};
ghost use Rattle.std.specs.List.{list_all, list_any};
ghost use Rattle.at_base.specs.declared.error.What.TheVariants.{Cable, Station};
ghost use Rattle.cable_model.specs.Books.{HasOneSeat};
ghost use Rattle.cable_model.specs.Logs as logs_spec;
ghost use Rattle.cable_model.specs.Logs.{Adds, bytes_at, pending_on};
ghost use Rattle.cable_model.specs.Outcomes.{AreSeatsOf, IsFrame, IsHeard, IsLeast, Places, framed, has_cable, has_stamp};
ghost use Rattle.cable_model.specs.Outcomes.{is_named, is_seated};
ghost use Rattle.cable_model.specs.Outgoing.{IsAnswering, IsSent, IsTaken};
ghost use Rattle.cable_model.specs.Rooms.{AreRooms, held_rooms, known_rooms};
ghost use Rattle.cable_model.specs.Transcript.{AreNumbered, ArePutOnce, Lost, is_plain, next_stamp};
ghost use Rattle.station.specs.Hearing.{hearing};
ghost use Rattle.station.specs.Lawful.{IsNext};

use crate::entry::Entry;
use crate::log::{self, Log};
use crate::outlet::Outlet;
use crate::resolve::Resolve;
use crate::room::{Room, Rooms, make_ready, make_room};
use crate::seat::Seat;
use crate::seats::Seats;
use crate::taking::PendingFrame;
use crate::{earliest, ending, holding, outcome, putting, seating, taking};
use at_base::{Bytes, Error, Hw};
use station::{Heard, Kind, Next, Outputs, Station as Taker};
use std::alloc::Global;
use std::marker::Model;

/// The greatest length of a frame, in bytes. Inside AppleTalk, the chapter on DDP.
pub const MAX_FRAME: usize = 599;

/// Cables, the seats on them, and the transcript of what happened there.
#[derive(Drop)]
pub struct Cables {
    pub(crate) seats: Seats,
    pub(crate) limit: u32,
    rooms: Rooms,
    pub(crate) log: Log,
    // The further entries for which there is room, each with a frame.
    pub(crate) spare: usize,
    // The outputs of the station that takes a frame. The queue is empty between takes, and keeps
    // the room that was made for the first take.
    outputs: Outputs,
}

impl Model for Cables {
    ghost use Rattle.cable_model.specs.Books.{IsKept, IsSpare};
    ghost use Rattle.cable_model.specs.Logs.{Cabling};
    ghost use Rattle.cable_model.specs.Rooms.{AreRooms};

    ghost Value = { Cabling };

    ghost view = { λ c. record {
      seats = c.seats;
      limit = c.limit;
      rooms = c.rooms;
      lines = c.log.lines.items;
      kept = c.log.kept.items;
      spare = c.spare;
    } };

    ghost invariant = { λ c. IsKept c.seats c.limit c.log
        × AreRooms c.rooms
        × IsSpare c.seats c.limit c.log c.spare };
}

impl Cables {
    /// Cables with these seats and an empty transcript, which may get at most `limit` entries, and
    /// where calls need this room. The caller ensures that a station has at most one seat on a
    /// cable, and that the rooms are `Rooms::KNOWN` or `Rooms::HELD`. Error: `Memory`.
    pub fn new(alloc: Global, seats: &[Seat], limit: u32, rooms: Rooms) -> Result<Cables, Error>
        requires one_seat { HasOneSeat seats.now }
        requires rooms { AreRooms rooms }
        ensures ok { IfOk result (λ cables. cables ≡ record {
          seats = seats.now;
          limit = limit;
          rooms = rooms;
          lines = [];
          kept = [];
          spare = 0;
        }) }
        ensures refused { IsOkUnless result Error.Memory }
    {
        let seats = Seats::of(alloc, seats)?;
        Ok(Cables {
            seats,
            limit,
            rooms,
            log: log::empty(alloc),
            spare: 0,
            outputs: Outputs::new(alloc)?,
        })
    }

    /// The transcript: the entries, in order. Allocates nothing.
    pub fn transcript(&self) -> &[Entry]
        ensures value { result.now ≡ self.now.lines }
        ensures once { ArePutOnce (logs_spec.transcript self.now) }
        ensures numbered { IsTrue (list_all is_plain (logs_spec.transcript self.now))
            → AreNumbered 0 (logs_spec.transcript self.now) }
        ensures one_seat { HasOneSeat self.now.seats }
    {
        self.log.lines.as_slice()
    }

    /// The bytes with the number that entries name, or no bytes for any other number. Allocates
    /// nothing.
    pub fn bytes(&self, number: u32) -> &[u8]
        ensures { result.now ≡ bytes_at self.now.kept number }
    {
        self.log.kept.get(number)
    }

    /// Whether the frame with this stamp is pending for the station. Allocates nothing.
    pub fn pending(&self, stamp: u32, station: u16) -> bool
        ensures { result ≡ list_any (is_named stamp station)
            (pending_on self.now) }
    {
        ending::find_pair(&self.log, stamp, station).is_some()
    }

    /// The frame with this stamp as the station receives it, if it is pending for the station.
    /// Allocates nothing.
    pub fn heard(&self, stamp: u32, station: u16) -> Option<Heard<'_>>
        ensures some { IfSome result (λ h. IsHeard (pending_on self.now)
            stamp station (hearing h)) }
        ensures none { IfNone result (list_any (is_named stamp station)
            (pending_on self.now) ≡ false) }
    {
        match ending::find_pair(&self.log, stamp, station) {
            Some(due) => Some(taking::heard_of(&self.log, self.seats.as_slice(), due)),
            None => None,
        }
    }

    /// The frame with this stamp, if it is pending for any station. Allocates nothing.
    pub fn frame(&self, stamp: u32) -> Option<PendingFrame<'_>>
        ensures some { IfSome result (λ f. IsFrame (pending_on self.now)
            stamp f.cable f.kind f.bytes.now) }
        ensures none { IfNone result (list_any (has_stamp stamp)
            (pending_on self.now) ≡ false) }
    {
        match ending::find_frame(&self.log, stamp) {
            Some(due) => Some(taking::frame_of(&self.log, due)),
            None => None,
        }
    }

    /// The least stamp of a pending frame, and the least station that this frame is pending for.
    /// Allocates nothing.
    pub fn first(&self) -> Option<(u32, u16)>
        ensures some { IfSome result (λ pair.
            IsLeast (pending_on self.now) pair.0 pair.1) }
        ensures none { IfNone result (pending_on self.now ≡ []) }
    {
        earliest::first_pair(&self.log)
    }

    /// The number of pending pairs of a frame and a station. Allocates nothing.
    pub fn pending_count(&self) -> usize
        ensures { result ≡ length (pending_on self.now) }
    {
        self.log.due.len()
    }

    /// Puts a frame of a station on a cable, and returns its stamp. Stamps count frames
    /// and held datagrams from 0.
    ///
    /// Errors, in this order: `NoSuch(Cable)` where the cable has no seat; `NoSuch(Station)` where
    /// this station has no seat on it; `TooLong` above 599 bytes; `Full` where the transcript is at
    /// its limit; `Memory`. A refusal changes nothing.
    pub fn put(
        &mut self,
        cable: u8,
        station: u16,
        to: Hw,
        kind: Kind,
        bytes: Bytes,
    ) -> Result<u32, Error>
        ensures ok { IfOk result (λ stamp. (stamp ≡ next_stamp (logs_spec.transcript self.old))
            × Adds self.old self.new
            (framed (record { stamp = stamp; cable = cable; station = station }) to kind bytes ∷ [])) }
        ensures stored { OnOk result (self.new.kept ≡ self.old.kept ++ bytes ∷ []) }
        ensures spent { OnOk result (self.new.spare ≡ 0) }
        ensures no_cable { (result ≡ Err (Error.NoSuch Cable))
            ↔ (has_cable self.old.seats cable ≡ false) }
        ensures no_station { (result ≡ Err (Error.NoSuch Station))
            ↔ ((has_cable self.old.seats cable ≡ true)
            × (is_seated self.old.seats cable station ≡ false)) }
        ensures long { (result ≡ Err Error.TooLong)
            ↔ ((is_seated self.old.seats cable station ≡ true) × (599 < length bytes)) }
        ensures full { (result ≡ Err Error.Full)
            ↔ ((is_seated self.old.seats cable station ≡ true) × (length bytes ≤ 599)
            × (self.old.limit < length self.old.lines + 1)) }
        ensures refused { IfErr result (λ e. (e ≡ Error.NoSuch Cable) ⊎ (e ≡ Error.NoSuch Station)
            ⊎ (e ≡ Error.TooLong) ⊎ (e ≡ Error.Full) ⊎ (e ≡ Error.Memory)) }
        ensures kept { OnErr result (self.new ≡ self.old) }
    {
        match seating::check(&self.seats, cable, station) {
            Ok(()) => {}
            Err(stop) => return Err(stop),
        }
        if bytes.len() > MAX_FRAME {
            return Err(Error::TooLong);
        }
        match make_room(&mut self.log, self.limit, Room::PUT, self.seats.widest()) {
            Ok(()) => {}
            Err(stop) => return Err(stop),
        }
        self.spare = 0;
        let stamp = self.log.next_stamp;
        let number = log::keep(&mut self.log, bytes);
        putting::put(&mut self.log, &self.seats, cable, station, to, kind, number);
        Ok(stamp)
    }

    /// Sends a datagram of a station on a cable. The datagram is held if the hardware address of its
    /// next station isn't known yet. The caller ensures that a group is below 253, that the resolver
    /// answers every lookup where the rooms are `Rooms::KNOWN`, and is responsible for the bytes
    /// being a datagram.
    ///
    /// Errors, in this order: `NoSuch(Cable)`, `NoSuch(Station)`, `TooLong` above 599 bytes, `Full`
    /// where fewer entries are left than a send needs, `Memory`. A refusal changes nothing.
    pub fn send<R: Resolve>(
        &mut self,
        station: u16,
        cable: u8,
        next: Next,
        bytes: Bytes,
        resolver: &mut R,
    ) -> Result<(), Error>
        requires next { IsNext next }
        requires known { let places : Places = record { finds = R.finds resolver.old; lists = R.lists resolver.old } in
            self.old.rooms ≡ known_rooms → IsAnswering places }
        ensures ok { OnOk result (IsSent (λ r. record { finds = R.finds r; lists = R.lists r }) R.holds
            self.old self.new cable station next bytes resolver.old resolver.new) }
        ensures spent { OnOk result (self.new.spare ≡ 0) }
        ensures no_cable { (result ≡ Err (Error.NoSuch Cable))
            ↔ (has_cable self.old.seats cable ≡ false) }
        ensures no_station { (result ≡ Err (Error.NoSuch Station))
            ↔ ((has_cable self.old.seats cable ≡ true)
            × (is_seated self.old.seats cable station ≡ false)) }
        ensures long { (result ≡ Err Error.TooLong)
            ↔ ((is_seated self.old.seats cable station ≡ true) × (599 < length bytes)) }
        ensures full { (result ≡ Err Error.Full)
            ↔ ((is_seated self.old.seats cable station ≡ true) × (length bytes ≤ 599)
            × (self.old.limit < length self.old.lines + self.old.rooms.send.lines)) }
        ensures most { (result ≡ Err Error.Full)
            → self.old.limit < length self.old.lines + held_rooms.send.lines }
        ensures refused { IfErr result (λ e. (e ≡ Error.NoSuch Cable) ⊎ (e ≡ Error.NoSuch Station)
            ⊎ (e ≡ Error.TooLong) ⊎ (e ≡ Error.Full) ⊎ (e ≡ Error.Memory)) }
        ensures kept { OnErr result (self.new ≡ self.old) }
        ensures resolver_stays { OnErr result (resolver.new ≡ resolver.old) }
    {
        match seating::check(&self.seats, cable, station) {
            Ok(()) => {}
            Err(stop) => return Err(stop),
        }
        if bytes.len() > MAX_FRAME {
            return Err(Error::TooLong);
        }
        match make_room(
            &mut self.log,
            self.limit,
            self.rooms.send,
            self.seats.widest(),
        ) {
            Ok(()) => {}
            Err(stop) => return Err(stop),
        }
        self.spare = 0;
        let exit = Outlet { cable, station };
        outcome::sent(&mut self.log, &self.seats, resolver, exit, next, bytes);
        holding::settle(&mut self.log, &self.seats, resolver, station);
        Ok(())
    }

    /// Lets a station take a frame that is pending for it, and puts the station's outputs on its
    /// cables; those whose next station's hardware address isn't known are held. After a take
    /// without outputs there is room for 257 further entries. The caller ensures that the station's
    /// ports are those of its seats, and that the resolver answers every lookup where the rooms are
    /// `Rooms::KNOWN`.
    ///
    /// Errors, in this order: `NotPending`; `Full` where fewer entries are left than a take
    /// needs; `Memory`.
    /// A refusal changes neither the cables nor the station nor the resolver, and the frame is
    /// still pending.
    pub fn take<S: Taker, R: Resolve>(
        &mut self,
        stamp: u32,
        station: u16,
        taker: &mut S,
        resolver: &mut R,
    ) -> Result<(), Error>
        requires seats { AreSeatsOf self.old.seats station (S.ports_of taker.old) }
        requires known { let places : Places = record { finds = R.finds resolver.old; lists = R.lists resolver.old } in
            self.old.rooms ≡ known_rooms → IsAnswering places }
        ensures ok { OnOk result (IsTaken (λ r. record { finds = R.finds r; lists = R.lists r }) R.holds (S.ports_of taker.old)
            self.old self.new stamp station (λ h added. S.hears taker.old h added taker.new) resolver.old resolver.new) }
        ensures ports_stay { S.ports_of taker.new ≡ S.ports_of taker.old }
        ensures not_pending { (result ≡ Err Error.NotPending)
            ↔ (list_any (is_named stamp station) (pending_on self.old) ≡ false) }
        ensures full { (result ≡ Err Error.Full)
            ↔ ((list_any (is_named stamp station) (pending_on self.old) ≡ true)
            × (self.old.limit < length self.old.lines + self.old.rooms.take.lines)) }
        ensures most { (result ≡ Err Error.Full)
            → self.old.limit < length self.old.lines + held_rooms.take.lines }
        ensures refused { IfErr result (λ e. (e ≡ Error.NotPending) ⊎ (e ≡ Error.Full)
            ⊎ (e ≡ Error.Memory)) }
        ensures kept { OnErr result (self.new ≡ self.old) }
        ensures taker_stays { OnErr result (taker.new ≡ taker.old) }
        ensures resolver_stays { OnErr result (resolver.new ≡ resolver.old) }
    {
        let Some(due) = ending::find_pair(&self.log, stamp, station) else {
            return Err(Error::NotPending);
        };
        match make_room(
            &mut self.log,
            self.limit,
            self.rooms.take,
            self.seats.widest(),
        ) {
            Ok(()) => {}
            Err(stop) => return Err(stop),
        }
        match make_ready(&mut self.outputs) {
            Ok(()) => {}
            Err(stop) => return Err(stop),
        }
        let heard = taking::heard_of(&self.log, self.seats.as_slice(), due);
        match taker.receive(&heard, &mut self.outputs) {
            Ok(()) => {}
            Err(stop) => return Err(stop),
        }
        self.spare = if self.outputs.is_empty() {
            self.rooms.take.pairs
        } else {
            0
        };
        ending::took(&mut self.log, stamp, station);
        outcome::add_all(
            &mut self.log,
            &self.seats,
            resolver,
            station,
            &mut self.outputs,
        );
        Ok(())
    }

    /// Loses a frame for all stations that haven't taken it.
    ///
    /// Errors, in this order: `NotPending` where the frame is pending for no station; `Full`;
    /// `Memory`. A refusal changes nothing.
    pub fn lose(&mut self, stamp: u32) -> Result<(), Error>
        ensures ok { OnOk result (Adds self.old self.new (Lost stamp ∷ [])) }
        ensures stored { OnOk result (self.new.kept ≡ self.old.kept) }
        ensures spent { OnOk result (self.new.spare ≡ 0) }
        ensures not_pending { (result ≡ Err Error.NotPending)
            ↔ (list_any (has_stamp stamp) (pending_on self.old) ≡ false) }
        ensures full { (result ≡ Err Error.Full)
            ↔ ((list_any (has_stamp stamp) (pending_on self.old) ≡ true)
            × (self.old.limit < length self.old.lines + 1)) }
        ensures refused { IfErr result (λ e. (e ≡ Error.NotPending) ⊎ (e ≡ Error.Full)
            ⊎ (e ≡ Error.Memory)) }
        ensures kept { OnErr result (self.new ≡ self.old) }
    {
        if ending::find_frame(&self.log, stamp).is_none() {
            return Err(Error::NotPending);
        }
        match make_room(&mut self.log, self.limit, Room::LOSS, self.seats.widest()) {
            Ok(()) => {}
            Err(stop) => return Err(stop),
        }
        self.spare = 0;
        ending::lost(&mut self.log, stamp);
        Ok(())
    }
}
