//! The cables of a run.

ghost use Rattle.std.specs.Prelude.{◌≡◌, ◌<◌, ◌≤◌, ◌+◌, ◌↔◌, ◌⊎◌, [], IfErr, IfOk, IfNone, IfSome, IsOkUnless, OnErr, OnOk};
ghost use Rattle.std.specs.Prelude.{false, length, true};
ghost use Rattle.std.specs.List.{list_any};
ghost use Rattle.audit.specs.Rules.{Passes};
ghost use Rattle.cable_model.specs.Logs.{bytes_at};
ghost use Rattle.cable_model.specs.Outcomes.{AreSeatsOf, IsLeast, has_cable, is_named, is_seated};
ghost use Rattle.cable_model.specs.Rooms.{known_rooms};
ghost use Rattle.legal_runs.specs.Legs.{places_of};
ghost use Rattle.legal_runs.specs.Stations.{cable_seats};
ghost use Rattle.run_cables.specs.Wired.{AreFresh, AreStill, IsSentOn, IsTakenOn};
ghost use Rattle.run_cables.specs.Wired.{cabling_of, pending_for, send_room, take_room};
ghost use Rattle.station.specs.Lawful.{IsNext};

use at_base::{Bytes, Error};
use cable_model::{Cables, Entry, Rooms};
use image_cables::cables_of;
use image_stations::{Whereabouts, seats_of};
use live_cables::LiveCables;
use station::{Next, Station as Taker};
use std::alloc::Global;
use table_image::{Image, Version};

/// The cables of a run over the tables of an image.
#[derive(Drop)]
pub enum Wiring {
    /// Those of an image of version 1: every hardware address is known.
    Known(Cables),
    /// Those of an image of version 2: stations ask for the hardware addresses that they don't know.
    Asking(LiveCables),
}

/// Cables with the seats of an image, where every hardware address is known. Error: `Memory`.
fn known(alloc: Global, image: &Image, limit: u32) -> Result<Cables, Error>
    requires { Passes image.now }
    ensures ok { IfOk result (λ cables. cables ≡ record {
      seats = cable_seats image.now;
      limit = limit;
      rooms = known_rooms;
      lines = [];
      kept = [];
      spare = 0;
    }) }
    ensures refused { IsOkUnless result Error.Memory }
{
    let seats = seats_of(alloc, image)?;
    Cables::new(alloc, seats.as_slice(), limit, Rooms::KNOWN)
}

impl Wiring {
    /// The cables of an image that passes the audit, with an empty transcript and room for at most
    /// `limit` entries. Error: `Memory`.
    pub fn of(alloc: Global, image: &Image, limit: u32) -> Result<Wiring, Error>
        requires { Passes image.now }
        ensures fresh { IfOk result (AreFresh image.now limit) }
        ensures still { IfOk result AreStill }
        ensures refused { IsOkUnless result Error.Memory }
    {
        match image.version() {
            Version::V1 => Ok(Wiring::Known(known(alloc, image, limit)?)),
            Version::V2 => Ok(Wiring::Asking(cables_of(alloc, image, limit)?)),
        }
    }

    /// The transcript, in order. Allocates nothing.
    pub fn transcript(&self) -> &[Entry]
        ensures { result.now ≡ (cabling_of self.now).lines }
    {
        match self {
            Wiring::Known(cables) => cables.transcript(),
            Wiring::Asking(live) => live.transcript(),
        }
    }

    /// The bytes with a number that entries name; empty for any other number. Allocates nothing.
    pub fn bytes(&self, number: u32) -> &[u8]
        ensures { result.now ≡ bytes_at (cabling_of self.now).kept number }
    {
        match self {
            Wiring::Known(cables) => cables.bytes(number),
            Wiring::Asking(live) => live.bytes(number),
        }
    }

    /// The number of entries for which a sending needs room.
    pub fn send_room(&self) -> usize
        ensures { result ≡ send_room self.now }
    {
        match self {
            Wiring::Known(_) => Rooms::KNOWN.send.lines,
            Wiring::Asking(_) => Rooms::HELD.send.lines,
        }
    }

    /// The lowest pending stamp, and the lowest station for which it is pending. Allocates nothing.
    pub fn first(&self) -> Option<(u32, u16)>
        ensures some { IfSome result (λ pair. IsLeast (pending_for self.now) pair.0 pair.1) }
        ensures none { IfNone result (pending_for self.now ≡ []) }
    {
        match self {
            Wiring::Known(cables) => cables.first(),
            Wiring::Asking(live) => live.first(),
        }
    }

    /// The number of pending pairs of a frame and a station. Allocates nothing.
    pub fn pending_count(&self) -> usize
        ensures { result ≡ length (pending_for self.now) }
    {
        match self {
            Wiring::Known(cables) => cables.pending_count(),
            Wiring::Asking(live) => live.pending_count(),
        }
    }

    /// A station sends a datagram that it made over one of its cables.
    ///
    /// Errors: `Full` if there is room for fewer entries than a sending needs: 3 where every
    /// hardware address is known, and 5 where stations ask; `Memory`. After an error nothing has
    /// changed.
    pub fn send(
        &mut self,
        places: &Whereabouts,
        station: u16,
        cable: u8,
        next: Next,
        bytes: Bytes,
    ) -> Result<(), Error>
        requires still { AreStill self.old }
        requires next { IsNext next }
        requires cable { has_cable (cabling_of self.old).seats cable ≡ true }
        requires seated { is_seated (cabling_of self.old).seats cable station ≡ true }
        requires short { length bytes ≤ 599 }
        ensures sent { OnOk result
            (IsSentOn (places_of places.now) station cable next bytes self.old self.new) }
        ensures still { AreStill self.new }
        ensures limit { (cabling_of self.new).limit ≡ (cabling_of self.old).limit }
        ensures full { (result ≡ Err Error.Full) ↔ ((cabling_of self.old).limit
            < length (cabling_of self.old).lines + send_room self.old) }
        ensures refused { IfErr result (λ e. (e ≡ Error.Full) ⊎ (e ≡ Error.Memory)) }
        ensures kept { OnErr result (self.new ≡ self.old) }
    {
        match self {
            Wiring::Known(cables) => {
                let mut resolver = places;
                cables.send(station, cable, next, bytes, &mut resolver)
            }
            Wiring::Asking(live) => live.send(station, cable, next, bytes),
        }
    }

    /// A station takes a frame that is pending for it, and its outputs go onto its cables. The
    /// caller must ensure that the station's ports are those of its seats.
    ///
    /// Errors, in this order: `NotPending`; `Full` if there is room for fewer entries than a take
    /// may need: 771 where every hardware address is known, and 1,285 where stations ask; `Memory`.
    /// After an error nothing has changed.
    pub fn take<S: Taker>(
        &mut self,
        places: &Whereabouts,
        stamp: u32,
        station: u16,
        taker: &mut S,
    ) -> Result<(), Error>
        requires still { AreStill self.old }
        requires seats { AreSeatsOf (cabling_of self.old).seats station (S.ports_of taker.old) }
        ensures taken { OnOk result (IsTakenOn (places_of places.now) stamp station
            (S.ports_of taker.old) (λ h added. S.hears taker.old h added taker.new)
            self.old self.new) }
        ensures still { AreStill self.new }
        ensures limit { (cabling_of self.new).limit ≡ (cabling_of self.old).limit }
        ensures ports_stay { S.ports_of taker.new ≡ S.ports_of taker.old }
        ensures not_pending { (result ≡ Err Error.NotPending)
            ↔ (list_any (is_named stamp station) (pending_for self.old) ≡ false) }
        ensures full { (result ≡ Err Error.Full)
            ↔ ((list_any (is_named stamp station) (pending_for self.old) ≡ true)
            × ((cabling_of self.old).limit
            < length (cabling_of self.old).lines + take_room self.old)) }
        ensures refused { IfErr result (λ e. (e ≡ Error.NotPending) ⊎ (e ≡ Error.Full)
            ⊎ (e ≡ Error.Memory)) }
        ensures kept { OnErr result (self.new ≡ self.old) }
        ensures taker_stays { OnErr result (taker.new ≡ taker.old) }
    {
        match self {
            Wiring::Known(cables) => {
                let mut resolver = places;
                cables.take(stamp, station, taker, &mut resolver)
            }
            Wiring::Asking(live) => live.take(stamp, station, taker),
        }
    }
}
