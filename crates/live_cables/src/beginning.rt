//! Live cables before anything happened on them.

ghost use Rattle.std.specs.Prelude.{◌≡◌, ◌++◌, [], IfOk, IsOkUnless, None, OnOk, length, map};
ghost use Rattle.cable_model.specs.Books.{HasOneSeat};
ghost use Rattle.cable_model.specs.Rooms.{held_rooms};
ghost use Rattle.live_cables.specs.Holding.{AreFew};

use crate::live::LiveCables;
use crate::neighbours::Neighbours;
use aarp::Mapper;
use at_base::{Addr, Error, Range};
use cable_model::{Cables, Rooms, Seat, Seats};
use std::alloc::Global;

/// Adds empty mappings for each of these seats. Error: `Memory`.
fn add_mappers(alloc: Global, mappers: &mut Vec<Mapper>, seats: &[Seat]) -> Result<(), Error>
    ensures ok { OnOk result (mappers.new.items
        ≡ mappers.old.items ++ map (λ s. record { known = []; held = [] }) seats.now) }
    ensures refused { IsOkUnless result Error.Memory }
{
    match seats {
        [] => Ok(()),
        [_, rest @ ..] => {
            mappers.push(Mapper::new(alloc)?)?;
            add_mappers(alloc, mappers, rest)
        }
    }
}

/// Adds an unsettled address for each of these seats. Error: `Memory`.
fn add_unsettled(own: &mut Vec<Option<Addr>>, seats: &[Seat]) -> Result<(), Error>
    ensures ok { OnOk result (own.new.items ≡ own.old.items ++ map (λ s. None) seats.now) }
    ensures refused { IsOkUnless result Error.Memory }
{
    match seats {
        [] => Ok(()),
        [_, rest @ ..] => {
            own.push(None)?;
            add_unsettled(own, rest)
        }
    }
}

impl Neighbours {
    /// Nothing is settled or known. Error: `Memory`.
    pub fn new(alloc: Global, seats: &[Seat], ranges: &[Range]) -> Result<Neighbours, Error>
        ensures ok { IfOk result (λ n. n ≡ record {
          station = 0;
          seats = seats.now;
          own = map (λ s. None) seats.now;
          maps = map (λ s. record { known = []; held = [] }) seats.now;
          ranges = ranges.now;
        }) }
        ensures refused { IsOkUnless result Error.Memory }
    {
        let mut own = Vec::new(alloc);
        add_unsettled(&mut own, seats)?;
        let mut mappers = Vec::new(alloc);
        add_mappers(alloc, &mut mappers, seats)?;
        Ok(Neighbours {
            station: 0,
            seats: Seats::of(alloc, seats)?,
            own,
            mappers,
            ranges: Vec::from_slice(alloc, ranges)?,
            alloc,
        })
    }

    /// Each seat has its settled address, if it has one, and its mapper. Error: `Memory`.
    pub fn settled(
        alloc: Global,
        seats: &[Seat],
        own: Vec<Option<Addr>>,
        mappers: Vec<Mapper>,
        ranges: &[Range],
    ) -> Result<Neighbours, Error>
        ensures ok { IfOk result (λ n. n ≡ record {
          station = 0;
          seats = seats.now;
          own = own.items;
          maps = mappers.items;
          ranges = ranges.now;
        }) }
        ensures refused { IsOkUnless result Error.Memory }
    {
        Ok(Neighbours {
            station: 0,
            seats: Seats::of(alloc, seats)?,
            own,
            mappers,
            ranges: Vec::from_slice(alloc, ranges)?,
            alloc,
        })
    }
}

impl LiveCables {
    /// Cables with these seats and ranges, with an empty transcript and room for at most `limit`
    /// entries. No address is settled or known, and no cable loses frames. The caller must ensure
    /// that a station has at most one seat on a cable. Error: `Memory`.
    pub fn new(
        alloc: Global,
        seats: &[Seat],
        ranges: &[Range],
        limit: u32,
    ) -> Result<LiveCables, Error>
        requires { HasOneSeat seats.now }
        ensures ok { IfOk result (λ live. live ≡ record {
          cabling = record {
            seats = seats.now;
            limit = limit;
            rooms = held_rooms;
            lines = [];
            kept = [];
            spare = 0;
          };
          own = map (λ s. None) seats.now;
          maps = map (λ s. record { known = []; held = [] }) seats.now;
          ranges = ranges.now;
          losing = [];
        }) }
        ensures refused { IsOkUnless result Error.Memory }
    {
        let cables = Cables::new(alloc, seats, limit, Rooms::HELD)?;
        Ok(LiveCables {
            cables,
            near: Neighbours::new(alloc, seats, ranges)?,
            losing: Vec::new(alloc),
            limit,
            alloc,
        })
    }

    /// Cables with these seats and ranges, with an empty transcript and room for at most `limit`
    /// entries, where each seat has its settled address, if it has one, and its mapper. No cable
    /// loses frames. The caller must ensure that a station has at most one seat on a cable, and that
    /// there are as many addresses and mappers as seats. Error: `Memory`.
    pub fn settled(
        alloc: Global,
        seats: &[Seat],
        own: Vec<Option<Addr>>,
        mappers: Vec<Mapper>,
        ranges: &[Range],
        limit: u32,
    ) -> Result<LiveCables, Error>
        requires one_seat { HasOneSeat seats.now }
        requires own { length own.items ≡ length seats.now }
        requires maps { length mappers.items ≡ length seats.now }
        requires few { AreFew mappers.items }
        ensures ok { IfOk result (λ live. live ≡ record {
          cabling = record {
            seats = seats.now;
            limit = limit;
            rooms = held_rooms;
            lines = [];
            kept = [];
            spare = 0;
          };
          own = own.items;
          maps = mappers.items;
          ranges = ranges.now;
          losing = [];
        }) }
        ensures refused { IsOkUnless result Error.Memory }
    {
        let cables = Cables::new(alloc, seats, limit, Rooms::HELD)?;
        Ok(LiveCables {
            cables,
            near: Neighbours::settled(alloc, seats, own, mappers, ranges)?,
            losing: Vec::new(alloc),
            limit,
            alloc,
        })
    }
}
