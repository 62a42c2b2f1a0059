//! The seats on cables, with an index by cable and by station.

ghost use Rattle.std.specs.Prelude.{◌≡◌, ◌<◌, ◌≤◌, ◌+◌, ◌^◌, ◌&&◌, ◌==◌, ℕ, length, slice_get};
ghost use Rattle.std.specs.Prelude.{find, position, IfOk, IsOkUnless};
ghost use Rattle.std.specs.List.{list_any};
ghost use Rattle.cable_model.specs.Places as spec;
ghost use Rattle.cable_model.specs.Places.{AreLists, has_key, has_some, indices, passes};
ghost use Rattle.cable_model.specs.declared.seats.Key.TheVariants.{Cable, Station};

use crate::seat::Seat;
use at_base::Error;
use std::alloc::Global;
use std::marker::Model;

/// A property by which seats are looked up.
#[derive(Clone, Copy, Debug)]
pub enum Key {
    /// Its cable.
    Cable(u8),
    /// Its station.
    Station(u16),
    /// The port of its station.
    Port(u8),
}

/// The indices of some seats, in rising order.
#[derive(Drop)]
pub struct Indices {
    items: Vec<usize>,
}

impl Model for Indices {
    ghost use Rattle.std.specs.Prelude.{List, ℕ};

    ghost Value = { List ℕ };

    ghost view = { λ i. i.items.items };
}

impl Indices {
    /// The indices, in rising order.
    pub fn as_slice(&self) -> &[usize]
        ensures { result.now ≡ self.now }
    {
        self.items.as_slice()
    }
}

/// The seats on cables, in order. The indices of each cable's and each station's seats are stored
/// too: a frame is offered only to the seats of its own cable, and a station's seat is looked for
/// only among its own.
#[derive(Drop)]
pub struct Seats {
    items: Vec<Seat>,
    // The indices of each cable's seats, for cables from 0 on.
    on: Vec<Indices>,
    // The indices of each station's seats, for stations from 0 up to that of the last seat.
    of: Vec<Indices>,
    // The most seats that a cable has.
    widest: usize,
}

impl Model for Seats {
    ghost use Rattle.std.specs.Prelude.{List};
    ghost use Rattle.cable_model.specs.declared.seat.Seat.{Seat};
    ghost use Rattle.cable_model.specs.Places.{AreIndexed};

    ghost Value = { List Seat };

    ghost view = { λ s. s.items.items };

    ghost invariant = { λ s. AreIndexed s.items.items s.on.items s.of.items s.widest };
}

/// Whether the seat has the key.
fn has(seat: &Seat, key: Key) -> bool
    ensures { result ≡ has_key key seat.now }
{
    match key {
        Key::Cable(cable) => seat.cable == cable,
        Key::Station(station) => seat.station == station,
        Key::Port(port) => seat.port == port,
    }
}

/// The indices of the seats that have the key. Error: `Memory`.
fn indices_by(alloc: Global, seats: &[Seat], key: Key) -> Result<Indices, Error>
    requires { length seats.now < 2 ^ 63 }
    ensures ok { IfOk result (λ list. list ≡ indices (has_key key) 0 seats.now) }
    ensures refused { IsOkUnless result Error.Memory }
{
    let mut items = Vec::new(alloc);
    for index in 0..seats.len() {
        if has(&seats[index], key) {
            items.push(index)?;
        }
    }
    Ok(Indices { items })
}

/// The number of cables that a byte can name.
const CABLES: usize = 256;

/// The indices of the seats on each cable, by the cable's number. Error: `Memory`.
fn indices_by_cable(alloc: Global, seats: &[Seat]) -> Result<Vec<Indices>, Error>
    requires { length seats.now < 2 ^ 63 }
    ensures ok { IfOk result (λ on. AreLists Cable seats.now on.items × (256 ≤ length on.items)) }
    ensures refused { IsOkUnless result Error.Memory }
{
    let mut on = Vec::new(alloc);
    for cable in 0..CABLES {
        on.push(indices_by(alloc, seats, Key::Cable(cable as u8))?)?;
    }
    Ok(on)
}

/// The most seats that one of the first `cables` cables has, by the lists of their indices.
fn most_on(seats: &[Seat], on: &[Indices], cables: usize) -> usize
    requires lists { AreLists Cable seats.now on.now }
    requires inside { cables ≤ length on.now }
    ensures { result ≡ spec.most_on cables seats.now }
{
    if cables == 0 {
        return 0;
    }
    let here = on[cables - 1].as_slice().len();
    here.max(most_on(seats, on, cables - 1))
}

/// The most seats that a cable has, by the lists of their indices.
#[tactic(auto, unfolding(crate::specs::Places::widest))]
fn widest_of(seats: &[Seat], on: &[Indices]) -> usize
    requires lists { AreLists Cable seats.now on.now }
    requires all { 256 ≤ length on.now }
    ensures { result ≡ spec.widest seats.now }
{
    most_on(seats, on, CABLES)
}

/// The number of the last seat's station plus 1, or 0 without seats.
fn stations_of(seats: &[Seat]) -> usize
    ensures { result ≤ 65536 }
{
    match seats.last() {
        Some(seat) => seat.station as usize + 1,
        None => 0,
    }
}

/// The indices of the seats of each station, by the station's number. Error: `Memory`.
fn indices_by_station(alloc: Global, seats: &[Seat]) -> Result<Vec<Indices>, Error>
    requires { length seats.now < 2 ^ 63 }
    ensures ok { IfOk result (λ of. AreLists Station seats.now of.items) }
    ensures refused { IsOkUnless result Error.Memory }
{
    let mut of = Vec::new(alloc);
    for station in 0..stations_of(seats) {
        of.push(indices_by(alloc, seats, Key::Station(station as u16))?)?;
    }
    Ok(of)
}

/// The seat with an index, if any.
pub fn seat_at(seats: &[Seat], index: usize) -> Option<Seat>
    ensures { result ≡ slice_get seats.now index }
{
    seats.get(index).copied()
}

/// Whether the seat with an index has the key.
fn has_at(seats: &[Seat], index: usize, key: Key) -> bool
    ensures { result ≡ passes (has_key key) (slice_get seats.now index) }
{
    match seat_at(seats, index) {
        Some(seat) => has(&seat, key),
        None => false,
    }
}

/// Whether the list isn't empty.
fn is_any(list: &[usize]) -> bool
    ensures { result ≡ has_some list.now }
{
    match list {
        [] => false,
        [_, ..] => true,
    }
}

/// The first of these indices whose seat has the key.
fn first_at(seats: &[Seat], list: &[usize], key: Key) -> Option<usize>
    ensures { result ≡ spec.first_at (has_key key) seats.now list.now }
{
    match list {
        [] => None,
        [index, rest @ ..] => {
            if has_at(seats, *index, key) {
                Some(*index)
            } else {
                first_at(seats, rest, key)
            }
        }
    }
}

impl Seats {
    /// The seats, with their indices by cable and by station. Error: `Memory`.
    pub fn of(alloc: Global, seats: &[Seat]) -> Result<Seats, Error>
        ensures ok { IfOk result (λ all. all ≡ seats.now) }
        ensures refused { IsOkUnless result Error.Memory }
    {
        let items = Vec::from_slice(alloc, seats)?;
        let on = indices_by_cable(alloc, items.as_slice())?;
        let of = indices_by_station(alloc, items.as_slice())?;
        let widest = widest_of(items.as_slice(), on.as_slice());
        Ok(Seats {
            items,
            on,
            of,
            widest,
        })
    }

    /// The number of seats.
    pub fn len(&self) -> usize
        ensures value { result ≡ length self.now }
        ensures bound { length self.now < 2 ^ 63 }
    {
        self.items.len()
    }

    /// The most seats that a cable has.
    pub fn widest(&self) -> usize
        ensures value { result ≡ spec.widest self.now }
    {
        self.widest
    }

    /// The seats, in order.
    pub fn as_slice(&self) -> &[Seat]
        ensures { result.now ≡ self.now }
    {
        self.items.as_slice()
    }

    /// The seat with an index, if any.
    pub fn get(&self, index: usize) -> Option<Seat>
        ensures { result ≡ slice_get self.now index }
    {
        seat_at(self.items.as_slice(), index)
    }

    /// The indices of the seats on the cable, in rising order.
    pub fn on(&self, cable: u8) -> &[usize]
        ensures value { result.now ≡ indices (has_key (Cable cable)) 0 self.now }
        ensures few { length result.now ≤ spec.widest self.now }
    {
        self.on[cable as usize].as_slice()
    }

    /// Whether the cable has a seat.
    pub fn has_cable(&self, cable: u8) -> bool
        ensures { result ≡ list_any (λ s. s.cable == cable) self.now }
    {
        is_any(self.on(cable))
    }

    /// The index of the first seat of the station on the cable, if any.
    pub fn index_on(&self, cable: u8, station: u16) -> Option<usize>
        ensures { result ≡ position (λ s. s.cable == cable && s.station == station) self.now }
    {
        first_at(self.items.as_slice(), self.on(cable), Key::Station(station))
    }

    /// The index of the first seat of the station's port, if any.
    pub fn index_by(&self, station: u16, port: u8) -> Option<usize>
        ensures { result ≡ position (λ s. s.station == station && s.port == port) self.now }
    {
        if (station as usize) < self.of.len() {
            let list = self.of[station as usize].as_slice();
            first_at(self.items.as_slice(), list, Key::Port(port))
        } else {
            // If seats aren't in the order of their stations, this station may have a seat too.
            self.items
                .iter()
                .position(|s| s.station == station && s.port == port)
        }
    }

    /// The first seat of the station on the cable, if any.
    pub fn seat_on(&self, cable: u8, station: u16) -> Option<Seat>
        ensures { result ≡ find (λ s. s.cable == cable && s.station == station) self.now }
    {
        match self.index_on(cable, station) {
            Some(index) => self.get(index),
            None => None,
        }
    }

    /// The first seat of the station's port, if any.
    pub fn seat_by(&self, station: u16, port: u8) -> Option<Seat>
        ensures { result ≡ find (λ s. s.station == station && s.port == port) self.now }
    {
        match self.index_by(station, port) {
            Some(index) => self.get(index),
            None => None,
        }
    }
}
