//! What a station knows of the other stations on its cables.

ghost use Rattle.std.specs.Prelude.{◌≡◌, ◌==◌, ◌≤◌, IfOk, IsOkUnless, OnErr, length, slice_get, slice_set, true};
ghost use Rattle.std.specs.List.{list_any};
ghost use Rattle.aarp.specs.Mapping as mapping_spec;
ghost use Rattle.aarp.specs.Mapping.{forgotten, learnt, to_ask};
ghost use Rattle.at_base.specs.Range.{is_between};
ghost use Rattle.live_cables.specs.Finding as spec;
ghost use Rattle.live_cables.specs.Finding.{held_at, hw_of, mapped, own_or_none, request_for};
ghost use Rattle.live_cables.specs.Holding.{AreFew, AreReleased, IsKnownAt, IsMet, IsRequest, shed_at, stamps_for};
ghost use Rattle.live_cables.specs.Holding.{with_held, with_known, with_tick, without_held};
ghost use Rattle.live_cables.specs.Steps.{Puts};
ghost use Rattle.at_base.specs.Limits.{max_held};

use crate::answer::Answer;
use crate::holding::release;
use aarp::{Asks, Function, Held, Mapper, Packet};
use at_base::{Addr, Bytes, Error, Hw, Range};
use cable_model::{Cables, Found, HeldBy, PACKET_LEN, Resolve, Seat, Seats};
use std::alloc::Global;
use std::marker::Model;

/// The target hardware address in an AARP request: 0, because it isn't known.
const NOBODY: Hw = Hw([0; 6]);

/// The seats of stations, the settled address and the mappings of each, the ranges of the cables,
/// and the station that looks up and holds.
#[derive(Drop)]
pub struct Neighbours {
    pub(crate) station: u16,
    pub(crate) seats: Seats,
    pub(crate) own: Vec<Option<Addr>>,
    // The mappings of each seat, in the order of the seats.
    pub(crate) mappers: Vec<Mapper>,
    pub(crate) ranges: Vec<Range>,
    pub(crate) alloc: Global,
}

impl Model for Neighbours {
    ghost use Rattle.live_cables.specs.Finding.{Knowing};

    ghost Value = { Knowing };

    ghost view = { λ n. record {
      station = n.station;
      seats = n.seats;
      own = n.own.items;
      maps = n.mappers.items;
      ranges = n.ranges.items;
    } };
}

/// Whether the settled address of a seat is this one.
fn is_own(own: &[Option<Addr>], seat: usize, addr: Addr) -> bool
    ensures { result ≡ spec.is_own (slice_get own.now seat) addr }
{
    match own.get(seat) {
        Some(Some(own)) => own.net == addr.net && own.node == addr.node,
        _ => false,
    }
}

/// The hardware address of a seat.
fn hw_at(seats: &Seats, seat: usize) -> Found
    ensures { result ≡ hw_of (slice_get seats.now seat) }
{
    match seats.get(seat) {
        Some(seat) => Found::At(seat.hw),
        None => Found::Later,
    }
}

/// Whether one of the ranges holds the network. No range holds 0, so 0, which is the network of
/// many datagrams, isn't searched for.
fn is_listed(ranges: &[Range], net: u16) -> bool
    ensures { result ≡ spec.is_listed ranges.now net }
{
    net != 0 && has_range(ranges, net)
}

/// Whether one of the ranges holds the network.
fn has_range(ranges: &[Range], net: u16) -> bool
    ensures { result ≡ list_any (λ r. is_between r.start r.end net) ranges.now }
{
    ranges.iter().any(|range| range.holds(net))
}

/// The hardware address of an address, by a seat's mappings.
fn mapping_at(mappers: &[Mapper], seat: usize, addr: Addr) -> Found
    ensures { result ≡ mapped (slice_get mappers.now seat) addr }
{
    match mappers.get(seat) {
        None => Found::Later,
        Some(mapper) => match mapper.look(addr) {
            Some(hw) => Found::At(hw),
            None => Found::Later,
        },
    }
}

/// The settled address of a seat, and 0.0 if it has none.
fn own_at(own: &[Option<Addr>], seat: usize) -> Addr
    ensures { result ≡ own_or_none (slice_get own.now seat) }
{
    match own.get(seat) {
        Some(Some(own)) => *own,
        _ => Addr::NONE,
    }
}

/// The AARP request of a seat for the hardware address of an address.
fn request(hw: Hw, own: Addr, addr: Addr) -> Packet
    ensures { result ≡ request_for hw own addr }
{
    Packet {
        function: Function::Request,
        source_hw: hw,
        source: own,
        target_hw: NOBODY,
        target: addr,
    }
}

/// Holds a datagram at a seat. Returns whether it is the first one for its address, and the stamp
/// of the one that is let go if 16 are held.
fn hold_at(
    alloc: Global,
    mappers: &mut [Mapper],
    seat: usize,
    next: Addr,
    stamp: u32,
) -> (bool, Option<u32>)
    ensures first { result.0 ≡ spec.is_first_for mappers.old seat next }
    ensures shed { result.1 ≡ shed_at mappers.old seat next stamp }
    ensures held { mappers.new ≡ with_held mappers.old seat next stamp }
{
    if seat >= mappers.len() {
        return (false, None);
    }
    let is_first = !mappers[seat].holds(next);
    let gone = mappers[seat].hold(Held {
        next,
        asked: 1,
        stamp: Some(stamp),
        bytes: Bytes::empty(alloc),
    });
    (is_first, gone.and_then(|held| held.stamp))
}

impl Neighbours {
    /// From now on this station looks up and holds.
    pub fn face(&mut self, station: u16)
        ensures { self.new ≡ record self.old { station = station } }
    {
        self.station = station;
    }

    /// Sets the settled address of a seat, or that it has none. Does nothing if there is no such
    /// seat.
    pub fn set_own(&mut self, seat: usize, own: Option<Addr>)
        ensures { self.new ≡ record self.old { own = slice_set self.old.own seat own } }
    {
        if seat < self.own.len() {
            self.own[seat] = own;
        }
    }

    /// The index of the seat of a station's port. Allocates nothing.
    pub fn index_by(&self, station: u16, port: u8) -> Option<usize>
        ensures { result ≡ spec.seat_by self.now.seats station port }
    {
        self.seats.index_by(station, port)
    }

    /// The seat with an index. Allocates nothing.
    pub fn seat(&self, index: usize) -> Option<Seat>
        ensures { result ≡ slice_get self.now.seats index }
    {
        self.seats.get(index)
    }

    /// The AARP request of a seat's station for an address. Allocates nothing.
    pub fn request(&self, index: usize, addr: Addr) -> Option<[u8; PACKET_LEN]>
        ensures { IsRequest true (slice_get self.now.seats index) (slice_get self.now.own index) addr result }
    {
        match self.seats.get(index) {
            Some(seat) => Some(request(seat.hw, own_at(&self.own, index), addr).write()),
            None => None,
        }
    }

    /// Whether no datagram is held at a seat. Allocates nothing.
    pub fn is_idle(&self, seat: usize) -> bool
        ensures { result ≡ (length (held_at self.now.maps seat) == 0) }
    {
        match self.mappers.get(seat) {
            Some(mapper) => mapper.is_idle(),
            None => true,
        }
    }

    /// The mappers of the seats, in order. Allocates nothing.
    pub fn mappers(&self) -> &[Mapper]
        ensures { result.now ≡ self.now.maps }
    {
        self.mappers.as_slice()
    }

    /// Advances the mappings of a seat by a tick. Does nothing if there is no such seat.
    pub fn tick(&mut self, seat: usize) -> Asks
        ensures ask { result.ask ≡ to_ask (held_at self.old.maps seat) }
        ensures given_up { result.given_up ≡ mapping_spec.given_up (held_at self.old.maps seat) }
        ensures shed { result.shed.items ≡ mapping_spec.shed (held_at self.old.maps seat) }
        ensures waits { self.new ≡ record self.old { maps = with_tick self.old.maps seat } }
    {
        if seat >= self.mappers.len() {
            return Asks::none();
        }
        self.mappers[seat].tick()
    }

    /// Learns the mapping in a response ahead of its taking, at a seat: nothing else is forgotten.
    /// Returns whether the address was unknown; if it was known, or if the seat has no mappings,
    /// nothing changes. Error: `Memory`; nothing changes then.
    pub fn meet(&mut self, seat: usize, answer: Answer) -> Result<bool, Error>
        requires { AreFew self.old.maps }
        ensures ok { IfOk result (λ new. IsMet seat answer self.old.maps new self.new.maps) }
        ensures others { self.new ≡ record self.old { maps = self.new.maps } }
        ensures refused { IsOkUnless result Error.Memory }
        ensures kept { OnErr result (self.new ≡ self.old) }
    {
        if seat >= self.mappers.len() {
            return Ok(false);
        }
        if self.mappers[seat].look(answer.source).is_some() {
            return Ok(false);
        }
        match self.mappers[seat].meet(answer.source, answer.source_hw) {
            Ok(()) => Ok(true),
            Err(error) => Err(error),
        }
    }

    /// Forgets the mapping of an address at a seat. Does nothing if the seat has no mappings.
    pub fn forget(&mut self, seat: usize, addr: Addr)
        ensures { self.new ≡ record self.old { maps = with_known self.old.maps seat (forgotten addr) } }
    {
        if seat < self.mappers.len() {
            self.mappers[seat].forget(addr);
        }
    }

    /// Learns the mapping in a response at a seat, where its address is known. Does nothing if the
    /// seat has no mappings. Allocates nothing.
    pub fn learn(&mut self, seat: usize, answer: Answer)
        requires { IsKnownAt self.old.maps seat answer.source }
        ensures { self.new ≡ record self.old {
          maps = with_known self.old.maps seat (learnt answer.source answer.source_hw);
        } }
    {
        if seat < self.mappers.len() {
            let _learnt = self.mappers[seat].learn(answer.source, answer.source_hw);
        }
    }

    /// Puts the frames of the datagrams that are held at a seat for the source of a response on
    /// their cables, oldest first, and takes them out. Does nothing if the seat has no mappings.
    /// The caller ensures that the cables have room for 16 further entries. Allocates nothing.
    pub fn release(&mut self, cables: &mut Cables, seat: usize, answer: Answer)
        requires { max_held ≤ cables.old.spare }
        ensures released { AreReleased answer.source_hw (stamps_for (slice_get self.old.maps seat) answer)
            cables.old cables.new }
        ensures left { self.new ≡ record self.old {
          maps = without_held self.old.maps seat answer.source;
        } }
        ensures puts { Puts cables.old cables.new }
    {
        if seat < self.mappers.len() {
            // A lookup tells the prover that at most 16 are held.
            let _known = self.mappers[seat].look(answer.source);
            let mapper = &mut self.mappers[seat];
            release(cables, mapper, answer.source, answer.source_hw);
        }
    }
}

impl Resolve for Neighbours {
    ghost use Rattle.live_cables.specs.Finding.{places_of};
    ghost use Rattle.live_cables.specs.Holding.{Holds};

    ghost finds = { λ n cable addr. (places_of n).finds cable addr };

    ghost lists = { λ n net. (places_of n).lists net };

    ghost holds = { Holds };

    fn find(&self, cable: u8, addr: Addr) -> Found {
        let Some(seat) = self.seats.index_on(cable, self.station) else {
            return Found::Later;
        };
        if is_own(&self.own, seat, addr) {
            hw_at(&self.seats, seat)
        } else {
            mapping_at(&self.mappers, seat, addr)
        }
    }

    fn listed(&self, net: u16) -> bool {
        is_listed(&self.ranges, net)
    }

    fn hold(&mut self, cable: u8, next: Addr, stamp: u32) -> HeldBy {
        let Some(seat) = self.seats.index_on(cable, self.station) else {
            return HeldBy {
                shed: None,
                ask: None,
            };
        };
        let (is_first, shed) = hold_at(self.alloc, &mut self.mappers, seat, next, stamp);
        let ask = if is_first {
            self.request(seat, next)
        } else {
            None
        };
        HeldBy { shed, ask }
    }
}
