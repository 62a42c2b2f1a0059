//! The pending pairs, in order.

ghost use Rattle.std.specs.Prelude.{◌≡◌, ◌≤◌, ◌<◌, ◌+◌, ◌^◌, ◌==◌, [], length, slice_get, find, filter, not, remove};
ghost use Rattle.std.specs.Prelude.{OnOk};
ghost use Rattle.std.specs.VecDeque.{deque_capacity};
ghost use Rattle.cable_model.specs.Order.{Rises, ahead, is_before, placed};
ghost use Rattle.cable_model.specs.Waits.{due_key, is_at};

use crate::due::Due;
use std::alloc::{AllocError, Global};
use std::collections::VecDeque;
use std::marker::Model;

/// The pending pairs of a frame and a seat, by stamp and then by station. A pair is found by
/// halving, so that a take costs the same however much is pending. Stamps mostly rise, and then a
/// new pair goes to the end.
#[derive(Drop)]
pub struct Pendings {
    items: VecDeque<Due>,
}

impl Model for Pendings {
    ghost use Rattle.std.specs.VecDeque.{deque_capacity};
    ghost use Rattle.cable_model.specs.Order.{Rises};
    ghost use Rattle.cable_model.specs.Waits.{Waits, due_key};

    ghost Value = { Waits };

    ghost view = { λ p. record { dues = p.items.items; room = deque_capacity p.items } };

    ghost invariant = { λ p. Rises due_key p.items.items };
}

/// The least number of pairs that room is made for beyond what is needed.
const LEAST_GROWTH: usize = 256;

/// Whether the pair comes before the stamp and the station.
fn comes_before(due: &Due, stamp: u32, station: u32) -> bool
    ensures { result ≡ is_before (due_key due.now) (stamp, station) }
{
    due.stamp < stamp || (due.stamp == stamp && (due.station as u32) < station)
}

/// The number of pairs that come before the stamp and the station, which is from `low` to `high`.
/// The station may be 65,536, which comes after all stations.
fn place_between(items: &VecDeque<Due>, stamp: u32, station: u32, low: usize, high: usize) -> usize
    requires rising { Rises due_key items.now.items }
    requires from { low ≤ ahead due_key (stamp, station) items.now.items }
    requires to { ahead due_key (stamp, station) items.now.items ≤ high }
    requires inside { high ≤ length items.now.items }
    ensures { result ≡ ahead due_key (stamp, station) items.now.items }
{
    if low >= high {
        return low;
    }
    let middle = low + (high - low) / 2;
    if comes_before(&items[middle], stamp, station) {
        place_between(items, stamp, station, middle + 1, high)
    } else {
        place_between(items, stamp, station, low, middle)
    }
}

/// The number of pairs that come before the stamp and the station. Most searches are for the first
/// pair, or for the place after the last: these two are looked at first, and then it is found by
/// halving.
fn place_of(items: &VecDeque<Due>, stamp: u32, station: u32) -> usize
    requires { Rises due_key items.now.items }
    ensures place { result ≡ ahead due_key (stamp, station) items.now.items }
    ensures inside { result ≤ length items.now.items }
{
    let len = items.len();
    if len == 0 {
        return 0;
    }
    if !comes_before(&items[0], stamp, station) {
        return 0;
    }
    if comes_before(&items[len - 1], stamp, station) {
        return len;
    }
    place_between(items, stamp, station, 1, len - 1)
}

/// Makes room for further pairs. Where there is too little, room is made for as many again as there
/// are: else each call that finds one pair more than the last would move all of them.
fn make_room(items: &mut VecDeque<Due>, more: usize) -> Result<(), AllocError>
    ensures items { items.new.items ≡ items.old.items }
    ensures ok { OnOk result (length items.new.items + more ≤ deque_capacity items.new) }
    ensures bound { OnOk result (more < 2 ^ 63) }
    ensures grown { deque_capacity items.old ≤ deque_capacity items.new }
{
    let len = items.len();
    if more <= items.capacity() - len {
        return items.reserve(more);
    }
    items.reserve(more.saturating_add(len).saturating_add(LEAST_GROWTH))
}

/// The pair with an index.
fn pair_at(items: &VecDeque<Due>, index: usize) -> Option<Due>
    ensures { result ≡ slice_get items.now.items index }
{
    items.get(index).copied()
}

/// Removes the pair with an index.
fn remove_at(items: &mut VecDeque<Due>, index: usize)
    requires { index < length items.old.items }
    ensures items { items.new.items ≡ remove items.old.items index }
    ensures room { deque_capacity items.new ≡ deque_capacity items.old }
{
    let _removed = items.remove(index);
}

/// Whether the pair has this stamp and this station.
fn is_due(due: &Due, stamp: u32, station: u16) -> bool
    ensures { result ≡ is_at stamp station due.now }
{
    stamp == due.stamp && station == due.station
}

/// Removes the pairs with this stamp and this station.
fn remove_pairs(items: &mut VecDeque<Due>, stamp: u32, station: u16)
    requires { Rises due_key items.old.items }
    ensures items { items.new.items
        ≡ filter (λ d. not (is_at stamp station d)) items.old.items }
    ensures room { deque_capacity items.new ≡ deque_capacity items.old }
{
    let place = place_of(items, stamp, station as u32);
    let Some(due) = pair_at(items, place) else {
        return;
    };
    if is_due(&due, stamp, station) {
        remove_at(items, place);
        remove_pairs(items, stamp, station);
    }
}

/// Removes the pairs with this stamp.
fn remove_stamp(items: &mut VecDeque<Due>, stamp: u32)
    requires { Rises due_key items.old.items }
    ensures items { items.new.items ≡ filter (λ d. not (stamp == d.stamp)) items.old.items }
    ensures room { deque_capacity items.new ≡ deque_capacity items.old }
{
    let place = place_of(items, stamp, 0);
    let Some(due) = pair_at(items, place) else {
        return;
    };
    if stamp == due.stamp {
        remove_at(items, place);
        remove_stamp(items, stamp);
    }
}

impl Pendings {
    /// No pairs.
    pub fn new(alloc: Global) -> Pendings
        ensures { result.dues ≡ [] }
    {
        Pendings {
            items: VecDeque::new(alloc),
        }
    }

    /// The number of pairs.
    pub fn len(&self) -> usize
        ensures { result ≡ length self.now.dues }
    {
        self.items.len()
    }

    /// Makes room for further pairs.
    pub fn reserve(&mut self, more: usize) -> Result<(), AllocError>
        ensures dues { self.new.dues ≡ self.old.dues }
        ensures ok { OnOk result (length self.new.dues + more ≤ self.new.room) }
        ensures bound { OnOk result (more < 2 ^ 63) }
        ensures grown { self.old.room ≤ self.new.room }
    {
        make_room(&mut self.items, more)
    }

    /// The first pair.
    pub fn first(&self) -> Option<Due>
        ensures first { result ≡ slice_get self.now.dues 0 }
        ensures rising { Rises due_key self.now.dues }
    {
        self.items.front().copied()
    }

    /// The pair with this stamp and this station.
    pub fn find(&self, stamp: u32, station: u16) -> Option<Due>
        ensures { result ≡ find (is_at stamp station) self.now.dues }
    {
        let place = place_of(&self.items, stamp, station as u32);
        match pair_at(&self.items, place) {
            Some(due) => {
                if is_due(&due, stamp, station) {
                    Some(due)
                } else {
                    None
                }
            }
            None => None,
        }
    }

    /// The first pair with this stamp.
    pub fn of_frame(&self, stamp: u32) -> Option<Due>
        ensures { result ≡ find (λ d. stamp == d.stamp) self.now.dues }
    {
        let place = place_of(&self.items, stamp, 0);
        match pair_at(&self.items, place) {
            Some(due) => { if stamp == due.stamp { Some(due) } else { None } }
            None => None,
        }
    }

    /// Adds a pair at its place.
    pub fn add(&mut self, due: Due)
        requires { length self.old.dues < self.old.room }
        ensures dues { self.new.dues ≡ placed due_key due self.old.dues }
        ensures room { self.old.room ≤ self.new.room }
    {
        let place = place_of(&self.items, due.stamp, due.station as u32 + 1);
        let _ = self.items.insert(place, due);
    }

    /// Removes the pairs with this stamp and this station.
    pub fn remove(&mut self, stamp: u32, station: u16)
        ensures { self.new ≡ record self.old {
          dues = filter (λ d. not (is_at stamp station d)) self.old.dues;
        } }
    {
        remove_pairs(&mut self.items, stamp, station);
    }

    /// Removes all pairs of the frame with this stamp.
    pub fn remove_frame(&mut self, stamp: u32)
        ensures { self.new ≡ record self.old {
          dues = filter (λ d. not (stamp == d.stamp)) self.old.dues;
        } }
    {
        remove_stamp(&mut self.items, stamp);
    }
}
