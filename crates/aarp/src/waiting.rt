//! The queue of datagrams that wait for a hardware address, oldest first. The queue is rotated to
//! take one out of its middle.

ghost use Rattle.std.specs.Prelude.{◌≡◌, ◌<◌, ◌≤◌, ◌+◌, ◌++◌, ◌∷◌, [], length, take, drop};
ghost use Rattle.std.specs.Prelude.{find, option_to_list, position, remove, slice_get, if◌then◌else◌};
ghost use Rattle.std.specs.Option.{option_copied};
ghost use Rattle.std.specs.List.{list_any};
ghost use Rattle.aarp.specs.Mapping as spec;
ghost use Rattle.aarp.specs.Mapping.{is_for, released, without_oldest};
ghost use Rattle.aarp.specs.Mapping.{waited, to_ask, given_up, is_asked_again, noted, stamp_of};
ghost use Rattle.arrayvec.specs.ArrayVec.{array_vec_len};
ghost use Rattle.at_base.specs.Limits.{max_held};

use crate::addresses::Addresses;
use crate::held::Held;
use arrayvec::ArrayVec;
use at_base::Addr;
use at_base::limits::MAX_HELD;
use circular_buffer::HeapCircularBuffer;

/// The number of requests for an address before it is given up.
const MAX_ASKED: u8 = 10;

/// The addresses of a tick: two lists of at most 16 addresses, each address once, in the order of
/// the oldest datagram held for it; and the stamps of the datagrams that are gone.
#[derive(Drop)]
pub struct Asks {
    /// The addresses to request now.
    pub ask: Addresses,
    /// The addresses that were requested ten times without a response. The datagrams held for them
    /// are gone.
    pub given_up: Addresses,
    /// The stamps of the datagrams that are gone, where they have one, oldest first.
    pub shed: ArrayVec<u32, MAX_HELD>,
}

impl Asks {
    /// Nothing to ask for, and nothing given up.
    pub fn none() -> Asks
        ensures { (result.ask ≡ []) × (result.given_up ≡ []) × (result.shed.items ≡ []) }
    {
        Asks {
            ask: Addresses::new(),
            given_up: Addresses::new(),
            shed: ArrayVec::new(),
        }
    }
}

/// Whether a datagram waits for the address.
pub(crate) fn holds(queue: &HeapCircularBuffer<Held>, addr: Addr) -> bool
    ensures { result ≡ list_any (is_for addr) queue.now.items }
{
    queue.iter().any(|held| held.next == addr)
}

/// The oldest datagram for the address, if any.
fn oldest_for(queue: &HeapCircularBuffer<Held>, addr: Addr) -> Option<&Held>
    ensures { option_copied result ≡ find (is_for addr) queue.now.items }
{
    queue.iter().find(|held| held.next == addr)
}

/// The number of requests for the address, or 1 if nothing waits for it.
pub(crate) fn asked_for(queue: &HeapCircularBuffer<Held>, addr: Addr) -> u8
    ensures { result ≡ spec.asked_for addr queue.now.items }
{
    match oldest_for(queue, addr) {
        Some(held) => held.asked,
        None => 1,
    }
}

/// The index of the oldest datagram for the address, if any.
fn place_of(queue: &HeapCircularBuffer<Held>, addr: Addr) -> Option<usize>
    ensures { result ≡ position (is_for addr) queue.now.items }
{
    queue.iter().position(|held| held.next == addr)
}

/// Moves the oldest datagram to the end of the queue.
fn turn_once(queue: &mut HeapCircularBuffer<Held>)
    ensures turned { queue.new.items ≡ drop 1 queue.old.items ++ take 1 queue.old.items }
    ensures capacity { queue.new.capacity ≡ queue.old.capacity }
{
    let _len = queue.len();
    if let Some(held) = queue.pop_front() {
        let _ = queue.push_back(held);
    }
}

/// Moves the first `count` datagrams to the end of the queue.
fn turn(queue: &mut HeapCircularBuffer<Held>, count: usize)
    requires { count ≤ length queue.old.items }
    ensures turned { queue.new.items ≡ drop count queue.old.items ++ take count queue.old.items }
    ensures capacity { queue.new.capacity ≡ queue.old.capacity }
{
    let _len = queue.len();
    for _step in 0..count {
        turn_once(queue);
    }
}

/// Takes out the datagram at an index, and keeps the order of the others.
fn remove_at(queue: &mut HeapCircularBuffer<Held>, place: usize) -> Option<Held>
    requires { place < length queue.old.items }
    ensures taken { result ≡ slice_get queue.old.items place }
    ensures rest { queue.new.items ≡ remove queue.old.items place }
    ensures capacity { queue.new.capacity ≡ queue.old.capacity }
{
    let len = queue.len();
    turn(queue, place);
    let taken = queue.pop_front();
    turn(queue, len - place - 1);
    taken
}

/// Takes out the oldest datagram for the address, if any, and keeps the order of the others.
pub(crate) fn release(queue: &mut HeapCircularBuffer<Held>, addr: Addr) -> Option<Held>
    ensures oldest { result ≡ released addr queue.old.items }
    ensures left { queue.new.items ≡ without_oldest addr queue.old.items }
    ensures capacity { queue.new.capacity ≡ queue.old.capacity }
{
    match place_of(queue, addr) {
        Some(place) => remove_at(queue, place),
        None => None,
    }
}

/// Adds the address if it isn't in the list.
fn note(addresses: &mut Addresses, addr: Addr)
    requires { length addresses.old < max_held }
    ensures noted { addresses.new ≡ noted addr addresses.old }
    ensures few { length addresses.new ≤ 1 + length addresses.old }
{
    if !addresses.contains(addr) {
        addresses.push(addr);
    }
}

/// Adds the stamp, if there is one.
fn note_stamp(stamps: &mut ArrayVec<u32, MAX_HELD>, stamp: Option<u32>)
    requires { array_vec_len stamps.old < max_held }
    ensures noted { stamps.new.items ≡ stamps.old.items ++ option_to_list stamp }
    ensures few { array_vec_len stamps.new ≤ 1 + array_vec_len stamps.old }
{
    if let Some(stamp) = stamp {
        stamps.push(stamp);
    }
}

/// Puts a datagram back at the end of the queue, with one more request for its address; after ten
/// requests it is given up instead.
fn wait_on(queue: &mut HeapCircularBuffer<Held>, asks: &mut Asks, held: Held)
    requires room { length queue.old.items < queue.old.capacity }
    requires ask_room { length asks.old.ask < max_held }
    requires given_up_room { length asks.old.given_up < max_held }
    requires shed_room { array_vec_len asks.old.shed < max_held }
    ensures items { queue.new.items ≡ queue.old.items ++ waited (held ∷ []) }
    ensures capacity { queue.new.capacity ≡ queue.old.capacity }
    ensures ask { asks.new.ask
        ≡ (if is_asked_again held then noted held.next asks.old.ask else asks.old.ask) }
    ensures given_up { asks.new.given_up
        ≡ (if is_asked_again held then asks.old.given_up else noted held.next asks.old.given_up) }
    ensures shed { asks.new.shed.items ≡ asks.old.shed.items
        ++ (if is_asked_again held then [] else stamp_of held) }
    ensures shed_few { array_vec_len asks.new.shed ≤ 1 + array_vec_len asks.old.shed }
    ensures ask_few { length asks.new.ask ≤ 1 + length asks.old.ask }
    ensures given_up_few { length asks.new.given_up ≤ 1 + length asks.old.given_up }
{
    let mut held = held;
    if held.asked < MAX_ASKED {
        held.asked += 1;
        note(&mut asks.ask, held.next);
        let _ = queue.push_back(held);
    } else {
        note(&mut asks.given_up, held.next);
        note_stamp(&mut asks.shed, held.stamp);
    }
}

/// Advances by one tick: returns the addresses to request and those that are given up, and the
/// stamps of the datagrams that are gone.
pub(crate) fn wait(queue: &mut HeapCircularBuffer<Held>) -> Asks
    requires { queue.old.capacity ≡ max_held }
    ensures ask { result.ask ≡ to_ask queue.old.items }
    ensures given_up { result.given_up ≡ given_up queue.old.items }
    ensures shed { result.shed.items ≡ spec.shed queue.old.items }
    ensures waits { queue.new.items ≡ waited queue.old.items }
    ensures capacity { queue.new.capacity ≡ queue.old.capacity }
{
    let mut asks = Asks::none();
    for _step in 0..queue.len() {
        if let Some(held) = queue.pop_front() {
            wait_on(queue, &mut asks, held);
        }
    }
    asks
}
