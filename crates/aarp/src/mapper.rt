//! The address mappings that a port knows, and the datagrams that it holds.

ghost use Rattle.std.specs.Prelude.{◌≡◌, ◌+◌, ◌≤◌, [], IfOk, OnOk, OnErr, IsOk, IsSome, IsOkUnless, None};
ghost use Rattle.std.specs.Prelude.{◌==◌, length, take};
ghost use Rattle.std.specs.List.{All, list_any};
ghost use Rattle.lru.specs.LruCache.{lru_cache};
ghost use Rattle.aarp.specs.Mapping as spec;
ghost use Rattle.aarp.specs.Mapping.{AddressesRise, FitsMapping, IsMappings, forgotten, mapping_of, met, learnt};
ghost use Rattle.aarp.specs.Mapping.{by_address, is_for, holding};
ghost use Rattle.aarp.specs.Mapping.{pushed_out, released, without_oldest, to_ask, given_up, waited};
ghost use Rattle.at_base.specs.Limits.{max_held, max_mappings};

use crate::held::Held;
use crate::listing;
use crate::waiting::{self, Asks};
use at_base::limits::{MAX_HELD, MAX_MAPPINGS};
use at_base::{Addr, Error, Hw};
use circular_buffer::HeapCircularBuffer;
use lru::LruCache;
use std::alloc::Global;
use std::marker::Model;
use std::num::NonZeroUsize;

/// The room for mappings: one more, for a mapping that is learnt ahead.
const ROOM: usize = MAX_MAPPINGS + 1;

/// The mappings of addresses to hardware addresses that a port knows, and the datagrams that wait
/// for one.
///
/// Inside AppleTalk, the chapter on AARP; the counts and limits are this project's own.
#[derive(Drop)]
pub struct Mapper {
    known: LruCache<Addr, Hw>,
    held: HeapCircularBuffer<Held>,
}

impl Model for Mapper {
    ghost use Rattle.std.specs.Prelude.{◌≡◌, ◌+◌, IsTrue};
    ghost use Rattle.std.specs.List.{list_all};
    ghost use Rattle.aarp.specs.Mapping.{Mappings, is_counted};
    ghost use Rattle.at_base.specs.Limits.{max_held, max_mappings};

    ghost Value = { Mappings };

    ghost view = { λ m. record { known = m.known.entries; held = m.held.items } };

    ghost invariant = { λ m. (m.known.cap ≡ max_mappings + 1)
        × (m.held.capacity ≡ max_held)
        × IsTrue (list_all is_counted m.held.items) };
}

/// Discards the mapping learnt longest ago where one more is known than are kept.
fn discard(known: &mut LruCache<Addr, Hw>)
    requires { known.old.cap ≡ max_mappings + 1 }
    ensures { known.new ≡ lru_cache (take max_mappings known.old.entries) known.old.cap }
{
    if known.len() > MAX_MAPPINGS {
        let _discarded = known.pop_lru();
    }
}

impl Mapper {
    /// A mapper without mappings and datagrams. Error: `Memory`.
    pub fn new(alloc: Global) -> Result<Mapper, Error>
        ensures ok { IfOk result (λ m. m ≡ record { known = []; held = [] }) }
        ensures refused { IsOkUnless result Error.Memory }
    {
        let cap = NonZeroUsize::new(ROOM).unwrap();
        let known = LruCache::sparse(alloc, cap)?;
        let held = HeapCircularBuffer::with_capacity(alloc, MAX_HELD)?;
        Ok(Mapper { known, held })
    }

    /// The hardware address that was last learnt for the address, if any. A lookup doesn't change
    /// the order in which mappings are discarded. Allocates nothing.
    pub fn look(&self, addr: Addr) -> Option<Hw>
        ensures value { result ≡ mapping_of addr self.now.known }
        ensures valid { IsMappings self.now }
    {
        // The lengths give the prover the invariants.
        let _known = self.known.len();
        let _held = self.held.len();
        self.known.peek(&addr).copied()
    }

    /// The mappings, by rising address: at most `MAX_MAPPINGS`, or one more between `meet` and the
    /// call that follows it. Error: `Memory`, which no mappings never need.
    pub fn all(&self) -> Result<Vec<(Addr, Hw)>, Error>
        ensures ok { IfOk result (λ all. all.items ≡ by_address self.now.known) }
        ensures rises { IfOk result (λ all. AddressesRise 0 all.items) }
        ensures fits { IfOk result (λ all. All FitsMapping all.items) }
        ensures number { IfOk result (λ all. length all.items ≡ length self.now.known) }
        ensures few { length self.now.known ≤ max_mappings + 1 }
        ensures none { self.now.known ≡ [] → IsOk result }
        ensures refused { IsOkUnless result Error.Memory }
    {
        listing::all_of(&self.known)
    }

    /// Learns a mapping; if 512 other addresses are known, the mapping learnt longest ago is
    /// discarded.
    ///
    /// Error: `Memory`, only for an address that isn't known yet; nothing changes then.
    pub fn learn(&mut self, addr: Addr, hw: Hw) -> Result<(), Error>
        ensures ok { OnOk result
            (self.new ≡ record self.old { known = learnt addr hw self.old.known }) }
        ensures few { OnOk result (length self.new.known ≤ max_mappings) }
        ensures known { IsSome (mapping_of addr self.old.known) → IsOk result }
        ensures refused { IsOkUnless result Error.Memory }
        ensures unchanged { OnErr result (self.new ≡ self.old) }
    {
        let _len = self.known.len();
        self.known.put(addr, hw)?;
        discard(&mut self.known);
        Ok(())
    }

    /// Learns the mapping of an address that isn't known, ahead of the frame that tells it: none is
    /// discarded. If the frame is taken, `learn` learns the mapping again, which can't fail;
    /// otherwise `forget` undoes the call.
    ///
    /// Error: `Memory`; nothing changes then.
    pub fn meet(&mut self, addr: Addr, hw: Hw) -> Result<(), Error>
        requires unknown { mapping_of addr self.old.known ≡ None }
        requires few { length self.old.known ≤ max_mappings }
        ensures ok { OnOk result
            (self.new ≡ record self.old { known = met addr hw self.old.known }) }
        ensures refused { IsOkUnless result Error.Memory }
        ensures unchanged { OnErr result (self.new ≡ self.old) }
    {
        let _len = self.known.len();
        self.known.put(addr, hw)?;
        Ok(())
    }

    /// Forgets the mapping of an address, if it is known. Allocates nothing.
    pub fn forget(&mut self, addr: Addr)
        ensures forgotten { self.new ≡ record self.old { known = forgotten addr self.old.known } }
        ensures unknown { mapping_of addr self.new.known ≡ None }
    {
        let _len = self.known.len();
        let _forgotten = self.known.pop(&addr);
    }

    /// Whether no datagram is held. Allocates nothing.
    pub fn is_idle(&self) -> bool
        ensures { result ≡ (length self.now.held == 0) }
    {
        self.held.is_empty()
    }

    /// Whether a datagram is held for the address. Allocates nothing.
    pub fn holds(&self, addr: Addr) -> bool
        ensures { result ≡ list_any (is_for addr) self.now.held }
    {
        waiting::holds(&self.held, addr)
    }

    /// Holds a datagram. If 16 are held already, returns the oldest of them. The datagram's request
    /// count is that of its address, or 1 if nothing was held for it. Allocates nothing.
    pub fn hold(&mut self, held: Held) -> Option<Held>
        ensures held { self.new ≡ record self.old { held = holding held self.old.held } }
        ensures oldest { result ≡ pushed_out held self.old.held }
    {
        let _len = self.held.len();
        let mut held = held;
        held.asked = waiting::asked_for(&self.held, held.next);
        self.held.push_back(held)
    }

    /// Takes out the oldest datagram held for the address, if any. The others keep their order.
    /// Allocates nothing.
    pub fn release(&mut self, addr: Addr) -> Option<Held>
        ensures oldest { result ≡ released addr self.old.held }
        ensures left { self.new ≡ record self.old { held = without_oldest addr self.old.held } }
    {
        waiting::release(&mut self.held, addr)
    }

    /// Advances by one tick: returns the addresses to request and those that are given up, and the
    /// stamps of the datagrams that are gone. Allocates nothing.
    pub fn tick(&mut self) -> Asks
        ensures ask { result.ask ≡ to_ask self.old.held }
        ensures given_up { result.given_up ≡ given_up self.old.held }
        ensures shed { result.shed.items ≡ spec.shed self.old.held }
        ensures waits { self.new ≡ record self.old { held = waited self.old.held } }
    {
        waiting::wait(&mut self.held)
    }
}
