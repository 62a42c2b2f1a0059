//! Ports.

ghost use Rattle.std.specs.Prelude.{◌≡◌, ◌==◌, ◌≤◌, [], length, option_map};
ghost use Rattle.std.specs.Prelude.{IfOk, IsOk, IsOkUnless, IsSome, None, OnErr, OnOk};
ghost use Rattle.aarp.specs.Mapping as mapping_spec;
ghost use Rattle.aarp.specs.Mapping.{forgotten, holding, learnt, mapping_of, pushed_out, released};
ghost use Rattle.aarp.specs.Mapping.{to_ask, waited, without_oldest};
ghost use Rattle.port.specs.Ports as spec;
ghost use Rattle.port.specs.Ports.{waiting};
ghost use Rattle.at_base.specs.Limits.{max_held, max_mappings};

use aarp::{Asks, Function, Held, Mapper, Packet};
use at_base::{Addr, Bytes, Error, Hw};
use std::alloc::Global;
use std::marker::Model;

/// The target hardware address in an AARP request: 0, because it isn't known.
const NOBODY: Hw = Hw([0; 6]);

/// What came of a datagram that has to wait for a hardware address.
#[derive(Drop)]
pub struct Waits {
    /// Whether it is the first one for its address: this has to be asked for.
    pub first: bool,
    /// The oldest datagram, which is let go where 16 were held already.
    pub shed: Option<Held>,
}

/// A port: its hardware address on a cable, its settled address, and what it knows of the other
/// stations there. It owns nothing of the cable.
///
/// Inside AppleTalk, the chapter on AARP; the counts and limits are this project's own.
#[derive(Drop)]
pub struct Port {
    hw: Hw,
    own: Option<Addr>,
    mapper: Mapper,
}

impl Model for Port {
    ghost use Rattle.port.specs.Ports.{Ported};

    ghost Value = { Ported };

    ghost view = { λ p. record { hw = p.hw; own = p.own; maps = p.mapper } };
}

/// Whether the settled address, if there is one, is this one.
fn is_own(own: Option<Addr>, addr: Addr) -> bool
    ensures { result ≡ spec.is_own own addr }
{
    match own {
        Some(own) => own == addr,
        None => false,
    }
}

impl Port {
    /// A port with this hardware address, which knows nobody and has no settled address. Error:
    /// `Memory`.
    pub fn new(alloc: Global, hw: Hw) -> Result<Port, Error>
        ensures ok { IfOk result (λ port. port ≡ record {
          hw = hw;
          own = None;
          maps = record { known = []; held = [] };
        }) }
        ensures refused { IsOkUnless result Error.Memory }
    {
        let mapper = Mapper::new(alloc)?;
        Ok(Port {
            hw,
            own: None,
            mapper,
        })
    }

    /// The port's hardware address.
    pub fn hw(&self) -> Hw
        ensures { result ≡ self.now.hw }
    {
        self.hw
    }

    /// From now on this is the port's settled address, or it has none. Allocates nothing.
    pub fn settle(&mut self, own: Option<Addr>)
        ensures { self.new ≡ record self.old { own = own } }
    {
        self.own = own;
    }

    /// The hardware address of an address: the port's own for its settled address, and otherwise
    /// that which was last learnt. Allocates nothing.
    pub fn find(&self, addr: Addr) -> Option<Hw>
        ensures { result ≡ spec.found self.now addr }
    {
        if is_own(self.own, addr) {
            Some(self.hw)
        } else {
            self.mapper.look(addr)
        }
    }

    /// The hardware address that was last learnt for an address, if one was. Allocates nothing.
    pub fn look(&self, addr: Addr) -> Option<Hw>
        ensures value { result ≡ mapping_of addr self.now.maps.known }
        ensures few { length self.now.maps.held ≤ max_held }
    {
        self.mapper.look(addr)
    }

    /// Holds a datagram until the hardware address of its next station is learnt. Allocates nothing.
    pub fn hold(&mut self, next: Addr, bytes: Bytes) -> Waits
        ensures first { result.first ≡ spec.is_first self.old next }
        ensures shed { result.shed ≡ pushed_out (waiting next bytes) self.old.maps.held }
        ensures held { self.new ≡ record self.old {
          maps = record self.old.maps {
            held = holding (waiting next bytes) self.old.maps.held;
          };
        } }
    {
        let first = !self.mapper.holds(next);
        let shed = self.mapper.hold(Held {
            next,
            asked: 1,
            stamp: None,
            bytes,
        });
        Waits { first, shed }
    }

    /// The AARP request for the hardware address of an address. Allocates nothing.
    pub fn request(&self, addr: Addr) -> Packet
        ensures { result ≡ spec.request self.now addr }
    {
        Packet {
            function: Function::Request,
            source_hw: self.hw,
            source: self.own.unwrap_or(Addr::NONE),
            target_hw: NOBODY,
            target: addr,
        }
    }

    /// Learns a mapping, in place of the one that the address had, if any; if 512 other addresses are
    /// known, the mapping learnt longest ago is discarded.
    ///
    /// Error: `Memory`, only for an address that isn't known yet; nothing changes then.
    pub fn learn(&mut self, addr: Addr, hw: Hw) -> Result<(), Error>
        ensures ok { OnOk result (self.new ≡ record self.old {
          maps = record self.old.maps {
            known = learnt addr hw self.old.maps.known;
          };
        }) }
        ensures few { OnOk result (length self.new.maps.known ≤ max_mappings) }
        ensures known { IsSome (mapping_of addr self.old.maps.known) → IsOk result }
        ensures refused { IsOkUnless result Error.Memory }
        ensures unchanged { OnErr result (self.new ≡ self.old) }
    {
        self.mapper.learn(addr, hw)
    }

    /// Forgets the mapping of an address, if it is known. Allocates nothing.
    pub fn forget(&mut self, addr: Addr)
        ensures { self.new ≡ record self.old {
          maps = record self.old.maps {
            known = forgotten addr self.old.maps.known;
          };
        } }
    {
        self.mapper.forget(addr);
    }

    /// Takes out the oldest datagram held for an address, if any; the others keep their order.
    /// Allocates nothing.
    pub fn release(&mut self, addr: Addr) -> Option<Held>
        ensures oldest { result ≡ released addr self.old.maps.held }
        ensures left { self.new ≡ record self.old {
          maps = record self.old.maps {
            held = without_oldest addr self.old.maps.held;
          };
        } }
    {
        self.mapper.release(addr)
    }

    /// Advances by one tick: returns the addresses to ask for once more and those that are given up,
    /// whose datagrams are gone. Allocates nothing.
    pub fn tick(&mut self) -> Asks
        ensures ask { result.ask ≡ to_ask self.old.maps.held }
        ensures given_up { result.given_up ≡ mapping_spec.given_up self.old.maps.held }
        ensures waits { self.new ≡ record self.old {
          maps = record self.old.maps {
            held = waited self.old.maps.held;
          };
        } }
    {
        self.mapper.tick()
    }
}
