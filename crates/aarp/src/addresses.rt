//! A short list of addresses, kept inline.

ghost use Rattle.std.specs.Prelude.{◌≡◌, ◌<◌, ◌≤◌, ◌==◌, [], ◌∷◌, ◌++◌, length};
ghost use Rattle.std.specs.List.{list_any};
ghost use Rattle.at_base.specs.Address.{same_address};
ghost use Rattle.at_base.specs.Limits.{max_held};

use at_base::Addr;
use at_base::limits::MAX_HELD;
use std::marker::Model;

/// A list of at most `MAX_HELD` addresses, kept inline.
#[derive(Debug, Drop)]
pub struct Addresses {
    items: [Addr; MAX_HELD],
    len: usize,
}

impl Model for Addresses {
    ghost use Rattle.std.specs.Prelude.{◌≤◌, List, take};
    ghost use Rattle.at_base.specs.declared.address.Addr.{Addr as AddrValue};
    ghost use Rattle.at_base.specs.Limits.{max_held};

    ghost Value = { List AddrValue };

    ghost view = { λ a. take a.len a.items };

    ghost invariant = { λ a. a.len ≤ max_held };
}

impl Addresses {
    /// An empty list.
    pub fn new() -> Addresses
        ensures { result ≡ [] }
    {
        Addresses {
            items: [Addr::NONE; MAX_HELD],
            len: 0,
        }
    }

    /// The number of addresses, at most 16.
    pub fn len(&self) -> usize
        ensures value { result ≡ length self.now }
        ensures few { result ≤ max_held }
    {
        self.as_slice().len()
    }

    /// Whether there are no addresses.
    pub fn is_empty(&self) -> bool
        ensures { result ≡ (length self.now == 0) }
    {
        self.len() == 0
    }

    /// The addresses, in order.
    pub fn as_slice(&self) -> &[Addr]
        ensures value { result.now ≡ self.now }
        ensures few { length self.now ≤ max_held }
    {
        &self.items[..self.len]
    }

    /// Whether the address is in the list.
    pub fn contains(&self, addr: Addr) -> bool
        ensures { result ≡ list_any (same_address addr) self.now }
    {
        self.as_slice().iter().any(|item| addr == *item)
    }

    /// Appends an address. The caller ensures that the list has fewer than 16.
    pub fn push(&mut self, addr: Addr)
        requires { length self.old < max_held }
        ensures { self.new ≡ self.old ++ addr ∷ [] }
    {
        self.items[self.len] = addr;
        self.len += 1;
    }
}
