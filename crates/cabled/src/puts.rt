//! The packets that a router puts, in order.

ghost use Rattle.std.specs.Prelude.{◌≡◌, ◌<◌, ◌≤◌, ◌+◌, [], ◌∷◌, ◌++◌, IsOk, IsOkUnless, OnOk};

use crate::put::Put;
use at_base::Error;
use std::alloc::Global;
use std::marker::Model;

/// The packets that are put, in order. Contracts see them, and the room for more.
#[derive(Drop)]
pub struct Puts {
    items: Vec<Put>,
}

impl Model for Puts {
    ghost use Rattle.std.specs.Prelude.{◌-◌, vec_capacity, vec_len};
    ghost use Rattle.cabled.specs.Putting.{Putting};

    ghost Value = { Putting };

    ghost view = { λ p. record {
      items = p.items.items;
      spare = vec_capacity p.items - vec_len p.items;
    } };
}

impl Puts {
    /// No packets. Allocates nothing.
    pub fn new(alloc: Global) -> Puts
        ensures { result.items ≡ [] }
    {
        Puts {
            items: Vec::new(alloc),
        }
    }

    /// Makes room for `n` more packets. Error: `Memory`, if there isn't room for them already. The
    /// packets don't change.
    pub fn room(&mut self, n: usize) -> Result<(), Error>
        ensures ok { OnOk result (n ≤ self.new.spare) }
        ensures needed { n ≤ self.old.spare → IsOk result }
        ensures refused { IsOkUnless result Error.Memory }
        ensures kept { self.new.items ≡ self.old.items }
    {
        self.items.reserve(n)?;
        Ok(())
    }

    /// Adds a packet at the end. The caller ensures that there is room. Allocates nothing.
    pub fn add(&mut self, put: Put)
        requires { 0 < self.old.spare }
        ensures added { self.new.items ≡ self.old.items ++ put ∷ [] }
        ensures spare { self.new.spare + 1 ≡ self.old.spare }
    {
        self.items.push_reserved(put);
    }

    /// The packets, in order. Allocates nothing.
    pub fn as_slice(&self) -> &[Put]
        ensures { result.now ≡ self.now.items }
    {
        self.items.as_slice()
    }

    /// Removes all packets. The room stays. Allocates nothing.
    pub fn clear(&mut self)
        ensures { self.new.items ≡ [] }
    {
        self.items.clear();
    }
}
