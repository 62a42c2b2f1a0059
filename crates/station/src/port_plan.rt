//! The initial configuration of a station's port.

ghost use Rattle.std.specs.Prelude.{◌≡◌, IfOk, IsOkUnless, IsTrue};
ghost use Rattle.station.specs.Ports.{is_planned, planned};

use aarp::Chooser;
use at_base::{Addr, Error, Hw, Range};
use std::alloc::Global;

/// The initial configuration of a port.
#[derive(Clone, Copy, Debug)]
pub struct PortPlan<'a> {
    /// The range of its cable.
    pub range: Range,
    /// Its hardware address.
    pub hw: Hw,
    /// The addresses to try first, in order, if the port is to choose one.
    pub tries: &'a [Addr],
    /// The address that the port has from the start, or `None` if it is to choose one.
    pub own: Option<Addr>,
}

impl<'a> PortPlan<'a> {
    /// The choice of the port's address, settled if the plan gives an address. The caller ensures
    /// that a station of the range may have the addresses (`aarp::are_on`). Error: `Memory`.
    pub fn chooser(&self, alloc: Global) -> Result<Chooser, Error>
        requires { IsTrue (is_planned self.now) }
        ensures ok { IfOk result (λ chooser. chooser ≡ planned self.now) }
        ensures refused { IsOkUnless result Error.Memory }
    {
        match self.own {
            Some(own) => Ok(Chooser::decided(alloc, self.range, own, self.hw)),
            None => Chooser::new(alloc, self.range, self.tries, self.hw),
        }
    }
}
