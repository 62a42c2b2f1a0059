//! The way of a datagram that a station makes.

ghost use Rattle.std.specs.Prelude.{◌≡◌, ◌<◌, ◌≤◌, ℕ, length, IfOk, IsOkUnless};
ghost use Rattle.station.specs.Lawful.{IsGood, IsNext};
ghost use Rattle.station.specs.Making.{made};
ghost use Rattle.at_base.specs.Limits.{max_data};

use crate::laws::slices_have_bytes;
use crate::output::{Next, Output};
use at_base::{Bytes, Error};
use ddp::Header;
use std::alloc::Global;

/// The port on which a datagram leaves, the next station there, and its header.
///
/// Inside AppleTalk, the chapter on DDP.
#[derive(Clone, Copy, Debug)]
pub struct Way {
    /// The index of the port, from 0.
    pub port: u8,
    /// The next station or stations.
    pub next: Next,
    /// The header of the datagram.
    pub header: Header,
}

impl Way {
    /// The datagram with this data, sent on this way. The caller ensures that the data has at most
    /// 586 bytes. Error: `Memory`.
    pub fn make(&self, alloc: Global, payload: &[u8]) -> Result<Output, Error>
        requires { length payload.now ≤ max_data }
        ensures ok { IfOk result (λ output. output ≡ made self.now payload.now) }
        ensures good { IfOk result (λ output. IsNext self.now.next
            → (ports : ℕ) → self.now.port < ports → IsGood ports output) }
        ensures refused { IsOkUnless result Error.Memory }
    {
        match ddp::write(alloc, &self.header, payload) {
            Ok(bytes) => {
                slices_have_bytes(bytes.as_slice());
                Ok(Output::Made {
                    port: self.port,
                    next: self.next,
                    bytes,
                })
            }
            Err(_) => Err(Error::Memory),
        }
    }
}
