//! The output for a datagram that a router forwards, keeps or drops.

ghost use Rattle.std.specs.Prelude.{◌≡◌, ◌<◌, ◌+◌, ℕ, IfOk, IsOkUnless};
ghost use Rattle.ddp.specs.Bodies.{with_hops};
ghost use Rattle.router.specs.Forwarding.{IsBy, IsNear, bytes_in, output_of};
ghost use Rattle.station.specs.Lawful.{IsGood, IsWhole};

use crate::course::Step;
use at_base::{Bytes, Error};
use ddp::{View, set_hops};
use station::{Output, slices_have_bytes};
use std::alloc::Global;

/// The bytes of the datagram without padding, copied once. Error: `Memory`.
fn copied(alloc: Global, view: &View<'_>) -> Result<Bytes, Error>
    ensures ok { IfOk result (λ bytes. bytes ≡ bytes_in view.now) }
    ensures whole { IfOk result (λ bytes. IsWhole bytes) }
    ensures refused { IsOkUnless result Error.Memory }
{
    slices_have_bytes(view.as_bytes());
    Bytes::copy(alloc, view.as_bytes())
}

/// The bytes of the datagram without padding and with one hop more, copied once. Error: `Memory`.
fn with_one_hop_more(alloc: Global, view: &View<'_>) -> Result<Vec<u8>, Error>
    requires { view.now.hops < 15 }
    ensures ok { IfOk result (λ bytes.
        bytes.items ≡ with_hops (view.now.hops + 1) (bytes_in view.now)) }
    ensures refused { IsOkUnless result Error.Memory }
{
    let mut bytes = Vec::from_slice(alloc, view.as_bytes())?;
    set_hops(&mut bytes, view.hops() + 1);
    Ok(bytes)
}

/// The datagram without padding and with one hop more. Error: `Memory`.
fn handed_on(alloc: Global, view: &View<'_>) -> Result<Bytes, Error>
    requires { view.now.hops < 15 }
    ensures ok { IfOk result (λ bytes.
        bytes ≡ with_hops (view.now.hops + 1) (bytes_in view.now)) }
    ensures whole { IfOk result (λ bytes. IsWhole bytes) }
    ensures refused { IsOkUnless result Error.Memory }
{
    let bytes = with_one_hop_more(alloc, view)?;
    slices_have_bytes(bytes.as_slice());
    // Only the prover needs this read: it shows that the datagram is one.
    let _heard = view.as_bytes();
    Ok(Bytes::from_vec(bytes))
}

impl Step {
    /// The output for the datagram in this step. Error: `Memory`.
    #[inline(always)]
    pub(crate) fn output(self, alloc: Global, view: &View<'_>) -> Result<Output, Error>
        requires { IsNear view.now.hops self }
        ensures ok { IfOk result (λ output. output ≡ output_of self view.now) }
        ensures good { IfOk result (λ output. (n : ℕ) → IsBy n self → IsGood n output) }
        ensures refused { IsOkUnless result Error.Memory }
    {
        match self {
            Step::Pass { port, next } => Ok(Output::Passed {
                port,
                next,
                bytes: handed_on(alloc, view)?,
            }),
            Step::Keep { port } => Ok(Output::Kept {
                port,
                bytes: copied(alloc, view)?,
            }),
            Step::Drop(cause) => Ok(Output::Dropped {
                cause,
                bytes: copied(alloc, view)?,
            }),
        }
    }
}
