//! The frames that stations receive and send.

ghost use Rattle.std.specs.Prelude.{◌≡◌, ◌<◌, [], ◌∷◌, ℕ, Some, IfOk, IsOkUnless, OnErr};
ghost use Rattle.station.specs.Lawful.{AreLawful};
ghost use Rattle.station.specs.Made.{AreMade, Puts};
ghost use Rattle.station.specs.Resolution.{packet_at, probed, wired};
ghost use Rattle.station.specs.Values.{datagram_at};

use crate::output::Output;
use aarp::Packet;
use at_base::{Bytes, Error, Hw};
use ddp::View;
use std::alloc::Global;

/// The datagram at the front of the bytes, if any. Allocates nothing.
///
/// Inside AppleTalk, the chapter on DDP.
pub fn read_datagram(bytes: &[u8]) -> Option<View<'_>>
    ensures { result ≡ datagram_at bytes.now }
{
    match View::read(bytes) {
        Ok(view) => Some(view),
        Err(_) => None,
    }
}

/// The AARP packet at the front of the bytes, if any. Allocates nothing.
///
/// Inside AppleTalk, the chapter on AARP.
pub fn read_packet(bytes: &[u8]) -> Option<Packet>
    ensures { result ≡ packet_at bytes.now }
{
    match Packet::read(bytes) {
        Ok(packet) => Some(packet),
        Err(_) => None,
    }
}

/// The output of an AARP packet for the station that the packet names. Error: `Memory`.
///
/// Inside AppleTalk, the chapter on AARP.
pub fn wire(alloc: Global, port: u8, sent: &Packet) -> Result<Output, Error>
    ensures ok { IfOk result (λ output. output ∷ [] ≡ wired port (Some sent.now)) }
    ensures good { IfOk result (λ output. (n : ℕ) → port < n → AreLawful n (output ∷ [])) }
    ensures refused { IsOkUnless result Error.Memory }
{
    Ok(Output::Wire {
        port,
        to: sent.target_hw,
        bytes: Bytes::copy(alloc, &sent.write())?,
    })
}

/// Adds the output of a probe, if there is one, to all stations of the port's cable. Error:
/// `Memory`; the outputs don't change then.
///
/// Inside AppleTalk, the chapter on AARP.
#[tactic(auto, unfolding(crate::specs::Made::AreMade))]
pub fn put_probe(made: &mut Vec<Output>, port: u8, probe: &Option<Packet>) -> Result<(), Error>
    ensures puts { Puts 1 (probed port probe.now) made.old.items made.new.items result }
    ensures good { (n : ℕ) → port < n → AreMade n made.old.items → AreMade n made.new.items }
    ensures stays { OnErr result (made.new.items ≡ made.old.items) }
{
    let Some(probe) = probe else { return Ok(()) };
    let bytes = Bytes::copy(*made.allocator(), &probe.write())?;
    made.push(Output::Wire {
        port,
        to: Hw::ALL,
        bytes,
    })?;
    Ok(())
}
