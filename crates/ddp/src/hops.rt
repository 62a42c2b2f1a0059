//! The hop count of a forwarded datagram.

ghost use Rattle.std.specs.Prelude.{◌≡◌, ◌≤◌, length};
ghost use Rattle.ddp.specs.Bodies.{with_hops};

/// Sets the hop count of a datagram, the number of routers that it has passed, and changes nothing
/// else. Allocates nothing.
///
/// Inside AppleTalk, the chapter on DDP.
#[tactic(auto, using(crate::proofs::Bodies::hops_set))]
pub fn set_hops(bytes: &mut [u8], hops: u8)
    requires there { 13 ≤ length bytes.old }
    requires few { hops ≤ 15 }
    ensures { bytes.new ≡ with_hops hops bytes.old }
{
    // The hop count lies between the two top bits and the two highest bits of the length.
    let first = bytes[0];
    bytes[0] = first / 64 * 64 + hops * 4 + first % 4;
}
