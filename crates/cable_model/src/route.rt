//! Routes of datagrams on a cable.

ghost use Rattle.std.specs.Prelude.{◌≡◌, ◌<◌, slice_index};
ghost use Rattle.at_base.specs.Address.{same_address};
ghost use Rattle.cable_model.specs.Ways as spec;
ghost use Rattle.ddp.specs.Bodies as bodies_spec;

use crate::resolve::{Found, Resolve};
use at_base::Addr;
use station::Next;

/// The route of a datagram on a cable: its next station or stations, and the result of their
/// lookup.
#[derive(Clone, Copy, Debug)]
pub enum Route {
    /// To the station that the datagram is addressed to, which has this address.
    Target(Addr, Found),
    /// To another station, which has this address.
    Other(Addr, Found),
    /// To all stations; the flag says whether the target's network belongs to a cable.
    All(bool),
    /// To the stations of a group.
    Group(u8),
}

/// The byte at an index, or 0 past the end.
fn byte_at(bytes: &[u8], index: usize) -> u8
    ensures { result ≡ slice_index bytes.now index }
{
    if index < bytes.len() { bytes[index] } else { 0 }
}

/// The target address of a datagram.
fn target_of(bytes: &[u8]) -> Addr
    ensures { result ≡ bodies_spec.target bytes.now }
{
    let high = byte_at(bytes, 4);
    let low = byte_at(bytes, 5);
    Addr {
        net: (high as u16) * 256 + (low as u16),
        node: byte_at(bytes, 8),
    }
}

/// Whether the addresses are equal.
fn is_same(a: Addr, b: Addr) -> bool
    ensures { result ≡ same_address a b }
{
    a.net == b.net && a.node == b.node
}

/// The route of a datagram on a cable.
pub fn way_of<R: Resolve>(resolver: &R, cable: u8, next: Next, bytes: &[u8]) -> Route
    ensures { result ≡ spec.way_of (record { finds = R.finds resolver.now; lists = R.lists resolver.now })
        cable next bytes.now }
{
    let target = target_of(bytes);
    match next {
        Next::Station(addr) => {
            let found = resolver.find(cable, addr);
            if is_same(target, addr) {
                Route::Target(addr, found)
            } else {
                Route::Other(addr, found)
            }
        }
        Next::All => Route::All(resolver.listed(target.net)),
        Next::Group(group) => Route::Group(group),
    }
}
