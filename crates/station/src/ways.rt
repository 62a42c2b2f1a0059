//! The ways of the datagrams that a station makes.

ghost use Rattle.std.specs.Prelude.{◌≡◌, IfSome};
ghost use Rattle.station.specs.Lawful.{IsNext};
ghost use Rattle.station.specs.Ways as spec;

use crate::output::Next;
use crate::way::Way;
use at_base::Addr;
use ddp::{Header, View};

/// The node number that means every node of a cable.
///
/// Inside AppleTalk, the chapter on DDP.
pub const EVERY_NODE: u8 = 255;

/// The next station of a datagram on the cable of its target.
pub fn straight(target: Addr) -> Next
    ensures value { result ≡ spec.straight target }
    ensures next { IsNext result }
{
    if target.node == EVERY_NODE {
        Next::All
    } else {
        Next::Station(target)
    }
}

/// The way by a port, with the port's address as source; `None` if the port has no address.
pub fn way_from(own: Option<Addr>, port: u8, next: Next, header: Header) -> Option<Way>
    ensures value { result ≡ spec.way_from own port next header }
    ensures inside { IfSome result (λ way. (way.port ≡ port) × (way.next ≡ next)) }
{
    let source = own?;
    Some(Way {
        port,
        next,
        header: Header { source, ..header },
    })
}

/// Whether the datagram has this type and this target socket.
pub fn is_to(view: &View<'_>, kind: u8, socket: u8) -> bool
    ensures { result ≡ spec.is_to kind socket view.now }
{
    view.kind() == kind && view.target_socket() == socket
}

/// Whether the datagram carries a checksum.
pub fn is_summed(view: &View<'_>) -> bool
    ensures { result ≡ spec.is_summed view.now }
{
    view.checksum() != 0
}

/// The header of a reply to a datagram, without a source.
pub fn reply_header(view: &View<'_>, target: Addr) -> Header
    ensures { result ≡ spec.reply_header view.now target }
{
    Header {
        summed: is_summed(view),
        target,
        source: Addr::NONE,
        target_socket: view.source_socket(),
        source_socket: view.target_socket(),
        kind: view.kind(),
    }
}

/// Whether the datagram has no checksum, or the checksum of its bytes.
pub fn checks(view: &View<'_>) -> bool
    ensures { result ≡ spec.checks view.now }
{
    view.check().is_ok()
}
