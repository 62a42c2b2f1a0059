//! Learning from packets of routing data.

ghost use Rattle.std.specs.Prelude.{◌≡◌, ◌<◌, false, true, length, OnErr, OnOk, IsOk, IsOkUnless};
ghost use Rattle.at_base.specs.Limits.{max_rows};
ghost use Rattle.rtmp.specs.Data.{tuples_heard};
ghost use Rattle.rtmp.specs.Routes.{brings_new};
ghost use Rattle.learning.specs.Heard.{is_from_neighbour, routes_after};

use at_base::{Error, Range};
use rtmp::{DataPacket, Nonextended, RouteTable, hear_packet};

/// Whether a packet comes from a router on a cable of this range, and was sent there.
fn is_neighbours(range: Range, packet: &DataPacket<'_>) -> bool
    ensures { result ≡ is_from_neighbour range packet.now }
{
    range.holds(packet.router().net) && packet.own() == range
}

/// Handles a packet of routing data that was received on a port whose cable has this range: each
/// tuple in turn, except new ranges for which the table has no room; nonextended tuples are skipped,
/// or are ranges of one network.
///
/// A packet is ignored if its router's network isn't in the range, or if its first tuple has
/// another range.
///
/// Inside AppleTalk, the chapter on RTMP; which packets are ignored is this project's own. Error:
/// `Memory`, if a row is to be added; nothing changes then.
pub fn learn_routes<T: RouteTable>(
    routes: &mut T,
    range: Range,
    port: u8,
    packet: &DataPacket<'_>,
    nonextended: Nonextended,
) -> Result<(), Error>
    ensures ok { OnOk result (T.rows routes.new
        ≡ routes_after nonextended range port packet.now (T.rows routes.old)) }
    // A packet that is ignored needs no memory.
    ensures ignored { is_from_neighbour range packet.now ≡ false → IsOk result }
    ensures stays { OnErr result (T.rows routes.new ≡ T.rows routes.old) }
    ensures due { OnErr result ((length (T.rows routes.old) < max_rows)
        × (brings_new (tuples_heard nonextended packet.now.written) (T.rows routes.old) ≡ true)) }
    ensures refused { IsOkUnless result Error.Memory }
{
    if !is_neighbours(range, packet) {
        return Ok(());
    }
    hear_packet(routes, packet, port, nonextended)
}
