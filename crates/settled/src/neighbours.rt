//! Routers of a settled internet that hear each other and age their rows, by the calls of which the
//! programs' routers are made.

ghost use Rattle.std.specs.Prelude.{◌≡◌, ℕ, Some, OnOk, IsOkUnless, slice_get};
ghost use Rattle.audit.specs.Rules.{Passes};
ghost use Rattle.rtmp.specs.Routes.{aged};
ghost use Rattle.rtmp.specs.Sending.{packet_numbered};
ghost use Rattle.rtmp.specs.declared.request.Horizon.TheVariants.{Split};
ghost use Rattle.settled.specs.Exchange.{AreGood, AreMovedRows, AreNeighbours, rows_heard};
ghost use Rattle.settled.specs.Settling.{IsSettled};
ghost use Rattle.table_image.specs.Bounds.{IsBounded};
ghost use Rattle.table_image.specs.Internet.{Internet};
ghost use Rattle.table_image.specs.declared.router.Router.{Router};

use at_base::{Addr, Error, Range};
use learning::learn_routes;
use rtmp::{DataPacket, Horizon, Nonextended, RouteTable, write_data};
use std::alloc::Global;

/// How a neighbour sends routing data on the cable that it shares with a router: by this port of
/// its own, with this address, on a cable of this range.
#[derive(Clone, Copy, Debug, PartialEq, Eq)]
pub struct Neighbour {
    pub port: u8,
    pub address: Addr,
    pub range: Range,
}

/// A router hears by a port the packet of routing data with a number, from 0, that a neighbour
/// sends from its table; nothing, if the neighbour sends no such packet. Where both are routers of
/// an internet that passes the audit and is settled, and their rows are those of the image or may
/// have become these, the router's rows have moved and nothing else: each has its range and its
/// distance.
///
/// Inside AppleTalk, the chapter on RTMP. Error: `Memory`.
pub fn hear_neighbour<T: RouteTable, U: RouteTable>(
    mine: &mut T,
    port: u8,
    theirs: &U,
    neighbour: Neighbour,
    number: u16,
    alloc: Global,
) -> Result<(), Error>
    ensures heard { OnOk result (T.rows mine.new ≡ rows_heard port neighbour.range
        (packet_numbered Split neighbour.port neighbour.range neighbour.address number
        (U.rows theirs.now)) (T.rows mine.old)) }
    ensures stays { (i : Internet) (r s : ℕ) → Passes i → IsSettled i → IsBounded i
        → (w : AreNeighbours i r port s neighbour.port neighbour.range)
        → w.their_port.address ≡ neighbour.address
        → AreMovedRows i r w.router (T.rows mine.old) → AreMovedRows i s w.their (U.rows theirs.now)
        → OnOk result (AreMovedRows i r w.router (T.rows mine.new)) }
    ensures refused { IsOkUnless result Error.Memory }
{
    let Neighbour {
        port: their_port,
        address,
        range,
    } = neighbour;
    let sent = write_data(
        alloc,
        theirs,
        Horizon::Split,
        their_port,
        range,
        address,
        number,
    )?;
    let Some(bytes) = sent else {
        return Ok(());
    };
    match DataPacket::at(bytes.as_slice()) {
        Some(packet) => learn_routes(mine, range, port, &packet, Nonextended::Skipped),
        // What was written is read back.
        None => unreachable!(),
    }
}

/// A router ages its rows. Where it is a router of an internet that passes the audit, and its rows
/// are those of the image or may have become these, and those that aren't direct are Good, its rows
/// have moved and nothing else. Allocates nothing.
///
/// Inside AppleTalk, the chapter on RTMP.
pub fn age_good<T: RouteTable>(table: &mut T)
    ensures aged { T.rows table.new ≡ aged (T.rows table.old) }
    ensures stays { (i : Internet) (r : ℕ) (router : Router)
        → slice_get i.routers r ≡ Some router → AreMovedRows i r router (T.rows table.old)
        → AreGood (T.rows table.old) → AreMovedRows i r router (T.rows table.new) }
{
    table.age();
}
