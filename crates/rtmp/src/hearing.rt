//! The effect of a packet of routing data on a routing table.

ghost use Rattle.std.specs.Prelude.{◌≡◌, ◌<◌, ◌⊎◌, false, true, length, IsOkUnless, OnErr, OnOk};
ghost use Rattle.at_base.specs.Limits.{max_rows};
ghost use Rattle.rtmp.specs.Data.{tuples_heard};
ghost use Rattle.rtmp.specs.Routes as spec;
ghost use Rattle.rtmp.specs.Routes.{heard_packet, heard_within, is_new};

use crate::data::DataPacket;
use crate::table::RouteTable;
use crate::tuple::{Nonextended, Tuple};
use at_base::{Addr, Error};

/// Whether a tuple of the packet has a range that is added to the table.
fn brings_new<T: RouteTable>(table: &T, packet: &DataPacket<'_>, nonextended: Nonextended) -> bool
    ensures { result
        ≡ spec.brings_new (tuples_heard nonextended packet.now.written) (T.rows table.now) }
{
    for tuple in packet.heard(nonextended) {
        if table.is_new(tuple.range, tuple.distance) {
            return true;
        }
    }
    false
}

/// Handles a tuple; a new range for which the table has no room is left out. No memory is needed
/// where there is room for all rows, or the range isn't new.
fn hear_tuple<T: RouteTable>(table: &mut T, tuple: &Tuple, source: Addr, port: u8)
    requires { (T.has_room table.old ≡ true)
        ⊎ (is_new tuple.now.range tuple.now.distance (T.rows table.old) ≡ false) }
    ensures rows { T.rows table.new
        ≡ heard_within tuple.now.range tuple.now.distance source port (T.rows table.old) }
    ensures room { T.has_room table.old ≡ true → T.has_room table.new ≡ true }
{
    match table.hear(tuple.range, tuple.distance, source, port) {
        Ok(_) | Err(Error::Full) => {}
        Err(_) => unreachable!(),
    }
}

/// Handles each tuple of a packet that was received on a port, in order; nonextended ones are
/// skipped, or are ranges of one network. New ranges for which the table has no room are left out.
/// Error: `Memory`, if a row is to be added; nothing changes then.
///
/// Inside AppleTalk, the chapter on RTMP; what is made of nonextended tuples is this project's own.
pub fn hear_packet<T: RouteTable>(
    table: &mut T,
    packet: &DataPacket<'_>,
    port: u8,
    nonextended: Nonextended,
) -> Result<(), Error>
    ensures ok { OnOk result (T.rows table.new
        ≡ heard_packet packet.now.router port (tuples_heard nonextended packet.now.written)
        (T.rows table.old)) }
    ensures stays { OnErr result (T.rows table.new ≡ T.rows table.old) }
    ensures due { OnErr result ((length (T.rows table.old) < max_rows)
        × (spec.brings_new (tuples_heard nonextended packet.now.written) (T.rows table.old)
        ≡ true)) }
    ensures refused { IsOkUnless result Error.Memory }
{
    // Room is made first: no tuple can be refused then.
    if !table.has_room() && brings_new(table, packet, nonextended) {
        table.make_room()?;
    }
    let source = packet.router();
    for tuple in packet.heard(nonextended) {
        hear_tuple(table, &tuple, source, port);
    }
    Ok(())
}
