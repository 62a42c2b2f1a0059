//! A writer of the routing data that a router sends.

ghost use Rattle.std.specs.Prelude.{◌≡◌, ◌≤◌, ◌++◌, length, map, take, drop, IfOk, OnOk};
ghost use Rattle.std.specs.Prelude.{IsOk, IsOkUnless, None};
ghost use Rattle.at_base.specs.Range.{IsRange};
ghost use Rattle.rtmp.specs.Bytes as bytes_spec;
ghost use Rattle.rtmp.specs.Bytes.{head_bytes, tuples_bytes};
ghost use Rattle.rtmp.specs.Routes.{IsRouteMap};
ghost use Rattle.rtmp.specs.Sending as sending_spec;
ghost use Rattle.at_base.specs.Spelling.{Spells};
ghost use Rattle.rtmp.specs.Data.{routing_data};
ghost use Rattle.rtmp.specs.Sending.{IsPacket, own_tuple, packet_numbered, response_of, rows_sent};

use crate::request::Horizon;
use crate::row::Row;
use crate::table::RouteTable;
use crate::tuple::Tuple;
use at_base::{Addr, Bytes, Error, Range};
use std::alloc::Global;

/// The greatest number of rows in a packet, not counting the port's own range.
pub const MAX_ROWS_IN_PACKET: usize = 96;

/// The distance that means that a range can't be reached.
pub const UNREACHABLE: u8 = 31;

/// The length of the bytes before the tuples, and (`TUPLE_LEN`) of each tuple.
const HEAD_LEN: usize = 4;

const TUPLE_LEN: usize = 6;

/// The tuple sent for a row.
fn sent_tuple(row: &Row) -> Tuple
    ensures { result ≡ sending_spec.sent_tuple row.now }
{
    let distance = if row.state.is_usable() {
        row.distance
    } else {
        UNREACHABLE
    };
    Tuple {
        range: row.range,
        distance,
    }
}

/// Appends the router's address, before its tuples.
fn put_head(bytes: &mut Vec<u8>, me: Addr) -> Result<(), Error>
    ensures put { OnOk result (bytes.new.items ≡ bytes.old.items ++ head_bytes me) }
    ensures refused { IsOkUnless result Error.Memory }
{
    bytes.extend_from_slice(&me.net.to_be_bytes())?;
    bytes.push(8)?;
    bytes.push(me.node)?;
    Ok(())
}

/// Appends an extended tuple.
fn put_tuple(bytes: &mut Vec<u8>, tuple: Tuple) -> Result<(), Error>
    requires { tuple.distance ≤ 31 }
    ensures put { OnOk result (bytes.new.items ≡ bytes.old.items ++ bytes_spec.tuple_bytes tuple) }
    ensures valid { OnOk result (IsRange tuple.range.start tuple.range.end) }
    ensures refused { IsOkUnless result Error.Memory }
{
    bytes.extend_from_slice(&tuple.range.start().to_be_bytes())?;
    bytes.push(128 + tuple.distance)?;
    bytes.extend_from_slice(&tuple.range.end().to_be_bytes())?;
    bytes.push(0x82)?;
    Ok(())
}

/// Appends the front of each packet: the router's address, and the port's own range at distance 0.
fn put_front(bytes: &mut Vec<u8>, me: Addr, own: Range) -> Result<(), Error>
    ensures put { OnOk result (bytes.new.items
        ≡ bytes.old.items ++ head_bytes me ++ bytes_spec.tuple_bytes (own_tuple own)) }
    ensures valid { OnOk result (IsRange own.start own.end) }
    ensures refused { IsOkUnless result Error.Memory }
{
    put_head(bytes, me)?;
    put_tuple(
        bytes,
        Tuple {
            range: own,
            distance: 0,
        },
    )
}

/// Whether the row is sent on a port.
fn is_sent(horizon: Horizon, port: u8, row: &Row) -> bool
    ensures { result ≡ sending_spec.is_sent horizon port row.now }
{
    match horizon {
        Horizon::Split => row.port != port,
        Horizon::Whole => row.port != port || !row.is_direct(),
    }
}

/// The number of rows that are sent on a port.
fn count_sent<T: RouteTable>(table: &T, horizon: Horizon, port: u8) -> usize
    ensures value { result ≡ length (rows_sent horizon port (T.rows table.now)) }
    ensures map { IsRouteMap (T.rows table.now) }
{
    let mut count = 0;
    for index in 0..table.len() {
        if let Some(row) = table.row(index) {
            if is_sent(horizon, port, &row) {
                count += 1;
            }
        }
    }
    count
}

/// Appends up to 96 of the rows that are sent on a port, after the first `left_out` of them.
fn put_rows<T: RouteTable>(
    bytes: &mut Vec<u8>,
    table: &T,
    horizon: Horizon,
    port: u8,
    left_out: usize,
) -> Result<(), Error>
    ensures put { OnOk result (bytes.new.items ≡ bytes.old.items ++ tuples_bytes
        (map sending_spec.sent_tuple (take 96 (drop left_out (rows_sent horizon port (T.rows table.now)))))) }
    ensures refused { IsOkUnless result Error.Memory }
{
    let mut left_out = left_out;
    let mut room = MAX_ROWS_IN_PACKET;
    for index in 0..table.len() {
        if let Some(row) = table.row(index) {
            if !is_sent(horizon, port, &row) {
                continue;
            }
            if left_out > 0 {
                left_out -= 1;
            } else if room > 0 {
                room -= 1;
                put_tuple(bytes, sent_tuple(&row))?;
            }
        }
    }
    Ok(())
}

/// The packet `number` (from 0) of the routing data that router `me` sends on a port whose cable
/// has the range `own`: that range at distance 0, and up to 96 of the rows that are sent there, by
/// rising range. `None` after the last packet. Error: `Memory`.
///
/// Inside AppleTalk, the chapter on RTMP.
pub fn write_data<T: RouteTable>(
    alloc: Global,
    table: &T,
    horizon: Horizon,
    port: u8,
    own: Range,
    me: Addr,
    number: u16,
) -> Result<Option<Bytes>, Error>
    ensures made { IfOk result
        (λ packet. IsPacket (packet_numbered horizon port own me number (T.rows table.now)) packet) }
    // No memory is needed after the last packet.
    ensures past { packet_numbered horizon port own me number (T.rows table.now) ≡ None
        → IsOk result }
    ensures refused { IsOkUnless result Error.Memory }
{
    let left_out = number as usize * MAX_ROWS_IN_PACKET;
    let sent = count_sent(table, horizon, port);
    if number > 0 && sent <= left_out {
        return Ok(None);
    }
    let count = (sent - left_out).min(MAX_ROWS_IN_PACKET);
    let mut bytes = Vec::with_capacity(alloc, HEAD_LEN + TUPLE_LEN * (1 + count))?;
    put_front(&mut bytes, me, own)?;
    put_rows(&mut bytes, table, horizon, port, left_out)?;
    Ok(Some(Bytes::from_vec(bytes)))
}

/// The response of router `me` to a request for the router of a cable with the range `own`: routing
/// data without a row. Error: `Memory`.
///
/// Inside AppleTalk, the chapter on RTMP.
pub fn write_response(alloc: Global, own: Range, me: Addr) -> Result<Bytes, Error>
    ensures made { IfOk result (λ packet. Spells routing_data packet (response_of me own)) }
    ensures refused { IsOkUnless result Error.Memory }
{
    let mut bytes = Vec::with_capacity(alloc, HEAD_LEN + TUPLE_LEN)?;
    put_front(&mut bytes, me, own)?;
    Ok(Bytes::from_vec(bytes))
}
