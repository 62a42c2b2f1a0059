//! The lines of a log.

use at_base::{Addr, Range};
use rtmp::Row;
use std::alloc::AllocError;
use text::put_decimal;

/// The greatest number that is written as it is; a greater one is written as this.
const MOST: u64 = 4_294_967_295;

/// Appends the tick with which a line begins.
fn put_tick(lines: &mut Vec<u8>, tick: u64) -> Result<(), AllocError> {
    lines.extend_from_slice(b"tick ")?;
    put_decimal(lines, tick.min(MOST) as u32)?;
    lines.extend_from_slice(b": ")
}

/// Appends an address.
fn put_addr(lines: &mut Vec<u8>, addr: Addr) -> Result<(), AllocError> {
    put_decimal(lines, u32::from(addr.net))?;
    lines.extend_from_slice(b".")?;
    put_decimal(lines, u32::from(addr.node))
}

/// Appends a range.
fn put_range(lines: &mut Vec<u8>, range: Range) -> Result<(), AllocError> {
    put_decimal(lines, u32::from(range.start()))?;
    lines.extend_from_slice(b"-")?;
    put_decimal(lines, u32::from(range.end()))
}

/// Appends that a port has this address now, or none.
pub(crate) fn put_address(
    lines: &mut Vec<u8>,
    tick: u64,
    port: usize,
    addr: Option<Addr>,
) -> Result<(), AllocError> {
    put_tick(lines, tick)?;
    lines.extend_from_slice(b"port ")?;
    put_decimal(lines, port.min(255) as u32 + 1)?;
    match addr {
        Some(addr) => {
            lines.extend_from_slice(b" is ")?;
            put_addr(lines, addr)?;
        }
        None => lines.extend_from_slice(b" has no address")?,
    }
    lines.extend_from_slice(b"\n")
}

/// Appends that a port heard that its cable has another range than its own.
pub(crate) fn put_elsewhere(lines: &mut Vec<u8>, tick: u64, port: usize) -> Result<(), AllocError> {
    put_tick(lines, tick)?;
    lines.extend_from_slice(b"port ")?;
    put_decimal(lines, port.min(255) as u32 + 1)?;
    lines.extend_from_slice(b" does not start: its cable has another range\n")
}

/// Appends how a route is now.
pub(crate) fn put_row(lines: &mut Vec<u8>, tick: u64, row: &Row) -> Result<(), AllocError> {
    put_tick(lines, tick)?;
    lines.extend_from_slice(b"route to ")?;
    put_range(lines, row.range)?;
    if !row.state.is_usable() {
        return lines.extend_from_slice(b" is bad\n");
    }
    lines.extend_from_slice(b" by port ")?;
    put_decimal(lines, u32::from(row.port) + 1)?;
    if !row.is_direct() {
        lines.extend_from_slice(b" and ")?;
        put_addr(lines, row.next)?;
    }
    lines.extend_from_slice(b", distance ")?;
    put_decimal(lines, u32::from(row.distance))?;
    lines.extend_from_slice(b"\n")
}

/// Appends that a route is gone.
pub(crate) fn put_gone(lines: &mut Vec<u8>, tick: u64, range: Range) -> Result<(), AllocError> {
    put_tick(lines, tick)?;
    lines.extend_from_slice(b"route to ")?;
    put_range(lines, range)?;
    lines.extend_from_slice(b" is gone\n")
}

/// Appends that all zones of a range are known.
pub(crate) fn put_zones(lines: &mut Vec<u8>, tick: u64, range: Range) -> Result<(), AllocError> {
    put_tick(lines, tick)?;
    lines.extend_from_slice(b"zones of ")?;
    put_range(lines, range)?;
    lines.extend_from_slice(b" are complete\n")
}

/// Appends how many events were dropped so far.
pub(crate) fn put_drops(lines: &mut Vec<u8>, tick: u64, dropped: u64) -> Result<(), AllocError> {
    put_tick(lines, tick)?;
    put_decimal(lines, dropped.min(MOST) as u32)?;
    lines.extend_from_slice(b" events dropped: out of memory\n")
}
