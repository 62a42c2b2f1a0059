//! The calls of a routing table.

use at_base::{Addr, Error, Range};
use rtmp::{Change, RouteTable};
use std::alloc::Global;

/// The range of a row.
fn range(row: u16) -> Result<Range, Error> {
    let start = row.saturating_mul(10).saturating_add(1);
    Range::new(start, start.saturating_add(4))
}

/// The router by which a row goes: there are 20.
fn router(row: u16) -> Addr {
    Addr {
        net: 1,
        node: (row % 20) as u8 + 1,
    }
}

/// A table with rows, of ranges with gaps between them.
fn table<T: RouteTable>(alloc: Global, rows: u16) -> Result<T, Error> {
    let mut table = T::empty(alloc)?;
    for row in 0..rows {
        let _change = table.hear(range(row)?, 2, router(row), 0)?;
    }
    Ok(table)
}

/// Carries out a call, for one row after the other. Returns how many rows it found or changed.
pub(crate) fn run<T: RouteTable>(
    alloc: Global,
    call: &str,
    rows: u16,
    times: u32,
) -> Result<u64, Error> {
    let mut table = table::<T>(alloc, rows)?;
    let mut found = 0u64;
    for time in 0..times {
        // Rows in an order that no hint foresees.
        let row = (time.wrapping_mul(7919) % 60_000) as u16;
        let row = row.checked_rem(rows).unwrap_or(0);
        let hit = match call {
            "row_for" => table
                .row_for(row.saturating_mul(10).saturating_add(3))
                .is_some(),
            "hear" => table.hear(range(row)?, 2, router(row), 0)? == Change::Changed,
            "poison" => {
                table.poison(router(row));
                true
            }
            "copy" => table.copy()?.len() > 0,
            _ => false,
        };
        found = found.saturating_add(u64::from(hit));
    }
    Ok(found)
}
