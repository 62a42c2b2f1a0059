//! Rows of an image as rows of routing tables.

ghost use Rattle.std.specs.Prelude.{◌≡◌, true, IfOk, IsOkUnless, map};
ghost use Rattle.at_base.specs.Range.{is_range};
ghost use Rattle.table_image.specs.RouteRows as spec;
ghost use Rattle.table_image.specs.RouteRows.{have_ranges};

use crate::row::Row;
use at_base::{Error, Range};
use std::alloc::Global;

/// Whether the range of the row is valid.
fn has_range(row: &Row) -> bool
    ensures { result ≡ is_range row.now.start row.now.end }
{
    Range::new(row.start, row.end).is_ok()
}

/// Whether the range of each row is valid.
pub(crate) fn all_have_ranges(rows: &[Row]) -> bool
    ensures { result ≡ have_ranges rows.now }
{
    rows.iter().all(has_range)
}

/// The row as one of a routing table.
fn route_row(row: &Row) -> rtmp::Row
    requires { is_range row.now.start row.now.end ≡ true }
    ensures { result ≡ spec.route_row row.now }
{
    rtmp::Row {
        range: Range::new(row.start, row.end).unwrap(),
        distance: row.distance,
        port: row.port,
        next: row.next,
        state: row.state,
    }
}

/// The rows as those of a routing table, in order. Error: `Memory`.
pub(crate) fn route_rows(alloc: Global, rows: &[Row]) -> Result<Vec<rtmp::Row>, Error>
    requires { have_ranges rows.now ≡ true }
    ensures made { IfOk result (λ made. made.items ≡ map spec.route_row rows.now) }
    ensures refused { IsOkUnless result Error.Memory }
{
    let mut made = Vec::with_capacity(alloc, rows.len())?;
    for row in rows {
        made.push(route_row(row))?;
    }
    Ok(made)
}
