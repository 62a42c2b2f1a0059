//! What tables do with a row, and with rows by rising range.

ghost use Rattle.std.specs.Prelude.{◌≡◌, ◌≤◌, length, true};
ghost use Rattle.std.specs.List.{list_all};
ghost use Rattle.at_base.specs.Range.{is_range};
ghost use Rattle.rtmp.specs.Routes as spec;
ghost use Rattle.rtmp.specs.Routes.{are_apart, beside};

use crate::row::Row;
use crate::state::State;
use crate::table::{Change, MAX_DISTANCE};
use at_base::{Addr, Range};

/// Whether each range ends before the next one starts.
pub(crate) fn rows_are_apart(rows: &[Row]) -> bool
    ensures value { result ≡ are_apart rows.now }
    ensures valid { result ≡ true
        → list_all (λ r. is_range r.range.start r.range.end) rows.now ≡ true }
{
    let mut end = 0;
    for row in rows {
        if row.range.start() <= end {
            return false;
        }
        end = row.range.end();
    }
    true
}

/// The number of rows that don't overlap the range.
pub(crate) fn count_beside(rows: &[Row], range: Range) -> usize
    ensures { result ≡ length (beside range rows.now) }
{
    rows.iter()
        .filter(|row| !row.range.overlaps(&range))
        .count()
}

/// The row of a range at `distance` from router `source`, which was heard on a port.
pub(crate) fn heard_row(range: Range, distance: u8, source: Addr, port: u8) -> Row
    requires { distance ≤ 14 }
    ensures { result ≡ spec.heard_row range distance source port }
{
    Row {
        range,
        distance: distance + 1,
        port,
        next: source,
        state: State::Good,
    }
}

/// The row of the range of a port's own cable.
pub(crate) fn direct_row(range: Range, port: u8) -> Row
    ensures { result ≡ spec.direct_row range port }
{
    Row {
        range,
        distance: 0,
        port,
        next: Addr::NONE,
        state: State::Good,
    }
}

/// The row of a range, and the change, after `source` reported on a port that the range is at
/// `distance`.
pub(crate) fn after_hearing(row: &Row, distance: u8, source: Addr, port: u8) -> (Row, Change)
    ensures { result ≡ spec.after_hearing row.now distance source port }
{
    let unchanged = (*row, Change::Ignored);
    let is_next = row.next == source && row.port == port;
    if row.is_direct() {
        unchanged
    } else if distance > MAX_DISTANCE {
        if !is_next {
            return unchanged;
        }
        let mut bad = *row;
        bad.state = State::Bad;
        (bad, Change::Changed)
    } else if is_next || !row.state.is_usable() || distance < row.distance {
        let heard = heard_row(row.range, distance, source, port);
        (heard, Change::Changed)
    } else {
        unchanged
    }
}
