//! Removing rows of a table.

ghost use Rattle.std.specs.Prelude.{◌≡◌, ◌≤◌, filter, not, vec_capacity, vec_len};
ghost use Rattle.rtmp.specs.Removals as spec;

use crate::row::Row;
use crate::update::is_over;
use at_base::Range;

/// Which rows are removed.
#[derive(Clone, Copy, Debug)]
pub(crate) enum Removal {
    /// The rows in their last state.
    Over,
    /// The rows that overlap this range.
    Overlapping(Range),
}

/// Whether the row is removed.
pub(crate) fn is_removed(removal: &Removal, row: &Row) -> bool
    ensures { result ≡ spec.is_removed removal.now row.now }
{
    match removal {
        Removal::Over => is_over(row),
        Removal::Overlapping(range) => row.range.overlaps(range),
    }
}

/// Removes rows. Allocates nothing.
pub(crate) fn remove_rows(rows: &mut Vec<Row>, removal: &Removal)
    ensures kept { rows.new.items ≡ spec.kept removal.now rows.old.items }
    ensures room { vec_capacity rows.new ≡ vec_capacity rows.old }
    ensures fewer { vec_len rows.new ≤ vec_len rows.old }
{
    rows.retain(|row| !is_removed(removal, row));
}
