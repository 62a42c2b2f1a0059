//! The row of a range, in a table whose rows rise by their first networks.

ghost use Rattle.std.specs.Prelude.{◌≡◌, ◌&&◌, ℕ, Bool, Some, slice_get};
ghost use Rattle.std.specs.List.{list_any};
ghost use Rattle.std.specs.Option.{option_copied};
ghost use Rattle.audit.specs.Places.{on};
ghost use Rattle.settled.specs.Offers as spec;
ghost use Rattle.table_image.specs.Bounds.{AreRising};
ghost use Rattle.table_image.specs.declared.row.Row.{Row};

use table_image::Row;

pub(crate) fn same_range(a: &Row, b: &Row) -> bool
    ensures { result ≡ spec.same_range a.now b.now }
{
    a.start == b.start && a.end == b.end
}

/// The index of the row that starts at the network, if there is one. The hint is looked at first:
/// routers that have rows for the same cables have them at the same places.
fn place_of(rows: &[Row], hint: usize, start: u16) -> usize
    requires { AreRising rows.now }
    ensures { (k : ℕ) (row : Row) → slice_get rows.now k ≡ Some row → row.start ≡ start → k ≡ result }
{
    if let Some(row) = rows.get(hint) {
        if row.start == start {
            return hint;
        }
    }
    rows.partition_point(|row| row.start < start)
}

/// The row with the range of this one, if any, so that a test of such rows is one of it. By binary
/// search, if it isn't at the hint.
pub(crate) fn same_row<'a>(rows: &'a [Row], hint: usize, row: &Row) -> Option<&'a Row>
    requires { AreRising rows.now }
    ensures { (test : Row → Bool) → list_any (λ other. spec.same_range other row.now && test other) rows.now
        ≡ on (option_copied result) test }
{
    match rows.get(place_of(rows, hint, row.start)) {
        Some(other) => {
            if same_range(other, row) {
                Some(other)
            } else {
                None
            }
        }
        None => None,
    }
}
