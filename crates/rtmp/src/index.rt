//! The rows of a table by rising range, with a second vector: their numbers, by rising next router.
//! Rows are numbered when a router is lost, and stay so until a row goes by another router.

ghost use Rattle.std.specs.Prelude.{◌≡◌, ◌≤◌, ◌<◌, ◌+◌, ◌%◌, ◌⊎◌, [], true, length, map, slice_set};
ghost use Rattle.std.specs.Prelude.{vec_capacity, vec_len, OnOk, IsOk, IsOkUnless};
ghost use Rattle.at_base.specs.Limits.{max_rows};
ghost use Rattle.at_base.specs.Spans.{AreApart};
ghost use Rattle.rtmp.specs.Indexing as spec;
ghost use Rattle.rtmp.specs.Indexing.{numbers_of};
ghost use Rattle.rtmp.specs.Routes.{IsRouteMap, poisoned};

use crate::row::Row;
use crate::update::{Update, update_all, updated_row};
use at_base::limits::MAX_ROWS;
use at_base::{Addr, Error, index_at, numbers_between, put_number};

/// The least number that a row through this router can have; the next router's is 65,536 more.
fn first_number(next: Addr) -> u64
    ensures value { result ≡ spec.first_number next }
    ensures small { result ≤ 1099511562240 }
{
    (u64::from(next.net) * 256 + u64::from(next.node)) * 65536
}

/// The number of a row: its next router, then the first network of its range.
fn number_of(row: &Row) -> u64
    ensures { result ≡ spec.number_of row.now }
{
    first_number(row.next) + u64::from(row.range.start())
}

/// Whether two rows have the same number.
fn are_numbered_alike(one: &Row, other: &Row) -> bool
    ensures { result ≡ true → spec.number_of one.now ≡ spec.number_of other.now }
{
    one.next == other.next && one.range.start() == other.range.start()
}

/// Puts the number of each row into the vector, which is empty and has room for them.
fn number_all(rows: &[Row], numbers: &mut Vec<u64>)
    requires none { numbers.old.items ≡ [] }
    requires room { length rows.now ≤ vec_capacity numbers.old }
    ensures numbered { numbers.new.items ≡ numbers_of rows.now }
    ensures room { vec_capacity numbers.new ≡ vec_capacity numbers.old }
{
    for row in rows {
        put_number(numbers, number_of(row));
    }
}

/// Numbers the rows, if they aren't numbered. Allocates nothing.
pub(crate) fn renew(rows: &[Row], numbers: &mut Vec<u64>)
    requires indexed { (numbers.old.items ≡ []) ⊎ (numbers.old.items ≡ numbers_of rows.now) }
    requires room { length rows.now ≤ vec_capacity numbers.old }
    ensures numbered { numbers.new.items ≡ numbers_of rows.now }
    ensures room { vec_capacity numbers.new ≡ vec_capacity numbers.old }
{
    if numbers.is_empty() {
        number_all(rows, numbers);
    }
}

/// Makes room for a row and its number; the rows aren't numbered then. Error: `Memory`.
pub(crate) fn make_room(rows: &mut Vec<Row>, numbers: &mut Vec<u64>) -> Result<(), Error>
    ensures rows { rows.new.items ≡ rows.old.items }
    ensures numbers { numbers.new.items ≡ [] }
    ensures room { OnOk result (vec_len rows.new < vec_capacity rows.new) }
    ensures place { OnOk result (length rows.new.items + 1 ≤ vec_capacity numbers.new) }
    ensures kept { (vec_capacity rows.old ≤ vec_capacity rows.new)
        × (vec_capacity numbers.old ≤ vec_capacity numbers.new) }
    ensures needed { length rows.old.items < vec_capacity rows.old
        → length rows.old.items < vec_capacity numbers.old → IsOk result }
    ensures refused { IsOkUnless result Error.Memory }
{
    numbers.clear();
    rows.reserve(1)?;
    numbers.reserve(rows.as_slice().len() + 1)?;
    Ok(())
}

/// Makes room for as many rows as a table may have, and for their numbers; the rows aren't numbered
/// then. Error: `Memory`.
pub(crate) fn make_all_room(rows: &mut Vec<Row>, numbers: &mut Vec<u64>) -> Result<(), Error>
    requires { length rows.old.items ≤ max_rows }
    ensures rows { rows.new.items ≡ rows.old.items }
    ensures numbers { numbers.new.items ≡ [] }
    ensures room { OnOk result
        ((max_rows ≤ vec_capacity rows.new) × (max_rows ≤ vec_capacity numbers.new)) }
    ensures kept { vec_capacity numbers.old ≤ vec_capacity numbers.new }
    ensures refused { IsOkUnless result Error.Memory }
{
    numbers.clear();
    rows.reserve_exact(MAX_ROWS - rows.as_slice().len())?;
    numbers.reserve_exact(MAX_ROWS)?;
    Ok(())
}

/// Replaces the row at a place. The rows aren't numbered any more if it has another number.
pub(crate) fn replace_row(rows: &mut Vec<Row>, numbers: &mut Vec<u64>, place: usize, row: Row)
    requires indexed { (numbers.old.items ≡ []) ⊎ (numbers.old.items ≡ numbers_of rows.old.items) }
    requires inside { place < length rows.old.items }
    ensures rows { rows.new.items ≡ slice_set rows.old.items place row }
    ensures indexed { (numbers.new.items ≡ []) ⊎ (numbers.new.items ≡ numbers_of rows.new.items) }
    ensures room { (vec_capacity rows.new ≡ vec_capacity rows.old)
        × (vec_capacity numbers.new ≡ vec_capacity numbers.old) }
{
    if !are_numbered_alike(&rows[place], &row) {
        numbers.clear();
    }
    rows[place] = row;
}

/// The row that this number names becomes bad if it goes through this router.
fn spoil_row(rows: &mut Vec<Row>, number: u64, next: Addr)
    requires { AreApart (λ r. r.range) 0 rows.old.items }
    ensures { rows.new.items ≡ map (spec.spoiled_row next (number % 65536)) rows.old.items }
{
    // A number is a multiple of 65,536 and the first network of a range.
    let net = (number % 65536) as u16;
    match index_at(rows.as_slice(), net) {
        Some(place) => rows[place] = updated_row(&Update::Poison(next), &rows[place]),
        None => {}
    }
}

/// The rows that these numbers name become bad if they go through this router.
fn spoil_rows(rows: &mut Vec<Row>, numbers: &[u64], next: Addr)
    requires { AreApart (λ r. r.range) 0 rows.old.items }
    ensures { rows.new.items ≡ spec.spoiled next numbers.now rows.old.items }
{
    for number in numbers {
        spoil_row(rows, *number, next);
    }
}

/// The rows that go through this router become bad. Rows and their numbers are given.
pub(crate) fn poison_rows(rows: &mut Vec<Row>, numbers: &[u64], next: Addr)
    requires map { IsRouteMap rows.old.items }
    requires numbered { numbers.now ≡ numbers_of rows.old.items }
    ensures { rows.new.items ≡ poisoned next rows.old.items }
{
    let low = first_number(next);
    let lost = numbers_between(numbers, low, low + 65536);
    // To find one row by its number takes as long as to look at sixteen.
    if lost.len() > rows.len() / 16 {
        update_all(rows, &Update::Poison(next));
    } else {
        spoil_rows(rows, lost, next);
    }
}
