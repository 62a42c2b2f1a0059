//! A routing table as a vector of rows that every call goes through: the definition of a table, as
//! a program.

ghost use Rattle.std.specs.Prelude.{◌≡◌, ◌≤◌, ◌<◌, nat_le, true};
ghost use Rattle.std.specs.Prelude.{IfErr, IfOk, vec_capacity, vec_len};
ghost use Rattle.std.specs.List.{list_any, position};
ghost use Rattle.std.specs.Option.{option_copied};
ghost use Rattle.at_base.specs.Range.{overlaps, same_range};
ghost use Rattle.at_base.specs.Spans.{AreApart, IsAt, IsBefore};
ghost use Rattle.rtmp.specs.Routes as spec;
ghost use Rattle.rtmp.specs.Routes.{with_row};

use crate::removal::{Removal, remove_rows};
use crate::row::Row;
use crate::rows::{after_hearing, count_beside, direct_row, heard_row, rows_are_apart};
use crate::table::{Change, MAX_DISTANCE, RouteTable};
use crate::update::{Update, update_all};
use at_base::limits::MAX_ROWS;
use at_base::{Addr, Error, Range, recall_valid};
use std::alloc::Global;
use std::marker::Model;

/// A routing table as a vector of rows, by rising range.
#[derive(Debug, Drop)]
pub struct PlainTable {
    rows: Vec<Row>,
}

impl Model for PlainTable {
    ghost use Rattle.std.specs.Prelude.{nat_le, vec_capacity};
    ghost use Rattle.at_base.specs.Limits.{max_rows};
    ghost use Rattle.rtmp.specs.Routes.{IsRouteMap, Tabled};

    ghost Value = { Tabled };

    ghost view = { λ t. record {
      rows = t.rows.items;
      has_room = nat_le max_rows (vec_capacity t.rows);
    } };

    ghost invariant = { λ t. IsRouteMap t.rows.items };
}

/// The usable row whose range contains the network, if any.
fn usable_row(rows: &[Row], net: u16) -> Option<&Row>
    ensures { option_copied result ≡ spec.row_for net rows.now }
{
    rows.iter()
        .find(|row| row.state.is_usable() && row.range.holds(net))
}

/// The index of the row of a range, if any.
fn index_of(rows: &[Row], range: Range) -> Option<usize>
    ensures { result ≡ position (λ r. same_range r.range range) rows.now }
{
    rows.iter().position(|row| row.range == range)
}

/// The index of the first row that doesn't start below the range, if any.
fn index_from(rows: &[Row], range: Range) -> Option<usize>
    ensures { result ≡ position (λ r. nat_le range.start r.range.start) rows.now }
{
    rows.iter()
        .position(|row| range.start() <= row.range.start())
}

/// The index of the row of a range; or, as an error, the index at which one is to be inserted.
fn place_of(rows: &[Row], range: Range) -> Result<usize, usize>
    requires { AreApart (λ r. r.range) 0 rows.now }
    ensures found { IfOk result (IsAt (λ r. r.range) range rows.now) }
    ensures missing { IfErr result (IsBefore (λ r. r.range) range rows.now) }
{
    match index_of(rows, range) {
        Some(index) => Ok(index),
        None => Err(index_from(rows, range).unwrap_or(rows.len())),
    }
}

/// Puts a row at its place, instead of the one of its range, if any. The vector must have room.
fn put_row(rows: &mut Vec<Row>, row: Row)
    requires map { AreApart (λ r. r.range) 0 rows.old.items }
    requires room { vec_len rows.old < vec_capacity rows.old }
    ensures { rows.new.items ≡ with_row row rows.old.items }
{
    match place_of(rows.as_slice(), row.range) {
        Ok(index) => rows[index] = row,
        Err(index) => rows.insert(index, row).unwrap(),
    }
}

/// Whether the range overlaps that of any row.
fn overlaps_any(rows: &[Row], range: Range) -> bool
    ensures { result ≡ list_any (λ r. overlaps r.range range) rows.now }
{
    rows.iter().any(|row| row.range.overlaps(&range))
}

/// Whether a range without a row is added.
fn is_new(rows: &[Row], range: Range, distance: u8) -> bool
    ensures value { result ≡ spec.is_new range distance rows.now }
    ensures near { result ≡ true → distance ≤ 14 }
{
    distance <= MAX_DISTANCE && !overlaps_any(rows, range)
}

impl RouteTable for PlainTable {
    ghost rows = { λ t. t.rows };

    ghost has_room = { λ t. t.has_room };

    fn empty(alloc: Global) -> Result<PlainTable, Error> {
        Ok(PlainTable {
            rows: Vec::new(alloc),
        })
    }

    fn copy(&self) -> Result<PlainTable, Error> {
        let rows = Vec::from_slice(*self.rows.allocator(), self.rows.as_slice())?;
        Ok(PlainTable { rows })
    }

    fn len(&self) -> usize {
        self.rows.len()
    }

    fn row(&self, index: usize) -> Option<Row> {
        self.rows.get(index).copied()
    }

    fn row_for(&self, net: u16) -> Option<Row> {
        usable_row(self.rows.as_slice(), net).copied()
    }

    fn is_new(&self, range: Range, distance: u8) -> bool {
        is_new(self.rows.as_slice(), range, distance)
    }

    fn has_room(&self) -> bool {
        self.rows.capacity() >= MAX_ROWS
    }

    fn make_room(&mut self) -> Result<(), Error> {
        let more = MAX_ROWS - self.rows.len();
        Ok(self.rows.reserve_exact(more)?)
    }

    fn load(&mut self, given: &[Row]) -> Result<(), Error> {
        if !rows_are_apart(given) {
            return Err(Error::BadRange);
        }
        if given.len() > MAX_ROWS {
            return Err(Error::Full);
        }
        self.rows = Vec::from_slice(*self.rows.allocator(), given)?;
        Ok(())
    }

    fn direct(&mut self, range: Range, port: u8) -> Result<(), Error> {
        if count_beside(self.rows.as_slice(), range) >= MAX_ROWS {
            return Err(Error::Full);
        }
        recall_valid(range);
        // Room is made first, so that a refusal leaves the rows as they are.
        self.rows.reserve(1)?;
        remove_rows(&mut self.rows, &Removal::Overlapping(range));
        put_row(&mut self.rows, direct_row(range, port));
        Ok(())
    }

    fn hear(
        &mut self,
        range: Range,
        distance: u8,
        source: Addr,
        port: u8,
    ) -> Result<Change, Error> {
        match place_of(self.rows.as_slice(), range) {
            Ok(place) => {
                let (row, change) = after_hearing(&self.rows[place], distance, source, port);
                self.rows[place] = row;
                Ok(change)
            }
            Err(place) => {
                if !is_new(self.rows.as_slice(), range, distance) {
                    return Ok(Change::Ignored);
                }
                if self.rows.len() >= MAX_ROWS {
                    return Err(Error::Full);
                }
                recall_valid(range);
                self.rows.reserve(1)?;
                let row = heard_row(range, distance, source, port);
                self.rows.insert(place, row).unwrap();
                Ok(Change::Added)
            }
        }
    }

    fn age(&mut self) {
        remove_rows(&mut self.rows, &Removal::Over);
        update_all(&mut self.rows, &Update::Age);
    }

    fn poison(&mut self, next: Addr) {
        update_all(&mut self.rows, &Update::Poison(next));
    }
}
