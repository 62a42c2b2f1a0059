//! A routing table with an index by next router.

ghost use Rattle.std.specs.Prelude.{◌≡◌, ◌≤◌, true};
ghost use Rattle.rtmp.specs.Routes as spec;
ghost use Rattle.rtmp.specs.Routes.{IsRouteMap};

use crate::index::{make_all_room, make_room, poison_rows, renew, replace_row};
use crate::removal::{Removal, remove_rows};
use crate::row::Row;
use crate::rows::{after_hearing, count_beside, direct_row, heard_row, rows_are_apart};
use crate::table::{Change, MAX_DISTANCE, RouteTable};
use crate::update::{Update, update_all};
use at_base::limits::MAX_ROWS;
use at_base::{Addr, Error, Range, item_at, overlaps_any, place_near, put, recall_valid};
use std::alloc::Global;
use std::marker::Model;

/// A routing table as a vector of rows by rising range, with an index by next router. Networks and
/// ranges are found by binary search, and a router's rows by the index.
#[derive(Debug, Drop)]
pub struct IndexedTable {
    rows: Vec<Row>,
    // The numbers of the rows, rising: a row's next router, and then its range. None from when a row
    // comes, goes or goes by another router until a router is lost. There is room for all.
    by_next: Vec<u64>,
    // The index expected for the next range that is heard. It is a hint, and is checked before use.
    near: usize,
}

/// The table that the programs use.
pub type Routes = IndexedTable;

impl Model for IndexedTable {
    ghost use Rattle.std.specs.Prelude.{◌&&◌, nat_le, vec_capacity};
    ghost use Rattle.at_base.specs.Limits.{max_rows};
    ghost use Rattle.rtmp.specs.Indexing.{IsIndexed};
    ghost use Rattle.rtmp.specs.Routes.{Tabled};

    ghost Value = { Tabled };

    ghost view = { λ t. record {
      rows = t.rows.items;
      has_room = nat_le max_rows (vec_capacity t.rows) && nat_le max_rows (vec_capacity t.by_next);
    } };

    ghost invariant = { λ t. IsIndexed t.rows.items t.by_next.items (vec_capacity t.by_next) };
}

/// The usable row whose range contains the network, if any.
fn usable_row(rows: &[Row], net: u16) -> Option<Row>
    requires { IsRouteMap rows.now }
    ensures { result ≡ spec.row_for net rows.now }
{
    let row = match item_at(rows, net).copied() {
        Some(row) => row,
        None => return None,
    };
    if row.state.is_usable() {
        Some(row)
    } else {
        None
    }
}

/// Whether a range without a row is added.
fn is_new(rows: &[Row], range: Range, distance: u8) -> bool
    requires { IsRouteMap rows.now }
    ensures value { result ≡ spec.is_new range distance rows.now }
    ensures near { result ≡ true → distance ≤ 14 }
{
    recall_valid(range);
    distance <= MAX_DISTANCE && !overlaps_any(rows, range)
}

impl RouteTable for IndexedTable {
    ghost rows = { λ t. t.rows };

    ghost has_room = { λ t. t.has_room };

    fn empty(alloc: Global) -> Result<IndexedTable, Error> {
        Ok(IndexedTable {
            rows: Vec::new(alloc),
            by_next: Vec::new(alloc),
            near: 0,
        })
    }

    fn copy(&self) -> Result<IndexedTable, Error> {
        // The copy has room for as many rows.
        let alloc = *self.rows.allocator();
        let mut rows = Vec::with_capacity(alloc, self.rows.capacity())?;
        rows.extend_from_slice(self.rows.as_slice())?;
        let by_next = Vec::with_capacity(alloc, self.by_next.capacity())?;
        Ok(IndexedTable {
            rows,
            by_next,
            near: 0,
        })
    }

    fn len(&self) -> usize {
        self.rows.len()
    }

    fn row(&self, index: usize) -> Option<Row> {
        self.rows.get(index).copied()
    }

    fn row_for(&self, net: u16) -> Option<Row> {
        usable_row(self.rows.as_slice(), net)
    }

    fn is_new(&self, range: Range, distance: u8) -> bool {
        is_new(self.rows.as_slice(), range, distance)
    }

    fn has_room(&self) -> bool {
        self.rows.capacity() >= MAX_ROWS && self.by_next.capacity() >= MAX_ROWS
    }

    fn make_room(&mut self) -> Result<(), Error> {
        make_all_room(&mut self.rows, &mut self.by_next)
    }

    fn load(&mut self, given: &[Row]) -> Result<(), Error> {
        if !rows_are_apart(given) {
            return Err(Error::BadRange);
        }
        if given.len() > MAX_ROWS {
            return Err(Error::Full);
        }
        let rows = Vec::from_slice(*self.rows.allocator(), given)?;
        let by_next = Vec::with_capacity(*self.rows.allocator(), given.len())?;
        self.rows = rows;
        self.by_next = by_next;
        Ok(())
    }

    fn direct(&mut self, range: Range, port: u8) -> Result<(), Error> {
        if count_beside(self.rows.as_slice(), range) >= MAX_ROWS {
            return Err(Error::Full);
        }
        recall_valid(range);
        // Room is made first, so that a refusal leaves the rows as they are.
        make_room(&mut self.rows, &mut self.by_next)?;
        remove_rows(&mut self.rows, &Removal::Overlapping(range));
        put(&mut self.rows, direct_row(range, port));
        Ok(())
    }

    fn hear(
        &mut self,
        range: Range,
        distance: u8,
        source: Addr,
        port: u8,
    ) -> Result<Change, Error> {
        match place_near(self.rows.as_slice(), range, self.near) {
            Ok(place) => {
                self.near = place.wrapping_add(1);
                let (row, change) = after_hearing(&self.rows[place], distance, source, port);
                replace_row(&mut self.rows, &mut self.by_next, place, row);
                Ok(change)
            }
            Err(place) => {
                self.near = place.wrapping_add(1);
                if !is_new(self.rows.as_slice(), range, distance) {
                    return Ok(Change::Ignored);
                }
                if self.rows.len() >= MAX_ROWS {
                    return Err(Error::Full);
                }
                recall_valid(range);
                make_room(&mut self.rows, &mut self.by_next)?;
                let row = heard_row(range, distance, source, port);
                self.rows.insert(place, row).unwrap();
                Ok(Change::Added)
            }
        }
    }

    fn age(&mut self) {
        self.by_next.clear();
        remove_rows(&mut self.rows, &Removal::Over);
        update_all(&mut self.rows, &Update::Age);
    }

    fn poison(&mut self, next: Addr) {
        // The rows without a next router are direct, and stay.
        if next.is_none() {
            return;
        }
        renew(self.rows.as_slice(), &mut self.by_next);
        poison_rows(&mut self.rows, self.by_next.as_slice(), next);
    }
}
