//! The interface of a routing table.

ghost use Rattle.std.specs.Prelude.{◌≡◌, ◌≢◌, ◌≤◌, ◌<◌, ◌⊎◌, ◌↔◌, [], true, false, length};
ghost use Rattle.std.specs.Prelude.{slice_get, nat_le};
ghost use Rattle.std.specs.Prelude.{IfOk, IfErr, OnOk, OnErr, IsOk, IsTrue, IsOkUnless};
ghost use Rattle.std.specs.List.{list_all};
ghost use Rattle.rtmp.specs.Routes as spec;
ghost use Rattle.rtmp.specs.Routes.{IsRouteMap, aged, are_apart, beside, directed, heard, poisoned};
ghost use Rattle.rtmp.specs.declared.table.Change.TheVariants.{Added};
ghost use Rattle.at_base.specs.Limits.{max_rows};

use crate::row::Row;
use at_base::{Addr, Error, Range};
use std::alloc::Global;

/// The greatest distance, in routers from the sender, at which a router accepts a range from
/// another router.
pub const MAX_DISTANCE: u8 = 14;

/// The change that a table made for a range it heard of.
#[derive(Clone, Copy, Debug, PartialEq, Eq)]
pub enum Change {
    /// Nothing.
    Ignored,
    /// The row of the range was rewritten; it may be equal to the old one.
    Changed,
    /// A row for the range was added.
    Added,
}

/// A routing table: a finite map from disjoint ranges to rows.
///
/// Inside AppleTalk, the chapter on RTMP.
pub trait RouteTable: Drop {
    ghost use Rattle.std.specs.Prelude.{Bool, List};
    ghost use Rattle.rtmp.specs.declared.row.Row.{Row as RowValue};

    // The rows of the map, by rising range.
    ghost rows: { Self → List RowValue };

    // There is room for `MAX_ROWS` rows.
    ghost has_room: { Self → Bool };

    /// A table without rows. Error: `Memory`.
    fn empty(alloc: Global) -> Result<Self, Error>
        ensures ok { IfOk result (λ table. rows table ≡ []) }
        ensures refused { IsOkUnless result Error.Memory };

    /// A copy of the table. Error: `Memory`.
    fn copy(&self) -> Result<Self, Error>
        ensures ok { IfOk result (λ table. rows table ≡ rows self.now) }
        ensures refused { IsOkUnless result Error.Memory };

    /// The number of rows, at most `MAX_ROWS`. Allocates nothing.
    fn len(&self) -> usize
        ensures value { result ≡ length (rows self.now) }
        ensures map { IsRouteMap (rows self.now) };

    /// The row at an index, by rising range. Allocates nothing.
    fn row(&self, index: usize) -> Option<Row>
        ensures value { result ≡ slice_get (rows self.now) index }
        ensures map { IsRouteMap (rows self.now) };

    /// The usable row whose range contains the network, if any. Allocates nothing.
    fn row_for(&self, net: u16) -> Option<Row>
        ensures value { result ≡ spec.row_for net (rows self.now) }
        ensures map { IsRouteMap (rows self.now) };

    /// Whether a range without a row is added when it is heard of at a distance. Allocates nothing.
    fn is_new(&self, range: Range, distance: u8) -> bool
        ensures { result ≡ spec.is_new range distance (rows self.now) };

    /// Whether there is room for `MAX_ROWS` rows. Allocates nothing.
    fn has_room(&self) -> bool
        ensures value { result ≡ has_room self.now }
        ensures full { max_rows ≤ length (rows self.now) → result ≡ true };

    /// Makes room for `MAX_ROWS` rows. The rows don't change. Error: `Memory`.
    fn make_room(&mut self) -> Result<(), Error>
        ensures ok { OnOk result (has_room self.new ≡ true) }
        ensures refused { IsOkUnless result Error.Memory }
        ensures same { rows self.new ≡ rows self.old };

    /// Replaces the table's rows with these. The caller ensures that distances are at most 31.
    ///
    /// Errors: `BadRange` where the ranges aren't rising and disjoint; `Full` above `MAX_ROWS`;
    /// `Memory`. A refusal changes nothing.
    fn load(&mut self, given: &[Row]) -> Result<(), Error>
        requires near { IsTrue (list_all (λ r. nat_le r.distance 31) given.now) }
        ensures ok { OnOk result (rows self.new ≡ given.now) }
        ensures range { (result ≡ Err Error.BadRange) ↔ (are_apart given.now ≡ false) }
        ensures full { (result ≡ Err Error.Full)
            ↔ ((are_apart given.now ≡ true) × (max_rows < length given.now)) }
        ensures refused { IfErr result
            (λ e. (e ≡ Error.BadRange) ⊎ (e ≡ Error.Full) ⊎ (e ≡ Error.Memory)) }
        ensures unchanged { OnErr result (rows self.new ≡ rows self.old) };

    /// Adds the range of a port's own cable, at distance 0. Rows that overlap the range are
    /// removed.
    ///
    /// Errors: `Full` where `MAX_ROWS` rows don't overlap it; `Memory`. A refusal changes nothing.
    fn direct(&mut self, range: Range, port: u8) -> Result<(), Error>
        ensures ok { OnOk result (rows self.new ≡ directed range port (rows self.old)) }
        ensures full { (result ≡ Err Error.Full)
            ↔ (max_rows ≤ length (beside range (rows self.old))) }
        ensures refused { IfErr result (λ e. (e ≡ Error.Full) ⊎ (e ≡ Error.Memory)) }
        ensures unchanged { OnErr result (rows self.new ≡ rows self.old) };

    /// Handles a tuple heard on a port: router `source` is at `distance` from a range.
    ///
    /// Errors, both only where the range is new: `Full` where the table has `MAX_ROWS` rows;
    /// `Memory`, where room for them wasn't made before. A refusal changes nothing.
    fn hear(&mut self, range: Range, distance: u8, source: Addr, port: u8) -> Result<Change, Error>
        ensures ok { IfOk result
            (λ change. (rows self.new, change) ≡ heard range distance source port (rows self.old)) }
        ensures full { (result ≡ Err Error.Full)
            ↔ (((heard range distance source port (rows self.old)).1 ≡ Added)
            × (max_rows ≤ length (rows self.old))) }
        ensures stays { (heard range distance source port (rows self.old)).1 ≢ Added → IsOk result }
        ensures refused { IfErr result
            (λ e. (e ≡ Error.Full) ⊎ ((e ≡ Error.Memory) × (has_room self.old ≡ false))) }
        ensures unchanged { OnErr result (rows self.new ≡ rows self.old) }
        ensures room { has_room self.old ≡ true → has_room self.new ≡ true };

    /// Ages the table by one period: rows in their last state are removed, and the others, except
    /// direct rows, get the next state. Allocates nothing.
    fn age(&mut self)
        ensures { rows self.new ≡ aged (rows self.old) };

    /// Handles the loss of a router: the rows that go through it become bad. Allocates nothing.
    fn poison(&mut self, next: Addr)
        ensures { rows self.new ≡ poisoned next (rows self.old) };
}
