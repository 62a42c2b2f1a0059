//! Rows of routing tables.

ghost use Rattle.std.specs.Prelude.{◌≡◌, IfOk, IsOkUnless, is_some};
ghost use Rattle.toml.specs.View.{table_view};
ghost use Rattle.file_entries.specs.Faults.{noted, spot};
ghost use Rattle.tables_file.specs.Routers as spec;
ghost use Rattle.tables_file.specs.Routers.{row_of};

use crate::field::{ends_at, place_at, state_or_good};
use crate::rising::rising;
use at_base::limits::MAX_ROWS;
use at_base::{Addr, Error};
use file_entries::entries::{Reader, few_at};
use file_entries::fields::{address_or, number_at};
use file_entries::key::{only, table};
use file_entries::{Faults, Place, Rising};
use std::alloc::Global;
use table_image::{Listed, Row};
use toml::{Table, Value};

/// The greatest distance of a row of an image, in routers.
const MAX_DISTANCE: u32 = 31;

/// Reads rows of a router with so many ports.
#[derive(Clone, Copy)]
struct Rows {
    ports: usize,
}

#[tactic(auto, using(file_entries::proofs::Notes::noted_again))]
impl Reader for Rows {
    type Entry = Row;

    ghost meaning = { λ r _ d. row_of r.ports d };

    fn read_one(
        &self,
        _alloc: Global,
        place: &Place,
        _number: usize,
        value: &Value,
        faults: &mut Faults,
    ) -> Result<Option<Row>, Error> {
        let Some(table) = table(place, value, faults) else {
            return Ok(None);
        };
        let named = ["range", "distance", "port", "next", "state"];
        let only = only(&named, place, table, faults);
        let range = faults.take(place, "range", ends_at(table, "range"));
        let far = number_at(table, "distance", 0, MAX_DISTANCE);
        let distance = faults.take(place, "distance", far);
        let port = faults.take(place, "port", place_at(table, "port", self.ports));
        let next = faults.take(place, "next", address_or(table, "next", Addr::NONE));
        let state = faults.take(place, "state", state_or_good(table, "state"));
        match (only, range, distance, port, next, state) {
            (true, Some((start, end)), Some(distance), Some(port), Some(next), Some(state)) => {
                Ok(Some(Row {
                    start,
                    end,
                    distance: distance as u8,
                    port,
                    next,
                    state,
                }))
            }
            _ => Ok(None),
        }
    }
}

/// The rows in an entry of a router with so many ports. Error: `Memory`.
pub(crate) fn rows_at(
    alloc: Global,
    ports: usize,
    place: &Place,
    table: &Table,
    faults: &mut Faults,
) -> Result<Option<Listed<Row>>, Error>
    ensures read { IfOk result (λ x. x ≡ spec.rows ports (table_view table.now)) }
    ensures told { IfOk result (λ x. faults.new ≡ noted (spot place.now) (is_some x) faults.old) }
    ensures refused { IsOkUnless result Error.Memory }
{
    match few_at(
        alloc,
        MAX_ROWS,
        &Rows { ports },
        place,
        table,
        "row",
        faults,
    )? {
        Some(rows) => Ok(rising(rows, &place.at("row"), Rising::Range, faults)),
        None => Ok(None),
    }
}
