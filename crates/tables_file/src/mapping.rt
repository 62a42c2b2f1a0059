//! Mappings of ports and nodes.

ghost use Rattle.std.specs.Prelude.{◌≡◌, IfOk, IsOkUnless, is_some};
ghost use Rattle.toml.specs.View.{table_view};
ghost use Rattle.file_entries.specs.Faults.{noted, spot};
ghost use Rattle.tables_file.specs.Routers as spec;
ghost use Rattle.tables_file.specs.Routers.{mapping_of};

use crate::rising::rising;
use at_base::Error;
use file_entries::entries::{Reader, few_at};
use file_entries::fields::{address_at, hardware_at};
use file_entries::key::{only, table};
use file_entries::{Faults, Place, Rising};
use std::alloc::Global;
use table_image::{Listed, Mapping, Version};
use toml::{Table, Value};

/// Reads mappings.
#[derive(Clone, Copy)]
struct Mappings;

impl Reader for Mappings {
    type Entry = Mapping;

    ghost meaning = { λ _ _ d. mapping_of d };

    fn read_one(
        &self,
        _alloc: Global,
        place: &Place,
        _number: usize,
        value: &Value,
        faults: &mut Faults,
    ) -> Result<Option<Mapping>, Error> {
        let Some(table) = table(place, value, faults) else {
            return Ok(None);
        };
        let only = only(&["address", "hardware"], place, table, faults);
        let address = faults.take(place, "address", address_at(table, "address"));
        let hardware = faults.take(place, "hardware", hardware_at(table, "hardware"));
        match (only, address, hardware) {
            (true, Some(address), Some(hardware)) => Ok(Some(Mapping { address, hardware })),
            _ => Ok(None),
        }
    }
}

/// The mappings in an entry of a port or a node. Error: `Memory`.
pub(crate) fn mappings_at(
    alloc: Global,
    version: Version,
    place: &Place,
    table: &Table,
    faults: &mut Faults,
) -> Result<Option<Listed<Mapping>>, Error>
    ensures read { IfOk result (λ x. x ≡ spec.mappings version (table_view table.now)) }
    ensures told { IfOk result (λ x. faults.new ≡ noted (spot place.now) (is_some x) faults.old) }
    ensures refused { IsOkUnless result Error.Memory }
{
    let limit = version.mapping_limit();
    match few_at(alloc, limit, &Mappings, place, table, "mapping", faults)? {
        Some(mappings) => Ok(rising(mappings, &place.at("mapping"), Rising::Address, faults)),
        None => Ok(None),
    }
}
