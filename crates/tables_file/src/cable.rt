//! Cables, and lists of zones.

ghost use Rattle.std.specs.Prelude.{◌≡◌, IfOk, IsOkUnless, is_some};
ghost use Rattle.file_entries.specs.Entries.{at};
ghost use Rattle.file_entries.specs.Faults.{noted, spot};
ghost use Rattle.toml.specs.View.{table_view, view};
ghost use Rattle.tables_file.specs.Cables as cables_spec;
ghost use Rattle.tables_file.specs.Cables.{cable_of};
ghost use Rattle.tables_file.specs.Values as values_spec;

use crate::field::ends_at;
use crate::value::zone;
use at_base::{Error, Name};
use file_entries::entries::{Reader, all_values};
use file_entries::key::{list_here, only, table, value_at};
use file_entries::{Faults, Place};
use std::alloc::Global;
use table_image::{Cable, Listed, Version};
use toml::{Table, Value};

/// Reads the names of zones.
#[derive(Clone, Copy)]
struct ZoneNames;

impl Reader for ZoneNames {
    type Entry = Name;

    ghost meaning = { λ _ _ d. values_spec.zone d };

    fn read_one(
        &self,
        alloc: Global,
        place: &Place,
        _number: usize,
        value: &Value,
        faults: &mut Faults,
    ) -> Result<Option<Name>, Error> {
        Ok(faults.take_here(place, zone(alloc, value)?))
    }
}

/// A list of zone names, at most as many as the version allows. Error: `Memory`.
fn zones(
    alloc: Global,
    version: Version,
    place: &Place,
    value: &Value,
    faults: &mut Faults,
) -> Result<Option<Listed<Name>>, Error>
    ensures read { IfOk result (λ x. x ≡ cables_spec.zones version (view value.now)) }
    ensures told { IfOk result (λ x. faults.new ≡ noted (spot place.now) (is_some x) faults.old) }
    ensures refused { IsOkUnless result Error.Memory }
{
    let Some(values) = list_here(place, 0, version.zone_limit(), value, faults) else {
        return Ok(None);
    };
    match all_values(alloc, &ZoneNames, place, values, faults)? {
        Some(names) => Ok(Some(Listed::from_vec(names.into_vec()))),
        None => Ok(None),
    }
}

/// The zone names at the key. Error: `Memory`.
pub(crate) fn zones_at(
    alloc: Global,
    version: Version,
    place: &Place,
    table: &Table,
    key: &str,
    faults: &mut Faults,
) -> Result<Option<Listed<Name>>, Error>
    ensures read { IfOk result (λ x.
        x ≡ at key.now (cables_spec.zones version) (table_view table.now)) }
    ensures told { IfOk result (λ x. faults.new ≡ noted (spot place.now) (is_some x) faults.old) }
    ensures refused { IsOkUnless result Error.Memory }
{
    match value_at(place, table, key, faults) {
        Some(value) => zones(alloc, version, &place.at(key), value, faults),
        None => Ok(None),
    }
}

/// Reads cables of an image of this version.
#[derive(Clone, Copy)]
pub(crate) struct Cables {
    pub(crate) version: Version,
}

impl Reader for Cables {
    type Entry = Cable;

    ghost meaning = { λ r _ d. cable_of r.version d };

    fn read_one(
        &self,
        alloc: Global,
        place: &Place,
        _number: usize,
        value: &Value,
        faults: &mut Faults,
    ) -> Result<Option<Cable>, Error> {
        let Some(table) = table(place, value, faults) else {
            return Ok(None);
        };
        let only = only(&["range", "zones"], place, table, faults);
        let range = faults.take(place, "range", ends_at(table, "range"));
        let zones = zones_at(alloc, self.version, place, table, "zones", faults)?;
        match (only, range, zones) {
            (true, Some((start, end)), Some(zones)) => Ok(Some(Cable { start, end, zones })),
            _ => Ok(None),
        }
    }

    fn stand_in(&self, alloc: Global) -> Result<Option<Cable>, Error> {
        Ok(Some(Cable {
            start: 0,
            end: 0,
            zones: Listed::from_vec(Vec::new(alloc)),
        }))
    }
}
