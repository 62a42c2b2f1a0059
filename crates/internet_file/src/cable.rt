//! Cables.

ghost use Rattle.std.specs.Prelude.{◌≡◌, IfOk, IsOkUnless, is_some};
ghost use Rattle.toml.specs.View.{table_view};
ghost use Rattle.internet_file.specs.Cables as cables_spec;
ghost use Rattle.internet_file.specs.Cables.{cable_of};
ghost use Rattle.file_entries.specs.Entries.{at};
ghost use Rattle.file_entries.specs.Faults.{noted, spot};
ghost use Rattle.file_entries.specs.Values as values_spec;

use at_base::limits::MAX_ZONES;
use at_base::{Error, Listed, Name, Range};
use file_entries::entries::{Reader, all_values};
use file_entries::fields::range_at;
use file_entries::key::{list_here, only, table, value_at};
use file_entries::value::zone;
use file_entries::{Faults, Place};
use std::alloc::Global;
use toml::{Table, Value};

/// A cable.
#[derive(Debug, Drop)]
pub struct Cable {
    /// The networks of the cable.
    pub range: Range,
    /// The names of its zones, 1 to 255; the first is the default zone.
    pub zones: Listed<Name>,
}

/// The range of all networks.
pub(crate) fn any_range() -> Range {
    match Range::new(1, 0xFEFF) {
        Ok(range) => range,
        Err(_) => unreachable!(),
    }
}

/// Whether this stands for an invalid cable.
pub(crate) fn is_unknown(cable: &Cable) -> bool {
    cable.zones.is_empty()
}

/// Reads the names of zones.
#[derive(Clone, Copy)]
struct Zones;

impl Reader for Zones {
    type Entry = Name;

    ghost meaning = { λ _ _ d. values_spec.zone d };

    fn read_one(
        &self,
        _alloc: Global,
        place: &Place,
        _number: usize,
        value: &Value,
        faults: &mut Faults,
    ) -> Result<Option<Name>, Error> {
        Ok(faults.take_here(place, zone(value)))
    }
}

/// The 1 to 255 names of zones at the key. Error: `Memory`.
fn zones_at(
    alloc: Global,
    place: &Place,
    table: &Table,
    key: &str,
    faults: &mut Faults,
) -> Result<Option<Listed<Name>>, Error>
    ensures read { IfOk result (λ x. x ≡ at key.now cables_spec.zones (table_view table.now)) }
    ensures told { IfOk result (λ x. faults.new ≡ noted (spot place.now) (is_some x) faults.old) }
    ensures refused { IsOkUnless result Error.Memory }
{
    let Some(value) = value_at(place, table, key, faults) else {
        return Ok(None);
    };
    let place = place.at(key);
    match list_here(&place, 1, MAX_ZONES, value, faults) {
        Some(values) => all_values(alloc, &Zones, &place, values, faults),
        None => Ok(None),
    }
}

/// Reads cables.
#[derive(Clone, Copy)]
pub(crate) struct Cables;

impl Reader for Cables {
    type Entry = Cable;

    ghost meaning = { λ _ _ d. cable_of d };

    fn read_one(
        &self,
        alloc: Global,
        place: &Place,
        _number: usize,
        value: &Value,
        faults: &mut Faults,
    ) -> Result<Option<Cable>, Error> {
        let Some(table) = table(place, value, faults) else {
            return Ok(None);
        };
        let only = only(&["range", "zones"], place, table, faults);
        let range = faults.take(place, "range", range_at(table, "range"));
        let zones = zones_at(alloc, place, table, "zones", faults)?;
        match (only, range, zones) {
            (true, Some(range), Some(zones)) => Ok(Some(Cable { range, zones })),
            _ => Ok(None),
        }
    }

    // Stations may try any address there; no valid cable has no zone.
    fn stand_in(&self, alloc: Global) -> Result<Option<Cable>, Error> {
        Ok(Some(Cable {
            range: any_range(),
            zones: Listed::empty(alloc),
        }))
    }
}
