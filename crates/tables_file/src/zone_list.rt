//! Zone lists of routers.

ghost use Rattle.std.specs.Prelude.{◌≡◌, ◌++◌, ◌&&◌, Some, IfOk, IsOkUnless, OnOk, is_some};
ghost use Rattle.text.specs.Words.{given};
ghost use Rattle.file_entries.specs.Faults.{noted, spot};
ghost use Rattle.toml.specs.View.{table_view, view};
ghost use Rattle.tables_file.specs.Routers as spec;
ghost use Rattle.tables_file.specs.Routers.{list_for, list_of, lists_from};

use crate::cable::zones_at;
use crate::field::{ends_at, flag_or_true};
use crate::rising::rising;
use at_base::limits::MAX_LISTS;
use at_base::{Error, Name};
use file_entries::entries::{Reader, few};
use file_entries::key::{get, only, table};
use file_entries::value::list;
use file_entries::{Faults, Place, Rising};
use std::alloc::Global;
use table_image::{Cable, Listed, Version, ZoneList};
use toml::{Table, Value};

/// The zone list with these parts.
fn list_with(
    range: Option<(u16, u16)>,
    complete: Option<bool>,
    zones: Option<Listed<Name>>,
) -> Option<ZoneList>
    ensures value { result ≡ given range (λ r. given complete (λ c. given zones (λ z.
        Some (record { start = r.0; end = r.1; complete = c; zones = z })))) }
    ensures some { is_some result ≡ (is_some range && is_some complete && is_some zones) }
{
    let (start, end) = range?;
    Some(ZoneList {
        start,
        end,
        complete: complete?,
        zones: zones?,
    })
}

/// Reads zone lists of an image of this version.
#[derive(Clone, Copy)]
struct ZoneLists {
    version: Version,
}

#[tactic(auto, using(file_entries::proofs::Notes::noted_again, file_entries::proofs::Notes::noted_both))]
impl Reader for ZoneLists {
    type Entry = ZoneList;

    ghost meaning = { λ r _ d. list_of r.version d };

    fn read_one(
        &self,
        alloc: Global,
        place: &Place,
        _number: usize,
        value: &Value,
        faults: &mut Faults,
    ) -> Result<Option<ZoneList>, Error> {
        let Some(table) = table(place, value, faults) else {
            return Ok(None);
        };
        let only = only(&["range", "complete", "zones"], place, table, faults);
        let range = faults.take(place, "range", ends_at(table, "range"));
        let complete = faults.take(place, "complete", flag_or_true(table, "complete"));
        let zones = zones_at(alloc, self.version, place, table, "zones", faults)?;
        if !only {
            return Ok(None);
        }
        Ok(list_with(range, complete, zones))
    }
}

/// The same names, shared where they can be, else copied. Error: `Memory`.
fn names_again(alloc: Global, names: &Listed<Name>) -> Result<Listed<Name>, Error>
    ensures same { IfOk result (λ x. x ≡ names.now) }
    ensures refused { IsOkUnless result Error.Memory }
{
    match names.again() {
        Some(names) => Ok(names),
        None => Ok(Listed::from_vec(Vec::from_slice(alloc, names.as_slice())?)),
    }
}

/// The complete zone list of a cable. Error: `Memory`.
fn list_of_cable(alloc: Global, cable: &Cable) -> Result<ZoneList, Error>
    ensures made { IfOk result (λ x. x ≡ list_for cable.now) }
    ensures refused { IsOkUnless result Error.Memory }
{
    let zones = names_again(alloc, &cable.zones)?;
    Ok(ZoneList {
        start: cable.start,
        end: cable.end,
        complete: true,
        zones,
    })
}

/// Appends the zone lists of the cables whose first networks are at least `low` and above those
/// before. Error: `Memory`.
fn put_lists(lists: &mut Vec<ZoneList>, low: u32, cables: &[Cable]) -> Result<(), Error>
    ensures put { OnOk result (lists.new.items ≡ lists.old.items ++ lists_from low cables.now) }
    ensures refused { IsOkUnless result Error.Memory }
{
    match cables {
        [] => Ok(()),
        [first, rest @ ..] => {
            if u32::from(first.start) < low {
                return put_lists(lists, low, rest);
            }
            let list = list_of_cable(*lists.allocator(), first)?;
            lists.push(list)?;
            put_lists(lists, u32::from(first.start) + 1, rest)
        }
    }
}

/// The zone lists of the cables. Error: `Memory`.
fn lists_of_cables(alloc: Global, cables: &[Cable]) -> Result<Listed<ZoneList>, Error>
    ensures made { IfOk result (λ x. x ≡ lists_from 0 cables.now) }
    ensures refused { IsOkUnless result Error.Memory }
{
    let mut lists = Vec::with_capacity(alloc, cables.len())?;
    put_lists(&mut lists, 0, cables)?;
    Ok(Listed::from_vec(lists))
}

/// The zone lists of a list. Error: `Memory`.
fn lists_in(
    alloc: Global,
    version: Version,
    place: &Place,
    value: &Value,
    faults: &mut Faults,
) -> Result<Option<Listed<ZoneList>>, Error>
    ensures read { IfOk result (λ x. x ≡ spec.listed version (view value.now)) }
    ensures told { IfOk result (λ x. faults.new ≡ noted (spot place.now) (is_some x) faults.old) }
    ensures refused { IsOkUnless result Error.Memory }
{
    let values = match list(value) {
        Ok(values) => values,
        Err(why) => {
            faults.note(place, why);
            return Ok(None);
        }
    };
    match few(
        alloc,
        MAX_LISTS,
        &ZoneLists { version },
        place,
        values,
        faults,
    )? {
        Some(lists) => Ok(rising(lists, place, Rising::Range, faults)),
        None => Ok(None),
    }
}

/// The zone lists in an entry of a router, or those of the cables where the entry has none. Error:
/// `Memory`.
pub(crate) fn lists_at(
    alloc: Global,
    version: Version,
    cables: &[Cable],
    place: &Place,
    table: &Table,
    faults: &mut Faults,
) -> Result<Option<Listed<ZoneList>>, Error>
    ensures read { IfOk result (λ x. x ≡ spec.lists version cables.now (table_view table.now)) }
    ensures told { IfOk result (λ x. faults.new ≡ noted (spot place.now) (is_some x) faults.old) }
    ensures refused { IsOkUnless result Error.Memory }
{
    match get(table, "list") {
        Some(value) => lists_in(alloc, version, &place.at("list"), value, faults),
        None => Ok(Some(lists_of_cables(alloc, cables)?)),
    }
}
