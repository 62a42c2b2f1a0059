//! Lists of entries.

ghost use Rattle.std.specs.Prelude.{◌≡◌, ◌<◌, map, take, IfOk, IsOkUnless};
ghost use Rattle.std.specs.Prelude.{ℕ, Option, Some, ◌+◌, false, is_some, min, option_map};
ghost use Rattle.std.specs.Result.{result_ok};
ghost use Rattle.toml.specs.Data.{Data};
ghost use Rattle.toml.specs.View.{table_view, view};
ghost use Rattle.file_entries.specs.Entries as spec;
ghost use Rattle.file_entries.specs.Faults.{blamed, noted, noted_in, outcome, part_outcome};
ghost use Rattle.file_entries.specs.Faults.{spot, spot_of};

use crate::faults::Faults;
use crate::key::list_at;
use crate::place::{Items, Place, number_of};
use crate::why::Why;
use at_base::{Error, Listed, Part};
use std::alloc::Global;
use toml::{Table, Value};

/// Reads items of one kind.
pub trait Reader {
    type Entry: Drop;

    // The meaning of an item with a number, or None if the item is invalid.
    ghost meaning: { Self → ℕ → Data → Option Self.Entry };

    /// Reads the value of the item with this number, counted from 1, at this place, and returns
    /// `None` if it is invalid. Notes each fault in it. Error: `Memory`.
    fn read_one(
        &self,
        alloc: Global,
        place: &Place,
        number: usize,
        value: &Value,
        faults: &mut Faults,
    ) -> Result<Option<Self::Entry>, Error>
        ensures read { IfOk result (λ x. x ≡ meaning self.now number (view value.now)) }
        ensures told { IfOk result (λ x.
            faults.new ≡ noted (spot place.now) (is_some x) faults.old) }
        ensures refused { IsOkUnless result Error.Memory };

    /// What stands for an invalid item while the rest of the file is read for further faults, if
    /// that needs anything. Error: `Memory`.
    fn stand_in(&self, _alloc: Global) -> Result<Option<Self::Entry>, Error>
        ensures { IsOkUnless result Error.Memory }
    {
        Ok(None)
    }
}

/// The items of a list, with the index of the first invalid one.
#[derive(Drop)]
struct ListRead<T> {
    bad: Option<usize>,
    items: Listed<T>,
}

/// The entries of a part, with the number of the first invalid one, from 1.
#[derive(Drop)]
pub struct Found<T> {
    /// The number of the first invalid entry, if there is one.
    pub bad: Option<u32>,
    /// The entries. Where one is invalid, what stands for it, or nothing.
    pub entries: Listed<T>,
}

/// Reads the values after an invalid one for further faults, with what stands for the invalid ones.
/// Error: `Memory`.
fn read_on<R: Reader>(
    alloc: Global,
    reader: &R,
    list: &Place,
    kind: Items,
    before: Vec<R::Entry>,
    values: &[Value],
    faults: &mut Faults,
) -> Result<Listed<R::Entry>, Error>
    ensures kept { IfOk result (λ _. (t : _) → faults.old ≡ Some t → faults.new ≡ Some t) }
    ensures refused { IsOkUnless result Error.Memory }
{
    let mut items = before;
    let mut index = items.len();
    if let Some(item) = reader.stand_in(alloc)? {
        items.push(item)?;
    }
    for value in values {
        index = index.saturating_add(1);
        let place = list.item(kind, index);
        let found = match reader.read_one(alloc, &place, index.saturating_add(1), value, faults)? {
            Some(item) => Some(item),
            None => reader.stand_in(alloc)?,
        };
        if let Some(item) = found {
            items.push(item)?;
        }
    }
    Ok(Listed::from_vec(items))
}

/// Reads each of the values of a list. Error: `Memory`.
fn each<R: Reader>(
    alloc: Global,
    reader: &R,
    list: &Place,
    kind: Items,
    values: &[Value],
    faults: &mut Faults,
) -> Result<ListRead<R::Entry>, Error>
    ensures read { IfOk result (λ x.
        outcome x.bad x.items ≡ spec.each (R.meaning reader.now) (map view values.now)) }
    ensures told { IfOk result (λ x.
        faults.new ≡ noted_in (spot_of kind list.now) x.bad faults.old) }
    ensures refused { IsOkUnless result Error.Memory }
{
    let mut items = Vec::with_capacity(alloc, values.len())?;
    for value in values {
        let index = items.len();
        let place = list.item(kind, index);
        match reader.read_one(alloc, &place, index + 1, value, faults)? {
            Some(item) => items.push(item)?,
            None => {
                let rest = &values[index + 1..];
                let items = read_on(alloc, reader, list, kind, items, rest, faults)?;
                return Ok(ListRead {
                    bad: Some(index),
                    items,
                });
            }
        }
    }
    Ok(ListRead {
        bad: None,
        items: Listed::from_vec(items),
    })
}

/// The items, if none is invalid.
fn all_valid<T: Drop>(found: ListRead<T>) -> Option<Listed<T>>
    ensures { result ≡ result_ok (outcome found.bad found.items) }
{
    match found.bad {
        None => Some(found.items),
        Some(_) => None,
    }
}

/// Reads each of the values at this place, and returns `None` if one is invalid. Error: `Memory`.
pub fn all_values<R: Reader>(
    alloc: Global,
    reader: &R,
    place: &Place,
    values: &[Value],
    faults: &mut Faults,
) -> Result<Option<Listed<R::Entry>>, Error>
    ensures read { IfOk result (λ x.
        x ≡ spec.all_numbered (R.meaning reader.now) (map view values.now)) }
    ensures told { IfOk result (λ x. faults.new ≡ noted (spot place.now) (is_some x) faults.old) }
    ensures refused { IsOkUnless result Error.Memory }
{
    let found = each(alloc, reader, place, Items::Values, values, faults)?;
    Ok(all_valid(found))
}

/// Reads each of the tables at this place, and returns `None` if one is invalid. Error: `Memory`.
pub fn all_tables<R: Reader>(
    alloc: Global,
    reader: &R,
    place: &Place,
    values: &[Value],
    faults: &mut Faults,
) -> Result<Option<Listed<R::Entry>>, Error>
    ensures read { IfOk result (λ x.
        x ≡ spec.all_numbered (R.meaning reader.now) (map view values.now)) }
    ensures told { IfOk result (λ x. faults.new ≡ noted (spot place.now) (is_some x) faults.old) }
    ensures refused { IsOkUnless result Error.Memory }
{
    let found = each(alloc, reader, place, Items::Tables, values, faults)?;
    Ok(all_valid(found))
}

/// Reads each of the tables at this place, and returns `None` if one is invalid or there are more
/// than `limit`. Error: `Memory`.
pub fn few<R: Reader>(
    alloc: Global,
    limit: usize,
    reader: &R,
    place: &Place,
    values: &[Value],
    faults: &mut Faults,
) -> Result<Option<Listed<R::Entry>>, Error>
    ensures read { IfOk result (λ x.
        x ≡ spec.few limit (R.meaning reader.now) (map view values.now)) }
    ensures told { IfOk result (λ x. faults.new ≡ noted (spot place.now) (is_some x) faults.old) }
    ensures refused { IsOkUnless result Error.Memory }
{
    if values.len() <= limit {
        all_tables(alloc, reader, place, values, faults)
    } else {
        let why = Why::Count {
            low: 0,
            high: limit,
        };
        faults.note(place, why);
        Ok(None)
    }
}

/// Reads each table of the list at the key, and returns `None` if one is invalid or there are more
/// than `limit`. An absent key is an empty list. Error: `Memory`.
pub fn few_at<R: Reader>(
    alloc: Global,
    limit: usize,
    reader: &R,
    place: &Place,
    table: &Table,
    key: &str,
    faults: &mut Faults,
) -> Result<Option<Listed<R::Entry>>, Error>
    ensures read { IfOk result (λ x.
        x ≡ spec.few_at limit key.now (R.meaning reader.now) (table_view table.now)) }
    ensures told { IfOk result (λ x. faults.new ≡ noted (spot place.now) (is_some x) faults.old) }
    ensures refused { IsOkUnless result Error.Memory }
{
    let place = place.at(key);
    match list_at(table, key) {
        Ok(values) => few(alloc, limit, reader, &place, values, faults),
        Err(why) => {
            faults.note(&place, why);
            Ok(None)
        }
    }
}

/// The number, from 1, of the entry with this index, if there is one.
fn number_in(index: Option<usize>) -> Option<u32>
    ensures { result ≡ option_map (λ k. min (k + 1) 4294967295) index }
{
    Some(number_of(index?))
}

/// Reads the entries of a part. Error: `Memory`.
pub fn part<R: Reader>(
    alloc: Global,
    part: Part,
    reader: &R,
    values: &[Value],
    faults: &mut Faults,
) -> Result<Found<R::Entry>, Error>
    ensures read { IfOk result (λ x. part_outcome part x.bad x.entries
        ≡ spec.part part (R.meaning reader.now) (map view values.now)) }
    ensures told { IfOk result (λ x. faults.new ≡ blamed part x.bad faults.old) }
    ensures refused { IsOkUnless result Error.Memory }
{
    let place = Place::of(part, 0);
    let found = each(alloc, reader, &place, Items::Entries, values, faults)?;
    Ok(Found {
        bad: number_in(found.bad),
        entries: found.items,
    })
}

/// The first `limit` values, or all if there are fewer.
fn up_to(limit: u32, values: &[Value]) -> &[Value]
    ensures { map view result.now ≡ take limit (map view values.now) }
{
    if values.len() <= limit as usize {
        values
    } else {
        &values[..limit as usize]
    }
}

/// Notes that there are more entries in a part than this limit.
fn note_more(limit: u32, part: Part, faults: &mut Faults)
    requires { limit < 4294967295 }
    ensures { faults.new ≡ noted (part, limit + 1) false faults.old }
{
    let why = Why::Count {
        low: 0,
        high: limit as usize,
    };
    faults.note(&Place::of(part, limit + 1), why);
}

/// Reads the entries of a part with at most `limit` of them; the entry after the limit counts as
/// invalid. Error: `Memory`.
pub fn part_up_to<R: Reader>(
    alloc: Global,
    limit: u32,
    part_name: Part,
    reader: &R,
    values: &[Value],
    faults: &mut Faults,
) -> Result<Found<R::Entry>, Error>
    requires { limit < 4294967295 }
    ensures read { IfOk result (λ x. part_outcome part_name x.bad x.entries
        ≡ spec.part_up_to limit part_name (R.meaning reader.now) (map view values.now)) }
    ensures told { IfOk result (λ x. faults.new ≡ blamed part_name x.bad faults.old) }
    ensures refused { IsOkUnless result Error.Memory }
{
    let found = part(alloc, part_name, reader, up_to(limit, values), faults)?;
    if values.len() <= limit as usize {
        return Ok(found);
    }
    note_more(limit, part_name, faults);
    let Found { bad, entries } = found;
    let bad = match bad {
        Some(number) => Some(number),
        None => Some(limit + 1),
    };
    Ok(Found { bad, entries })
}
