//! The keys of a table and their values.

ghost use Rattle.std.specs.Prelude.{◌≡◌, map, length, Some, None, IfSome, IfNone, IfOk, IfErr};
ghost use Rattle.std.specs.Prelude.{bytes_eq, false, is_some, string_bytes};
ghost use Rattle.std.specs.BTreeMap.{keys as btree_keys};
ghost use Rattle.std.specs.List.{list_all, list_any};
ghost use Rattle.toml.specs.Data.{as_table, get_member};
ghost use Rattle.toml.specs.View.{table_view, view};
ghost use Rattle.file_entries.specs.Entries as spec;
ghost use Rattle.file_entries.specs.Faults.{noted, spot};
ghost use Rattle.file_entries.specs.Values as values_spec;

use crate::faults::Faults;
use crate::place::Place;
use crate::value::{list, list_within};
use crate::why::Why;
use toml::{Table, Value};

/// The value at the key, if the table has the key.
pub fn get<'a>(table: &'a Table, key: &str) -> Option<&'a Value>
    ensures some { IfSome result (λ v.
        get_member key.now (table_view table.now) ≡ Some (view v.now)) }
    ensures none { IfNone result (get_member key.now (table_view table.now) ≡ None) }
{
    match table.get(key) {
        Some(value) => Some(value),
        None => None,
    }
}

/// The value at a key that the table has to have.
pub fn needed<'a>(table: &'a Table, key: &str) -> Result<&'a Value, Why>
    ensures ok { IfOk result (λ v.
        get_member key.now (table_view table.now) ≡ Some (view v.now)) }
    ensures err { IfErr result (λ _. get_member key.now (table_view table.now) ≡ None) }
{
    match get(table, key) {
        Some(value) => Ok(value),
        None => Err(Why::Missing),
    }
}

/// Whether the key is one of these.
fn is_among(key: &str, named: &[&str]) -> bool
    ensures { result ≡ list_any (bytes_eq key.now) (map (λ k. k.now) named.now) }
{
    match named {
        [] => false,
        [first, rest @ ..] => key == *first || is_among(key, rest),
    }
}

/// Whether each key of the table is one of these.
fn are_among(named: &[&str], table: &Table) -> bool
    ensures { result ≡ list_all
        (λ k. list_any (bytes_eq (string_bytes k)) (map (λ n. n.now) named.now))
        (btree_keys table.now) }
{
    table.keys().all(|key| is_among(key.as_str(), named))
}

/// Whether the table has only these keys.
pub fn has_only(named: &[&str], table: &Table) -> bool
    ensures { result ≡ spec.has_only (map (λ k. k.now) named.now) (table_view table.now) }
{
    are_among(named, table)
}

/// Notes each key of the table that isn't one of these, of which there is one.
fn note_strange(named: &[&str], place: &Place, table: &Table, faults: &mut Faults)
    ensures { faults.new ≡ noted (spot place.now) false faults.old }
{
    for key in table.keys() {
        if !is_among(key.as_str(), named) {
            faults.note(&place.at(key.as_str()), Why::Unknown);
        }
    }
    faults.note_first(place, Why::Unknown);
}

/// Whether the table has only these keys. Notes each other key.
pub fn only(named: &[&str], place: &Place, table: &Table, faults: &mut Faults) -> bool
    ensures value { result ≡ spec.has_only (map (λ k. k.now) named.now) (table_view table.now) }
    ensures told { faults.new ≡ noted (spot place.now) result faults.old }
{
    let only = has_only(named, table);
    if !only {
        note_strange(named, place, table, faults);
    }
    only
}

/// The value as a table. Notes a fault if it isn't one.
pub fn table<'a>(place: &Place, value: &'a Value, faults: &mut Faults) -> Option<&'a Table>
    ensures some { IfSome result (λ t. as_table (view value.now) ≡ Some (table_view t.now)) }
    ensures none { IfNone result (as_table (view value.now) ≡ None) }
    ensures told { faults.new ≡ noted (spot place.now) (is_some result) faults.old }
{
    match value.as_table() {
        Some(table) => Some(table),
        None => {
            faults.note(place, Why::NoTable);
            None
        }
    }
}

/// The values of the list at a key. An absent key is an empty list.
pub fn list_at<'a>(table: &'a Table, key: &str) -> Result<&'a [Value], Why>
    ensures ok { IfOk result (λ vs.
        spec.list_at key.now (table_view table.now) ≡ Some (map view vs.now)) }
    ensures err { IfErr result (λ _. spec.list_at key.now (table_view table.now) ≡ None) }
{
    match get(table, key) {
        Some(value) => list(value),
        None => Ok(&[]),
    }
}

/// The value at a key. Notes a fault if the table doesn't have the key.
pub fn value_at<'a>(
    place: &Place,
    table: &'a Table,
    key: &str,
    faults: &mut Faults,
) -> Option<&'a Value>
    ensures some { IfSome result (λ v.
        get_member key.now (table_view table.now) ≡ Some (view v.now)) }
    ensures none { IfNone result (get_member key.now (table_view table.now) ≡ None) }
    ensures told { faults.new ≡ noted (spot place.now) (is_some result) faults.old }
{
    match get(table, key) {
        Some(value) => Some(value),
        None => {
            faults.note(&place.at(key), Why::Missing);
            None
        }
    }
}

/// The values of a list that is here, of which there are at least `low` and at most `high`. Notes a
/// fault if there is no such list.
pub fn list_here<'a>(
    place: &Place,
    low: usize,
    high: usize,
    value: &'a Value,
    faults: &mut Faults,
) -> Option<&'a [Value]>
    ensures some { IfSome result (λ vs.
        values_spec.list_within low high (view value.now) ≡ Some (map view vs.now)) }
    ensures none { IfNone result (values_spec.list_within low high (view value.now) ≡ None) }
    ensures told { faults.new ≡ noted (spot place.now) (is_some result) faults.old }
{
    match list_within(low, high, value) {
        Ok(values) => Some(values),
        Err(why) => {
            faults.note(place, why);
            None
        }
    }
}

/// Whether the value at the key is a list, or the key is absent. Notes a fault if it is neither.
pub fn is_listed(place: &Place, table: &Table, key: &str, faults: &mut Faults) -> bool
    ensures value { result ≡ spec.is_listed key.now (table_view table.now) }
    ensures told { faults.new ≡ noted (spot place.now) result faults.old }
{
    match list_at(table, key) {
        Ok(_) => true,
        Err(why) => {
            faults.note(&place.at(key), why);
            false
        }
    }
}

/// The entries at a key of the top level.
pub fn entries_at<'a>(table: &'a Table, key: &str) -> &'a [Value]
    ensures { map view result.now ≡ spec.entries_at key.now (table_view table.now) }
{
    match list_at(table, key) {
        Ok(values) => values,
        Err(_) => &[],
    }
}
