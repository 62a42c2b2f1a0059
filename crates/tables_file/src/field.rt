//! Readers for the value at a key of a table.

ghost use Rattle.std.specs.Prelude.{◌≡◌, IfOk, IsOkUnless, true};
ghost use Rattle.std.specs.Result.{result_ok};
ghost use Rattle.rtmp.specs.declared.state.State.TheVariants.{Good};
ghost use Rattle.file_entries.specs.Entries.{at, at_or};
ghost use Rattle.toml.specs.View.{table_view};
ghost use Rattle.tables_file.specs.Values as spec;

use crate::value::{ends, flag, object, place, state, zone};
use at_base::{Error, Name, Text32};
use file_entries::Why;
use file_entries::key::{get, needed};
use rtmp::State;
use std::alloc::Global;
use toml::Table;

/// The first and the last network of the range at the key.
pub(crate) fn ends_at(table: &Table, key: &str) -> Result<(u16, u16), Why>
    ensures { result_ok result ≡ at key.now spec.ends (table_view table.now) }
{
    ends(needed(table, key)?)
}

/// The index, from 0, at the key, of one of `count` things that the file counts from 1.
pub(crate) fn place_at(table: &Table, key: &str, count: usize) -> Result<u8, Why>
    ensures { result_ok result ≡ at key.now (spec.place count) (table_view table.now) }
{
    place(count, needed(table, key)?)
}

/// The name of a zone at the key. Error: `Memory`.
pub(crate) fn zone_at(alloc: Global, table: &Table, key: &str) -> Result<Result<Name, Why>, Error>
    ensures read { IfOk result (λ x. result_ok x ≡ at key.now spec.zone (table_view table.now)) }
    ensures refused { IsOkUnless result Error.Memory }
{
    match get(table, key) {
        Some(value) => zone(alloc, value),
        None => Ok(Err(Why::Missing)),
    }
}

/// The object or the type at the key. Error: `Memory`.
pub(crate) fn object_at(
    alloc: Global,
    table: &Table,
    key: &str,
) -> Result<Result<Text32, Why>, Error>
    ensures read { IfOk result (λ x. result_ok x ≡ at key.now spec.object (table_view table.now)) }
    ensures refused { IsOkUnless result Error.Memory }
{
    match get(table, key) {
        Some(value) => object(alloc, value),
        None => Ok(Err(Why::Missing)),
    }
}

/// The state at the key, Good where the table doesn't have the key.
pub(crate) fn state_or_good(table: &Table, key: &str) -> Result<State, Why>
    ensures { result_ok result ≡ at_or Good key.now spec.state (table_view table.now) }
{
    match get(table, key) {
        Some(value) => state(value),
        None => Ok(State::Good),
    }
}

/// Whether what the key says holds, which it does where the table doesn't have the key.
pub(crate) fn flag_or_true(table: &Table, key: &str) -> Result<bool, Why>
    ensures { result_ok result ≡ at_or true key.now spec.flag (table_view table.now) }
{
    match get(table, key) {
        Some(value) => flag(value),
        None => Ok(true),
    }
}
