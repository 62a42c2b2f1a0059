//! Readers for the value at a key of a table.

ghost use Rattle.std.specs.Prelude.{◌≡◌, ◌≤◌, IfOk, length};
ghost use Rattle.std.specs.Result.{result_ok};
ghost use Rattle.toml.specs.View.{table_view};
ghost use Rattle.file_entries.specs.Entries.{at, at_or};
ghost use Rattle.file_entries.specs.Values as spec;

use crate::bytes::hardware;
use crate::key::{get, needed};
use crate::value::{any_address, number, one_of, range, short, zone};
use crate::why::Why;
use at_base::{Addr, Hw, Name, Range, Text32};
use toml::Table;

/// The number at the key, if it is an integer from `low` to `high`.
pub fn number_at(table: &Table, key: &str, low: u32, high: u32) -> Result<u32, Why>
    ensures value { result_ok result ≡ at key.now (spec.number low high) (table_view table.now) }
    ensures low { IfOk result (λ n. low ≤ n) }
    ensures high { IfOk result (λ n. n ≤ high) }
{
    number(low, high, needed(table, key)?)
}

/// The byte at the key.
pub fn byte_at(table: &Table, key: &str) -> Result<u8, Why>
    ensures { result_ok result ≡ at key.now (spec.number 0 255) (table_view table.now) }
{
    Ok(number_at(table, key, 0, 255)? as u8)
}

/// The number at the key, counted from 1, of one of the entries.
pub fn one_at<T>(table: &Table, key: &str, entries: &[T]) -> Result<u16, Why>
    ensures value { result_ok result ≡ at key.now (spec.one_of entries.now) (table_view table.now) }
    ensures low { IfOk result (λ k. 1 ≤ k) }
    ensures high { IfOk result (λ k. k ≤ length entries.now) }
{
    one_of(entries, needed(table, key)?)
}

/// The text at the key, of at least `low` and at most 32 bytes.
pub fn short_at(table: &Table, key: &str, low: usize) -> Result<Text32, Why>
    ensures { result_ok result ≡ at key.now (spec.short low) (table_view table.now) }
{
    short(low, needed(table, key)?)
}

/// The name of a zone at the key.
pub fn zone_at(table: &Table, key: &str) -> Result<Name, Why>
    ensures { result_ok result ≡ at key.now spec.zone (table_view table.now) }
{
    zone(needed(table, key)?)
}

/// The address at the key.
pub fn address_at(table: &Table, key: &str) -> Result<Addr, Why>
    ensures { result_ok result ≡ at key.now spec.any_address (table_view table.now) }
{
    any_address(needed(table, key)?)
}

/// The hardware address at the key.
pub fn hardware_at(table: &Table, key: &str) -> Result<Hw, Why>
    ensures { result_ok result ≡ at key.now spec.hardware (table_view table.now) }
{
    hardware(needed(table, key)?)
}

/// The range of networks at the key.
pub fn range_at(table: &Table, key: &str) -> Result<Range, Why>
    ensures { result_ok result ≡ at key.now spec.range (table_view table.now) }
{
    range(needed(table, key)?)
}

/// The address at the key, or another one where the table doesn't have the key.
pub fn address_or(table: &Table, key: &str, other: Addr) -> Result<Addr, Why>
    ensures { result_ok result ≡ at_or other key.now spec.any_address (table_view table.now) }
{
    match get(table, key) {
        Some(value) => any_address(value),
        None => Ok(other),
    }
}

/// The hardware address at the key, or another one where the table doesn't have the key.
pub fn hardware_or(table: &Table, key: &str, other: Hw) -> Result<Hw, Why>
    ensures { result_ok result ≡ at_or other key.now spec.hardware (table_view table.now) }
{
    match get(table, key) {
        Some(value) => hardware(value),
        None => Ok(other),
    }
}
