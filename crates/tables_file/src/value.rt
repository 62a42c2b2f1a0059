//! Readers for values: ranges as they stand, names, indexes, states.

ghost use Rattle.std.specs.Prelude.{◌≡◌, IfOk, IsOkUnless};
ghost use Rattle.std.specs.List.{list_all};
ghost use Rattle.std.specs.Result.{result_ok};
ghost use Rattle.at_base.specs.Text.{is_printable, same_bytes};
ghost use Rattle.toml.specs.View.{view};
ghost use Rattle.tables_file.specs.Values as spec;

use at_base::{Bytes, Error, Listed, Name, Text32, is_entity};
use file_entries::bytes::hex;
use file_entries::key::{get, has_only};
use file_entries::value::{list, number, text};
use file_entries::{Why, Words};
use rtmp::State;
use std::alloc::Global;
use toml::Value;

/// The first and the last network of a range, whatever they are.
pub(crate) fn ends(value: &Value) -> Result<(u16, u16), Why>
    ensures { result_ok result ≡ spec.ends (view value.now) }
{
    match list(value)? {
        [first, last] => {
            let start = number(0, 65535, first)?;
            let end = number(0, 65535, last)?;
            Ok((start as u16, end as u16))
        }
        _ => Err(Why::NoPair),
    }
}

/// The index, from 0, of one of `count` things, at most 200, that the file counts from 1.
pub(crate) fn place(count: usize, value: &Value) -> Result<u8, Why>
    ensures { result_ok result ≡ spec.place count (view value.now) }
{
    match number(1, 200, value) {
        Ok(number) => {
            if number as usize <= count {
                Ok((number - 1) as u8)
            } else {
                Err(Why::Absent { count })
            }
        }
        Err(Why::NoInteger) => Err(Why::NoInteger),
        Err(_) => Err(Why::Absent { count }),
    }
}

/// Whether all bytes are printable.
fn are_printable(bytes: &[u8]) -> bool
    ensures { result ≡ list_all is_printable bytes.now }
{
    bytes.iter().all(|byte| 0x20 <= *byte && *byte <= 0x7E)
}

/// The bytes in hexadecimal digits in a table whose one key is `hex`. Error: `Memory`.
fn digits(alloc: Global, value: &Value) -> Result<Result<Bytes, Why>, Error>
    ensures read { IfOk result (λ x. result_ok x ≡ spec.in_digits (view value.now)) }
    ensures refused { IsOkUnless result Error.Memory }
{
    let Some(table) = value.as_table() else {
        return Ok(Err(Why::NoText));
    };
    if !has_only(&["hex"], table) {
        return Ok(Err(Why::NoText));
    }
    match get(table, "hex") {
        Some(digits) => hex(alloc, digits),
        None => Ok(Err(Why::NoText)),
    }
}

/// The bytes that a value says, as a printable text or in digits. Error: `Memory`.
fn bytes(alloc: Global, value: &Value) -> Result<Result<Bytes, Why>, Error>
    ensures read { IfOk result (λ x. result_ok x ≡ spec.bytes (view value.now)) }
    ensures refused { IsOkUnless result Error.Memory }
{
    let Some(text) = value.as_str() else {
        return digits(alloc, value);
    };
    let text = text.as_bytes();
    if are_printable(text) {
        Ok(Ok(Listed::from_vec(Vec::from_slice(alloc, text)?)))
    } else {
        Ok(Err(Why::Unprintable))
    }
}

/// The name that bytes are, if they are one.
fn name_of(bytes: &[u8]) -> Result<Name, Why>
    ensures { result_ok result ≡ spec.name_of bytes.now }
{
    Name::new(bytes).ok().ok_or(Why::NoZone)
}

/// The object or the type that bytes are, if they are one.
fn object_of(bytes: &[u8]) -> Result<Text32, Why>
    ensures { result_ok result ≡ spec.object_of bytes.now }
{
    if 1 <= bytes.len() && is_entity(bytes) {
        Text32::new(bytes).ok().ok_or(Why::NoEntity)
    } else {
        Err(Why::NoEntity)
    }
}

/// The name of a zone. Error: `Memory`.
pub(crate) fn zone(alloc: Global, value: &Value) -> Result<Result<Name, Why>, Error>
    ensures read { IfOk result (λ x. result_ok x ≡ spec.zone (view value.now)) }
    ensures refused { IsOkUnless result Error.Memory }
{
    match bytes(alloc, value)? {
        Ok(bytes) => Ok(name_of(bytes.as_slice())),
        Err(why) => Ok(Err(why)),
    }
}

/// The object or the type of a service's name. Error: `Memory`.
pub(crate) fn object(alloc: Global, value: &Value) -> Result<Result<Text32, Why>, Error>
    ensures read { IfOk result (λ x. result_ok x ≡ spec.object (view value.now)) }
    ensures refused { IsOkUnless result Error.Memory }
{
    match bytes(alloc, value)? {
        Ok(bytes) => Ok(object_of(bytes.as_slice())),
        Err(why) => Ok(Err(why)),
    }
}

/// Whether two words are equal.
fn is_word(word: &[u8], other: &[u8]) -> bool
    ensures { result ≡ same_bytes word.now other.now }
{
    word == other
}

/// The state with this name.
fn state_named(word: &[u8]) -> Option<State>
    ensures { result ≡ spec.state_named word.now }
{
    if is_word(word, b"Good") {
        Some(State::Good)
    } else if is_word(word, b"Suspect") {
        Some(State::Suspect)
    } else if is_word(word, b"Bad") {
        Some(State::Bad)
    } else if is_word(word, b"Last") {
        Some(State::Last)
    } else {
        None
    }
}

/// The state of a row.
pub(crate) fn state(value: &Value) -> Result<State, Why>
    ensures { result_ok result ≡ spec.state (view value.now) }
{
    let words = Words::States;
    state_named(text(value)?).ok_or(Why::NoWord { words })
}

/// Whether something holds.
pub(crate) fn flag(value: &Value) -> Result<bool, Why>
    ensures { result_ok result ≡ spec.flag (view value.now) }
{
    value.as_bool().ok_or(Why::NoTruth)
}
