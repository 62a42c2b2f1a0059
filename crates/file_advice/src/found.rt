//! The tables and values that places of a document name.

use at_base::{Part, Text32};
use file_entries::Place;
use toml::{Table, Value};

/// The key of a part that is a list.
pub(crate) fn list_key(part: Part) -> Option<&'static str> {
    match part {
        Part::Cable => Some("cable"),
        Part::Router => Some("router"),
        Part::Node => Some("node"),
        Part::Lose => Some("lose"),
        Part::Action => Some("action"),
        Part::Text | Part::Top => None,
    }
}

/// The text of a key.
pub(crate) fn key_text(key: &Text32) -> &str {
    // A key of more than 32 bytes may be cut within a character.
    std::str::from_utf8(key.as_slice()).unwrap_or("..")
}

/// The value with this number, from 1, of a list.
fn nth(list: &Value, number: u32) -> Option<&Value> {
    let index = (number as usize).checked_sub(1)?;
    list.as_array()?.as_slice().get(index)
}

/// The table with this number, from 1, of the list at a key.
fn table_in<'a>(table: &'a Table, key: &str, number: u32) -> Option<&'a Table> {
    nth(table.get(key)?, number)?.as_table()
}

/// The table that has the key of a place.
fn table_of<'a>(document: &'a Table, place: &Place) -> Option<&'a Table> {
    let Some(key) = list_key(place.part) else {
        return Some(document);
    };
    let entry = table_in(document, key, place.entry)?;
    if place.outer_number == 0 {
        return Some(entry);
    }
    let outer = table_in(entry, key_text(&place.outer), place.outer_number)?;
    if place.inner_number == 0 {
        return Some(outer);
    }
    table_in(outer, key_text(&place.inner), place.inner_number)
}

/// The value at a place, if the place has a key.
pub(crate) fn value_at<'a>(document: &'a Table, place: &Place) -> Option<&'a Value> {
    let value = table_of(document, place)?.get(key_text(&place.key))?;
    if place.value == 0 {
        Some(value)
    } else {
        nth(value, place.value)
    }
}
