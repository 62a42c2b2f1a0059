//! Sentences about faults.

use crate::found::{key_text, list_key, value_at};
use crate::must::write_must;
use crate::shown::{write_text, write_value};
use crate::telling::Format;
use at_base::{Part, Text32};
use file_entries::{Fault, Place, Why};
use std::io;
use std::io::Write;
use toml::Table;

/// Writes a table within an entry, if there is one.
fn write_within<W: Write>(writer: &mut W, key: &Text32, number: u32) -> io::Result<()> {
    if number == 0 {
        return Ok(());
    }
    write!(writer, ", {} {number}", key_text(key))
}

/// Writes where an entry or a table is.
pub(crate) fn write_place<W: Write>(writer: &mut W, place: &Place) -> io::Result<()> {
    match list_key(place.part) {
        Some(key) => write!(writer, "{key} {}", place.entry)?,
        None => write!(writer, "top level")?,
    }
    write_within(writer, &place.outer, place.outer_number)?;
    write_within(writer, &place.inner, place.inner_number)
}

/// Writes which value it is, and the value itself if it is found.
fn write_found<W: Write>(writer: &mut W, document: &Table, place: &Place) -> io::Result<()> {
    if place.value > 0 {
        write!(writer, "value {} of ", place.value)?;
    }
    write!(writer, "{}", key_text(&place.key))?;
    if let Some(value) = value_at(document, place) {
        write!(writer, " is ")?;
        write_value(writer, value)?;
    }
    write!(writer, "; ")
}

/// Writes what is wrong with a table, and not with the value at a key.
fn write_of_table<W: Write>(writer: &mut W, why: Why) -> io::Result<()> {
    match why {
        Why::Count { high, .. } => write!(writer, "there may be at most {high} of them"),
        Why::Repeated => write!(
            writer,
            "an earlier name has the same object and the same type"
        ),
        Why::NoEntity => write!(
            writer,
            "its object and its type have to be of 1 to 32 bytes, \
            not = alone and without the byte C5"
        ),
        why => write_must(writer, why),
    }
}

/// Whether the value of a tables file is a text or bytes in digits.
fn is_of_bytes(place: &Place) -> bool {
    matches!(key_text(&place.key), "zone" | "zones" | "object" | "type")
}

/// Writes what would help, where the format says more.
fn write_hint<W: Write>(writer: &mut W, format: Format, place: &Place, why: Why) -> io::Result<()> {
    match (format, why) {
        (_, Why::NoList) if place.part == Part::Top => {
            write!(writer, " of tables, whose headers have double brackets")
        }
        (Format::Tables, Why::Count { high: 64, .. }) => {
            write!(writer, ", and with version = 2 at the top at most 255")
        }
        (Format::Tables, Why::Count { high: 0, .. }) => {
            write!(
                writer,
                ": version 1 has none, which version = 2 at the top allows"
            )
        }
        (Format::Tables, Why::NoText) if is_of_bytes(place) => {
            write!(writer, ", or a table as {{hex = \"8E61\"}}")
        }
        (Format::Tables, Why::Unprintable) if !key_text(&place.key).starts_with("zone") => {
            write!(
                writer,
                ", or a table as {{hex = \"8E61\"}}: Macintoshes write é as 8E"
            )
        }
        _ => Ok(()),
    }
}

/// Writes what is wrong, and why.
pub(crate) fn write_fault<W: Write>(
    writer: &mut W,
    format: Format,
    document: &Table,
    fault: &Fault,
) -> io::Result<()> {
    let place = &fault.place;
    match fault.why {
        Why::Missing => write!(writer, "{} is missing", key_text(&place.key)),
        Why::Unknown => {
            write_text(writer, key_text(&place.key))?;
            write!(
                writer,
                " isn't one of its keys; man {} has them",
                format.page()
            )
        }
        why if place.key.as_slice().is_empty() => write_of_table(writer, why),
        why => {
            write_found(writer, document, place)?;
            write_must(writer, why)?;
            write_hint(writer, format, place, why)
        }
    }
}
