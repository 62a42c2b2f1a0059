//! Values as they are shown in a sentence.

use std::io;
use std::io::Write;
use toml::Value;

/// The greatest number of bytes of a text that are shown.
const MAX_BYTES: usize = 40;

/// The greatest number of values of a list that are shown.
const MAX_VALUES: usize = 6;

/// The start of a text, of at most so many bytes, if a character ends there.
fn start_of(text: &str, end: usize) -> Option<&str> {
    std::str::from_utf8(text.as_bytes().get(..end)?).ok()
}

/// Writes a text, which is cut if it is long.
pub(crate) fn write_text<W: Write>(writer: &mut W, text: &str) -> io::Result<()> {
    if text.len() <= MAX_BYTES {
        return write!(writer, "{text:?}");
    }
    for less in 0..4usize {
        if let Some(start) = start_of(text, MAX_BYTES - less) {
            return write!(writer, "{start:?}..");
        }
    }
    Ok(())
}

/// Writes a value within a list.
fn write_item<W: Write>(writer: &mut W, value: &Value) -> io::Result<()> {
    match value {
        Value::String(text) => write_text(writer, text.as_str()),
        Value::Integer(number) => write!(writer, "{number}"),
        Value::Float(_) => write!(writer, "a fraction"),
        Value::Boolean(truth) => write!(writer, "{truth}"),
        Value::Datetime(_) => write!(writer, "a date"),
        Value::Array(_) => write!(writer, "[..]"),
        Value::Table(_) => write!(writer, "{{..}}"),
    }
}

/// Writes the values of a list, which is cut if it is long.
fn write_list<W: Write>(writer: &mut W, values: &[Value]) -> io::Result<()> {
    write!(writer, "[")?;
    for (index, value) in values.iter().take(MAX_VALUES).enumerate() {
        if index > 0 {
            write!(writer, ", ")?;
        }
        write_item(writer, value)?;
    }
    if values.len() > MAX_VALUES {
        write!(writer, ", ..")?;
    }
    write!(writer, "]")
}

/// Writes a value.
pub(crate) fn write_value<W: Write>(writer: &mut W, value: &Value) -> io::Result<()> {
    match value.as_array() {
        Some(values) => write_list(writer, values.as_slice()),
        None => write_item(writer, value),
    }
}
