//! Explains the faults of a file of either format.

use crate::lines::{line_of, tells_lines};
use crate::sentence::{write_fault, write_place};
use file_entries::{Fault, Refused};
use std::alloc::Global;
use std::io;
use std::io::Write;
use toml::Table;

/// The format of a file.
#[derive(Clone, Copy, Debug, PartialEq, Eq)]
pub enum Format {
    Internet,
    Tables,
}

impl Format {
    /// The manual page that has the keys.
    pub(crate) fn page(self) -> &'static str {
        match self {
            Format::Internet => "atalk-internet",
            Format::Tables => "atalk-tables",
        }
    }
}

/// Writes why a text isn't TOML, and on which line.
fn write_no_text<W: Write>(writer: &mut W, text: &[u8], fault: &toml::de::Error) -> io::Result<()> {
    write!(writer, "no TOML text")?;
    if let Some(span) = fault.span()
        && let Some(before) = text.get(..span.start)
    {
        let line = before.iter().filter(|byte| **byte == b'\n').count() + 1;
        write!(writer, ", line {line}: {}", fault.message())?;
    }
    writeln!(writer, "")
}

/// Writes a line about a fault.
fn write_line<W: Write>(
    writer: &mut W,
    format: Format,
    text: &str,
    document: &Table,
    fault: &Fault,
) -> io::Result<()> {
    write_place(writer, &fault.place)?;
    if tells_lines(text)
        && let Some(line) = line_of(text, &fault.place)
    {
        write!(writer, ", line {line}")?;
    }
    write!(writer, ": ")?;
    write_fault(writer, format, document, fault)?;
    writeln!(writer, "")
}

/// Writes the faults of a document, a line each.
fn write_faults<W: Write>(
    writer: &mut W,
    format: Format,
    text: &str,
    document: &Table,
    refused: &Refused,
) -> io::Result<()> {
    let Some(first) = refused.faults.first() else {
        return Ok(());
    };
    write_line(writer, format, text, document, &first)?;
    for fault in refused.faults.others() {
        write!(writer, "atalk: ")?;
        write_line(writer, format, text, document, fault)?;
    }
    match refused.faults.untold() {
        0 => Ok(()),
        1 => writeln!(writer, "atalk: and 1 more fault"),
        more => writeln!(writer, "atalk: and {more} more faults"),
    }
}

/// Writes what is wrong with the text of a file that was refused: a line for each fault, with its
/// place, the value that was found and what it has to be. The first line goes on where the caller
/// began it, with the name of the file.
pub fn write<W: Write>(
    alloc: Global,
    writer: &mut W,
    format: Format,
    text: &[u8],
    refused: &Refused,
) -> io::Result<()> {
    match toml::table_from_slice(alloc, text) {
        Ok(document) => match std::str::from_utf8(text) {
            Ok(text) => write_faults(writer, format, text, &document, refused),
            Err(_) => writeln!(writer, "no TOML text"),
        },
        Err(fault) => write_no_text(writer, text, &fault),
    }
}
