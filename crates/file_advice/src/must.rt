//! What values have to be.

use file_entries::{Rising, Why, Words};
use std::io;
use std::io::Write;

/// Writes how many bytes or values there have to be.
fn write_count<W: Write>(writer: &mut W, low: usize, high: usize, what: &str) -> io::Result<()> {
    if low == 0 {
        write!(writer, "at most {high} {what}")
    } else {
        write!(writer, "{low} to {high} {what}")
    }
}

/// The words for what a value has to be that isn't so.
fn words(why: Why) -> &'static str {
    match why {
        Why::NoTable => "a table",
        Why::NoList => "a list",
        Why::NoInteger => "a whole number",
        Why::NoTruth => "true or false",
        Why::NoText => "a text",
        Why::NoPair => {
            "a list of the first and the last network; one network alone is both, as [30, 30]"
        }
        Why::NoZone => "the name of a zone: 1 to 32 printable ASCII characters, not * alone",
        Why::NoAddress => "an address as \"10.7\"",
        Why::NoHardware => "a text of 12 hexadecimal digits, without colons",
        Why::NoDigits => "a text of an even number of hexadecimal digits",
        Why::NoWord {
            words: Words::Actions,
        } => "\"send\" or \"lookup\"",
        Why::NoWord {
            words: Words::States,
        } => "\"Good\", \"Suspect\", \"Bad\" or \"Last\"",
        Why::Untried => "an address on the cable, with node 1 to 253",
        Why::NoEntity => "1 to 32 bytes, not = alone and without the byte C5",
        Why::Unprintable => "a text of bytes 20 to 7E",
        _ => "valid",
    }
}

/// Writes what a value has to be that isn't so.
pub(crate) fn write_must<W: Write>(writer: &mut W, why: Why) -> io::Result<()> {
    match why {
        Why::Outside { low, high } => write!(writer, "it has to be from {low} to {high}"),
        Why::Absent { count: 1 } => write!(writer, "it has to be a number from 1, and there is 1"),
        Why::Absent { count } => {
            write!(
                writer,
                "it has to be a number from 1, and there are {count}"
            )
        }
        Why::Length { low, high } => {
            write!(writer, "it has to be a text of ")?;
            write_count(writer, low, high, "bytes")
        }
        Why::Count { low, high } => {
            write!(writer, "it has to have ")?;
            write_count(writer, low, high, "values")
        }
        Why::Reversed => write!(writer, "the first number has to be the smaller one"),
        Why::Falls { by: Rising::Range } => {
            write!(
                writer,
                "the first network has to be above that of the one before"
            )
        }
        Why::Falls { .. } => write!(writer, "it has to be above that of the one before"),
        Why::Overlaps { port } => {
            write!(
                writer,
                "the cable has a network in common with that of port {port}"
            )
        }
        why => write!(writer, "it has to be {}", words(why)),
    }
}
