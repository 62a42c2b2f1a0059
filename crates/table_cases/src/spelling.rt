//! The form of packets and numbers in answers.

use case_words::put_hex;
use std::alloc::AllocError;
use std::fmt::Display;

/// The greatest number of bytes in a line.
const LINE: usize = 42;

/// Appends a space and the bytes, if there are any.
fn put_group(text: &mut String, bytes: &[u8]) -> Result<(), AllocError> {
    if bytes.is_empty() {
        return Ok(());
    }
    text.push(' ')?;
    put_hex(text, bytes)
}

/// Appends the bytes in groups of a size, and begins a new line with `..` after a full one.
pub(crate) fn put_groups(text: &mut String, bytes: &[u8], size: usize) -> Result<(), AllocError> {
    for (index, line) in bytes.chunks(LINE).enumerate() {
        if index > 0 {
            write!(text, "\n..")?;
        }
        for group in line.chunks(size.max(1)) {
            put_group(text, group)?;
        }
    }
    writeln!(text)
}

/// Whether each of the bytes is this one.
fn are_all(bytes: &[u8], byte: u8) -> bool {
    bytes.iter().all(|other| *other == byte)
}

/// Appends data in the form of commands: 16 or more equal bytes as `07*578`.
pub(crate) fn put_data(text: &mut String, bytes: &[u8]) -> Result<(), AllocError> {
    match bytes {
        [first, ..] if bytes.len() >= 16 && are_all(bytes, *first) => {
            let (first, len) = (*first, bytes.len());
            writeln!(text, " {first:02X}*{len}")
        }
        _ => put_groups(text, bytes, LINE),
    }
}

/// Appends the line of a value, or of a missing one.
pub(crate) fn put_or_none<T: Display + Drop>(
    text: &mut String,
    value: Option<T>,
) -> Result<(), AllocError> {
    match value {
        Some(value) => writeln!(text, "{value}"),
        None => writeln!(text, "none"),
    }
}
