//! Texts as they are shown.

use std::io;
use std::io::Write;

/// Writes a text. Bytes that could mean something to a terminal, or belong to another character
/// set than the terminal's, are written as `\x8E`, and so is the backslash.
pub(crate) fn write_text<W: Write>(writer: &mut W, text: &[u8]) -> io::Result<()> {
    for byte in text {
        match *byte {
            b'\\' => writer.write_all(b"\\x5C")?,
            0x20..=0x7E => writer.write_all(&[*byte])?,
            _ => write!(writer, "\\x{byte:02X}")?,
        }
    }
    Ok(())
}

/// Writes the name of a zone between quotes, so that spaces at its end are seen.
pub(crate) fn write_zone<W: Write>(writer: &mut W, zone: &[u8]) -> io::Result<()> {
    writer.write_all(b"\"")?;
    write_text(writer, zone)?;
    writer.write_all(b"\"")
}
