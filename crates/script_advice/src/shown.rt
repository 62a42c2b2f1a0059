//! Texts as they are shown.

use std::io;
use std::io::Write;

/// The longest text that is shown whole.
const MOST: usize = 60;

/// Writes the begin of a text, in quotes. Bytes that could mean something to a terminal, or belong
/// to another character set than the terminal's, are written as `\x8E`, and so is the backslash.
pub(crate) fn write_shown<W: Write>(writer: &mut W, text: &[u8]) -> io::Result<()> {
    writer.write_all(b"\"")?;
    for byte in text.iter().take(MOST) {
        match *byte {
            b'\\' | b'"' => write!(writer, "\\x{byte:02X}")?,
            0x20..=0x7E => writer.write_all(&[*byte])?,
            _ => write!(writer, "\\x{byte:02X}")?,
        }
    }
    if text.len() > MOST {
        writer.write_all(b"..")?;
    }
    writer.write_all(b"\"")
}
