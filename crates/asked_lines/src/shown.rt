//! Texts as they are shown.

use std::alloc::AllocError;
use text::put_hex;

/// Appends a text. Bytes that could mean something to a terminal, or belong to another character
/// set than the terminal's, are written as `\x8E`, and so is the backslash.
pub(crate) fn put_text(lines: &mut Vec<u8>, text: &[u8]) -> Result<(), AllocError> {
    for byte in text {
        match *byte {
            b' '..=b'[' | b']'..=b'~' => lines.extend_from_slice(&[*byte])?,
            _ => {
                lines.extend_from_slice(b"\\x")?;
                put_hex(lines, &[*byte])?;
            }
        }
    }
    Ok(())
}
