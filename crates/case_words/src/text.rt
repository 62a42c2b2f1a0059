//! The form of bytes and texts in answers.

use at_base::Hw;
use std::alloc::AllocError;

/// Appends bytes as hexadecimal digits.
pub fn put_hex(text: &mut String, bytes: &[u8]) -> Result<(), AllocError> {
    for byte in bytes {
        let byte = *byte;
        write!(text, "{byte:02X}")?;
    }
    Ok(())
}

/// Appends bytes as a line of hexadecimal digits; `-` if there are none.
pub fn put_line(text: &mut String, bytes: &[u8]) -> Result<(), AllocError> {
    if bytes.is_empty() {
        write!(text, "-")?;
    }
    put_hex(text, bytes)?;
    writeln!(text)
}

/// Appends a hardware address.
pub fn put_hw(text: &mut String, hw: Hw) -> Result<(), AllocError> {
    put_hex(text, hw.as_slice())
}

/// Appends the bytes of a text in quotation marks. A byte that isn't printable, a quotation mark
/// and a backslash are written as a backslash and two digits.
pub fn put_text(text: &mut String, bytes: &[u8]) -> Result<(), AllocError> {
    text.push('"')?;
    for byte in bytes {
        let byte = *byte;
        match byte {
            b'"' | b'\\' => write!(text, "\\{byte:02X}")?,
            b' '..=b'~' => text.push(byte as char)?,
            _ => write!(text, "\\{byte:02X}")?,
        }
    }
    text.push('"')
}

/// `yes` or `no`.
pub fn yes_or_no(holds: bool) -> &'static str {
    if holds { "yes" } else { "no" }
}
