//! Captures as lines of hexadecimal digits.

use std::alloc::{AllocError, Global};

/// The value of a hexadecimal digit.
fn digit(byte: u8) -> Option<u8> {
    match byte {
        b'0'..=b'9' => Some(byte - b'0'),
        b'A'..=b'F' => Some(byte - b'A' + 10),
        b'a'..=b'f' => Some(byte - b'a' + 10),
        _ => None,
    }
}

/// The bytes that a line of digits has, with spaces anywhere; none, where it has another character or
/// half a byte.
pub(crate) fn bytes_in(alloc: Global, line: &[u8]) -> Result<Option<Vec<u8>>, AllocError> {
    let mut bytes = Vec::new(alloc);
    let mut high = None;
    for byte in line {
        if *byte == b' ' {
            continue;
        }
        let Some(low) = digit(*byte) else {
            return Ok(None);
        };
        match high {
            None => high = Some(low),
            Some(first) => {
                bytes.push((first << 4) | low)?;
                high = None;
            }
        }
    }
    Ok(if high.is_none() { Some(bytes) } else { None })
}

/// The first line of a text, and what follows it.
pub(crate) fn line_of(text: &[u8]) -> (&[u8], &[u8]) {
    match text.iter().position(|byte| *byte == b'\n') {
        Some(end) => {
            let (line, rest) = text.split_at(end.min(text.len()));
            (line, rest.get(1..).unwrap_or(&[]))
        }
        None => (text, &[]),
    }
}
