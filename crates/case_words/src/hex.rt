//! Bytes in hexadecimal digits.

use crate::stop::Stop;

/// The value of a digit.
pub(crate) fn digit(byte: u8) -> Result<u8, Stop> {
    match byte {
        b'0'..=b'9' => Ok(byte - b'0'),
        b'A'..=b'F' => Ok(byte - b'A' + 10),
        _ => Err(Stop::Unclear),
    }
}

/// The byte of two digits.
pub(crate) fn byte(high: u8, low: u8) -> Result<u8, Stop> {
    Ok(digit(high)?.wrapping_mul(16) | digit(low)?)
}

/// Appends the bytes with these digits, two digits for each byte.
pub(crate) fn read(bytes: &mut Vec<u8>, digits: &[u8]) -> Result<(), Stop> {
    for pair in digits.chunks(2) {
        match pair {
            [high, low] => bytes.push(byte(*high, *low)?)?,
            _ => return Err(Stop::Unclear),
        }
    }
    Ok(())
}
