//! Numbers of 64 bits in digits.

use std::alloc::AllocError;

/// Appends a number in decimal digits.
pub(crate) fn put_wide(text: &mut Vec<u8>, number: u64) -> Result<(), AllocError> {
    let mut digits = [b'0'; 20];
    let mut left = number;
    for place in 0..20_usize {
        digits[19 - place] = b'0' + (left % 10) as u8;
        left /= 10;
    }
    let first = digits.iter().position(|digit| *digit != b'0').unwrap_or(19);
    text.extend_from_slice(digits.get(first..).unwrap_or(&[]))
}
