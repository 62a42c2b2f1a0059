//! The example of the README of `text`.

use at_base::Error;
use std::alloc::{AllocError, Global};
use text::{address, put_address, put_hex};

/// A line with the address that the word spells, and these bytes in hexadecimal digits; `None` if
/// the word spells no address.
fn line_of(alloc: Global, word: &[u8], bytes: &[u8]) -> Result<Option<Vec<u8>>, AllocError> {
    let Some(found) = address(word) else {
        return Ok(None);
    };
    let mut line = Vec::new(alloc);
    put_address(&mut line, found)?;
    line.extend_from_slice(b" ")?;
    put_hex(&mut line, bytes)?;
    Ok(Some(line))
}

/// Whether a word that is an address has its line, and one without a node has none.
pub(super) fn a_line_has_an_address_and_bytes(alloc: Global) -> Result<bool, Error> {
    let has_none = line_of(alloc, b"10", &[0, 13])?.is_none();
    match line_of(alloc, b"10.7", &[0, 13])? {
        Some(line) => Ok(has_none && line.as_slice() == b"10.7 000D".as_slice()),
        None => Ok(false),
    }
}
