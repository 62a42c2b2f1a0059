//! Bytes with changes.

use case_words::{Answer, Stop, Words};
use std::alloc::Global;

/// Replaces the bytes from a position on.
fn replace(bytes: &mut Vec<u8>, place: usize, new: &[u8]) -> Answer {
    for (index, byte) in new.iter().enumerate() {
        match bytes.get_mut(place.saturating_add(index)) {
            Some(old) => *old = *byte,
            None => return Err(Stop::Unclear),
        }
    }
    Ok(())
}

/// The bytes, with `out` bytes at a position replaced by others.
fn spliced(
    alloc: Global,
    bytes: &[u8],
    place: usize,
    out: usize,
    new: &[u8],
) -> Result<Vec<u8>, Stop> {
    let mut made = Vec::with_capacity(alloc, 512)?;
    for byte in bytes.iter().take(place) {
        made.push(*byte)?;
    }
    made.extend_from_slice(new)?;
    for byte in bytes.iter().skip(place.saturating_add(out)) {
        made.push(*byte)?;
    }
    Ok(made)
}

/// Makes one change.
fn change(alloc: Global, bytes: &mut Vec<u8>, words: &mut Words<'_>) -> Answer {
    let kind = words.word();
    let place: usize = words.number()?;
    match kind {
        "with" => replace(bytes, place, words.hex(alloc)?.as_slice())?,
        "first" => bytes.truncate(place),
        "without" => {
            let out = words.number()?;
            *bytes = spliced(alloc, bytes.as_slice(), place, out, &[])?;
        }
        "insert" => {
            let new = words.hex(alloc)?;
            *bytes = spliced(alloc, bytes.as_slice(), place, 0, new.as_slice())?;
        }
        _ => return Err(Stop::Unclear),
    }
    Ok(())
}

/// The bytes with the changes that the words describe, one after the other: `with PLACE HEX`
/// replaces bytes, `insert PLACE HEX` inserts bytes, `without PLACE COUNT` removes bytes, and
/// `first COUNT` keeps only the first ones.
pub(crate) fn edited(
    alloc: Global,
    bytes: &Vec<u8>,
    mut words: Words<'_>,
) -> Result<Vec<u8>, Stop> {
    let mut copy = bytes.clone()?;
    for _ in 0..u64::MAX {
        if words.is_empty() {
            break;
        }
        change(alloc, &mut copy, &mut words)?;
    }
    Ok(copy)
}
