//! Bytes that are read with changes.

use case_words::{Answer, Stop, Words};

/// Replaces the bytes from a position on.
fn put_at(bytes: &mut Vec<u8>, place: usize, others: &[u8]) -> Answer {
    let mut at = place;
    for other in others {
        match bytes.get_mut(at) {
            Some(byte) => *byte = *other,
            None => return Err(Stop::Unclear),
        }
        at = at.saturating_add(1);
    }
    Ok(())
}

/// Makes one change: `cut 12` keeps only the first 12 bytes, `then FFFF` adds bytes at the end, and
/// `7 04` replaces the bytes from a position on.
fn change(bytes: &mut Vec<u8>, words: &mut Words<'_>) -> Answer {
    let alloc = *bytes.allocator();
    if words.passes("cut") {
        bytes.truncate(words.number()?);
    } else if words.passes("then") {
        bytes.extend_from_slice(words.hex(alloc)?.as_slice())?;
    } else {
        let place = words.number()?;
        put_at(bytes, place, words.hex(alloc)?.as_slice())?;
    }
    Ok(())
}

/// A copy of the bytes with the changes that the words name.
pub(crate) fn changed(bytes: &Vec<u8>, mut words: Words<'_>) -> Result<Vec<u8>, Stop> {
    let mut copy = bytes.clone()?;
    for _ in 0..u64::MAX {
        if words.is_empty() {
            break;
        }
        change(&mut copy, &mut words)?;
    }
    Ok(copy)
}
