//! Names of zones, texts, and bytes that own their memory.

use crate::hex_lines::{put_bytes, put_written};
use at_base::{Bytes, is_entity, is_zone_name, sum};
use case_words::{Answer, Stop, Words, put_text, yes_or_no};
use std::alloc::Global;

/// Appends a zone's name and its group, or how it compares with another one.
pub(crate) fn name(alloc: Global, mut words: Words<'_>, text: &mut String) -> Answer {
    let name = words.name(alloc)?;
    let holds = match words.word() {
        "" => {
            let group = name.group();
            put_text(text, name.as_slice())?;
            writeln!(text, " prints {name} group {group}")?;
            return Ok(());
        }
        "same" => name.same(&words.name(alloc)?),
        "spelled-like" => name.is_spelled_like(&words.name(alloc)?),
        "equals" => name == words.name(alloc)? && name.clone()? == name,
        "begins" => name.begins(words.text(alloc)?.as_slice()),
        _ => return Err(Stop::Unclear),
    };
    writeln!(text, "{}", yes_or_no(holds))?;
    Ok(())
}

/// Appends a text, or whether it equals another one.
pub(crate) fn short_text(alloc: Global, mut words: Words<'_>, text: &mut String) -> Answer {
    let short = words.text32(alloc)?;
    if words.passes("equals") {
        let equal = short == words.text32(alloc)? && short.clone()? == short;
        writeln!(text, "{}", yes_or_no(equal))?;
    } else {
        put_text(text, short.as_slice())?;
        writeln!(text)?;
    }
    Ok(())
}

/// Whether a text may be a zone name.
pub(crate) fn zone_name(alloc: Global, mut words: Words<'_>, text: &mut String) -> Answer {
    let is_name = is_zone_name(words.text(alloc)?.as_slice());
    writeln!(text, "{}", yes_or_no(is_name))?;
    Ok(())
}

/// Whether a text may be the object or the type of a service.
pub(crate) fn entity(alloc: Global, mut words: Words<'_>, text: &mut String) -> Answer {
    let may_be = is_entity(words.text(alloc)?.as_slice());
    writeln!(text, "{}", yes_or_no(may_be))?;
    Ok(())
}

/// Whether a name matches a pattern.
pub(crate) fn pattern(alloc: Global, mut words: Words<'_>, text: &mut String) -> Answer {
    let pattern = words.text(alloc)?;
    words.expect("on")?;
    let name = words.text(alloc)?;
    let matches = nbp::matches(pattern.as_slice(), name.as_slice());
    writeln!(text, "{}", yes_or_no(matches))?;
    Ok(())
}

/// Appends the checksum of bytes.
pub(crate) fn checksum(alloc: Global, mut words: Words<'_>, text: &mut String) -> Answer {
    let sum = sum(words.bytes(alloc)?.as_slice());
    writeln!(text, "{sum:04X}")?;
    Ok(())
}

/// Appends a copy of bytes.
pub(crate) fn copy(alloc: Global, mut words: Words<'_>, text: &mut String) -> Answer {
    let bytes = words.bytes(alloc)?;
    let copy = Bytes::copy(alloc, bytes.as_slice())?;
    put_bytes(text, copy.as_slice())?;
    let (len, empty) = (copy.len(), yes_or_no(copy.is_empty()));
    writeln!(text, "length {len}, empty {empty}")?;
    Ok(())
}

/// Appends the bytes of a vector with a given capacity.
pub(crate) fn vector(alloc: Global, mut words: Words<'_>, text: &mut String) -> Answer {
    let room: u16 = words.named("room")?;
    let bytes = words.bytes(alloc)?;
    let mut vector = Vec::with_capacity(alloc, usize::from(room))?;
    vector.extend_from_slice(bytes.as_slice())?;
    put_written(text, Bytes::from_vec(vector))?;
    Ok(())
}
