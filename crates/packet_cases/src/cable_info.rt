//! GetNetInfo requests and replies.

use crate::hex_lines::put_written;
use crate::names_asked::put_named;
use at_base::{Name, Range, Text32};
use case_words::{Answer, Stop, Words, put_hw};
use std::alloc::{AllocError, Global};
use zip_zones::{NetInfo, answer_net_info, reply_net_info, write_extended, write_get_net_info};

/// Appends a reply to GetNetInfo.
pub(crate) fn put_info(text: &mut String, info: &NetInfo) -> Result<(), AllocError> {
    let (flags, start, end) = (info.flags, info.start, info.end);
    writeln!(
        text,
        "GetNetInfo-reply flags {flags:02X} from {start} to {end}"
    )?;
    put_named(text, "zone", info.asked.as_slice())?;
    write!(text, "group ")?;
    put_hw(text, info.group)?;
    writeln!(text)?;
    match &info.default {
        Some(name) => put_named(text, "default zone", name.as_slice()),
        None => writeln!(text, "no default zone"),
    }
}

/// A range and the requested zone, as `10-19 zone "red"`.
fn asked(alloc: Global, words: &mut Words<'_>) -> Result<(Range, Text32), Stop> {
    let range = words.range()?;
    words.expect("zone")?;
    Ok((range, words.text32(alloc)?))
}

/// Writes a GetNetInfo request.
pub(crate) fn write_question(alloc: Global, mut words: Words<'_>, text: &mut String) -> Answer {
    let zone = words.text32(alloc)?;
    put_written(text, write_get_net_info(alloc, &zone)?)?;
    Ok(())
}

/// Writes the reply for a cable with these zones, if there is one.
pub(crate) fn write_reply(
    alloc: Global,
    mut words: Words<'_>,
    names: &[Name],
    text: &mut String,
) -> Answer {
    let (range, zone) = asked(alloc, &mut words)?;
    match reply_net_info(alloc, &zone, range, names)? {
        Some(bytes) => put_written(text, bytes)?,
        None => writeln!(text, "no reply")?,
    }
    Ok(())
}

/// Writes the reply for a cable that has zones.
pub(crate) fn write_answer(
    alloc: Global,
    mut words: Words<'_>,
    names: &[Name],
    text: &mut String,
) -> Answer {
    let (range, zone) = asked(alloc, &mut words)?;
    if names.is_empty() {
        return Err(Stop::Unclear);
    }
    put_written(text, answer_net_info(alloc, &zone, range, names)?)?;
    Ok(())
}

/// Writes the reply with these zones of a network.
pub(crate) fn write_zones(
    alloc: Global,
    mut words: Words<'_>,
    names: &[Name],
    text: &mut String,
) -> Answer {
    let net = words.number()?;
    let total = words.named("total")?;
    if names.is_empty() {
        return Err(Stop::Unclear);
    }
    put_written(text, write_extended(alloc, net, total, names)?)?;
    Ok(())
}
