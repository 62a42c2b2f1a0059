//! Zones, a router's zone lists, and its replies from them.

use crate::hex_lines::put_bytes;
use crate::transactions::user;
use crate::zone_packets::put_replies;
use at_base::{Error, Name};
use case_words::{Answer, Stop, Words, put_hex, yes_or_no};
use std::alloc::{AllocError, Global};
use zip_zones::{Packet, Page, ZoneFunction, ZoneTable, answer_query, page_for, zone_list_page};

/// The zones of a line, as `"Red" ; "Blue"`.
pub(crate) fn names(alloc: Global, words: &mut Words<'_>) -> Result<Vec<Name>, Stop> {
    let mut names = Vec::new(alloc);
    for _ in 0..u64::MAX {
        if words.is_empty() {
            break;
        }
        names.push(words.name(alloc)?)?;
        let _ = words.passes(";");
    }
    Ok(names)
}

/// A zone several times, as `16 of "Red"`.
pub(crate) fn copies(alloc: Global, words: &mut Words<'_>) -> Result<Vec<Name>, Stop> {
    let mut names = Vec::new(alloc);
    let count: u8 = words.number()?;
    words.expect("of")?;
    let name = words.name(alloc)?;
    for _ in 0..count {
        names.push(name)?;
    }
    Ok(names)
}

/// The router's zone table, empty at first.
fn lists_of(alloc: Global, lists: &mut Option<ZoneTable>) -> Result<&mut ZoneTable, Error> {
    if lists.is_none() {
        *lists = Some(ZoneTable::new(alloc)?);
    }
    match lists {
        Some(table) => Ok(table),
        None => Err(Error::Memory),
    }
}

/// Sets the whole zone list of a range, or adds one zone and the number of all.
pub(crate) fn list(
    alloc: Global,
    lists: &mut Option<ZoneTable>,
    mut words: Words<'_>,
    names: &[Name],
) -> Answer {
    let range = words.range()?;
    let table = lists_of(alloc, lists)?;
    if words.is_empty() {
        table.set(range, names)?;
        return Ok(());
    }
    let total = words.named("total")?;
    table.add(range, total, &words.name(alloc)?)?;
    Ok(())
}

/// Appends the replies to a query.
pub(crate) fn put_answers(
    alloc: Global,
    lists: &mut Option<ZoneTable>,
    bytes: &[u8],
    text: &mut String,
) -> Answer {
    let table = lists_of(alloc, lists)?;
    let replies = match Packet::read(bytes)? {
        Packet::Query(networks) => answer_query(alloc, table, networks)?,
        _ => return Err(Stop::Unclear),
    };
    put_replies(text, replies.as_slice())
}

fn put_page(text: &mut String, page: &Page) -> Result<(), AllocError> {
    let (last, count, len) = (yes_or_no(page.last), page.count, page.bytes.len());
    write!(text, "last {last} names {count} length {len} user ")?;
    put_hex(text, &page.user())?;
    writeln!(text)?;
    write!(text, "data ")?;
    put_bytes(text, page.bytes.as_slice())
}

/// Appends the page of these zones from an index on.
pub(crate) fn page(
    alloc: Global,
    mut words: Words<'_>,
    names: &[Name],
    text: &mut String,
) -> Answer {
    let start = words.named("from")?;
    put_page(text, &zone_list_page(alloc, start, names)?)?;
    Ok(())
}

fn function(words: &mut Words<'_>) -> Result<ZoneFunction, Stop> {
    Ok(match words.word() {
        "GetMyZone" => ZoneFunction::GetMyZone,
        "GetZoneList" => ZoneFunction::GetZoneList,
        "GetLocalZones" => ZoneFunction::GetLocalZones,
        _ => return Err(Stop::Unclear),
    })
}

/// Appends the meaning of the user bytes of a request for zones.
pub(crate) fn put_request(alloc: Global, mut words: Words<'_>, text: &mut String) -> Answer {
    let user = user(alloc, &mut words)?;
    match ZoneFunction::asked(&user) {
        Some((function, start)) => {
            let number = function.number();
            writeln!(text, "{function:?} from {start} number {number}")?;
        }
        None => writeln!(text, "asks for no zones")?,
    }
    Ok(())
}

/// Appends the page that answers a node on a cable with these zones.
pub(crate) fn put_answer(
    alloc: Global,
    lists: &mut Option<ZoneTable>,
    mut words: Words<'_>,
    names: &[Name],
    text: &mut String,
) -> Answer {
    let function = function(&mut words)?;
    let start = words.named("from")?;
    let table = lists_of(alloc, lists)?;
    put_page(text, &page_for(alloc, function, start, names, table)?)?;
    Ok(())
}
