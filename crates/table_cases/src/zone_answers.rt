//! A router's replies about zones.

ghost use Rattle.std.specs.Prelude.{◌<◌};

use crate::spelling::put_groups;
use crate::zone_words::{names, ranges};
use at_base::{Bytes, Name, Range, Text32};
use case_words::{Answer, Stop, Words, put_hex};
use nbp::{Ask, expand};
use std::alloc::{AllocError, Global};
use zip_zones::{
    Packet, Page, ZoneFunction, ZoneTable, answer_net_info, answer_query, page_for, reply_net_info,
    zone_list_page,
};

/// Appends the bytes, the first two as a separate group.
fn put_packet(text: &mut String, bytes: &[u8]) -> Result<(), AllocError> {
    match bytes {
        [first, second, rest @ ..] => {
            put_hex(text, &[*first, *second])?;
            put_groups(text, rest, 42)
        }
        short => put_groups(text, short, 42),
    }
}

/// Appends the replies to a query.
fn query(alloc: Global, table: &ZoneTable, mut words: Words<'_>, text: &mut String) -> Answer {
    let bytes = words.bytes(alloc)?;
    let Packet::Query(networks) = Packet::read(bytes.as_slice())? else {
        return Err(Stop::Unclear);
    };
    let replies = answer_query(alloc, table, networks)?;
    if replies.is_empty() {
        writeln!(text, "none")?;
    }
    for reply in replies.iter() {
        put_packet(text, reply.as_slice())?;
    }
    Ok(())
}

/// Appends the capacity of the bytes.
fn put_room(text: &mut String, bytes: Bytes) -> Result<(), AllocError> {
    let len = bytes.len();
    let room = bytes.into_vec().capacity();
    writeln!(text, "{len} bytes, room for {room}")
}

/// Appends the GetNetInfo reply for a cable with at least one zone.
fn answered(
    alloc: Global,
    asked: &Text32,
    range: Range,
    names: &[Name],
    text: &mut String,
) -> Answer {
    if names.is_empty() {
        return Err(Stop::Unclear);
    }
    let bytes = answer_net_info(alloc, asked, range, names)?;
    put_packet(text, bytes.as_slice())?;
    put_room(text, bytes)?;
    Ok(())
}

/// Appends the GetNetInfo reply for a cable, or that there is none.
fn replied(
    alloc: Global,
    asked: &Text32,
    range: Range,
    names: &[Name],
    text: &mut String,
) -> Answer {
    match reply_net_info(alloc, asked, range, names)? {
        Some(bytes) => put_packet(text, bytes.as_slice())?,
        None => writeln!(text, "none")?,
    }
    Ok(())
}

/// Appends the reply to a GetNetInfo request for a zone, on a cable with these zones.
fn info(alloc: Global, mut words: Words<'_>, text: &mut String) -> Answer {
    let is_exact = words.passes("exactly");
    let asked = words.text32(alloc)?;
    words.expect("on")?;
    let range = words.range()?;
    words.expect("of")?;
    let names = names(alloc, &mut words)?;
    if is_exact {
        answered(alloc, &asked, range, names.as_slice(), text)
    } else {
        replied(alloc, &asked, range, names.as_slice(), text)
    }
}

/// Appends a page: its user bytes, and its names.
fn put_page(text: &mut String, page: &Page) -> Result<(), AllocError> {
    let last = if page.last { "last" } else { "not last" };
    let count = page.count;
    write!(text, "{last}, {count} names: ")?;
    put_hex(text, &page.user())?;
    put_groups(text, page.bytes.as_slice(), 42)
}

/// Appends the page of names that begins at an index.
fn page(alloc: Global, mut words: Words<'_>, text: &mut String) -> Answer {
    let start = words.number()?;
    words.expect("of")?;
    let names = names(alloc, &mut words)?;
    put_page(text, &zone_list_page(alloc, start, names.as_slice())?)?;
    Ok(())
}

/// The meaning of the user bytes of a request for zones.
fn asked(user: &[u8]) -> Result<Option<(ZoneFunction, u16)>, Stop> {
    match user {
        [a, b, c, d] => Ok(ZoneFunction::asked(&[*a, *b, *c, *d])),
        _ => Err(Stop::Unclear),
    }
}

/// Appends the page that answers a request for zones by a node on a cable with these zones.
fn answer(alloc: Global, table: &ZoneTable, mut words: Words<'_>, text: &mut String) -> Answer {
    let user = words.hex(alloc)?;
    words.expect("of")?;
    let local = names(alloc, &mut words)?;
    match asked(user.as_slice())? {
        Some((function, start)) => {
            let number = function.number();
            write!(text, "function {number} from {start}: ")?;
            put_page(
                text,
                &page_for(alloc, function, start, local.as_slice(), table)?,
            )?;
        }
        None => writeln!(text, "none")?,
    }
    Ok(())
}

fn put_ask(text: &mut String, ask: Ask) -> Result<(), AllocError> {
    match ask {
        Ask::Lookup(port) => writeln!(text, "lookup by port {port}"),
        Ask::Forward(net) => writeln!(text, "request forwarded to {net}"),
    }
}

/// Appends the lookups and forward requests for a zone of a router with ports on these ranges.
fn expanded(alloc: Global, table: &ZoneTable, mut words: Words<'_>, text: &mut String) -> Answer {
    let zone = words.text(alloc)?;
    words.expect("ports")?;
    let ports = ranges(alloc, words)?;
    let asks = expand(alloc, zone.as_slice(), table, ports.as_slice())?;
    if asks.is_empty() {
        writeln!(text, "none")?;
    }
    for ask in asks.iter() {
        put_ask(text, *ask)?;
    }
    Ok(())
}

/// Appends the replies of a router with this table.
pub(crate) fn act(
    alloc: Global,
    table: &ZoneTable,
    mut words: Words<'_>,
    text: &mut String,
) -> Result<bool, Stop> {
    match words.word() {
        "query" => query(alloc, table, words, text)?,
        "info" => info(alloc, words, text)?,
        "page" => page(alloc, words, text)?,
        "answer" => answer(alloc, table, words, text)?,
        "expand" => expanded(alloc, table, words, text)?,
        _ => return Ok(false),
    }
    Ok(true)
}
