//! ZIP packets, and queries.

use crate::cable_info::put_info;
use crate::hex_lines::{put_bytes, put_written};
use crate::names_asked::put_named;
use case_words::{Answer, Stop, Words, put_hex, put_text};
use std::alloc::{AllocError, Global};
use zip_zones::{Entries, Networks, Packet, write_query};

fn put_networks(text: &mut String, networks: Networks<'_>) -> Result<(), AllocError> {
    for net in networks {
        writeln!(text, "network {net}")?;
    }
    Ok(())
}

fn put_entries(text: &mut String, entries: Entries<'_>) -> Result<(), AllocError> {
    for entry in entries {
        let net = entry.net;
        write!(text, "network {net} zone ")?;
        put_text(text, entry.name.as_slice())?;
        writeln!(text)?;
    }
    Ok(())
}

/// Appends a packet.
pub(crate) fn put_packet(bytes: &[u8], text: &mut String) -> Answer {
    match Packet::read(bytes)? {
        Packet::Query(networks) => {
            writeln!(text, "query")?;
            put_networks(text, networks)?;
        }
        Packet::Reply(count, entries) => {
            writeln!(text, "reply count {count}")?;
            put_entries(text, entries)?;
        }
        Packet::GetNetInfo(unused, asked) => {
            write!(text, "GetNetInfo unused ")?;
            put_hex(text, &unused)?;
            writeln!(text)?;
            put_named(text, "zone", asked.as_slice())?;
        }
        Packet::NetInfoReply(info) => put_info(text, &info)?,
        Packet::ExtendedReply(total, entries) => {
            writeln!(text, "extended-reply total {total}")?;
            put_entries(text, entries)?;
        }
    }
    Ok(())
}

/// Appends the zone that a packet requests.
pub(crate) fn put_asked(bytes: &[u8], text: &mut String) -> Answer {
    match Packet::read(bytes)?.asked() {
        Some(zone) => put_named(text, "zone", zone.as_slice())?,
        None => writeln!(text, "asks for no zone")?,
    }
    Ok(())
}

/// A network and the number of its repetitions, as `30` or `258 times 255`.
fn network(words: &mut Words<'_>) -> Result<(u16, u16), Stop> {
    let net = words.number()?;
    if words.passes("times") {
        return Ok((net, words.number()?));
    }
    Ok((net, 1))
}

fn networks(alloc: Global, mut words: Words<'_>) -> Result<Vec<u16>, Stop> {
    let mut networks = Vec::new(alloc);
    for _ in 0..u64::MAX {
        if words.is_empty() {
            break;
        }
        let (net, count) = network(&mut words)?;
        for _ in 0..count {
            networks.push(net)?;
        }
    }
    Ok(networks)
}

/// Writes a query.
pub(crate) fn write(alloc: Global, words: Words<'_>, text: &mut String) -> Answer {
    let networks = networks(alloc, words)?;
    put_written(text, write_query(alloc, networks.as_slice())?)?;
    Ok(())
}

/// Appends the bytes of the replies to a query, each on separate lines.
pub(crate) fn put_replies(text: &mut String, replies: &[at_base::Bytes]) -> Answer {
    for reply in replies {
        put_bytes(text, reply.as_slice())?;
    }
    if replies.is_empty() {
        writeln!(text, "no reply")?;
    }
    Ok(())
}
