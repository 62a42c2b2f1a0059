//! Writes what a reply says.

use crate::deliveries::{Delivery, Receiver};
use crate::said::{Said, ZonePage};
use crate::shown::write_text;
use at_base::Addr;
use at_base::packet::text_at;
use nbp::{Packet, TupleView};
use std::io;
use std::io::Write;

/// Writes what a reply says, and to whom: a line, or one for each name that was found.
pub(crate) fn write_delivery<W: Write>(writer: &mut W, delivery: &Delivery) -> io::Result<()> {
    let source = delivery.reply.source;
    match delivery.reply.said() {
        Some(Said::Names(packet)) => write_names(writer, delivery.receiver, &packet),
        Some(Said::Echo(count)) => write_echo(writer, delivery.receiver, source, count),
        Some(Said::Zones(page)) => write_zones(writer, delivery.receiver, source, page),
        None => Ok(()),
    }
}

/// Writes who received a reply.
fn write_receiver<W: Write>(writer: &mut W, receiver: Receiver) -> io::Result<()> {
    match receiver {
        Receiver::Node(node) => write!(writer, "node {node}: "),
        Receiver::Station(address) => write!(writer, "{address}: "),
    }
}

/// Writes where each name was found.
fn write_names<W: Write>(
    writer: &mut W,
    receiver: Receiver,
    packet: &Packet<'_>,
) -> io::Result<()> {
    for tuple in packet.tuples() {
        write_receiver(writer, receiver)?;
        write_name(writer, &tuple)?;
    }
    Ok(())
}

/// Writes where a name was found, and ends the line. A node that doesn't know its zone gives none,
/// or `*`.
fn write_name<W: Write>(writer: &mut W, tuple: &TupleView<'_>) -> io::Result<()> {
    write_text(writer, tuple.object())?;
    writer.write_all(b":")?;
    write_text(writer, tuple.kind())?;
    writer.write_all(b"@")?;
    match tuple.zone() {
        [] => writer.write_all(b"*")?,
        zone => write_text(writer, zone)?,
    }
    writeln!(writer, " is at {}, socket {}", tuple.at(), tuple.socket())
}

/// Writes that a station answers an echo.
fn write_echo<W: Write>(
    writer: &mut W,
    receiver: Receiver,
    source: Addr,
    count: usize,
) -> io::Result<()> {
    write_receiver(writer, receiver)?;
    let mark = if count == 1 { "" } else { "s" };
    writeln!(writer, "{source} answers the echo ({count} byte{mark})")
}

/// Writes the zones that a router lists. A single name that isn't said to be the last answers the
/// question for one's own zone, and doesn't tell that there are more.
fn write_zones<W: Write>(
    writer: &mut W,
    receiver: Receiver,
    source: Addr,
    page: ZonePage<'_>,
) -> io::Result<()> {
    write_receiver(writer, receiver)?;
    if page.count == 1 {
        write!(writer, "{source} lists the zone ")?;
    } else {
        write!(writer, "{source} lists the zones ")?;
    }
    write_zone_names(writer, page)?;
    if page.is_last || page.count == 1 {
        writeln!(writer, "")
    } else {
        writeln!(writer, " (there are more)")
    }
}

/// Writes the names of zones.
fn write_zone_names<W: Write>(writer: &mut W, page: ZonePage<'_>) -> io::Result<()> {
    let mut rest = page.names;
    for index in 0..page.count {
        let Ok((name, after)) = text_at(rest, 1) else {
            return Ok(());
        };
        if index > 0 {
            writer.write_all(b", ")?;
        }
        write_text(writer, name)?;
        rest = after;
    }
    Ok(())
}
