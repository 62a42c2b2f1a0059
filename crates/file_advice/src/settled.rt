//! Words for what became of the stations of a play: zones that are others than the file's, and
//! addresses that two stations try.

use at_base::{Addr, Name};
use internet_file::Plan;
use std::alloc::{AllocError, Global};
use std::io;
use std::io::Write;
use table_image::Image;

/// The greatest number of lines about one thing.
const MOST: usize = 20;

/// A port or a node of a file.
#[derive(Clone, Copy)]
struct Station<'a> {
    /// The number of the router, and of its port; of the port 0 for a node, which has the first
    /// number.
    number: usize,
    port: usize,
    cable: u16,
    tries: &'a [Addr],
}

/// The number of an item with this index, from 1.
fn number(index: usize) -> usize {
    index.saturating_add(1)
}

/// The ports of the routers, and then the nodes.
fn stations_of(alloc: Global, plan: &Plan) -> Result<Vec<Station<'_>>, AllocError> {
    let mut stations = Vec::new(alloc);
    for (index, router) in plan.routers().iter().enumerate() {
        for (at, port) in router.port.as_slice().iter().enumerate() {
            stations.push(Station {
                number: number(index),
                port: number(at),
                cable: port.cable,
                tries: port.tries.as_slice(),
            })?;
        }
    }
    for (index, node) in plan.nodes().iter().enumerate() {
        stations.push(Station {
            number: number(index),
            port: 0,
            cable: node.cable,
            tries: node.tries.as_slice(),
        })?;
    }
    Ok(stations)
}

/// Writes which station it is.
fn write_station<W: Write>(writer: &mut W, station: Station<'_>) -> io::Result<()> {
    if station.port == 0 {
        write!(writer, "node {}", station.number)
    } else {
        write!(writer, "router {} port {}", station.number, station.port)
    }
}

/// The first address that two stations of one cable both try.
fn shared_try(one: Station<'_>, other: Station<'_>) -> Option<Addr> {
    if one.cable != other.cable {
        return None;
    }
    one.tries
        .iter()
        .find(|address| other.tries.contains(*address))
        .copied()
}

/// Writes a line for each two stations of a cable that try one address, at most 20.
pub fn write_shared_tries<W: Write>(
    alloc: Global,
    writer: &mut W,
    name: &str,
    plan: &Plan,
) -> io::Result<()> {
    let stations = stations_of(alloc, plan)?;
    let mut told = 0usize;
    for (index, station) in stations.iter().enumerate() {
        for earlier in stations.iter().take(index) {
            if let Some(address) = shared_try(*station, *earlier)
                && told < MOST
            {
                told = told.saturating_add(1);
                write!(writer, "atalk: {name}: ")?;
                write_station(writer, *station)?;
                write!(writer, " tries {address}, and so does ")?;
                write_station(writer, *earlier)?;
                writeln!(writer, ": one of them can have it")?;
            }
        }
    }
    Ok(())
}

/// Writes a zone's name, in quotes. Bytes that aren't printable ASCII are written as `\x8E`, and so
/// are the backslash and the quote.
fn write_name<W: Write>(writer: &mut W, name: &Name) -> io::Result<()> {
    writer.write_all(b"\"")?;
    for byte in name.as_slice() {
        match *byte {
            b'\\' | b'"' => write!(writer, "\\x{byte:02X}")?,
            0x20..=0x7E => writer.write_all(&[*byte])?,
            _ => write!(writer, "\\x{byte:02X}")?,
        }
    }
    writer.write_all(b"\"")
}

/// Writes a line for each node whose zone in the image is another than in the file, since its cable
/// doesn't have that zone; at most 20.
pub fn write_other_zones<W: Write>(
    writer: &mut W,
    name: &str,
    plan: &Plan,
    image: &Image,
) -> io::Result<()> {
    let pairs = plan.nodes().iter().zip(image.nodes());
    let others = pairs
        .enumerate()
        .filter(|(_, (node, frozen))| !node.zone.same(&frozen.zone));
    for (index, (node, frozen)) in others.take(MOST) {
        write!(
            writer,
            "atalk: {name}: node {} asked for the zone ",
            number(index)
        )?;
        write_name(writer, &node.zone)?;
        write!(writer, ", and its router answered ")?;
        write_name(writer, &frozen.zone)?;
        writeln!(writer, ": its names are found in that zone alone")?;
    }
    Ok(())
}
