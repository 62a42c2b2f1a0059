//! Frames as text.

use aarp::{Function, Packet};
use case_words::{Stop, Words};
use ddp::Header;
use station::{Heard, Kind, Link};
use std::alloc::Global;

/// A frame for a station to receive.
#[derive(Drop)]
pub(crate) struct Frame {
    port: u8,
    link: Link,
    kind: Kind,
    bytes: Vec<u8>,
}

impl Frame {
    /// The frame as a station receives it.
    pub(crate) fn heard(&self) -> Heard<'_> {
        Heard {
            port: self.port,
            link: self.link,
            kind: self.kind,
            bytes: self.bytes.as_slice(),
        }
    }
}

fn link(words: &mut Words<'_>) -> Result<Link, Stop> {
    match words.word() {
        "own" => Ok(Link::Own),
        "all" => Ok(Link::All),
        "group" => Ok(Link::Group(words.number()?)),
        _ => Err(Stop::Unclear),
    }
}

fn function(word: &str) -> Option<Function> {
    match word {
        "request" => Some(Function::Request),
        "response" => Some(Function::Response),
        "probe" => Some(Function::Probe),
        _ => None,
    }
}

/// These bytes, and then those up to the end of the line.
fn joined(alloc: Global, first: &[u8], words: &mut Words<'_>) -> Result<Vec<u8>, Stop> {
    let mut bytes = Vec::from_slice(alloc, first)?;
    if !words.passes("-") {
        let more = words.bytes(alloc)?;
        bytes.extend_from_slice(more.as_slice())?;
    }
    Ok(bytes)
}

/// A checksum: `no`, `yes` for the right one, or the two bytes of another.
fn sum(alloc: Global, words: &mut Words<'_>) -> Result<(bool, Vec<u8>), Stop> {
    words.expect("sum")?;
    if words.passes("no") {
        return Ok((false, Vec::new(alloc)));
    }
    if words.passes("yes") {
        return Ok((true, Vec::new(alloc)));
    }
    Ok((false, words.hex(alloc)?))
}

/// The header of a datagram, as `from 10.7 128 to 30.5 4 type 4`.
fn header(words: &mut Words<'_>) -> Result<Header, Stop> {
    words.expect("from")?;
    let source = words.addr()?;
    let source_socket = words.number()?;
    words.expect("to")?;
    let target = words.addr()?;
    Ok(Header {
        summed: false,
        target,
        source,
        target_socket: words.number()?,
        source_socket,
        kind: words.named("type")?,
    })
}

fn put_at(bytes: &mut Vec<u8>, index: usize, value: u8) {
    if let Some(byte) = bytes.get_mut(index) {
        *byte = value;
    }
}

/// Sets the hop count in a datagram's header, and its checksum if one is given.
fn amend(bytes: &mut Vec<u8>, hops: u8, sum: &[u8]) {
    if let Some(byte) = bytes.get_mut(0) {
        *byte |= (hops & 0x0F) << 2;
    }
    if let [high, low] = sum {
        put_at(bytes, 2, *high);
        put_at(bytes, 3, *low);
    }
}

/// The bytes of a datagram, as `from 10.7 128 to 30.5 4 type 4 hops 0 sum no data 0170696E67`.
fn datagram(alloc: Global, first: &[u8], words: &mut Words<'_>) -> Result<Vec<u8>, Stop> {
    let header = header(words)?;
    let hops = words.named("hops")?;
    let (summed, sum) = sum(alloc, words)?;
    words.expect("data")?;
    let data = joined(alloc, first, words)?;
    let header = Header { summed, ..header };
    let mut bytes = ddp::write(alloc, &header, data.as_slice())?.into_vec();
    amend(&mut bytes, hops, sum.as_slice());
    Ok(bytes)
}

/// The bytes of an AARP packet, as `020000000007 10.7 to 000000000000 10.1`.
fn packet(alloc: Global, function: Function, words: &mut Words<'_>) -> Result<Vec<u8>, Stop> {
    let source_hw = words.hw()?;
    let source = words.addr()?;
    words.expect("to")?;
    let packet = Packet {
        function,
        source_hw,
        source,
        target_hw: words.hw()?,
        target: words.addr()?,
    };
    Ok(Vec::from_slice(alloc, &packet.write())?)
}

/// The bytes of an AARP packet, in hexadecimal digits or by its fields.
fn packet_bytes(alloc: Global, first: &[u8], words: &mut Words<'_>) -> Result<Vec<u8>, Stop> {
    let mut after = *words;
    match function(after.word()) {
        Some(function) => packet(alloc, function, &mut after),
        None => joined(alloc, first, words),
    }
}

/// What a frame carries, as a datagram or an AARP packet, in hexadecimal digits or by its fields. Its
/// bytes begin with the given ones.
pub(crate) fn on_cable(
    alloc: Global,
    first: &[u8],
    mut words: Words<'_>,
) -> Result<(Kind, Vec<u8>), Stop> {
    if words.passes("aarp") {
        return Ok((Kind::Aarp, packet_bytes(alloc, first, &mut words)?));
    }
    if words.passes("datagram") {
        return Ok((Kind::Ddp, datagram(alloc, first, &mut words)?));
    }
    Ok((Kind::Ddp, joined(alloc, first, &mut words)?))
}

/// A frame, as `port 0 own` and then a datagram or an AARP packet, in hexadecimal digits or by its
/// fields. Its bytes begin with the given ones.
pub(crate) fn frame_of(alloc: Global, first: &[u8], mut words: Words<'_>) -> Result<Frame, Stop> {
    let port = words.named("port")?;
    let link = link(&mut words)?;
    let (kind, bytes) = on_cable(alloc, first, words)?;
    Ok(Frame {
        port,
        link,
        kind,
        bytes,
    })
}
