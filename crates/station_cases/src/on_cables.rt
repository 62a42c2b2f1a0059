//! Stations with ports on cables that they don't own: the frames that they hear, and what they put.

use crate::frames::on_cable;
use crate::outputs::put_packet;
use at_base::{Error, Hw};
use cabled::{Cabled, Carried, Put, Puts};
use case_words::{Answer, Stop, Words, put_hw};
use ethertalk::Frame;
use station::Kind;
use std::alloc::{AllocError, Global};

/// Appends the line of a packet that is put.
fn put_line(text: &mut String, put: &Put) -> Result<(), AllocError> {
    write!(text, "put port {} to ", put.port)?;
    put_hw(text, put.to)?;
    match &put.carried {
        Carried::Datagram(bytes) => put_packet(text, Kind::Ddp, bytes.as_slice()),
        Carried::Written(bytes) => put_packet(text, Kind::Aarp, bytes.as_slice()),
        Carried::Packet(packet) => put_packet(text, Kind::Aarp, &packet.write()),
    }
}

/// Appends the lines of packets that are put, each after the number of the tick, if one is given.
fn put_lines(text: &mut String, number: Option<u32>, puts: &Puts) -> Result<(), AllocError> {
    for put in puts.as_slice() {
        if let Some(number) = number {
            write!(text, "tick {number} ")?;
        }
        put_line(text, put)?;
    }
    Ok(())
}

/// Lets a station hear a frame, as `port 0 020000000009 to 020000000001` and then what it carries.
/// Appends what it puts.
pub(crate) fn hear<C: Cabled>(
    alloc: Global,
    station: &mut C,
    first: &[u8],
    mut words: Words<'_>,
    text: &mut String,
) -> Answer {
    let port = words.named("port")?;
    let from: Hw = words.hw()?;
    words.expect("to")?;
    let to = words.hw()?;
    let (kind, bytes) = on_cable(alloc, first, words)?;
    let frame = Frame {
        to,
        from,
        kind,
        packet: bytes.as_slice(),
    };
    let mut puts = Puts::new(alloc);
    station.receive(port, &frame, &mut puts)?;
    put_lines(text, None, &puts)?;
    Ok(())
}

/// Advances a station by a tick, with another attempt if an allocation failed.
fn tick<C: Cabled>(station: &mut C, puts: &mut Puts) -> Result<(), Error> {
    match station.advance(puts) {
        Err(Error::Memory) => station.advance(puts),
        answer => answer,
    }
}

/// Advances a station by a tick, and appends what it puts. Returns how many packets that are.
pub(crate) fn let_pass<C: Cabled>(
    alloc: Global,
    station: &mut C,
    number: Option<u32>,
    text: &mut String,
) -> Result<usize, Stop> {
    let mut puts = Puts::new(alloc);
    tick(station, &mut puts)?;
    put_lines(text, number, &puts)?;
    Ok(puts.as_slice().len())
}
