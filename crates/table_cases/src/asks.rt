//! The requests and responses of transactions, as text.

ghost use Rattle.std.specs.Prelude.{IfOk};
ghost use Rattle.atp.specs.Requesting.{IsAsk};

use crate::spelling::put_data;
use crate::zone_words::times;
use at_base::{Addr, Bytes};
use atp::{AnswerPart, Ask, Peer};
use case_words::{Answer, Stop, Words, put_hex};
use std::alloc::{AllocError, Global};

/// A socket at a node, as `10.7 socket 128`.
pub(crate) fn peer(words: &mut Words<'_>) -> Result<Peer, Stop> {
    Ok(Peer {
        addr: words.addr()?,
        socket: words.named("socket")?,
    })
}

/// Four user bytes.
fn user(alloc: Global, words: &mut Words<'_>) -> Result<[u8; 4], Stop> {
    match words.hex(alloc)?.as_slice() {
        [a, b, c, d] => Ok([*a, *b, *c, *d]),
        _ => Err(Stop::Unclear),
    }
}

/// The address and the socket that are asked, after the word `to`.
fn to(words: &mut Words<'_>) -> Result<Addr, Stop> {
    words.expect("to")?;
    words.addr()
}

fn once(words: &mut Words<'_>) -> Result<bool, Stop> {
    words.expect("once")?;
    words.yes_or_no()
}

fn named_user(alloc: Global, words: &mut Words<'_>) -> Result<[u8; 4], Stop> {
    words.expect("user")?;
    user(alloc, words)
}

fn data(alloc: Global, words: &mut Words<'_>) -> Result<Bytes, Stop> {
    words.expect("data")?;
    Ok(Bytes::from_vec(words.bytes(alloc)?))
}

/// The request with these words.
fn any_ask(alloc: Global, mut words: Words<'_>) -> Result<Ask, Stop> {
    Ok(Ask {
        to: to(&mut words)?,
        socket: words.named("socket")?,
        parts: words.named("parts")?,
        exactly_once: once(&mut words)?,
        release: words.named("release")?,
        user: named_user(alloc, &mut words)?,
        every: words.named("every")?,
        tries: words.named("tries")?,
        payload: data(alloc, &mut words)?,
    })
}

/// The request with these words, which must be valid: 1 to 8 parts, a release time from 0 to 7, and
/// at least one tick and one try.
pub(crate) fn ask(alloc: Global, words: Words<'_>) -> Result<Ask, Stop>
    ensures { IfOk result (λ a. IsAsk a) }
{
    let ask = any_ask(alloc, words)?;
    if ask.parts < 1 || 8 < ask.parts || 7 < ask.release || ask.every < 1 || ask.tries < 1 {
        return Err(Stop::Unclear);
    }
    Ok(ask)
}

/// A part of a response, as `08000001 6869`.
fn part(alloc: Global, words: &mut Words<'_>) -> Result<AnswerPart, Stop> {
    Ok(AnswerPart {
        user: user(alloc, words)?,
        payload: Bytes::from_vec(words.hex(alloc)?),
    })
}

/// The parts of a response, separated by semicolons, up to a word `/`.
pub(crate) fn parts(alloc: Global, words: &mut Words<'_>) -> Result<Vec<AnswerPart>, Stop> {
    let mut parts = Vec::new(alloc);
    for _ in 0..u64::MAX {
        if words.is_empty() || words.passes("/") {
            break;
        }
        let count = times(words)?;
        let part = part(alloc, words)?;
        for _ in 0..count {
            parts.push(part.copy(alloc)?)?;
        }
        let _ = words.passes(";");
    }
    Ok(parts)
}

/// Appends a part of a response.
pub(crate) fn put_part(text: &mut String, part: &AnswerPart) -> Result<(), AllocError> {
    put_hex(text, &part.user)?;
    put_data(text, part.payload.as_slice())
}

/// Appends a packet: its control byte, bitmap or part, number, user bytes and data.
pub(crate) fn put_packet(text: &mut String, bytes: &[u8]) -> Result<(), AllocError> {
    match bytes {
        [control, part, high, low, a, b, c, d, data @ ..] => {
            put_hex(text, &[*control])?;
            text.push(' ')?;
            put_hex(text, &[*part])?;
            text.push(' ')?;
            put_hex(text, &[*high, *low])?;
            text.push(' ')?;
            put_hex(text, &[*a, *b, *c, *d])?;
            put_data(text, data)
        }
        short => put_data(text, short),
    }
}

/// Appends packets, or that there are none.
pub(crate) fn put_packets(text: &mut String, packets: &[Bytes]) -> Answer {
    if packets.is_empty() {
        writeln!(text, "none")?;
    }
    for packet in packets {
        put_packet(text, packet.as_slice())?;
    }
    Ok(())
}
