//! The requests that a responder received, and the answers that it keeps.

ghost use Rattle.std.specs.Prelude.{◌<◌};

use crate::asks::{parts, peer, put_packets};
use at_base::{Bytes, Error};
use atp::{AnswerPart, Packet, Peer, Responder, Todo, reply};
use case_words::{Answer, Stop, Words};
use std::alloc::{AllocError, Global};

/// A responder, and another that may be a copy of it.
#[derive(Drop)]
pub(crate) struct Responding {
    alloc: Global,
    responder: Responder,
    other: Responder,
}

fn put_todo(text: &mut String, todo: Todo) -> Result<(), AllocError> {
    let word = match todo {
        Todo::Ask => "ask",
        Todo::Again => "again",
        Todo::Wait => "wait",
        Todo::Nothing => "nothing",
    };
    writeln!(text, "{word}")
}

/// Handles a packet from a socket.
fn hear(
    alloc: Global,
    responder: &mut Responder,
    mut words: Words<'_>,
    text: &mut String,
) -> Answer {
    let from = peer(&mut words)?;
    let bytes = words.bytes(alloc)?;
    let todo = responder.heard(from, &Packet::read(bytes.as_slice())?)?;
    put_todo(text, todo)?;
    Ok(())
}

/// Responds with at least one part.
fn responded(
    responder: &mut Responder,
    from: Peer,
    id: u16,
    parts: &[AnswerPart],
) -> Result<Vec<Bytes>, Stop> {
    if parts.is_empty() {
        return Err(Stop::Unclear);
    }
    Ok(responder.respond(from, id, parts)?)
}

/// Responds, and appends the packets that are sent.
fn respond(
    alloc: Global,
    responder: &mut Responder,
    mut words: Words<'_>,
    text: &mut String,
) -> Answer {
    let from = peer(&mut words)?;
    let id = words.named("id")?;
    let user = parts(alloc, &mut words)?;
    put_packets(
        text,
        responded(responder, from, id, user.as_slice())?.as_slice(),
    )
}

/// The packets of the parts of a kept answer that a bitmap requests.
fn kept(responder: &Responder, mut words: Words<'_>) -> Result<Vec<Bytes>, Stop> {
    let from = peer(&mut words)?;
    let id = words.named("id")?;
    words.expect("bitmap")?;
    Ok(responder.parts(from, id, words.byte()?)?)
}

/// Replies to a packet with at least one part.
fn replied(
    responder: &mut Responder,
    from: Peer,
    bytes: &[u8],
    user: &[AnswerPart],
) -> Result<Vec<Bytes>, Stop> {
    if user.is_empty() {
        return Err(Stop::Unclear);
    }
    Ok(reply(responder, from, &Packet::read(bytes)?, user)?)
}

/// Replies to a packet with the user's parts, as `10.7 socket 128 08000001 00 / ` and the packet,
/// and appends the packets that are sent.
fn answer(
    alloc: Global,
    responder: &mut Responder,
    mut words: Words<'_>,
    text: &mut String,
) -> Answer {
    let from = peer(&mut words)?;
    let user = parts(alloc, &mut words)?;
    let bytes = words.bytes(alloc)?;
    let sent = replied(responder, from, bytes.as_slice(), user.as_slice())?;
    put_packets(text, sent.as_slice())
}

/// Removes a request.
fn forget(responder: &mut Responder, mut words: Words<'_>) -> Answer {
    let from = peer(&mut words)?;
    responder.released(from, words.named("id")?);
    Ok(())
}

/// Advances the responder by a number of ticks.
fn tick(responder: &mut Responder, count: u32) {
    for _ in 0..count {
        responder.tick();
    }
}

impl Responding {
    /// A responder without requests.
    pub(crate) fn new(alloc: Global) -> Result<Responding, Error> {
        Ok(Responding {
            alloc,
            responder: Responder::new(alloc)?,
            other: Responder::new(alloc)?,
        })
    }

    /// Carries out a command.
    pub(crate) fn act(&mut self, mut words: Words<'_>, text: &mut String) -> Answer {
        let (alloc, responder) = (self.alloc, &mut self.responder);
        match words.word() {
            "hear" => hear(alloc, responder, words, text)?,
            "respond" => respond(alloc, responder, words, text)?,
            "parts" => put_packets(text, kept(responder, words)?.as_slice())?,
            "reply" => answer(alloc, responder, words, text)?,
            "forget" => forget(responder, words)?,
            "tick" => tick(responder, words.number()?),
            "copy" => self.other = responder.copy()?,
            "swap" => std::mem::swap(responder, &mut self.other),
            _ => return Err(Stop::Unclear),
        }
        Ok(())
    }
}
