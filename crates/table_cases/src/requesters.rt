//! The open transactions of a requester.

ghost use Rattle.atp.specs.Requesting.{IsAsk};

use crate::asks::{ask, peer, put_packet, put_part};
use crate::spelling::put_or_none;
use at_base::Error;
use atp::{Ask, Outcome, Packet, Peer, Requester, Response};
use case_words::{Answer, Stop, Words, yes_or_no};
use std::alloc::{AllocError, Global};

/// A requester, and another that may be a copy of it.
#[derive(Drop)]
pub(crate) struct Requesting {
    alloc: Global,
    requester: Requester,
    other: Requester,
}

fn begin(alloc: Global, requester: &mut Requester, words: Words<'_>, text: &mut String) -> Answer {
    let id = requester.begin(ask(alloc, words)?)?;
    writeln!(text, "{id}")?;
    Ok(())
}

/// Appends the request of the transaction with this ID.
fn request(requester: &mut Requester, id: u16, text: &mut String) -> Answer {
    let bytes = requester.request(id)?;
    put_packet(text, bytes.as_slice())?;
    Ok(())
}

/// Handles a packet, and appends the release that follows, if any.
fn hear(
    alloc: Global,
    requester: &mut Requester,
    mut words: Words<'_>,
    text: &mut String,
) -> Answer {
    let from = peer(&mut words)?;
    let bytes = words.bytes(alloc)?;
    match requester.heard(from, &Packet::read(bytes.as_slice())?)? {
        Some(release) => put_packet(text, release.as_slice())?,
        None => writeln!(text, "none")?,
    }
    Ok(())
}

fn put_response(text: &mut String, response: &Response) -> Result<(), AllocError> {
    let count = response.len();
    writeln!(text, "complete, {count} parts")?;
    for index in 0..count {
        if let Some(part) = response.get(index) {
            put_part(text, part)?;
        }
    }
    Ok(())
}

/// Appends the outcome of a transaction.
fn put_result(text: &mut String, requester: &mut Requester, id: u16) -> Answer {
    match requester.result(id)? {
        Outcome::Waiting => writeln!(text, "waiting")?,
        Outcome::Failed => writeln!(text, "failed")?,
        Outcome::Complete(response) => put_response(text, &response)?,
    }
    Ok(())
}

/// Begins a transaction, handles a response of one part without data, and closes the transaction.
/// Returns its ID. Nothing is allocated if the request has no data.
fn pass_one(alloc: Global, requester: &mut Requester, ask: &Ask) -> Result<u16, Stop>
    requires { IsAsk ask.now }
{
    let from = Peer {
        addr: ask.to,
        socket: ask.socket,
    };
    let id = requester.begin(ask.copy(alloc)?)?;
    let [high, low] = id.to_be_bytes();
    let bytes = [0x90, 0, high, low, 0, 0, 0, 0];
    let _release = requester.heard(from, &Packet::read(&bytes)?)?;
    match requester.result(id)? {
        Outcome::Complete(_) => Ok(id),
        Outcome::Waiting | Outcome::Failed => Err(Stop::Unclear),
    }
}

/// Carries out a number of transactions, one after the other, and appends the first ID and the
/// last, and each ID that isn't the one before plus 1.
fn pass(
    alloc: Global,
    requester: &mut Requester,
    mut words: Words<'_>,
    text: &mut String,
) -> Answer {
    let count: u32 = words.number()?;
    let ask = ask(alloc, words)?;
    let first = pass_one(alloc, requester, &ask)?;
    let mut last = first;
    for _ in 1..count {
        let id = pass_one(alloc, requester, &ask)?;
        if id != last.wrapping_add(1) {
            writeln!(text, "{id} after {last}")?;
        }
        last = id;
    }
    writeln!(text, "{first} to {last}")?;
    Ok(())
}

/// Advances the requester by a number of ticks.
fn tick(requester: &mut Requester, count: u32) {
    for _ in 0..count {
        requester.tick();
    }
}

fn put_full(text: &mut String, requester: &Requester) -> Result<(), AllocError> {
    let full = yes_or_no(requester.is_full());
    writeln!(text, "{full}")
}

impl Requesting {
    /// A requester with its first transaction ID.
    pub(crate) fn new(alloc: Global, mut words: Words<'_>) -> Result<Requesting, Stop> {
        let first = words.named("first")?;
        Ok(Requesting {
            alloc,
            requester: Requester::new(alloc, first)?,
            other: Requester::new(alloc, first)?,
        })
    }

    /// Carries out a command.
    pub(crate) fn act(&mut self, mut words: Words<'_>, text: &mut String) -> Answer {
        let (alloc, requester) = (self.alloc, &mut self.requester);
        match words.word() {
            "begin" => begin(alloc, requester, words, text)?,
            "due" => put_or_none(text, requester.due())?,
            "request" => request(requester, words.number()?, text)?,
            "hear" => hear(alloc, requester, words, text)?,
            "tick" => tick(requester, words.number()?),
            "result" => put_result(text, requester, words.number()?)?,
            "full" => put_full(text, requester)?,
            "pass" => pass(alloc, requester, words, text)?,
            "copy" => self.other = requester.copy()?,
            "swap" => std::mem::swap(requester, &mut self.other),
            _ => return Err(Stop::Unclear),
        }
        Ok(())
    }
}
