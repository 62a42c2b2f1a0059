//! NBP packets.

use crate::hex_lines::put_written;
use at_base::Text32;
use case_words::{Answer, Stop, Words, put_text};
use nbp::{Function, Packet, Tuple, TupleView};
use std::alloc::{AllocError, Global};

fn function(words: &mut Words<'_>) -> Result<Function, Stop> {
    Ok(match words.word() {
        "broadcast-request" => Function::BroadcastRequest,
        "lookup" => Function::Lookup,
        "reply" => Function::Reply,
        "forward-request" => Function::ForwardRequest,
        _ => return Err(Stop::Unclear),
    })
}

fn function_word(function: Function) -> &'static str {
    match function {
        Function::BroadcastRequest => "broadcast-request",
        Function::Lookup => "lookup",
        Function::Reply => "reply",
        Function::ForwardRequest => "forward-request",
    }
}

/// Appends a text after its label, on a separate line.
pub(crate) fn put_named(text: &mut String, name: &str, bytes: &[u8]) -> Result<(), AllocError> {
    write!(text, "{name} ")?;
    put_text(text, bytes)?;
    writeln!(text)
}

fn put_view(text: &mut String, view: &TupleView<'_>) -> Result<(), AllocError> {
    let (at, socket, enumerator) = (view.at(), view.socket(), view.enumerator());
    writeln!(text, "{at} socket {socket} enumerator {enumerator}")?;
    put_named(text, "object", view.object())?;
    put_named(text, "type", view.kind())?;
    put_named(text, "zone", view.zone())
}

fn put_tuple(text: &mut String, tuple: &Tuple) -> Result<(), AllocError> {
    let (at, socket, enumerator) = (tuple.at, tuple.socket, tuple.enumerator);
    writeln!(text, "{at} socket {socket} enumerator {enumerator}")?;
    put_named(text, "object", tuple.object.as_slice())?;
    put_named(text, "type", tuple.kind.as_slice())?;
    put_named(text, "zone", tuple.zone.as_slice())
}

/// Appends a packet.
pub(crate) fn put_packet(bytes: &[u8], text: &mut String) -> Answer {
    let packet = Packet::read(bytes)?;
    let function = function_word(packet.function());
    let id = packet.id();
    writeln!(text, "{function} ID {id}")?;
    for view in packet.tuples() {
        put_view(text, &view)?;
    }
    Ok(())
}

/// Appends a copy of a packet's first tuple.
pub(crate) fn put_first(bytes: &[u8], text: &mut String) -> Answer {
    put_tuple(text, &Packet::read(bytes)?.first().copy())?;
    Ok(())
}

/// A number after the word that names it, which may be left out.
fn number(words: &mut Words<'_>, name: &str) -> Result<u8, Stop> {
    let _ = words.passes(name);
    words.number()
}

/// A text after the word that names it, which may be left out.
fn part(alloc: Global, words: &mut Words<'_>, name: &str) -> Result<Text32, Stop> {
    let _ = words.passes(name);
    words.text32(alloc)
}

/// A tuple, as `10.7 socket 253 enumerator 0 object "=" type "=" zone "blue"`.
fn tuple(alloc: Global, words: &mut Words<'_>) -> Result<Tuple, Stop> {
    let at = words.addr()?;
    let socket = number(words, "socket")?;
    let enumerator = number(words, "enumerator")?;
    let object = part(alloc, words, "object")?;
    let kind = part(alloc, words, "type")?;
    let zone = part(alloc, words, "zone")?;
    Ok(Tuple {
        at,
        socket,
        enumerator,
        object,
        kind,
        zone,
    })
}

/// Writes a packet of one tuple.
pub(crate) fn write(alloc: Global, mut words: Words<'_>, text: &mut String) -> Answer {
    let function = function(&mut words)?;
    let id = number(&mut words, "ID")?;
    let tuple = tuple(alloc, &mut words)?;
    put_written(text, nbp::write(alloc, function, id, &tuple)?)?;
    Ok(())
}
