//! Questions about a node's state, and the calls of its user.

use crate::nodes::{Pattern, Sending, User};
use crate::outputs::put_outputs;
use crate::texts::{Entity, entity_of, put_entity, zone};
use at_base::Addr;
use atp::{Outcome, Response};
use case_words::{Answer, Stop, Words, put_hex, put_line, put_text};
use end_node::{Datagram, EndNode};
use nbp::Names;
use station::Outputs;
use std::alloc::{AllocError, Global};

/// Appends an address, or that it is missing.
fn put_addr(text: &mut String, addr: Option<Addr>) -> Result<(), AllocError> {
    match addr {
        Some(addr) => write!(text, "{addr}"),
        None => write!(text, "none"),
    }
}

/// Appends the address, the zone and the router of a node.
fn put_node(text: &mut String, node: &EndNode) -> Result<(), AllocError> {
    write!(text, "own ")?;
    put_addr(text, node.own())?;
    write!(text, " zone ")?;
    put_text(text, node.zone().as_slice())?;
    write!(text, " router ")?;
    put_addr(text, node.router())?;
    writeln!(text)
}

/// Appends the lines of a node's names.
fn put_names(text: &mut String, names: &Names) -> Result<(), AllocError> {
    if names.entries().is_empty() {
        return writeln!(text, "none");
    }
    for name in names.entries() {
        let (enumerator, socket) = (name.enumerator, name.socket);
        write!(text, "{enumerator} ")?;
        put_entity(text, &name.object, &name.kind)?;
        writeln!(text, " socket {socket}")?;
    }
    Ok(())
}

/// Appends the line of a datagram that was received.
fn put_datagram(text: &mut String, datagram: &Datagram) -> Result<(), AllocError> {
    let (source, source_socket) = (datagram.source, datagram.source_socket);
    let (target_socket, kind) = (datagram.target_socket, datagram.kind);
    write!(
        text,
        "from {source} {source_socket} to {target_socket} type {kind} data "
    )?;
    put_line(text, datagram.payload.as_slice())
}

fn put_received(text: &mut String, datagrams: &[Datagram]) -> Result<(), AllocError> {
    if datagrams.is_empty() {
        return writeln!(text, "none");
    }
    for datagram in datagrams {
        put_datagram(text, datagram)?;
    }
    Ok(())
}

/// Appends a line for each part of a response.
fn put_response(text: &mut String, response: &Response) -> Result<(), AllocError> {
    let parts = response.len();
    writeln!(text, "complete, {parts} parts")?;
    for index in 0..parts {
        if let Some(part) = response.get(index) {
            write!(text, "part {index} user ")?;
            put_hex(text, &part.user)?;
            write!(text, " data ")?;
            put_line(text, part.payload.as_slice())?;
        }
    }
    Ok(())
}

fn put_outcome(text: &mut String, outcome: &Outcome) -> Result<(), AllocError> {
    match outcome {
        Outcome::Waiting => writeln!(text, "waiting"),
        Outcome::Complete(response) => put_response(text, response),
        Outcome::Failed => writeln!(text, "failed"),
    }
}

/// The fields of a datagram to send, as `to 12.9 72 from 73 type 9 sum no`.
fn sending(words: &mut Words<'_>) -> Result<Sending, Stop> {
    words.expect("to")?;
    Ok(Sending {
        target: words.addr()?,
        target_socket: words.number()?,
        source_socket: words.named("from")?,
        kind: words.named("type")?,
        summed: summed(words)?,
    })
}

fn summed(words: &mut Words<'_>) -> Result<bool, Stop> {
    words.expect("sum")?;
    words.yes_or_no()
}

fn send<U: User>(alloc: Global, user: &U, mut words: Words<'_>, text: &mut String) -> Answer {
    let what = sending(&mut words)?;
    words.expect("data")?;
    let _ = words.passes("-");
    let payload = words.bytes(alloc)?;
    let mut outputs = Outputs::new(alloc)?;
    user.sends(&what, payload.as_slice(), &mut outputs)?;
    put_outputs(text, None, &outputs)?;
    Ok(())
}

/// The patterns of a lookup, as `"=":"LaserWriter"@"Blue"`.
fn pattern(alloc: Global, words: &mut Words<'_>) -> Result<Pattern, Stop> {
    let Entity { object, kind } = entity_of(alloc, words)?;
    Ok(Pattern {
        object,
        kind,
        zone: zone(alloc, words)?,
    })
}

fn look_up<U: User>(alloc: Global, user: &U, mut words: Words<'_>, text: &mut String) -> Answer {
    let id = words.number()?;
    let name = pattern(alloc, &mut words)?;
    let mut outputs = Outputs::new(alloc)?;
    user.looks_up(id, &name, &mut outputs)?;
    put_outputs(text, None, &outputs)?;
    Ok(())
}

/// Registers a name for a socket, 1 to 254, and appends its enumerator.
fn register<U: User>(
    alloc: Global,
    user: &mut U,
    mut words: Words<'_>,
    text: &mut String,
) -> Answer {
    let Entity { object, kind } = entity_of(alloc, &mut words)?;
    let socket: u8 = words.named("socket")?;
    if socket < 1 || 254 < socket {
        return Err(Stop::Unclear);
    }
    let enumerator = user.registers(object, kind, socket)?;
    writeln!(text, "{enumerator}")?;
    Ok(())
}

/// Asks for zones, and appends the ID of the transaction and the outputs.
fn ask_for_zones<U: User>(alloc: Global, user: &mut U, start: u16, text: &mut String) -> Answer {
    let mut outputs = Outputs::new(alloc)?;
    let id = user.asks_for_zones(start, &mut outputs)?;
    writeln!(text, "transaction {id}")?;
    put_outputs(text, None, &outputs)?;
    Ok(())
}

/// Carries out a command.
pub(crate) fn ask_user<U: User>(
    alloc: Global,
    user: &mut U,
    mut words: Words<'_>,
    text: &mut String,
) -> Answer {
    match words.word() {
        "node" => put_node(text, user.held())?,
        "names" => put_names(text, user.held().names())?,
        "received" => put_received(text, user.held().received()?.as_slice())?,
        "send" => send(alloc, user, words, text)?,
        "lookup" => look_up(alloc, user, words, text)?,
        "register" => register(alloc, user, words, text)?,
        "ask-zone-list" => ask_for_zones(alloc, user, words.number()?, text)?,
        "zone-list" => put_outcome(text, &user.zones_of(words.number()?)?)?,
        _ => return Err(Stop::Unclear),
    }
    Ok(())
}
