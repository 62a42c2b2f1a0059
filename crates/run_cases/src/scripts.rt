//! Scripts and their steps.

use case_words::{Answer, Stop, Words, put_line, put_text};
use events::Event;
use script::{Step, read};
use std::alloc::{AllocError, Global};

/// The bytes of a script: a text in quotation marks, or `hex` and digits.
fn text_of(alloc: Global, words: &mut Words<'_>) -> Result<Vec<u8>, Stop> {
    if words.passes("hex") {
        words.bytes(alloc)
    } else {
        words.text(alloc)
    }
}

/// The steps of a script.
pub(crate) fn steps(alloc: Global, mut words: Words<'_>) -> Result<Vec<Step>, Stop> {
    let bytes = text_of(alloc, &mut words)?;
    Ok(read(alloc, bytes.as_slice())?)
}

fn put_via(text: &mut String, via: Option<at_base::Addr>) -> Result<(), AllocError> {
    match via {
        Some(via) => write!(text, " by {via}"),
        None => write!(text, " by its router"),
    }
}

fn put_name(text: &mut String, name: &nbp::Tuple) -> Result<(), AllocError> {
    let (at, socket, enumerator) = (name.at, name.socket, name.enumerator);
    put_text(text, name.object.as_slice())?;
    text.push(':')?;
    put_text(text, name.kind.as_slice())?;
    text.push('@')?;
    put_text(text, name.zone.as_slice())?;
    writeln!(text, " at {at} socket {socket} enumerator {enumerator}")
}

fn put_event(text: &mut String, event: &Event) -> Result<(), AllocError> {
    match event {
        Event::Send {
            node,
            via,
            target,
            target_socket,
            source_socket,
            kind,
            summed,
            payload,
        } => {
            write!(text, "{node} sends")?;
            put_via(text, *via)?;
            write!(
                text,
                " from {source_socket} to {target} {target_socket} type {kind} "
            )?;
            write!(text, "summed {} ", case_words::yes_or_no(*summed))?;
            put_line(text, payload.as_slice())
        }
        Event::Request {
            node,
            via,
            id,
            name,
        } => {
            write!(text, "{node} asks")?;
            put_via(text, *via)?;
            write!(text, " id {id} for ")?;
            put_name(text, name)
        }
        Event::Take { stamp, station } => writeln!(text, "{station} takes {stamp}"),
    }
}

/// Appends the steps of a script.
pub(crate) fn answer(alloc: Global, words: Words<'_>, text: &mut String) -> Answer {
    for step in steps(alloc, words)?.iter() {
        match step {
            Step::Event(event) => put_event(text, event)?,
            Step::Drain(most) => writeln!(text, "drain {most}")?,
        }
    }
    Ok(())
}
