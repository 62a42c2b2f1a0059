//! Why a step of a run was refused.

use crate::lines::line_of_step;
use at_base::{Addr, Error};
use events::Event;
use frozen_trace::Refusals;
use script::{Step, read};
use std::alloc::Global;
use std::io;
use std::io::Write;
use table_image::{Image, Node};

/// The most data that a datagram has.
const MOST_DATA: usize = 586;

/// The node with this address.
fn node_at(image: &Image, address: Addr) -> Option<&Node> {
    image.nodes().iter().find(|node| node.address == address)
}

/// Whether a router has a port with this address on the cable with this index.
fn has_port(image: &Image, cable: u8, address: Addr) -> bool {
    let mut routers = image.routers().iter();
    routers.any(|router| {
        let mut ports = router.ports.as_slice().iter();
        ports.any(|port| port.cable == cable && port.address == address)
    })
}

/// Writes why a node can't send by this router to this target.
fn write_sender<W: Write>(
    writer: &mut W,
    image: &Image,
    node: Addr,
    via: Option<Addr>,
    target: Option<Addr>,
) -> io::Result<()> {
    let Some(sender) = node_at(image, node) else {
        return writeln!(writer, "no node has the address {node}");
    };
    if let Some(router) = via
        && !has_port(image, sender.cable, router)
    {
        return writeln!(
            writer,
            "no router has a port with the address {router} on the cable of {node}"
        );
    }
    match target {
        Some(target) => writeln!(
            writer,
            "{target} is on network 0, where only node 255, all nodes of the cable, is a target"
        ),
        None => writeln!(writer, "{node} can't send it"),
    }
}

/// Writes why an event was refused as there is no such station.
fn write_no_such<W: Write>(writer: &mut W, image: &Image, event: &Event) -> io::Result<()> {
    match event {
        Event::Send {
            node,
            via,
            target,
            ..
        } => write_sender(writer, image, *node, *via, Some(*target)),
        Event::Request { node, via, .. } => write_sender(writer, image, *node, *via, None),
        Event::Take { station, .. } => { writeln!(writer, "no station has the address {station}") }
    }
}

/// Writes why an event was refused by this error.
fn write_event<W: Write>(
    writer: &mut W,
    image: &Image,
    event: &Event,
    error: Error,
) -> io::Result<()> {
    match (error, event) {
        (Error::NoSuch(_), _) => write_no_such(writer, image, event),
        (Error::TooLong, Event::Send { payload, .. }) => writeln!(
            writer,
            "it has {} bytes of data, and a datagram has at most {MOST_DATA}",
            payload.len()
        ),
        (Error::NotPending, Event::Take { stamp, station }) => writeln!(
            writer,
            "frame {stamp} isn't pending for {station}: it was taken, or isn't for it"
        ),
        (Error::NoRouter, Event::Send { node, .. } | Event::Request { node, .. }) => writeln!(
            writer,
            "{node} has no router; VIA can name one on its cable"
        ),
        _ => write_full(writer),
    }
}

/// Writes that a run is full.
fn write_full<W: Write>(writer: &mut W) -> io::Result<()> {
    writeln!(
        writer,
        "a run has at most 4000000 entries, and too few are left"
    )
}

/// Writes why a step was refused, by the line that it is on.
fn write_step<W: Write>(
    alloc: Global,
    writer: &mut W,
    image: &Image,
    line: &[u8],
    error: Error,
) -> io::Result<()> {
    let Ok(steps) = read(alloc, line) else {
        return writeln!(writer, "");
    };
    match steps.first() {
        Some(Step::Event(event)) => write_event(writer, image, event, error),
        _ => write_full(writer),
    }
}

/// Writes a line for each step of a script that was refused, at most 100, and then how many more
/// there are. The text is that of the script with this name, and the image the one that it ran over.
pub fn write_undone<W: Write>(
    alloc: Global,
    writer: &mut W,
    name: &str,
    text: &[u8],
    image: &Image,
    refusals: &Refusals,
) -> io::Result<()> {
    for refusal in refusals.first() {
        let (step, error) = *refusal;
        if let Some((number, line)) = line_of_step(text, step) {
            write!(
                writer,
                "atalk: {name}, line {number}: refused {}: ",
                error.number()
            )?;
            write_step(alloc, writer, image, line, error)?;
        }
    }
    match refusals.untold() {
        0 => Ok(()),
        1 => writeln!(writer, "atalk: and 1 more step was refused"),
        more => writeln!(writer, "atalk: and {more} more steps were refused"),
    }
}
