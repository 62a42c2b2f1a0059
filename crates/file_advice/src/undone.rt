//! Words for the actions of a play that were refused.

use crate::lines::{line_of, tells_lines};
use at_base::Part;
use file_entries::Place;
use internet_file::{Action, Do, Plan};
use std::io;
use std::io::Write;

/// The greatest number of actions that are told.
const MOST: usize = 100;

/// The numbers of the errors that an action can have.
const TOO_LONG: u8 = 7;

const NO_STATION: u8 = 8;

const NO_ROUTER: u8 = 10;

/// The most data that a datagram has.
const MOST_DATA: usize = 586;

/// Whether the target of an action can't be sent to: it is on network 0, and isn't all nodes.
fn is_nowhere(action: &Action) -> bool {
    match &action.action {
        Do::Send { to, .. } => to.net == 0 && to.node != 255,
        Do::Lookup { .. } => false,
    }
}

/// Writes why an action was refused by the error with this number.
fn write_why<W: Write>(writer: &mut W, action: &Action, number: u8) -> io::Result<()> {
    let (node, tick) = (action.node, action.at);
    match &action.action {
        Do::Send { to, .. } if number == NO_STATION && is_nowhere(action) => writeln!(
            writer,
            "{to} is on network 0, where only node 255, all nodes of the cable, is a target"
        ),
        Do::Send { hex, .. } if number == TOO_LONG => writeln!(
            writer,
            "it has {} bytes of data, and a datagram has at most {MOST_DATA}",
            hex.len()
        ),
        _ if number == NO_STATION => writeln!(
            writer,
            "node {node} had no address yet in tick {tick}; a later tick would do"
        ),
        _ if number == NO_ROUTER => writeln!(
            writer,
            "it has to go by a router, and node {node} had heard of none in tick {tick}"
        ),
        _ => writeln!(writer, "node {node} couldn't do it in tick {tick}"),
    }
}

/// Writes a line about an action that was refused: its number, its line in the text where a scan
/// tells it, the number of the error, and why.
fn write_action<W: Write>(
    writer: &mut W,
    name: &str,
    text: Option<&str>,
    plan: &Plan,
    refused: (u32, u8),
) -> io::Result<()> {
    let (action, number) = refused;
    write!(writer, "atalk: {name}: action {action}")?;
    if let Some(text) = text
        && tells_lines(text)
        && let Some(line) = line_of(text, &Place::of(Part::Action, action))
    {
        write!(writer, ", line {line}")?;
    }
    write!(writer, ": refused {number}: ")?;
    match plan.actions().get((action as usize).saturating_sub(1)) {
        Some(found) => write_why(writer, found, number),
        None => writeln!(writer, ""),
    }
}

/// Writes a line for each action of a play that was refused, at most 100, and then how many more
/// there are. The text is that of the internet file with this name, where it is known.
pub fn write_undone<W: Write>(
    writer: &mut W,
    name: &str,
    text: Option<&[u8]>,
    plan: &Plan,
    refused: &[(u32, u8)],
) -> io::Result<()> {
    let text = match text {
        Some(bytes) => std::str::from_utf8(bytes).ok(),
        None => None,
    };
    for one in refused.iter().take(MOST) {
        write_action(writer, name, text, plan, *one)?;
    }
    match refused.len().saturating_sub(MOST) {
        0 => Ok(()),
        1 => writeln!(writer, "atalk: and 1 more action was refused"),
        more => writeln!(writer, "atalk: and {more} more actions were refused"),
    }
}
