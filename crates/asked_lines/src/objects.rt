//! The objects of answers.

use crate::line::Named;
use crate::shown::put_text;
use crate::words::put_question;
use at_base::Addr;
use json_lines::{NamedService, ToldRange, echo, note, range, service, silence, zone};
use rtmp::Tuple;
use std::alloc::{AllocError, Global};
use survey::Question;
use text::put_address;

/// A text as it is shown.
fn shown(alloc: Global, text: &[u8]) -> Result<Vec<u8>, AllocError> {
    let mut shown = Vec::new(alloc);
    put_text(&mut shown, text)?;
    Ok(shown)
}

/// An address as it is shown.
fn address(alloc: Global, address: Addr) -> Result<Vec<u8>, AllocError> {
    let mut shown = Vec::new(alloc);
    put_address(&mut shown, address)?;
    Ok(shown)
}

/// The characters of what is shown, which is always text.
fn text_of(shown: &Vec<u8>) -> &str {
    str::from_utf8(shown.as_slice()).unwrap_or("")
}

/// Appends the object of an echo.
pub(crate) fn put_echo(
    lines: &mut Vec<u8>,
    from: Addr,
    microseconds: u32,
) -> Result<(), AllocError> {
    let alloc = *lines.allocator();
    let from = address(alloc, from)?;
    let line = echo(alloc, text_of(&from), microseconds)?;
    lines.extend_from_slice(line.as_bytes())
}

/// Appends the object of a name.
pub(crate) fn put_named(lines: &mut Vec<u8>, it: &Named<'_>) -> Result<(), AllocError> {
    let alloc = *lines.allocator();
    let object = shown(alloc, it.object)?;
    let kind = shown(alloc, it.kind)?;
    let zone = shown(alloc, it.zone)?;
    let address = address(alloc, it.at)?;
    let it = NamedService {
        object: text_of(&object),
        kind: text_of(&kind),
        zone: text_of(&zone),
        address: text_of(&address),
        socket: it.socket,
    };
    let line = service(alloc, &it)?;
    lines.extend_from_slice(line.as_bytes())
}

/// Appends the object of a zone.
pub(crate) fn put_zone(lines: &mut Vec<u8>, name: &[u8]) -> Result<(), AllocError> {
    let alloc = *lines.allocator();
    let name = shown(alloc, name)?;
    let line = zone(alloc, text_of(&name))?;
    lines.extend_from_slice(line.as_bytes())
}

/// Appends the object of a range that a router told of.
pub(crate) fn put_route(lines: &mut Vec<u8>, tuple: &Tuple, from: Addr) -> Result<(), AllocError> {
    let alloc = *lines.allocator();
    let from = address(alloc, from)?;
    let it = ToldRange {
        start: tuple.range.start(),
        end: tuple.range.end(),
        distance: tuple.distance,
        from: text_of(&from),
    };
    let line = range(alloc, &it)?;
    lines.extend_from_slice(line.as_bytes())
}

/// Appends the object of a question that no answer came to.
pub(crate) fn put_silence(lines: &mut Vec<u8>, question: &Question) -> Result<(), AllocError> {
    let alloc = *lines.allocator();
    let to = address(alloc, question.to)?;
    let mut asked = Vec::new(alloc);
    put_question(&mut asked, &question.wanted)?;
    let line = silence(alloc, text_of(&to), text_of(&asked))?;
    lines.extend_from_slice(line.as_bytes())
}

/// Appends a note of how many answers weren't told.
pub(crate) fn put_more(lines: &mut Vec<u8>, count: u32) -> Result<(), AllocError> {
    let alloc = *lines.allocator();
    let text = format!(in alloc; "{count} more answers came than are told")?;
    let line = note(alloc, text.as_str(), None)?;
    lines.extend_from_slice(line.as_bytes())
}
