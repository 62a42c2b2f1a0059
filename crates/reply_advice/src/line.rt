//! Writes the line for a question.

use crate::question::{Question, Sought, Wanted};
use crate::reason::{Ending, write_reason};
use crate::shown::write_text;
use std::io;
use std::io::Write;
use table_image::Image;

/// Writes a name that was looked up.
fn write_sought<W: Write>(writer: &mut W, sought: &Sought) -> io::Result<()> {
    writer.write_all(b"the lookup of ")?;
    write_text(writer, sought.object.as_slice())?;
    writer.write_all(b":")?;
    write_text(writer, sought.kind.as_slice())?;
    writer.write_all(b"@")?;
    match sought.zone.as_slice() {
        [] => writer.write_all(b"*"),
        zone => write_text(writer, zone),
    }
}

/// Writes what a node wants.
fn write_wanted<W: Write>(writer: &mut W, wanted: &Wanted) -> io::Result<()> {
    match wanted {
        Wanted::Names(sought) => write_sought(writer, sought),
        Wanted::Echo(target) => write!(writer, "the echo request to {target}"),
        Wanted::Zones(target, _) => write!(writer, "the request for zones to {target}"),
    }
}

/// Writes the line for a question: who asked, for what, and why there was no answer.
pub(crate) fn write_question<W: Write>(
    writer: &mut W,
    image: &Image,
    ending: Ending,
    question: &Question,
) -> io::Result<()> {
    let (number, source) = (question.node.saturating_add(1), question.source);
    write!(writer, "node {number} ({source}): no answer to ")?;
    write_wanted(writer, &question.wanted)?;
    writer.write_all(b": ")?;
    write_reason(writer, image, ending, question)?;
    writer.write_all(b"\n")
}
