//! Commands that print: verdicts, tables files and drawings of images, and traces. Reads and writes
//! that fail, and what is written then.

use super::fakes::{Frail, NEVER, Pieces, Trouble};
use super::{EMPTY, EMPTY_YES, is_answer};
use at_base::{Cause, Error};
use commands::{audit_file, draw_image, into_answer, run_frozen, show_image};
use frozen_trace::Refusals;
use std::alloc::{AllocError, Global};
use std::io::ErrorKind;
use text::Output;

/// What is printed of an input.
#[derive(Clone, Copy)]
pub(super) enum Printed {
    /// The verdict on an image.
    Verdict,
    /// Its tables file.
    Tables,
    /// Its drawing, with the ways to a network, if one is asked for.
    Drawing(Option<u16>),
    /// The trace of a script over the empty internet.
    Trace,
}

/// Prints what is asked for of the input. The results are the answer, `true` for a text without a
/// verdict, and the writer afterwards.
pub(super) fn print(
    alloc: Global,
    printed: Printed,
    input: Pieces<'_>,
    writer: Frail,
) -> (Result<bool, Error>, Frail) {
    let mut input = input;
    let mut output = Output::new(alloc, writer);
    let answer = match printed {
        Printed::Verdict => into_answer(audit_file(alloc, &mut input, &mut output)),
        Printed::Tables => match show_image(alloc, &mut input, &mut output) {
            Ok(()) => Ok(true),
            Err(refused) => Err(refused.error),
        },
        Printed::Drawing(to) => match draw_image(alloc, &mut input, &mut output, to) {
            Ok(()) => Ok(true),
            Err(refused) => Err(refused.error),
        },
        Printed::Trace => {
            let mut image = Pieces::new(EMPTY, 3, Trouble::Nowhere);
            let mut refusals = Refusals::new(alloc);
            into_answer(run_frozen(alloc, &mut image, &mut input, &mut output, &mut refusals))
        }
    };
    (answer, output.writer)
}

/// The drawing of an internet without cables, routers and nodes.
const DRAWING: &[u8] = b"digraph internet {
  graph [label=\"yes: 0 cables, 0 routers, 0 nodes, 0 rows, greatest distance 0\\nto 30\", labelloc=t, fontname=\"Helvetica\"];
  node [fontname=\"Helvetica\"];
  edge [fontname=\"Helvetica\", dir=none];
}
";

/// What is printed, of which input, in pieces of which length, how many reads may fail (those of the
/// pieces and of the end), and the text.
const READ: [(Printed, &[u8], usize, u32, &[u8]); 4] = [
    (Printed::Verdict, EMPTY, 3, 4, EMPTY_YES),
    (Printed::Tables, EMPTY, 3, 4, b"version = 1\n"),
    (Printed::Drawing(Some(30)), EMPTY, 3, 4, DRAWING),
    (Printed::Trace, b"drain 5\n", 7, 3, b"pending 0\n"),
];

/// Whether nothing is printed of an input of which a read fails.
pub(super) fn every_read_of_what_is_printed_may_fail(alloc: Global) -> Result<bool, Error> {
    for (printed, bytes, piece, reads, text) in READ {
        for fails_at in 1..=reads {
            let input = Pieces::new(bytes, piece, Trouble::FailsAt(fails_at, ErrorKind::Other));
            let (answer, writer) = print(alloc, printed, input, Frail::new(NEVER));
            if !is_answer(answer, Err(Error::ReadFault))? || !writer.has(b"") {
                return Ok(false);
            }
        }
        let input = Pieces::new(bytes, piece, Trouble::Nowhere);
        let (answer, writer) = print(alloc, printed, input, Frail::new(NEVER));
        if !is_answer(answer, Ok(true))? || !writer.has(text) {
            return Ok(false);
        }
    }
    Ok(true)
}

/// Bytes that are no image, and why.
const NO_IMAGES: [(&[u8], Error); 3] = [
    (b"ATIN", Error::BadImage(0, Cause::Magic)),
    (b"ATIM\x03", Error::BadImage(4, Cause::Version)),
    (b"ATIM\x01\0\0", Error::BadImage(7, Cause::Cut)),
];

/// Whether nothing is printed of bytes that are no image.
pub(super) fn nothing_is_printed_of_bytes_that_are_no_image(alloc: Global) -> Result<bool, Error> {
    for printed in [Printed::Verdict, Printed::Tables, Printed::Drawing(None)] {
        for (bytes, error) in NO_IMAGES {
            let image = Pieces::new(bytes, 3, Trouble::Nowhere);
            let (answer, writer) = print(alloc, printed, image, Frail::new(NEVER));
            if !is_answer(answer, Err(error))? || !writer.has(b"") {
                return Ok(false);
            }
        }
    }
    Ok(true)
}

/// Whether each of so many calls of the writer may fail, as what is asked for is printed.
fn every_write_may_fail(
    alloc: Global,
    printed: Printed,
    bytes: &[u8],
    calls: u32,
) -> Result<bool, Error> {
    let input = Pieces::new(bytes, 8192, Trouble::Nowhere);
    for fails_at in 1..=calls {
        let (answer, _) = print(alloc, printed, input, Frail::new(fails_at));
        if !is_answer(answer, Err(Error::WriteFault))? {
            return Ok(false);
        }
    }
    let (answer, writer) = print(alloc, printed, input, Frail::new(NEVER));
    Ok(is_answer(answer, Ok(true))? && writer.calls == calls)
}

/// Whether each write of what is printed may fail: the text and the flush.
pub(super) fn every_write_of_what_is_printed_may_fail(alloc: Global) -> Result<bool, Error> {
    Ok(
        every_write_may_fail(alloc, Printed::Tables, EMPTY, 2)?
            && every_write_may_fail(alloc, Printed::Drawing(None), EMPTY, 2)?
            && every_write_may_fail(alloc, Printed::Trace, b"", 2)?,
    )
}

/// The bytes of an image whose one router has 200 lists of eight long zone names, so that its text
/// has more than 64 KiB, and less than 128.
fn long_image(alloc: Global) -> Result<Vec<u8>, AllocError> {
    let mut bytes = Vec::new(alloc);
    bytes.extend_from_slice(b"ATIM\x01\0\x01\0\0\xc8")?;
    for first in 0..200u8 {
        bytes.extend_from_slice(&[0, first, 0, first, 1, 8])?;
        for _ in 0..8u32 {
            bytes.push(32)?;
            bytes.extend_from_slice(&[b'Z'; 32])?;
        }
    }
    bytes.push(0)?;
    Ok(bytes)
}

/// Whether each write of a long text may fail: it is written in two pieces, and each is flushed.
pub(super) fn every_write_of_a_long_text_may_fail(alloc: Global) -> Result<bool, Error> {
    let image = long_image(alloc)?;
    every_write_may_fail(alloc, Printed::Tables, image.as_slice(), 4)
}
