//! Commands that write lines and an image: plays, and images that are made of tables files. Reads
//! and writes that fail, and what is written and kept then.

use super::fakes::{Frail, NEVER, Pieces, Trouble};
use super::{EMPTY, EMPTY_YES, is_answer};
use at_base::{Error, Part};
use commands::{Refused, answer_of, into_answer, make_bytes, play_bytes};
use playing::Silent;
use std::alloc::Global;
use std::io::ErrorKind;
use text::Output;

/// An internet of one cable and one node.
pub(super) const SMALL: &[u8] = b"ticks = 30
[[cable]]
range = [10, 19]
zones = ['Red']
[[node]]
cable = 1
hardware = '020000000005'
try = ['10.7']
zone = 'Red'
";

const SMALL_YES: &[u8] = b"yes: 1 cables, 0 routers, 1 nodes, 0 rows, greatest distance 0\n";

/// An internet of one cable and one node, which has no time to settle its address.
pub(super) const EARLY: &[u8] = b"ticks = 1
[[cable]]
range = [10, 19]
zones = ['Red']
[[node]]
cable = 1
hardware = '020000000005'
try = ['10.7']
zone = 'Red'
";

const EARLY_NO: &[u8] = b"no: C2 node 1\n";

/// The length of both images: 7 bytes of header and counts, 10 of the cable and 16 of the node.
const IMAGE_LEN: usize = 33;

/// A tables file of one cable.
const TABLES: &[u8] = b"[[cable]]
range = [10, 19]
zones = ['Red']
";

/// Its image.
const IMAGE: &[u8] = b"ATIM\x01\x01\0\x0a\0\x13\x01\x03Red\0\0";

const TABLES_YES: &[u8] = b"yes: 1 cables, 0 routers, 0 nodes, 0 rows, greatest distance 0\n";

/// A tables file whose second cable has a fault.
const AT_FAULT: &[u8] = b"[[cable]]
range = [10, 19]
zones = ['Red']
[[cable]]
range = [20]
";

/// What a text is.
#[derive(Clone, Copy)]
enum Source {
    Internet,
    Tables,
}

/// Plays an internet, or makes the image of tables. The results are the answer, and the writers of
/// the lines and of the image afterwards.
fn make(
    alloc: Global,
    source: Source,
    text: Pieces<'_>,
    lines: Frail,
    image: Frail,
) -> (Result<bool, Error>, Frail, Frail) {
    let mut text = text;
    let mut output = Output::new(alloc, lines);
    let mut image = Output::new(alloc, image);
    let answer = match source {
        Source::Internet => into_answer(play_bytes(
            alloc,
            &mut text,
            &mut output,
            &mut image,
            &mut Silent,
            None,
        )),
        Source::Tables => into_answer(make_bytes(alloc, &mut text, &mut output, &mut image)),
    };
    (answer, output.writer, image.writer)
}

/// What a text is, the text, the length of its pieces, the number of its reads (those of the pieces
/// and of the end), the answer, the lines and the length of the image.
const READ: [(Source, &[u8], usize, u32, bool, &[u8], usize); 3] = [
    (Source::Internet, SMALL, 40, 5, true, SMALL_YES, IMAGE_LEN),
    (Source::Internet, EARLY, 40, 5, false, EARLY_NO, IMAGE_LEN),
    (Source::Tables, TABLES, 20, 4, true, TABLES_YES, IMAGE.len()),
];

/// Whether nothing is written of a text of which a read fails, and else lines and an image, which
/// are flushed.
pub(super) fn every_read_of_a_text_may_fail(alloc: Global) -> Result<bool, Error> {
    for (source, text, piece, reads, is_yes, wanted, len) in READ {
        for fails_at in 1..=reads {
            let text = Pieces::new(text, piece, Trouble::FailsAt(fails_at, ErrorKind::Other));
            let (answer, lines, image) = make(
                alloc,
                source,
                text,
                Frail::new(NEVER),
                Frail::new(NEVER),
            );
            if !is_answer(answer, Err(Error::ReadFault))? || !lines.has(b"") || !image.has(b"") {
                return Ok(false);
            }
        }
        let text = Pieces::new(text, piece, Trouble::Nowhere);
        let (answer, lines, image) = make(
            alloc,
            source,
            text,
            Frail::new(NEVER),
            Frail::new(NEVER),
        );
        if !is_answer(answer, Ok(is_yes))? || !lines.has(wanted) || image.flushed != len {
            return Ok(false);
        }
    }
    Ok(true)
}

/// Whether each write may fail, of the lines and of the image, and no byte of an image is written
/// before all lines are.
pub(super) fn every_write_of_lines_and_images_may_fail(alloc: Global) -> Result<bool, Error> {
    let fault = Err(Error::WriteFault);
    for (source, text) in [(Source::Internet, SMALL), (Source::Tables, TABLES)] {
        let text = Pieces::new(text, 20, Trouble::Nowhere);
        // Three calls may fail: a flush, the bytes and a flush.
        for fails_at in 1..4 {
            let (first, _, image) = make(
                alloc,
                source,
                text,
                Frail::new(fails_at),
                Frail::new(NEVER),
            );
            let (second, _, _) = make(alloc, source, text, Frail::new(NEVER), Frail::new(fails_at));
            if !is_answer(first, fault)? || image.calls != 0 || !is_answer(second, fault)? {
                return Ok(false);
            }
        }
        let (answer, _, _) = make(alloc, source, text, Frail::new(4), Frail::new(4));
        if !is_answer(answer, Ok(true))? {
            return Ok(false);
        }
    }
    Ok(true)
}

/// Whether the refusal has this text.
fn is_text(refused: &Refused, wanted: &[u8]) -> bool {
    match &refused.file {
        Some(file) => file.text.as_slice() == wanted,
        None => false,
    }
}

/// Makes the image of a tables file. The results are the answer; whether the bytes were written as
/// its image or, if it is at fault, are the text of the refusal; and whether these lines were
/// written.
fn makes(
    alloc: Global,
    text: &[u8],
    bytes: &[u8],
    lines: &[u8],
) -> (Result<bool, Error>, bool, bool) {
    let mut input = Pieces::new(text, 20, Trouble::Nowhere);
    let mut output = Output::new(alloc, Frail::new(NEVER));
    let mut image = Output::new(alloc, Frail::new(NEVER));
    let made = make_bytes(alloc, &mut input, &mut output, &mut image);
    let has_bytes = match &made {
        Ok(_) => image.writer.has(bytes),
        Err(refused) => is_text(refused, bytes) && image.writer.has(b""),
    };
    // Where there is no image, the writer of the lines isn't even called.
    let calls = if made.is_ok() { 3 } else { 0 };
    let has_lines = output.writer.has(lines) && output.writer.calls == calls;
    (answer_of(&made), has_bytes, has_lines)
}

/// Tables files, the image that is written or the text that is returned, the line, and the answer.
const MADE: [(&[u8], &[u8], &[u8], Result<bool, Error>); 7] = [
    (TABLES, IMAGE, TABLES_YES, Ok(true)),
    (b"", EMPTY, EMPTY_YES, Ok(true)),
    (AT_FAULT, AT_FAULT, b"", Err(Error::BadFile(Part::Cable, 2))),
    (b"cable", b"cable", b"", Err(Error::BadFile(Part::Text, 0))),
    (
        b"version = 3",
        b"version = 3",
        b"",
        Err(Error::BadFile(Part::Top, 0)),
    ),
    (
        b"router = [1]",
        b"router = [1]",
        b"",
        Err(Error::BadFile(Part::Router, 1)),
    ),
    (
        b"node = [1]",
        b"node = [1]",
        b"",
        Err(Error::BadFile(Part::Node, 1)),
    ),
];

/// Whether the image of a tables file is written, or nothing is, and the text that is at fault
/// returned.
pub(super) fn the_image_is_written_or_the_text_that_is_at_fault_returned(
    alloc: Global,
) -> Result<bool, Error> {
    for (text, bytes, lines, wanted) in MADE {
        let (answer, has_bytes, has_lines) = makes(alloc, text, bytes, lines);
        if !is_answer(answer, wanted)? || !has_bytes || !has_lines {
            return Ok(false);
        }
    }
    Ok(true)
}
