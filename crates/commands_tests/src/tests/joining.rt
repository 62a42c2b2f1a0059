//! Images that are joined: which ones can't be, and reads and writes that fail.

use super::fakes::{Frail, NEVER, Pieces, Trouble};
use super::{EMPTY, EMPTY_YES, is_answer};
use at_base::{Cause, Error, What};
use commands::{into_answer, join_image, judge_image, read_image};
use std::alloc::Global;
use std::io::ErrorKind;
use text::Output;

/// An internet of one cable, and one whose cable has another zone.
const RED: &[u8] = b"ATIM\x01\x01\0\x0a\0\x13\x01\x03Red\0\0";

const ROD: &[u8] = b"ATIM\x01\x01\0\x0a\0\x13\x01\x03Rod\0\0";

/// The first one in version 2.
const RED_2: &[u8] = b"ATIM\x02\x01\0\x0a\0\x13\x01\x03Red\0\0";

const RED_YES: &[u8] = b"yes: 1 cables, 0 routers, 0 nodes, 0 rows, greatest distance 0\n";

/// Joins two images. The results are the answer, and the writers of the line and of the image
/// afterwards.
fn join(
    alloc: Global,
    first: &[u8],
    second: Pieces<'_>,
    lines: Frail,
    image: Frail,
) -> (Result<bool, Error>, Frail, Frail) {
    let mut first = Pieces::new(first, 20, Trouble::Nowhere);
    let mut second = second;
    let mut output = Output::new(alloc, lines);
    let mut image = Output::new(alloc, image);
    let answer = match read_image(alloc, &mut first) {
        Ok(before) => match join_image(alloc, &before, &mut second) {
            Ok(both) => into_answer(judge_image(alloc, both, &mut output, &mut image)),
            Err(refused) => Err(refused.error),
        },
        Err(refused) => Err(refused.error),
    };
    (answer, output.writer, image.writer)
}

/// Two images, the answer, the line and the joined image.
const JOINED: [(&[u8], &[u8], Result<bool, Error>, &[u8], &[u8]); 7] = [
    (RED, RED, Ok(true), RED_YES, RED),
    (RED_2, RED, Ok(true), RED_YES, RED_2),
    (RED, RED_2, Ok(true), RED_YES, RED_2),
    (EMPTY, EMPTY, Ok(true), EMPTY_YES, EMPTY),
    (RED, ROD, Err(Error::NoSuch(What::Cable)), b"", b""),
    (RED, EMPTY, Err(Error::NoSuch(What::Cable)), b"", b""),
    (RED, b"ATIM", Err(Error::BadImage(4, Cause::Cut)), b"", b""),
];

/// Whether images are joined, or nothing is written of them.
pub(super) fn images_are_joined_or_refused(alloc: Global) -> Result<bool, Error> {
    for (first, second, wanted, line, bytes) in JOINED {
        let second = Pieces::new(second, 7, Trouble::Nowhere);
        let (answer, lines, image) = join(
            alloc,
            first,
            second,
            Frail::new(NEVER),
            Frail::new(NEVER),
        );
        if !is_answer(answer, wanted)? || !lines.has(line) || !image.has(bytes) {
            return Ok(false);
        }
    }
    Ok(true)
}

/// Whether each read of the second image may fail, and each write of the line and of the image.
pub(super) fn every_call_of_a_joining_may_fail(alloc: Global) -> Result<bool, Error> {
    // Three reads of seven bytes at most, and one of the end.
    for fails_at in 1..=4 {
        let second = Pieces::new(RED, 7, Trouble::FailsAt(fails_at, ErrorKind::Other));
        let (answer, lines, _) = join(alloc, RED, second, Frail::new(NEVER), Frail::new(NEVER));
        if !is_answer(answer, Err(Error::ReadFault))? || lines.calls != 0 {
            return Ok(false);
        }
    }
    let second = Pieces::new(RED, 20, Trouble::Nowhere);
    // Three calls may fail: a flush, the bytes and a flush.
    for fails_at in 1..4 {
        let fault = Err(Error::WriteFault);
        let (first, _, image) = join(alloc, RED, second, Frail::new(fails_at), Frail::new(NEVER));
        let (other, _, _) = join(alloc, RED, second, Frail::new(NEVER), Frail::new(fails_at));
        if !is_answer(first, fault)? || image.calls != 0 || !is_answer(other, fault)? {
            return Ok(false);
        }
    }
    Ok(true)
}
