//! Images that are audited or read: inputs in pieces, without end or at fault, and reads that fail.

use super::fakes::{Endless, Frail, NEVER, Pieces, Trouble};
use super::printing::{Printed, print};
use super::{EMPTY, EMPTY_YES, is_answer};
use at_base::{Cause, Error};
use commands::{audit_file, into_answer, read_image};
use std::alloc::Global;
use std::io::ErrorKind;
use text::Output;

/// An image with one cable, whose range ends before it starts.
const BACKWARD: &[u8] = b"ATIM\x01\x01\0\x0a\0\x05\0\0\0";

/// How much room there is for the line of an image's verdict, and the answer: no room for a first
/// byte, or room for only a part of the line, is a `WriteFault`.
const ROOMS: [(usize, Result<bool, Error>); 3] = [
    (0, Err(Error::WriteFault)),
    (10, Err(Error::WriteFault)),
    (80, Ok(true)),
];

/// Whether an image in pieces is audited, and a verdict that can't be written is a `WriteFault`.
pub(super) fn an_image_may_come_in_pieces(alloc: Global) -> Result<bool, Error> {
    for (room, wanted) in ROOMS {
        let image = Pieces::new(EMPTY, 3, Trouble::Nowhere);
        let writer = Frail::with_room(room, NEVER);
        let (answer, writer) = print(alloc, Printed::Verdict, image, writer);
        if !is_answer(answer, wanted)? || (answer.is_ok() && !writer.has(EMPTY_YES)) {
            return Ok(false);
        }
    }
    Ok(true)
}

/// Whether an image is audited after an earlier write of the output has failed.
pub(super) fn an_earlier_failure_refuses_nothing(alloc: Global) -> Result<bool, Error> {
    let mut image = Pieces::new(EMPTY, 3, Trouble::Nowhere);
    let mut output = Output::new(alloc, Frail::new(NEVER));
    output.faults = 1;
    into_answer(audit_file(alloc, &mut image, &mut output))
}

/// What an audit returns: the image's verdict, or the byte at its flaw.
fn returned(alloc: Global, bytes: &[u8]) -> Result<(Option<bool>, Option<u8>), Error> {
    let mut image = Pieces::new(bytes, 3, Trouble::Nowhere);
    let mut output = Output::new(alloc, Frail::new(NEVER));
    match audit_file(alloc, &mut image, &mut output) {
        Ok(it) => Ok((Some(it.verdict.is_yes()), None)),
        Err(refused) => match refused.error {
            Error::Memory => Err(Error::Memory),
            _ => Ok((None, refused.flawed)),
        },
    }
}

/// Bytes, and what an audit of them returns.
const RETURNED: [(&[u8], (Option<bool>, Option<u8>)); 6] = [
    (EMPTY, (Some(true), None)),
    (BACKWARD, (Some(false), None)),
    (b"ATIN", (None, Some(0x41))),
    (b"ATIM\x02", (None, None)),
    (b"ATIM\x03", (None, Some(3))),
    (b"ATIM", (None, None)),
];

/// Whether an audit returns these.
pub(super) fn an_audit_returns_its_verdict_or_the_byte_at_the_flaw(
    alloc: Global,
) -> Result<bool, Error> {
    for (bytes, wanted) in RETURNED {
        if returned(alloc, bytes)? != wanted {
            return Ok(false);
        }
    }
    Ok(true)
}

/// Bytes, the length of their pieces, the read that fails, and how many cables the image has or why
/// it is refused.
const FAILING: [(&[u8], usize, u32, Result<usize, Error>); 4] = [
    (b"ATIX", 4, 2, Err(Error::BadImage(0, Cause::Magic))),
    (b"ATIX", 3, 2, Err(Error::ReadFault)),
    (EMPTY, 3, 2, Err(Error::ReadFault)),
    (EMPTY, 3, 9, Ok(0)),
];

/// Whether a fault in bytes that were read is told before that a read failed.
pub(super) fn a_fault_in_bytes_that_were_read_comes_before_a_failure(
    alloc: Global,
) -> Result<bool, Error> {
    for (bytes, piece, fails_at, wanted) in FAILING {
        let mut image = Pieces::new(bytes, piece, Trouble::FailsAt(fails_at, ErrorKind::Other));
        let found = match read_image(alloc, &mut image) {
            Ok(image) => Ok(image.cables().len()),
            Err(refused) => Err(refused.error),
        };
        if found == Err(Error::Memory) {
            return Err(Error::Memory);
        }
        if found != wanted {
            return Ok(false);
        }
    }
    Ok(true)
}

/// Whether of an image without end one piece is read, which has a fault.
pub(super) fn an_image_without_end_is_refused_at_its_first_fault(
    alloc: Global,
) -> Result<bool, Error> {
    let mut image = Endless {
        first: b"ATIM\x01\x01",
        reads: 0,
    };
    match read_image(alloc, &mut image) {
        Ok(_) => Ok(false),
        Err(refused) => match refused.error {
            Error::Memory => Err(Error::Memory),
            error => Ok(error == Error::BadImage(10, Cause::Count) && image.reads == 1),
        },
    }
}

/// Whether nothing is written of an input whose third read fails: a fault in the pieces before is
/// told first.
pub(super) fn nothing_is_written_of_an_input_whose_third_read_fails(
    alloc: Global,
) -> Result<bool, Error> {
    for (bytes, wanted) in [
        (b"7777777777".as_slice(), Error::BadImage(0, Cause::Magic)),
        (EMPTY, Error::ReadFault),
    ] {
        let image = Pieces::new(bytes, 3, Trouble::FailsAt(3, ErrorKind::Other));
        let (answer, writer) = print(alloc, Printed::Verdict, image, Frail::new(NEVER));
        if !is_answer(answer, Err(wanted))? || !writer.has(b"") {
            return Ok(false);
        }
    }
    Ok(true)
}
