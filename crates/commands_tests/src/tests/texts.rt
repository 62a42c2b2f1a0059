//! Texts: reads that fail, are interrupted or have no end, and the buffer that they go into.

use super::fakes::{Pieces, Places, Trouble};
use at_base::{Error, Part};
use commands::{READS, append, read_text};
use std::alloc::Global;
use std::io::ErrorKind;

/// What comes of a reading: its error, if it has one, why a read failed, and the number of reads.
type Found = (Option<Error>, Option<ErrorKind>, u32);

/// Whether this comes of reading a text in at most so many reads, and without an error all of it.
fn is_read(alloc: Global, text: Pieces<'_>, most: u32, wanted: Found) -> Result<bool, Error> {
    let mut reader = text;
    match read_text(alloc, &mut reader, most) {
        Ok(read) => Ok(read.as_slice() == text.left && wanted == (None, None, reader.reads)),
        Err(refused) => match refused.error {
            Error::Memory => Err(Error::Memory),
            error => Ok(wanted == (Some(error), refused.reason, reader.reads)),
        },
    }
}

/// A text that is read in three pieces; a fourth read finds its end.
const SEVENS: [u8; 276] = [b'7'; 276];

/// Kinds of errors with which a read fails for good.
const KINDS: [ErrorKind; 6] = [
    ErrorKind::Other,
    ErrorKind::PermissionDenied,
    ErrorKind::IsADirectory,
    ErrorKind::WouldBlock,
    ErrorKind::TimedOut,
    ErrorKind::UnexpectedEof,
];

/// Whether each read that fails is a `ReadFault`, of which the kind of the error is kept, and isn't
/// tried again.
pub(super) fn a_read_that_fails_is_a_read_fault(alloc: Global) -> Result<bool, Error> {
    for fails_at in 1..5 {
        for kind in KINDS {
            let text = Pieces::new(&SEVENS, 100, Trouble::FailsAt(fails_at, kind));
            let wanted = (Some(Error::ReadFault), Some(kind), fails_at);
            if !is_read(alloc, text, READS, wanted)? {
                return Ok(false);
            }
        }
    }
    is_read(
        alloc,
        Pieces::new(&SEVENS, 100, Trouble::Nowhere),
        READS,
        (None, None, 4),
    )
}

/// How many reads of three bytes in one piece are permitted, and what comes of it: the second read
/// finds the end, or fails; with one read the end isn't reached.
const LIMITS: [(Trouble, u32, Found); 5] = [
    (Trouble::Nowhere, 2, (None, None, 2)),
    (
        Trouble::FailsAt(2, ErrorKind::Other),
        2,
        (Some(Error::ReadFault), Some(ErrorKind::Other), 2),
    ),
    (Trouble::Nowhere, 1, (Some(Error::ReadFault), None, 1)),
    (Trouble::Nowhere, 0, (Some(Error::ReadFault), None, 0)),
    (Trouble::Restless, 5, (Some(Error::ReadFault), None, 5)),
];

/// Whether a read that was interrupted is tried again, as long as reads are permitted, and the last
/// permitted read counts.
pub(super) fn reads_are_tried_again_or_given_up(alloc: Global) -> Result<bool, Error> {
    for interrupted_at in 1..5 {
        let text = Pieces::new(&SEVENS, 100, Trouble::InterruptedAt(interrupted_at));
        if !is_read(alloc, text, READS, (None, None, 5))? {
            return Ok(false);
        }
    }
    for (trouble, most, wanted) in LIMITS {
        if !is_read(alloc, Pieces::new(b"777", 3, trouble), most, wanted)? {
            return Ok(false);
        }
    }
    Ok(READS == 16_777_216)
}

/// Bytes that no text begins with, the length of their pieces, and the read that has the last of
/// them.
const NO_TEXTS: [(&[u8], usize, u32); 3] = [
    (b"ticks = 1\x00", 3, 4),
    (b"\x00\x00\x00\x00", 2, 1),
    (b"name = \"\xED\xA0\x80\"", 8, 2),
];

/// Whether a text is refused at the piece that no text has.
pub(super) fn a_text_is_refused_at_the_piece_that_no_text_has(
    alloc: Global,
) -> Result<bool, Error> {
    for (bytes, piece, reads) in NO_TEXTS {
        let text = Pieces::new(bytes, piece, Trouble::Nowhere);
        let wanted = (Some(Error::BadFile(Part::Text, 0)), None, reads);
        if !is_read(alloc, text, READS, wanted)? {
            return Ok(false);
        }
    }
    Ok(true)
}

const PIECE: [u8; 8192] = [7; 8192];

/// Whether a buffer to which 200 pieces are appended grows by a quarter, and seldom.
pub(super) fn a_buffer_grows_by_a_quarter_and_seldom(alloc: Global) -> Result<bool, Error> {
    let mut bytes = Vec::new(alloc);
    let mut growths = 0u32;
    for _turn in 0..200u32 {
        let before = bytes.capacity();
        // After a refusal the bytes are as they were.
        if append(&mut bytes, &PIECE).is_err() {
            append(&mut bytes, &PIECE)?;
        }
        if bytes.capacity() != before {
            growths = growths.wrapping_add(1);
        }
    }
    // Four pieces, and then a quarter more each time: 1.25 to the 18th is above 50.
    let are_few = growths < 26 && bytes.capacity() < 2_080_000;
    Ok(are_few && bytes.len() == 1_638_400)
}

/// Whether the bytes are the printable characters in turn.
fn are_in_turn(bytes: &[u8]) -> bool {
    let mut place = 0u32;
    for byte in bytes {
        if u32::from(*byte) != 32 + place % 95 {
            return false;
        }
        place = place.wrapping_add(1);
    }
    true
}

/// Whether a long text comes whole, into a buffer that isn't doubled.
pub(super) fn a_long_text_comes_whole(alloc: Global) -> Result<bool, Error> {
    let mut places = Places {
        next: 0,
        end: 1_100_003,
        reads: 0,
    };
    match read_text(alloc, &mut places, READS) {
        Ok(read) => {
            // At most a quarter and a piece more; a buffer that doubles would have 2,097,152.
            let is_whole = read.len() == 1_100_003 && read.capacity() < 1_400_000;
            // 135 pieces and the end.
            Ok(is_whole && places.reads == 136 && are_in_turn(read.as_slice()))
        }
        Err(refused) => Err(refused.error),
    }
}
