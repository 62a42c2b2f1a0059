//! Captures: reads and writes that fail, and what is written before them.

use super::EMPTY;
use super::fakes::{Frail, NEVER, Pieces, Trouble};
use super::making::SMALL;
use at_base::Error;
use commands::{capture_play, capture_run, into_answer};
use frozen_trace::Refusals;
use playing::Silent;
use std::alloc::Global;
use std::io::ErrorKind;
use text::Output;

/// What is captured.
#[derive(Clone, Copy)]
enum Captured {
    /// A play of the small internet.
    Play,
    /// A trace of a script over the empty internet.
    Trace,
}

/// What came of a call, and how often its writers were called: that of the lines, and that of the
/// capture.
type Found = (Result<bool, Error>, u32, u32);

/// Captures a play or a trace, where a read of the text, a write of the lines or one of the capture
/// may fail.
fn capture(alloc: Global, captured: Captured, fails_at: (u32, u32, u32)) -> Found {
    let trouble = Trouble::FailsAt(fails_at.0, ErrorKind::Other);
    let mut lines = Output::new(alloc, Frail::new(fails_at.1));
    let mut capture = Output::new(alloc, Frail::new(fails_at.2));
    let answer = match captured {
        Captured::Play => into_answer(capture_play(
            alloc,
            &mut Pieces::new(SMALL, 40, trouble),
            &mut lines,
            &mut Output::new(alloc, Frail::new(NEVER)),
            &mut capture,
            &mut Silent,
            None,
        )),
        Captured::Trace => into_answer(capture_run(
            alloc,
            &mut Pieces::new(EMPTY, 3, Trouble::Nowhere),
            &mut Pieces::new(b"drain 5\n", 7, trouble),
            &mut lines,
            &mut capture,
            &mut Refusals::new(alloc),
        )),
    };
    (answer, lines.writer.calls, capture.writer.calls)
}

/// What is captured, which call of the reader, of the lines and of the capture fails, and what comes
/// of it: a play writes its capture first, and a trace its lines.
const CAPTURED: [(Captured, (u32, u32, u32), Found); 10] = [
    (Captured::Play, (NEVER, NEVER, NEVER), (Ok(true), 3, 2)),
    (
        Captured::Play,
        (2, NEVER, NEVER),
        (Err(Error::ReadFault), 0, 0),
    ),
    (
        Captured::Play,
        (NEVER, NEVER, 1),
        (Err(Error::WriteFault), 0, 1),
    ),
    (
        Captured::Play,
        (NEVER, NEVER, 2),
        (Err(Error::WriteFault), 0, 2),
    ),
    (
        Captured::Play,
        (NEVER, 1, NEVER),
        (Err(Error::WriteFault), 1, 2),
    ),
    (Captured::Trace, (NEVER, NEVER, NEVER), (Ok(true), 2, 2)),
    (
        Captured::Trace,
        (2, NEVER, NEVER),
        (Err(Error::ReadFault), 0, 0),
    ),
    (
        Captured::Trace,
        (NEVER, NEVER, 1),
        (Err(Error::WriteFault), 2, 1),
    ),
    (
        Captured::Trace,
        (NEVER, NEVER, 2),
        (Err(Error::WriteFault), 2, 2),
    ),
    (
        Captured::Trace,
        (NEVER, 1, NEVER),
        (Err(Error::WriteFault), 1, 0),
    ),
];

/// Whether lines and captures are written in their order, and none after a failure.
pub(super) fn captures_have_their_place(alloc: Global) -> Result<bool, Error> {
    for (captured, fails_at, wanted) in CAPTURED {
        let found = capture(alloc, captured, fails_at);
        if found.0 == Err(Error::Memory) {
            return Err(Error::Memory);
        }
        if found != wanted {
            return Ok(false);
        }
    }
    Ok(true)
}
