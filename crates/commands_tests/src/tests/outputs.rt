//! Outputs: writes that fail, and what is flushed when.

use super::fakes::{Frail, NEVER};
use at_base::Error;
use std::alloc::Global;
use text::Output;

/// Whether each write of a line that fails is a `WriteFault`, and is counted.
pub(super) fn a_write_that_fails_is_a_write_fault(alloc: Global) -> bool {
    let mut is_told = true;
    // Three calls may fail: the text, the end of the line and the flush.
    for fails_at in 1..5 {
        let mut output = Output::new(alloc, Frail::new(fails_at));
        let answer = output.write_line(b"yes");
        let wanted = if fails_at < 4 {
            Err(Error::WriteFault)
        } else {
            Ok(())
        };
        is_told = is_told && answer == wanted && (output.faults > 0) == (fails_at < 4);
    }
    is_told
}

/// Whether a line is flushed after its end, and text that wasn't written yet is written and flushed
/// by `flush`.
pub(super) fn text_is_flushed_after_it_is_written(alloc: Global) -> Result<bool, Error> {
    let mut output = Output::new(alloc, Frail::new(NEVER));
    let line = output.write_line(b"yes");
    let has_line = line.is_ok() && output.writer.has(b"yes\n");
    if output.text.extend_from_slice(b"took 0 1\n").is_err() {
        return Err(Error::Memory);
    }
    let text = output.flush();
    let has_both = text.is_ok() && output.writer.has(b"yes\ntook 0 1\n");
    Ok(has_line && has_both && output.text.is_empty())
}
