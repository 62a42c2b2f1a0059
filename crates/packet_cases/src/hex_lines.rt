//! Bytes in lines of limited length.

use at_base::Bytes;
use std::alloc::AllocError;

/// The position in the text at which a line of bytes begins, and whether the line ends with a
/// count.
#[derive(Clone, Copy)]
struct Line {
    start: usize,
    counted: bool,
}

/// Begins a new line if this one has more than 90 columns, or else puts a space between two words.
fn put_gap(text: &mut String, line: Line, apart: bool) -> Result<Line, AllocError> {
    let width = text.len().saturating_sub(line.start);
    let mut start = line.start;
    if width > 90 {
        writeln!(text)?;
        start = text.len();
    } else if apart && width > 0 {
        write!(text, " ")?;
    }
    Ok(Line {
        start,
        counted: apart,
    })
}

/// Appends a byte that occurs `count` times in a row: from eight times on as `00*8`.
fn put_run(text: &mut String, line: Line, byte: u8, count: usize) -> Result<Line, AllocError> {
    if count >= 8 {
        let line = put_gap(text, line, true)?;
        write!(text, "{byte:02X}*{count}")?;
        return Ok(line);
    }
    let line = put_gap(text, line, line.counted)?;
    for _ in 0..count {
        write!(text, "{byte:02X}")?;
    }
    Ok(Line {
        start: line.start,
        counted: false,
    })
}

/// Appends bytes in the form of case files, `-` for none, and ends the line.
pub(crate) fn put_bytes(text: &mut String, bytes: &[u8]) -> Result<(), AllocError> {
    if bytes.is_empty() {
        write!(text, "-")?;
    }
    let mut line = Line {
        start: text.len(),
        counted: false,
    };
    let (mut last, mut count) = (0, 0usize);
    for byte in bytes {
        if *byte != last && count > 0 {
            line = put_run(text, line, last, count)?;
            count = 0;
        }
        last = *byte;
        count = count.saturating_add(1);
    }
    put_run(text, line, last, count)?;
    writeln!(text)
}

/// Appends bytes that were written, their number, and their capacity.
pub(crate) fn put_written(text: &mut String, bytes: Bytes) -> Result<(), AllocError> {
    put_bytes(text, bytes.as_slice())?;
    let len = bytes.len();
    let room = bytes.into_vec().capacity();
    writeln!(text, "length {len}, room {room}")
}
