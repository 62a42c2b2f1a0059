//! The outputs of stations, as text.

use case_words::{put_hex, put_hw};
use station::{DropCause, Kind, Next, Output, Outputs};
use std::alloc::AllocError;

/// The numbers of bytes of the fields of a datagram's header: hops and length, checksum, target
/// network, source network, target node, source node, target socket, source socket, type.
const HEADER: [usize; 9] = [2, 2, 2, 2, 1, 1, 1, 1, 1];

/// The numbers of bytes of the fields of an AARP packet: hardware type, protocol type, lengths,
/// function, and hardware and protocol address of the source and of the target.
const PACKET: [usize; 9] = [2, 2, 1, 1, 2, 6, 4, 6, 4];

/// The greatest number of data bytes on the line of the header, and on a separate line.
const BESIDE: usize = 24;

const A_LINE: usize = 48;

/// Appends the next station of a datagram.
pub(crate) fn put_next(text: &mut String, next: Next) -> Result<(), AllocError> {
    match next {
        Next::Station(addr) => write!(text, "to {addr}"),
        Next::All => write!(text, "to all"),
        Next::Group(group) => write!(text, "to group {group}"),
    }
}

/// The first `size` of the bytes, or all if there are fewer, and the rest of them.
fn cut(bytes: &[u8], size: usize) -> (&[u8], &[u8]) {
    if size <= bytes.len() {
        bytes.split_at(size)
    } else {
        (bytes, &[])
    }
}

/// Appends bytes in groups of these sizes. Returns the rest of the bytes.
fn put_groups<'a>(
    text: &mut String,
    bytes: &'a [u8],
    sizes: &[usize],
) -> Result<&'a [u8], AllocError> {
    let mut rest = bytes;
    for size in sizes {
        let (group, after) = cut(rest, *size);
        text.push(' ')?;
        put_hex(text, group)?;
        rest = after;
    }
    Ok(rest)
}

/// Appends the line of a packet: its header in groups, and its data; long data is on separate
/// lines.
fn put_bytes(text: &mut String, bytes: &[u8], sizes: &[usize]) -> Result<(), AllocError> {
    let data = put_groups(text, bytes, sizes)?;
    if data.len() <= BESIDE {
        if !data.is_empty() {
            text.push(' ')?;
            put_hex(text, data)?;
        }
        return writeln!(text);
    }
    writeln!(text)?;
    for line in data.chunks(A_LINE) {
        write!(text, "  ")?;
        put_hex(text, line)?;
        writeln!(text)?;
    }
    Ok(())
}

/// Appends the line of a packet of this kind.
pub(crate) fn put_packet(text: &mut String, kind: Kind, bytes: &[u8]) -> Result<(), AllocError> {
    match kind {
        Kind::Ddp => put_bytes(text, bytes, &HEADER),
        Kind::Aarp => put_bytes(text, bytes, &PACKET),
    }
}

fn cause_word(cause: DropCause) -> &'static str {
    match cause {
        DropCause::NoRoute => "no route",
        DropCause::HopLimit => "hop limit",
    }
}

/// Appends the line of an output.
fn put_output(text: &mut String, output: &Output) -> Result<(), AllocError> {
    match output {
        Output::Made { port, next, bytes } => {
            write!(text, "made port {port} ")?;
            put_next(text, *next)?;
            put_bytes(text, bytes.as_slice(), &HEADER)
        }
        Output::Passed { port, next, bytes } => {
            write!(text, "passed port {port} ")?;
            put_next(text, *next)?;
            put_bytes(text, bytes.as_slice(), &HEADER)
        }
        Output::Kept { port, bytes } => {
            write!(text, "kept port {port}")?;
            put_bytes(text, bytes.as_slice(), &HEADER)
        }
        Output::Dropped { cause, bytes } => {
            let word = cause_word(*cause);
            write!(text, "dropped {word}")?;
            put_bytes(text, bytes.as_slice(), &HEADER)
        }
        Output::Wire { port, to, bytes } => {
            write!(text, "wire port {port} to ")?;
            put_hw(text, *to)?;
            put_bytes(text, bytes.as_slice(), &PACKET)
        }
    }
}

/// Appends the lines of outputs, the oldest first, each after the number of the tick, if one is
/// given.
pub(crate) fn put_outputs(
    text: &mut String,
    number: Option<u32>,
    outputs: &Outputs,
) -> Result<(), AllocError> {
    for index in 0..outputs.len() {
        if let Some(output) = outputs.get(index) {
            if let Some(number) = number {
                write!(text, "tick {number} ")?;
            }
            put_output(text, output)?;
        }
    }
    Ok(())
}
