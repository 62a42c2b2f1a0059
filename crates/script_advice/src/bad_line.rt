//! Why a line of a script is bad.

use crate::command::{Command, Word};
use crate::lines::line_at;
use crate::shown::write_shown;
use script::read;
use std::alloc::{AllocError, Global};
use std::io;
use std::io::Write;

/// The words of a line. The last one of a request is the rest of the line.
fn words_in(alloc: Global, line: &[u8]) -> Result<Vec<&[u8]>, AllocError> {
    let mut words = Vec::new(alloc);
    for word in line.split(|byte| *byte == b' ') {
        words.push(word)?;
    }
    Ok(words)
}

/// Whether the reader of scripts takes a line.
fn is_step(alloc: Global, line: &[u8]) -> bool {
    read(alloc, line).is_ok()
}

/// The line that has these words up to one, and right words after it.
fn line_up_to(
    alloc: Global,
    command: Command,
    words: &[&[u8]],
    last: usize,
) -> Result<Vec<u8>, AllocError> {
    let mut line = Vec::new(alloc);
    line.extend_from_slice(command.name().as_bytes())?;
    for (index, word) in command.words().iter().enumerate() {
        line.push(b' ')?;
        match words.get(index.saturating_add(1)) {
            Some(given) if index <= last => line.extend_from_slice(given)?,
            _ => line.extend_from_slice(word.sample.as_bytes())?,
        }
    }
    Ok(line)
}

/// The first word of a command that is wrong, by the reader of scripts: with right words after it,
/// the line is bad.
fn first_wrong(
    alloc: Global,
    command: Command,
    words: &[&[u8]],
) -> Result<Option<(usize, Word)>, AllocError> {
    for (index, word) in command.words().iter().enumerate() {
        let line = line_up_to(alloc, command, words, index)?;
        if !is_step(alloc, line.as_slice()) {
            return Ok(Some((index, *word)));
        }
    }
    Ok(None)
}

/// Writes what is wrong with a line that begins with a command.
fn write_wrong<W: Write>(
    alloc: Global,
    writer: &mut W,
    command: Command,
    words: &[&[u8]],
) -> io::Result<()> {
    let (name, want, have) = (
        command.name(),
        command.words().len(),
        words.len().saturating_sub(1),
    );
    if let Some((index, word)) = first_wrong(alloc, command, words)?
        && let Some(given) = words.get(index.saturating_add(1))
    {
        write!(writer, "{} of {name} is ", word.name)?;
        write_shown(writer, given)?;
        return writeln!(writer, "; it has to be {}", word.must);
    }
    writeln!(
        writer,
        "{name} has {want} words after it, and here are {have}"
    )
}

/// Writes what is wrong with a line.
fn write_line<W: Write>(alloc: Global, writer: &mut W, line: &[u8]) -> io::Result<()> {
    if line.last() == Some(&b'\r') {
        return writeln!(
            writer,
            "it ends with a carriage return; a line ends with a line feed alone"
        );
    }
    let words = words_in(alloc, line)?;
    let first = match words.first() {
        Some(word) => word,
        None => line,
    };
    match Command::named(first) {
        Some(command) => write_wrong(alloc, writer, command, words.as_slice()),
        None => {
            write_shown(writer, first)?;
            writeln!(
                writer,
                " is no command; send, request, take and drain are, and a comment begins with #"
            )
        }
    }
}

/// Writes why the line with this number, from 1, of the script with this name is bad. The text is
/// that of the script, as far as it was read.
pub fn write_bad_line<W: Write>(
    alloc: Global,
    writer: &mut W,
    name: &str,
    text: &[u8],
    number: u32,
) -> io::Result<()> {
    write!(writer, "atalk: {name}, line {number}: ")?;
    match line_at(text, number) {
        Some(line) => write_line(alloc, writer, line)?,
        None => writeln!(writer, "it has no step")?,
    }
    writeln!(writer, "man atalk-script has the format of a script")
}
