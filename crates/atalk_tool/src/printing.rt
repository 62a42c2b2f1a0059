//! Standard output, for the lines of a command.

use crate::telling::{Lines, Telling};
use json_lines::JsonLines;
use std::io;
use std::io::{Write, writer};

/// Standard output, or nothing; of several inputs, with the name of the input before each line.
#[derive(Drop)]
struct Standard<'a, R> {
    rt: &'a R,
    name: Option<&'a str>,
}

impl<R: Print> Write for Standard<'_, R> {
    fn write(&mut self, bytes: &[u8]) -> io::Result<usize> {
        if let Some(name) = self.name.take() {
            writer(self.rt).write_all(name.as_bytes())?;
            writer(self.rt).write_all(b": ")?;
        }
        writer(self.rt).write(bytes)
    }

    fn flush(&mut self) -> io::Result<()> {
        writer(self.rt).flush()
    }
}

/// Where the lines of a command go: to standard output, as text or as JSON objects, or nowhere.
#[derive(Drop)]
pub struct Printing<'a, R> {
    lines: Lines,
    text: Standard<'a, R>,
    json: JsonLines<'a, Standard<'a, R>>,
}

impl<'a, R: Print + AllocGlobal> Printing<'a, R> {
    /// Where the lines go that a command prints of its only input.
    pub fn new(rt: &'a R, telling: Telling) -> Printing<'a, R> {
        Printing::named(rt, telling, None)
    }

    /// Where the only line goes that a command prints of one of several inputs, which has this name.
    pub fn named(rt: &'a R, telling: Telling, name: Option<&'a str>) -> Printing<'a, R> {
        Printing {
            lines: telling.lines,
            text: Standard { rt, name },
            json: JsonLines::new(rt.alloc(), Standard { rt, name: None }, name),
        }
    }
}

impl<R: Print> Write for Printing<'_, R> {
    fn write(&mut self, bytes: &[u8]) -> io::Result<usize> {
        match self.lines {
            Lines::Text => self.text.write(bytes),
            Lines::Json => self.json.write(bytes),
            Lines::Nothing => Ok(bytes.len()),
        }
    }

    fn flush(&mut self) -> io::Result<()> {
        match self.lines {
            Lines::Text => self.text.flush(),
            Lines::Json => self.json.flush(),
            Lines::Nothing => Ok(()),
        }
    }
}
